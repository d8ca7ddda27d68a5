// Why a substitution isn't made.

ghost use Rattle.std.specs.Prelude.{◌≡◌, ◌<◌, ◌≤◌};
ghost use Rattle.ath_subst.specs.declared.error.SubstError.TheVariants.{Memory};
ghost use Rattle.ath_subst.specs.Limited.{MatchLimited};

use crate::counts::Counts;
use ath_trees::{MOST_TERM_LEVELS, MOST_TERM_NODES};
use std::alloc::AllocError;
use thiserror::Error;

/// Why a term or a sentence isn't built.
#[derive(Debug, Drop, Error)]
pub enum SubstError {
    #[error("a sort is above the limits")]
    SortTooLarge,
    /// it would have so many nodes
    #[error("{0} nodes, and 100000 are the most")]
    TooLarge(u64),
    /// it would have so many levels
    #[error("{0} levels, and 2000 are the most")]
    TooDeep(u64),
    #[error("out of memory")]
    Memory,
}

impl From<AllocError> for SubstError {
    ghost from_gives = { λ _ e. e ≡ Memory };

    fn from(_error: AllocError) -> SubstError {
        SubstError::Memory
    }
}

/// Refuses too many nodes, and then too many levels.
pub fn check_counts(counts: Counts) -> Result<(), SubstError>
    ensures { MatchLimited counts result }
{
    if MOST_TERM_NODES < counts.nodes {
        return Err(SubstError::TooLarge(counts.nodes));
    }
    if MOST_TERM_LEVELS < counts.levels {
        return Err(SubstError::TooDeep(counts.levels));
    }
    Ok(())
}
