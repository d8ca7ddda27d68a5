// Why trees aren't built.

ghost use Rattle.std.specs.Prelude.{◌≡◌};
ghost use Rattle.ath_terms.specs.declared.measure.BuildError.TheVariants.{Memory};

use ath_sorts::Sort;
use ath_trees::TermId;
use std::alloc::AllocError;
use thiserror::Error;

/// Why a term or a sentence isn't built.
#[derive(Debug, Drop, Error)]
pub enum BuildError {
    /// the two sides of the first pair of sorts that can't be made equal with those before it
    #[error("two sorts can't be made equal")]
    SortClash(Sort, Sort),
    /// the wanted number of arguments or parts, and the given one
    #[error("{1} arguments, and {0} are wanted")]
    ArgCount(usize, usize),
    /// a term whose sort can't be Boolean
    #[error("a term that can't have sort Boolean")]
    NotBoolean(TermId),
    /// it would have so many nodes
    #[error("{0} nodes, and 100000 are the most")]
    TooLarge(u64),
    /// it would have so many levels
    #[error("{0} levels, and 2000 are the most")]
    TooDeep(u64),
    #[error("a sort is above the limits")]
    SortTooLarge,
    #[error("out of memory")]
    Memory,
}

impl From<AllocError> for BuildError {
    ghost from_gives = { λ _ e. e ≡ Memory };

    fn from(_error: AllocError) -> BuildError {
        BuildError::Memory
    }
}
