// The limits on what is built.

ghost use Rattle.ath_terms.specs.Limits.{MatchMeasured};

use crate::measure::BuildError;
use ath_trees::{MOST_TERM_LEVELS, MOST_TERM_NODES};

/// Refuses a tree with a sort above the limits, then one of too many nodes, then one of too many levels.
pub fn check_limits(small: bool, nodes: u64, levels: u64) -> Result<(), BuildError>
    ensures { MatchMeasured (record { small = small; nodes = nodes; levels = levels }) result }
{
    if !small {
        return Err(BuildError::SortTooLarge);
    }
    if MOST_TERM_NODES < nodes {
        return Err(BuildError::TooLarge(nodes));
    }
    if MOST_TERM_LEVELS < levels {
        return Err(BuildError::TooDeep(levels));
    }
    Ok(())
}
