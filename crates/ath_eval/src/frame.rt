// What waits for a part's outcome.

use crate::world::Outcome;
use ath_base::ScopeId;
use ath_env::Value;
use ath_syntax::PhraseId;
use sqlite_items::Items;

/// The two forms that have a head and arguments.
#[derive(Clone, Copy, Debug)]
pub(crate) enum Use {
    Apply,
    Call,
}

/// What waits for the outcome of a part: an application, a call or an ascription; the levels that its parts have, and the
/// scope in which the part is evaluated.
#[derive(Debug, Drop)]
pub(crate) enum Frame {
    /// waits for its head
    Head(Use, PhraseId, u32, ScopeId),
    /// waits for an argument; the head's value, and those of the arguments that are done
    Argument(Use, PhraseId, Value, Items<Value>, u32, ScopeId),
    /// waits for the value that is ascribed a sort
    Ascription(PhraseId),
}

/// What comes next: to evaluate a phrase with so many levels in the world's scope, or to hand on an outcome.
#[derive(Debug, Drop)]
pub(crate) enum State {
    Enter(PhraseId, u32),
    Done(Outcome),
}
