// What a directive does that is told.

use crate::fault::Fault;
use ath_env::Value;
use ath_sorts::Sym;
use ath_syntax::Pos;
use ath_trees::SentId;
use sqlite_items::Items;

/// What a directive does that is told.
#[derive(Debug, Drop)]
pub enum Event {
    Domain(Sym),
    Symbols(Items<Sym>),
    Assertion(SentId),
    Theorem(SentId),
    Shown(Value),
    Error(Pos, Fault),
    /// no fuel is left for the phrase at this place
    Fuel(Pos),
}
