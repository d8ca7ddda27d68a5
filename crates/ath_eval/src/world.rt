// What an evaluation runs in, and how it ends.

ghost use Rattle.std.specs.Prelude.{◌≤◌, length};
ghost use Rattle.ath_base.specs.Stands.{AreStored};
ghost use Rattle.ath_terms.specs.SortsIn.{IsSortedIn};
ghost use Rattle.ath_eval.specs.Room.{IsRoomy, IsNarrow};
ghost use Rattle.ath_eval.specs.Sorted.{sorted-prop};

use ath_base::{Base, ScopeId};
use ath_env::Value;
use ath_names::Names;
use ath_print::Fault;
use ath_sorts::Signature;
use ath_syntax::{Phrases, Pos};
use ath_terms::{Fresh, Store};
use ath_trees::SentId;

/// The state of a run: the names, what is declared, the nodes of sentences, of assumption bases and of phrases, the scope
/// whose entries are the assumption base, the steps that are left, and the counters of fresh names. The nodes are well-sorted
/// in what is declared.
#[derive(Drop)]
pub struct World {
    pub names: Names,
    pub sig: Signature,
    pub store: Store,
    pub base: Base,
    pub scope: ScopeId,
    pub phrases: Phrases,
    pub fuel: u64,
    pub fresh: Fresh,
    pub ghost sorted: { IsSortedIn sig store } by { sorted-prop sig store },
    ghost in_store: { AreStored store base.nodes.items },
    ghost inside: { scope.0 ≤ length base.nodes.items },
    ghost roomy: { IsRoomy fuel fresh },
    ghost narrow: { IsNarrow sig },
}

/// How an evaluation ends.
#[derive(Debug, Drop)]
pub enum Outcome {
    Value(Value),
    Theorem(SentId),
    /// at the phrase that refuses
    Error(Fault, Pos),
    /// no fuel is left for the phrase at this place
    Exhausted(Pos),
}
