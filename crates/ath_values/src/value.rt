// Nodes of values and environments. Their parts are named by number.

ghost use Rattle.std.specs.Prelude.{◌≡◌};
ghost use Rattle.ath_values.specs.declared.value.ValueError.TheVariants.{Memory};

use ath_sorts::Sym;
use ath_syntax::{PhraseId, Text};
use ath_trees::{Conn, Quant, SentId, TermId};
use sqlite_items::Items;
use std::alloc::AllocError;
use thiserror::Error;

/// The number of a value.
#[derive(Clone, Copy, Debug, PartialEq, Eq)]
pub struct ValueId(pub usize);

/// The number of an environment.
#[derive(Clone, Copy, Debug, PartialEq, Eq)]
pub struct EnvId(pub usize);

/// A procedure is applied to values and gives a value, a method is called and gives a theorem.
#[derive(Clone, Copy, Debug, PartialEq, Eq)]
pub enum Kind {
    Procedure,
    Method,
}

/// A value, whose terms and sentences are numbers of a `Store`. An atom is always a `Term`.
#[derive(Debug, Drop)]
pub enum Value {
    Term(TermId),
    Sent(SentId),
    List(Items<ValueId>),
    Str(Text),
    /// a symbol that isn't applied, as `=`
    Symbol(Sym),
    Conn(Conn),
    Quant(Quant),
    /// the mark `<==`
    Back,
    /// a primitive procedure by its number
    PrimProc(u32),
    /// a primitive method by its number
    PrimMethod(u32),
    /// its parameters, its body, and the environment in which it was written
    Closure(Kind, Items<Sym>, PhraseId, EnvId),
}

/// A member of a group, as `letrec` binds them: each sees all.
#[derive(Debug, Drop)]
pub struct Member {
    pub name: Sym,
    pub kind: Kind,
    pub params: Items<Sym>,
    pub body: PhraseId,
}

/// An environment: the one without entries, or one with an entry before those of its parent.
#[derive(Debug, Drop)]
pub enum EnvNode {
    Root,
    Bind(Sym, ValueId, EnvId),
    Group(Items<Member>, EnvId),
}

/// A value with the nodes and levels of its tree.
#[derive(Drop)]
pub struct KeptValue {
    pub value: Value,
    pub nodes: u64,
    pub levels: u64,
}

/// An environment with the number of its entries, a group counted once.
#[derive(Drop)]
pub struct KeptEnv {
    pub node: EnvNode,
    pub depth: u64,
}

/// Why a value isn't made.
#[derive(Debug, Drop, Error)]
pub enum ValueError {
    /// it would have so many nodes
    #[error("{0} nodes, and 100000 are the most")]
    TooLarge(u64),
    /// it would have so many levels
    #[error("{0} levels, and 2000 are the most")]
    TooDeep(u64),
    #[error("out of memory")]
    Memory,
}

impl From<AllocError> for ValueError {
    ghost from_gives = { λ _ e. e ≡ Memory };

    fn from(_error: AllocError) -> ValueError {
        ValueError::Memory
    }
}
