// What the nodes of terms and sentences are built of. Their parts are named by number.

ghost use Rattle.std.specs.Prelude.{◌≡◌};
ghost use Rattle.ath_trees.specs.Tree.{binary_of, conn_of};

use ath_sorts::{Sort, Sym};

/// The number of a term in a store.
#[derive(Clone, Copy, Debug, PartialEq, Eq)]
pub struct TermId(pub usize);

/// The number of a sentence in a store.
#[derive(Clone, Copy, Debug, PartialEq, Eq)]
pub struct SentId(pub usize);

/// A variable: `?x` has index 0, `?x%3` has index 3. Variables of two sorts are two.
#[derive(Debug, Drop)]
pub struct Var {
    pub name: Sym,
    pub index: u64,
    pub sort: Sort,
}

/// The connectives. `Not` has one part, each other has two.
#[derive(Clone, Copy, Debug, PartialEq, Eq)]
pub enum Conn {
    Not,
    And,
    Or,
    If,
    Iff,
}

/// The connectives of two parts.
#[derive(Clone, Copy, Debug, PartialEq, Eq)]
pub enum Binary {
    And,
    Or,
    If,
    Iff,
}

#[derive(Clone, Copy, Debug, PartialEq, Eq)]
pub enum Quant {
    Forall,
    Exists,
}

impl Conn {
    /// The connective as one of two parts; `Not` is none.
    pub fn binary(self) -> Option<Binary>
        ensures { result ≡ binary_of self }
    {
        match self {
            Conn::Not => None,
            Conn::And => Some(Binary::And),
            Conn::Or => Some(Binary::Or),
            Conn::If => Some(Binary::If),
            Conn::Iff => Some(Binary::Iff),
        }
    }
}

impl Binary {
    /// The same connective among all of them.
    pub fn conn(self) -> Conn
        ensures { result ≡ conn_of self }
    {
        match self {
            Binary::And => Conn::And,
            Binary::Or => Conn::Or,
            Binary::If => Conn::If,
            Binary::Iff => Conn::Iff,
        }
    }
}
