// The nodes of terms and sentences. Their parts are named by number.

use ath_sorts::{Sort, Sym};
use ath_trees::{Conn, Quant, SentId, TermId, Var};
use sqlite_items::Items;

/// A term: a variable, or a symbol with its sort arguments and its arguments.
#[derive(Drop)]
pub enum TermNode {
    Var(Var),
    App(Sym, Items<Sort>, Items<TermId>),
}

/// A sentence: an atom (a term of sort Boolean), an equation, a connective, or a quantifier over a variable.
#[derive(Drop)]
pub enum SentNode {
    Atom(TermId),
    Eq(TermId, TermId),
    Conn(Conn, Items<SentId>),
    Quant(Quant, Var, SentId),
}
