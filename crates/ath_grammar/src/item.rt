// The words of a grammar's table.

use crate::action::Action;
use crate::class::Class;
use crate::symbol::Symbol;

/// Which kind of phrase may stand at a place, or is begun: any, or deductions alone (true) or expressions alone.
#[derive(Clone, Copy)]
pub enum Want {
    Any,
    Only(bool),
}

/// How a symbol's kind follows from what the production's own symbol is told: the same; that of the phrase that was read
/// last; that of what a `let` binds; or that of a `let` behind what it bound last.
#[derive(Clone, Copy)]
pub enum Rule {
    Same,
    AsTop,
    Bound,
    After,
}

/// What a symbol is told to be: this, or what a rule makes of it.
#[derive(Clone, Copy)]
pub enum Attr {
    Is(Want),
    Given(Rule, Want),
}

/// A part of a production: a token of a class, a symbol, or what is made of what was read.
#[derive(Clone, Copy)]
pub enum Item {
    Token(Class),
    Symbol(Symbol, Attr),
    Act(Action),
}
