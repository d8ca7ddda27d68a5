// What a symbol goes on with.

use crate::action::{Action, Guard};
use crate::item::{Attr, Item, Want};
use crate::symbol::Symbol;

/// How a symbol goes on at a token of a class. The want says of which kind a phrase is that goes on so.
#[derive(Clone, Copy)]
pub enum Production {
    Nothing,
    /// by the token, which has to fit the guard, and then by these
    Take(Want, Guard, &'static [Item]),
    /// by nothing: the token is left, and these are done
    Skip(Want, &'static [Action]),
    /// as that symbol begins by a token of its own, and then by these
    BeginAs(Want, Symbol, Attr, &'static [Item]),
}

// An item: an action, a token that comes next, or a symbol with its kind.
macro_rules! item {
    (act $x:ident) => { Item::Act(Action::$x) };
    (token $c:ident) => { Item::Token(Class::$c) };
    (word $w:ident) => { Item::Token(Class::Word(WordClass::$w)) };
    (opener $o:ident) => { Item::Token(Class::Opener(Opener::$o)) };
    (mark $m:ident) => { Item::Token(Class::Mark(Mark::$m)) };
    (any $s:ident) => { Item::Symbol(Symbol::$s, Attr::Is(Want::Any)) };
    (expression $s:ident) => { Item::Symbol(Symbol::$s, Attr::Is(Want::Only(false))) };
    (deduction $s:ident) => { Item::Symbol(Symbol::$s, Attr::Is(Want::Only(true))) };
    (same $s:ident) => { Item::Symbol(Symbol::$s, Attr::Given(Rule::Same, Want::Any)) };
    (alike $s:ident) => { Item::Symbol(Symbol::$s, Attr::Given(Rule::AsTop, Want::Any)) };
    (bound $s:ident) => { Item::Symbol(Symbol::$s, Attr::Given(Rule::Bound, Want::Any)) };
    (after $s:ident) => { Item::Symbol(Symbol::$s, Attr::Given(Rule::After, Want::Any)) };
}

// The token and then these: of a phrase of any kind or what is no phrase, of an expression, of a deduction, and where a
// name differs from those before it.
macro_rules! by {
    ($($k:ident $v:ident),*) => { Production::Take(Want::Any, Guard::Free, &[$(item!($k $v)),*]) };
}

macro_rules! by_expression {
    ($($k:ident $v:ident),*) => { Production::Take(Want::Only(false), Guard::Free, &[$(item!($k $v)),*]) };
}

macro_rules! by_deduction {
    ($($k:ident $v:ident),*) => { Production::Take(Want::Only(true), Guard::Free, &[$(item!($k $v)),*]) };
}

macro_rules! by_new {
    ($($k:ident $v:ident),*) => { Production::Take(Want::Any, Guard::New, &[$(item!($k $v)),*]) };
}

// As this symbol begins, and then these.
macro_rules! as_any {
    ($s:ident; $($k:ident $v:ident),*) => { Production::BeginAs(Want::Any, Symbol::$s, Attr::Is(Want::Any), &[$(item!($k $v)),*]) };
}

macro_rules! as_expression {
    ($s:ident; $($k:ident $v:ident),*) => { Production::BeginAs(Want::Any, Symbol::$s, Attr::Is(Want::Only(false)), &[$(item!($k $v)),*]) };
}

macro_rules! as_same {
    ($s:ident; $($k:ident $v:ident),*) => { Production::BeginAs(Want::Any, Symbol::$s, Attr::Given(Rule::Same, Want::Any), &[$(item!($k $v)),*]) };
}

// The token is left, and these are done.
macro_rules! skip {
    ($($x:ident),*) => { Production::Skip(Want::Any, &[$(Action::$x),*]) };
}

pub(crate) use as_any;
pub(crate) use as_expression;
pub(crate) use as_same;
pub(crate) use by;
pub(crate) use by_deduction;
pub(crate) use by_expression;
pub(crate) use by_new;
pub(crate) use item;
pub(crate) use skip;
