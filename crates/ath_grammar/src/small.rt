// The rows of sorts, patterns and lists of names.

ghost use Rattle.std.specs.Prelude.{◌≡◌};
ghost use Rattle.ath_grammar.specs.Grammar.{grammar};
ghost use Rattle.ath_grammar.specs.Rows.{row_of};

use crate::action::{Action, Guard};
use crate::class::{Class, Mark, Opener, WordClass};
use crate::item::{Attr, Item, Rule, Want};
use crate::production::{Production, as_any, by, by_new, item};
use crate::symbol::Symbol;

pub(crate) fn sort(class: Class) -> Production
    ensures { row_of result ≡ grammar Symbol.Sort class }
{
    match class {
        Class::Word(WordClass::Plain) | Class::Word(WordClass::Dotted) => by![act NameSort],
        Class::SortVariable => by![act VariableSort],
        Class::Opener(Opener::Open) => by![any SortInside],
        _ => Production::Nothing,
    }
}

pub(crate) fn sort_inside(class: Class) -> Production
    ensures { row_of result ≡ grammar Symbol.SortInside class }
{
    match class {
        Class::Word(WordClass::Plain) | Class::Word(WordClass::Dotted) =>
            by![act NoSorts, any Sorts, act ConSort],
        _ => Production::Nothing,
    }
}

pub(crate) fn sorts(class: Class) -> Production
    ensures { row_of result ≡ grammar Symbol.Sorts class }
{
    match class {
        Class::Mark(Mark::Close) => by![],
        _ => as_any![Sort; act AddSort, any Sorts],
    }
}

pub(crate) fn square_sorts(class: Class) -> Production
    ensures { row_of result ≡ grammar Symbol.SquareSorts class }
{
    match class {
        Class::Mark(Mark::CloseBracket) => by![],
        _ => as_any![Sort; act AddSort, any SquareSorts],
    }
}

pub(crate) fn pattern(class: Class) -> Production
    ensures { row_of result ≡ grammar Symbol.Pattern class }
{
    match class {
        Class::Wild => by![act AnyPattern],
        Class::Word(WordClass::Plain) | Class::Word(WordClass::Dotted) => by![act NamePattern],
        Class::Text => by![act StringPattern],
        Class::Opener(Opener::OpenBracket) =>
            by![act NoPatterns, any SquarePatterns, act ListPattern],
        Class::Opener(Opener::Open) => by![any PatternInside],
        _ => Production::Nothing,
    }
}

pub(crate) fn pattern_inside(class: Class) -> Production
    ensures { row_of result ≡ grammar Symbol.PatternInside class }
{
    match class {
        Class::Mark(Mark::ListOf) => by![any Pattern, any Pattern, mark Close, act ListOfPattern],
        Class::Word(WordClass::Plain)
        | Class::Word(WordClass::Dotted)
        | Class::Word(WordClass::Logical)
        | Class::Word(WordClass::Infix) => by![act NoPatterns, any Patterns, act AppPattern],
        Class::SomeOf => by![word Plain, mark Close, act SomePattern],
        _ => Production::Nothing,
    }
}

pub(crate) fn patterns(class: Class) -> Production
    ensures { row_of result ≡ grammar Symbol.Patterns class }
{
    match class {
        Class::Mark(Mark::Close) => by![],
        _ => as_any![Pattern; act AddPattern, any Patterns],
    }
}

pub(crate) fn square_patterns(class: Class) -> Production
    ensures { row_of result ≡ grammar Symbol.SquarePatterns class }
{
    match class {
        Class::Mark(Mark::CloseBracket) => by![],
        _ => as_any![Pattern; act AddPattern, any SquarePatterns],
    }
}

pub(crate) fn parameters(class: Class) -> Production
    ensures { row_of result ≡ grammar Symbol.Parameters class }
{
    match class {
        Class::Mark(Mark::Close) => by![],
        Class::Wild => by![act AddName, any Parameters],
        Class::Word(WordClass::Plain) => by_new![act AddName, any Parameters],
        _ => Production::Nothing,
    }
}

pub(crate) fn sort_variables(class: Class) -> Production
    ensures { row_of result ≡ grammar Symbol.SortVariables class }
{
    match class {
        Class::Mark(Mark::Close) => by![],
        Class::SortVariable => by_new![act AddName, any SortVariables],
        _ => Production::Nothing,
    }
}
