// The rows of phrases.

ghost use Rattle.std.specs.Prelude.{◌≡◌};
ghost use Rattle.ath_grammar.specs.Grammar.{grammar};
ghost use Rattle.ath_grammar.specs.Rows.{row_of};

use crate::action::{Action, Guard};
use crate::class::{Class, Mark, Opener, WordClass};
use crate::item::{Attr, Item, Rule, Want};
use crate::production::{
    Production, as_any, as_expression, as_same, by, by_deduction, by_expression, item, skip,
};
use crate::symbol::Symbol;

pub(crate) fn phrase(class: Class) -> Production
    ensures { row_of result ≡ grammar Symbol.Phrase class }
{
    match class {
        Class::Word(_) => by_expression![act Name],
        Class::Variable => by_expression![any VariableSort],
        Class::Text => by_expression![act String],
        Class::Opener(Opener::OpenBracket) =>
            by_expression![act NoPhrases, any SquareParts, act List],
        Class::Opener(Opener::Open) => by![same Inside],
        Class::Opener(Opener::Lambda) => by_expression![any Lambda],
        Class::Opener(Opener::Method) => by_expression![any Method],
        Class::Opener(Opener::Let) => by![same Let],
        Class::Opener(Opener::LetDeduction) => by_deduction![deduction Let],
        Class::Opener(Opener::LetRec) => by![same LetRec],
        Class::Opener(Opener::Match) => by![expression Phrase, same Clauses, act Match],
        Class::Opener(Opener::MatchDeduction) =>
            by_deduction![expression Phrase, deduction Clauses, act Match],
        Class::Opener(Opener::Check) => by![same Check],
        Class::Opener(Opener::Try) => by![same Try],
        Class::Opener(Opener::OpenBrace) =>
            by_deduction![deduction Phrase, act OnePhrase, any Sequence, act Sequence],
        Class::Opener(Opener::Assume) =>
            by_deduction![any Hypothesis, deduction Phrase, act Assume],
        Class::Opener(Opener::Absurd) =>
            by_deduction![any Hypothesis, deduction Phrase, act Absurd],
        Class::Opener(Opener::PickAny) => by_deduction![act NoBinders, deduction FirstBinder],
        Class::Opener(Opener::PickWitness) =>
            by_deduction![word Plain, any Phrase, deduction Phrase, act PickWitness],
        Class::Opener(Opener::Induct) =>
            by_deduction![expression Phrase, deduction Clauses, act Induct],
        Class::Opener(Opener::Cases) =>
            by_deduction![expression Phrase, deduction Clauses, act Cases],
        Class::Opener(Opener::Conclude) =>
            by_deduction![any Hypothesis, deduction Phrase, act Conclude],
        _ => Production::Nothing,
    }
}

pub(crate) fn variable_sort(class: Class) -> Production
    ensures { row_of result ≡ grammar Symbol.VariableSort class }
{
    match class {
        Class::Mark(Mark::Colon) => by![any Sort, act SortedVariable],
        _ => skip![Variable],
    }
}

pub(crate) fn inside(class: Class) -> Production
    ensures { row_of result ≡ grammar Symbol.Inside class }
{
    match class {
        Class::Word(WordClass::Tilde) => Production::Nothing,
        Class::Word(WordClass::Infix) => by_expression![act Name, any AfterOperator],
        Class::Word(_) => by_expression![act Name, any AfterWord],
        Class::Mark(Mark::Bang) =>
            by_deduction![expression Phrase, act NoPhrases, any Parts, act Call],
        Class::Opener(Opener::Lambda) => by_expression![act Drop, any Lambda, mark Close],
        Class::Opener(Opener::Method) => by_expression![act Drop, any Method, mark Close],
        Class::Opener(Opener::Let) => by![act Drop, same Let, mark Close],
        Class::Opener(Opener::LetDeduction) => by_deduction![act Drop, deduction Let, mark Close],
        Class::Opener(Opener::LetRec) => by![act Drop, same LetRec, mark Close],
        Class::Opener(Opener::Match) =>
            by![act Drop, expression Phrase, same ClausesInside, act Match],
        Class::Opener(Opener::MatchDeduction) =>
            by_deduction![act Drop, expression Phrase, deduction ClausesInside, act Match],
        Class::Opener(Opener::Check) => by![act Drop, same CheckInside],
        Class::Opener(Opener::Try) => by![act Drop, same TryInside, act Try],
        Class::Opener(Opener::Begin) =>
            by_deduction![act Drop, deduction Phrase, act OnePhrase, deduction Parts, act Sequence],
        Class::Opener(Opener::Assume) =>
            by_deduction![act Drop, any Hypothesis, deduction Phrase, act Assume, mark Close],
        Class::Opener(Opener::Absurd) =>
            by_deduction![act Drop, any Hypothesis, deduction Phrase, act Absurd, mark Close],
        Class::Opener(Opener::PickAny) =>
            by_deduction![act Drop, act NoBinders, deduction FirstBinder, mark Close],
        Class::Opener(Opener::PickWitness) =>
            by_deduction![act Drop, word Plain, any Phrase, deduction Phrase, act PickWitness, mark Close],
        Class::Opener(Opener::Induct) =>
            by_deduction![act Drop, expression Phrase, deduction ClausesInside, act Induct],
        Class::Opener(Opener::Cases) =>
            by_deduction![act Drop, expression Phrase, deduction ClausesInside, act Cases],
        Class::Opener(Opener::Conclude) =>
            by_deduction![act Drop, any Hypothesis, deduction Phrase, act Conclude, mark Close],
        _ => as_same![Phrase; alike AfterFirst],
    }
}

pub(crate) fn after_operator(class: Class) -> Production
    ensures { row_of result ≡ grammar Symbol.AfterOperator class }
{
    match class {
        Class::Mark(Mark::Close) => by![act NoPhrases, act Apply],
        Class::Mark(Mark::Colon) => by![any Sort, mark Close, act Ascribe],
        _ => as_expression![Phrase; act OnePhrase, expression Parts, act Apply],
    }
}

pub(crate) fn after_word(class: Class) -> Production
    ensures { row_of result ≡ grammar Symbol.AfterWord class }
{
    match class {
        Class::Word(WordClass::Infix) | Class::Word(WordClass::Tilde) => Production::Nothing,
        _ => as_any![AfterOperator;],
    }
}

pub(crate) fn after_first(class: Class) -> Production
    ensures { row_of result ≡ grammar Symbol.AfterFirst class }
{
    match class {
        Class::Mark(Mark::Close) => by![act Unwrap],
        Class::Mark(Mark::Colon) => by_expression![any Sort, mark Close, act Ascribe],
        Class::Word(WordClass::Infix) | Class::Word(WordClass::Tilde) => Production::Nothing,
        _ => Production::BeginAs(
            Want::Only(false),
            Symbol::Phrase,
            Attr::Is(Want::Only(false)),
            &[
                item!(act OnePhrase),
                item!(expression Parts),
                item!(act Apply),
            ],
        ),
    }
}

pub(crate) fn parts(class: Class) -> Production
    ensures { row_of result ≡ grammar Symbol.Parts class }
{
    match class {
        Class::Mark(Mark::Close) => by![],
        _ => as_same![Phrase; act AddPhrase, same Parts],
    }
}

pub(crate) fn square_parts(class: Class) -> Production
    ensures { row_of result ≡ grammar Symbol.SquareParts class }
{
    match class {
        Class::Mark(Mark::CloseBracket) => by![],
        _ => as_expression![Phrase; act AddPhrase, any SquareParts],
    }
}

pub(crate) fn sequence(class: Class) -> Production
    ensures { row_of result ≡ grammar Symbol.Sequence class }
{
    match class {
        Class::Mark(Mark::Semicolon) => by![deduction Phrase, act AddPhrase, any Sequence],
        Class::Mark(Mark::CloseBrace) => by![],
        _ => Production::Nothing,
    }
}
