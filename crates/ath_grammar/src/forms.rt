// The rows behind the keywords of forms.

ghost use Rattle.std.specs.Prelude.{◌≡◌};
ghost use Rattle.ath_grammar.specs.Grammar.{grammar};
ghost use Rattle.ath_grammar.specs.Rows.{row_of};

use crate::action::{Action, Guard};
use crate::class::{Class, Mark, Opener, WordClass};
use crate::item::{Attr, Item, Rule, Want};
use crate::production::{Production, as_expression, as_same, by, by_new, item, skip};
use crate::symbol::Symbol;

pub(crate) fn lambda(class: Class) -> Production
    ensures { row_of result ≡ grammar Symbol.Lambda class }
{
    match class {
        Class::Opener(Opener::Open) =>
            by![act Drop, act NoNames, any Parameters, expression Phrase, act Lambda],
        _ => Production::Nothing,
    }
}

pub(crate) fn method(class: Class) -> Production
    ensures { row_of result ≡ grammar Symbol.Method class }
{
    match class {
        Class::Opener(Opener::Open) =>
            by![act Drop, act NoNames, any Parameters, deduction Phrase, act Method],
        _ => Production::Nothing,
    }
}

pub(crate) fn closure(class: Class) -> Production
    ensures { row_of result ≡ grammar Symbol.Closure class }
{
    match class {
        Class::Opener(Opener::Lambda) => by![any Lambda],
        Class::Opener(Opener::Method) => by![any Method],
        Class::Opener(Opener::Open) => by![any ClosureInside],
        _ => Production::Nothing,
    }
}

pub(crate) fn closure_inside(class: Class) -> Production
    ensures { row_of result ≡ grammar Symbol.ClosureInside class }
{
    match class {
        Class::Opener(Opener::Lambda) => by![act Drop, any Lambda, mark Close],
        Class::Opener(Opener::Method) => by![act Drop, any Method, mark Close],
        Class::Opener(Opener::Open) => by![any ClosureInside, mark Close, act Unwrap],
        _ => Production::Nothing,
    }
}

pub(crate) fn let_form(class: Class) -> Production
    ensures { row_of result ≡ grammar Symbol.Let class }
{
    match class {
        Class::Opener(Opener::Open) =>
            by![act Drop, act NoBindings, opener Open, act Drop, word Plain, bound Phrase, mark Close, act AddBinding, after LetPairs],
        Class::Opener(Opener::OpenBrace) =>
            by![act Drop, act NoBindings, word Plain, mark Becomes, bound Phrase, act AddBinding, after LetRows],
        _ => Production::Nothing,
    }
}

pub(crate) fn let_pairs(class: Class) -> Production
    ensures { row_of result ≡ grammar Symbol.LetPairs class }
{
    match class {
        Class::Opener(Opener::Open) =>
            by![act Drop, word Plain, bound Phrase, mark Close, act AddBinding, after LetPairs],
        Class::Mark(Mark::Close) => by![same Phrase, act Let],
        _ => Production::Nothing,
    }
}

pub(crate) fn let_rows(class: Class) -> Production
    ensures { row_of result ≡ grammar Symbol.LetRows class }
{
    match class {
        Class::Mark(Mark::Semicolon) =>
            by![word Plain, mark Becomes, bound Phrase, act AddBinding, after LetRows],
        Class::Mark(Mark::CloseBrace) => by![same Phrase, act Let],
        _ => Production::Nothing,
    }
}

pub(crate) fn let_rec(class: Class) -> Production
    ensures { row_of result ≡ grammar Symbol.LetRec class }
{
    match class {
        Class::Opener(Opener::Open) =>
            by![act Drop, act NoBindings, opener Open, act Drop, same LetRecPair],
        Class::Opener(Opener::OpenBrace) => by![act Drop, act NoBindings, same LetRecRow],
        _ => Production::Nothing,
    }
}

pub(crate) fn let_rec_pair(class: Class) -> Production
    ensures { row_of result ≡ grammar Symbol.LetRecPair class }
{
    match class {
        Class::Word(WordClass::Plain) =>
            by_new![any Closure, mark Close, act AddBinding, same LetRecPairs],
        _ => Production::Nothing,
    }
}

pub(crate) fn let_rec_pairs(class: Class) -> Production
    ensures { row_of result ≡ grammar Symbol.LetRecPairs class }
{
    match class {
        Class::Opener(Opener::Open) => by![act Drop, same LetRecPair],
        Class::Mark(Mark::Close) => by![same Phrase, act LetRec],
        _ => Production::Nothing,
    }
}

pub(crate) fn let_rec_row(class: Class) -> Production
    ensures { row_of result ≡ grammar Symbol.LetRecRow class }
{
    match class {
        Class::Word(WordClass::Plain) =>
            by_new![mark Becomes, any Closure, act AddBinding, same LetRecRows],
        _ => Production::Nothing,
    }
}

pub(crate) fn let_rec_rows(class: Class) -> Production
    ensures { row_of result ≡ grammar Symbol.LetRecRows class }
{
    match class {
        Class::Mark(Mark::Semicolon) => by![same LetRecRow],
        Class::Mark(Mark::CloseBrace) => by![same Phrase, act LetRec],
        _ => Production::Nothing,
    }
}

pub(crate) fn clauses(class: Class) -> Production
    ensures { row_of result ≡ grammar Symbol.Clauses class }
{
    match class {
        Class::Opener(Opener::OpenBrace) =>
            by![act Drop, act NoClauses, any Pattern, mark Arrow, same Phrase, act AddClause, alike ClauseRows],
        _ => Production::Nothing,
    }
}

pub(crate) fn clauses_inside(class: Class) -> Production
    ensures { row_of result ≡ grammar Symbol.ClausesInside class }
{
    match class {
        Class::Opener(Opener::OpenBrace) =>
            by![act Drop, act NoClauses, any Pattern, mark Arrow, same Phrase, act AddClause, alike ClauseRows, mark Close],
        Class::Opener(Opener::Open) =>
            by![act Drop, act NoClauses, any Pattern, same Phrase, mark Close, act AddClause, alike ClausePairs],
        _ => Production::Nothing,
    }
}

pub(crate) fn clause_pairs(class: Class) -> Production
    ensures { row_of result ≡ grammar Symbol.ClausePairs class }
{
    match class {
        Class::Opener(Opener::Open) =>
            by![act Drop, any Pattern, same Phrase, mark Close, act AddClause, same ClausePairs],
        Class::Mark(Mark::Close) => by![],
        _ => Production::Nothing,
    }
}

pub(crate) fn clause_rows(class: Class) -> Production
    ensures { row_of result ≡ grammar Symbol.ClauseRows class }
{
    match class {
        Class::Mark(Mark::Bar) =>
            by![any Pattern, mark Arrow, same Phrase, act AddClause, same ClauseRows],
        Class::Mark(Mark::CloseBrace) => by![],
        _ => Production::Nothing,
    }
}

pub(crate) fn check_form(class: Class) -> Production
    ensures { row_of result ≡ grammar Symbol.Check class }
{
    match class {
        Class::Opener(Opener::OpenBrace) =>
            by![act Drop, act NoBranches, expression Phrase, mark Arrow, same Phrase, act AddBranch, alike BranchRows],
        _ => Production::Nothing,
    }
}

pub(crate) fn check_inside(class: Class) -> Production
    ensures { row_of result ≡ grammar Symbol.CheckInside class }
{
    match class {
        Class::Opener(Opener::OpenBrace) =>
            by![act Drop, act NoBranches, expression Phrase, mark Arrow, same Phrase, act AddBranch, alike BranchRows, mark Close],
        Class::Opener(Opener::Open) =>
            by![act Drop, act NoBranches, expression Phrase, same Phrase, mark Close, act AddBranch, alike BranchPairs],
        _ => Production::Nothing,
    }
}

pub(crate) fn branch_inside(class: Class) -> Production
    ensures { row_of result ≡ grammar Symbol.BranchInside class }
{
    match class {
        Class::Mark(Mark::Else) => by![same Phrase, mark Close, mark Close, act CheckElse],
        _ => as_expression![Phrase; same Phrase, mark Close, act AddBranch, same BranchPairs],
    }
}

pub(crate) fn branch_pairs(class: Class) -> Production
    ensures { row_of result ≡ grammar Symbol.BranchPairs class }
{
    match class {
        Class::Opener(Opener::Open) => by![act Drop, same BranchInside],
        Class::Mark(Mark::Close) => by![act Check],
        _ => Production::Nothing,
    }
}

pub(crate) fn branch_row(class: Class) -> Production
    ensures { row_of result ≡ grammar Symbol.BranchRow class }
{
    match class {
        Class::Mark(Mark::Else) => by![mark Arrow, same Phrase, mark CloseBrace, act CheckElse],
        _ => as_expression![Phrase; mark Arrow, same Phrase, act AddBranch, same BranchRows],
    }
}

pub(crate) fn branch_rows(class: Class) -> Production
    ensures { row_of result ≡ grammar Symbol.BranchRows class }
{
    match class {
        Class::Mark(Mark::Bar) => by![same BranchRow],
        Class::Mark(Mark::CloseBrace) => by![act Check],
        _ => Production::Nothing,
    }
}

pub(crate) fn try_form(class: Class) -> Production
    ensures { row_of result ≡ grammar Symbol.Try class }
{
    match class {
        Class::Opener(Opener::OpenBrace) =>
            by![act Drop, same Phrase, act OnePhrase, alike Alternatives, act Try],
        _ => Production::Nothing,
    }
}

pub(crate) fn try_inside(class: Class) -> Production
    ensures { row_of result ≡ grammar Symbol.TryInside class }
{
    match class {
        Class::Opener(Opener::OpenBrace) =>
            by![act Drop, same Phrase, act OnePhrase, alike Alternatives, mark Close],
        _ => as_same![Phrase; act OnePhrase, alike Parts],
    }
}

pub(crate) fn alternatives(class: Class) -> Production
    ensures { row_of result ≡ grammar Symbol.Alternatives class }
{
    match class {
        Class::Mark(Mark::Bar) => by![same Phrase, act AddPhrase, same Alternatives],
        Class::Mark(Mark::CloseBrace) => by![],
        _ => Production::Nothing,
    }
}

pub(crate) fn hypothesis(class: Class) -> Production
    ensures { row_of result ≡ grammar Symbol.Hypothesis class }
{
    match class {
        Class::Word(WordClass::Plain) => by![any HypothesisName],
        _ => as_expression![Phrase; act Unnamed],
    }
}

pub(crate) fn hypothesis_name(class: Class) -> Production
    ensures { row_of result ≡ grammar Symbol.HypothesisName class }
{
    match class {
        Class::Mark(Mark::Becomes) => by![act Named, expression Phrase],
        _ => skip![Name, Unnamed],
    }
}

pub(crate) fn first_binder(class: Class) -> Production
    ensures { row_of result ≡ grammar Symbol.FirstBinder class }
{
    match class {
        Class::Word(WordClass::Plain) => by![same AfterFirstBinder],
        _ => Production::Nothing,
    }
}

pub(crate) fn after_first_binder(class: Class) -> Production
    ensures { row_of result ≡ grammar Symbol.AfterFirstBinder class }
{
    match class {
        Class::Word(WordClass::Plain) => by![act AddBinder, same AfterBinder],
        Class::Mark(Mark::Colon) => by![any Sort, act AddSortedBinder, same Binders],
        _ => as_same![Phrase; act AddBinder, act PickAny],
    }
}

pub(crate) fn binders(class: Class) -> Production
    ensures { row_of result ≡ grammar Symbol.Binders class }
{
    match class {
        Class::Word(WordClass::Plain) => by![same AfterBinder],
        _ => as_same![Phrase; act PickAny],
    }
}

pub(crate) fn after_binder(class: Class) -> Production
    ensures { row_of result ≡ grammar Symbol.AfterBinder class }
{
    match class {
        Class::Word(WordClass::Plain) => by![act AddBinder, same AfterBinder],
        Class::Mark(Mark::Colon) => by![any Sort, act AddSortedBinder, same Binders],
        Class::Mark(_)
        | Class::Wild
        | Class::SomeOf
        | Class::SortVariable
        | Class::Directive(_)
        | Class::Opener(Opener::Begin) => Production::Skip(
            Want::Only(false),
            &[Action::Name, Action::PickAny],
        ),
        _ => as_same![Phrase; act AddBinder, act PickAny],
    }
}
