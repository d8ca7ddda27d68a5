// The table of the grammar: how each symbol goes on at a token of a class.

ghost use Rattle.std.specs.Prelude.{◌≡◌};
ghost use Rattle.ath_grammar.specs.Grammar.{grammar};
ghost use Rattle.ath_grammar.specs.Rows.{row_of};

use crate::class::Class;
use crate::production::Production;
use crate::symbol::Symbol;
use crate::{directives, forms, phrases, small};

/// How a symbol goes on at a token of this class, by the grammar.
pub fn row(symbol: Symbol, class: Class) -> Production
    ensures { row_of result ≡ grammar symbol class }
{
    match symbol {
        Symbol::Directive => directives::directive(class),
        Symbol::DirectiveInside => directives::directive_inside(class),
        Symbol::Header => directives::header(class),
        Symbol::Constructor => directives::constructor(class),
        Symbol::Constructors => directives::constructors(class),
        Symbol::ConstructorRows => directives::constructor_rows(class),
        Symbol::DeclaredNames => directives::declared_names(class),
        Symbol::Group => directives::group(class),
        Symbol::GroupNames => directives::group_names(class),
        Symbol::Signature => directives::signature(class),
        Symbol::SignatureInside => directives::signature_inside(class),
        Symbol::Type => directives::type_form(class),
        Symbol::TypeInside => directives::type_inside(class),
        Symbol::BareSignature => directives::bare_signature(class),
        Symbol::BareSignatureInside => directives::bare_signature_inside(class),
        Symbol::BareType => directives::bare_type(class),
        Symbol::Definition => directives::definition(class),
        Symbol::DefinitionInside => directives::definition_inside(class),
        Symbol::Sort => small::sort(class),
        Symbol::SortInside => small::sort_inside(class),
        Symbol::Sorts => small::sorts(class),
        Symbol::SquareSorts => small::square_sorts(class),
        Symbol::Pattern => small::pattern(class),
        Symbol::PatternInside => small::pattern_inside(class),
        Symbol::Patterns => small::patterns(class),
        Symbol::SquarePatterns => small::square_patterns(class),
        Symbol::Parameters => small::parameters(class),
        Symbol::SortVariables => small::sort_variables(class),
        Symbol::Phrase => phrases::phrase(class),
        Symbol::VariableSort => phrases::variable_sort(class),
        Symbol::Inside => phrases::inside(class),
        Symbol::AfterOperator => phrases::after_operator(class),
        Symbol::AfterWord => phrases::after_word(class),
        Symbol::AfterFirst => phrases::after_first(class),
        Symbol::Parts => phrases::parts(class),
        Symbol::SquareParts => phrases::square_parts(class),
        Symbol::Sequence => phrases::sequence(class),
        Symbol::Lambda => forms::lambda(class),
        Symbol::Method => forms::method(class),
        Symbol::Closure => forms::closure(class),
        Symbol::ClosureInside => forms::closure_inside(class),
        Symbol::Let => forms::let_form(class),
        Symbol::LetPairs => forms::let_pairs(class),
        Symbol::LetRows => forms::let_rows(class),
        Symbol::LetRec => forms::let_rec(class),
        Symbol::LetRecPair => forms::let_rec_pair(class),
        Symbol::LetRecPairs => forms::let_rec_pairs(class),
        Symbol::LetRecRow => forms::let_rec_row(class),
        Symbol::LetRecRows => forms::let_rec_rows(class),
        Symbol::Clauses => forms::clauses(class),
        Symbol::ClausesInside => forms::clauses_inside(class),
        Symbol::ClausePairs => forms::clause_pairs(class),
        Symbol::ClauseRows => forms::clause_rows(class),
        Symbol::Check => forms::check_form(class),
        Symbol::CheckInside => forms::check_inside(class),
        Symbol::BranchInside => forms::branch_inside(class),
        Symbol::BranchPairs => forms::branch_pairs(class),
        Symbol::BranchRow => forms::branch_row(class),
        Symbol::BranchRows => forms::branch_rows(class),
        Symbol::Try => forms::try_form(class),
        Symbol::TryInside => forms::try_inside(class),
        Symbol::Alternatives => forms::alternatives(class),
        Symbol::Hypothesis => forms::hypothesis(class),
        Symbol::HypothesisName => forms::hypothesis_name(class),
        Symbol::FirstBinder => forms::first_binder(class),
        Symbol::AfterFirstBinder => forms::after_first_binder(class),
        Symbol::Binders => forms::binders(class),
        Symbol::AfterBinder => forms::after_binder(class),
    }
}
