// The rows of directives.

ghost use Rattle.std.specs.Prelude.{◌≡◌};
ghost use Rattle.ath_grammar.specs.Grammar.{grammar};
ghost use Rattle.ath_grammar.specs.Rows.{row_of};

use crate::action::{Action, Guard};
use crate::class::{Class, DirectiveWord, Mark, Opener, WordClass};
use crate::item::{Attr, Item, Rule, Want};
use crate::production::{Production, as_any, by, item, skip};
use crate::symbol::Symbol;

pub(crate) fn directive(class: Class) -> Production
    ensures { row_of result ≡ grammar Symbol.Directive class }
{
    match class {
        Class::Directive(DirectiveWord::Domain) => by![any Header, act Domain],
        Class::Directive(DirectiveWord::Datatype) =>
            by![any Header, mark Becomes, act NoConstructors, any Constructor, any ConstructorRows, act Datatype],
        Class::Directive(DirectiveWord::Declare) =>
            by![word Plain, act OneName, any DeclaredNames, act NoParameters, any BareSignature, act Declare],
        Class::Directive(DirectiveWord::Define) => by![any Definition],
        Class::Directive(DirectiveWord::Assert) => by![any Hypothesis, act Assert],
        Class::Directive(DirectiveWord::AssertClosed) => by![any Hypothesis, act AssertClosed],
        Class::Directive(DirectiveWord::Load) => by![token Text, act Load],
        Class::Opener(Opener::Open) => by![act Again, any DirectiveInside],
        _ => as_any![Phrase; act Say],
    }
}

pub(crate) fn directive_inside(class: Class) -> Production
    ensures { row_of result ≡ grammar Symbol.DirectiveInside class }
{
    match class {
        Class::Directive(DirectiveWord::Domain) =>
            by![act Drop, act Drop, any Header, mark Close, act Domain],
        Class::Directive(DirectiveWord::Datatype) =>
            by![act Drop, act Drop, any Header, act NoConstructors, any Constructor, any Constructors, act Datatype],
        Class::Directive(DirectiveWord::Declare) =>
            by![act Drop, act Drop, any Group, act NoParameters, any Signature, mark Close, act Declare],
        Class::Directive(DirectiveWord::Define) => by![act Drop, act Drop, any DefinitionInside],
        Class::Directive(DirectiveWord::Assert) =>
            by![act Drop, act Drop, expression Phrase, act Unnamed, mark Close, act Assert],
        Class::Directive(DirectiveWord::AssertClosed) =>
            by![act Drop, act Drop, expression Phrase, act Unnamed, mark Close, act AssertClosed],
        Class::Directive(DirectiveWord::Load) =>
            by![act Drop, act Drop, token Text, mark Close, act Load],
        _ => as_any![Inside; act SayAt],
    }
}

pub(crate) fn header(class: Class) -> Production
    ensures { row_of result ≡ grammar Symbol.Header class }
{
    match class {
        Class::Word(WordClass::Plain) => by![act NoNames],
        Class::Opener(Opener::Open) =>
            by![act Drop, word Plain, token SortVariable, act OneName, any SortVariables],
        _ => Production::Nothing,
    }
}

pub(crate) fn constructor(class: Class) -> Production
    ensures { row_of result ≡ grammar Symbol.Constructor class }
{
    match class {
        Class::Word(WordClass::Plain) => by![act NoSorts, act AddConstructor],
        Class::Opener(Opener::Open) =>
            by![act Drop, word Plain, act NoSorts, any Sorts, act AddConstructor],
        _ => Production::Nothing,
    }
}

pub(crate) fn constructors(class: Class) -> Production
    ensures { row_of result ≡ grammar Symbol.Constructors class }
{
    match class {
        Class::Mark(Mark::Close) => by![],
        _ => as_any![Constructor; any Constructors],
    }
}

pub(crate) fn constructor_rows(class: Class) -> Production
    ensures { row_of result ≡ grammar Symbol.ConstructorRows class }
{
    match class {
        Class::Mark(Mark::Bar) => by![any Constructor, any ConstructorRows],
        _ => skip![],
    }
}

pub(crate) fn declared_names(class: Class) -> Production
    ensures { row_of result ≡ grammar Symbol.DeclaredNames class }
{
    match class {
        Class::Mark(Mark::Comma) => by![word Plain, act AddName, any DeclaredNames],
        Class::Mark(Mark::Colon) => by![],
        _ => Production::Nothing,
    }
}

pub(crate) fn group(class: Class) -> Production
    ensures { row_of result ≡ grammar Symbol.Group class }
{
    match class {
        Class::Word(WordClass::Plain) => by![act OneName],
        Class::Opener(Opener::Open) => by![act Drop, word Plain, act OneName, any GroupNames],
        _ => Production::Nothing,
    }
}

pub(crate) fn group_names(class: Class) -> Production
    ensures { row_of result ≡ grammar Symbol.GroupNames class }
{
    match class {
        Class::Word(WordClass::Plain) => by![act AddName, any GroupNames],
        Class::Mark(Mark::Close) => by![],
        _ => Production::Nothing,
    }
}

pub(crate) fn signature(class: Class) -> Production
    ensures { row_of result ≡ grammar Symbol.Signature class }
{
    match class {
        Class::Opener(Opener::Open) => by![any SignatureInside],
        _ => as_any![Sort; act NoArguments],
    }
}

pub(crate) fn signature_inside(class: Class) -> Production
    ensures { row_of result ≡ grammar Symbol.SignatureInside class }
{
    match class {
        Class::SortVariable => by![act OneName, any SortVariables, act Parameters, any Type],
        Class::Mark(Mark::Close) => by![act NoNames, act Parameters, any Type],
        _ => as_any![TypeInside;],
    }
}

pub(crate) fn type_form(class: Class) -> Production
    ensures { row_of result ≡ grammar Symbol.Type class }
{
    match class {
        Class::Opener(Opener::Open) => by![any TypeInside],
        _ => as_any![Sort; act NoArguments],
    }
}

pub(crate) fn type_inside(class: Class) -> Production
    ensures { row_of result ≡ grammar Symbol.TypeInside class }
{
    match class {
        Class::Mark(Mark::To) =>
            by![act Drop, opener Open, act Drop, act NoSorts, any Sorts, any Sort, mark Close],
        _ => as_any![SortInside; act NoArguments],
    }
}

pub(crate) fn bare_signature(class: Class) -> Production
    ensures { row_of result ≡ grammar Symbol.BareSignature class }
{
    match class {
        Class::Opener(Opener::Open) => by![any BareSignatureInside],
        _ => as_any![BareType;],
    }
}

pub(crate) fn bare_signature_inside(class: Class) -> Production
    ensures { row_of result ≡ grammar Symbol.BareSignatureInside class }
{
    match class {
        Class::SortVariable => by![act OneName, any SortVariables, act Parameters, any BareType],
        Class::Mark(Mark::Close) => by![act NoNames, act Parameters, any BareType],
        _ => as_any![SortInside; act NoArguments],
    }
}

pub(crate) fn bare_type(class: Class) -> Production
    ensures { row_of result ≡ grammar Symbol.BareType class }
{
    match class {
        Class::Opener(Opener::OpenBracket) =>
            by![act Drop, act NoSorts, any SquareSorts, mark To, any Sort],
        _ => as_any![Sort; act NoArguments],
    }
}

pub(crate) fn definition(class: Class) -> Production
    ensures { row_of result ≡ grammar Symbol.Definition class }
{
    match class {
        Class::Word(WordClass::Plain) => by![mark Becomes, any Phrase, act Define],
        Class::Opener(Opener::Open) =>
            by![act Drop, word Plain, act NoNames, any Parameters, mark Becomes, any Phrase, act DefineFun],
        _ => Production::Nothing,
    }
}

pub(crate) fn definition_inside(class: Class) -> Production
    ensures { row_of result ≡ grammar Symbol.DefinitionInside class }
{
    match class {
        Class::Word(WordClass::Plain) => by![any Phrase, mark Close, act Define],
        Class::Opener(Opener::Open) =>
            by![act Drop, word Plain, act NoNames, any Parameters, any Phrase, mark Close, act DefineFun],
        _ => Production::Nothing,
    }
}
