// Classes of tokens: what the grammar's table tells tokens apart by.

ghost use Rattle.std.specs.Prelude.{◌≡◌};
ghost use Rattle.std.specs.Bool.{nat_eq};
ghost use Rattle.ath_grammar.specs.Codes.{code};

/// What a word that can be a phrase is otherwise: a name without a dot, a name with dots, a reserved word that is no
/// operator, an infix operator, `~`, or the mark `<==`.
#[derive(Clone, Copy)]
pub enum WordClass {
    Plain,
    Dotted,
    Logical,
    Infix,
    Tilde,
    Back,
}

/// An opening bracket, or a keyword that begins a form of phrase. The place of what it begins is its own.
#[derive(Clone, Copy)]
pub enum Opener {
    Open,
    OpenBracket,
    OpenBrace,
    Lambda,
    Method,
    Let,
    /// `dlet`
    LetDeduction,
    LetRec,
    Match,
    /// `dmatch`
    MatchDeduction,
    /// `by-induction`
    Induct,
    /// `datatype-cases`
    Cases,
    Check,
    Try,
    /// `dbegin`
    Begin,
    Assume,
    /// `suppose-absurd`
    Absurd,
    Conclude,
    PickAny,
    PickWitness,
}

/// A keyword that begins a directive.
#[derive(Clone, Copy)]
pub enum DirectiveWord {
    Domain,
    Datatype,
    Declare,
    Define,
    Assert,
    /// `assert*`
    AssertClosed,
    Load,
}

/// A bracket that closes, a sign, or a word that stands between parts. The words of modules and of operators are
/// `Other`: they begin nothing yet.
#[derive(Clone, Copy)]
pub enum Mark {
    Close,
    CloseBracket,
    CloseBrace,
    Bar,
    Comma,
    Semicolon,
    Bang,
    Colon,
    Dot,
    /// `:=`
    Becomes,
    /// `=>`
    Arrow,
    /// `->`
    To,
    /// `=/=`
    Unequal,
    Else,
    ListOf,
    Other,
}

/// A token without its place, name, number and text.
#[derive(Clone, Copy)]
pub enum Class {
    Word(WordClass),
    /// `_`
    Wild,
    /// one of the four words `some-..`
    SomeOf,
    Variable,
    SortVariable,
    Text,
    Opener(Opener),
    Directive(DirectiveWord),
    Mark(Mark),
}

/// Whether these classes are one.
pub fn same_class(c: Class, d: Class) -> bool
    ensures { result ≡ nat_eq (code c) (code d) }
{
    number(c) == number(d)
}

fn number(class: Class) -> u8
    ensures { result ≡ code class }
{
    match class {
        Class::Word(word) => word as u8,
        Class::Wild => 6,
        Class::SomeOf => 7,
        Class::Variable => 8,
        Class::SortVariable => 9,
        Class::Text => 10,
        Class::Opener(opener) => 11 + opener as u8,
        Class::Directive(word) => 31 + word as u8,
        Class::Mark(mark) => 38 + mark as u8,
    }
}
