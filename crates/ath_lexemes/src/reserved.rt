// The reserved words.

ghost use Rattle.std.specs.Prelude.{◌≡◌, map};
ghost use Rattle.std.specs.Map.{lookup};
ghost use Rattle.std.specs.Str.{bytes_eq};
ghost use Rattle.ath_lexemes.specs.Reserved.{reserved_words};

use ath_grammar::{DirectiveWord, Mark, Opener, WordClass};
use ath_sorts::Sym;

/// What a reserved word is.
#[derive(Clone, Copy)]
pub enum Reserved {
    Opener(Opener),
    Directive(DirectiveWord),
    Mark(Mark),
    /// a word that is a phrase of its own name
    Own(WordClass),
    /// an operator that is a phrase of another name
    Means(WordClass, Sym),
    /// `_`
    Wild,
    /// one of the four words `some-..`
    SomeOf,
}

const NOT: Sym = Sym(10);

const AND: Sym = Sym(11);

const IF: Sym = Sym(13);

const IFF: Sym = Sym(14);

const RESERVED: [(&str, Reserved); 51] = [
    ("lambda", Reserved::Opener(Opener::Lambda)),
    ("method", Reserved::Opener(Opener::Method)),
    ("let", Reserved::Opener(Opener::Let)),
    ("dlet", Reserved::Opener(Opener::LetDeduction)),
    ("letrec", Reserved::Opener(Opener::LetRec)),
    ("match", Reserved::Opener(Opener::Match)),
    ("dmatch", Reserved::Opener(Opener::MatchDeduction)),
    ("by-induction", Reserved::Opener(Opener::Induct)),
    ("datatype-cases", Reserved::Opener(Opener::Cases)),
    ("check", Reserved::Opener(Opener::Check)),
    ("try", Reserved::Opener(Opener::Try)),
    ("dbegin", Reserved::Opener(Opener::Begin)),
    ("assume", Reserved::Opener(Opener::Assume)),
    ("suppose-absurd", Reserved::Opener(Opener::Absurd)),
    ("conclude", Reserved::Opener(Opener::Conclude)),
    ("pick-any", Reserved::Opener(Opener::PickAny)),
    ("pick-witness", Reserved::Opener(Opener::PickWitness)),
    ("domain", Reserved::Directive(DirectiveWord::Domain)),
    ("datatype", Reserved::Directive(DirectiveWord::Datatype)),
    ("declare", Reserved::Directive(DirectiveWord::Declare)),
    ("define", Reserved::Directive(DirectiveWord::Define)),
    ("assert", Reserved::Directive(DirectiveWord::Assert)),
    ("assert*", Reserved::Directive(DirectiveWord::AssertClosed)),
    ("load", Reserved::Directive(DirectiveWord::Load)),
    ("module", Reserved::Mark(Mark::Other)),
    ("open", Reserved::Mark(Mark::Other)),
    ("left-assoc", Reserved::Mark(Mark::Other)),
    ("right-assoc", Reserved::Mark(Mark::Other)),
    ("else", Reserved::Mark(Mark::Else)),
    ("_", Reserved::Wild),
    ("list-of", Reserved::Mark(Mark::ListOf)),
    ("some-var", Reserved::SomeOf),
    ("some-term", Reserved::SomeOf),
    ("some-sent", Reserved::SomeOf),
    ("some-list", Reserved::SomeOf),
    ("forall", Reserved::Own(WordClass::Logical)),
    ("exists", Reserved::Own(WordClass::Logical)),
    ("not", Reserved::Own(WordClass::Logical)),
    ("and", Reserved::Own(WordClass::Logical)),
    ("or", Reserved::Own(WordClass::Logical)),
    ("if", Reserved::Own(WordClass::Logical)),
    ("iff", Reserved::Own(WordClass::Logical)),
    ("=", Reserved::Own(WordClass::Infix)),
    ("=/=", Reserved::Mark(Mark::Unequal)),
    ("&", Reserved::Means(WordClass::Infix, AND)),
    ("~", Reserved::Means(WordClass::Tilde, NOT)),
    ("==>", Reserved::Means(WordClass::Infix, IF)),
    ("<==>", Reserved::Means(WordClass::Infix, IFF)),
    ("<==", Reserved::Own(WordClass::Back)),
    ("=>", Reserved::Mark(Mark::Arrow)),
    ("->", Reserved::Mark(Mark::To)),
];

/// What the word is, where it is reserved.
pub fn find_reserved(word: &str) -> Option<Reserved>
    ensures { result ≡ lookup (bytes_eq word.now) reserved_words }
{
    find_in(&RESERVED, word)
}

fn find_in(table: &[(&str, Reserved)], word: &str) -> Option<Reserved>
    ensures { result ≡ lookup (bytes_eq word.now) (map (λ row. (row.0.now, row.1)) table.now) }
{
    for (text, meaning) in table {
        if word == *text {
            return Some(*meaning);
        }
    }
    None
}
