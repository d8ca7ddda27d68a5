// Tokens as the grammar tells them apart.

ghost use Rattle.std.specs.Prelude.{◌≡◌};
ghost use Rattle.ath_grammar.specs.Tokens.{class_of_lexeme};

use crate::class::{Class, DirectiveWord, Mark, Opener, WordClass};
use ath_sorts::Sym;
use ath_syntax::Text;

/// A token, without its place. A word that can be a phrase comes with the name that it means.
#[derive(Drop)]
pub enum Lexeme {
    Word(WordClass, Sym),
    /// `_`
    Wild(Sym),
    /// one of the four words `some-..`
    SomeOf(Sym),
    Variable(Sym, u64),
    SortVariable(Sym),
    Text(Text),
    Opener(Opener),
    Directive(DirectiveWord),
    Mark(Mark),
}

impl Lexeme {
    /// The class of the token.
    pub fn class(&self) -> Class
        ensures { result ≡ class_of_lexeme self.now }
    {
        match self {
            Lexeme::Word(word, _) => Class::Word(*word),
            Lexeme::Wild(_) => Class::Wild,
            Lexeme::SomeOf(_) => Class::SomeOf,
            Lexeme::Variable(_, _) => Class::Variable,
            Lexeme::SortVariable(_) => Class::SortVariable,
            Lexeme::Text(_) => Class::Text,
            Lexeme::Opener(opener) => Class::Opener(*opener),
            Lexeme::Directive(word) => Class::Directive(*word),
            Lexeme::Mark(mark) => Class::Mark(*mark),
        }
    }
}
