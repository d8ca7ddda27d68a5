// Tokens as the grammar tells them apart.

ghost use Rattle.std.specs.Prelude.{◌≡◌};
ghost use Rattle.ath_lexemes.specs.Lexemes.{punct_lexeme, word_lexeme, meant, plain_lexeme};
ghost use Rattle.ath_lexemes.specs.Numbered.{IsNumbered, lexeme_of};

use crate::reserved::{Reserved, find_reserved};
use ath_grammar::{Lexeme, Mark, Opener, WordClass};
use ath_names::Names;
use ath_sorts::Sym;
use ath_tokens::Token;

/// The token to the grammar.
pub fn lexeme(names: &Names, token: Token) -> Lexeme
    requires { IsNumbered names.now token }
    ensures { result ≡ lexeme_of names.now token }
{
    match token {
        Token::Word(name) => word(names.text(name.0), name),
        Token::Var(name, index) => Lexeme::Variable(name, index),
        Token::SortVar(name) => Lexeme::SortVariable(name),
        Token::Str(text) => Lexeme::Text(text),
        Token::Punct(byte) => punct(byte),
        Token::Becomes => Lexeme::Mark(Mark::Becomes),
    }
}

fn word(text: &str, name: Sym) -> Lexeme
    ensures { result ≡ word_lexeme text.now name }
{
    match find_reserved(text) {
        Some(reserved) => meaning(reserved, name),
        None => plain(text, name),
    }
}

fn meaning(reserved: Reserved, name: Sym) -> Lexeme
    ensures { result ≡ meant name reserved }
{
    match reserved {
        Reserved::Opener(opener) => Lexeme::Opener(opener),
        Reserved::Directive(word) => Lexeme::Directive(word),
        Reserved::Mark(mark) => Lexeme::Mark(mark),
        Reserved::Own(class) => Lexeme::Word(class, name),
        Reserved::Means(class, other) => Lexeme::Word(class, other),
        Reserved::Wild => Lexeme::Wild(name),
        Reserved::SomeOf => Lexeme::SomeOf(name),
    }
}

fn plain(text: &str, name: Sym) -> Lexeme
    ensures { result ≡ plain_lexeme text.now name }
{
    if text.as_bytes().contains(&b'.') {
        Lexeme::Word(WordClass::Dotted, name)
    } else {
        Lexeme::Word(WordClass::Plain, name)
    }
}

fn punct(byte: u8) -> Lexeme
    ensures { result ≡ punct_lexeme byte }
{
    match byte {
        b'(' => Lexeme::Opener(Opener::Open),
        b')' => Lexeme::Mark(Mark::Close),
        b'[' => Lexeme::Opener(Opener::OpenBracket),
        b']' => Lexeme::Mark(Mark::CloseBracket),
        b'{' => Lexeme::Opener(Opener::OpenBrace),
        b'}' => Lexeme::Mark(Mark::CloseBrace),
        b'|' => Lexeme::Mark(Mark::Bar),
        b',' => Lexeme::Mark(Mark::Comma),
        b';' => Lexeme::Mark(Mark::Semicolon),
        b'!' => Lexeme::Mark(Mark::Bang),
        b':' => Lexeme::Mark(Mark::Colon),
        _ => Lexeme::Mark(Mark::Dot),
    }
}
