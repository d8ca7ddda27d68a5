// Tokens one after another.

ghost use Rattle.std.specs.Prelude.{◌≡◌, ◌+◌, ◌<◌, length, None};
ghost use Rattle.std.specs.Str.{IsAscii};
ghost use Rattle.ath_tokens.specs.Cut.{place_of};
ghost use Rattle.ath_tokens.specs.Mark.{IsMark};
ghost use Rattle.ath_tokens.specs.Scan.{Lexes, Numbers, Tells, Starts, Cuts, Advances};

use crate::lexeme::{Lexed, gap_len, part_of, read_lexeme, utf8_fault};
use crate::mark::{Mark, moved, place};
use ath_names::{NameError, Names};
use ath_sorts::Sym;
use ath_syntax::{Pos, Text};
use std::alloc::Global;
use std::marker::Model;
use thiserror::Error;

/// A token. Names are numbers in a table of names.
#[derive(Debug, Drop)]
pub enum Token {
    /// A name: parts joined by dots.
    Word(Sym),
    /// A variable, with its index.
    Var(Sym, u64),
    SortVar(Sym),
    /// A string, by what it means.
    Str(Text),
    /// A bracket or another mark, by its byte.
    Punct(u8),
    /// `:=`.
    Becomes,
}

/// A fault in a text, or want of memory.
#[derive(Clone, Copy, Debug, PartialEq, Eq)]
pub enum LexKind {
    /// Bytes that aren't UTF-8.
    BadUtf8,
    /// A character that begins no token, or the backslash of an unknown escape.
    BadChar,
    /// A string without its closing quote.
    OpenString,
    /// A name of more than `MOST_NAME_BYTES` bytes.
    NameTooLong,
    /// Out of memory. The place then says nothing.
    Memory,
}

/// A fault in a text, and its place.
#[derive(Clone, Copy, Debug, PartialEq, Eq, Error)]
#[error("{kind:?} at line {}, column {}", pos.line, pos.col)]
pub struct LexError {
    pub kind: LexKind,
    pub pos: Pos,
}

/// The tokens of a text, one after another.
///
/// Contracts see the text, the number of its file, the byte from which the next token is looked
/// for, and the error that is given from then on.
#[derive(Drop)]
pub struct Tokens {
    text: Vec<u8>,
    file: usize,
    mark: Mark,
    refused: Option<LexError>,
}

impl Model for Tokens {
    ghost use Rattle.ath_tokens.specs.Cutting.{Cutting};
    ghost use Rattle.ath_tokens.specs.Mark.{IsMark};

    ghost Value = { Cutting };

    ghost view = { λ t. record {
      text = t.text.items;
      file = t.file;
      at = t.mark.at;
      refused = t.refused;
    } };

    ghost invariant = { λ t. IsMark t.text.items t.mark };
}

impl Tokens {
    ghost use Rattle.ath_tokens.specs.Next.{Gives};

    /// The tokens of a text, in the file of this number.
    pub fn new(text: Vec<u8>, file: usize) -> Tokens
        ensures { result ≡ record { text = text.items; file = file; at = 0; refused = None } }
    {
        Tokens {
            text,
            file,
            mark: Mark {
                at: 0,
                lines: 0,
                line_start: 0,
            },
            refused: None,
        }
    }

    /// The next token, its place, and the range of its bytes. After an error the same error is
    /// given again.
    pub fn next(
        &mut self,
        alloc: Global,
        names: &mut Names,
    ) -> Result<Option<(Token, Pos, usize, usize)>, LexError>
        ensures { Gives self.old names.old result self.new names.new }
    {
        if let Some(error) = self.refused {
            return Err(error);
        }
        match next_token(alloc, self.text.as_slice(), self.file, self.mark, names) {
            Ok(Some(step)) => {
                let Step {
                    token,
                    pos,
                    start,
                    mark,
                } = step;
                self.mark = mark;
                Ok(Some((token, pos, start, mark.at)))
            }
            Ok(None) => {
                let text = self.text.as_slice();
                self.mark = moved(text, self.mark, text.len());
                Ok(None)
            }
            Err(error) => {
                self.refused = Some(error);
                Err(error)
            }
        }
    }

    /// The byte from which the next token is looked for, to come back to.
    pub fn mark(&self) -> Mark
        ensures at { result.at ≡ self.now.at }
        ensures mark { IsMark self.now.text result }
    {
        self.mark
    }

    /// Goes back to a mark of this text: the tokens behind it are given once more, and so is a fault.
    pub fn back_to(&mut self, mark: Mark)
        requires { IsMark self.old.text mark }
        ensures { self.new ≡ record self.old { at = mark.at; refused = None } }
    {
        self.mark = mark;
        self.refused = None;
    }

    /// The place of the end of the text.
    pub fn end(&self) -> Pos
        ensures { result ≡ place_of self.now.file self.now.text (length self.now.text) }
    {
        let text = self.text.as_slice();
        place(text, self.file, moved(text, self.mark, text.len()))
    }
}

/// A token, its place, its first byte, and the mark of its end.
#[derive(Drop)]
pub(crate) struct Step {
    token: Token,
    pos: Pos,
    start: usize,
    mark: Mark,
}

fn next_token(
    alloc: Global,
    text: &[u8],
    file: usize,
    from: Mark,
    names: &mut Names,
) -> Result<Option<Step>, LexError>
    requires { IsMark text.now from }
    ensures { Advances file text.now from.at names.old result names.new }
{
    let start = token_start(text, file, from)?;
    if start.at == text.len() {
        return Ok(None);
    }
    let step = token_at(alloc, text, file, start, names)?;
    Ok(Some(step))
}

/// The mark of the end of the blanks and comments.
fn token_start(text: &[u8], file: usize, from: Mark) -> Result<Mark, LexError>
    requires { IsMark text.now from }
    ensures { Starts file text.now from.at result }
{
    let rest = &text[from.at..];
    let gap = gap_len(rest);
    match utf8_fault(&rest[..gap]) {
        None => Ok(moved(text, from, from.at + gap)),
        Some(at) => Err(error_at(text, file, from, at, LexKind::BadUtf8)),
    }
}

fn token_at(
    alloc: Global,
    text: &[u8],
    file: usize,
    start: Mark,
    names: &mut Names,
) -> Result<Step, LexError>
    requires mark { IsMark text.now start }
    requires within { start.at < length text.now }
    ensures { Cuts file text.now start.at names.old result names.new }
{
    let pos = place(text, file, start);
    match read_token(alloc, &text[start.at..], names) {
        Ok((token, len)) => Ok(Step {
            token,
            pos,
            start: start.at,
            mark: moved(text, start, start.at + len),
        }),
        Err((kind, at)) => Err(error_at(text, file, start, at, kind)),
    }
}

/// The error so many bytes after a mark.
fn error_at(text: &[u8], file: usize, from: Mark, at: usize, kind: LexKind) -> LexError
    requires mark { IsMark text.now from }
    requires within { from.at + at < length text.now }
    ensures { result ≡ record { kind = kind; pos = place_of file text.now (from.at + at) } }
{
    let pos = place(text, file, moved(text, from, from.at + at));
    LexError { kind, pos }
}

/// The token at the front with its name's number, and its length; or a fault, and how far on it is.
fn read_token(
    alloc: Global,
    rest: &[u8],
    names: &mut Names,
) -> Result<(Token, usize), (LexKind, usize)>
    requires { 0 < length rest.now }
    ensures { Tells names.old rest.now result names.new }
{
    match read_lexeme(alloc, rest) {
        Ok(lexed) => named(alloc, rest, lexed, names),
        Err(_) => Err((LexKind::Memory, 0)),
    }
}

fn named(
    alloc: Global,
    rest: &[u8],
    lexed: Lexed,
    names: &mut Names,
) -> Result<(Token, usize), (LexKind, usize)>
    requires some { 0 < length rest.now }
    requires lexes { Lexes rest.now lexed }
    ensures { Tells names.old rest.now result names.new }
{
    match lexed {
        Lexed::Word { len } => {
            let name = intern(alloc, part_of(rest, 0, len), names)?;
            Ok((Token::Word(name), len))
        }
        Lexed::Var {
            name_len,
            index,
            len,
        } => {
            let name = intern(alloc, part_of(rest, 1, name_len), names)?;
            Ok((Token::Var(name, index), len))
        }
        Lexed::SortVar { name_len } => {
            let name = intern(alloc, part_of(rest, 1, name_len), names)?;
            Ok((Token::SortVar(name), 1 + name_len))
        }
        Lexed::Str { text, len } => Ok((Token::Str(text), len)),
        Lexed::Punct(byte) => Ok((Token::Punct(byte), 1)),
        Lexed::Becomes => Ok((Token::Becomes, 2)),
        Lexed::Fault(kind, at) => Err((kind, at)),
    }
}

/// The number of a name, or why it gets none.
fn intern(alloc: Global, name: &[u8], names: &mut Names) -> Result<Sym, (LexKind, usize)>
    requires { IsAscii name.now }
    ensures { Numbers names.old name.now result names.new }
{
    let Ok(text) = str::from_utf8(name) else {
        unreachable!()
    };
    match names.intern(alloc, text) {
        Ok(number) => Ok(Sym(number)),
        Err(NameError::TooLong) => Err((LexKind::NameTooLong, 0)),
        Err(NameError::Memory) => Err((LexKind::Memory, 0)),
    }
}
