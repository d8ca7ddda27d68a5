// The longest token at the front of a text.

ghost use Rattle.std.specs.Prelude.{◌≡◌, ◌+◌, ◌<◌, ◌≤◌, true, false, not, ◌==◌, ◌&&◌, ◌||◌, length, drop, take, slice_index, IfOk};
ghost use Rattle.std.specs.List.{prefix_len, list_all};
ghost use Rattle.std.specs.Char.{is_ascii_digit as digit};
ghost use Rattle.std.specs.Str.{IsUtf8};
ghost use Rattle.std.specs.Str.Lossy.{utf8_valid_len};
ghost use Rattle.ath_tokens.specs.declared.limits.TheConstants.{MOST_INDEX_DIGITS};
ghost use Rattle.ath_tokens.specs.Bytes.{is_word_char as word_char, begins_part as part_begins, is_at_part as at_part};
ghost use Rattle.ath_tokens.specs.Spelling.{number as value_of};
ghost use Rattle.ath_tokens.specs.Cut.{gap_len as gap, is_at_character as at_character};
ghost use Rattle.ath_tokens.specs.Quoted.{plain, closed, quoted as quoted_as};
ghost use Rattle.ath_tokens.specs.Strings.{as_quoted, string_lexed, fault_at, IsWithin};
ghost use Rattle.ath_tokens.specs.Scan.{StopsBeingUtf8, goes_on, word_more, index_digits, Faults, Lexes};

use crate::bytes::{begins_character, begins_part, is_blank, is_punct, is_word_char};
use crate::limits::MOST_INDEX_DIGITS;
use crate::quoted::{Quoted, read_quoted};
use crate::tokens::LexKind;
use ath_syntax::Text;
use std::alloc::{AllocError, Global};

/// The longest token at the front of a text, or the fault there.
#[derive(Drop)]
pub(crate) enum Lexed {
    Word {
        len: usize,
    },
    Var {
        name_len: usize,
        index: u64,
        len: usize,
    },
    SortVar {
        name_len: usize,
    },
    Str {
        text: Text,
        len: usize,
    },
    Punct(u8),
    Becomes,
    /// A fault so many bytes on.
    Fault(LexKind, usize),
}

/// How many bytes of blanks and comments stand at the front.
pub(crate) fn gap_len(rest: &[u8]) -> usize
    ensures len { result ≡ gap false rest.now }
    ensures within { result ≤ length rest.now }
{
    let mut in_comment = false;
    let mut at = 0;
    while at < rest.len() {
        let byte = rest[at];
        if in_comment {
            in_comment = byte != b'\n';
        } else if byte == b'#' {
            in_comment = true;
        } else if !is_blank(byte) {
            return at;
        }
        at += 1;
    }
    at
}

/// The first byte at which a text isn't UTF-8.
pub(crate) fn utf8_fault(bytes: &[u8]) -> Option<usize>
    ensures { StopsBeingUtf8 bytes.now result }
{
    match str::from_utf8(bytes) {
        Ok(_) => None,
        Err(error) => Some(error.valid_up_to()),
    }
}

/// The longest token at the front, where no blank or comment stands.
pub(crate) fn read_lexeme(alloc: Global, rest: &[u8]) -> Result<Lexed, AllocError>
    requires { 0 < length rest.now }
    ensures { IfOk result (Lexes rest.now) }
{
    let first = rest[0];
    if begins_part(first) {
        return Ok(Lexed::Word {
            len: word_len(rest),
        });
    }
    match first {
        b'?' => Ok(read_var(rest)),
        b'\'' => Ok(read_sort_var(rest)),
        b'"' => read_string(alloc, rest),
        _ => Ok(read_mark(rest)),
    }
}

/// A bracket, another mark, or what begins no token.
fn read_mark(rest: &[u8]) -> Lexed
    requires some { 0 < length rest.now }
    requires no_part { part_begins (slice_index rest.now 0) ≡ false }
    requires no_var { (slice_index rest.now 0 == 63) ≡ false }
    requires no_sort_var { (slice_index rest.now 0 == 39) ≡ false }
    requires no_string { (slice_index rest.now 0 == 34) ≡ false }
    ensures { Lexes rest.now result }
{
    if is_at_becomes(rest) {
        return Lexed::Becomes;
    }
    let first = rest[0];
    if is_punct(first) {
        return Lexed::Punct(first);
    }
    stray(rest)
}

fn is_at_becomes(rest: &[u8]) -> bool
    ensures { result ≡ (slice_index rest.now 0 == 58 && slice_index rest.now 1 == 61) }
{
    rest.len() > 1 && rest[0] == b':' && rest[1] == b'='
}

/// How many bytes the word at the front has.
fn word_len(rest: &[u8]) -> usize
    requires { 0 < length rest.now }
    ensures len { result ≡ 1 + word_more (drop 1 rest.now) }
    ensures within { result ≤ length rest.now }
{
    let mut at = 1;
    while at < rest.len() && goes_on_word(rest, at) {
        at += 1;
    }
    at
}

/// Whether a word goes on with the byte. A dot belongs to it only where a part stands after the dot.
fn goes_on_word(rest: &[u8], at: usize) -> bool
    requires { at < length rest.now }
    ensures { result ≡ goes_on (drop at rest.now) }
{
    is_word_char(rest[at]) || (rest[at] == b'.' && is_at_part(rest, at + 1))
}

fn is_at_part(rest: &[u8], at: usize) -> bool
    ensures { result ≡ at_part (drop at rest.now) }
{
    match rest.get(at) {
        Some(byte) => begins_part(*byte),
        None => false,
    }
}

/// How many word characters stand at the front.
fn part_len(bytes: &[u8]) -> usize
    ensures len { result ≡ prefix_len word_char bytes.now }
    ensures within { result ≤ length bytes.now }
{
    let mut len = 0;
    while len < bytes.len() && is_word_char(bytes[len]) {
        len += 1;
    }
    len
}

fn read_sort_var(rest: &[u8]) -> Lexed
    requires some { 0 < length rest.now }
    requires mark { slice_index rest.now 0 ≡ 39 }
    ensures { Lexes rest.now result }
{
    if !is_at_part(rest, 1) {
        return stray(rest);
    }
    Lexed::SortVar {
        name_len: part_len(after(rest, 1)),
    }
}

fn read_var(rest: &[u8]) -> Lexed
    requires some { 0 < length rest.now }
    requires mark { slice_index rest.now 0 ≡ 63 }
    ensures { Lexes rest.now result }
{
    if !is_at_part(rest, 1) {
        return stray(rest);
    }
    let name_len = part_len(after(rest, 1));
    let digits = index_len(after(rest, 1 + name_len));
    if digits == 0 {
        return Lexed::Var {
            name_len,
            index: 0,
            len: 1 + name_len,
        };
    }
    let len = 2 + name_len + digits;
    Lexed::Var {
        name_len,
        index: number(part_of(rest, 2 + name_len, digits)),
        len,
    }
}

/// How many digits of an index stand after a `%` at the front.
fn index_len(rest: &[u8]) -> usize
    ensures len { result ≡ index_digits rest.now }
    ensures short { result ≤ MOST_INDEX_DIGITS }
    ensures within { 0 < result → 1 + result ≤ length rest.now }
{
    if rest.first().copied() != Some(b'%') || rest.get(1).copied() == Some(b'0') {
        return 0;
    }
    let mut len = 0;
    while len < MOST_INDEX_DIGITS && 1 + len < rest.len() && rest[1 + len].is_ascii_digit() {
        len += 1;
    }
    len
}

/// The value of the digits of an index.
fn number(digits: &[u8]) -> u64
    requires short { length digits.now ≤ MOST_INDEX_DIGITS }
    requires digits { list_all digit digits.now ≡ true }
    ensures { result ≡ value_of digits.now }
{
    let mut value = 0;
    for digit in digits {
        value = 10 * value + (*digit - b'0') as u64;
    }
    value
}

fn read_string(alloc: Global, rest: &[u8]) -> Result<Lexed, AllocError>
    requires some { 0 < length rest.now }
    requires mark { slice_index rest.now 0 ≡ 34 }
    ensures { IfOk result (Lexes rest.now) }
{
    let body = after(rest, 1);
    let quoted = read_quoted(alloc, body)?;
    Ok(match_string(body, quoted))
}

fn match_string(body: &[u8], quoted: Quoted) -> Lexed
    requires within { IsWithin body.now quoted }
    requires quoted { quoted_as plain body.now ≡ as_quoted quoted }
    ensures meaning { result ≡ string_lexed body.now quoted }
    ensures within { fault_at result ≤ length body.now }
{
    match quoted {
        Quoted::Closed(len, bytes) => closed_string(body, len, bytes),
        Quoted::Wrong { back, at } => wrong_escape(body, back, at),
        Quoted::Unclosed => open_string(body),
    }
}

fn closed_string(body: &[u8], len: usize, bytes: Vec<u8>) -> Lexed
    requires within { len < length body.now }
    requires closed { quoted_as plain body.now ≡ closed len bytes.items }
    ensures meaning { result ≡ string_lexed body.now (Quoted.Closed len bytes) }
    ensures within { fault_at result ≤ length body.now }
{
    match utf8_fault(&body[..len]) {
        None => Lexed::Str {
            text: text_of(bytes),
            len: len + 2,
        },
        Some(at) => Lexed::Fault(LexKind::BadUtf8, 1 + at),
    }
}

/// The text of these bytes.
fn text_of(bytes: Vec<u8>) -> Text
    requires { IsUtf8 bytes.items }
    ensures { result ≡ bytes.items }
{
    let Ok(string) = String::from_utf8(bytes) else {
        unreachable!()
    };
    Text::new(string)
}

fn wrong_escape(body: &[u8], back: usize, at: usize) -> Lexed
    requires before { back ≤ at }
    requires within { at < length body.now }
    ensures meaning { result ≡ string_lexed body.now (Quoted.Wrong back at) }
    ensures within { fault_at result ≤ length body.now }
{
    match utf8_fault(&body[..at]) {
        Some(bad) => Lexed::Fault(LexKind::BadUtf8, 1 + bad),
        None if begins_character(body[at]) => Lexed::Fault(LexKind::BadChar, 1 + at - back),
        None => Lexed::Fault(LexKind::BadUtf8, 1 + at),
    }
}

fn open_string(body: &[u8]) -> Lexed
    ensures meaning { result ≡ string_lexed body.now Quoted.Unclosed }
    ensures within { fault_at result ≤ length body.now }
{
    match utf8_fault(body) {
        None => Lexed::Fault(LexKind::OpenString, 0),
        Some(at) => Lexed::Fault(LexKind::BadUtf8, 1 + at),
    }
}

fn after(bytes: &[u8], at: usize) -> &[u8]
    requires { at ≤ length bytes.now }
    ensures { result.now ≡ drop at bytes.now }
{
    &bytes[at..]
}

pub(crate) fn part_of(bytes: &[u8], from: usize, len: usize) -> &[u8]
    requires { from + len ≤ length bytes.now }
    ensures { result.now ≡ take len (drop from bytes.now) }
{
    &bytes[from..from + len]
}

/// The fault of a character that begins no token.
fn stray(rest: &[u8]) -> Lexed
    requires some { 0 < length rest.now }
    requires no_string { (slice_index rest.now 0 == 34) ≡ false }
    ensures { Faults rest.now result }
{
    if needs_part(rest[0]) && !is_at_character(rest, 1) {
        Lexed::Fault(LexKind::BadUtf8, 1)
    } else if begins_utf8(rest) {
        Lexed::Fault(LexKind::BadChar, 0)
    } else {
        Lexed::Fault(LexKind::BadUtf8, 0)
    }
}

fn needs_part(byte: u8) -> bool
    ensures { result ≡ (byte == 39 || byte == 63) }
{
    byte == b'\'' || byte == b'?'
}

fn is_at_character(rest: &[u8], at: usize) -> bool
    ensures { result ≡ at_character (drop at rest.now) }
{
    match rest.get(at) {
        Some(byte) => begins_character(*byte),
        None => true,
    }
}

/// Whether a whole character stands at the front: it has at most four bytes.
fn begins_utf8(rest: &[u8]) -> bool
    requires { 0 < length rest.now }
    ensures { result ≡ not (utf8_valid_len (take 4 rest.now) == 0) }
{
    match utf8_fault(front(rest)) {
        Some(at) => at > 0,
        None => true,
    }
}

fn front(rest: &[u8]) -> &[u8]
    ensures { result.now ≡ take 4 rest.now }
{
    if rest.len() < 4 {
        return rest;
    }
    &rest[..4]
}
