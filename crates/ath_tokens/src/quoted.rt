// Strings, after their opening quote.

ghost use Rattle.std.specs.Prelude.{◌≡◌, ◌<◌, slice_index, IsTrue, IfOk};
ghost use Rattle.std.specs.Char.{is_ascii_hexdigit};
ghost use Rattle.ath_tokens.specs.Bytes.{hex_value as digit_value};
ghost use Rattle.ath_tokens.specs.Quoted.{plain, quoted};
ghost use Rattle.ath_tokens.specs.Strings.{as_quoted, Escapes, IsWithin};

use crate::bytes::is_octal_digit;
use std::alloc::{AllocError, Global};

/// How a string goes on after its opening quote.
#[derive(Drop)]
pub(crate) enum Quoted {
    /// The closing quote stands after so many bytes, and these bytes are meant.
    Closed(usize, Vec<u8>),
    /// The byte `at` shows that the escape whose backslash stands `back` bytes before it is none.
    Wrong { back: usize, at: usize },
    Unclosed,
}

/// What stands at a backslash.
#[derive(Clone, Copy)]
enum Escape {
    Means { byte: u8, len: usize },
    Wrong { back: usize },
    Cut,
}

pub(crate) fn read_quoted(alloc: Global, body: &[u8]) -> Result<Quoted, AllocError>
    ensures meaning { IfOk result (λ q. quoted plain body.now ≡ as_quoted q) }
    ensures within { IfOk result (IsWithin body.now) }
{
    let mut means = Vec::new(alloc);
    let mut at = 0;
    while at < body.len() {
        let byte = body[at];
        if byte == b'"' {
            return Ok(Quoted::Closed(at, means));
        }
        if byte != b'\\' {
            means.push(byte)?;
            at += 1;
            continue;
        }
        match read_escape(&body[at..]) {
            Escape::Means { byte, len } => {
                means.push(byte)?;
                at += len;
            }
            Escape::Wrong { back } => return Ok(Quoted::Wrong {
                back,
                at: at + back,
            }),
            Escape::Cut => return Ok(Quoted::Unclosed),
        }
    }
    Ok(Quoted::Unclosed)
}

fn read_escape(rest: &[u8]) -> Escape
    requires { slice_index rest.now 0 ≡ 92 }
    ensures { Escapes rest.now result }
{
    let Some(kind) = rest.get(1) else {
        return Escape::Cut;
    };
    let byte = match *kind {
        b'"' => b'"',
        b'\\' => b'\\',
        b'n' => b'\n',
        b't' => b'\t',
        b'x' => return read_hex(rest),
        _ => return Escape::Wrong { back: 1 },
    };
    Escape::Means { byte, len: 2 }
}

fn read_hex(rest: &[u8]) -> Escape
    requires backslash { slice_index rest.now 0 ≡ 92 }
    requires x { slice_index rest.now 1 ≡ 120 }
    ensures { Escapes rest.now result }
{
    if rest.len() < 3 {
        return Escape::Cut;
    }
    let high = rest[2];
    if !is_octal_digit(high) {
        return Escape::Wrong { back: 2 };
    }
    if rest.len() < 4 {
        return Escape::Cut;
    }
    let low = rest[3];
    if !low.is_ascii_hexdigit() {
        return Escape::Wrong { back: 3 };
    }
    Escape::Means {
        byte: 16 * (high - b'0') + hex_value(low),
        len: 4,
    }
}

fn hex_value(digit: u8) -> u8
    requires { IsTrue (is_ascii_hexdigit digit) }
    ensures { result ≡ digit_value digit }
{
    match digit {
        b'0'..=b'9' => digit - b'0',
        b'A'..=b'F' => digit - b'A' + 10,
        _ => digit - b'a' + 10,
    }
}
