// A line in the making.

ghost use Rattle.std.specs.Prelude.{◌≡◌, ◌<◌, ◌++◌, ◌+◌, ℕ, List, codes, length, position, IfOk, OnOk};
ghost use Rattle.std.specs.Fmt.{decimal};
ghost use Rattle.ath_sorts.specs.Sorts.{same_svar};
ghost use Rattle.ath_print.specs.Lines.{quoted};
ghost use Rattle.ath_print.specs.Printers.{word, after, counted, is_too_long, line_from, line_in, GoesOn};
ghost use Rattle.ath_print.specs.Prefix.{numbered, svar_printed};

use crate::pieces::push_quoted;
use ath_sorts::SVar;
use std::alloc::{AllocError, Global};

/// Where the bytes of a line go.
#[derive(Drop)]
pub enum Output {
    /// they are kept
    Kept(Vec<u8>),
    /// they are only counted, and so many more may come
    Room(u64),
    /// they were counted, and too many came
    Full,
}

/// A line in the making: its bytes so far, and the sort variables that it has shown, in order.
#[derive(Drop)]
pub struct Draft {
    pub output: Output,
    pub seen: Vec<SVar>,
}

/// Whether more bytes came than were to be counted, so that no further ones matter.
pub fn is_full(draft: &Draft) -> bool
    ensures { result ≡ is_too_long (line_in draft.now) }
{
    matches!(&draft.output, Output::Full)
}

/// What is left of the room after so many bytes.
fn room_after(room: u64, bytes: usize) -> Output
    requires { bytes < 9223372036854775808 }
    ensures { (piece : List ℕ) (seen : List SVar) → length piece ≡ bytes → line_from result seen ≡ after (word piece) (counted room seen) }
{
    let bytes = bytes as u64;
    if room < bytes {
        return Output::Full;
    }
    Output::Room(room - bytes)
}

fn put_bytes(draft: &mut Draft, piece: &[u8]) -> Result<(), AllocError>
    ensures { OnOk result (GoesOn (word piece.now) draft.old draft.new) }
{
    match &mut draft.output {
        Output::Kept(text) => text.extend_from_slice(piece),
        Output::Room(room) => {
            draft.output = room_after(*room, piece.len());
            Ok(())
        }
        Output::Full => Ok(()),
    }
}

pub fn put(draft: &mut Draft, piece: &str) -> Result<(), AllocError>
    ensures { OnOk result (GoesOn (word piece.now) draft.old draft.new) }
{
    put_bytes(draft, piece.as_bytes())
}

pub fn put_both(draft: &mut Draft, first: &str, then: &str) -> Result<(), AllocError>
    ensures { OnOk result (GoesOn (word (first.now ++ then.now)) draft.old draft.new) }
{
    put(draft, first)?;
    put(draft, then)
}

pub fn put_number(alloc: Global, draft: &mut Draft, n: u64) -> Result<(), AllocError>
    ensures { OnOk result (GoesOn (word (decimal n)) draft.old draft.new) }
{
    let digits = n.to_string(alloc)?;
    put_bytes(draft, digits.as_bytes())
}

pub fn put_quoted(alloc: Global, draft: &mut Draft, piece: &str) -> Result<(), AllocError>
    ensures { OnOk result (GoesOn (word (quoted piece.now)) draft.old draft.new) }
{
    let mut text = Vec::new(alloc);
    push_quoted(&mut text, piece)?;
    put_bytes(draft, text.as_slice())
}

fn place_of(seen: &[SVar], v: SVar) -> Option<usize>
    ensures { result ≡ position (same_svar v) seen.now }
{
    seen.iter().position(|w| v.is_same(*w))
}

/// The place of a sort variable among those that were shown, which it goes to where it is a new one.
fn number_of(draft: &mut Draft, v: SVar) -> Result<usize, AllocError>
    ensures output { draft.new.output ≡ draft.old.output }
    ensures place { IfOk result (λ n. svar_printed v draft.old.seen.items ≡ record { text = codes "'S" ++ decimal (n + 1); seen = draft.new.seen.items }) }
    ensures small { IfOk result (λ n. n < 9223372036854775808) }
{
    if let Some(n) = place_of(draft.seen.as_slice(), v) {
        return Ok(n);
    }
    let n = draft.seen.len();
    draft.seen.push(v)?;
    Ok(n)
}

pub fn put_sort_variable(alloc: Global, v: SVar, draft: &mut Draft) -> Result<(), AllocError>
    ensures { OnOk result (GoesOn (svar_printed v) draft.old draft.new) }
{
    let n = number_of(draft, v)?;
    put(draft, "'S")?;
    put_number(alloc, draft, n as u64 + 1)
}
