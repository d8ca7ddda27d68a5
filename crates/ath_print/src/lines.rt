// The line of an event.

ghost use Rattle.std.specs.Prelude.{◌≡◌, ◌<◌, ◌+◌, ◌++◌, [], ◌∷◌, IfOk, OnOk, codes, length, map, min, option_map};
ghost use Rattle.std.specs.Fmt.{decimal};
ghost use Rattle.std.specs.String.{string_bytes};
ghost use Rattle.ath_terms.specs.SortsIn.{IsSortedIn};
ghost use Rattle.ath_terms.specs.Trees.{term_at, sent_at};
ghost use Rattle.ath_env.specs.Stands.{IsIn, value_at};
ghost use Rattle.ath_print.specs.declared.limits.TheConstants.{MOST_LINE_BYTES as MostBytes};
ghost use Rattle.ath_print.specs.Printers.{word, in_turn, spaced, after, line_from, GoesOn, Tells};
ghost use Rattle.ath_print.specs.Prefix.{sent_printed, term_printed};
ghost use Rattle.ath_print.specs.Lines.{term_text, printed, listed, shown_text, kind_text, argument_printed, refusal_text, place_text, text_of_event, line_of, bytes_of_line};
ghost use Rattle.ath_print.specs.Stands.{argument_of, IsArgumentIn, refusal_of, IsFaultIn, event_of, IsEventIn, file_of};

use crate::draft::{Draft, Output, put, put_both, put_number, put_quoted};
use crate::event::Event;
use crate::fault::{Fault, FaultArg};
use crate::limits::MOST_LINE_BYTES;
use crate::sents::put_sent;
use crate::sorts::put_sort;
use crate::terms::put_term;
use crate::words::{connective, file_name, kind, method, quantifier};
use ath_env::{Value, text_of};
use ath_names::Names;
use ath_sorts::{Signature, Sym};
use ath_syntax::Pos;
use ath_terms::Store;
use ath_trees::{SentId, TermId};
use std::alloc::{AllocError, Global};

/// A sentence alone, outside of binders.
fn put_closed(
    alloc: Global,
    names: &Names,
    sig: &Signature,
    store: &Store,
    p: SentId,
    draft: &mut Draft,
) -> Result<(), AllocError>
    requires inside { p.0 < length store.now.sents }
    requires sorted { IsSortedIn sig.now store.now }
    ensures { OnOk result (GoesOn (sent_printed names.now sig.now [] (sent_at store.now.sents p.0)) draft.old draft.new) }
{
    let mut binders = Vec::new(alloc);
    put_sent(alloc, names, sig, store, p, &mut binders, draft)
}

/// A sentence after a word, where the line has shown no sort variables.
fn put_told(
    alloc: Global,
    names: &Names,
    sig: &Signature,
    store: &Store,
    head: &str,
    p: SentId,
    draft: &mut Draft,
) -> Result<(), AllocError>
    requires inside { p.0 < length store.now.sents }
    requires sorted { IsSortedIn sig.now store.now }
    requires fresh { draft.old.seen.items ≡ [] }
    ensures { OnOk result (Tells (head.now ++ printed names.now sig.now (sent_at store.now.sents p.0)) draft.old draft.new) }
{
    put(draft, head)?;
    put_closed(alloc, names, sig, store, p, draft)?;
    Ok(())
}

fn put_shown_term(
    alloc: Global,
    names: &Names,
    sig: &Signature,
    store: &Store,
    t: TermId,
    draft: &mut Draft,
) -> Result<(), AllocError>
    requires inside { t.0 < length store.now.terms }
    requires sorted { IsSortedIn sig.now store.now }
    requires fresh { draft.old.seen.items ≡ [] }
    ensures { OnOk result (Tells (codes "Term: " ++ term_text names.now sig.now (term_at store.now.terms t.0)) draft.old draft.new) }
{
    put(draft, "Term: ")?;
    put_term(alloc, names, sig, store, t, &[], draft)?;
    Ok(())
}

/// Two words, where the line has shown no sort variables.
fn put_words(draft: &mut Draft, first: &str, then: &str) -> Result<(), AllocError>
    requires fresh { draft.old.seen.items ≡ [] }
    ensures { OnOk result (Tells (first.now ++ then.now) draft.old draft.new) }
{
    put_both(draft, first, then)?;
    Ok(())
}

fn put_listed(names: &Names, numbers: &[Sym], draft: &mut Draft) -> Result<(), AllocError>
    ensures { OnOk result (GoesOn (word (listed names.now numbers.now)) draft.old draft.new) }
{
    let Some((first, others)) = numbers.split_first() else {
        return Ok(());
    };
    put(draft, text_of(names, *first))?;
    for n in others {
        put_both(draft, ", ", text_of(names, *n))?;
    }
    Ok(())
}

fn put_symbols(names: &Names, numbers: &[Sym], draft: &mut Draft) -> Result<(), AllocError>
    requires fresh { draft.old.seen.items ≡ [] }
    ensures { OnOk result (Tells (codes "Symbols: " ++ listed names.now numbers.now) draft.old draft.new) }
{
    put(draft, "Symbols: ")?;
    put_listed(names, numbers, draft)?;
    Ok(())
}

/// A value after the word for its kind.
fn put_shown(
    alloc: Global,
    names: &Names,
    sig: &Signature,
    store: &Store,
    value: Value,
    draft: &mut Draft,
) -> Result<(), AllocError>
    requires inside { IsIn store.now value }
    requires sorted { IsSortedIn sig.now store.now }
    requires fresh { draft.old.seen.items ≡ [] }
    ensures { OnOk result (Tells (shown_text names.now sig.now (value_at store.now value)) draft.old draft.new) }
{
    match value {
        Value::Term(t) => put_shown_term(alloc, names, sig, store, t, draft),
        Value::Sent(p) => put_told(alloc, names, sig, store, "Sentence: ", p, draft),
        Value::Symbol(f) => put_words(draft, "Symbol: ", text_of(names, f)),
        Value::Conn(conn) => put_words(draft, "Symbol: ", connective(conn)),
        Value::Quant(quant) => put_words(draft, "Symbol: ", quantifier(quant)),
        Value::Back => put_words(draft, "Symbol: ", "<=="),
        Value::PrimMethod(number) => put_words(draft, "Method: ", method(number)),
    }
}

fn put_argument(
    alloc: Global,
    names: &Names,
    sig: &Signature,
    store: &Store,
    arg: &FaultArg,
    draft: &mut Draft,
) -> Result<(), AllocError>
    requires inside { IsArgumentIn store.now arg.now }
    requires sorted { IsSortedIn sig.now store.now }
    ensures { OnOk result (GoesOn (argument_printed names.now sig.now (argument_of store.now arg.now)) draft.old draft.new) }
{
    match arg {
        FaultArg::Sent(p) => put_closed(alloc, names, sig, store, *p, draft),
        FaultArg::Term(t) => put_term(alloc, names, sig, store, *t, &[], draft),
        FaultArg::Sort(sort) => put_sort(alloc, names, sort, draft),
        FaultArg::SortName(n) => {
            put(draft, "'")?;
            put(draft, text_of(names, *n))
        }
        FaultArg::Name(n) => put(draft, text_of(names, *n)),
        FaultArg::Number(n) => put_number(alloc, draft, *n),
    }
}

fn put_arguments(
    alloc: Global,
    names: &Names,
    sig: &Signature,
    store: &Store,
    fault: &Fault,
    draft: &mut Draft,
) -> Result<(), AllocError>
    requires inside { IsFaultIn store.now fault.now }
    requires sorted { IsSortedIn sig.now store.now }
    ensures { OnOk result (GoesOn (spaced (map (argument_printed names.now sig.now) (map (argument_of store.now) fault.now.args))) draft.old draft.new) }
{
    for arg in fault.args.as_slice() {
        put(draft, " ")?;
        put_argument(alloc, names, sig, store, arg, draft)?;
    }
    Ok(())
}

fn put_fault(
    alloc: Global,
    names: &Names,
    sig: &Signature,
    store: &Store,
    fault: &Fault,
    draft: &mut Draft,
) -> Result<(), AllocError>
    requires inside { IsFaultIn store.now fault.now }
    requires sorted { IsSortedIn sig.now store.now }
    ensures { OnOk result (GoesOn (in_turn (word (kind_text fault.now.kind) ∷ spaced (map (argument_printed names.now sig.now) (map (argument_of store.now) fault.now.args)) ∷ [])) draft.old draft.new) }
{
    put(draft, kind(fault.kind))?;
    put_arguments(alloc, names, sig, store, fault, draft)?;
    Ok(())
}

/// The name of a file in quotes, where names of files are written.
fn put_file(
    alloc: Global,
    files: Option<&[String]>,
    number: usize,
    draft: &mut Draft,
) -> Result<(), AllocError>
    ensures { OnOk result (GoesOn (word (file_of (option_map (λ fs. map string_bytes fs.now) files.entry) number)) draft.old draft.new) }
{
    match files {
        Some(files) => put_quoted(alloc, draft, file_name(files, number)),
        None => Ok(()),
    }
}

fn put_place(
    alloc: Global,
    files: Option<&[String]>,
    at: Pos,
    draft: &mut Draft,
) -> Result<(), AllocError>
    ensures { OnOk result (GoesOn (word (place_text (file_of (option_map (λ fs. map string_bytes fs.now) files.entry)) at)) draft.old draft.new) }
{
    put_file(alloc, files, at.file, draft)?;
    put(draft, ":")?;
    put_number(alloc, draft, at.line)?;
    put(draft, ":")?;
    put_number(alloc, draft, at.col)
}

fn put_error(
    alloc: Global,
    at: Pos,
    fault: &Fault,
    names: &Names,
    files: Option<&[String]>,
    sig: &Signature,
    store: &Store,
    draft: &mut Draft,
) -> Result<(), AllocError>
    requires inside { IsFaultIn store.now fault.now }
    requires sorted { IsSortedIn sig.now store.now }
    requires fresh { draft.old.seen.items ≡ [] }
    ensures { OnOk result (Tells (codes "Error: " ++ place_text (file_of (option_map (λ fs. map string_bytes fs.now) files.entry)) at ++ codes ": " ++ refusal_text names.now sig.now (refusal_of store.now fault.now)) draft.old draft.new) }
{
    put(draft, "Error: ")?;
    put_place(alloc, files, at, draft)?;
    put(draft, ": ")?;
    put_fault(alloc, names, sig, store, fault, draft)?;
    Ok(())
}

fn put_exhausted(
    alloc: Global,
    files: Option<&[String]>,
    at: Pos,
    draft: &mut Draft,
) -> Result<(), AllocError>
    requires fresh { draft.old.seen.items ≡ [] }
    ensures { OnOk result (Tells (codes "Fuel: " ++ place_text (file_of (option_map (λ fs. map string_bytes fs.now) files.entry)) at ++ codes ": out of fuel") draft.old draft.new) }
{
    put(draft, "Fuel: ")?;
    put_place(alloc, files, at, draft)?;
    put(draft, ": out of fuel")?;
    Ok(())
}

fn put_event(
    alloc: Global,
    event: &Event,
    names: &Names,
    files: Option<&[String]>,
    sig: &Signature,
    store: &Store,
    draft: &mut Draft,
) -> Result<(), AllocError>
    requires inside { IsEventIn store.now event.now }
    requires sorted { IsSortedIn sig.now store.now }
    requires fresh { draft.old.seen.items ≡ [] }
    ensures { OnOk result (Tells (text_of_event names.now sig.now (file_of (option_map (λ fs. map string_bytes fs.now) files.entry)) (event_of store.now event.now)) draft.old draft.new) }
{
    match event {
        Event::Domain(n) => put_words(draft, "Domain: ", text_of(names, *n)),
        Event::Symbols(numbers) => put_symbols(names, numbers.as_slice(), draft),
        Event::Assertion(p) => put_told(alloc, names, sig, store, "Assertion: ", *p, draft),
        Event::Theorem(p) => put_told(alloc, names, sig, store, "Theorem: ", *p, draft),
        Event::Shown(value) => put_shown(alloc, names, sig, store, *value, draft),
        Event::Error(at, fault) => put_error(alloc, *at, fault, names, files, sig, store, draft),
        Event::Fuel(at) => put_exhausted(alloc, files, *at, draft),
    }
}

/// A whole line, with its line end, and where its bytes went.
fn written(
    alloc: Global,
    event: &Event,
    names: &Names,
    files: Option<&[String]>,
    sig: &Signature,
    store: &Store,
    output: Output,
) -> Result<Output, AllocError>
    requires inside { IsEventIn store.now event.now }
    requires sorted { IsSortedIn sig.now store.now }
    ensures { IfOk result (λ new. line_from new [] ≡ after (word (text_of_event names.now sig.now (file_of (option_map (λ fs. map string_bytes fs.now) files.entry)) (event_of store.now event.now) ++ codes "\n")) (line_from output [])) }
{
    let mut draft = Draft {
        output,
        seen: Vec::new(alloc),
    };
    put_event(alloc, event, names, files, sig, store, &mut draft)?;
    put(&mut draft, "\n")?;
    Ok(draft.output)
}

/// The line of an event, with its line end.
pub fn line(
    alloc: Global,
    event: &Event,
    names: &Names,
    files: &[String],
    sig: &Signature,
    store: &Store,
) -> Result<Vec<u8>, AllocError>
    requires inside { IsEventIn store.now event.now }
    requires sorted { IsSortedIn sig.now store.now }
    ensures { IfOk result (λ bytes. bytes.items ≡ line_of names.now sig.now (map string_bytes files.now) (event_of store.now event.now)) }
{
    let output = Output::Kept(Vec::new(alloc));
    match written(alloc, event, names, Some(files), sig, store, output)? {
        Output::Kept(bytes) => Ok(bytes),
        _counted => unreachable!(),
    }
}

/// The number of bytes of that line without the name of a file and its quotes, or one more than the limit where there are
/// more. The line isn't made, and no more of it is gone through than the limit has room for.
pub fn line_bytes(
    alloc: Global,
    event: &Event,
    names: &Names,
    sig: &Signature,
    store: &Store,
) -> Result<u64, AllocError>
    requires inside { IsEventIn store.now event.now }
    requires sorted { IsSortedIn sig.now store.now }
    ensures { IfOk result (λ n. n ≡ min (bytes_of_line names.now sig.now (event_of store.now event.now)) (MostBytes + 1)) }
{
    let output = Output::Room(MOST_LINE_BYTES);
    match written(alloc, event, names, None, sig, store, output)? {
        Output::Room(room) => Ok(MOST_LINE_BYTES - room),
        _too_long => Ok(MOST_LINE_BYTES + 1),
    }
}
