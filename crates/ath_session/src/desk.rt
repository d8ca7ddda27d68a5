// One step of a run: the next directive of the innermost text, or the next file.

ghost use Rattle.std.specs.Prelude.{◌≡◌, ◌≤◌, ◌<◌, ◌-◌, [], ◌∷◌, length, map, Option, IfOk, OnErr, true, false, ◌||◌};
ghost use Rattle.std.specs.List.{All};
ghost use Rattle.ath_io.specs.Faults.{Rose};
ghost use Rattle.ath_io.specs.Shelf.{Texts};
ghost use Rattle.ath_syntax.specs.Stands.{IsDirective};
ghost use Rattle.ath_syntax.specs.Tree.{DirectiveTree};
ghost use Rattle.ath_print.specs.Events.{is_refused, refused};
ghost use Rattle.ath_eval.specs.Outcomes.{refusal};
ghost use Rattle.ath_print.specs.Stands.{event_of, IsEventIn};
ghost use Rattle.ath_terms.specs.Trees.{Trees};
ghost use Rattle.ath_session.specs.declared.desk.Flow.TheVariants.{On, End};
ghost use Rattle.ath_session.specs.declared.status.Status.TheVariants.{SourceFault as SourceFailed, SinkFault as SinkFailed, Usage as Unused};
ghost use Rattle.ath_session.specs.Run.{saying, saying_all, asking, next_file, with_open, lexical_kind, fault_kind};
ghost use Rattle.ath_session.specs.Steps.{configuration_of, outside, DeskDid, DidOver, DidNext, DidDirective, AreGoing, Opens, IsOpened, weight};
ghost use Rattle.ath_session.specs.Session.{state_of, ParamsDiffer};

use crate::limits::{MOST_ASKED, MOST_LOADS, MOST_OPEN};
use crate::session::{Next, Session};
use crate::status::Status;
use ath_io::{FetchError, Shelf, Sink};
use ath_print::{Event, Fault, FaultKind, line};
use ath_reader::{MOST_BYTES, Reader, SyntaxError, SyntaxKind};
use ath_syntax::{Directive, Pos};
use ath_tokens::LexKind;
use std::alloc::{AllocError, Global};

/// A run: the session, the files of the command line and how many of them are begun, the texts that are open with the
/// innermost last, the names of all texts that were fetched, and whether an error was told.
#[derive(Drop)]
pub(crate) struct Desk {
    pub(crate) session: Session,
    pub(crate) named: Vec<String>,
    pub(crate) next: usize,
    pub(crate) open: Vec<Reader>,
    pub(crate) files: Vec<String>,
    pub(crate) errors: bool,
}

/// How a run flows on.
#[derive(Clone, Copy, Debug, PartialEq, Eq)]
pub(crate) enum Flow {
    On,
    End(Status),
}

fn is_error(event: &Event) -> bool
    ensures { (s : Trees) → result ≡ is_refused (event_of s event.now) }
{
    matches!(event, Event::Error(_, _))
}

/// Writes the line of an event.
fn tell<K: Sink>(alloc: Global, desk: &mut Desk, event: &Event, sink: &mut K) -> Flow
    requires known { IsEventIn desk.old.session.world.store event.now }
    ensures kept { desk.new ≡ record desk.old { errors = desk.new.errors } }
    ensures did { (told : Option Texts) → DeskDid (saying (configuration_of desk.old) (event_of desk.old.session.world.store event.now)) result desk.old desk.new (outside told (K.told sink.old)) (outside told (K.told sink.new)) }
    ensures sink_later { K.faults sink.old ≤ K.faults sink.new }
    ensures sink_cause { result ≡ End SinkFailed → Rose (K.faults sink.old) (K.faults sink.new) }
    ensures no_source { result ≡ End SourceFailed → ⊥ }
    ensures no_usage { result ≡ End Unused → ⊥ }
{
    let world = desk.session.world();
    let Ok(bytes) = line(
        alloc,
        event,
        &world.names,
        desk.files.as_slice(),
        &world.sig,
        &world.store,
    ) else {
        return Flow::End(Status::Memory);
    };
    if sink.put(bytes.as_slice()).is_err() {
        return Flow::End(Status::SinkFault);
    }
    desk.errors = desk.errors || is_error(event);
    Flow::On
}

/// Writes the lines of events, one after the other.
fn tell_all<K: Sink>(alloc: Global, desk: &mut Desk, events: &[Event], sink: &mut K) -> Flow
    requires known { All (IsEventIn desk.old.session.world.store) events.now }
    ensures kept { desk.new ≡ record desk.old { errors = desk.new.errors } }
    ensures did { (told : Option Texts) → DeskDid (saying_all (configuration_of desk.old) (map (event_of desk.old.session.world.store) events.now)) result desk.old desk.new (outside told (K.told sink.old)) (outside told (K.told sink.new)) }
    ensures sink_later { K.faults sink.old ≤ K.faults sink.new }
    ensures sink_cause { result ≡ End SinkFailed → Rose (K.faults sink.old) (K.faults sink.new) }
    ensures no_source { result ≡ End SourceFailed → ⊥ }
    ensures no_usage { result ≡ End Unused → ⊥ }
{
    for event in events {
        if let Flow::End(status) = tell(alloc, desk, event, sink) {
            return Flow::End(status);
        }
    }
    Flow::On
}

/// Refuses what was read by a fault that names nothing, and writes the line of that.
fn tell_fault<K: Sink>(
    alloc: Global,
    desk: &mut Desk,
    at: Pos,
    kind: FaultKind,
    sink: &mut K,
) -> Flow
    ensures kept { desk.new ≡ record desk.old { errors = desk.new.errors } }
    ensures did { (told : Option Texts) → DeskDid (saying (configuration_of desk.old) (refused at (refusal kind []))) result desk.old desk.new (outside told (K.told sink.old)) (outside told (K.told sink.new)) }
    ensures sink_later { K.faults sink.old ≤ K.faults sink.new }
    ensures sink_cause { result ≡ End SinkFailed → Rose (K.faults sink.old) (K.faults sink.new) }
    ensures no_source { result ≡ End SourceFailed → ⊥ }
    ensures no_usage { result ≡ End Unused → ⊥ }
{
    let Ok(reply) = desk.session.refuse(alloc, at, Fault::plain(alloc, kind)) else {
        return Flow::End(Status::Memory);
    };
    tell_all(alloc, desk, reply.events.as_slice(), sink)
}

/// Fetches the text of a name and opens it; a text that is too long is told at `at`.
fn ask<S: Shelf, K: Sink>(
    alloc: Global,
    desk: &mut Desk,
    at: Pos,
    name: &str,
    shelf: &mut S,
    sink: &mut K,
) -> Flow
    ensures session { desk.new.session ≡ desk.old.session }
    ensures did { DidOver (λ texts. asking texts (configuration_of desk.old) at name.now) result desk.old desk.new (outside (S.told shelf.old) (K.told sink.old)) (outside (S.told shelf.new) (K.told sink.new)) }
    ensures opens { result ≡ On → Opens (configuration_of desk.old) (configuration_of desk.new) }
    ensures source_later { S.faults shelf.old ≤ S.faults shelf.new }
    ensures source_cause { result ≡ End SourceFailed → Rose (S.faults shelf.old) (S.faults shelf.new) }
    ensures sink_later { K.faults sink.old ≤ K.faults sink.new }
    ensures sink_cause { result ≡ End SinkFailed → Rose (K.faults sink.old) (K.faults sink.new) }
    ensures no_usage { result ≡ End Unused → ⊥ }
{
    let text = match shelf.fetch(alloc, name, MOST_ASKED) {
        Ok(text) => text,
        Err(FetchError::Failed) => return Flow::End(Status::SourceFault),
        Err(FetchError::Memory) => return Flow::End(Status::Memory),
    };
    match open(alloc, desk, name, text) {
        Err(_) => Flow::End(Status::Memory),
        Ok(true) => Flow::On,
        Ok(false) => tell_fault(alloc, desk, at, FaultKind::FileTooLong, sink),
    }
}

/// Opens a text that was fetched, unless it is too long.
fn open(alloc: Global, desk: &mut Desk, name: &str, text: Vec<u8>) -> Result<bool, AllocError>
    ensures errors { desk.new.errors ≡ desk.old.errors }
    ensures session { desk.new.session ≡ desk.old.session }
    ensures opened { IfOk result (λ new. IsOpened (configuration_of desk.old) name.now text.items new (configuration_of desk.new)) }
{
    let number = desk.files.len();
    let name = String::from_str(alloc, name)?;
    desk.files.push(name)?;
    if text.len() > MOST_BYTES {
        return Ok(false);
    }
    desk.open.push(Reader::new(text, number))?;
    Ok(true)
}

/// Want of memory never comes here: it ends the run.
fn lexical_kind(kind: LexKind) -> FaultKind
    ensures { result ≡ lexical_kind kind }
{
    match kind {
        LexKind::BadUtf8 => FaultKind::BadUtf8,
        LexKind::BadChar => FaultKind::BadChar,
        LexKind::OpenString => FaultKind::OpenString,
        LexKind::NameTooLong => FaultKind::NameTooLong,
        LexKind::Memory => FaultKind::NotBuilt,
    }
}

/// Want of memory never comes here: it ends the run.
fn fault_kind(kind: SyntaxKind) -> FaultKind
    ensures { result ≡ fault_kind kind }
{
    match kind {
        SyntaxKind::Lex(kind) => lexical_kind(kind),
        SyntaxKind::Unexpected => FaultKind::Unexpected,
        SyntaxKind::Unclosed => FaultKind::Unclosed,
        SyntaxKind::KindMix => FaultKind::KindMix,
        SyntaxKind::TooDeep => FaultKind::TooDeep,
        SyntaxKind::Memory => FaultKind::NotBuilt,
    }
}

/// The file of the command line that comes next, or the end.
fn next_file<S: Shelf, K: Sink>(alloc: Global, desk: &mut Desk, shelf: &mut S, sink: &mut K) -> Flow
    requires empty { desk.old.open.items ≡ [] }
    ensures session { desk.new.session ≡ desk.old.session }
    ensures did { DidOver (λ texts. next_file texts (configuration_of desk.old) (configuration_of desk.old).waiting) result desk.old desk.new (outside (S.told shelf.old) (K.told sink.old)) (outside (S.told shelf.new) (K.told sink.new)) }
    ensures going { result ≡ On → AreGoing (configuration_of desk.new) }
    ensures shallow { result ≡ On → length desk.new.open.items ≤ MOST_OPEN }
    ensures falls { result ≡ On → weight (configuration_of desk.new) < weight (configuration_of desk.old) }
    ensures source_later { S.faults shelf.old ≤ S.faults shelf.new }
    ensures source_cause { result ≡ End SourceFailed → Rose (S.faults shelf.old) (S.faults shelf.new) }
    ensures sink_later { K.faults sink.old ≤ K.faults sink.new }
    ensures sink_cause { result ≡ End SinkFailed → Rose (K.faults sink.old) (K.faults sink.new) }
    ensures no_usage { result ≡ End Unused → ⊥ }
{
    if desk.next >= desk.named.len() {
        let status = if desk.errors {
            Status::Errors
        } else {
            Status::Clean
        };
        return Flow::End(status);
    }
    let Ok(name) = String::from_str(alloc, desk.named[desk.next].as_str()) else {
        return Flow::End(Status::Memory);
    };
    desk.next += 1;
    let at = Pos {
        file: desk.files.len(),
        line: 1,
        col: 1,
    };
    ask(alloc, desk, at, name.as_str(), shelf, sink)
}

/// Runs a directive of the innermost text.
fn run_directive<S: Shelf, K: Sink>(
    alloc: Global,
    desk: &mut Desk,
    directive: &Directive,
    shelf: &mut S,
    sink: &mut K,
) -> Flow
    requires directive { (d : DirectiveTree) × IsDirective desk.old.session.world.phrases directive.now d }
    requires differ { ParamsDiffer directive.now.what }
    ensures did { DidDirective directive.now result desk.old desk.new (outside (S.told shelf.old) (K.told sink.old)) (outside (S.told shelf.new) (K.told sink.new)) }
    ensures opens { result ≡ On → Opens (configuration_of desk.old) (configuration_of desk.new) }
    ensures shallow { result ≡ On → length desk.old.open.items ≤ MOST_OPEN → length desk.new.open.items ≤ MOST_OPEN }
    ensures source_later { S.faults shelf.old ≤ S.faults shelf.new }
    ensures source_cause { result ≡ End SourceFailed → Rose (S.faults shelf.old) (S.faults shelf.new) }
    ensures sink_later { K.faults sink.old ≤ K.faults sink.new }
    ensures sink_cause { result ≡ End SinkFailed → Rose (K.faults sink.old) (K.faults sink.new) }
    ensures no_usage { result ≡ End Unused → ⊥ }
{
    let Ok(reply) = desk.session.directive(alloc, directive) else {
        return Flow::End(Status::Memory);
    };
    match &reply.next {
        Next::Go => tell_all(alloc, desk, reply.events.as_slice(), sink),
        Next::Stop => match tell_all(alloc, desk, reply.events.as_slice(), sink) {
            Flow::On => Flow::End(Status::Fuel),
            Flow::End(status) => Flow::End(status),
        },
        Next::Load(name) => {
            if desk.open.len() > MOST_LOADS {
                return tell_fault(alloc, desk, directive.pos, FaultKind::TooManyLoads, sink);
            }
            ask(alloc, desk, directive.pos, name.as_str(), shelf, sink)
        }
    }
}

/// A syntax error is told, and its text isn't open any more.
fn refuse_text<K: Sink>(alloc: Global, desk: &mut Desk, error: SyntaxError, sink: &mut K) -> Flow
    ensures kept { desk.new ≡ record desk.old { errors = desk.new.errors } }
    ensures memory { error.kind ≡ SyntaxKind.Memory → (result ≡ End Status.Memory) × (K.told sink.new ≡ K.told sink.old) }
    ensures did { (error.kind ≡ SyntaxKind.Memory → ⊥) → (told : Option Texts) → DeskDid (saying (configuration_of desk.old) (refused error.pos (refusal (fault_kind error.kind) []))) result desk.old desk.new (outside told (K.told sink.old)) (outside told (K.told sink.new)) }
    ensures sink_later { K.faults sink.old ≤ K.faults sink.new }
    ensures sink_cause { result ≡ End SinkFailed → Rose (K.faults sink.old) (K.faults sink.new) }
    ensures no_source { result ≡ End SourceFailed → ⊥ }
    ensures no_usage { result ≡ End Unused → ⊥ }
{
    if error.kind == SyntaxKind::Memory {
        return Flow::End(Status::Memory);
    }
    tell_fault(alloc, desk, error.pos, fault_kind(error.kind), sink)
}

/// Reads on in a text that was the innermost one.
fn read_on<S: Shelf, K: Sink>(
    alloc: Global,
    desk: &mut Desk,
    reader: Reader,
    shelf: &mut S,
    sink: &mut K,
) -> Flow
    requires shallow { length desk.old.open.items ≤ MOST_LOADS }
    requires going { AreGoing (with_open reader (configuration_of desk.old)) }
    ensures did { DidNext (with_open reader (configuration_of desk.old)) result desk.old desk.new (outside (S.told shelf.old) (K.told sink.old)) (outside (S.told shelf.new) (K.told sink.new)) }
    ensures going { result ≡ On → AreGoing (configuration_of desk.new) }
    ensures shallow { result ≡ On → length desk.new.open.items ≤ MOST_OPEN }
    ensures falls { result ≡ On → weight (configuration_of desk.new) < weight (with_open reader (configuration_of desk.old)) }
    ensures source_later { S.faults shelf.old ≤ S.faults shelf.new }
    ensures source_cause { result ≡ End SourceFailed → Rose (S.faults shelf.old) (S.faults shelf.new) }
    ensures sink_later { K.faults sink.old ≤ K.faults sink.new }
    ensures sink_cause { result ≡ End SinkFailed → Rose (K.faults sink.old) (K.faults sink.new) }
    ensures no_usage { result ≡ End Unused → ⊥ }
{
    let mut reader = reader;
    match desk.session.read(alloc, &mut reader) {
        Ok(None) => Flow::On,
        Err(error) => refuse_text(alloc, desk, error, sink),
        Ok(Some(directive)) => {
            if desk.open.push(reader).is_err() {
                return Flow::End(Status::Memory);
            }
            run_directive(alloc, desk, &directive, shelf, sink)
        }
    }
}

/// The next step of a run.
pub(crate) fn advance<S: Shelf, K: Sink>(
    alloc: Global,
    desk: &mut Desk,
    shelf: &mut S,
    sink: &mut K,
) -> Flow
    requires shallow { length desk.old.open.items ≤ MOST_OPEN }
    requires going { AreGoing (configuration_of desk.old) }
    ensures did { DidNext (configuration_of desk.old) result desk.old desk.new (outside (S.told shelf.old) (K.told sink.old)) (outside (S.told shelf.new) (K.told sink.new)) }
    ensures going { result ≡ On → AreGoing (configuration_of desk.new) }
    ensures shallow { result ≡ On → length desk.new.open.items ≤ MOST_OPEN }
    ensures falls { result ≡ On → weight (configuration_of desk.new) < weight (configuration_of desk.old) }
    ensures source_later { S.faults shelf.old ≤ S.faults shelf.new }
    ensures source_cause { result ≡ End SourceFailed → Rose (S.faults shelf.old) (S.faults shelf.new) }
    ensures sink_later { K.faults sink.old ≤ K.faults sink.new }
    ensures sink_cause { result ≡ End SinkFailed → Rose (K.faults sink.old) (K.faults sink.new) }
    ensures no_usage { result ≡ End Unused → ⊥ }
{
    match desk.open.pop() {
        None => next_file(alloc, desk, shelf, sink),
        Some(reader) => read_on(alloc, desk, reader, shelf, sink),
    }
}
