// The program's one call.

ghost use Rattle.std.specs.Prelude.{◌≡◌, ◌≤◌, ◌⊎◌, None, Some, map, string_bytes, IfOk};
ghost use Rattle.ath_io.specs.Faults.{Rose};
ghost use Rattle.ath_io.specs.Shelf.{Texts};
ghost use Rattle.ath_words.specs.Words.{run_of};
ghost use Rattle.ath_session.specs.declared.status.Status.TheVariants.{Memory, SinkFault, SourceFault, Usage};
ghost use Rattle.ath_session.specs.Believed.{BelievedTold};
ghost use Rattle.ath_session.specs.Ends.{Reports, ReportsTold, Completes};
ghost use Rattle.ath_session.specs.Steps.{IsNewDesk, outside};

use crate::desk::{Desk, Flow, advance};
use crate::session::Session;
use crate::status::Status;
use ath_io::{Shelf, Sink};
use ath_words::limits::MOST_FUEL;
use ath_words::read_words;
use std::alloc::{AllocError, Global};

/// Runs the scripts that the words name, and writes their report: the lines of each directive, in order, each as one put.
/// The words don't hold the program's name. The language is that of Arkoudas and Musser, "Fundamental Proof Methods in
/// Computer Science", in this project's profile.
pub fn athena<S: Shelf, K: Sink>(
    alloc: Global,
    words: &Vec<String>,
    shelf: &mut S,
    sink: &mut K,
) -> Status
    ensures usage { result ≡ Usage → run_of (map string_bytes words.now.items) ≡ None }
    ensures untouched { run_of (map string_bytes words.now.items) ≡ None → (result ≡ Usage ⊎ result ≡ Memory) × (shelf.new ≡ shelf.old) × (sink.new ≡ sink.old) }
    ensures report { ReportsTold (map string_bytes words.now.items) result (record { shelf = S.told shelf.old; sink = K.told sink.old }) (record { shelf = S.told shelf.new; sink = K.told sink.new }) }
    ensures theorems { BelievedTold result (S.told shelf.old) (K.told sink.old) (K.told sink.new) }
    ensures source_later { S.faults shelf.old ≤ S.faults shelf.new }
    ensures source_cause { result ≡ SourceFault → Rose (S.faults shelf.old) (S.faults shelf.new) }
    ensures sink_later { K.faults sink.old ≤ K.faults sink.new }
    ensures sink_cause { result ≡ SinkFault → Rose (K.faults sink.old) (K.faults sink.new) }
    ensures complete { (Rose (S.faults shelf.old) (S.faults shelf.new) → ⊥) → (Rose (K.faults sink.old) (K.faults sink.new) → ⊥) → Completes (map string_bytes words.now.items) (S.told shelf.old) result }
{
    match read_words(alloc, words.as_slice()) {
        Err(_) => Status::Memory,
        Ok(None) => Status::Usage,
        Ok(Some(run)) => run_files(alloc, run.fuel, run.files.as_slice(), shelf, sink),
    }
}

/// A desk on which nothing is done yet.
fn desk_of(alloc: Global, fuel: u64, files: &[&str]) -> Result<Desk, AllocError>
    requires { fuel ≤ MOST_FUEL }
    ensures new { IfOk result (λ desk. IsNewDesk desk fuel (map (λ file. file.now) files.now)) }
{
    let session = Session::new(alloc, fuel)?;
    let mut named = Vec::new(alloc);
    for file in files {
        named.push(String::from_str(alloc, file)?)?;
    }
    Ok(Desk {
        session,
        named,
        next: 0,
        open: Vec::new(alloc),
        files: Vec::new(alloc),
        errors: false,
    })
}

/// Runs the files one after the other.
fn run_files<S: Shelf, K: Sink>(
    alloc: Global,
    fuel: u64,
    files: &[&str],
    shelf: &mut S,
    sink: &mut K,
) -> Status
    requires { fuel ≤ MOST_FUEL }
    ensures report { (t : Texts) → S.told shelf.old ≡ Some t → Reports t.texts (Some (record { fuel = fuel; files = map (λ file. file.now) files.now })) result (outside (S.told shelf.old) (K.told sink.old)) (outside (S.told shelf.new) (K.told sink.new)) }
    ensures no_usage { result ≡ Usage → ⊥ }
    ensures source_later { S.faults shelf.old ≤ S.faults shelf.new }
    ensures source_cause { result ≡ SourceFault → Rose (S.faults shelf.old) (S.faults shelf.new) }
    ensures sink_later { K.faults sink.old ≤ K.faults sink.new }
    ensures sink_cause { result ≡ SinkFault → Rose (K.faults sink.old) (K.faults sink.new) }
{
    let Ok(mut desk) = desk_of(alloc, fuel, files) else {
        return Status::Memory;
    };
    loop {
        if let Flow::End(status) = advance(alloc, &mut desk, shelf, sink) {
            return status;
        }
    }
}
