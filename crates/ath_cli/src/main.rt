//! The program `athena`: the words, the files and standard output, handed to the one public call.
#![tactic(auto)]

mod exit;
mod messages;
#[cfg(test)]
mod tests;

ghost use Rattle.std.specs.Prelude.{◌≡◌, ◌⊎◌, None, map, string_bytes};
ghost use Rattle.ath_words.specs.Words.{run_of};
ghost use Rattle.ath_session.specs.declared.status.Status.TheVariants.{Usage, Memory};

use crate::exit::{exit_number, number_without_words};
use crate::messages::{NO_MEMORY, message, message_without_words};
use ath_io::{DirShelf, OutSink, Sink};
use ath_session::{Status, athena};
use std::alloc::Global;
use std::process::ExitCode;
use std::rt::Env;
use std::{env, io};

fn main(rt: HostRuntime) -> ExitCode {
    let mut sink = OutSink::new(rt.stdout());
    let mut errors = OutSink::new(rt.stderr());
    let number = match words(&rt) {
        Ok(words) => exit_number(run(&rt, &words, &mut sink, &mut errors)),
        Err(error) => {
            say(message_without_words(error.kind()).as_bytes(), &mut errors);
            number_without_words(error.kind())
        }
    };
    ExitCode::from(number)
}

/// The words of the command line, without the program's name.
fn words(rt: &(impl Env + AllocGlobal)) -> io::Result<Vec<String>> {
    let mut words = Vec::new(rt.alloc());
    for word in env::args(rt)?.skip(1) {
        words.push(word)?;
    }
    Ok(words)
}

/// Runs the words over the files and this sink; why the run ended is told to `errors`, where the report doesn't say it.
fn run<K: Sink, E: Sink>(
    rt: &HostRuntime,
    words: &Vec<String>,
    sink: &mut K,
    errors: &mut E,
) -> Status
    ensures usage { result ≡ Usage → run_of (map string_bytes words.now.items) ≡ None }
    ensures no_run { run_of (map string_bytes words.now.items) ≡ None → (result ≡ Usage ⊎ result ≡ Memory) }
{
    let mut shelf = DirShelf::new(rt);
    let status = athena(rt.alloc(), words, &mut shelf, sink);
    explain(rt.alloc(), status, shelf.failed(), errors);
    status
}

/// Says why a run ended so.
fn explain<E: Sink>(alloc: Global, status: Status, failed: Option<&str>, errors: &mut E) {
    match message(alloc, status, failed) {
        Ok(line) => say(line.as_slice(), errors),
        Err(_) => say(NO_MEMORY.as_bytes(), errors),
    }
}

/// The status stands whether or not a line is taken.
fn say<E: Sink>(line: &[u8], errors: &mut E) {
    let _ = errors.put(line);
}
