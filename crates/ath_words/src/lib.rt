//! The words of the command line: `[--fuel N] FILE..`, with the options anywhere before a `--`.
#![tactic(auto)]

mod fuel;
pub mod limits;
#[cfg(test)]
mod tests;

ghost use Rattle.std.specs.Prelude.{◌≡◌, IfOk, map, option_map, string_bytes};
ghost use Rattle.clap.specs.Words.{app_of, found_of};
ghost use Rattle.ath_words.specs.Command.{athena, choices_in};
ghost use Rattle.ath_words.specs.Words.{asked_by, asked_of, fuel_of, run_of};

use crate::fuel::fuel;
use clap::error::ErrorKind;
use clap::{Arg, ArgAction, ArgMatches, Command};
use std::alloc::{AllocError, Global};

/// What the words ask for: the fuel, and one file or more in the order of the words.
#[derive(Drop)]
pub struct Run<'a> {
    pub fuel: u64,
    pub files: Vec<&'a str>,
}

/// The command: `--fuel` with a text, at most once, and files. There is no help and no version.
fn athena<'a>(alloc: Global) -> Result<Command<'a>, AllocError>
    ensures { IfOk result (λ command. app_of command ≡ athena) }
{
    let fuel = Arg::new(alloc, "fuel").long("fuel");
    let file = Arg::new(alloc, "file").action(ArgAction::Append);
    Command::new(alloc, "athena")
        .no_binary_name(true)
        .disable_help_flag(true)
        .arg(fuel)?
        .arg(file)
}

/// The run that the words spell, which come without the program's name; none where they spell none. An option that isn't
/// known is refused whatever follows it, and `--generate` isn't known yet.
pub fn read_words<'a>(alloc: Global, words: &'a [String]) -> Result<Option<Run<'a>>, AllocError>
    ensures { IfOk result (λ run. option_map asked_of run ≡ run_of (map string_bytes words.entry.now)) }
{
    let command = athena(alloc)?;
    match command.try_get_matches_from(words) {
        Ok(matches) => checked(alloc, &matches),
        Err(error) => match error.kind() {
            ErrorKind::OutOfMemory => Err(AllocError),
            _ => Ok(None),
        },
    }
}

/// The run that the matches spell, where its number is one and it has a file.
fn checked<'a>(alloc: Global, matches: &ArgMatches<'a>) -> Result<Option<Run<'a>>, AllocError>
    ensures { IfOk result (λ run. option_map asked_of run ≡ asked_by (choices_in (found_of matches.now))) }
{
    let files = files_in(alloc, matches)?;
    if files.is_empty() {
        return Ok(None);
    }
    let Some(fuel) = fuel_in(matches) else {
        return Ok(None);
    };
    Ok(Some(Run { fuel, files }))
}

/// The fuel that the matches give.
fn fuel_in(matches: &ArgMatches<'_>) -> Option<u64>
    ensures { result ≡ fuel_of (choices_in (found_of matches.now)).0 }
{
    fuel(matches.get_str("fuel"))
}

/// The files that the matches name.
fn files_in<'a>(alloc: Global, matches: &ArgMatches<'a>) -> Result<Vec<&'a str>, AllocError>
    ensures { IfOk result (λ files. map (λ file. file.now) files.items ≡ (choices_in (found_of matches.now)).1) }
{
    match matches.get_strs("file") {
        Some(files) => files.to_vec(alloc),
        None => Ok(Vec::new(alloc)),
    }
}
