// What the program says on standard error: one line at most.

ghost use Rattle.std.specs.Prelude.{◌≡◌, ◌≢◌, IfOk, codes, option_map};
ghost use Rattle.std.specs.declared.io.ErrorKind.TheVariants.{OutOfMemory};
ghost use Rattle.ath_cli.specs.Messages.{message_of, unread_text, no_memory, no_words};

use ath_print::{push, push_quoted};
use ath_session::Status;
use std::alloc::{AllocError, Global};
use std::io::ErrorKind;

/// What is said where memory is wanted.
pub const NO_MEMORY: &str = "athena: out of memory\n";

const USAGE: &str = "usage: athena [--fuel N] FILE.. | athena [--fuel N] --generate N\n";

const NO_OUTPUT: &str = "athena: can't write to standard output\n";

const NO_WORDS: &str = "athena: can't read the words of the command line\n";

/// The line that says why a run ended so, and nothing where the report says it. `failed` is the name of the last file that
/// couldn't be read.
pub fn message(alloc: Global, status: Status, failed: Option<&str>) -> Result<Vec<u8>, AllocError>
    ensures { IfOk result (λ line. line.items ≡ message_of status (option_map (λ name. name.now) failed.entry)) }
{
    match status {
        Status::Clean | Status::Errors | Status::Fuel => Ok(Vec::new(alloc)),
        Status::Usage => USAGE.as_bytes().to_vec(alloc),
        Status::SourceFault => unread(alloc, failed),
        Status::SinkFault => NO_OUTPUT.as_bytes().to_vec(alloc),
        Status::Memory => NO_MEMORY.as_bytes().to_vec(alloc),
    }
}

fn unread(alloc: Global, failed: Option<&str>) -> Result<Vec<u8>, AllocError>
    ensures { IfOk result (λ line. line.items ≡ unread_text (option_map (λ name. name.now) failed.entry)) }
{
    let mut line = Vec::new(alloc);
    let Some(name) = failed else {
        push(&mut line, "athena: can't read a file\n")?;
        return Ok(line);
    };
    push(&mut line, "athena: can't read ")?;
    push_quoted(&mut line, name)?;
    push(&mut line, "\n")?;
    Ok(line)
}

/// What is said where the system didn't give the words, for this cause.
pub fn message_without_words(cause: ErrorKind) -> &'static str
    ensures memory { cause ≡ OutOfMemory → result.now ≡ no_memory }
    ensures other { cause ≢ OutOfMemory → result.now ≡ no_words }
{
    match cause {
        ErrorKind::OutOfMemory => NO_MEMORY,
        _ => NO_WORDS,
    }
}
