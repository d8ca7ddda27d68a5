// The numbers that the program ends with.

ghost use Rattle.std.specs.Prelude.{◌≡◌, ◌≢◌};
ghost use Rattle.std.specs.declared.io.ErrorKind.TheVariants.{OutOfMemory};
ghost use Rattle.ath_cli.specs.Exit.{number_of};

use ath_session::Status;
use std::io::ErrorKind;

/// The number that the program ends with after a run.
pub fn exit_number(status: Status) -> u8
    ensures { result ≡ number_of status }
{
    match status {
        Status::Clean => 0,
        Status::Errors => 1,
        Status::Usage => 2,
        Status::Fuel => 3,
        Status::SourceFault => 4,
        Status::SinkFault => 5,
        Status::Memory => 6,
    }
}

/// The number that the program ends with where the system didn't give the words, for this cause.
pub fn number_without_words(cause: ErrorKind) -> u8
    ensures memory { cause ≡ OutOfMemory → result ≡ 6 }
    ensures other { cause ≢ OutOfMemory → result ≡ 7 }
{
    match cause {
        ErrorKind::OutOfMemory => 6,
        _ => 7,
    }
}
