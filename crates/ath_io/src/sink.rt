// Bytes that go out.
ghost use Rattle.std.specs.Prelude.{◌≡◌, ◌≤◌, ℕ, Option, OnErr};
ghost use Rattle.ath_io.specs.Faults.{Rose};
ghost use Rattle.ath_io.specs.Sink.{Held, Puts};

use thiserror::Error;

/// A sink didn't take a piece whole.
#[derive(Debug, Drop, Error)]
#[error("the output can't be written")]
pub struct PutFailed;

/// What takes bytes, a piece at a time.
pub trait Sink {
    /// The bytes and the number of puts so far, where the sink tells them.
    ghost told: { Self → Option Held };

    /// How often a put has failed, up to the last value of a count of 64 bits.
    ghost faults: { Self → ℕ };

    /// Adds all the bytes, or fails and adds a front of them.
    fn put(&mut self, bytes: &[u8]) -> Result<(), PutFailed>
        ensures taken { Puts (told self.old) bytes.now result (told self.new) }
        ensures later { faults self.old ≤ faults self.new }
        ensures cause { OnErr result (Rose (faults self.old) (faults self.new)) };
}
