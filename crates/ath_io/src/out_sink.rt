// A writer as a sink.
ghost use Rattle.std.specs.Prelude.{◌≡◌, ◌≤◌, ℕ, None, OnOk, OnErr, take};
ghost use Rattle.ath_io.specs.Faults.{one_more, Rose};
ghost use Rattle.ath_io.specs.OutSink.{writer_of, fault_count, Writes};
ghost use Rattle.ath_io.specs.Sink.{Puts};

use crate::sink::{PutFailed, Sink};
use std::io::{ErrorKind, Write};

/// A writer, as that of standard output. It tells nothing of what it took; where the writer itself
/// tells that, a clause of `put` says it.
#[derive(Drop)]
pub struct OutSink<W: Write + Drop> {
    writer: W,
    faults: u64,
}

impl<W: Write + Drop> OutSink<W> {
    /// A sink over this writer, with no fault so far.
    pub fn new(writer: W) -> Self
        ensures writer { writer_of result ≡ writer }
        ensures faults { fault_count result ≡ 0 }
    {
        OutSink { writer, faults: 0 }
    }
}

// Writes all the bytes, or fails after a front of them. A write that takes none of some bytes is a
// failure.
fn write_whole<W: Write>(writer: &mut W, bytes: &[u8]) -> Result<(), PutFailed>
    ensures { Writes (W.contents writer.old) bytes.now result (W.contents writer.new) }
{
    let mut rest = bytes;
    for _ in 0..u64::MAX {
        if rest.is_empty() {
            return Ok(());
        }
        match writer.write(rest) {
            Ok(count) => {
                if count == 0 {
                    return Err(PutFailed);
                }
                rest = &rest[count..];
            }
            Err(error) => {
                if error.kind() != ErrorKind::Interrupted {
                    return Err(PutFailed);
                }
            }
        }
    }
    Err(PutFailed)
}

impl<W: Write + Drop> Sink for OutSink<W> {
    ghost told = { λ _. None };

    ghost faults = { λ s. fault_count s };

    fn put(&mut self, bytes: &[u8]) -> Result<(), PutFailed>
        ensures taken { Puts None bytes.now result None }
        ensures later { fault_count self.old ≤ fault_count self.new }
        ensures cause { OnErr result (Rose (fault_count self.old) (fault_count self.new)) }
        ensures written { Writes (W.contents (writer_of self.old)) bytes.now result
            (W.contents (writer_of self.new)) }
        ensures kept { OnOk result (fault_count self.new ≡ fault_count self.old) }
        ensures counted { OnErr result (fault_count self.new ≡ one_more (fault_count self.old)) }
    {
        let written = write_whole(&mut self.writer, bytes);
        if written.is_err() {
            self.faults = self.faults.saturating_add(1);
        }
        written
    }
}
