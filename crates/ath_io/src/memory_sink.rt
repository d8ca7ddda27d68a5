// A sink in memory.
ghost use Rattle.std.specs.Prelude.{◌≡◌, ◌≤◌, ◌↔◌, Some, IfOk, IsTrue, IsErr, OnErr};
ghost use Rattle.std.specs.Option.{option_map};
ghost use Rattle.ath_io.specs.Faults.{Rose};
ghost use Rattle.ath_io.specs.Sink.{Puts};
ghost use Rattle.ath_io.specs.MemorySink.{listed_count, new_sink, put_fails, sink_after};

use crate::sink::{PutFailed, Sink};
use std::alloc::{AllocError, Global};
use std::marker::Model;

/// Bytes up to a room that is made at the beginning, with the numbers of the puts that fail.
/// It tells all that it holds.
#[derive(Drop)]
pub struct MemorySink {
    bytes: Vec<u8>,
    room: usize,
    failing: Vec<(usize, usize)>,
    puts: usize,
    faults: u64,
}

impl Model for MemorySink {
    ghost use Rattle.std.specs.Prelude.{◌≤◌, length, vec_capacity};
    ghost use Rattle.ath_io.specs.MemorySink.{SinkState};

    ghost Value = { SinkState };

    ghost view = { λ s. record {
      held = record { bytes = s.bytes.items; puts = s.puts };
      room = s.room;
      failing = s.failing.items;
      faults = s.faults;
    } };

    ghost invariant = { λ s. (length s.bytes.items ≤ s.room) × (s.room ≤ vec_capacity s.bytes) };
}

impl MemorySink {
    /// A sink with room for so many bytes. Each pair is the number of a put that fails, where the
    /// first put is number 1, and how many bytes that put takes.
    pub fn new(alloc: Global, room: usize, failing: Vec<(usize, usize)>) -> Result<Self, AllocError>
        ensures { IfOk result (λ sink. sink ≡ new_sink room failing.items) }
    {
        let bytes = Vec::with_capacity(alloc, room)?;
        Ok(MemorySink {
            bytes,
            room,
            failing,
            puts: 0,
            faults: 0,
        })
    }

    /// The bytes that were taken.
    pub fn bytes(&self) -> &[u8]
        ensures { result.now ≡ self.now.held.bytes }
    {
        &self.bytes
    }

    /// How often a put has failed.
    pub fn faults(&self) -> u64
        ensures { result ≡ self.now.faults }
    {
        self.faults
    }
}

// How many bytes are listed for this number; of two pairs with one number the first counts.
fn listed_for(failing: &[(usize, usize)], number: usize) -> Option<usize>
    ensures { result ≡ listed_count failing.now number }
{
    for pair in failing {
        if pair.0 == number {
            return Some(pair.1);
        }
    }
    None
}

impl Sink for MemorySink {
    ghost told = { λ s. Some s.held };

    ghost faults = { λ s. s.faults };

    fn put(&mut self, bytes: &[u8]) -> Result<(), PutFailed>
        ensures taken { Puts (Some self.old.held) bytes.now result (Some self.new.held) }
        ensures later { self.old.faults ≤ self.new.faults }
        ensures cause { OnErr result (Rose self.old.faults self.new.faults) }
        ensures fails { IsErr result ↔ IsTrue (put_fails self.old bytes.now) }
        ensures after { self.new ≡ sink_after self.old bytes.now }
    {
        let left = self.room - self.bytes.len();
        self.puts = self.puts.saturating_add(1);
        let listed = listed_for(&self.failing, self.puts);
        let count = listed.unwrap_or(bytes.len()).min(left).min(bytes.len());
        self.bytes.extend_from_slice(&bytes[..count]).unwrap();
        if listed.is_some() || left < bytes.len() {
            self.faults = self.faults.saturating_add(1);
            return Err(PutFailed);
        }
        Ok(())
    }
}
