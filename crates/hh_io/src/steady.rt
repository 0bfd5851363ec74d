ghost use Rattle.std.specs.Prelude.{◌≡◌, ◌≤◌, ◌<◌, ◌^◌, ◌↔◌, [], Some, Ok, IfOk, IfSome, IsNone, length, min, take, drop};
ghost use Rattle.std.specs.Io.{ReadsAtMost};
ghost use Rattle.std.specs.Io.KnownBytes.{ReadConsumes};
ghost use Rattle.hh_io.specs.Counts.{last_count, HasCause, RisesByOne, UsesCertainty};
ghost use Rattle.hh_io.specs.Sinks.{WriteTakes, WriteTellsOn};
ghost use Rattle.hh_io.specs.Steady.{told_bytes, steady_after};

use crate::front::copy_from;
use crate::{Failed, Sink, Source};
use hack_values::{NoMemory, Text};
use std::alloc::Global;
use std::marker::Model;

/// A source of given bytes of which no read fails. It counts no reads.
#[derive(Drop)]
pub struct SteadySource {
    bytes: Text,
    at: usize,
}

impl Model for SteadySource {
    ghost use Rattle.std.specs.Prelude.{◌≤◌, List, ℕ, length, drop};

    ghost Value = { List ℕ };

    ghost view = { λ s. drop s.at s.bytes };

    ghost invariant = { λ s. s.at ≤ length s.bytes };
}

impl SteadySource {
    /// A source that was not read yet.
    pub fn new(bytes: Text) -> SteadySource
        ensures { result ≡ bytes }
    {
        SteadySource { bytes, at: 0 }
    }
}

impl Source for SteadySource {
    ghost left = { λ s. Some s };

    ghost faults = { λ _. 0 };

    ghost reads = { λ _. 0 };

    ghost certain = { λ _. 2 ^ 64 };

    fn read(&mut self, buf: &mut [u8]) -> Result<usize, Failed>
        ensures bound { ReadsAtMost result buf.new }
        ensures bytes { ReadConsumes (Some self.old) (Some self.new) result buf.new }
        ensures cause { HasCause 0 0 result }
        ensures sound { UsesCertainty (2 ^ 64) (2 ^ 64) result }
        ensures empty { length buf.old ≡ 0 → (result ≡ Ok 0) × (self.new ≡ self.old) }

        // Each call fills the buffer as far as the bytes go.
        ensures gives { let count = min (length self.old) (length buf.old) in
            (result ≡ Ok count) × (self.new ≡ drop count self.old)
            × (take count buf.new ≡ take count self.old) }
    {
        let count = copy_from(buf, self.bytes.bytes(), self.at);
        self.at += count;
        Ok(count)
    }
}

/// A sink of which no write fails. It takes all that it is given, and keeps it while it fits its
/// room.
#[derive(Drop)]
pub struct SteadySink {
    kept: Vec<u8>,
    total: usize,
    room: usize,
}

impl Model for SteadySink {
    ghost use Rattle.std.specs.Prelude.{◌≡◌, ◌≤◌, ◌<◌, length, vec_capacity};
    ghost use Rattle.hh_io.specs.Counts.{last_count};
    ghost use Rattle.hh_io.specs.Steady.{Steady};

    ghost Value = { Steady };

    ghost view = { λ k. record { kept = k.kept.items; total = k.total; room = k.room } };

    ghost invariant = { λ k. (k.total ≤ k.room → length k.kept.items ≡ k.total)
        × (k.room ≤ vec_capacity k.kept) × (k.room < last_count) };
}

impl SteadySink {
    /// A sink that has taken nothing yet. It takes the memory for all its room.
    pub fn new(alloc: Global, room: usize) -> Result<SteadySink, NoMemory>
        ensures { IfOk result (λ k. k ≡ record { kept = []; total = 0; room = room }) }
    {
        // No memory holds so many bytes.
        if room == usize::MAX {
            return Err(NoMemory);
        }
        Ok(SteadySink {
            kept: Vec::with_capacity(alloc, room)?,
            total: 0,
            room,
        })
    }

    /// What was taken, where it is at most the room.
    pub fn bytes(&self) -> Option<&[u8]>
        ensures none { IsNone result ↔ (self.now.room < self.now.total) }
        ensures some { IfSome result (λ bytes. bytes.now ≡ self.now.kept) }
    {
        if self.total <= self.room {
            Some(self.kept.as_slice())
        } else {
            None
        }
    }
}

impl Sink for SteadySink {
    ghost taken = { told_bytes };

    ghost faults = { λ _. 0 };

    ghost room = { λ k. k.room };

    fn write(&mut self, bytes: &[u8]) -> Result<usize, Failed>
        ensures bytes { WriteTakes (told_bytes self.old) (told_bytes self.new) result bytes.now }
        ensures cause { HasCause 0 0 result }
        ensures told { WriteTellsOn (told_bytes self.old) (told_bytes self.new) self.old.room result }
        ensures same_room { self.new.room ≡ self.old.room }
        ensures empty { length bytes.now ≡ 0 → (result ≡ Ok 0) × (self.new ≡ self.old) }

        // Each call takes its whole piece.
        ensures takes { (result ≡ Ok (length bytes.now)) × (self.new ≡ steady_after self.old bytes.now) }
    {
        let total = self.total.saturating_add(bytes.len());
        if total <= self.room {
            match self.kept.extend_from_slice(bytes) {
                Ok(()) => {}
                Err(_) => unreachable!(),
            }
        }
        self.total = total;
        Ok(bytes.len())
    }
}
