ghost use Rattle.std.specs.Prelude.{◌≡◌, ◌≤◌, ◌<◌, [], true, false, Some, Ok, IsErr, IfOk, length, take};
ghost use Rattle.std.specs.Io.{ReadsAtMost};
ghost use Rattle.std.specs.Io.KnownBytes.{ReadConsumes};
ghost use Rattle.hh_io.specs.Counts.{last_count, HasCause, RisesByOne, UsesCertainty};
ghost use Rattle.hh_io.specs.Sinks.{WriteTakes, WriteTellsOn};
ghost use Rattle.hh_io.specs.Memory.{is_listed, certain_calls, given_count, supply_after, supply_failed, fitting_count, store_after, store_failed};

use crate::front::copy_from;
use crate::{Failed, Sink, Source};
use hack_values::{NoMemory, Seq, Text};
use std::alloc::Global;
use std::marker::Model;

// Whether the call of this number is among those that fail.
fn is_in(failing: &Seq<u64>, call: u64) -> bool
    ensures { result ≡ is_listed failing.now call }
{
    failing.as_slice().contains(&call)
}

/// A source of given bytes. Its calls are counted from 0, and those whose numbers are listed fail.
#[derive(Drop)]
pub struct MemSource {
    bytes: Text,
    at: usize,
    failing: Seq<u64>,
    calls: u64,
    faults: u64,
}

impl Model for MemSource {
    ghost use Rattle.std.specs.Prelude.{◌≤◌, length, drop};
    ghost use Rattle.hh_io.specs.Memory.{Supply};

    ghost Value = { Supply };

    ghost view = { λ s. record {
      left = drop s.at s.bytes;
      failing = s.failing;
      calls = s.calls;
      faults = s.faults;
    } };

    ghost invariant = { λ s. s.at ≤ length s.bytes };
}

impl MemSource {
    /// A source that was not read yet.
    pub fn new(bytes: Text, failing: Seq<u64>) -> MemSource
        ensures { result ≡ record { left = bytes; failing = failing; calls = 0; faults = 0 } }
    {
        MemSource {
            bytes,
            at: 0,
            failing,
            calls: 0,
            faults: 0,
        }
    }
}

impl Source for MemSource {
    ghost use Rattle.std.specs.Prelude.{Some};

    ghost left = { λ s. Some s.left };

    ghost faults = { λ s. s.faults };

    ghost reads = { λ s. s.calls };

    ghost certain = { λ s. certain_calls s.failing s.calls };

    fn read(&mut self, buf: &mut [u8]) -> Result<usize, Failed>
        ensures bound { ReadsAtMost result buf.new }
        ensures bytes { ReadConsumes (Some self.old.left) (Some self.new.left) result buf.new }
        ensures cause { HasCause self.old.faults self.new.faults result }
        ensures limit { 0 < length buf.old → self.new.faults ≤ last_count }
        ensures counted { RisesByOne self.old.calls self.new.calls }
        ensures sound { UsesCertainty (certain_calls self.old.failing self.old.calls)
            (certain_calls self.new.failing self.new.calls) result }

        // A call with no buffer isn't counted.
        ensures empty { length buf.old ≡ 0 → (result ≡ Ok 0) × (self.new ≡ self.old) }

        // The listed calls fail.
        ensures fails { 0 < length buf.old → is_listed self.old.failing self.old.calls ≡ true →
            IsErr result × (self.new ≡ supply_failed self.old) }

        // Every other call fills the buffer as far as the bytes go.
        ensures gives { 0 < length buf.old → is_listed self.old.failing self.old.calls ≡ false →
            let count = given_count self.old (length buf.old) in
            (result ≡ Ok count) × (self.new ≡ supply_after self.old count)
            × (take count buf.new ≡ take count self.old.left) }
    {
        if buf.is_empty() {
            return Ok(0);
        }
        let listed = is_in(&self.failing, self.calls);
        self.calls = self.calls.saturating_add(1);
        if listed {
            self.faults = self.faults.saturating_add(1);
            return Err(Failed);
        }
        let count = copy_from(buf, self.bytes.bytes(), self.at);
        self.at += count;
        Ok(count)
    }
}

/// A sink with so much room. Its calls are counted from 0, and those whose numbers are listed
/// fail, as does a call that finds no room left.
#[derive(Drop)]
pub struct MemSink {
    bytes: Vec<u8>,
    room: usize,
    failing: Seq<u64>,
    calls: u64,
    faults: u64,
}

impl Model for MemSink {
    ghost use Rattle.std.specs.Prelude.{◌≤◌, length, vec_capacity};
    ghost use Rattle.hh_io.specs.Memory.{Store};

    ghost Value = { Store };

    ghost view = { λ k. record {
      taken = k.bytes.items;
      room = k.room;
      failing = k.failing;
      calls = k.calls;
      faults = k.faults;
    } };

    ghost invariant = { λ k. (length k.bytes.items ≤ k.room) × (k.room ≤ vec_capacity k.bytes) };
}

impl MemSink {
    /// A sink that has taken nothing yet. It takes the memory for all its room.
    pub fn new(alloc: Global, room: usize, failing: Seq<u64>) -> Result<MemSink, NoMemory>
        ensures { IfOk result (λ k. k ≡
            record { taken = []; room = room; failing = failing; calls = 0; faults = 0 }) }
    {
        Ok(MemSink {
            bytes: Vec::with_capacity(alloc, room)?,
            room,
            failing,
            calls: 0,
            faults: 0,
        })
    }

    /// What was taken.
    pub fn bytes(&self) -> &[u8]
        ensures { result.now ≡ self.now.taken }
    {
        self.bytes.as_slice()
    }
}

impl Sink for MemSink {
    ghost use Rattle.std.specs.Prelude.{Some};

    ghost taken = { λ k. Some k.taken };

    ghost faults = { λ k. k.faults };

    ghost room = { λ k. k.room };

    fn write(&mut self, bytes: &[u8]) -> Result<usize, Failed>
        ensures bytes { WriteTakes (Some self.old.taken) (Some self.new.taken) result bytes.now }
        ensures cause { HasCause self.old.faults self.new.faults result }
        ensures limit { 0 < length bytes.now → self.new.faults ≤ last_count }
        ensures told { WriteTellsOn (Some self.old.taken) (Some self.new.taken) self.old.room result }
        ensures same_room { self.new.room ≡ self.old.room }

        // A call with no bytes isn't counted.
        ensures empty { length bytes.now ≡ 0 → (result ≡ Ok 0) × (self.new ≡ self.old) }

        // The listed calls fail, and so do those that find no room.
        ensures listed { 0 < length bytes.now → is_listed self.old.failing self.old.calls ≡ true →
            IsErr result × (self.new ≡ store_failed self.old) }
        ensures full { 0 < length bytes.now → fitting_count self.old (length bytes.now) ≡ 0 →
            IsErr result × (self.new ≡ store_failed self.old) }

        // Every other call takes as many bytes as fit.
        ensures takes { is_listed self.old.failing self.old.calls ≡ false →
            let count = fitting_count self.old (length bytes.now) in 0 < count →
            (result ≡ Ok count) × (self.new ≡ store_after self.old (take count bytes.now)) }
    {
        if bytes.is_empty() {
            return Ok(0);
        }
        let fails = is_in(&self.failing, self.calls);
        self.calls = self.calls.saturating_add(1);
        let count = bytes.len().min(self.room - self.bytes.len());
        if fails || count == 0 {
            self.faults = self.faults.saturating_add(1);
            return Err(Failed);
        }
        match self.bytes.extend_from_slice(&bytes[..count]) {
            Ok(()) => Ok(count),
            Err(_) => unreachable!(),
        }
    }
}
