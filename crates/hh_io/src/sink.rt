ghost use Rattle.std.specs.Prelude.{◌≡◌, ◌≤◌, ◌<◌, ℕ, List, Option, Ok, length};
ghost use Rattle.hh_io.specs.Counts.{last_count, HasCause};
ghost use Rattle.hh_io.specs.Sinks.{WriteTakes, WriteTellsOn};

use crate::Failed;

/// Where bytes go.
pub trait Sink {
    /// The bytes taken so far, where the sink tells them.
    ghost taken: { Self → Option (List ℕ) };

    /// How often a write failed. It never falls.
    ghost faults: { Self → ℕ };

    /// How many bytes in all the sink is certain to tell, where it tells any.
    ghost room: { Self → ℕ } = { λ _. 0 };

    /// Takes a prefix of the bytes, of at least one. A call with no bytes is no write: it changes
    /// nothing. A failed write takes nothing.
    fn write(&mut self, bytes: &[u8]) -> Result<usize, Failed>
        ensures bytes { WriteTakes (taken self.old) (taken self.new) result bytes.now }
        ensures cause { HasCause (faults self.old) (faults self.new) result }
        ensures limit { 0 < length bytes.now → faults self.new ≤ last_count }
        ensures told { WriteTellsOn (taken self.old) (taken self.new) (room self.old) result }
        ensures same_room { room self.new ≡ room self.old }
        ensures empty { length bytes.now ≡ 0 → (result ≡ Ok 0) × (self.new ≡ self.old) };
}
