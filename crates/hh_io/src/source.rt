ghost use Rattle.std.specs.Prelude.{◌≡◌, ◌≤◌, ◌<◌, ℕ, List, Option, Ok, length};
ghost use Rattle.std.specs.Io.{ReadsAtMost};
ghost use Rattle.std.specs.Io.KnownBytes.{ReadConsumes};
ghost use Rattle.hh_io.specs.Counts.{last_count, HasCause, RisesByOne, UsesCertainty};

/// A read or a write failed.
#[derive(Clone, Copy, Debug, PartialEq, Eq)]
pub struct Failed;

/// Where bytes come from.
pub trait Source {
    /// The bytes that are still to come, where the source tells them.
    ghost left: { Self → Option (List ℕ) };

    /// How often a read failed. It never falls.
    ghost faults: { Self → ℕ };

    /// How often the source was read, where it counts that. It never falls.
    ghost reads: { Self → ℕ };

    /// How many reads from now on don't fail, as far as that is certain.
    ghost certain: { Self → ℕ } = { λ _. 0 };

    /// Reads at least one byte into the front of the buffer, or none at the end. A call with an
    /// empty buffer is no read: it changes nothing. After a failed read what is left is unchanged.
    fn read(&mut self, buf: &mut [u8]) -> Result<usize, Failed>
        ensures bound { ReadsAtMost result buf.new }
        ensures bytes { ReadConsumes (left self.old) (left self.new) result buf.new }
        ensures cause { HasCause (faults self.old) (faults self.new) result }
        ensures limit { 0 < length buf.old → faults self.new ≤ last_count }
        ensures counted { RisesByOne (reads self.old) (reads self.new) }
        ensures sound { UsesCertainty (certain self.old) (certain self.new) result }
        ensures empty { length buf.old ≡ 0 → (result ≡ Ok 0) × (self.new ≡ self.old) };
}
