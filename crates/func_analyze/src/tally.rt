ghost use Rattle.std.specs.Prelude.{◌≡◌, ◌+◌, ◌<◌, ◌^◌, OnOk, OnErr};

use hack_values::NoMemory;
use std::marker::Model;

/// Counts analyses. Outside this crate a count is raised by a counted piece of work and by merging alone.
#[derive(Debug, Drop)]
pub struct Tally {
    done: u64,
}

impl Model for Tally {
    ghost use Rattle.std.specs.Prelude.{ℕ};

    ghost Value = { ℕ };

    ghost view = { λ tally. tally.done };
}

impl Tally {
    /// Nothing has been counted yet.
    pub fn new() -> Tally
        ensures { result ≡ 0 }
    {
        Tally { done: 0 }
    }

    /// How much has been counted.
    pub fn count(&self) -> u64
        ensures { result ≡ self.now }
    {
        self.done
    }

    /// Adds what another tally has counted.
    pub fn merge(&mut self, other: Tally)
        requires { self.old + other < 2 ^ 64 }
        ensures { self.new ≡ self.old + other }
    {
        self.done += other.done;
    }

    fn raise(&mut self)
        requires { self.old + 1 < 2 ^ 64 }
        ensures { self.new ≡ self.old + 1 }
    {
        self.done += 1;
    }
}

/// Does a piece of work, and counts it where there was memory for it.
pub fn counted<T, F: FnOnce() -> Result<T, NoMemory>>(
    tally: &mut Tally,
    work: F,
) -> Result<T, NoMemory>
    requires work { F.pre work }
    requires room { tally.old + 1 < 2 ^ 64 }
    ensures result { F.post work result }
    ensures ok { OnOk result (tally.new ≡ tally.old + 1) }
    ensures err { OnErr result (tally.new ≡ tally.old) }
{
    let answer = work();
    if answer.is_ok() {
        tally.raise();
    }
    answer
}
