ghost use Rattle.std.specs.Prelude.{◌≡◌, ℕ, ◌+◌, ◌<◌, ◌^◌, IfOk, OnOk, OnErr};

use crate::Gate;
use func_analyze::Tally;
use hack_values::NoMemory;
use std::alloc::Global;

/// Does jobs. What all jobs share is borrowed and is not written.
pub trait Worker {
    /// What a job gives.
    type Answer: Send + Drop;

    /// May do this job at this place.
    ghost takes: { Self → ℕ → ℕ → Type 0 };

    /// What this job may give.
    ghost gives: { Self → ℕ → Self.Answer → Type 0 };

    /// Does the job that stands at this place of the queue, and counts it.
    fn work(
        &self,
        alloc: Global,
        place: u32,
        job: u32,
        tally: &mut Tally,
    ) -> Result<Self::Answer, NoMemory>
        requires job { takes self.now place job }
        requires room { tally.old + 1 < 2 ^ 64 }
        ensures answer { IfOk result (λ answer. gives self.now job answer) }
        ensures ok { OnOk result (tally.new ≡ tally.old + 1) }
        ensures err { OnErr result (tally.new ≡ tally.old) };
}

/// A worker behind a gate.
#[derive(Drop)]
pub(crate) struct Gated<'a, G, W> {
    pub(crate) gate: &'a G,
    pub(crate) worker: &'a W,
}

impl<'a, G: Gate, W: Worker> Worker for Gated<'a, G, W> {
    type Answer = W::Answer;

    ghost takes = { λ gated place job. W.takes gated.worker.now place job };

    ghost gives = { λ gated job answer. W.gives gated.worker.now job answer };

    fn work(
        &self,
        alloc: Global,
        place: u32,
        job: u32,
        tally: &mut Tally,
    ) -> Result<W::Answer, NoMemory> {
        self.gate.enter(place);
        self.worker.work(alloc, place, job, tally)
    }
}
