ghost use Rattle.std.specs.Prelude.{◌≡◌, ℕ, ◌+◌, ◌<◌, ◌≤◌, ◌^◌, length, IfOk, OnOk, OnErr};
ghost use Rattle.round_pool.specs.Pieces.{AllTaken, AllGiven, AreJoined, IsPieceOf};
ghost use Rattle.std.specs.Thread.{IsSync};

use crate::worker::Gated;
use crate::{Gate, Worker};
use func_analyze::Tally;
use hack_values::NoMemory;
use std::alloc::Global;
use std::thread::{Threads, join};

/// Does the jobs in order. The first stands at the place `first` of the queue.
fn in_order<W: Worker>(
    alloc: Global,
    worker: &W,
    jobs: &[u32],
    first: u32,
    tally: &mut Tally,
) -> Result<Vec<W::Answer>, NoMemory>
    requires jobs { AllTaken (W.takes worker.now) first jobs.now }
    requires places { first + length jobs.now < 2 ^ 32 }
    requires room { tally.old + length jobs.now < 2 ^ 64 }
    ensures answers { IfOk result (λ done. AllGiven (W.gives worker.now) jobs.now done.items) }
    ensures ok { OnOk result (tally.new ≡ tally.old + length jobs.now) }
    ensures err { OnErr result ((tally.old ≤ tally.new) × (tally.new ≤ tally.old + length jobs.now)) }
{
    let mut answers = Vec::new(alloc);
    let mut place = first;
    for job in jobs {
        let answer = worker.work(alloc, place, *job, tally)?;
        answers.push(answer)?;
        place += 1;
    }
    Ok(answers)
}

/// What a piece gave, and what it counted.
#[derive(Drop)]
struct Piece<A> {
    answers: Result<Vec<A>, NoMemory>,
    tally: Tally,
}

/// The answers of two pieces, one behind the other.
fn joined<A: Drop>(
    left: Result<Vec<A>, NoMemory>,
    right: Result<Vec<A>, NoMemory>,
) -> Result<Vec<A>, NoMemory>
    ensures { AreJoined left right result }
{
    let mut all = left?;
    let mut more = right?;
    all.append(&mut more)?;
    Ok(all)
}

/// Does the jobs in at most as many pieces as workers, side by side, each with a tally of its own.
fn halved<R: Threads + Sync, W: Worker + Sync>(
    rt: &R,
    alloc: Global,
    worker: &W,
    jobs: &[u32],
    first: u32,
    workers: u32,
) -> Piece<W::Answer>
    requires jobs { AllTaken (W.takes worker.now) first jobs.now }
    requires places { first + length jobs.now < 2 ^ 32 }
    ensures { IsPieceOf (W.gives worker.now) jobs.now result.answers result.tally }
{
    if workers < 2 || jobs.len() < 2 {
        let mut tally = Tally::new();
        let answers = in_order(alloc, worker, jobs, first, &mut tally);
        return Piece { answers, tally };
    }
    let half = workers / 2;
    let others = workers - half;
    let (front, back) = jobs.split_at(jobs.len() / 2);
    let middle = first + front.len() as u32;
    let (left, right) = join(
        rt,
        || -> Piece<W::Answer>
            requires { IsSync R.row × IsSync W.row × AllTaken (W.takes worker.now) first front.now × (first + length front.now < 2 ^ 32) }
            ensures { IsPieceOf (W.gives worker.entry.now) front.entry.now result.answers result.tally }
        { halved(rt, alloc, worker, front, first, half) },
        || -> Piece<W::Answer>
            requires { IsSync R.row × IsSync W.row × AllTaken (W.takes worker.now) middle back.now × (middle + length back.now < 2 ^ 32) }
            ensures { IsPieceOf (W.gives worker.entry.now) back.entry.now result.answers result.tally }
        { halved(rt, alloc, worker, back, middle, others) },
    );
    let mut tally = left.tally;
    tally.merge(right.tally);
    Piece {
        answers: joined(left.answers, right.answers),
        tally,
    }
}

/// Does all jobs of a queue, in at most as many pieces as workers, and tells the gate of each before it is done.
pub fn pieces<R: Threads + Sync, G: Gate + Sync, W: Worker + Sync>(
    rt: &R,
    alloc: Global,
    gate: &G,
    worker: &W,
    jobs: &[u32],
    workers: u32,
    tally: &mut Tally,
) -> Result<Vec<W::Answer>, NoMemory>
    requires jobs { AllTaken (W.takes worker.now) 0 jobs.now }
    requires workers { (1 ≤ workers) × (workers ≤ 16) }
    requires places { length jobs.now < 2 ^ 32 }
    requires room { tally.old + length jobs.now < 2 ^ 64 }
    ensures answers { IfOk result (λ done. AllGiven (W.gives worker.now) jobs.now done.items) }
    ensures ok { OnOk result (tally.new ≡ tally.old + length jobs.now) }
    ensures err { OnErr result ((tally.old ≤ tally.new) × (tally.new ≤ tally.old + length jobs.now)) }
{
    let gated = Gated { gate, worker };
    let done = halved(rt, alloc, &gated, jobs, 0, workers);
    tally.merge(done.tally);
    done.answers
}
