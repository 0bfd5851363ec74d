ghost use Rattle.std.specs.Prelude.{◌≡◌, ◌*◌, ℕ, Bool, false, List, []};
ghost use Rattle.hhbc_repo.specs.Linked.{Linked};
ghost use Rattle.round_pool.specs.ResultRounds.{by_results};

use func_analyze::{Tally, counted};
use hack_values::NoMemory;
use round_pool::{
    Dependents, Gate, OpenGate, Worker, empty_queue_stays, pieces, queue_gives_round,
    result_rounds_are_facts, rounds_give_one,
};
use std::alloc::Global;
use std::sync::atomic::{AtomicBool, AtomicU64, Ordering};
use std::test::Fail;
use std::thread;

/// Gives three times each job.
struct Tripling;

impl Worker for Tripling {
    type Answer = u64;

    ghost takes = { λ worker place job. Unit {0} };

    ghost gives = { λ worker job answer. answer ≡ job * 3 };

    fn work(
        &self,
        _alloc: Global,
        _place: u32,
        job: u32,
        tally: &mut Tally,
    ) -> Result<u64, NoMemory> {
        counted(tally, || Ok(u64::from(job) * 3))
    }
}

/// Remembers how often each place was entered.
#[derive(Drop)]
struct Remembering {
    entered: [AtomicU64; 5],
}

impl Remembering {
    fn new() -> Remembering {
        Remembering {
            entered: [
                AtomicU64::new(0),
                AtomicU64::new(0),
                AtomicU64::new(0),
                AtomicU64::new(0),
                AtomicU64::new(0),
            ],
        }
    }
}

impl Gate for Remembering {
    fn enter(&self, job: u32) {
        if let Some(entered) = self.entered.get(job as usize) {
            entered.fetch_add(1, Ordering::SeqCst);
        }
    }
}

#[test]
fn every_number_of_workers_gives_the_same(rt: HostRuntime) -> Result<(), Fail> {
    let jobs = [7, 0, 65_534, 3, 12];
    for workers in [1, 2, 3, 16] {
        let gate = Remembering::new();
        let mut tally = Tally::new();
        let answers = pieces(
            &rt,
            rt.alloc(),
            &gate,
            &Tripling,
            &jobs,
            workers,
            &mut tally,
        )?;
        assert_eq!(rt;
            answers.as_slice(),
            [21, 0, 196_602, 9, 36].as_slice(),
            "with {workers} workers"
        );
        assert_eq!(rt; tally.count(), 5, "with {workers} workers");
        for (place, entered) in gate.entered.iter().enumerate() {
            assert_eq!(rt;
                entered.load(Ordering::SeqCst),
                1,
                "at {place} with {workers} workers"
            );
        }
        let none = pieces(
            &rt,
            rt.alloc(),
            &OpenGate,
            &Tripling,
            &[],
            workers,
            &mut tally,
        )?;
        assert!(rt; none.is_empty());
        assert_eq!(rt; tally.count(), 5);
    }
    Ok(())
}

/// How often the gate looks for the second job before it gives up.
const TURNS: u32 = 50_000_000;

/// Holds the job at place 0 until the one at place 1 has entered.
#[derive(Drop)]
struct Holding {
    second_entered: AtomicBool,
    met: AtomicBool,
}

impl Gate for Holding {
    fn enter(&self, job: u32) {
        if job == 1 {
            self.second_entered.store(true, Ordering::SeqCst);
            return;
        }
        for turn in 0..TURNS {
            if self.second_entered.load(Ordering::SeqCst) {
                self.met.store(true, Ordering::SeqCst);
                return;
            }
            if turn % 1_000 == 999 {
                thread::yield_now();
            }
        }
    }
}

#[test]
fn two_workers_do_two_jobs_side_by_side(rt: HostRuntime) -> Result<(), Fail> {
    let gate = Holding {
        second_entered: AtomicBool::new(false),
        met: AtomicBool::new(false),
    };
    let mut tally = Tally::new();
    let answers = pieces(&rt, rt.alloc(), &gate, &Tripling, &[4, 5], 2, &mut tally)?;
    assert!(rt;
        gate.met.load(Ordering::SeqCst),
        "the second job entered in time"
    );
    assert_eq!(rt; answers.as_slice(), [12, 15].as_slice());
    assert_eq!(rt; tally.count(), 2);
    Ok(())
}

/// The bodies of a repository without any, whose results depend on no fact.
struct NoBodies;

impl Dependents for NoBodies {
    ghost bodies = { by_results ℕ (λ b. []) (λ F G name. false) (record { functions = []; classes = [] }) };
}

#[test]
fn bodies_by_results_go_in_rounds(_rt: HostRuntime) -> Result<(), Fail> {
    queue_gives_round::<NoBodies>();
    empty_queue_stays::<NoBodies>();
    rounds_give_one::<NoBodies>();
    result_rounds_are_facts::<u32>();
    Ok(())
}
