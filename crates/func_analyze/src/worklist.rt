//! The least solution of flows, by a list of the positions whose state has risen.

ghost use Rattle.std.specs.Prelude.{◌≡◌, ◌⊎◌, ℕ, List, [], ◌∷◌, length, replicate, Option, Some, None, IfOk, OnOk, IfSome, IfNone, slice_get};
ghost use Rattle.std.specs.Option.{option_copied};
ghost use Rattle.func_analyze.specs.Problem.{IsLeastOf};
ghost use Rattle.func_analyze.specs.Worklist.{AllFit, FlowsFit, Stays, Lifts, Puts};

use crate::problem::Problem;
use hack_values::NoMemory;
use std::alloc::Global;

/// The place of a table, if there is one.
fn place<T>(table: &[T], position: usize) -> Option<&T>
    ensures { option_copied result ≡ slice_get table.now position }
{
    table.get(position)
}

/// The state that is to stand at the position, or None where the new one is below what stands there.
fn lifted<P: Problem>(
    problem: &P,
    alloc: Global,
    position: usize,
    here: Option<&Option<P::State>>,
    state: P::State,
) -> Result<Option<P::State>, NoMemory>
    requires fits { P.fits problem.now position state }
    requires here_fits { (t : P.State) → option_copied here ≡ Some (Some t) → P.fits problem.now position t }
    ensures stays { IfOk result (λ o. IfNone o (Stays (P.below problem.now) (option_copied here.entry) state)) }
    ensures lifts { IfOk result (λ o. IfSome o (λ n. Lifts (P.below problem.now) (option_copied here.entry) state n)) }
    ensures fits { IfOk result (λ o. IfSome o (λ n. P.fits problem.now position n)) }
{
    match here {
        Some(Some(old)) => {
            if problem.is_below(position, &state, old) {
                return Ok(None);
            }
            Ok(Some(problem.join(alloc, position, &state, old)?))
        }
        _ => Ok(Some(state)),
    }
}

/// Puts a flow into the table, and its position onto the list if the state there rises.
fn put<P: Problem>(
    problem: &P,
    alloc: Global,
    table: &mut Vec<Option<P::State>>,
    work: &mut Vec<usize>,
    position: usize,
    state: P::State,
) -> Result<(), NoMemory>
    requires count { length table.old.items ≡ P.positions problem.now }
    requires fit { AllFit (P.fits problem.now) table.old.items }
    requires fits { P.fits problem.now position state }
    ensures { OnOk result (Puts (P.below problem.now) (P.fits problem.now) (P.rank problem.now) (P.top problem.now) table.old.items work.old.items ((position, state) ∷ []) table.new.items work.new.items) }
{
    match lifted(
        problem,
        alloc,
        position,
        place(table.as_slice(), position),
        state,
    )? {
        None => Ok(()),
        Some(next) => {
            work.push(position)?;
            table[position] = Some(next);
            Ok(())
        }
    }
}

/// Puts flows into the table, in any order.
fn put_all<P: Problem>(
    problem: &P,
    alloc: Global,
    table: &mut Vec<Option<P::State>>,
    work: &mut Vec<usize>,
    mut flows: Vec<(usize, P::State)>,
) -> Result<(), NoMemory>
    requires count { length table.old.items ≡ P.positions problem.now }
    requires fit { AllFit (P.fits problem.now) table.old.items }
    requires flows_fit { FlowsFit (P.fits problem.now) flows.items }
    ensures { OnOk result (Puts (P.below problem.now) (P.fits problem.now) (P.rank problem.now) (P.top problem.now) table.old.items work.old.items flows.items table.new.items work.new.items) }
{
    while let Some((position, state)) = flows.pop() {
        put(problem, alloc, table, work, position, state)?;
    }
    Ok(())
}

/// The flows of what stands at the position.
fn flows_of<P: Problem>(
    problem: &P,
    alloc: Global,
    position: usize,
    here: Option<&Option<P::State>>,
) -> Result<Vec<(usize, P::State)>, NoMemory>
    requires { (t : P.State) → option_copied here ≡ Some (Some t) → P.fits problem.now position t }
    ensures flows { IfOk result (λ to. (t : P.State) → option_copied here.entry ≡ Some (Some t) → to.items ≡ P.flows problem.now position t) }
    ensures fit { IfOk result (λ to. FlowsFit (P.fits problem.now) to.items) }
    ensures known { IfOk result (λ to. (to.items ≡ []) ⊎ ((t : P.State) × (option_copied here.entry ≡ Some (Some t)))) }
{
    match here {
        Some(Some(state)) => problem.flow(alloc, position, state),
        _ => Ok(Vec::new(alloc)),
    }
}

/// A table without a state.
fn unreached<T: Drop>(alloc: Global, count: usize) -> Result<Vec<Option<T>>, NoMemory>
    ensures { IfOk result (λ table. table.items ≡ replicate count None) }
{
    let mut table = Vec::new(alloc);
    for _ in 0..count {
        table.push(None)?;
    }
    Ok(table)
}

/// The least solution: a state or none for each position. A position may stand on the list more than once.
pub fn least<P: Problem>(alloc: Global, problem: &P) -> Result<Vec<Option<P::State>>, NoMemory>
    ensures { IfOk result (λ table. IsLeastOf (P.below problem.now) (P.positions problem.now) (P.start problem.now) (P.flows problem.now) table.items) }
{
    let mut table = unreached(alloc, problem.positions())?;
    let mut work: Vec<usize> = Vec::new(alloc);
    let entry = problem.entry(alloc)?;
    put(problem, alloc, &mut table, &mut work, 0, entry)?;
    while let Some(position) = work.pop() {
        let flows = flows_of(problem, alloc, position, place(table.as_slice(), position))?;
        put_all(problem, alloc, &mut table, &mut work, flows)?;
    }
    Ok(table)
}
