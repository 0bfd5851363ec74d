//! The checks of a position's assertions and code.

ghost use Rattle.std.specs.Prelude.{◌≡◌, ◌≤◌, length, option_map, IfOk, slice_get};
ghost use Rattle.hhbc_repo.specs.Shapes.{agree, all_cells, all_within, first_fault, iter_checks};
ghost use Rattle.hhbc_repo.specs.Shapes as shapes;
ghost use Rattle.hhbc_repo.specs.Effects.{taken, used};
ghost use Rattle.stack_verify.specs.Effects.{checks_on, only_cells};
ghost use Rattle.stack_verify.specs.Kept.{kind_of};

use crate::known::agrees;
use crate::shape::ShapeKind;
use crate::slots::slots_read;
use hack_values::NoMemory;
use hhbc_ops::Flavour;
use hhbc_repo::{Assert, Effect, IterUse, Position, effect_of, pops};
use std::alloc::Global;

/// How many slots an assertion needs.
fn assert_reach(assert: Assert) -> usize
    ensures { result ≡ shapes.assert_reach assert }
{
    match assert {
        Assert::Local(_, _) => 0,
        Assert::Stack(slot, _) => slot as usize + 1,
    }
}

/// Whether no assertion reaches below a stack of so many slots.
fn reaches(asserts: &[Assert], depth: usize) -> bool
    ensures { result ≡ shapes.reaches asserts.now depth }
{
    for assert in asserts {
        if assert_reach(*assert) > depth {
            return false;
        }
    }
    true
}

/// Whether all places are on a stack of so many slots.
fn are_within(slots: &[u8], depth: usize) -> bool
    ensures { result ≡ all_within slots.now depth }
{
    for slot in slots {
        if *slot as usize >= depth {
            return false;
        }
    }
    true
}

/// Whether the place has no slot, or a cell.
fn is_cell(stack: &[Flavour], place: usize) -> bool
    ensures { result ≡ shapes.is_cell (slice_get stack.now place) }
{
    match stack.get(place) {
        Some(Flavour::U) => false,
        _ => true,
    }
}

/// Whether all places that are on the stack are cells.
fn are_cells(slots: &[u8], stack: &[Flavour]) -> bool
    ensures { result ≡ all_cells slots.now stack.now }
{
    for slot in slots {
        if !is_cell(stack, *slot as usize) {
            return false;
        }
    }
    true
}

/// Whether all slots are cells.
fn are_only_cells(stack: &[Flavour]) -> bool
    ensures { result ≡ only_cells stack.now }
{
    for flavour in stack {
        if *flavour != Flavour::C {
            return false;
        }
    }
    true
}

/// Whether the slots that an effect takes away are of the flavours of those on the stack.
fn takes_agree(effect: Effect, stack: &[Flavour]) -> bool
    requires { effect.cells ≤ length stack.now }
    ensures { result ≡ agree (taken effect) stack.now }
{
    let cells = effect.cells as usize;
    are_only_cells(&stack[..cells]) && agrees(effect.below, &stack[cells..])
}

/// The first check of the assertions and the slots of a position that fails.
pub(crate) fn stack_fault(
    alloc: Global,
    position: &Position,
    stack: &[Flavour],
) -> Result<Option<ShapeKind>, NoMemory>
    ensures { IfOk result (λ kind. option_map kind_of kind ≡ first_fault (checks_on position.now stack.now)) }
{
    let slots = slots_read(alloc, &position.code)?;
    let depth = stack.len();
    if !reaches(position.asserts.as_slice(), depth)
        || pops(&position.code) as usize > depth
        || !are_within(slots.as_slice(), depth)
    {
        return Ok(Some(ShapeKind::Underflow));
    }
    if !takes_agree(effect_of(&position.code), stack) || !are_cells(slots.as_slice(), stack) {
        return Ok(Some(ShapeKind::Flavour));
    }
    Ok(None)
}

/// Whether there is an iterator of the number, and it is live.
fn is_live(live: &[bool], iter: u8) -> bool
    ensures { result ≡ shapes.is_live (slice_get live.now iter) }
{
    match live.get(iter as usize) {
        Some(live) => *live,
        None => false,
    }
}

/// The check of an iterator, if it fails.
pub(crate) fn iter_fault(use_of: Option<IterUse>, live: &[bool]) -> Option<ShapeKind>
    ensures { option_map kind_of result ≡ first_fault (iter_checks (option_map used use_of) live.now) }
{
    match use_of {
        Some(IterUse::Begin(iter)) if is_live(live, iter) => Some(ShapeKind::IteratorLive),
        Some(IterUse::Advance(iter) | IterUse::Free(iter)) if !is_live(live, iter) => {
            Some(ShapeKind::IteratorDead)
        }
        _ => None,
    }
}
