//! A walk follows the edges of a position: each brings a shape to its target.

ghost use Rattle.std.specs.Prelude.{◌≡◌, ◌≤◌, ◌<◌, ◌^◌, suc, length, option_map, slice_set, IfOk, MatchResult, Ok, Some};
ghost use Rattle.flow_regions.specs.EdgeLists.{edge_of, edges_from, told};
ghost use Rattle.hhbc_repo.specs.Codes as codes;
ghost use Rattle.hhbc_repo.specs.Edges.{target as target_of};
ghost use Rattle.hhbc_repo.specs.Effects.{used};
ghost use Rattle.hhbc_repo.specs.Shapes as shapes;
ghost use Rattle.hhbc_repo.specs.Shapes.{first_fault, hands_on};
ghost use Rattle.stack_verify.specs.Kept.{StopsBy, kind_of};
ghost use Rattle.stack_verify.specs.Left.{IsLeft, left_along};
ghost use Rattle.stack_verify.specs.Walk.{led, led_all, mismatches};

use crate::known::{Known, agrees, copied, is_same_live};
use crate::shape::{ShapeKind, Stop};
use flow_regions::{Edge, edges_with};
use hack_values::NoMemory;
use hhbc_ops::Flavour;
use hhbc_repo::{Code, IterUse, effect_of, iter_use, pops};
use std::alloc::Global;

/// What a position leaves behind its code: the stack, and the iterators that are live at the next position and at labels.
#[derive(Drop)]
struct Left {
    stack: Vec<Flavour>,
    next: Vec<bool>,
    label: Vec<bool>,
}

/// Where a shape that comes to a position differs from the one that it has.
fn mismatch(stack: &[Flavour], live: &[bool], known: &Known) -> Option<ShapeKind>
    ensures { option_map kind_of result ≡ first_fault (mismatches (record { stack = stack.now; live = live.now }) known.now) }
{
    if stack.len() != known.stack().len() {
        return Some(ShapeKind::DepthMismatch);
    }
    if !agrees(stack, known.stack()) {
        return Some(ShapeKind::Flavour);
    }
    if !is_same_live(live, known.live()) {
        return Some(ShapeKind::IteratorMismatch);
    }
    None
}

/// Brings a shape to a position. Only where the position had none is the shape copied.
fn lead(
    alloc: Global,
    table: &mut Vec<Option<Known>>,
    stack: &[Flavour],
    live: &[bool],
    target: u32,
) -> Result<(), Stop>
    ensures { MatchResult result
        (λ _. led table.old.items (record { stack = stack.now; live = live.now }) target ≡ Ok table.new.items)
        (λ stop. StopsBy (led table.old.items (record { stack = stack.now; live = live.now }) target) stop) }
{
    let target = target as usize;
    if target >= table.len() {
        return Err(Stop::Fails(ShapeKind::FallsOff));
    }
    if stack.len() > 255 {
        return Err(Stop::Fails(ShapeKind::StackTooDeep));
    }
    match &table[target] {
        Some(known) => match mismatch(stack, live, known) {
            Some(kind) => Err(Stop::Fails(kind)),
            None => Ok(()),
        },
        None => {
            table[target] = Some(Known::new(alloc, stack, live)?);
            Ok(())
        }
    }
}

/// Brings along an edge what a position with this shape leaves behind its code, or the exception that it raises.
fn lead_along(
    alloc: Global,
    table: &mut Vec<Option<Known>>,
    left: &Left,
    known: &Known,
    edge: Edge,
) -> Result<(), Stop>
    ensures { MatchResult result
        (λ _. led table.old.items (left_along left.now known.now (edge_of edge)) (target_of (edge_of edge)) ≡ Ok table.new.items)
        (λ stop. StopsBy (led table.old.items (left_along left.now known.now (edge_of edge)) (target_of (edge_of edge))) stop) }
{
    match edge {
        Edge::Next(target) => lead(alloc, table, &left.stack, &left.next, target),
        Edge::To(target) => lead(alloc, table, &left.stack, &left.label, target),
        Edge::Handler(target) => lead(alloc, table, &[Flavour::C], known.live(), target),
    }
}

/// The same along each of these edges, in order.
fn lead_all(
    alloc: Global,
    table: &mut Vec<Option<Known>>,
    left: &Left,
    known: &Known,
    edges: &[Edge],
) -> Result<(), Stop>
    ensures { MatchResult result
        (λ _. led_all (left_along left.now known.now) (told edges.now) table.old.items ≡ Ok table.new.items)
        (λ stop. StopsBy (led_all (left_along left.now known.now) (told edges.now) table.old.items) stop) }
{
    for edge in edges {
        match lead_along(alloc, table, left, known, *edge) {
            Ok(()) => {}
            Err(stop) => return Err(stop),
        }
    }
    Ok(())
}

/// The stack behind a code.
fn stack_behind(alloc: Global, code: &Code, stack: &[Flavour]) -> Result<Vec<Flavour>, NoMemory>
    requires { length (codes.pops code.now) ≤ length stack.now }
    ensures { IfOk result (λ all. all.items ≡ shapes.stack_left code.now stack.now) }
{
    let mut all = Vec::new(alloc);
    all.extend_from_slice(effect_of(code).pushes)?;
    all.extend_from_slice(&stack[pops(code) as usize..])?;
    Ok(all)
}

/// Makes an iterator live or not, where there is one of the number.
fn set_live(flags: &mut Vec<bool>, iter: u8, live: bool)
    ensures { flags.new.items ≡ slice_set flags.old.items iter live }
{
    let iter = iter as usize;
    if iter < flags.len() {
        flags[iter] = live;
    }
}

/// The iterators that are live at the next position.
fn live_next(alloc: Global, use_of: Option<IterUse>, live: &[bool]) -> Result<Vec<bool>, NoMemory>
    ensures { IfOk result (λ all. all.items ≡ shapes.live_next (option_map used use_of) live.now) }
{
    let mut all = copied(alloc, live)?;
    match use_of {
        Some(IterUse::Begin(iter)) => set_live(&mut all, iter, true),
        Some(IterUse::Advance(iter) | IterUse::Free(iter)) => set_live(&mut all, iter, false),
        None => {}
    }
    Ok(all)
}

/// The iterators that are live at the labels.
fn live_label(alloc: Global, use_of: Option<IterUse>, live: &[bool]) -> Result<Vec<bool>, NoMemory>
    ensures { IfOk result (λ all. all.items ≡ shapes.live_to (option_map used use_of) live.now) }
{
    let mut all = copied(alloc, live)?;
    match use_of {
        Some(IterUse::Advance(iter)) => set_live(&mut all, iter, true),
        Some(IterUse::Begin(iter) | IterUse::Free(iter)) => set_live(&mut all, iter, false),
        None => {}
    }
    Ok(all)
}

/// What a position with this code and shape leaves.
fn left_by(alloc: Global, code: &Code, known: &Known) -> Result<Left, NoMemory>
    requires { length (codes.pops code.now) ≤ length known.now.stack }
    ensures { IfOk result (λ left. IsLeft code.now known.now left) }
{
    let use_of = iter_use(code);
    Ok(Left {
        stack: stack_behind(alloc, code, known.stack())?,
        next: live_next(alloc, use_of, known.live())?,
        label: live_label(alloc, use_of, known.live())?,
    })
}

/// Follows the edges of a position, in order.
pub(crate) fn follow(
    alloc: Global,
    table: &mut Vec<Option<Known>>,
    code: &Code,
    known: &Known,
    position: u32,
    handler: Option<u32>,
) -> Result<(), Stop>
    requires slots { length (codes.pops code.now) ≤ length known.now.stack }
    requires place { suc position < 2 ^ 32 }
    ensures { MatchResult result
        (λ _. led_all (hands_on (Some code.now) known.now) (edges_from code.now position handler) table.old.items ≡ Ok table.new.items)
        (λ stop. StopsBy (led_all (hands_on (Some code.now) known.now) (edges_from code.now position handler) table.old.items) stop) }
{
    let left = left_by(alloc, code, known)?;
    let edges = edges_with(alloc, code, position, handler)?;
    lead_all(alloc, table, &left, known, edges.as_slice())
}
