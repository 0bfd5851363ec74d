//! A walk over the positions of a body, which works out the shape of each.

ghost use Rattle.std.specs.Prelude.{◌≡◌, ◌<◌, ◌≤◌, ◌+◌, ◌*◌, ◌^◌, ◌++◌, [], suc, length, map, nat_le, not, replicate, slice_get, IfOk, MatchResult, Some, None as NoneYet};
ghost use Rattle.flow_regions.specs.EdgeLists.{all_handlers};
ghost use Rattle.flow_regions.specs.Marks.{marked_by};
ghost use Rattle.hhbc_repo.specs.Codes as codes;
ghost use Rattle.hhbc_repo.specs.Edges.{handler_of};
ghost use Rattle.hhbc_repo.specs.Shapes as shapes;
ghost use Rattle.hhbc_repo.specs.Shapes.{cells, first_fault, given, iter_checks};
ghost use Rattle.stack_verify.specs.Effects.{checks_on};
ghost use Rattle.stack_verify.specs.Walk.{BodyTypes, Ready, StopsAs, StopsBody, Walks, kept_of, known, own_fault, settled, settles, stopped};

use crate::checks::{iter_fault, stack_fault};
use crate::edges::follow;
use crate::known::{Known, all_false};
use crate::shape::{Shape, ShapeKind, Stop};
use flow_regions::handlers;
use hack_values::{NoMemory, Seq};
use hhbc_repo::{Body, Position, iter_use};
use std::alloc::Global;

/// What a walk over a body knows.
#[derive(Drop)]
pub(crate) struct Walk {
    /// Of each position its shape, once it was visited or an edge has led to it.
    table: Vec<Option<Known>>,
    /// The shapes of the positions that were visited.
    shapes: Seq<Shape>,
    /// The slots of the deepest of these.
    deepest: usize,
}

/// Why a walk over a body stops, and at which position.
#[derive(Clone, Copy)]
pub(crate) enum BodyStop {
    Fails(u32, ShapeKind),
    NoMemory,
}

impl From<NoMemory> for BodyStop {
    ghost use Rattle.std.specs.Prelude.{◌≡◌};
    ghost use Rattle.stack_verify.specs.declared.walk.BodyStop.TheVariants.{NoMemory as WantOfMemory};

    ghost from_gives = { λ _ e. e ≡ WantOfMemory };

    fn from(_want: NoMemory) -> BodyStop {
        BodyStop::NoMemory
    }
}

/// The same stop, with the position where it comes.
fn stop_at(position: u32, stop: Stop) -> BodyStop
    ensures { result ≡ stopped position stop }
{
    match stop {
        Stop::Fails(kind) => BodyStop::Fails(position, kind),
        Stop::NoMemory => BodyStop::NoMemory,
    }
}

/// The code of a position, and its assertions.
fn position_at(body: &Body, position: usize) -> &Position
    requires { position < length body.now.positions }
    ensures { slice_get body.now.positions position ≡ Some result.now }
{
    &body.positions.as_slice()[position]
}

/// What a list has at a place.
fn handler_in(handlers: &Seq<Option<u32>>, position: usize) -> Option<u32>
    requires { position < length handlers.now }
    ensures { slice_get handlers.now position ≡ Some result }
{
    handlers.as_slice()[position]
}

/// The handler of a position of the body.
fn handler_at(handlers: &Seq<Option<u32>>, body: &Body, position: usize) -> Option<u32>
    requires handlers { handlers.now ≡ all_handlers body.now }
    requires place { position < length body.now.positions }
    ensures { result ≡ handler_of body.now position }
{
    handler_in(handlers, position)
}

/// Of each position whether a catch body begins there.
fn catches(alloc: Global, body: &Body, count: u32) -> Result<Vec<bool>, NoMemory>
    ensures { IfOk result (λ catches. catches.items ≡ marked_by (shapes.is_catch body.now.regions) count) }
{
    let mut catches = all_false(alloc, count as usize)?;
    for region in body.regions.as_slice() {
        let at = region.mid as usize;
        if at < catches.len() {
            catches[at] = true;
        }
    }
    Ok(catches)
}

/// What a list has at a place.
fn flag_in(flags: &[bool], position: usize) -> bool
    requires { position < length flags.now }
    ensures { slice_get flags.now position ≡ Some result }
{
    flags[position]
}

/// Whether a catch body begins at the position.
fn is_catch(catches: &[bool], body: &Body, position: usize) -> bool
    requires catches { catches.now ≡ marked_by (shapes.is_catch body.now.regions) (length body.now.positions) }
    requires place { position < length body.now.positions }
    ensures { result ≡ shapes.is_catch body.now.regions position }
{
    flag_in(catches, position)
}

/// The shape of a position that no earlier one leads to.
fn unled(alloc: Global, body: &Body, position: usize, is_catch: bool) -> Result<Known, NoMemory>
    requires { is_catch ≡ shapes.is_catch body.now.regions position }
    ensures { IfOk result (λ shape. shape ≡ shapes.unled body.now position) }
{
    let empty = Known::empty(alloc, body.iters)?;
    if is_catch {
        empty.caught(alloc)
    } else {
        Ok(empty)
    }
}

/// The shape of a position that is visited now, which the table knows from then on.
fn settle(
    alloc: Global,
    body: &Body,
    table: &mut Vec<Option<Known>>,
    position: usize,
    is_catch: bool,
) -> Result<Known, NoMemory>
    requires place { position < length table.old.items }
    requires catch { is_catch ≡ shapes.is_catch body.now.regions position }
    ensures shape { IfOk result (λ shape. shape ≡ settled body.now position (known (slice_get table.old.items position))) }
    ensures table { IfOk result (λ shape. table.new.items ≡ settles body.now position (known (slice_get table.old.items position)) table.old.items) }
{
    match &table[position] {
        Some(shape) => shape.copy(alloc),
        None => {
            let shape = unled(alloc, body, position, is_catch)?;
            table[position] = Some(shape.copy(alloc)?);
            Ok(shape)
        }
    }
}

/// The checks of a position before those of its edges.
fn check(alloc: Global, position: &Position, shape: &Known) -> Result<(), Stop>
    ensures { MatchResult result
        (λ _. first_fault (checks_on position.now shape.now.stack ++ iter_checks (codes.iter_use position.now.code) shape.now.live) ≡ NoneYet)
        (λ stop. StopsAs (first_fault (checks_on position.now shape.now.stack ++ iter_checks (codes.iter_use position.now.code) shape.now.live)) stop) }
{
    if let Some(kind) = stack_fault(alloc, position, shape.stack())? {
        return Err(Stop::Fails(kind));
    }
    match iter_fault(iter_use(&position.code), shape.live()) {
        Some(kind) => Err(Stop::Fails(kind)),
        None => Ok(()),
    }
}

/// Visits a position: makes its checks, and follows its edges.
fn visit(
    alloc: Global,
    body: &Body,
    table: &mut Vec<Option<Known>>,
    position: u32,
    handler: Option<u32>,
    is_catch: bool,
) -> Result<Known, Stop>
    requires ready { Ready body.now position table.old.items }
    requires place { position < length body.now.positions }
    requires fits { suc position < 2 ^ 32 }
    requires handler { handler ≡ handler_of body.now position }
    requires catch { is_catch ≡ shapes.is_catch body.now.regions position }
    ensures shape { MatchResult result (λ shape. shape ≡ given body.now position) (λ stop. StopsAs (own_fault body.now position) stop) }
    ensures passes { IfOk result (λ shape. own_fault body.now position ≡ NoneYet) }
    ensures ready { IfOk result (λ shape. Ready body.now (suc position) table.new.items) }
{
    let here = position_at(body, position as usize);
    let shape = settle(alloc, body, table, position as usize, is_catch)?;
    match check(alloc, here, &shape) {
        Ok(()) => {}
        Err(stop) => return Err(stop),
    }
    match follow(alloc, table, &here.code, &shape, position, handler) {
        Ok(()) => Ok(shape),
        Err(stop) => Err(stop),
    }
}

/// How many positions the body has. There are fewer than 2^32 in each body that linking makes.
fn count_positions(body: &Body) -> Result<u32, NoMemory>
    ensures { IfOk result (λ count. count ≡ length body.now.positions) }
{
    let count = body.positions.as_slice().len();
    if count > u32::MAX as usize {
        return Err(NoMemory);
    }
    Ok(count as u32)
}

/// A table that knows no shape.
fn unknown<T: Drop>(alloc: Global, count: u32) -> Result<Vec<Option<T>>, NoMemory>
    ensures { IfOk result (λ table. table.items ≡ replicate count NoneYet) }
{
    let mut table = Vec::new(alloc);
    for _ in 0..count {
        table.push(None)?;
    }
    Ok(table)
}

/// A table that knows the shape of the first position alone.
fn first_table(alloc: Global, body: &Body, count: u32) -> Result<Vec<Option<Known>>, NoMemory>
    requires any { 0 < count }
    requires all { count ≡ length body.now.positions }
    ensures { IfOk result (λ table. Ready body.now 0 table.items) }
{
    let mut table = unknown(alloc, count)?;
    table[0] = Some(Known::empty(alloc, body.iters)?);
    Ok(table)
}

/// Whether the positions times the locals, the deepest stack and the iterators are more than may be.
fn has_too_many_cells(body: &Body, count: u32, deepest: usize) -> bool
    requires any { 0 < count }
    ensures { result ≡ not (nat_le (count * (length body.now.locals + deepest + body.now.iters)) 1000000) }
{
    let locals = body.locals.as_slice().len();
    if locals > 1_000_000 || deepest > 1_000_000 {
        return true;
    }
    let width = locals + deepest + body.iters as usize;
    count as usize * width > 1_000_000
}

impl Walk {
    fn new(alloc: Global, body: &Body, count: u32) -> Result<Walk, NoMemory>
        requires any { 0 < count }
        requires all { count ≡ length body.now.positions }
        ensures { IfOk result (λ walk. Walks body.now 0 walk) }
    {
        Ok(Walk {
            table: first_table(alloc, body, count)?,
            shapes: Seq::new(alloc),
            deepest: 0,
        })
    }

    /// Visits the next position.
    fn step(
        &mut self,
        alloc: Global,
        body: &Body,
        position: u32,
        handler: Option<u32>,
        is_catch: bool,
    ) -> Result<(), Stop>
        requires walks { Walks body.now position self.old }
        requires place { position < length body.now.positions }
        requires fits { suc position < 2 ^ 32 }
        requires handler { handler ≡ handler_of body.now position }
        requires catch { is_catch ≡ shapes.is_catch body.now.regions position }
        requires iters { body.now.iters ≤ 32 }
        ensures { MatchResult result (λ _. Walks body.now (suc position) self.new) (λ stop. StopsAs (own_fault body.now position) stop) }
    {
        let shape = match visit(alloc, body, &mut self.table, position, handler, is_catch) {
            Ok(shape) => shape,
            Err(stop) => return Err(stop),
        };
        self.shapes.push(shape.shape(alloc)?)?;
        self.deepest = self.deepest.max(shape.stack().len());
        Ok(())
    }
}

/// The shapes of the positions of a body, or the first of its checks that fails.
pub(crate) fn walk_over(alloc: Global, body: &Body) -> Result<Seq<Shape>, BodyStop>
    requires { body.now.iters ≤ 32 }
    ensures types { MatchResult result (λ all. BodyTypes body.now) (λ stop. StopsBody body.now stop) }
    ensures shapes { IfOk result (λ all. all ≡ kept_of body.now) }
{
    let count = count_positions(body)?;
    if count == 0 {
        return Err(BodyStop::Fails(0, ShapeKind::FallsOff));
    }
    let handlers = handlers(alloc, body)?;
    let catches = catches(alloc, body, count)?;
    let mut walk = Walk::new(alloc, body, count)?;
    for position in 0..count {
        let place = position as usize;
        let handler = handler_at(&handlers, body, place);
        let is_catch = is_catch(catches.as_slice(), body, place);
        match walk.step(alloc, body, position, handler, is_catch) {
            Ok(()) => {}
            Err(stop) => return Err(stop_at(position, stop)),
        }
    }
    if has_too_many_cells(body, count, walk.deepest) {
        return Err(BodyStop::Fails(count - 1, ShapeKind::TooManyCells));
    }
    Ok(walk.shapes)
}
