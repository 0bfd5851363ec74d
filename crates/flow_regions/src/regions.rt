//! Handlers: the catch bodies of the regions that positions lie in.

ghost use Rattle.std.specs.Prelude.{◌≡◌, ◌<◌, ℕ, Option, Some, None, length, replicate, slice_get, slice_set, IfOk};
ghost use Rattle.hhbc_repo.specs.Edges as edges;
ghost use Rattle.flow_regions.specs.EdgeLists.{all_handlers};
ghost use Rattle.flow_regions.specs.Guarded.{flat, handled, lowered, lowered_from};

use hack_values::{NoMemory, Seq};
use hhbc_repo::{Body, Region};
use std::alloc::Global;

/// How many positions the body has. There are fewer than 2^32 in each body that linking makes.
pub(crate) fn count_positions(body: &Body) -> Result<u32, NoMemory>
    ensures { IfOk result (λ count. count ≡ length body.now.positions) }
{
    let count = body.positions.as_slice().len();
    if count > u32::MAX as usize {
        return Err(NoMemory);
    }
    Ok(count as u32)
}

/// The position lies in the try body of the region.
fn guards(region: Region, position: u32) -> bool
    ensures { result ≡ edges.guards region position }
{
    region.first <= position && position < region.mid
}

/// The inner one of two regions that a position lies in.
fn inner(region: Region, other: Option<Region>) -> Region
    ensures { result ≡ edges.inner region other }
{
    match other {
        None => region,
        Some(other) => {
            if region.mid <= other.mid {
                region
            } else {
                other
            }
        }
    }
}

/// The innermost of the regions in whose try bodies the position lies.
fn innermost(regions: &[Region], position: u32) -> Option<Region>
    ensures { result ≡ edges.innermost regions.now position }
{
    let mut found = None;
    for at in (0..regions.len()).rev() {
        if guards(regions[at], position) {
            found = Some(inner(regions[at], found));
        }
    }
    found
}

/// Where the catch body begins that an exception raised at the position goes to: that of the innermost
/// region in whose try body the position lies.
pub fn handler_of(body: &Body, position: u32) -> Option<u32>
    ensures { result ≡ edges.handler_of body.now position }
{
    match innermost(body.regions.as_slice(), position) {
        None => None,
        Some(region) => Some(region.mid),
    }
}

/// No handler, for each of so many positions.
fn no_handlers(alloc: Global, count: u32) -> Result<Seq<Option<u32>>, NoMemory>
    ensures { IfOk result (λ found. found ≡ replicate count None) }
{
    let mut found = Seq::new(alloc);
    for _position in 0..count {
        found.push(None)?;
    }
    Ok(found)
}

/// The handler that the list has for a position.
pub(crate) fn handler_at(handlers: &[Option<u32>], position: u32) -> Option<u32>
    ensures { result ≡ flat (slice_get handlers.now position) }
{
    match handlers.get(position as usize) {
        Some(handler) => *handler,
        None => None,
    }
}

/// Of two handlers the one that stands first.
fn earlier(catch: u32, other: Option<u32>) -> u32
    ensures { result ≡ lowered catch other }
{
    match other {
        None => catch,
        Some(other) => { if catch <= other { catch } else { other } }
    }
}

fn put_handler(handlers: &mut Seq<Option<u32>>, position: u32, catch: u32)
    ensures { handlers.new ≡ slice_set handlers.old position (Some catch) }
{
    if let Some(handler) = handlers.get_mut(position as usize) {
        *handler = Some(catch);
    }
}

/// Puts the catch body of a region for a position that its try body holds.
fn guard(handlers: &mut Seq<Option<u32>>, position: u32, catch: u32)
    ensures { handlers.new ≡ slice_set handlers.old position (Some (lowered catch (flat (slice_get handlers.old position)))) }
{
    let catch = earlier(catch, handler_at(handlers.as_slice(), position));
    put_handler(handlers, position, catch);
}

/// Puts the catch body of a region for each position of its try body.
fn guard_all(handlers: &mut Seq<Option<u32>>, first: u32, mid: u32)
    requires { first < mid }
    ensures { (f : ℕ → Option ℕ) (n : ℕ) → handlers.old ≡ handled f n → handlers.new ≡ handled (lowered_from first mid mid f) n }
{
    for position in first..mid {
        guard(handlers, position, mid);
    }
}

fn guard_region(handlers: &mut Seq<Option<u32>>, region: Region)
    ensures { (f : ℕ → Option ℕ) (n : ℕ) → handlers.old ≡ handled f n → handlers.new ≡ handled (lowered_from region.first region.mid region.mid f) n }
{
    if region.first < region.mid {
        guard_all(handlers, region.first, region.mid);
    }
}

/// The handler of each position. The work is that of the positions of all try bodies.
pub fn handlers(alloc: Global, body: &Body) -> Result<Seq<Option<u32>>, NoMemory>
    ensures { IfOk result (λ found. found ≡ all_handlers body.now) }
{
    let mut found = no_handlers(alloc, count_positions(body)?)?;
    let regions = body.regions.as_slice();
    for at in (0..regions.len()).rev() {
        guard_region(&mut found, regions[at]);
    }
    Ok(found)
}
