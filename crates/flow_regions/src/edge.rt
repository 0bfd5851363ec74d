//! Where a position leads.

ghost use Rattle.std.specs.Prelude.{◌≡◌, ◌<◌, ◌^◌, ◌++◌, suc, map, length, IfOk, OnOk};
ghost use Rattle.hhbc_repo.specs.Bodies.{bodies};
ghost use Rattle.hhbc_repo.specs.Codes as codes;
ghost use Rattle.hhbc_repo.specs.Edges.{To, edges, handler_edges, next_edges};
ghost use Rattle.flow_regions.specs.EdgeLists.{edges_at, edges_from, position_count, told};

use crate::regions::{count_positions, handler_of};
use hack_values::{NoMemory, Seq};
use hhbc_repo::{Body, Code, Repo, code_goes_on, code_may_throw, push_labels};
use std::alloc::Global;

/// An edge of a position: to the position behind it, to a label, or to the catch body that an exception goes to.
#[derive(Clone, Copy, Debug, PartialEq, Eq)]
pub enum Edge {
    Next(u32),
    To(u32),
    Handler(u32),
}

fn add_next(edges: &mut Seq<Edge>, code: &Code, position: u32) -> Result<(), NoMemory>
    requires { suc position < 2 ^ 32 }
    ensures { OnOk result (told edges.new ≡ told edges.old ++ next_edges (codes.goes_on code.now) position) }
{
    if code_goes_on(code) {
        edges.push(Edge::Next(position + 1))?;
    }
    Ok(())
}

fn add_targets(edges: &mut Seq<Edge>, targets: &[u32]) -> Result<(), NoMemory>
    ensures { OnOk result (told edges.new ≡ told edges.old ++ map (λ q. To q) targets.now) }
{
    for target in targets {
        edges.push(Edge::To(*target))?;
    }
    Ok(())
}

fn add_labels(alloc: Global, edges: &mut Seq<Edge>, code: &Code) -> Result<(), NoMemory>
    ensures { OnOk result (told edges.new ≡ told edges.old ++ map (λ q. To q) (codes.labels code.now)) }
{
    let mut labels = Seq::new(alloc);
    push_labels(&mut labels, code)?;
    add_targets(edges, labels.as_slice())
}

fn add_handler(edges: &mut Seq<Edge>, code: &Code, handler: Option<u32>) -> Result<(), NoMemory>
    ensures { OnOk result (told edges.new ≡ told edges.old ++ handler_edges (codes.throws code.now) handler) }
{
    if code_may_throw(code) {
        if let Some(catch) = handler {
            edges.push(Edge::Handler(catch))?;
        }
    }
    Ok(())
}

/// The edges of a code at a position, in order: to the position behind, to its labels in the order of its
/// operands, and to this handler.
pub fn edges_with(
    alloc: Global,
    code: &Code,
    position: u32,
    handler: Option<u32>,
) -> Result<Seq<Edge>, NoMemory>
    requires { suc position < 2 ^ 32 }
    ensures { IfOk result (λ found. told found ≡ edges_from code.now position handler) }
{
    let mut edges = Seq::new(alloc);
    add_next(&mut edges, code, position)?;
    add_labels(alloc, &mut edges, code)?;
    add_handler(&mut edges, code, handler)?;
    Ok(edges)
}

fn edges_in(alloc: Global, body: &Body, position: u32) -> Result<Seq<Edge>, NoMemory>
    requires { position < length body.now.positions }
    ensures { IfOk result (λ found. told found ≡ edges body.now position) }
{
    count_positions(body)?;
    let code = &body.positions.as_slice()[position as usize].code;
    edges_with(alloc, code, position, handler_of(body, position))
}

/// The edges of a position of a body, in order.
pub fn edges_of(alloc: Global, repo: &Repo, body: u32, position: u32) -> Result<Seq<Edge>, NoMemory>
    requires body { body < length (bodies repo.now) }
    requires position { position < position_count repo.now body }
    ensures { IfOk result (λ found. told found ≡ edges_at repo.now body position) }
{
    edges_in(alloc, repo.body(body), position)
}
