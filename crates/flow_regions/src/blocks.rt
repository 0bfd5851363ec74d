//! Where the blocks of a body begin.

ghost use Rattle.std.specs.Prelude.{◌≡◌, ◌<◌, ◌^◌, ◌++◌, ◌∷◌, [], true, false, suc, length, if◌then◌else◌, replicate, slice_set, IfOk, OnOk};
ghost use Rattle.std.specs.List.{filter};
ghost use Rattle.hhbc_repo.specs.Bodies.{bodies, numbers};
ghost use Rattle.hhbc_repo.specs.Edges as definition;
ghost use Rattle.flow_regions.specs.BlockStarts as meaning;
ghost use Rattle.flow_regions.specs.BlockStarts.{starts, starts_at};
ghost use Rattle.flow_regions.specs.EdgeLists.{all_handlers, told};
ghost use Rattle.flow_regions.specs.Marks.{begun, has_mark, jumped, marked_by};

use crate::edge::{Edge, edges_with};
use crate::regions::{count_positions, handler_at, handlers};
use hack_values::{NoMemory, Seq};
use hhbc_repo::{Body, Repo};
use std::alloc::Global;

/// A mark for each of so many positions, none of which is set.
fn no_marks(alloc: Global, count: usize) -> Result<Seq<bool>, NoMemory>
    ensures { IfOk result (λ marks. marks ≡ replicate count false) }
{
    let mut marks = Seq::new(alloc);
    for _position in 0..count {
        marks.push(false)?;
    }
    Ok(marks)
}

/// Marks a position, where it is one.
fn mark(marks: &mut Seq<bool>, position: usize)
    ensures { marks.new ≡ slice_set marks.old position true }
{
    if let Some(mark) = marks.get_mut(position) {
        *mark = true;
    }
}

/// Marks the targets of edges to labels and handlers.
fn mark_jumps(marks: &mut Seq<bool>, edges: &[Edge])
    ensures { marks.new ≡ jumped marks.old (told edges.now) }
{
    for edge in edges {
        match edge {
            Edge::Next(_) => {}
            Edge::To(target) | Edge::Handler(target) => mark(marks, *target as usize),
        }
    }
}

/// A block ends at a position with these edges.
fn ends_block(edges: &[Edge]) -> bool
    ensures { result ≡ meaning.ends_block (told edges.now) }
{
    let mut jumps = false;
    let mut goes_on = false;
    for edge in edges {
        match edge {
            Edge::Next(_) => goes_on = true,
            Edge::To(_) | Edge::Handler(_) => jumps = true,
        }
    }
    jumps || !goes_on
}

/// Marks where a position with these edges lets blocks begin.
fn mark_begun(marks: &mut Seq<bool>, edges: &[Edge], position: u32)
    ensures { marks.new ≡ begun marks.old (told edges.now) position }
{
    mark_jumps(marks, edges);
    if ends_block(edges) {
        mark(marks, position as usize + 1);
    }
}

/// Marks where a position of the body lets blocks begin.
fn mark_from(
    alloc: Global,
    marks: &mut Seq<bool>,
    body: &Body,
    handlers: &[Option<u32>],
    position: u32,
) -> Result<(), NoMemory>
    requires within { position < length body.now.positions }
    requires fits { suc position < 2 ^ 32 }
    requires handlers { handlers.now ≡ all_handlers body.now }
    ensures { OnOk result (marks.new ≡ begun marks.old (definition.edges body.now position) position) }
{
    let code = &body.positions.as_slice()[position as usize].code;
    let edges = edges_with(alloc, code, position, handler_at(handlers, position))?;
    mark_begun(marks, edges.as_slice(), position);
    Ok(())
}

fn is_marked(marks: &[bool], position: usize) -> bool
    ensures { result ≡ has_mark marks.now position }
{
    match marks.get(position) {
        Some(mark) => *mark,
        None => false,
    }
}

fn push_if(found: &mut Seq<u32>, position: u32, is_marked: bool) -> Result<(), NoMemory>
    ensures { OnOk result (found.new ≡ found.old ++ (if is_marked then position ∷ [] else [])) }
{
    if is_marked {
        found.push(position)?;
    }
    Ok(())
}

/// The positions that are marked, ascending.
fn marked(alloc: Global, marks: &[bool], count: u32) -> Result<Seq<u32>, NoMemory>
    ensures { IfOk result (λ found. found ≡ filter (has_mark marks.now) (numbers 0 count)) }
{
    let mut found = Seq::new(alloc);
    for position in 0..count {
        push_if(&mut found, position, is_marked(marks, position as usize))?;
    }
    Ok(found)
}

/// Marks where the blocks of a body begin.
fn block_marks(alloc: Global, body: &Body) -> Result<Seq<bool>, NoMemory>
    ensures { IfOk result (λ marks. marks ≡ marked_by (meaning.begins_block body.now) (length body.now.positions)) }
{
    let count = count_positions(body)?;
    let handlers = handlers(alloc, body)?;
    let mut marks = no_marks(alloc, count as usize)?;
    mark(&mut marks, 0);
    for position in 0..count {
        mark_from(alloc, &mut marks, body, handlers.as_slice(), position)?;
    }
    Ok(marks)
}

fn starts_of(alloc: Global, body: &Body) -> Result<Seq<u32>, NoMemory>
    ensures { IfOk result (λ found. found ≡ starts body.now) }
{
    let count = count_positions(body)?;
    let marks = block_marks(alloc, body)?;
    marked(alloc, marks.as_slice(), count)
}

/// The positions at which blocks begin, ascending, each once: position 0, each target of an edge to a label
/// or a handler, and each position behind a code that has such an edge or no next.
pub fn block_starts(alloc: Global, repo: &Repo, body: u32) -> Result<Seq<u32>, NoMemory>
    requires { body < length (bodies repo.now) }
    ensures { IfOk result (λ found. found ≡ starts_at repo.now body) }
{
    starts_of(alloc, repo.body(body))
}
