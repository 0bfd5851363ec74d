//! Edges, blocks and shapes of repositories that are read: a jump past one code.

use crate::look_ups::read;
use flow_regions::{Edge, block_starts, edges_of};
use stack_verify::{ShapeFault, ShapeKind, Verified, VerifyFault, verify};
use std::alloc::Global;
use std::process::Abort;
use std::test::Fail;

const TWO_DEPTHS: &[u8] = b".profile 1;.function main(){True JmpZ L0 Int 1 L0: Null RetC}";

const ONE_DEPTH: &[u8] = b".profile 1;.function main(){True JmpZ L0 Nop L0: Null RetC}";

#[tactic(auto, using(flow_regions::proofs::Handled::counted))]
#[test]
fn a_jump_makes_blocks(rt: HostRuntime) -> Result<(), Fail> {
    let alloc = rt.alloc();
    let repo = read(&rt, alloc, TWO_DEPTHS);
    assert!(rt; 0 < repo.bodies());
    assert!(rt; 1 < repo.body(0).positions.as_slice().len());
    let edges = edges_of(alloc, &repo, 0, 1)?;
    assert_eq!(rt; edges.as_slice(), [Edge::Next(2), Edge::To(3)].as_slice());
    let starts = block_starts(alloc, &repo, 0)?;
    assert_eq!(rt; starts.as_slice(), [0, 2, 3].as_slice());
    Ok(())
}

/// The slots at the label.
fn slots_at_label(rt: &impl Abort, verified: &Verified) -> usize {
    let repo = verified.repo();
    assert!(rt; 0 < repo.bodies());
    assert!(rt; 3 < repo.body(0).positions.as_slice().len());
    verified.shape(0, 3).slots.as_slice().len()
}

/// What `verify` makes of a text that keeps to its shapes.
fn verified(rt: &impl Abort, alloc: Global, text: &[u8]) -> Verified {
    match verify(alloc, read(rt, alloc, text)) {
        Ok(verified) => verified,
        Err(_) => panic!(rt; "a fault of shapes"),
    }
}

/// What `verify` says of a text that doesn't.
fn shape_fault(rt: &impl Abort, alloc: Global, text: &[u8]) -> ShapeFault {
    match verify(alloc, read(rt, alloc, text)) {
        Err(VerifyFault::Shape(fault, _)) => fault,
        _ => panic!(rt; "no fault of shapes"),
    }
}

#[test]
fn a_label_has_one_depth(rt: HostRuntime) {
    let verified = verified(&rt, rt.alloc(), ONE_DEPTH);
    assert_eq!(rt; slots_at_label(&rt, &verified), 0);
    assert_eq!(rt; verified.into_repo().bodies(), 1);
}

#[test]
fn two_depths_at_a_label_are_refused(rt: HostRuntime) {
    let depths = ShapeFault {
        body: 0,
        position: 2,
        kind: ShapeKind::DepthMismatch,
    };
    assert_eq!(rt; shape_fault(&rt, rt.alloc(), TWO_DEPTHS), depths);
}
