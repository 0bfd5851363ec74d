//! Stacks and iterators have one shape at each position of a body, whichever way a run comes there.
#![tactic(auto)]

mod checks;
mod edges;
mod known;
mod runs;
mod shape;
mod slots;
mod verified;
mod walk;

pub use shape::{Shape, ShapeFault, ShapeKind, VerifyFault};
pub use verified::{Verified, verify};
