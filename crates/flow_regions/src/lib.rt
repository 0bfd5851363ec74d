//! Where the positions of a body lead: edges, handlers and blocks.
#![tactic(auto)]

mod blocks;
mod edge;
mod regions;

pub use blocks::block_starts;
pub use edge::{Edge, edges_of, edges_with};
pub use regions::{handler_of, handlers};
