//! What codes make of types: states, and their flows to other positions.
#![tactic(auto)]

mod laws;

pub use laws::{code_fits_row, flow_is_monotone};
