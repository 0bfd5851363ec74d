//! Jobs done side by side, in pieces, by fork and join.
#![tactic(auto)]

mod gate;
mod laws;
mod piece;
mod queue_laws;
mod worker;

pub use gate::{Gate, OpenGate};
pub use laws::answers_follow_from_the_jobs;
pub use piece::pieces;
pub use queue_laws::{
    Dependents, empty_queue_stays, names_are_dependencies, queue_gives_round,
    result_rounds_are_facts, rounds_give_one,
};
pub use worker::Worker;
