//! Least solutions of the flow of a body, and facts after rounds over all bodies.
#![tactic(auto)]

mod laws;
mod problem;
mod round_laws;
mod solution_laws;
mod tally;
mod worklist;

pub use laws::{
    annotated_has_spelling, annotated_is_faithful, annotated_is_unique, bare_chain_annotates,
    chain_annotates, chain_is_least, facts_are_true, frames_lie, second_is_faithful,
    second_is_unique,
};
pub use problem::Problem;
pub use round_laws::{
    facts_never_rise, lower_facts_lower_round, results_depend_on_names, results_make_round,
};
pub use solution_laws::{
    classes_are_transitive, least_is_alive, least_is_by_flows, least_of_flows,
    lower_facts_lower_least,
};
pub use tally::{Tally, counted};
pub use worklist::least;
