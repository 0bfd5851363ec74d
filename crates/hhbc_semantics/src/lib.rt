//! What repositories do: the machine, its runs, and what stays true of them. Definitions and laws alone.
#![tactic(auto)]

mod laws;
mod paths;
mod soundness;

pub use laws::{
    accepted_has_operands, bare_is_accepted, bare_is_first_form, first_form_never_sticks,
    frames_keep_shapes, local_codes_never_stick, never_sticks, runs_as_bare,
    second_form_never_sticks, types_where_asserted_walks, types_where_it_walks,
};
pub use paths::{
    reads_find_writes, refused_members_change_nothing, writes_in_phases, writes_keep_objects,
};
pub use soundness::{
    Analysed, calls_are_told, closed_facts_are_true, facts_stay_true, rounds_stay_true,
    sample_is_true, starts_are_sound, tests_only_stop,
};
