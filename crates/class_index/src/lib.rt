//! What is known of a whole repository while it is analysed: facts, targets of calls, and the types of paths.
#![tactic(auto)]

mod effects;
mod entered;
mod facts;
mod keys;
mod laws;
mod leaves;
mod named;
mod objects;
mod reading;
mod threads;

pub use effects::{Effect, PathWrite};
pub use entered::targets;
pub use facts::Facts;
pub use keys::TypeKey;
pub use laws::{
    base_by_levels, effects_by_levels, levels_are_sets, path_types_rise, targets_are_methods,
    targets_have_methods, targets_rise, writes_rise,
};
pub use objects::join_class;
pub use reading::path_type;
pub use threads::facts_cross_threads;
