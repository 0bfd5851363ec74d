//! Whether a value is of a type.
#![tactic(auto)]

mod member;

pub use member::{in_leaf, is_member, key_in, obj_in};
