//! Types of values, after the design comments of HHBBC: one part for each kind of value.
#![tactic(auto)]

mod class_tree;
mod constraint;
mod joins;
mod laws;
mod literal;
mod never;
mod order;
mod proper;
mod text;
mod threads;
mod types;
mod whole;

pub use class_tree::ClassTree;
pub use constraint::keep;
pub use joins::{join, leaf_join, obj_join};
pub use laws::{
    classes_are_ordered, constants_are_types, constraint_is_tested, depth_is_bounded,
    height_is_bounded, join_is_least_above, join_is_one, keep_is_greatest_below, le_is_order,
    leaves_are_like_types, literal_is_least, literal_is_proper, members_stay, never_is_never,
    objects_are_like_types, parts_keep_members, proper_is_tested, singles_are_proper,
    whole_is_above_cell,
};
pub use literal::of_literal;
pub use order::{le, leaf_le, obj_le};
pub use text::{push_type, type_text};
pub use threads::types_cross_threads;
pub use types::{HType, IntPart, Leaf, ObjPart, Short, StrPart};
