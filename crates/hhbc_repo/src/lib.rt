//! Repositories of bytecode, and what they mean.
#![tactic(auto)]

mod bearers;
mod body;
mod claims;
mod class_chains;
mod class_checks;
mod class_list;
mod code;
mod code_facts;
mod copies;
mod declared;
mod distinct_names;
mod effects;
mod first_numbers;
mod fitting;
mod homes;
mod known;
mod limits;
mod link_bodies;
mod link_classes;
mod link_codes;
mod link_counts;
mod link_fault;
mod link_members;
mod link_operands;
mod link_positions;
mod link_types;
mod linker;
mod linking_back;
mod listed;
mod look_ups;
mod member_checks;
mod members;
mod name_table;
mod nesting;
mod outlines;
mod parts;
mod property_places;
mod regions;
mod repo;
mod scope;
mod spelling;
mod stack;
mod telling;
mod whole_parts;

pub use body::{Assert, Body, Position, Region};
pub use code::{Arm, Base, Code, Final, Imm, Instr, MemberKey, MemberSeq};
pub use code_facts::{code_goes_on, code_may_throw, last_key, push_labels, reads_locals};
pub use effects::{Effect, IterUse, effect_of, iter_use, pops};
pub use fitting::{linked_bodies_keep_to_ranges, spelled_parts_are_few, spelled_parts_fit};
pub use link_fault::{LinkError, LinkFault, LinkKind};
pub use linker::link;
pub use linking_back::linked_parts_link_back;
pub use parts::{
    ArmParts, AssertParts, BaseParts, BodyParts, ClassParts, CodeParts, FinalParts, ImmParts,
    InstrParts, ItemParts, MemberKeyParts, MemberSeqParts, PositionParts, PropertyParts, TypeParts,
};
pub use repo::{Class, Const, OwnProperties, Property, Repo};
pub use spelling::{claims_leave_a_spelling, fitting_parts_are_spelled};
pub use whole_parts::Parts;
