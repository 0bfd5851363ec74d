//! Reads texts, exactly: `read_parts` accepts what the grammar spells and else tells the first fault. Each function of
//! the reader reads what its rule of the grammar spells, and else stops at the first token that leads to no word of
//! the rule: tokens, values, types, codes and their operands, bodies with their nested try bodies over a stack of their
//! own, classes, and whole texts.
#![tactic(auto)]

mod arms;
mod atoms;
mod bodies;
mod body_heads;
mod cell_kinds;
mod class_members;
mod classes;
mod codes;
mod constraints;
mod containers;
mod declarations;
mod finals;
mod fixed;
mod imms;
mod items;
mod iterators;
mod keys;
mod labels;
mod laws;
mod leaves;
mod linked_texts;
mod lists;
mod members;
mod named_words;
mod open_bodies;
mod positions;
mod reader;
mod reading_back;
mod scalars;
mod sequences;
mod singles;
mod tagged;
mod texts;
mod type_parts;
mod types;
mod whole_types;

pub use labels::is_reserved;
pub use laws::{first_fault_is_one, text_spells_one_repository};
pub use linked_texts::{ReadFault, read_text};
pub use reading_back::{canonical_texts_are_read_back, repository_is_read_back};
pub use texts::{PartsFault, read_parts};
