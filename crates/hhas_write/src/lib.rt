//! Writes the canonical text of repositories.
#![tactic(auto)]

mod assertions;
mod body_heads;
mod body_texts;
mod class_texts;
mod item_texts;
mod key_texts;
mod members;
mod operands;
mod pieces;
mod scope;
mod switches;
mod tables;
mod texts;
mod turns;

pub use texts::write_text;
