//! What a write along a path leaves.

use hack_values::Seq;
use type_lattice::HType;

/// What a write leaves in a property, by its number.
#[derive(Clone, Copy, Debug, PartialEq, Eq)]
pub struct Effect {
    pub property: u32,
    pub t: HType,
}

/// What a write leaves: in the base, and in properties.
#[derive(Debug, Drop)]
pub struct PathWrite {
    pub base: HType,
    /// In order of property, each once. None is without members.
    pub effects: Seq<Effect>,
}
