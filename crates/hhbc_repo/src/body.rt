use crate::code::Code;
use hack_values::{Seq, Text};
use type_lattice::HType;

/// A function or a method. Its parameters are its first locals.
#[derive(Drop)]
pub struct Body {
    pub name: Text,
    pub params: u8,
    pub locals: Seq<Text>,
    pub iters: u8,
    /// The type that it states of what it returns.
    pub stated: Option<HType>,
    pub positions: Seq<Position>,
    pub regions: Seq<Region>,
}

/// A code, and the assertions before it, which a jump to the position meets too.
#[derive(Drop)]
pub struct Position {
    pub asserts: Seq<Assert>,
    pub code: Code,
}

/// The type of a local, or of the slot so far below the top of the stack.
#[derive(Clone, Copy)]
pub enum Assert {
    Local(u8, HType),
    Stack(u8, HType),
}

/// A try body, the positions from `first` below `mid`, and its catch body, those from `mid` below `last`.
#[derive(Clone, Copy)]
pub struct Region {
    pub first: u32,
    pub mid: u32,
    pub last: u32,
}
