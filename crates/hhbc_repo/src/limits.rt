//! The limits of linking.

/// The most functions and methods of a repository.
pub const MOST_BODIES: u64 = 65535;

/// The most classes that a repository declares.
pub const MOST_CLASSES: u64 = 16384;

/// The most classes that a class and its ancestors may be.
pub const MOST_ON_CHAIN: usize = 64;

/// The most locals of a body, its parameters among them.
pub const MOST_LOCALS: u64 = 255;

/// The most iterators of a body.
pub const MOST_ITERATORS: u64 = 32;

/// The most positions of a body.
pub const MOST_POSITIONS: u64 = 65535;

/// The most try and catch bodies that are open at one place.
pub const MOST_NESTING: u64 = 64;
