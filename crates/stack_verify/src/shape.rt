//! The shape of a position, and what is wrong where there is none.

use hack_values::{NoMemory, Seq};
use hhbc_ops::Flavour;
use hhbc_repo::Repo;

/// What the stack looks like before a position, and which iterators are live there.
#[derive(Drop)]
pub struct Shape {
    /// The flavours of its slots, the topmost first.
    pub slots: Seq<Flavour>,
    /// Bit i is set where iterator i is live.
    pub live: u32,
}

/// A check that fails.
#[derive(Clone, Copy, Debug, PartialEq, Eq)]
pub enum ShapeKind {
    /// An assertion, a code that takes slots away or a stack index reaches below the stack.
    Underflow,
    /// A slot isn't of the flavour that the code wants, or that another way to the position gives it.
    Flavour,
    /// Two ways to the position come with different numbers of slots.
    DepthMismatch,
    /// An iterator that isn't live is moved or ended.
    IteratorDead,
    /// An iterator that is live begins.
    IteratorLive,
    /// Two ways to the position come with different live iterators.
    IteratorMismatch,
    /// There is no position where the code leads.
    FallsOff,
    /// More than 255 slots.
    StackTooDeep,
    /// The positions times the locals, the slots of the deepest stack and the iterators are more than 1,000,000.
    TooManyCells,
}

/// The first check that fails.
#[derive(Clone, Copy, Debug, PartialEq, Eq)]
pub struct ShapeFault {
    pub body: u32,
    pub position: u32,
    pub kind: ShapeKind,
}

/// Why a repository isn't verified: the first check that fails, and the repository as it was.
#[derive(Drop)]
pub enum VerifyFault {
    Shape(ShapeFault, Repo),
    NoMemory,
}

/// Why a walk over a repository stops.
#[derive(Clone, Copy)]
pub(crate) enum RepoStop {
    Fails(ShapeFault),
    NoMemory,
}

impl From<NoMemory> for RepoStop {
    ghost use Rattle.std.specs.Prelude.{◌≡◌};
    ghost use Rattle.stack_verify.specs.declared.shape.RepoStop.TheVariants.{NoMemory as WantOfMemory};

    ghost from_gives = { λ _ e. e ≡ WantOfMemory };

    fn from(_want: NoMemory) -> RepoStop {
        RepoStop::NoMemory
    }
}

/// Why a walk over a body stops.
#[derive(Clone, Copy)]
pub(crate) enum Stop {
    Fails(ShapeKind),
    NoMemory,
}

impl From<NoMemory> for Stop {
    ghost use Rattle.std.specs.Prelude.{◌≡◌};
    ghost use Rattle.stack_verify.specs.declared.shape.Stop.TheVariants.{NoMemory as WantOfMemory};

    ghost from_gives = { λ _ e. e ≡ WantOfMemory };

    fn from(_want: NoMemory) -> Stop {
        Stop::NoMemory
    }
}
