//! What instructions do to the stack.

use crate::words::Flavour::{C, U};
use crate::words::Pops::{Counted, Fixed};
use crate::words::{Flavour, Pops};

/// What an instruction takes off the stack and puts there.
#[derive(Clone, Copy)]
pub(crate) enum StackUse {
    /// It leaves the stack alone.
    Untouched,
    /// It puts a cell there.
    ToC,
    /// It puts an Uninit there.
    ToU,
    /// It takes a cell off.
    DropC,
    /// It takes an Uninit off.
    DropU,
    /// It takes a cell off and puts one there.
    CToC,
    /// It takes a cell off and puts two there.
    CToCC,
    /// It takes two cells off and puts one there.
    CCToC,
    /// It takes three cells off and puts one there.
    CCCToC,
    /// It takes as many cells off as its count says, and puts one there.
    CellsToC,
    /// The same, with two Uninits below them that it takes off too.
    CallToC,
    /// The same, with an Uninit and the receiver below them.
    MethodCallToC,
}

impl StackUse {
    ghost use Rattle.std.specs.Prelude.{◌≡◌};
    ghost use Rattle.hhbc_ops.specs.Stacks.{stack_pops, stack_pushes, told_pops};

    /// The slots that it takes off.
    pub(crate) fn pops(self) -> Pops
        ensures { told_pops result ≡ stack_pops self }
    {
        match self {
            StackUse::Untouched | StackUse::ToC | StackUse::ToU => Fixed(&[]),
            StackUse::DropC | StackUse::CToC | StackUse::CToCC => Fixed(&[C]),
            StackUse::DropU => Fixed(&[U]),
            StackUse::CCToC => Fixed(&[C, C]),
            StackUse::CCCToC => Fixed(&[C, C, C]),
            StackUse::CellsToC => Counted(&[]),
            StackUse::CallToC => Counted(&[U, U]),
            StackUse::MethodCallToC => Counted(&[U, C]),
        }
    }

    /// The slots that it puts there, the topmost first.
    pub(crate) fn pushes(self) -> &'static [Flavour]
        ensures { result.now ≡ stack_pushes self }
    {
        match self {
            StackUse::Untouched | StackUse::DropC | StackUse::DropU => &[],
            StackUse::ToC
            | StackUse::CToC
            | StackUse::CCToC
            | StackUse::CCCToC
            | StackUse::CellsToC
            | StackUse::CallToC
            | StackUse::MethodCallToC => &[C],
            StackUse::ToU => &[U],
            StackUse::CToCC => &[C, C],
        }
    }
}
