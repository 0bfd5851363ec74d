//! What is known of the runs of a repository that keeps to its shapes.

ghost use Rattle.stack_verify.specs.Runs.{KeepsShapes, NeverStuck};

use crate::verified::Verified;
use hhbc_semantics::{accepted_has_operands, frames_keep_shapes, never_sticks};

impl Verified {
    /// No run of the repository meets an underflow, a wrong flavour or a wrong iterator, whatever its
    /// entry, its arguments and the natives are, and whether its assertions are tested or not.
    pub fn never_stuck(&self)
        ensures { NeverStuck self.now }
    {
        self.repo().has_spelling();
        accepted_has_operands();
        never_sticks();
    }

    /// In every state of every run each frame has the shape of its position, those that wait for a
    /// call too.
    pub fn keeps_shapes(&self)
        ensures { KeepsShapes self.now }
    {
        self.repo().has_spelling();
        accepted_has_operands();
        frames_keep_shapes();
    }
}
