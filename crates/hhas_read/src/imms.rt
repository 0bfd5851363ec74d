//! Operands of instructions.

ghost use Rattle.hhbc_repo.specs.CodeSyntax.{Operand};
ghost use Rattle.hhas_read.specs.Kinds.{after};
ghost use Rattle.hhas_read.specs.Reading.{Reads, any};

use crate::reader::{Reader, Stop};
use hhbc_ops::ImmKind;
use hhbc_repo::ImmParts;
use std::alloc::Global;

impl<'a> Reader<'a> {
    /// The locals of an iterator, as an operand.
    fn iter_locals_operand(&mut self, alloc: Global) -> Result<ImmParts, Stop>
        ensures { Reads any (Operand ImmKind.IterLocals) self.old result self.new }
    {
        match self.iter_locals(alloc) {
            Ok((key, value)) => Ok(ImmParts::IterLocals(key, value)),
            Err(stop) => Err(stop),
        }
    }

    /// An operand of the kind. The rules that are rare or take much room are kept from being inlined: with them, each operand
    /// would pay for the room of all.
    pub fn operand(&mut self, alloc: Global, kind: ImmKind) -> Result<ImmParts, Stop>
        ensures { Reads (after kind) (Operand kind) self.old result self.new }
    {
        match kind {
            ImmKind::Int => self.integer().map(ImmParts::Int),
            ImmKind::Count => self.number(254).map(ImmParts::Count),
            ImmKind::Str => self.string(alloc).map(ImmParts::Str),
            ImmKind::Name => self.word(alloc).map(ImmParts::Name),
            ImmKind::Local => self.local(alloc).map(ImmParts::Local),
            ImmKind::Iter => self.index().map(ImmParts::Iter),
            ImmKind::Label => self.label(alloc).map(ImmParts::Pos),
            ImmKind::Class => self.word(alloc).map(ImmParts::Class),
            ImmKind::IncDec => self.inc_dec().map(ImmParts::IncDec),
            ImmKind::SetOp => self.set_op().map(ImmParts::SetOp),
            ImmKind::IsType => self.is_type().map(ImmParts::IsType),
            ImmKind::Switch => self.arms(alloc).map(ImmParts::Arms),
            ImmKind::SSwitch => self.string_arms(alloc).map(ImmParts::Arms),
            ImmKind::IterLocals => self.iter_locals_operand(alloc),
            ImmKind::Constraint => self.constraint_parts(alloc).map(ImmParts::Constraint),
        }
    }
}
