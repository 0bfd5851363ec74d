//! Instructions and codes.

ghost use Rattle.std.specs.Prelude.{◌≡◌, true};
ghost use Rattle.hhas_lex.specs.Tokens.{Word};
ghost use Rattle.hhbc_ops.specs.Ops.{op_name};
ghost use Rattle.hhbc_repo.specs.CodeSyntax.{ACode, AMemberSeq, AnInstruction, Operands};
ghost use Rattle.hhbc_repo.specs.Languages.{Means};
ghost use Rattle.hhbc_repo.specs.declared.parts.CodeParts.TheVariants.{Member};
ghost use Rattle.hhas_read.specs.Kinds.{constraint_last};
ghost use Rattle.hhas_read.specs.Reading.{Reads, next};
ghost use Rattle.hhas_read.specs.Written.{ends_type};

use crate::reader::{Piece, Reader, Stop};
use hack_values::Seq;
use hhbc_ops::{ImmKind, Op, immediates, op_named};
use hhbc_repo::{CodeParts, ImmParts, InstrParts};
use std::alloc::Global;

impl<'a> Reader<'a> {
    /// Operands of these kinds, in order.
    fn operands(&mut self, alloc: Global, kinds: &[ImmKind]) -> Result<Seq<ImmParts>, Stop>
        requires { constraint_last kinds.now ≡ true }
        ensures { Reads ends_type (Operands kinds.now) self.old result self.new }
    {
        let mut operands = Seq::new(alloc);
        for kind in kinds {
            let operand = self.operand(alloc, *kind)?;
            operands.push(operand)?;
        }
        if !self.ends_type() {
            return Err(Stop::Syntax);
        }
        Ok(operands)
    }

    /// An instruction that was looked up by its name, which is next, and its operands.
    pub(crate) fn named_instruction(&mut self, alloc: Global, op: Op) -> Result<InstrParts, Stop>
        requires { next self.old ≡ Word (op_name op) }
        ensures { Reads ends_type AnInstruction self.old result self.new }
    {
        self.skip();
        match self.operands(alloc, immediates(op)) {
            Ok(imms) => Ok(InstrParts { op, imms }),
            Err(stop) => Err(stop),
        }
    }

    /// The name of an instruction, and its operands.
    fn instruction(&mut self, alloc: Global) -> Result<InstrParts, Stop>
        ensures { Reads ends_type AnInstruction self.old result self.new }
    {
        let Piece::Word(name) = self.peek() else {
            return Err(Stop::Syntax);
        };
        match op_named(name) {
            Some(op) => self.named_instruction(alloc, op),
            None => Err(Stop::Syntax),
        }
    }

    /// A member sequence, as a code.
    #[inline(never)]
    fn member_code(&mut self, alloc: Global) -> Result<CodeParts, Stop>
        ensures { Reads ends_type (Means Member AMemberSeq) self.old result self.new }
    {
        match self.member_seq(alloc) {
            Ok(sequence) => {
                if !self.ends_type() {
                    return Err(Stop::Syntax);
                }
                Ok(CodeParts::Member(sequence))
            }
            Err(stop) => Err(stop),
        }
    }

    /// A member sequence, where a base is next, or an instruction.
    pub fn code(&mut self, alloc: Global) -> Result<CodeParts, Stop>
        ensures { Reads ends_type ACode self.old result self.new }
    {
        if self.is_word(b"BaseL") {
            return self.member_code(alloc);
        }
        if self.is_word(b"BaseC") {
            return self.member_code(alloc);
        }
        if self.is_word(b"BaseH") {
            return self.member_code(alloc);
        }
        match self.instruction(alloc) {
            Ok(instruction) => Ok(CodeParts::Plain(instruction)),
            Err(stop) => Err(stop),
        }
    }
}
