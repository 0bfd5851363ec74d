//! Operands that are words of a list.

ghost use Rattle.hhas_read.specs.Reading.{Reads, any};
ghost use Rattle.hhbc_repo.specs.CodeSyntax.{AChange, AMode, ASetOp};

use crate::reader::{Piece, Reader, Stop};
use hhbc_ops::{IncDecOp, QueryMode, SetOpOp, inc_dec_named, query_mode_named, set_op_named};

impl<'a> Reader<'a> {
    #[inline(never)]
    pub fn set_op(&mut self) -> Result<SetOpOp, Stop>
        ensures { Reads any ASetOp self.old result self.new }
    {
        let Piece::Word(name) = self.peek() else {
            return Err(Stop::Syntax);
        };
        let Some(op) = set_op_named(name) else {
            return Err(Stop::Syntax);
        };
        self.skip();
        Ok(op)
    }

    #[inline(never)]
    pub fn inc_dec(&mut self) -> Result<IncDecOp, Stop>
        ensures { Reads any AChange self.old result self.new }
    {
        let Piece::Word(name) = self.peek() else {
            return Err(Stop::Syntax);
        };
        let Some(op) = inc_dec_named(name) else {
            return Err(Stop::Syntax);
        };
        self.skip();
        Ok(op)
    }

    pub fn query_mode(&mut self) -> Result<QueryMode, Stop>
        ensures { Reads any AMode self.old result self.new }
    {
        let Piece::Word(name) = self.peek() else {
            return Err(Stop::Syntax);
        };
        let Some(op) = query_mode_named(name) else {
            return Err(Stop::Syntax);
        };
        self.skip();
        Ok(op)
    }
}
