//! The finals of member sequences.

ghost use Rattle.hhas_read.specs.Reading.{Reads, any};
ghost use Rattle.hhas_read.specs.Sequences.{FinalAfter, IncDecOperands, QueryOperands, SetOpOperands, SetOperands, UnsetOperands};

use crate::reader::{Reader, Stop};
use hhbc_repo::FinalParts;
use std::alloc::Global;

impl<'a> Reader<'a> {
    /// What stands behind `QueryM`.
    fn query_operands(&mut self, alloc: Global) -> Result<FinalParts, Stop>
        ensures { Reads any QueryOperands self.old result self.new }
    {
        let count = self.index()?;
        let mode = self.query_mode()?;
        let key = self.query_key(alloc)?;
        Ok(FinalParts::Query(count, mode, key))
    }

    /// What stands behind `SetM`.
    fn set_operands(&mut self, alloc: Global) -> Result<FinalParts, Stop>
        ensures { Reads any SetOperands self.old result self.new }
    {
        let count = self.index()?;
        let key = self.set_key(alloc)?;
        Ok(FinalParts::Set(count, key))
    }

    /// What stands behind `SetOpM`.
    fn set_op_operands(&mut self, alloc: Global) -> Result<FinalParts, Stop>
        ensures { Reads any SetOpOperands self.old result self.new }
    {
        let count = self.index()?;
        let op = self.set_op()?;
        let key = self.change_key(alloc)?;
        Ok(FinalParts::SetOp(count, op, key))
    }

    /// What stands behind `IncDecM`.
    fn inc_dec_operands(&mut self, alloc: Global) -> Result<FinalParts, Stop>
        ensures { Reads any IncDecOperands self.old result self.new }
    {
        let count = self.index()?;
        let op = self.inc_dec()?;
        let key = self.change_key(alloc)?;
        Ok(FinalParts::IncDec(count, op, key))
    }

    /// What stands behind `UnsetM`.
    fn unset_operands(&mut self, alloc: Global) -> Result<FinalParts, Stop>
        ensures { Reads any UnsetOperands self.old result self.new }
    {
        let count = self.index()?;
        let key = self.change_key(alloc)?;
        Ok(FinalParts::Unset(count, key))
    }

    /// The final behind keys, with whether one of them is null-safe.
    pub fn last(&mut self, alloc: Global, nullsafe: bool) -> Result<FinalParts, Stop>
        ensures { Reads any (FinalAfter nullsafe) self.old result self.new }
    {
        if self.is_word(b"QueryM") {
            self.skip();
            return self.query_operands(alloc);
        }
        if nullsafe {
            return Err(Stop::Syntax);
        }
        if self.is_word(b"SetM") {
            self.skip();
            return self.set_operands(alloc);
        }
        if self.is_word(b"SetOpM") {
            self.skip();
            return self.set_op_operands(alloc);
        }
        if self.is_word(b"IncDecM") {
            self.skip();
            return self.inc_dec_operands(alloc);
        }
        if self.is_word(b"UnsetM") {
            self.skip();
            return self.unset_operands(alloc);
        }
        Err(Stop::Syntax)
    }
}
