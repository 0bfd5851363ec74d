//! Words of kinds of cells.

ghost use Rattle.hhas_read.specs.OneWord.{AnIsType};
ghost use Rattle.hhas_read.specs.Reading.{Reads, any};

use crate::reader::{Piece, Reader, Stop};
use hhbc_ops::{IsTypeOp, is_type_named};

impl<'a> Reader<'a> {
    #[inline(never)]
    pub fn is_type(&mut self) -> Result<IsTypeOp, Stop>
        ensures { Reads any AnIsType self.old result self.new }
    {
        let Piece::Word(name) = self.peek() else {
            return Err(Stop::Syntax);
        };
        let Some(op) = is_type_named(name) else {
            return Err(Stop::Syntax);
        };
        self.skip();
        Ok(op)
    }
}
