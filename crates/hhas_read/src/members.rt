//! Member sequences.

ghost use Rattle.hhas_read.specs.Reading.{Reads, any};
ghost use Rattle.hhbc_repo.specs.CodeSyntax.{ABase};

use crate::reader::{Reader, Stop};
use hhbc_repo::BaseParts;
use std::alloc::Global;

impl<'a> Reader<'a> {
    pub fn base(&mut self, alloc: Global) -> Result<BaseParts, Stop>
        ensures { Reads any ABase self.old result self.new }
    {
        if self.is_word(b"BaseH") {
            self.skip();
            return Ok(BaseParts::This);
        }
        if self.is_word(b"BaseL") {
            self.skip();
            return match self.local(alloc) {
                Ok(local) => Ok(BaseParts::Local(local)),
                Err(stop) => Err(stop),
            };
        }
        if self.is_word(b"BaseC") {
            self.skip();
            return match self.index() {
                Ok(index) => Ok(BaseParts::Stack(index)),
                Err(stop) => Err(stop),
            };
        }
        Err(Stop::Syntax)
    }
}
