//! Values of constants and properties.

ghost use Rattle.hhas_read.specs.Reading.{Reads, any};
ghost use Rattle.hhbc_repo.specs.TextSyntax.{AScalar, AnInitial};

use crate::reader::{Piece, Reader, Stop};
use hack_values::{Cell, DictVal, KeysetVal, VecVal};
use std::alloc::Global;

impl<'a> Reader<'a> {
    /// The value of a constant.
    pub fn scalar(&mut self, alloc: Global) -> Result<Cell, Stop>
        ensures { Reads any AScalar self.old result self.new }
    {
        if self.is_word(b"Null") {
            self.skip();
            return Ok(Cell::Null);
        }
        if self.is_word(b"True") {
            self.skip();
            return Ok(Cell::Bool(true));
        }
        if self.is_word(b"False") {
            self.skip();
            return Ok(Cell::Bool(false));
        }
        if let Piece::Integer(number) = self.peek() {
            self.skip();
            return Ok(Cell::Int(number));
        }
        match self.string(alloc) {
            Ok(text) => Ok(Cell::Str(text)),
            Err(stop) => Err(stop),
        }
    }

    /// The value that a property has at first: a scalar or an empty container.
    pub fn initial(&mut self, alloc: Global) -> Result<Cell, Stop>
        ensures { Reads any AnInitial self.old result self.new }
    {
        if self.is_word(b"Vec") {
            self.skip();
            return Ok(Cell::Vec(VecVal::new(alloc)));
        }
        if self.is_word(b"Dict") {
            self.skip();
            return Ok(Cell::Dict(DictVal::new(alloc)));
        }
        if self.is_word(b"Keyset") {
            self.skip();
            return Ok(Cell::Keyset(KeysetVal::new(alloc)));
        }
        self.scalar(alloc)
    }
}
