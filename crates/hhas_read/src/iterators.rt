//! The locals of an iterator.

ghost use Rattle.hhas_read.specs.Reading.{Reads, any};
ghost use Rattle.hhbc_repo.specs.CodeSyntax.{IterLocals};

use crate::reader::{Reader, Stop};
use hack_values::Text;
use std::alloc::Global;

impl<'a> Reader<'a> {
    /// `K` and a local, or nothing, and `V` and a local.
    #[inline(never)]
    pub fn iter_locals(&mut self, alloc: Global) -> Result<(Option<Text>, Text), Stop>
        ensures { Reads any IterLocals self.old result self.new }
    {
        if !self.is_word(b"K") {
            let value = self.tagged_local(alloc, b"V")?;
            return Ok((None, value));
        }
        let key = self.tagged_local(alloc, b"K")?;
        let value = self.tagged_local(alloc, b"V")?;
        Ok((Some(key), value))
    }
}
