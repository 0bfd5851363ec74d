//! Bodies of functions and methods.

ghost use Rattle.hhbc_repo.specs.BodySyntax.{ABody};
ghost use Rattle.hhas_read.specs.Reading.{Reads, any};

use crate::reader::{Reader, Stop};
use hhbc_repo::BodyParts;
use std::alloc::Global;

impl<'a> Reader<'a> {
    /// A name, parameters, what is stated of the result, and in braces declared locals, the number of iterators and items.
    pub fn body(&mut self, alloc: Global) -> Result<BodyParts, Stop>
        ensures { Reads any ABody self.old result self.new }
    {
        let name = self.word(alloc)?;
        let params = self.params(alloc)?;
        let stated = self.stated(alloc)?;
        let locals = self.declared_locals(alloc)?;
        let iters = self.iterator_count()?;
        let items = self.items_to_end(alloc)?;
        Ok(BodyParts {
            name,
            params,
            locals,
            iters,
            stated,
            items,
        })
    }
}
