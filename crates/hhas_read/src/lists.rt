//! Lists of locals.

ghost use Rattle.std.specs.Prelude.{◌≡◌, ◌≢◌, true};
ghost use Rattle.hhas_lex.specs.Spelling.{is_proper};
ghost use Rattle.hhas_lex.specs.Tokens.{Mark};
ghost use Rattle.hhbc_repo.specs.BodySyntax.{Params};
ghost use Rattle.hhas_read.specs.Reading.{LocalsTo, Reads, any};

use crate::reader::{Reader, Stop};
use hack_values::{Seq, Text};
use std::alloc::Global;

impl<'a> Reader<'a> {
    /// Locals with commas between them, and the mark at their end.
    pub fn locals_to(&mut self, alloc: Global, end: u8) -> Result<Seq<Text>, Stop>
        requires proper { is_proper (Mark end) ≡ true }
        requires no_comma { end ≢ 44 }
        ensures { Reads any (LocalsTo end) self.old result self.new }
    {
        let mut out = Seq::new(alloc);
        loop {
            let local = self.local(alloc)?;
            out.push(local)?;
            if self.is_mark(end) {
                self.skip();
                return Ok(out);
            }
            if !self.is_mark(b',') {
                return Err(Stop::Syntax);
            }
            self.skip();
        }
    }

    /// Locals in parentheses, perhaps none.
    pub fn params(&mut self, alloc: Global) -> Result<Seq<Text>, Stop>
        ensures { Reads any Params self.old result self.new }
    {
        if !self.is_mark(b'(') {
            return Err(Stop::Syntax);
        }
        self.skip();
        if self.is_mark(b')') {
            self.skip();
            return Ok(Seq::new(alloc));
        }
        self.locals_to(alloc, b')')
    }
}
