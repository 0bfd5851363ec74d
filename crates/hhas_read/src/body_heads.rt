//! What stands in a body before its items.

ghost use Rattle.std.specs.Prelude.{◌≡◌, [], ◌∷◌, codes};
ghost use Rattle.hhas_lex.specs.Tokens.{Mark};
ghost use Rattle.hhbc_repo.specs.BodySyntax.{Declared, Iterators, Returns};
ghost use Rattle.hhbc_repo.specs.CodeSyntax.{UpTo};
ghost use Rattle.hhbc_repo.specs.Languages.{Ended};
ghost use Rattle.hhbc_repo.specs.TypeSyntax.{AType};
ghost use Rattle.hhas_read.specs.Directives.{no_directive};
ghost use Rattle.hhas_read.specs.Reading.{Reads, any};

use crate::reader::{Reader, Stop};
use hack_values::{Seq, Text};
use hhbc_repo::TypeParts;
use std::alloc::Global;

impl<'a> Reader<'a> {
    /// A type, and the brace that opens a body.
    fn type_to_brace(&mut self, alloc: Global) -> Result<TypeParts, Stop>
        ensures { Reads any (Ended AType (Mark 123 ∷ [])) self.old result self.new }
    {
        match self.type_parts(alloc) {
            Ok(stated) => {
                if !self.is_mark(b'{') {
                    return Err(Stop::Syntax);
                }
                self.skip();
                Ok(stated)
            }
            Err(stop) => Err(stop),
        }
    }

    /// What is stated of a result, if anything is, and the brace that opens the body.
    pub(crate) fn stated(&mut self, alloc: Global) -> Result<Option<TypeParts>, Stop>
        ensures { Reads any (Ended Returns (Mark 123 ∷ [])) self.old result self.new }
    {
        if !self.is_directive(b"returns") {
            return match self.mark(b'{') {
                Ok(()) => Ok(None),
                Err(stop) => Err(stop),
            };
        }
        self.skip();
        match self.type_to_brace(alloc) {
            Ok(stated) => Ok(Some(stated)),
            Err(stop) => Err(stop),
        }
    }

    /// The locals that a body declares, if it does. They are declared at one place.
    pub(crate) fn declared_locals(&mut self, alloc: Global) -> Result<Seq<Text>, Stop>
        ensures { Reads (no_directive (codes "declvars")) Declared self.old result self.new }
    {
        if !self.is_directive(b"declvars") {
            return Ok(Seq::new(alloc));
        }
        self.skip();
        match self.locals_to(alloc, b';') {
            Ok(locals) => {
                if self.is_directive(b"declvars") {
                    return Err(Stop::Syntax);
                }
                Ok(locals)
            }
            Err(stop) => Err(stop),
        }
    }

    /// A number up to 65535, and a semicolon.
    fn count(&mut self) -> Result<u16, Stop>
        ensures { Reads any (Ended (UpTo 65535) (Mark 59 ∷ [])) self.old result self.new }
    {
        match self.number(65535) {
            Ok(count) => {
                if !self.is_mark(b';') {
                    return Err(Stop::Syntax);
                }
                self.skip();
                Ok(count)
            }
            Err(stop) => Err(stop),
        }
    }

    /// How many iterators a body has, 0 where nothing says so. It is said at one place.
    pub(crate) fn iterator_count(&mut self) -> Result<u16, Stop>
        ensures { Reads (no_directive (codes "numiters")) Iterators self.old result self.new }
    {
        if !self.is_directive(b"numiters") {
            return Ok(0);
        }
        self.skip();
        match self.count() {
            Ok(count) => {
                if self.is_directive(b"numiters") {
                    return Err(Stop::Syntax);
                }
                Ok(count)
            }
            Err(stop) => Err(stop),
        }
    }
}
