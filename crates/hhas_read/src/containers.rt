//! What stands in the brackets of containers.

ghost use Rattle.std.specs.Prelude.{◌≡◌, true, []};
ghost use Rattle.hhas_lex.specs.Tokens.{Mark};
ghost use Rattle.hhas_lex.specs.Spelling.{is_proper};
ghost use Rattle.hhbc_repo.specs.Languages.{Both, Ended};
ghost use Rattle.hhas_read.specs.LeafSyntax.{ALeafOf, AKeyOf, KeyAndLeaf, KeyTo, LeafTo};
ghost use Rattle.hhas_read.specs.Reading.{Reads, any};
ghost use Rattle.hhas_read.specs.Written.{ends_type};

use crate::leaves::Written;
use crate::reader::{Reader, Stop};
use std::alloc::Global;

impl<'a> Reader<'a> {
    /// A leaf, and the bracket that closes.
    pub fn closed_leaf(&mut self, alloc: Global) -> Result<Written, Stop>
        ensures { Reads any LeafTo self.old result self.new }
    {
        match self.leaf(alloc) {
            Ok(leaf) => {
                if !self.is_mark(b'>') {
                    return Err(Stop::Syntax);
                }
                self.skip();
                Ok(leaf)
            }
            Err(stop) => Err(stop),
        }
    }

    /// A key, and the mark behind it.
    pub fn key_to(&mut self, alloc: Global, end: u8) -> Result<Written, Stop>
        requires proper { is_proper (Mark end) ≡ true }
        requires follows { ends_type (Mark end) ≡ true }
        ensures { Reads any (KeyTo end) self.old result self.new }
    {
        match self.key_type(alloc) {
            Ok(key) => {
                if !self.is_mark(end) {
                    return Err(Stop::Syntax);
                }
                self.skip();
                Ok(key)
            }
            Err(stop) => Err(stop),
        }
    }

    /// A key and a leaf with a comma between them, and the bracket that closes.
    pub fn key_and_leaf(&mut self, alloc: Global) -> Result<(Written, Written), Stop>
        ensures { Reads any KeyAndLeaf self.old result self.new }
    {
        match self.key_to(alloc, b',') {
            Ok(key) => match self.closed_leaf(alloc) {
                Ok(leaf) => Ok((key, leaf)),
                Err(stop) => Err(stop),
            },
            Err(stop) => Err(stop),
        }
    }
}
