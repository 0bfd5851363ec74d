//! Words with a colon behind them, and what follows.

ghost use Rattle.std.specs.Prelude.{◌≡◌, true};
ghost use Rattle.hhas_lex.specs.Spelling.{is_proper};
ghost use Rattle.hhas_lex.specs.Tokens.{Word};
ghost use Rattle.hhbc_repo.specs.CodeSyntax.{AnIndex, AnInteger, ALocal, AString, AWord};
ghost use Rattle.hhas_read.specs.Reading.{Reads, Tag, Tagged, any};

use crate::reader::{Reader, Stop};
use hack_values::Text;
use std::alloc::Global;

impl<'a> Reader<'a> {
    /// The word and a colon.
    pub fn tag(&mut self, name: &[u8]) -> Result<(), Stop>
        requires { is_proper (Word name.now) ≡ true }
        ensures { Reads any (Tag name.now) self.old result self.new }
    {
        match self.keyword(name) {
            Ok(()) => self.mark(b':'),
            Err(stop) => Err(stop),
        }
    }

    pub fn tagged_local(&mut self, alloc: Global, name: &[u8]) -> Result<Text, Stop>
        requires { is_proper (Word name.now) ≡ true }
        ensures { Reads any (Tagged name.now ALocal) self.old result self.new }
    {
        match self.tag(name) {
            Ok(()) => self.local(alloc),
            Err(stop) => Err(stop),
        }
    }

    pub fn tagged_word(&mut self, alloc: Global, name: &[u8]) -> Result<Text, Stop>
        requires { is_proper (Word name.now) ≡ true }
        ensures { Reads any (Tagged name.now AWord) self.old result self.new }
    {
        match self.tag(name) {
            Ok(()) => self.word(alloc),
            Err(stop) => Err(stop),
        }
    }

    pub fn tagged_string(&mut self, alloc: Global, name: &[u8]) -> Result<Text, Stop>
        requires { is_proper (Word name.now) ≡ true }
        ensures { Reads any (Tagged name.now AString) self.old result self.new }
    {
        match self.tag(name) {
            Ok(()) => self.string(alloc),
            Err(stop) => Err(stop),
        }
    }

    pub fn tagged_integer(&mut self, name: &[u8]) -> Result<i64, Stop>
        requires { is_proper (Word name.now) ≡ true }
        ensures { Reads any (Tagged name.now AnInteger) self.old result self.new }
    {
        match self.tag(name) {
            Ok(()) => self.integer(),
            Err(stop) => Err(stop),
        }
    }

    pub fn tagged_index(&mut self, name: &[u8]) -> Result<u8, Stop>
        requires { is_proper (Word name.now) ≡ true }
        ensures { Reads any (Tagged name.now AnIndex) self.old result self.new }
    {
        match self.tag(name) {
            Ok(()) => self.index(),
            Err(stop) => Err(stop),
        }
    }
}
