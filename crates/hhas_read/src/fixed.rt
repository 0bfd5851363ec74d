//! Tokens that stand at a fixed place of a rule.

ghost use Rattle.std.specs.Prelude.{◌≡◌, true};
ghost use Rattle.hhas_lex.specs.Bytes.{is_mark};
ghost use Rattle.hhas_lex.specs.Spelling.{is_word, is_proper};
ghost use Rattle.hhas_lex.specs.Tokens.{Mark, Word, Directive};
ghost use Rattle.hhas_read.specs.Reading.{IsNext, Just, Reads, any};

use crate::reader::{Piece, Reader, Stop};

impl<'a> Reader<'a> {
    /// Whether the mark of this byte is next.
    pub fn is_mark(&self, byte: u8) -> bool
        ensures { IsNext (Mark byte) self.now result }
    {
        match self.peek() {
            Piece::Mark(found) => { if found == byte { true } else { false } }
            _ => false,
        }
    }

    /// Whether this word is next.
    pub fn is_word(&self, name: &[u8]) -> bool
        ensures { IsNext (Word name.now) self.now result }
    {
        match self.peek() {
            Piece::Word(found) => { if found == name { true } else { false } }
            _ => false,
        }
    }

    /// Whether the directive of this name, without its dot, is next.
    pub fn is_directive(&self, name: &[u8]) -> bool
        ensures { IsNext (Directive name.now) self.now result }
    {
        match self.peek() {
            Piece::Directive(found) => { if found == name { true } else { false } }
            _ => false,
        }
    }

    /// Goes past the mark of this byte.
    pub fn mark(&mut self, byte: u8) -> Result<(), Stop>
        requires { is_proper (Mark byte) ≡ true }
        ensures { Reads any (Just (Mark byte)) self.old result self.new }
    {
        if !self.is_mark(byte) {
            return Err(Stop::Syntax);
        }
        self.skip();
        Ok(())
    }

    /// Goes past this word.
    pub fn keyword(&mut self, name: &[u8]) -> Result<(), Stop>
        requires { is_proper (Word name.now) ≡ true }
        ensures { Reads any (Just (Word name.now)) self.old result self.new }
    {
        if !self.is_word(name) {
            return Err(Stop::Syntax);
        }
        self.skip();
        Ok(())
    }

    /// Goes past the directive of this name, without its dot.
    pub fn directive(&mut self, name: &[u8]) -> Result<(), Stop>
        requires { is_proper (Directive name.now) ≡ true }
        ensures { Reads any (Just (Directive name.now)) self.old result self.new }
    {
        if !self.is_directive(name) {
            return Err(Stop::Syntax);
        }
        self.skip();
        Ok(())
    }
}
