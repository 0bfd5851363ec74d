//! Single tokens with a value.

ghost use Rattle.std.specs.Prelude.{◌≡◌, ◌≤◌, ℕ, pos, MatchOption};
ghost use Rattle.hhbc_repo.specs.CodeSyntax.{AWord, ALocal, AString, AnInteger, AnIndex, UpTo};
ghost use Rattle.hhas_read.specs.Reading.{Reads, any};

use crate::reader::{Piece, Reader, Stop};
use hack_values::Text;
use std::alloc::Global;

/// The number, if it is from 0 to the other.
fn within(number: i64, most: u16) -> Option<u16>
    ensures { MatchOption result ((n : ℕ) → number ≡ pos n → n ≤ most → ⊥) (λ n. (number ≡ pos n) × (n ≤ most)) }
{
    if number < 0 {
        return None;
    }
    if number > most as i64 {
        return None;
    }
    Some(number as u16)
}

impl<'a> Reader<'a> {
    pub fn word(&mut self, alloc: Global) -> Result<Text, Stop>
        ensures { Reads any AWord self.old result self.new }
    {
        let Piece::Word(name) = self.peek() else {
            return Err(Stop::Syntax);
        };
        let word = Text::from_bytes(alloc, name)?;
        self.skip();
        Ok(word)
    }

    /// A local, without its dollar sign.
    pub fn local(&mut self, alloc: Global) -> Result<Text, Stop>
        ensures { Reads any ALocal self.old result self.new }
    {
        let Piece::Local(name) = self.peek() else {
            return Err(Stop::Syntax);
        };
        let local = Text::from_bytes(alloc, name)?;
        self.skip();
        Ok(local)
    }

    pub fn integer(&mut self) -> Result<i64, Stop>
        ensures { Reads any AnInteger self.old result self.new }
    {
        let Piece::Integer(number) = self.peek() else {
            return Err(Stop::Syntax);
        };
        self.skip();
        Ok(number)
    }

    /// An integer from 0 to the number.
    pub fn number(&mut self, most: u16) -> Result<u16, Stop>
        ensures { Reads any (UpTo most) self.old result self.new }
    {
        let Piece::Integer(number) = self.peek() else {
            return Err(Stop::Syntax);
        };
        let Some(count) = within(number, most) else {
            return Err(Stop::Syntax);
        };
        self.skip();
        Ok(count)
    }

    /// An index of a slot or an iterator, or a count.
    pub fn index(&mut self) -> Result<u8, Stop>
        ensures { Reads any AnIndex self.old result self.new }
    {
        match self.number(254) {
            Ok(count) => Ok(count as u8),
            Err(stop) => Err(stop),
        }
    }

    /// The value of a string.
    #[inline(never)]
    pub fn string(&mut self, alloc: Global) -> Result<Text, Stop>
        ensures { Reads any AString self.old result self.new }
    {
        let Some(value) = self.value(alloc)? else {
            return Err(Stop::Syntax);
        };
        self.skip();
        Ok(value)
    }
}
