//! The keys of member sequences.

ghost use Rattle.hhas_read.specs.Reading.{Reads, any};
ghost use Rattle.hhbc_repo.specs.CodeSyntax.{ChangeKey, QueryKey, SetKey};

use crate::reader::{Reader, Stop};
use hhbc_repo::MemberKeyParts;
use std::alloc::Global;

impl<'a> Reader<'a> {
    /// A key that all sequences may have.
    pub fn change_key(&mut self, alloc: Global) -> Result<MemberKeyParts, Stop>
        ensures { Reads any ChangeKey self.old result self.new }
    {
        if self.is_word(b"EC") {
            return Ok(MemberKeyParts::ElemStack(self.tagged_index(b"EC")?));
        }
        if self.is_word(b"EL") {
            return Ok(MemberKeyParts::ElemLocal(self.tagged_local(alloc, b"EL")?));
        }
        if self.is_word(b"ET") {
            return Ok(MemberKeyParts::ElemText(self.tagged_string(alloc, b"ET")?));
        }
        if self.is_word(b"EI") {
            return Ok(MemberKeyParts::ElemInt(self.tagged_integer(b"EI")?));
        }
        if self.is_word(b"PC") {
            return Ok(MemberKeyParts::PropStack(self.tagged_index(b"PC")?));
        }
        if self.is_word(b"PL") {
            return Ok(MemberKeyParts::PropLocal(self.tagged_local(alloc, b"PL")?));
        }
        if self.is_word(b"PT") {
            return Ok(MemberKeyParts::PropName(self.tagged_word(alloc, b"PT")?));
        }
        Err(Stop::Syntax)
    }

    /// The key of a `Dim` or of `QueryM`: `W` is none.
    pub fn query_key(&mut self, alloc: Global) -> Result<MemberKeyParts, Stop>
        ensures { Reads any QueryKey self.old result self.new }
    {
        if self.is_word(b"QT") {
            return Ok(MemberKeyParts::NullsafeName(self.tagged_word(alloc, b"QT")?));
        }
        self.change_key(alloc)
    }

    /// The key of `SetM`, `W` too: `QT` is none.
    pub fn set_key(&mut self, alloc: Global) -> Result<MemberKeyParts, Stop>
        ensures { Reads any SetKey self.old result self.new }
    {
        if self.is_word(b"W") {
            self.skip();
            return Ok(MemberKeyParts::Append);
        }
        self.change_key(alloc)
    }
}
