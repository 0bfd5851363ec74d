//! Member sequences.

ghost use Rattle.std.specs.Prelude.{◌≡◌, false};
ghost use Rattle.hhas_read.specs.Reading.{Reads, any};
ghost use Rattle.hhas_read.specs.Sequences.{DimsAfter};
ghost use Rattle.hhbc_repo.specs.CodeSyntax as code;
ghost use Rattle.hhbc_repo.specs.CodeSyntax.{ADim, AMemberSeq};

use crate::reader::{Reader, Stop};
use hack_values::Seq;
use hhbc_repo::{FinalParts, MemberKeyParts, MemberSeqParts};
use std::alloc::Global;

fn is_nullsafe(key: &MemberKeyParts) -> bool
    ensures { result ≡ code.is_nullsafe key.now }
{
    matches!(key, MemberKeyParts::NullsafeName(_))
}

impl<'a> Reader<'a> {
    /// A key with `Dim`.
    pub fn dim(&mut self, alloc: Global) -> Result<MemberKeyParts, Stop>
        ensures { Reads any ADim self.old result self.new }
    {
        if !self.is_word(b"Dim") {
            return Err(Stop::Syntax);
        }
        self.skip();
        self.query_key(alloc)
    }

    /// Keys with `Dim`, perhaps none, and the final.
    fn dims_and_last(&mut self, alloc: Global) -> Result<(Seq<MemberKeyParts>, FinalParts), Stop>
        ensures { Reads any (DimsAfter false) self.old result self.new }
    {
        let mut dims = Seq::new(alloc);
        let mut nullsafe = false;
        while self.is_word(b"Dim") {
            let key = self.dim(alloc)?;
            nullsafe = nullsafe || is_nullsafe(&key);
            dims.push(key)?;
        }
        let last = self.last(alloc, nullsafe)?;
        Ok((dims, last))
    }

    /// A base, keys with `Dim` and a final, which is `QueryM` where a key is null-safe.
    pub fn member_seq(&mut self, alloc: Global) -> Result<MemberSeqParts, Stop>
        ensures { Reads any AMemberSeq self.old result self.new }
    {
        let base = self.base(alloc)?;
        let (dims, last) = self.dims_and_last(alloc)?;
        Ok(MemberSeqParts { base, dims, last })
    }
}
