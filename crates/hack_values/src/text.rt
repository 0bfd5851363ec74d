ghost use Rattle.std.specs.Prelude.{◌≡◌, ◌++◌, IfOk, OnOk, OnErr, nat_eq};
ghost use Rattle.std.specs.Hash as fed;
ghost use Rattle.std.specs.Cmp.Lexicographic.{pointwise, nat_list_eq_equiv};
ghost use Rattle.std.specs.Cmp.{partial_equiv_from_equiv};
ghost use Rattle.std.specs.Cmp.Rules.{hashing};
ghost use Rattle.std.proofs.Common.{rules};

use crate::NoMemory;
use std::alloc::{AllocError, Global};
use std::hash::{Hash, Hasher};
use std::marker::Model;
use std::sync::Arc;

/// The most bytes of a string value, which holds for what an operator makes and for a literal. A `Text` has no limit.
pub const MAX_TEXT: usize = 1_048_576;

/// A list of bytes, which need not be UTF-8. It keeps the allocator that it was made with. Copies share the bytes, and
/// the one that grows first takes bytes of its own.
#[derive(Debug, Drop)]
pub struct Text {
    shared: Arc<Vec<u8>>,
}

impl Model for Text {
    ghost use Rattle.std.specs.Prelude.{List, ℕ};
    ghost use Rattle.std.specs.Arc.{arc_value};

    ghost Value = { List ℕ };

    ghost view = { λ t. (arc_value t.shared).items };
}

impl Text {
    /// A copy of the bytes.
    pub fn from_bytes(alloc: Global, bytes: &[u8]) -> Result<Text, NoMemory>
        ensures { IfOk result (λ t. t ≡ bytes.now) }
    {
        let buffer = Vec::from_slice(alloc, bytes)?;
        Ok(Text {
            shared: Arc::new(alloc, buffer)?,
        })
    }

    /// A copy of the bytes of two, one behind the other.
    pub(crate) fn from_two(alloc: Global, first: &[u8], second: &[u8]) -> Result<Text, NoMemory>
        ensures { IfOk result (λ t. t ≡ first.now ++ second.now) }
    {
        let mut buffer = Vec::with_capacity(alloc, first.len() + second.len())?;
        buffer.extend_from_slice(first)?;
        buffer.extend_from_slice(second)?;
        Ok(Text {
            shared: Arc::new(alloc, buffer)?,
        })
    }

    /// All its bytes.
    pub fn bytes(&self) -> &[u8]
        ensures { result.now ≡ self.now }
    {
        self.shared.as_slice()
    }

    /// Puts the bytes at the end: in place, where no other text shares what is there. To append bytes one by one takes a
    /// time that grows with their number.
    pub fn append(&mut self, bytes: &[u8]) -> Result<(), NoMemory>
        ensures ok { OnOk result (self.new ≡ self.old ++ bytes.now) }
        ensures err { OnErr result (self.new ≡ self.old) }
    {
        if let Some(buffer) = Arc::get_mut(&mut self.shared) {
            buffer.extend_from_slice(bytes)?;
            return Ok(());
        }
        *self = Text::from_two(*self.shared.allocator(), self.bytes(), bytes)?;
        Ok(())
    }

    /// An equal text, which shares the bytes.
    pub fn copy(&self, _alloc: Global) -> Result<Text, NoMemory>
        ensures { IfOk result (λ t. t ≡ self.now) }
    {
        Ok(Text {
            shared: self.shared.clone()?,
        })
    }
}

impl Clone for Text {
    ghost is_clone = { λ t copy. copy ≡ t };

    fn clone(&self) -> Result<Text, AllocError> {
        Ok(Text {
            shared: self.shared.clone()?,
        })
    }
}

impl PartialEq for Text {
    ghost eq = { pointwise nat_eq };

    ghost laws = { partial_equiv_from_equiv nat_list_eq_equiv };

    fn eq(&self, other: &Self) -> bool {
        self.bytes() == other.bytes()
    }
}

impl Eq for Text {
    ghost laws = { nat_list_eq_equiv };
}

impl Hash for Text {
    ghost hash_input = { fed.slice fed.u8 };

    ghost respects_eq = { Prim.search (hashing, rules) };

    fn hash<H: Hasher>(&self, state: &mut H) {
        self.bytes().hash(state);
    }
}
