ghost use Rattle.std.specs.Prelude.{◌≡◌, ◌<◌, ◌↔◌, ◌++◌, [], ◌∷◌, length, OnOk, OnErr, IsSome, IfSome, slice_get, slice_set, Some};
ghost use Rattle.std.specs.Borrow.{sem, LendsIf};
ghost use Rattle.hack_values.specs.contracts.seq.Seq.{the_row as seq_row};

use crate::NoMemory;
use std::alloc::Global;
use std::marker::Model;

/// A list. It keeps the allocator that it was made with.
#[derive(Debug, Drop)]
pub struct Seq<T> {
    items: Vec<T>,
}

impl<T> Model for Seq<T> {
    ghost use Rattle.std.specs.Prelude.{List};
    ghost use Rattle.std.specs.Coded.{coded_list};

    ghost Value = { List T };

    ghost coded = { coded_list T.code };

    ghost view = { λ s. s.items.items };
}

impl<T> Seq<T> {
    /// The empty list.
    pub fn new(alloc: Global) -> Seq<T>
        ensures { result ≡ [] }
    {
        Seq {
            items: Vec::new(alloc),
        }
    }

    /// All its items.
    pub fn as_slice(&self) -> &[T]
        ensures { result.now ≡ self.now }
    {
        self.items.as_slice()
    }

    /// Its items, so that they can be given away one by one.
    pub fn into_vec(self) -> Vec<T>
        ensures { result.items ≡ self }
    {
        self.items
    }

    /// The item at a place, for writing; None where the place isn't below the length.
    pub fn get_mut(&mut self, at: usize) -> Option<&mut T>
        ensures* writes_back { sem 𝓛 (LendsIf (seq_row T.row) T.row self.entry result (λ w. slice_set self.old at w) self.old) }
        ensures variant { IsSome result ↔ (at < length self.old) }
        ensures value { IfSome result (λ item. slice_get self.old at ≡ Some item.now) }
    {
        self.items.get_mut(at)
    }
}

impl<T: Drop> Seq<T> {
    /// Puts the item at the end, and drops it where there is no memory. Room doubles from one item
    /// on, since most lists here are short and some items are large.
    pub fn push(&mut self, item: T) -> Result<(), NoMemory>
        ensures ok { OnOk result (self.new ≡ self.old ++ item ∷ []) }
        ensures err { OnErr result (self.new ≡ self.old) }
    {
        let count = self.items.len();
        if count == self.items.capacity() {
            self.items.try_reserve_exact(count.max(1))?;
        }
        self.items.push(item)?;
        Ok(())
    }
}
