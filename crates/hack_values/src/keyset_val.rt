ghost use Rattle.std.specs.Prelude.{◌≡◌, ◌+◌, [], ◌<◌, ◌^◌, ◌↔◌, length, IfOk, OnOk, OnErr, IsTrue, IsSome, IfSome, Some, Err, true, slice_get};
ghost use Rattle.hack_values.specs.Keys.{capped, distinct, has_key, key_weight, keys_weight, place, remove_key, with_key};
ghost use Rattle.hack_values.specs.Limits.{IsTooLarge, IsTooDeep};
ghost use Rattle.hack_values.specs.Val.{depth};
ghost use Rattle.hack_values.specs.Val.Val.{keyset};

use crate::key::keys_weight_of;
use crate::key_table::KeyTable;
use crate::value_fault::MAX_WEIGHT;
use crate::{Key, NoMemory, ValueFault};
use indexmap::set::IntoIter;
use std::alloc::Global;
use std::marker::Model;

/// Distinct keys, in order.
#[derive(Debug, Drop)]
pub struct KeysetVal {
    items: KeyTable,
    weight: u32,
}

impl Model for KeysetVal {
    ghost use Rattle.std.specs.Prelude.{List, ◌≡◌, ◌+◌, true};
    ghost use Rattle.std.specs.Coded.{coded_list};
    ghost use Rattle.hack_values.specs.declared.key.Key.{Key};
    ghost use Rattle.hack_values.specs.contracts.key.Key.{the_row};

    ghost Value = { List Key };

    ghost coded = { coded_list the_row.coded };

    ghost use Rattle.hack_values.specs.Keys.{capped, distinct, keys_weight};

    ghost view = { λ a. a.items };

    ghost invariant = { λ a. (distinct a.items ≡ true) × (a.weight ≡ capped (1 + keys_weight a.items)) };
}

impl KeysetVal {
    /// The empty keyset.
    pub fn new(alloc: Global) -> KeysetVal
        ensures { result ≡ [] }
    {
        KeysetVal {
            items: KeyTable::new(alloc),
            weight: 1,
        }
    }

    /// The empty keyset, with room for so many keys.
    pub(crate) fn with_room(alloc: Global, count: usize) -> Result<KeysetVal, NoMemory>
        ensures { IfOk result (λ made. made ≡ []) }
    {
        Ok(KeysetVal {
            items: KeyTable::with_room(alloc, count)?,
            weight: 1,
        })
    }

    /// Its keys, in order, so that they can be given away one by one.
    pub fn into_keys(self) -> IntoIter<Key>
        ensures { result ≡ self }
    {
        self.items.into_keys()
    }

    /// The weight as a cell.
    pub fn weight(&self) -> u32
        ensures { result ≡ capped (1 + keys_weight self.now) }
    {
        self.weight
    }

    pub(crate) fn keys(&self) -> &[Key]
        ensures { result.now ≡ self.now }
    {
        self.items.as_slice()
    }

    /// How many keys it has.
    pub fn len(&self) -> usize
        ensures count { result ≡ length self.now }
        ensures small { length self.now < 2 ^ 63 }
        ensures distinct { distinct self.now ≡ true }
    {
        self.items.len()
    }

    /// The key at a place; None where the place isn't below the length.
    pub fn at(&self, at: usize) -> Option<&Key>
        ensures variant { IsSome result ↔ (at < length self.now) }
        ensures value { IfSome result (λ k. slice_get self.now at ≡ Some k.now) }
    {
        self.items.as_slice().get(at)
    }

    /// Where the key stands; None where it isn't there.
    #[tactic(auto, using(crate::proofs::KeyLaws::places))]
    pub fn find(&self, key: &Key) -> Option<usize>
        ensures place { result ≡ place key.now self.now }
        ensures there { IsSome result ↔ (has_key key.now self.now ≡ true) }
    {
        self.items.find(key)
    }

    /// Takes the key out and closes up; false where it isn't there.
    #[tactic(auto, using(crate::proofs::KeyLaws::removes, crate::proofs::KeyLaws::weighs))]
    pub fn remove(&mut self, key: &Key) -> bool
        ensures there { IsTrue result ↔ IsSome (place key.now self.old) }
        ensures rest { self.new ≡ remove_key key.now self.old }
    {
        match self.items.find(key) {
            Some(at) => {
                if let Some(gone) = self.items.take_at(at) {
                    self.weight = weight_without(self.items.as_slice(), self.weight, &gone);
                }
                true
            }
            None => false,
        }
    }

    /// Puts a key at the end, where it isn't there yet. Drops it where it is there or is refused.
    #[tactic(auto, using(crate::proofs::KeyLaws::pushes, crate::proofs::KeyLaws::weighs))]
    pub fn add(&mut self, key: Key) -> Result<(), ValueFault>
        ensures ok { OnOk result (self.new ≡ with_key self.old key) }
        ensures unchanged { OnErr result (self.new ≡ self.old) }
        ensures large { (result ≡ Err ValueFault.TooLarge) ↔ IsTooLarge (keyset (with_key self.old key)) }
        ensures deep { (result ≡ Err ValueFault.TooDeep) ↔ IsTooDeep (keyset (with_key self.old key)) }
    {
        match self.find(&key) {
            Some(_) if self.weight > MAX_WEIGHT => Err(ValueFault::TooLarge),
            Some(_) => Ok(()),
            None => {
                let weight = self.weight.saturating_add(key.weight());
                if weight > MAX_WEIGHT {
                    return Err(ValueFault::TooLarge);
                }
                self.items.add_key(key)?;
                self.weight = weight;
                Ok(())
            }
        }
    }

    /// Puts a key at the end, where it isn't there yet, whatever it weighs: for a part of a value whose
    /// limits are tested as a whole. Drops it where it is there or there is no memory.
    #[tactic(auto, using(crate::proofs::KeyLaws::pushes, crate::proofs::KeyLaws::weighs))]
    pub fn put(&mut self, key: Key) -> Result<(), NoMemory>
        ensures ok { OnOk result (self.new ≡ with_key self.old key) }
        ensures unchanged { OnErr result (self.new ≡ self.old) }
    {
        if self.find(&key).is_some() {
            return Ok(());
        }
        let weight = self.weight.saturating_add(key.weight());
        self.items.add_key(key)?;
        self.weight = weight;
        Ok(())
    }

    /// The depth as a cell.
    pub fn depth(&self) -> u32
        ensures { result ≡ depth (keyset self.now) }
    {
        1
    }

    /// An equal keyset.
    pub(crate) fn copy(&self) -> Result<KeysetVal, NoMemory>
        ensures { IfOk result (λ k. k ≡ self.now) }
    {
        let items = self.items.copy()?;
        Ok(KeysetVal {
            items,
            weight: self.weight,
        })
    }
}

// What the other keys weigh, once one is gone.
fn weight_without(others: &[Key], all: u32, gone: &Key) -> u32
    requires { all ≡ capped (1 + (keys_weight others.now + key_weight gone.now)) }
    ensures { result ≡ capped (1 + keys_weight others.now) }
{
    if all == u32::MAX {
        keys_weight_of(others, 1)
    } else {
        all - gone.weight()
    }
}
