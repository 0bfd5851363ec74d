ghost use Rattle.std.specs.Prelude.{◌≡◌, ◌<◌, ◌^◌, ◌↔◌, ◌++◌, [], ◌∷◌, length, IfOk, IfNone, OnOk, OnErr, IsSome, None, slice_get};
ghost use Rattle.std.specs.List.{remove};
ghost use Rattle.std.specs.Option.{option_to_list};
ghost use Rattle.hack_values.specs.Keys.{place};

use crate::key::{copy_keys, place_of, push_key, take_key};
use crate::{Key, NoMemory};
use indexmap::IndexSet;
use indexmap::set::IntoIter;
use std::alloc::Global;
use std::marker::Model;

/// Keys in order, each found by its hash. The table stands in a box of its own, so that a cell is
/// small, and takes no memory before the first key.
#[derive(Debug, Drop)]
pub(crate) struct KeyTable {
    alloc: Global,
    table: Option<Box<IndexSet<Key>>>,
}

impl Model for KeyTable {
    ghost use Rattle.std.specs.Prelude.{List};
    ghost use Rattle.std.specs.Coded.{coded_list};
    ghost use Rattle.hack_values.specs.declared.key.Key.{Key};
    ghost use Rattle.hack_values.specs.contracts.key.Key.{the_row};

    ghost Value = { List Key };

    ghost coded = { coded_list the_row.coded };

    ghost use Rattle.hack_values.specs.Table.{keys_in};

    ghost view = { λ a. keys_in a.table };
}

impl KeyTable {
    pub(crate) fn new(alloc: Global) -> KeyTable
        ensures { result ≡ [] }
    {
        KeyTable { alloc, table: None }
    }

    /// Without keys, with room for so many.
    pub(crate) fn with_room(alloc: Global, count: usize) -> Result<KeyTable, NoMemory>
        ensures { IfOk result (λ made. made ≡ []) }
    {
        if count == 0 {
            return Ok(KeyTable::new(alloc));
        }
        let keys = IndexSet::with_capacity(alloc, count)?;
        Ok(KeyTable {
            alloc,
            table: Some(Box::new(alloc, keys)?),
        })
    }

    pub(crate) fn as_slice(&self) -> &[Key]
        ensures keys { result.now ≡ self.now }
        ensures small { length self.now < 2 ^ 63 }
    {
        match &self.table {
            Some(keys) => keys.as_slice(),
            None => &[],
        }
    }

    pub(crate) fn len(&self) -> usize
        ensures count { result ≡ length self.now }
        ensures small { length self.now < 2 ^ 63 }
    {
        match &self.table {
            Some(keys) => keys.len(),
            None => 0,
        }
    }

    /// Where the key stands.
    pub(crate) fn find(&self, key: &Key) -> Option<usize>
        ensures { result ≡ place key.now self.now }
    {
        match &self.table {
            Some(keys) => place_of(keys, key),
            None => None,
        }
    }

    /// Adds a key that isn't there.
    pub(crate) fn add_key(&mut self, key: Key) -> Result<(), NoMemory>
        requires { place key self.old ≡ None }
        ensures ok { OnOk result (self.new ≡ self.old ++ key ∷ []) }
        ensures err { OnErr result (self.new ≡ self.old) }
    {
        match &mut self.table {
            Some(keys) => push_key(keys, key),
            None => {
                self.table = Some(first_key(self.alloc, key)?);
                Ok(())
            }
        }
    }

    /// Takes out the key at a place; those behind it close up.
    pub(crate) fn take_at(&mut self, at: usize) -> Option<Key>
        ensures taken { result ≡ slice_get self.old at }
        ensures rest { self.new ≡ remove self.old at }
        ensures unchanged { IfNone result (self.new ≡ self.old) }
    {
        match &mut self.table {
            Some(keys) => take_key(keys, at),
            None => None,
        }
    }

    /// Takes out the last key.
    pub(crate) fn pop(&mut self) -> Option<Key>
        ensures keys { self.old ≡ self.new ++ option_to_list result }
        ensures found { IsSome result ↔ (0 < length self.old) }
    {
        match &mut self.table {
            Some(keys) => keys.pop(),
            None => None,
        }
    }

    pub(crate) fn copy(&self) -> Result<KeyTable, NoMemory>
        ensures { IfOk result (λ copy. copy ≡ self.now) }
    {
        let table = match &self.table {
            Some(keys) => Some(Box::new(self.alloc, copy_keys(keys)?)?),
            None => None,
        };
        Ok(KeyTable {
            alloc: self.alloc,
            table,
        })
    }

    pub(crate) fn into_keys(self) -> IntoIter<Key>
        ensures { result ≡ self }
    {
        match self.table {
            Some(keys) => Box::into_inner(keys).into_iter(),
            None => IndexSet::new(self.alloc).into_iter(),
        }
    }
}

fn first_key(alloc: Global, key: Key) -> Result<Box<IndexSet<Key>>, NoMemory>
    ensures { IfOk result (λ keys. keys.value.keys ≡ key ∷ []) }
{
    let mut keys = IndexSet::new(alloc);
    push_key(&mut keys, key)?;
    Ok(Box::new(alloc, keys)?)
}
