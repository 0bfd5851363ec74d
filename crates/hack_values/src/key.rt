ghost use Rattle.std.specs.Prelude.{◌≡◌, ◌+◌, ◌↔◌, ◌++◌, [], ◌∷◌, length, IfOk, OnOk, OnErr, IsTrue, IfNone, None, slice_get};
ghost use Rattle.std.specs.List.{remove};
ghost use Rattle.hack_values.specs.Keys.{key_eq, key_weight, keys_weight, capped, place};

use crate::{NoMemory, Text};
use indexmap::IndexSet;
use std::alloc::{AllocError, Global};

/// A key of a dict, or an element of a keyset.
#[derive(Debug, Drop, PartialEq, Eq, Hash)]
pub enum Key {
    Int(i64),
    Str(Text),
}

impl Key {
    /// An equal key.
    pub fn copy(&self, alloc: Global) -> Result<Key, NoMemory>
        ensures { IfOk result (λ k. k ≡ self.now) }
    {
        match self {
            Key::Int(number) => Ok(Key::Int(*number)),
            Key::Str(text) => Ok(Key::Str(text.copy(alloc)?)),
        }
    }

    /// What the key adds to a container's weight.
    pub fn weight(&self) -> u32
        ensures { result ≡ capped (key_weight self.now) }
    {
        match self {
            Key::Int(_) => 1,
            Key::Str(text) => text_weight(text),
        }
    }
}

impl Clone for Key {
    ghost is_clone = { λ k copy. copy ≡ k };

    fn clone(&self) -> Result<Key, AllocError> {
        match self {
            Key::Int(number) => Ok(Key::Int(*number)),
            Key::Str(text) => Ok(Key::Str(text.clone()?)),
        }
    }
}

/// The weight of a text: 1 more than its bytes.
pub(crate) fn text_weight(text: &Text) -> u32
    ensures { result ≡ capped (1 + length text.now) }
{
    let len = text.bytes().len();
    if len < 0xffff_ffff {
        len as u32 + 1
    } else {
        u32::MAX
    }
}

pub(crate) fn same_text(a: &Text, b: &Text) -> bool
    ensures { IsTrue result ↔ (a.now ≡ b.now) }
{
    a.bytes() == b.bytes()
}

#[tactic(auto, using(crate::proofs::KeyLaws::keys))]
pub(crate) fn same_key(a: &Key, b: &Key) -> bool
    ensures value { result ≡ key_eq a.now b.now }
    ensures same { IsTrue result ↔ (a.now ≡ b.now) }
{
    match (a, b) {
        (Key::Int(m), Key::Int(n)) => *m == *n,
        (Key::Str(s), Key::Str(t)) => same_text(s, t),
        _ => false,
    }
}

/// Where the key stands.
pub(crate) fn place_of(keys: &IndexSet<Key>, key: &Key) -> Option<usize>
    ensures { result ≡ place key.now keys.now.keys }
{
    keys.get_index_of(key)
}

#[tactic(auto, using(std::proofs::lemmas::Grind::elements))]
pub(crate) fn copy_keys(keys: &IndexSet<Key>) -> Result<IndexSet<Key>, NoMemory>
    ensures { IfOk result (λ copies. copies.keys ≡ keys.now.keys) }
{
    Ok(keys.clone()?)
}

/// Takes out the key at a place; those behind it close up.
pub(crate) fn take_key(keys: &mut IndexSet<Key>, at: usize) -> Option<Key>
    ensures taken { result ≡ slice_get keys.old.keys at }
    ensures rest { keys.new.keys ≡ remove keys.old.keys at }
    ensures unchanged { IfNone result (keys.new.keys ≡ keys.old.keys) }
{
    keys.shift_remove_index(at)
}

/// Adds a key that isn't there.
pub(crate) fn push_key(keys: &mut IndexSet<Key>, key: Key) -> Result<(), NoMemory>
    requires { place key keys.old.keys ≡ None }
    ensures ok { OnOk result (keys.new.keys ≡ keys.old.keys ++ key ∷ []) }
    ensures err { OnErr result (keys.new.keys ≡ keys.old.keys) }
{
    keys.insert(key)?;
    Ok(())
}

/// `from` and what the keys add to it.
pub(crate) fn keys_weight_of(keys: &[Key], from: u32) -> u32
    ensures { result ≡ capped (from + keys_weight keys.now) }
{
    let mut sum = from;
    for key in keys {
        sum = sum.saturating_add(key.weight());
    }
    sum
}
