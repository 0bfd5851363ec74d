ghost use Rattle.std.specs.Prelude.{◌≡◌, ◌<◌, ◌↔◌, ◌++◌, [], ◌∷◌, length, OnOk, OnErr, None, Err};
ghost use Rattle.std.specs.Map.{keys_of};
ghost use Rattle.std.specs.Option.{ForSome};
ghost use Rattle.hack_values.specs.Keys.{place, put_entry, set_value};
ghost use Rattle.hack_values.specs.Known.{IsDictKnown};
ghost use Rattle.hack_values.specs.Limits.{IsTooLarge, IsTooDeep};
ghost use Rattle.hack_values.specs.Val.{from_pairs};
ghost use Rattle.hack_values.specs.Val.Val.{dict};
ghost use Rattle.hack_values.specs.View.{val_of};

use crate::known::Known;
use crate::value_fault::{MAX_DEPTH, MAX_WEIGHT};
use crate::{Cell, DictVal, Key, NoMemory, ValueFault};
use std::mem;

impl DictVal {
    /// Puts a value under a key: a key that is there keeps its place, and a new one goes last.
    /// Drops both where they are refused.
    pub fn add_elem(&mut self, key: Key, value: Cell) -> Result<(), ValueFault>
        ensures ok { OnOk result (self.new ≡ put_entry self.old key (val_of value)) }
        ensures unchanged { OnErr result (self.new ≡ self.old) }
        ensures large { (result ≡ Err ValueFault.TooLarge) ↔ IsTooLarge (dict (from_pairs (put_entry self.old key (val_of value)))) }
        ensures deep { (result ≡ Err ValueFault.TooDeep) ↔ IsTooDeep (dict (from_pairs (put_entry self.old key (val_of value)))) }
    {
        match self.find(&key) {
            Some(at) => self.replace(at, value),
            None => self.push(key, value),
        }
    }

    #[tactic(auto, using(crate::proofs::Rows::entries, crate::proofs::Rows::entry_back, crate::specs::Val::rows))]
    fn replace(&mut self, at: usize, value: Cell) -> Result<(), ValueFault>
        requires { at < length self.old }
        ensures ok { OnOk result (self.new ≡ set_value self.old at (val_of value)) }
        ensures unchanged { OnErr result (self.new ≡ self.old) }
        ensures large { (result ≡ Err ValueFault.TooLarge) ↔ IsTooLarge (dict (from_pairs (set_value self.old at (val_of value)))) }
        ensures deep { (result ≡ Err ValueFault.TooDeep) ↔ IsTooDeep (dict (from_pairs (set_value self.old at (val_of value)))) }
    {
        self.known = self.known_but(at);
        let old = mem::replace(&mut self.vals[at], value);
        let weight = self.weight();
        if weight > MAX_WEIGHT {
            self.vals[at] = old;
            return Err(ValueFault::TooLarge);
        }
        let depth = self.depth_to_limit();
        if depth.at_most > MAX_DEPTH {
            self.vals[at] = old;
            return Err(ValueFault::TooDeep);
        }
        self.known = Some(Known {
            weight,
            depth,
            but: None,
        });
        Ok(())
    }

    #[tactic(auto, using(crate::proofs::Rows::entries, crate::proofs::Rows::entry_grows, crate::specs::Val::rows, crate::proofs::KeyLaws::pushes))]
    fn push(&mut self, key: Key, value: Cell) -> Result<(), ValueFault>
        requires { place key (keys_of self.old) ≡ None }
        ensures ok { OnOk result (self.new ≡ self.old ++ (key, val_of value) ∷ []) }
        ensures unchanged { OnErr result (self.new ≡ self.old) }
        ensures large { (result ≡ Err ValueFault.TooLarge) ↔ IsTooLarge (dict (from_pairs (self.old ++ (key, val_of value) ∷ []))) }
        ensures deep { (result ≡ Err ValueFault.TooDeep) ↔ IsTooDeep (dict (from_pairs (self.old ++ (key, val_of value) ∷ []))) }
    {
        let weight = self
            .weight()
            .saturating_add(key.weight())
            .saturating_add(value.weight());
        if weight > MAX_WEIGHT {
            return Err(ValueFault::TooLarge);
        }
        let depth = self.depth_with(&value);
        if depth.at_most > MAX_DEPTH {
            return Err(ValueFault::TooDeep);
        }
        let known = Known {
            weight,
            depth,
            but: None,
        };
        self.push_entry(key, value, Some(known))?;
        Ok(())
    }

    /// Puts a value under a key, whatever it weighs: for a part of a value whose limits are tested as
    /// a whole. Drops both where there is no memory.
    pub fn put(&mut self, key: Key, value: Cell) -> Result<(), NoMemory>
        ensures ok { OnOk result (self.new ≡ put_entry self.old key (val_of value)) }
        ensures unchanged { OnErr result (self.new ≡ self.old) }
    {
        match self.find(&key) {
            Some(at) => {
                self.set(at, value);
                Ok(())
            }
            None => {
                let known = self.known_with(&key, &value);
                self.push_entry(key, value, known)
            }
        }
    }

    // Puts another value at a place.
    fn set(&mut self, at: usize, value: Cell)
        requires { at < length self.old }
        ensures { self.new ≡ set_value self.old at (val_of value) }
    {
        if let Some(cell) = self.value_mut(at) {
            *cell = value;
        }
    }

    // What is known with one more entry.
    fn known_with(&self, key: &Key, value: &Cell) -> Option<Known>
        ensures { ForSome result (IsDictKnown (self.now ++ (key.now, val_of value.now) ∷ [])) }
    {
        let _ = self.known?;
        let with_key = self.weight().saturating_add(key.weight());
        Some(Known {
            weight: with_key.saturating_add(value.weight()),
            depth: self.depth_at_hand().with(value.depth_at_hand()),
            but: None,
        })
    }

    // Puts an entry at the end, with what is known of all.
    #[tactic(auto, using(crate::proofs::Rows::entries, crate::proofs::KeyLaws::pushes))]
    fn push_entry(&mut self, key: Key, value: Cell, known: Option<Known>) -> Result<(), NoMemory>
        requires absent { place key (keys_of self.old) ≡ None }
        requires known { ForSome known (IsDictKnown (self.old ++ (key, val_of value) ∷ [])) }
        ensures ok { OnOk result (self.new ≡ self.old ++ (key, val_of value) ∷ []) }
        ensures unchanged { OnErr result (self.new ≡ self.old) }
    {
        self.keys.add_key(key)?;
        let Ok(()) = self.vals.push(value) else {
            self.keys.pop();
            return Err(NoMemory);
        };
        self.known = known;
        Ok(())
    }
}
