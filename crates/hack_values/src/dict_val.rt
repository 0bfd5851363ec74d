ghost use Rattle.std.specs.Prelude.{◌≡◌, ◌+◌, ◌<◌, ◌↔◌, length, IsTrue, IsSome, IfSome, Some, true, slice_get};
ghost use Rattle.std.specs.Borrow.{sem, LendsIf};
ghost use Rattle.std.specs.List.{remove};
ghost use Rattle.std.specs.Map.{keys_of, values_of};
ghost use Rattle.std.specs.Option.{ForSome};
ghost use Rattle.hack_values.specs.contracts.cell.Cell.{the_row as cell_row};
ghost use Rattle.hack_values.specs.contracts.cell.DictVal.{the_row as dict_row};
ghost use Rattle.hack_values.specs.Keys.{capped, has_key, place, remove_entry, set_value};
ghost use Rattle.hack_values.specs.Known.{IsDictKnown};
ghost use Rattle.hack_values.specs.Val.{entry_weights, entry_depths};
ghost use Rattle.hack_values.specs.View.{val_of, item_of};

use crate::known::{Depth, Known};
use crate::{Cell, DictVal, Key};

impl DictVal {
    /// The entry at a place; None where the place isn't below the length.
    #[tactic(auto, using(crate::proofs::Rows::entries, crate::proofs::Rows::entry_get))]
    pub fn at(&self, at: usize) -> Option<(&Key, &Cell)>
        ensures variant { IsSome result ↔ (at < length self.now) }
        ensures value { IfSome result (λ e. slice_get self.now at ≡ Some (e.0.now, val_of e.1.now)) }
    {
        let keys = self.keys.as_slice();
        if at < keys.len() {
            Some((&keys[at], &self.vals[at]))
        } else {
            None
        }
    }

    /// Where the key stands; None where it isn't there.
    #[tactic(auto, using(crate::proofs::Rows::entries, crate::proofs::KeyLaws::places))]
    pub fn find(&self, key: &Key) -> Option<usize>
        ensures place { result ≡ place key.now (keys_of self.now) }
        ensures there { IsSome result ↔ (has_key key.now (keys_of self.now) ≡ true) }
    {
        self.keys.find(key)
    }

    /// The value at a place, for writing; None where the place isn't below the length.
    #[tactic(auto, using(crate::proofs::Rows::entries))]
    pub fn value_mut(&mut self, at: usize) -> Option<&mut Cell>
        ensures* writes_back { sem 𝓛 (LendsIf dict_row cell_row self.entry result (λ w. set_value self.old at (val_of w)) self.old) }
        ensures variant { IsSome result ↔ (at < length self.old) }
        ensures value { IfSome result (λ c. item_of (values_of self.old) at ≡ Some c.now) }
    {
        self.known = self.known_but(at);
        self.vals.get_mut(at)
    }

    // What is known of the other entries than the one at a place.
    pub(crate) fn known_but(&self, at: usize) -> Option<Known>
        ensures { ForSome result (λ known. (known.but ≡ Some at) × IsDictKnown self.now known) }
    {
        let known = self.known?;
        if known.but == Some(at) {
            return Some(known);
        }
        if at >= self.vals.len() {
            return None;
        }
        let weight = self.weight();
        if weight == u32::MAX {
            return None;
        }
        let keys = self.keys.as_slice();
        Some(Known {
            weight: weight - keys[at].weight() - self.vals[at].weight(),
            depth: self.depth_at_hand().without(self.vals[at].depth_at_hand()),
            but: Some(at),
        })
    }

    // What is known of the other entries, once the one at a place is gone.
    fn known_without(&self, at: usize) -> Option<Known>
        ensures { ForSome result (IsDictKnown (remove self.now at)) }
    {
        let known = self.known_but(at)?;
        Some(Known {
            weight: known.weight,
            depth: known.depth,
            but: None,
        })
    }

    /// Keeps its weight and depth, as after a write through `value_mut` of which they are known.
    pub fn know(&mut self, weight: u32, depth: u32)
        requires { (weight ≡ capped (1 + entry_weights self.old)) × (depth ≡ capped (1 + entry_depths self.old)) }
        ensures { self.new ≡ self.old }
    {
        self.known = Some(Known {
            weight,
            depth: Depth::exactly(depth),
            but: None,
        });
    }

    /// Takes the key out and closes up; false where it isn't there.
    #[tactic(auto, using(crate::proofs::Rows::entries, crate::proofs::Rows::entry_remove, crate::proofs::KeyLaws::removes))]
    pub fn remove(&mut self, key: &Key) -> bool
        ensures there { IsTrue result ↔ IsSome (place key.now (keys_of self.old)) }
        ensures rest { self.new ≡ remove_entry key.now self.old }
    {
        match self.find(key) {
            Some(at) => {
                let known = self.known_without(at);
                let _ = self.vals.remove(at);
                let _ = self.keys.take_at(at);
                self.known = known;
                true
            }
            None => false,
        }
    }
}
