ghost use Rattle.std.specs.Prelude.{◌≡◌, ◌+◌, ◌<◌, ◌↔◌, ◌++◌, [], ◌∷◌, length, IsSome, IfSome, OnOk, OnErr, Some, Err, slice_set};
ghost use Rattle.std.specs.Borrow.{sem, LendsIf};
ghost use Rattle.std.specs.Option.{ForSome};
ghost use Rattle.hack_values.specs.contracts.cell.Cell.{the_row as cell_row};
ghost use Rattle.hack_values.specs.contracts.cell.VecVal.{the_row as vec_row};
ghost use Rattle.hack_values.specs.Keys.{capped};
ghost use Rattle.hack_values.specs.Known.{IsVecKnown};
ghost use Rattle.hack_values.specs.Limits.{IsTooLarge, IsTooDeep};
ghost use Rattle.hack_values.specs.Val.{from_list, weights, depths};
ghost use Rattle.hack_values.specs.Val.Val.{vec};
ghost use Rattle.hack_values.specs.View.{val_of, item_of};

use crate::known::{Depth, Known};
use crate::value_fault::{MAX_DEPTH, MAX_WEIGHT};
use crate::{Cell, NoMemory, ValueFault, VecVal};

impl VecVal {
    /// The cell at a place, for writing; None where the place isn't below the length.
    #[tactic(auto, using(crate::proofs::Rows::elements))]
    pub fn get_mut(&mut self, at: usize) -> Option<&mut Cell>
        ensures* writes_back { sem 𝓛 (LendsIf vec_row cell_row self.entry result (λ w. slice_set self.old at (val_of w)) self.old) }
        ensures variant { IsSome result ↔ (at < length self.old) }
        ensures value { IfSome result (λ c. item_of self.old at ≡ Some c.now) }
    {
        self.known = self.known_but(at);
        self.items.get_mut(at)
    }

    // What is known of the others than the one at a place.
    fn known_but(&self, at: usize) -> Option<Known>
        ensures { ForSome result (λ known. (known.but ≡ Some at) × IsVecKnown self.now known) }
    {
        let known = self.known?;
        if known.but == Some(at) {
            return Some(known);
        }
        if at >= self.items.len() {
            return None;
        }
        let weight = self.weight();
        if weight == u32::MAX {
            return None;
        }
        Some(Known {
            weight: weight - self.items[at].weight(),
            depth: self.depth_at_hand().without(self.items[at].depth_at_hand()),
            but: Some(at),
        })
    }

    // What is known with one more cell.
    fn known_with(&self, value: &Cell) -> Option<Known>
        ensures { ForSome result (IsVecKnown (self.now ++ val_of value.now ∷ [])) }
    {
        let _ = self.known?;
        Some(Known {
            weight: self.weight().saturating_add(value.weight()),
            depth: self.depth_at_hand().with(value.depth_at_hand()),
            but: None,
        })
    }

    /// Keeps its weight and depth, as after a write through `get_mut` of which they are known.
    pub fn know(&mut self, weight: u32, depth: u32)
        requires { (weight ≡ capped (1 + weights self.old)) × (depth ≡ capped (1 + depths self.old)) }
        ensures { self.new ≡ self.old }
    {
        self.known = Some(Known {
            weight,
            depth: Depth::exactly(depth),
            but: None,
        });
    }

    /// Puts a value at the end, whatever it weighs: for a part of a value whose limits are tested as a
    /// whole. Drops it where there is no memory.
    #[tactic(auto, using(crate::proofs::Rows::grows))]
    pub fn push(&mut self, value: Cell) -> Result<(), NoMemory>
        ensures ok { OnOk result (self.new ≡ self.old ++ val_of value ∷ []) }
        ensures unchanged { OnErr result (self.new ≡ self.old) }
    {
        let known = self.known_with(&value);
        self.items.push(value)?;
        self.known = known;
        Ok(())
    }

    /// Puts a value at the end, and drops it where it is refused.
    #[tactic(auto, using(crate::proofs::Rows::grows, crate::specs::Val::rows))]
    pub fn append(&mut self, value: Cell) -> Result<(), ValueFault>
        ensures ok { OnOk result (self.new ≡ self.old ++ val_of value ∷ []) }
        ensures unchanged { OnErr result (self.new ≡ self.old) }
        ensures large { (result ≡ Err ValueFault.TooLarge) ↔ IsTooLarge (vec (from_list (self.old ++ val_of value ∷ []))) }
        ensures deep { (result ≡ Err ValueFault.TooDeep) ↔ IsTooDeep (vec (from_list (self.old ++ val_of value ∷ []))) }
    {
        let weight = self.weight().saturating_add(value.weight());
        if weight > MAX_WEIGHT {
            return Err(ValueFault::TooLarge);
        }
        let depth = self.depth_with(&value);
        if depth.at_most > MAX_DEPTH {
            return Err(ValueFault::TooDeep);
        }
        self.items.push(value)?;
        self.known = Some(Known {
            weight,
            depth,
            but: None,
        });
        Ok(())
    }
}
