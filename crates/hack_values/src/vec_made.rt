ghost use Rattle.std.specs.Prelude.{◌≡◌, ◌↔◌, IfOk, Err};
ghost use Rattle.hack_values.specs.Limits.{IsTooLarge, IsTooDeep};
ghost use Rattle.hack_values.specs.Val.{from_list};
ghost use Rattle.hack_values.specs.Val.Val.{vec};
ghost use Rattle.hack_values.specs.View.{vals_of};

use crate::known::{Depth, Known};
use crate::value_fault::{MAX_DEPTH, MAX_WEIGHT};
use crate::{Cell, ValueFault, VecVal};

impl VecVal {
    /// The vec of all these cells. It is weighed first.
    #[tactic(auto, using(crate::specs::Val::rows))]
    pub fn from_cells(cells: Vec<Cell>) -> Result<VecVal, ValueFault>
        ensures ok { IfOk result (λ list. list ≡ vals_of cells.items) }
        ensures large { (result ≡ Err ValueFault.TooLarge) ↔ IsTooLarge (vec (from_list (vals_of cells.items))) }
        ensures deep { (result ≡ Err ValueFault.TooDeep) ↔ IsTooDeep (vec (from_list (vals_of cells.items))) }
    {
        let list = VecVal {
            items: cells,
            known: None,
        };
        let weight = list.weight();
        if weight > MAX_WEIGHT {
            return Err(ValueFault::TooLarge);
        }
        let depth = list.depth();
        if depth > MAX_DEPTH {
            return Err(ValueFault::TooDeep);
        }
        Ok(VecVal {
            items: list.items,
            known: Some(Known {
                weight,
                depth: Depth::exactly(depth),
                but: None,
            }),
        })
    }
}
