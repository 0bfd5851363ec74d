ghost use Rattle.std.specs.Prelude.{◌≡◌, not};
ghost use Rattle.hack_values.specs.Objects.{no_object, no_object_in, no_object_under};
ghost use Rattle.hack_values.specs.Val.{from_list, from_pairs};
ghost use Rattle.hack_values.specs.View.{val_of, vals_of};

use crate::{Cell, DictVal, VecVal};

impl Cell {
    /// Whether it is an object, or an object stands in it at any depth.
    #[cycle(objects)]
    pub fn holds_object(&self) -> bool
        ensures { result ≡ not (no_object (val_of self.now)) }
    {
        match self {
            Cell::Vec(cells) => cells.holds_object(),
            Cell::Dict(entries) => entries.holds_object(),
            Cell::Obj(_) => true,
            _ => false,
        }
    }
}

impl VecVal {
    #[cycle(objects)]
    fn holds_object(&self) -> bool
        ensures { result ≡ not (no_object_in (from_list self.now)) }
    {
        hold_object(self.items.as_slice())
    }
}

impl DictVal {
    #[cycle(objects)]
    #[tactic(auto, using(crate::proofs::ObjectRows::entry_objects))]
    fn holds_object(&self) -> bool
        ensures { result ≡ not (no_object_under (from_pairs self.now)) }
    {
        hold_object(self.vals.as_slice())
    }
}

/// Whether one of the cells is or holds an object.
#[cycle(objects)]
fn hold_object(cells: &[Cell]) -> bool
    ensures { result ≡ not (no_object_in (from_list (vals_of cells.now))) }
{
    for cell in cells {
        if cell.holds_object() {
            return true;
        }
    }
    false
}
