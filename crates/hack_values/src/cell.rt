ghost use Rattle.std.specs.Prelude.{◌≡◌, ◌<◌, ◌^◌, [], true, length, IfOk};
ghost use Rattle.std.specs.Map.{keys_of};
ghost use Rattle.hack_values.specs.Keys.{distinct};
ghost use Rattle.hack_values.specs.View.{cells_of};

use crate::key_table::KeyTable;
use crate::known::Known;
use crate::{KeysetVal, NoMemory, Text};
use std::alloc::Global;
use std::marker::Model;

/// A value. `Obj` holds the object's number in the heap.
///
/// To drop, copy, compare, weigh or show a value goes as deep as the value does, and no deeper: within
/// the limit of depth, 64, that takes a bounded part of the machine's stack.
#[cycle(cell)]
#[derive(Debug, Drop)]
pub enum Cell {
    Null,
    Bool(bool),
    Int(i64),
    Str(Text),
    Vec(VecVal),
    Dict(DictVal),
    Keyset(KeysetVal),
    Obj(u32),
}

/// A list of cells.
#[cycle(cell)]
#[derive(Debug, Drop)]
pub struct VecVal {
    pub(crate) items: Vec<Cell>,
    pub(crate) known: Option<Known>,
}

impl Model for VecVal {
    ghost use Rattle.std.specs.Prelude.{List, map};
    ghost use Rattle.std.specs.Option.{ForSome};
    ghost use Rattle.std.specs.Coded.{coded_list};
    ghost use Rattle.hack_values.specs.Val.{Val};
    ghost use Rattle.hack_values.specs.Code.{coded_val};

    ghost Value = { List Val };

    ghost coded = { coded_list coded_val };

    ghost use Rattle.hack_values.specs.View.{val_of};

    ghost view = { λ a. map val_of a.items.items };

    ghost use Rattle.hack_values.specs.Known.{IsVecKnown};

    ghost invariant = { λ a. ForSome a.known (IsVecKnown (map val_of a.items.items)) };

    ghost use Rattle.hack_values.specs.Val.{depths};

    ghost size = { depths };

    ghost use Rattle.std.proofs.Common.{arith};
    ghost use Rattle.hack_values.specs.Falls.{most_le};

    ghost size_decreases = { λ a h. omega (arith, most_le a.items.items) };
}

/// Cells under distinct keys, in order.
#[cycle(cell)]
#[derive(Debug, Drop)]
pub struct DictVal {
    pub(crate) keys: KeyTable,
    pub(crate) vals: Vec<Cell>,
    pub(crate) known: Option<Known>,
}

impl Model for DictVal {
    ghost use Rattle.std.specs.Prelude.{List, map, length, ◌≡◌, true};
    ghost use Rattle.std.specs.Option.{ForSome};
    ghost use Rattle.std.specs.List.{zip};
    ghost use Rattle.std.specs.Coded.{coded_list, coded×};
    ghost use Rattle.hack_values.specs.declared.key.Key.{Key};
    ghost use Rattle.hack_values.specs.Val.{Val};
    ghost use Rattle.hack_values.specs.Code.{coded_key, coded_val};

    ghost Value = { List (Key × Val) };

    ghost coded = { coded_list (coded× coded_key coded_val) };

    ghost use Rattle.hack_values.specs.View.{val_of};
    ghost use Rattle.hack_values.specs.Keys.{distinct};
    ghost use Rattle.hack_values.specs.Known.{IsDictKnown};

    ghost view = { λ a. zip a.keys (map val_of a.vals.items) };

    ghost invariant = { λ a. (length a.vals.items ≡ length a.keys) × (distinct a.keys ≡ true) × ForSome a.known (IsDictKnown (zip a.keys (map val_of a.vals.items))) };

    ghost use Rattle.hack_values.specs.Val.{entry_depths};

    ghost size = { entry_depths };

    ghost use Rattle.std.proofs.Common.{arith};
    ghost use Rattle.hack_values.specs.Falls.{most_le-entries};

    ghost size_decreases = { λ a h. omega (arith, most_le-entries a.keys a.vals.items h.0) };
}

/// What a local or a place of the stack holds.
#[derive(Debug, Drop)]
pub enum Slot {
    Uninit,
    Cell(Cell),
}

#[cycle(copy)]
fn copy_cells(alloc: Global, cells: &[Cell]) -> Result<Vec<Cell>, NoMemory>
    ensures { IfOk result (λ copies. copies.items ≡ cells.now) }
{
    let mut copies = Vec::with_capacity(alloc, cells.len())?;
    for cell in cells {
        copies.push(cell.copy(alloc)?)?;
    }
    Ok(copies)
}

impl Cell {
    /// An equal cell.
    #[cycle(copy)]
    pub fn copy(&self, alloc: Global) -> Result<Cell, NoMemory>
        ensures { IfOk result (λ c. c ≡ self.now) }
    {
        match self {
            Cell::Null => Ok(Cell::Null),
            Cell::Bool(flag) => Ok(Cell::Bool(*flag)),
            Cell::Int(number) => Ok(Cell::Int(*number)),
            Cell::Str(text) => Ok(Cell::Str(text.copy(alloc)?)),
            Cell::Vec(cells) => Ok(Cell::Vec(cells.copy(alloc)?)),
            Cell::Dict(entries) => Ok(Cell::Dict(entries.copy(alloc)?)),
            Cell::Keyset(keys) => Ok(Cell::Keyset(keys.copy()?)),
            Cell::Obj(number) => Ok(Cell::Obj(*number)),
        }
    }
}

impl VecVal {
    /// The empty vec.
    pub fn new(alloc: Global) -> VecVal
        ensures { result ≡ [] }
    {
        VecVal {
            items: Vec::new(alloc),
            known: Some(Known::empty()),
        }
    }

    /// How many cells it has.
    #[tactic(auto, using(crate::proofs::Rows::elements))]
    pub fn len(&self) -> usize
        ensures count { result ≡ length self.now }
        ensures small { length self.now < 2 ^ 63 }
    {
        self.items.len()
    }

    /// All its cells.
    #[tactic(auto, using(crate::specs::View::cells))]
    pub fn as_slice(&self) -> &[Cell]
        ensures { result.now ≡ cells_of self.now }
    {
        self.items.as_slice()
    }

    #[cycle(copy)]
    fn copy(&self, alloc: Global) -> Result<VecVal, NoMemory>
        ensures { IfOk result (λ v. v ≡ self.now) }
    {
        let items = copy_cells(alloc, self.items.as_slice())?;
        Ok(VecVal {
            items,
            known: self.known,
        })
    }
}

impl DictVal {
    /// The empty dict.
    pub fn new(alloc: Global) -> DictVal
        ensures { result ≡ [] }
    {
        DictVal {
            keys: KeyTable::new(alloc),
            vals: Vec::new(alloc),
            known: Some(Known::empty()),
        }
    }

    /// How many entries it has.
    #[tactic(auto, using(crate::proofs::Rows::entries))]
    pub fn len(&self) -> usize
        ensures count { result ≡ length self.now }
        ensures small { length self.now < 2 ^ 63 }
        ensures distinct { distinct (keys_of self.now) ≡ true }
    {
        self.keys.len()
    }

    #[cycle(copy)]
    #[tactic(auto, using(crate::proofs::Rows::entries))]
    fn copy(&self, alloc: Global) -> Result<DictVal, NoMemory>
        ensures { IfOk result (λ d. d ≡ self.now) }
    {
        let keys = self.keys.copy()?;
        let vals = copy_cells(alloc, self.vals.as_slice())?;
        Ok(DictVal {
            keys,
            vals,
            known: self.known,
        })
    }
}
