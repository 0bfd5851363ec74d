ghost use Rattle.std.specs.Prelude.{◌≡◌, ◌&&◌};
ghost use Rattle.std.specs.List.{list_all};
ghost use Rattle.std.specs.Map.{keys_of, values_of};
ghost use Rattle.hack_values.specs.View.{cells_of};
ghost use Rattle.type_lattice.specs.Member as member;

use hack_values::{Cell, DictVal, Heap, Key, KeysetVal, Slot, VecVal};
use type_lattice::{ClassTree, HType, IntPart, Leaf, ObjPart, StrPart};

/// Whether the slot is of the type. Looks at each element and key of a container once, and not
/// into the containers among them, of which a type says nothing; so its time is that of the
/// elements, and of the way up from the class of each object. An object that isn't in the heap is
/// of no class.
pub fn is_member(slot: &Slot, t: &HType, heap: &Heap, tree: &ClassTree) -> bool
    ensures { result ≡ member.is_member tree.now heap.now slot.now t.now }
{
    match slot {
        Slot::Uninit => t.uninit,
        Slot::Cell(cell) => cell_in(cell, t, heap, tree),
    }
}

fn cell_in(cell: &Cell, t: &HType, heap: &Heap, tree: &ClassTree) -> bool
    ensures { result ≡ member.cell_in tree.now heap.now cell.now t.now }
{
    match cell {
        Cell::Null => t.null,
        Cell::Bool(false) => t.no,
        Cell::Bool(true) => t.yes,
        Cell::Int(number) => int_in(*number, t.int),
        Cell::Str(text) => str_in(text.bytes(), &t.str),
        Cell::Vec(cells) => vec_in(cells, &t.vec, heap, tree),
        Cell::Dict(entries) => dict_in(entries, &t.dict, heap, tree),
        Cell::Keyset(keys) => keyset_in(keys, &t.keyset),
        Cell::Obj(number) => obj_in(class_at(heap, *number), t.obj, tree),
    }
}

/// Whether a container whose leaf this is may hold the cell. A container in it is of its part, whatever it holds.
pub fn in_leaf(cell: &Cell, leaf: &Leaf, heap: &Heap, tree: &ClassTree) -> bool
    ensures { result ≡ member.in_leaf tree.now heap.now leaf.now cell.now }
{
    match cell {
        Cell::Null => leaf.null,
        Cell::Bool(false) => leaf.no,
        Cell::Bool(true) => leaf.yes,
        Cell::Int(number) => int_in(*number, leaf.int),
        Cell::Str(text) => str_in(text.bytes(), &leaf.str),
        Cell::Vec(_) => leaf.vec,
        Cell::Dict(_) => leaf.dict,
        Cell::Keyset(_) => leaf.keyset,
        Cell::Obj(number) => obj_in(class_at(heap, *number), leaf.obj, tree),
    }
}

/// Whether a dict or a keyset whose keys these are may hold the key.
pub fn key_in(key: &Key, leaf: &Leaf) -> bool
    ensures { result ≡ member.key_in leaf.now key.now }
{
    match key {
        Key::Int(number) => int_in(*number, leaf.int),
        Key::Str(text) => str_in(text.bytes(), &leaf.str),
    }
}

fn int_in(number: i64, part: IntPart) -> bool
    ensures { result ≡ member.int_in number part }
{
    match part {
        IntPart::No => false,
        IntPart::One(one) => number == one,
        IntPart::Any => true,
    }
}

fn str_in(bytes: &[u8], part: &StrPart) -> bool
    ensures { result ≡ member.str_in bytes.now part.now }
{
    match part {
        StrPart::No => false,
        StrPart::One(short) => bytes == short.as_bytes(),
        StrPart::Any => true,
    }
}

/// The class of an object, where the object is in the heap.
fn class_at(heap: &Heap, number: u32) -> Option<u32>
    ensures { result ≡ member.class_at heap.now number }
{
    match heap.get(number) {
        Some(object) => Some(object.class),
        None => None,
    }
}

/// Whether an object of the class is of the part. One that isn't in the heap has no class.
pub fn obj_in(class: Option<u32>, part: ObjPart, tree: &ClassTree) -> bool
    ensures { result ≡ member.obj_in tree.now class part }
{
    match (part, class) {
        (ObjPart::No, _) => false,
        (ObjPart::Any, _) => true,
        (_, None) => false,
        (ObjPart::Exact(exact), Some(class)) => class == exact,
        (ObjPart::Sub(upper), Some(class)) => tree.below(class, upper),
    }
}

fn vec_in(cells: &VecVal, part: &Option<Leaf>, heap: &Heap, tree: &ClassTree) -> bool
    ensures { result ≡ member.vec_in tree.now heap.now part.now (cells_of cells.now) }
{
    match part {
        None => false,
        Some(leaf) => cells_in(cells.as_slice(), leaf, heap, tree),
    }
}

#[tactic(auto, using(crate::proofs::Places::all_at))]
fn cells_in(cells: &[Cell], leaf: &Leaf, heap: &Heap, tree: &ClassTree) -> bool
    ensures { result ≡ list_all (member.in_leaf tree.now heap.now leaf.now) cells.now }
{
    for cell in cells {
        if !in_leaf(cell, leaf, heap, tree) {
            return false;
        }
    }
    true
}

fn dict_in(entries: &DictVal, part: &Option<(Leaf, Leaf)>, heap: &Heap, tree: &ClassTree) -> bool
    ensures { result ≡ member.dict_in tree.now heap.now part.now (keys_of entries.now) (cells_of (values_of entries.now)) }
{
    match part {
        None => false,
        Some(leaves) => entries_in(entries, leaves, heap, tree),
    }
}

fn entry_in(key: &Key, value: &Cell, leaves: &(Leaf, Leaf), heap: &Heap, tree: &ClassTree) -> bool
    ensures { result ≡ (member.key_in leaves.now.0 key.now && member.in_leaf tree.now heap.now leaves.now.1 value.now) }
{
    key_in(key, &leaves.0) && in_leaf(value, &leaves.1, heap, tree)
}

fn entries_in(entries: &DictVal, leaves: &(Leaf, Leaf), heap: &Heap, tree: &ClassTree) -> bool
    ensures { result ≡ (list_all (member.key_in leaves.now.0) (keys_of entries.now) && list_all (member.in_leaf tree.now heap.now leaves.now.1) (cells_of (values_of entries.now))) }
{
    for at in 0..entries.len() {
        if let Some((key, value)) = entries.at(at) {
            if !entry_in(key, value, leaves, heap, tree) {
                return false;
            }
        }
    }
    true
}

fn keyset_in(elements: &KeysetVal, part: &Option<Leaf>) -> bool
    ensures { result ≡ member.keyset_in part.now elements.now }
{
    match part {
        None => false,
        Some(leaf) => keys_in(elements, leaf),
    }
}

fn keys_in(elements: &KeysetVal, leaf: &Leaf) -> bool
    ensures { result ≡ list_all (member.key_in leaf.now) elements.now }
{
    for at in 0..elements.len() {
        if let Some(key) = elements.at(at) {
            if !key_in(key, leaf) {
                return false;
            }
        }
    }
    true
}
