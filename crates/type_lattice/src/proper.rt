//! Whether a type is proper: one that a program can state.

ghost use Rattle.std.specs.Prelude.{◌≡◌, ◌↔◌, ◌==◌, IsTrue, nat_lt, length};
ghost use Rattle.std.specs.List.{list_all};
ghost use Rattle.type_lattice.specs.InRange as ranges;
ghost use Rattle.type_lattice.specs.Proper.{IsProper};

use crate::class_tree::ClassTree;
use crate::never::has_no_objects;
use crate::types::{HType, IntPart, Leaf, ObjPart, Short, StrPart};

fn are_zeros(bytes: &[u8]) -> bool
    ensures { result ≡ list_all (λ b. b == 0) bytes.now }
{
    bytes.iter().all(|byte| *byte == 0)
}

/// Whether the bytes past the length are 0, and the length is at most 32.
fn is_padded(len: u8, bytes: &[u8]) -> bool
    requires { length bytes.now ≡ 32 }
    ensures { result ≡ ranges.short_in_range (record { len = len; bytes = bytes.now }) }
{
    let len = len as usize;
    len <= 32 && are_zeros(&bytes[len..])
}

fn is_short_in_range(short: &Short) -> bool
    ensures { result ≡ ranges.short_in_range short.now }
{
    is_padded(short.len, &short.bytes)
}

fn is_str_in_range(part: &StrPart) -> bool
    ensures { result ≡ ranges.str_in_range part.now }
{
    match part {
        StrPart::One(short) => is_short_in_range(short),
        _ => true,
    }
}

fn is_leaf_in_range(leaf: &Leaf) -> bool
    ensures { result ≡ ranges.leaf_in_range leaf.now }
{
    is_int_in_range(leaf.int) && is_str_in_range(&leaf.str)
}

/// Whether the part's number is one of 64 bits, as that of each part is.
#[tactic(auto, using(crate::proofs::Ranges::int64_is))]
fn is_int_in_range(part: IntPart) -> bool
    ensures { result ≡ ranges.int_in_range part }
{
    match part {
        IntPart::One(number) => i64::MIN <= number,
        _ => true,
    }
}

/// Whether the leaf has no part but ints and strings.
pub(crate) fn has_keys_alone(leaf: &Leaf) -> bool
    ensures { result ≡ ranges.has_keys_alone leaf.now }
{
    !leaf.null
        && !leaf.no
        && !leaf.yes
        && has_no_objects(leaf.obj)
        && !leaf.vec
        && !leaf.dict
        && !leaf.keyset
}

fn is_key_in_range(leaf: &Leaf) -> bool
    ensures { result ≡ ranges.key_in_range leaf.now }
{
    is_leaf_in_range(leaf) && has_keys_alone(leaf)
}

fn is_vec_in_range(part: &Option<Leaf>) -> bool
    ensures { result ≡ ranges.where_there ranges.leaf_in_range part.now }
{
    match part {
        Some(leaf) => is_leaf_in_range(leaf),
        None => true,
    }
}

fn is_dict_in_range(part: &Option<(Leaf, Leaf)>) -> bool
    ensures { result ≡ ranges.where_there ranges.entry_in_range part.now }
{
    match part {
        Some((key, value)) => is_key_in_range(key) && is_leaf_in_range(value),
        None => true,
    }
}

fn is_keyset_in_range(part: &Option<Leaf>) -> bool
    ensures { result ≡ ranges.where_there ranges.key_in_range part.now }
{
    match part {
        Some(key) => is_key_in_range(key),
        None => true,
    }
}

fn is_in_range(t: &HType) -> bool
    ensures { result ≡ ranges.type_in_range t.now }
{
    is_int_in_range(t.int)
        && is_str_in_range(&t.str)
        && is_vec_in_range(&t.vec)
        && is_dict_in_range(&t.dict)
        && is_keyset_in_range(&t.keyset)
}

/// Whether the class that the part names is one of the tree.
fn has_its_class(part: ObjPart, tree: &ClassTree) -> bool
    ensures { result ≡ list_all (λ c. nat_lt c (length tree.now)) (ranges.obj_classes part) }
{
    match part {
        ObjPart::Exact(class) | ObjPart::Sub(class) => tree.has(class),
        _ => true,
    }
}

fn vec_has_its_class(part: &Option<Leaf>, tree: &ClassTree) -> bool
    ensures { result ≡ list_all (λ c. nat_lt c (length tree.now)) (ranges.vec_classes part.now) }
{
    match part {
        Some(leaf) => has_its_class(leaf.obj, tree),
        None => true,
    }
}

fn dict_has_its_class(part: &Option<(Leaf, Leaf)>, tree: &ClassTree) -> bool
    ensures { result ≡ list_all (λ c. nat_lt c (length tree.now)) (ranges.dict_classes part.now) }
{
    match part {
        Some((_, value)) => has_its_class(value.obj, tree),
        None => true,
    }
}

#[tactic(auto, using(crate::proofs::Ranges::all_of_three))]
fn has_its_classes(t: &HType, tree: &ClassTree) -> bool
    ensures { result ≡ list_all (λ c. nat_lt c (length tree.now)) (ranges.classes_of t.now) }
{
    has_its_class(t.obj, tree)
        && vec_has_its_class(&t.vec, tree)
        && dict_has_its_class(&t.dict, tree)
}

impl HType {
    /// Whether the type is proper: its strings are padded with zeros, keys are ints and strings alone, and its
    /// classes are those of the tree.
    #[tactic(auto, using(crate::proofs::Ranges::proper_is_tested))]
    pub fn is_proper(&self, tree: &ClassTree) -> bool
        ensures value { result ≡ ranges.is_proper (length tree.now) self.now }
        ensures meaning { IsTrue result ↔ IsProper tree.now self.now }
    {
        is_in_range(self) && has_its_classes(self, tree)
    }
}
