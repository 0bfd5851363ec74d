//! The order of types.

ghost use Rattle.std.specs.Prelude.{◌↔◌, IsTrue};
ghost use Rattle.type_lattice.specs.Order.{Le, LeafLe, PartLe, EntryLe, IntLe, StrLe, ObjLe, FlagLe};

use crate::class_tree::ClassTree;
use crate::types::{HType, IntPart, Leaf, ObjPart, StrPart};

/// Whether every slot of the one type is of the other too, part by part.
pub fn le(a: &HType, b: &HType, tree: &ClassTree) -> bool
    ensures { IsTrue result ↔ Le tree.now a.now b.now }
{
    flag_le(a.uninit, b.uninit)
        && flag_le(a.null, b.null)
        && flag_le(a.no, b.no)
        && flag_le(a.yes, b.yes)
        && int_le(a.int, b.int)
        && str_le(a.str, b.str)
        && obj_le(a.obj, b.obj, tree)
        && part_le(&a.vec, &b.vec, tree)
        && entry_le(&a.dict, &b.dict, tree)
        && part_le(&a.keyset, &b.keyset, tree)
}

/// Whether all that one leaf holds the other holds too, part by part.
pub fn leaf_le(a: &Leaf, b: &Leaf, tree: &ClassTree) -> bool
    ensures { IsTrue result ↔ LeafLe tree.now a.now b.now }
{
    flag_le(a.null, b.null)
        && flag_le(a.no, b.no)
        && flag_le(a.yes, b.yes)
        && int_le(a.int, b.int)
        && str_le(a.str, b.str)
        && obj_le(a.obj, b.obj, tree)
        && flag_le(a.vec, b.vec)
        && flag_le(a.dict, b.dict)
        && flag_le(a.keyset, b.keyset)
}

fn part_le(a: &Option<Leaf>, b: &Option<Leaf>, tree: &ClassTree) -> bool
    ensures { IsTrue result ↔ PartLe (LeafLe tree.now) a.now b.now }
{
    match (a, b) {
        (None, _) => true,
        (Some(a), Some(b)) => leaf_le(a, b, tree),
        _ => false,
    }
}

fn entry_le(a: &Option<(Leaf, Leaf)>, b: &Option<(Leaf, Leaf)>, tree: &ClassTree) -> bool
    ensures { IsTrue result ↔ PartLe (EntryLe tree.now) a.now b.now }
{
    match (a, b) {
        (None, _) => true,
        (Some((key, value)), Some((upper_key, upper_value))) => {
            leaf_le(key, upper_key, tree) && leaf_le(value, upper_value, tree)
        }
        _ => false,
    }
}

fn flag_le(a: bool, b: bool) -> bool
    ensures { IsTrue result ↔ FlagLe a b }
{
    !a || b
}

fn int_le(a: IntPart, b: IntPart) -> bool
    ensures { IsTrue result ↔ IntLe a b }
{
    match (a, b) {
        (IntPart::No, _) => true,
        (IntPart::One(i), IntPart::One(j)) => i == j,
        (_, IntPart::Any) => true,
        _ => false,
    }
}

fn str_le(a: StrPart, b: StrPart) -> bool
    ensures { IsTrue result ↔ StrLe a b }
{
    match (a, b) {
        (StrPart::No, _) => true,
        (StrPart::One(s), StrPart::One(t)) => s == t,
        (_, StrPart::Any) => true,
        _ => false,
    }
}

/// Whether the objects of one part are of the other too.
pub fn obj_le(a: ObjPart, b: ObjPart, tree: &ClassTree) -> bool
    ensures { IsTrue result ↔ ObjLe tree.now a b }
{
    match (a, b) {
        (ObjPart::No, _) => true,
        (ObjPart::Exact(c), ObjPart::Exact(d)) => c == d,
        (ObjPart::Exact(c), ObjPart::Sub(d)) => tree.below(c, d),
        (ObjPart::Sub(c), ObjPart::Sub(d)) => tree.below(c, d),
        (_, ObjPart::Any) => true,
        _ => false,
    }
}
