//! The join of types.

ghost use Rattle.std.specs.Prelude.{◌≡◌};
ghost use Rattle.type_lattice.specs.Join as joined;

use crate::class_tree::ClassTree;
use crate::types::{HType, IntPart, Leaf, ObjPart, StrPart};

/// The least type that both are below, whatever type is asked: it is below each that both are below,
/// proper or not.
pub fn join(a: &HType, b: &HType, tree: &ClassTree) -> HType
    ensures { result ≡ joined.join tree.now a.now b.now }
{
    HType {
        uninit: a.uninit || b.uninit,
        null: a.null || b.null,
        no: a.no || b.no,
        yes: a.yes || b.yes,
        int: int_join(a.int, b.int),
        str: str_join(a.str, b.str),
        obj: obj_join(a.obj, b.obj, tree),
        vec: part_join(&a.vec, &b.vec, tree),
        dict: entry_join(&a.dict, &b.dict, tree),
        keyset: part_join(&a.keyset, &b.keyset, tree),
    }
}

/// The least leaf that both are below.
pub fn leaf_join(a: &Leaf, b: &Leaf, tree: &ClassTree) -> Leaf
    ensures { result ≡ joined.leaf_join tree.now a.now b.now }
{
    Leaf {
        null: a.null || b.null,
        no: a.no || b.no,
        yes: a.yes || b.yes,
        int: int_join(a.int, b.int),
        str: str_join(a.str, b.str),
        obj: obj_join(a.obj, b.obj, tree),
        vec: a.vec || b.vec,
        dict: a.dict || b.dict,
        keyset: a.keyset || b.keyset,
    }
}

fn part_join(a: &Option<Leaf>, b: &Option<Leaf>, tree: &ClassTree) -> Option<Leaf>
    ensures { result ≡ joined.part_join (joined.leaf_join tree.now) a.now b.now }
{
    match (a, b) {
        (None, other) | (other, None) => *other,
        (Some(a), Some(b)) => Some(leaf_join(a, b, tree)),
    }
}

fn entry_join(
    a: &Option<(Leaf, Leaf)>,
    b: &Option<(Leaf, Leaf)>,
    tree: &ClassTree,
) -> Option<(Leaf, Leaf)>
    ensures { result ≡ joined.part_join (joined.entry_join tree.now) a.now b.now }
{
    match (a, b) {
        (None, other) | (other, None) => *other,
        (Some((key, value)), Some((other_key, other_value))) => {
            Some((
                leaf_join(key, other_key, tree),
                leaf_join(value, other_value, tree),
            ))
        }
    }
}

fn int_join(a: IntPart, b: IntPart) -> IntPart
    ensures { result ≡ joined.int_join a b }
{
    match (a, b) {
        (IntPart::No, other) | (other, IntPart::No) => other,
        (IntPart::One(i), IntPart::One(j)) if i == j => a,
        _ => IntPart::Any,
    }
}

fn str_join(a: StrPart, b: StrPart) -> StrPart
    ensures { result ≡ joined.str_join a b }
{
    match (a, b) {
        (StrPart::No, other) | (other, StrPart::No) => other,
        (StrPart::One(s), StrPart::One(t)) if s == t => a,
        _ => StrPart::Any,
    }
}

/// The least part of objects that both are below. Two different classes give the nearest class that both are or
/// descend from, with those below it.
pub fn obj_join(a: ObjPart, b: ObjPart, tree: &ClassTree) -> ObjPart
    ensures { result ≡ joined.obj_join tree.now a b }
{
    match (a, b) {
        (ObjPart::No, other) | (other, ObjPart::No) => other,
        (ObjPart::Any, _) | (_, ObjPart::Any) => ObjPart::Any,
        (ObjPart::Exact(c), ObjPart::Exact(d)) if c == d => a,
        (ObjPart::Exact(c) | ObjPart::Sub(c), ObjPart::Exact(d) | ObjPart::Sub(d)) => {
            sub_or_any(tree.nearest(c, d))
        }
    }
}

/// A class and those below it, or all objects where there is no class.
fn sub_or_any(class: Option<u32>) -> ObjPart
    ensures { result ≡ joined.sub_or_any class }
{
    match class {
        Some(class) => ObjPart::Sub(class),
        None => ObjPart::Any,
    }
}
