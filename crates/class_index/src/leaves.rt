//! Between types and what stands in containers, and tests of keys.

ghost use Rattle.std.specs.Prelude.{◌≡◌, not};
ghost use Rattle.type_lattice.specs.Never as never;
ghost use Rattle.class_index.specs.Leaves as leaves;

use type_lattice::{HType, IntPart, Leaf, StrPart};

fn only_if<T: Copy>(flag: bool, item: T) -> Option<T>
    ensures { result ≡ leaves.only_if flag item }
{
    if flag { Some(item) } else { None }
}

/// The type of what stands in a container: its own containers hold anything.
pub(crate) fn type_of(leaf: &Leaf) -> HType
    ensures { result ≡ leaves.type_of leaf.now }
{
    HType {
        uninit: false,
        null: leaf.null,
        no: leaf.no,
        yes: leaf.yes,
        int: leaf.int,
        str: leaf.str,
        obj: leaf.obj,
        vec: only_if(leaf.vec, Leaf::CELL),
        dict: only_if(leaf.dict, (Leaf::KEY, Leaf::CELL)),
        keyset: only_if(leaf.keyset, Leaf::KEY),
    }
}

fn is_there<T: Copy>(part: &Option<T>) -> bool
    ensures { result ≡ not (never.is_absent part.now) }
{
    part.is_some()
}

/// How the cells of a type stand in a container.
pub(crate) fn leaf_of(t: &HType) -> Leaf
    ensures { result ≡ leaves.leaf_of t.now }
{
    Leaf {
        null: t.null,
        no: t.no,
        yes: t.yes,
        int: t.int,
        str: t.str,
        obj: t.obj,
        vec: is_there(&t.vec),
        dict: is_there(&t.dict),
        keyset: is_there(&t.keyset),
    }
}

/// How the ints and strings of a type stand there as keys.
pub(crate) fn key_of(t: &HType) -> Leaf
    ensures { result ≡ leaves.key_of t.now }
{
    Leaf {
        int: t.int,
        str: t.str,
        ..Leaf::NEVER
    }
}

pub(crate) fn has_int(t: &HType) -> bool
    ensures { result ≡ leaves.has_int t.now }
{
    !matches!(t.int, IntPart::No)
}

fn has_str(t: &HType) -> bool
    ensures { result ≡ not (never.no_strs t.now.str) }
{
    !matches!(t.str, StrPart::No)
}

/// Whether some cell of the type may be a key.
pub(crate) fn has_key(t: &HType) -> bool
    ensures { result ≡ leaves.has_key t.now }
{
    has_int(t) || has_str(t)
}
