//! Constraints, and what they keep of a type.

ghost use Rattle.std.specs.Prelude.{◌≡◌, ◌↔◌, IsTrue};
ghost use Rattle.type_lattice.specs.InRange.{where_there};
ghost use Rattle.type_lattice.specs.Keep as kept;
ghost use Rattle.type_lattice.specs.Whole.{whole_leaf};

use crate::class_tree::ClassTree;
use crate::proper::has_keys_alone;
use crate::types::{HType, IntPart, Leaf, ObjPart, StrPart};

fn has_no_one_int(part: IntPart) -> bool
    ensures { result ≡ kept.no_one_int part }
{
    !matches!(part, IntPart::One(_))
}

fn has_no_one_str(part: StrPart) -> bool
    ensures { result ≡ kept.no_one_str part }
{
    !matches!(part, StrPart::One(_))
}

fn has_no_one_class(part: ObjPart) -> bool
    ensures { result ≡ kept.no_one_class part }
{
    !matches!(part, ObjPart::Exact(_))
}

/// Whether the two are the same.
fn agree(no: bool, yes: bool) -> bool
    ensures { result ≡ kept.agree no yes }
{
    no == yes
}

/// Whether the leaf holds every key and nothing else.
fn is_all_keys(leaf: &Leaf) -> bool
    ensures { result ≡ kept.is_all_keys leaf.now }
{
    has_keys_alone(leaf) && leaf.has_all_keys()
}

fn is_whole_vec(part: &Option<Leaf>) -> bool
    ensures { result ≡ where_there whole_leaf part.now }
{
    match part {
        Some(leaf) => leaf.is_whole(),
        None => true,
    }
}

fn is_whole_dict(part: &Option<(Leaf, Leaf)>) -> bool
    ensures { result ≡ where_there kept.is_all_entries part.now }
{
    match part {
        Some((key, value)) => is_all_keys(key) && value.is_whole(),
        None => true,
    }
}

fn is_whole_keyset(part: &Option<Leaf>) -> bool
    ensures { result ≡ where_there kept.is_all_keys part.now }
{
    match part {
        Some(key) => is_all_keys(key),
        None => true,
    }
}

impl HType {
    /// Whether the type is a constraint: whole kinds of cells, one or more.
    #[tactic(auto, using(crate::proofs::Constraints::constraint_is_tested))]
    pub fn is_constraint(&self) -> bool
        ensures value { result ≡ kept.is_constraint self.now }
        ensures meaning { IsTrue result ↔ kept.IsConstraint self.now }
    {
        !self.uninit
            && agree(self.no, self.yes)
            && has_no_one_int(self.int)
            && has_no_one_str(self.str)
            && has_no_one_class(self.obj)
            && is_whole_vec(&self.vec)
            && is_whole_dict(&self.dict)
            && is_whole_keyset(&self.keyset)
            && !self.is_never()
    }
}

/// The slots of the type that pass the constraint: the greatest type that is below both.
pub fn keep(a: &HType, constraint: &HType, tree: &ClassTree) -> HType
    requires { kept.IsConstraint constraint.now }
    ensures { result ≡ kept.keep tree.now a.now constraint.now }
{
    HType {
        uninit: a.uninit && constraint.uninit,
        null: a.null && constraint.null,
        no: a.no && constraint.no,
        yes: a.yes && constraint.yes,
        int: int_keep(a.int, constraint.int),
        str: str_keep(a.str, constraint.str),
        obj: obj_keep(a.obj, constraint.obj, tree),
        vec: part_keep(a.vec, constraint.vec),
        dict: part_keep(a.dict, constraint.dict),
        keyset: part_keep(a.keyset, constraint.keyset),
    }
}

fn int_keep(a: IntPart, constraint: IntPart) -> IntPart
    ensures { result ≡ kept.int_keep a constraint }
{
    match constraint {
        IntPart::No => IntPart::No,
        _ => a,
    }
}

fn str_keep(a: StrPart, constraint: StrPart) -> StrPart
    ensures { result ≡ kept.str_keep a constraint }
{
    match constraint {
        StrPart::No => StrPart::No,
        _ => a,
    }
}

fn obj_keep(a: ObjPart, constraint: ObjPart, tree: &ClassTree) -> ObjPart
    ensures { result ≡ kept.obj_keep tree.now a constraint }
{
    match constraint {
        ObjPart::No => ObjPart::No,
        ObjPart::Sub(class) => sub_keep(a, class, tree),
        _ => a,
    }
}

/// What the part has of a class and the classes below it.
fn sub_keep(a: ObjPart, class: u32, tree: &ClassTree) -> ObjPart
    ensures { result ≡ kept.sub_keep tree.now a class }
{
    match a {
        ObjPart::Any => ObjPart::Sub(class),
        ObjPart::Exact(c) | ObjPart::Sub(c) if tree.below(c, class) => a,
        ObjPart::Sub(c) if tree.below(class, c) => ObjPart::Sub(class),
        _ => ObjPart::No,
    }
}

fn part_keep<T: Copy>(a: Option<T>, constraint: Option<T>) -> Option<T>
    ensures { result ≡ kept.part_keep a constraint }
{
    match constraint {
        None => None,
        Some(_) => a,
    }
}
