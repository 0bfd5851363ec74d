//! Parts of objects.

ghost use Rattle.std.specs.Prelude.{◌≡◌};
ghost use Rattle.type_lattice.specs.Join as joined;

use type_lattice::{ClassTree, ObjPart, obj_join};

/// The least part that has the objects of both.
pub fn join_class(a: ObjPart, b: ObjPart, tree: &ClassTree) -> ObjPart
    ensures { result ≡ joined.obj_join tree.now a b }
{
    obj_join(a, b, tree)
}
