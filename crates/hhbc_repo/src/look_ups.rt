//! What classes have by name, their ancestors' included.

ghost use Rattle.std.specs.Prelude.{◌≡◌, ◌++◌};
ghost use Rattle.type_lattice.specs.Classes.{Forest, parent_of};
ghost use Rattle.hhbc_repo.specs.Bodies.{built_in_tree};
ghost use Rattle.hhbc_repo.specs.LookUps.{inherited, parents_of_classes};

use crate::members::Members;
use crate::repo::Class;

/// The parent of a class. The built-in classes descend from Exception, which is the first of them.
#[tactic(auto, using(crate::proofs::Inherited::built_in_parent, crate::proofs::Inherited::declared_parent))]
pub(crate) fn parent_in(classes: &[Class], class: u32) -> Option<u32>
    ensures { result ≡ parent_of (built_in_tree ++ parents_of_classes classes.now) class }
{
    match class {
        0 => None,
        1..=5 => Some(0),
        declared => match classes.get(declared as usize - 6) {
            None => None,
            Some(class) => class.parent,
        },
    }
}

/// What the class declares by that name, else what its nearest ancestor does that declares any.
#[tactic(auto, using(crate::proofs::Inherited::inherited_here, crate::proofs::Inherited::inherited_root))]
pub(crate) fn find_member(
    members: &Members,
    classes: &[Class],
    class: u32,
    name: &[u8],
) -> Option<u32>
    requires { Forest (built_in_tree ++ parents_of_classes classes.now) }
    ensures { result ≡ inherited members.now.first members.now.names (built_in_tree ++ parents_of_classes classes.now) class name.now }
{
    let mut at = class;
    loop {
        if let Some(number) = members.number(at, name) {
            return Some(number);
        }
        match parent_in(classes, at) {
            None => return None,
            Some(parent) => at = parent,
        }
    }
}
