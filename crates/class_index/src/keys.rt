//! Keys of paths, by type.

use hack_values::Text;
use type_lattice::HType;

/// A key of a path, with the type of the cell that it is read from. `Nullsafe` reads a property of Null as Null, and
/// `Append` writes behind the last element.
#[derive(Debug, Drop)]
pub enum TypeKey {
    Elem(HType),
    Prop(HType),
    PropName(Text),
    Nullsafe(Text),
    Append,
}
