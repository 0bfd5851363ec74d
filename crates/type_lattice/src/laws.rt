//! Laws of the definitions, each the contract of a function that does nothing.

ghost use Rattle.std.specs.Prelude.{◌≡◌};
ghost use Rattle.type_lattice.specs.Laws.{ClassesAreOrdered, LeIsOrder, JoinIsLeastAbove, JoinIsOne, LeavesAreLikeTypes, ObjectsAreLikeTypes, MembersStay, PartsKeepMembers, LiteralIsLeast, LiteralIsProper, SinglesAreProper, KeepIsGreatestBelow, HeightIsBounded, DepthIsBounded, ProperIsTested, ConstraintIsTested};
ghost use Rattle.type_lattice.specs.Never.{NeverIsNever};
ghost use Rattle.type_lattice.specs.Types as types;
ghost use Rattle.type_lattice.specs.Whole.{WholeIsAboveCell};

use crate::types::{HType, Leaf};

/// The test of descent says whether some number of steps up lead from the one class to the other. The nearest
/// class of two is one that both descend from or are, and descends from or is each other such class; there is
/// none only where the two have none in common.
pub fn classes_are_ordered()
    ensures { ClassesAreOrdered }
{}

/// The order is one: reflexive, transitive, and two types below each other are equal. The type without members is
/// below all.
pub fn le_is_order()
    ensures { LeIsOrder }
{}

/// The join of two types is the least of all types that are above both, proper or not. It rises with both, and that
/// of proper types is proper.
pub fn join_is_least_above()
    ensures { JoinIsLeastAbove }
{}

/// Types have at most one join.
pub fn join_is_one()
    ensures { JoinIsOne }
{}

/// What stands in a container has an order, joins and a rank as types have, and the join of keys is one of keys.
pub fn leaves_are_like_types()
    ensures { LeavesAreLikeTypes }
{}

/// So have the objects of a type.
pub fn objects_are_like_types()
    ensures { ObjectsAreLikeTypes }
{}

/// A member of a type is a member of each type above it.
pub fn members_stay()
    ensures { MembersStay }
{}

/// What stands in a container, as a value or as a key, and an object stay in each part above the one that has them.
pub fn parts_keep_members()
    ensures { PartsKeepMembers }
{}

/// A literal is a member of its type, and that is below each proper type that has it as a member.
pub fn literal_is_least()
    ensures { LiteralIsLeast }
{}

/// The type of a literal is proper, where its number or its bytes are in range.
pub fn literal_is_proper()
    ensures { LiteralIsProper }
{}

/// The single types and leaves are proper.
pub fn singles_are_proper()
    ensures { SinglesAreProper }
{}

/// The constants are the types and leaves that they are named after.
pub fn constants_are_types()
    ensures no_member { HType.NEVER ≡ types.never }
    ensures not_there { HType.UNINIT ≡ types.uninit }
    ensures all_cells { HType.CELL ≡ types.cell }
    ensures every_cell { Leaf.CELL ≡ types.cell_leaf }
    ensures every_key { Leaf.KEY ≡ types.key_leaf }
    ensures nothing { Leaf.NEVER ≡ types.never_leaf }
{}

/// The test of proper types says whether a type is proper.
pub fn proper_is_tested()
    ensures { ProperIsTested }
{}

/// The test of constraints says whether a type is one.
pub fn constraint_is_tested()
    ensures { ConstraintIsTested }
{}

/// What a constraint keeps of a type is the greatest type below both. It rises with the type, and its members
/// are those of the type that pass the constraint.
pub fn keep_is_greatest_below()
    ensures { KeepIsGreatestBelow }
{}

/// Each strictly higher type has a higher rank, and no rank is above five times a bound on the depth of the
/// tree and 71. So no more types than that can follow one another, each strictly above the one before it.
pub fn height_is_bounded()
    ensures { HeightIsBounded }
{}

/// No class has more classes above it than there are classes.
pub fn depth_is_bounded()
    ensures { DepthIsBounded }
{}

/// The types that the type of all cells is below are those with each part whole, whatever the classes.
pub fn whole_is_above_cell()
    ensures { WholeIsAboveCell }
{}

/// The type without members is the only one that has no part.
pub fn never_is_never()
    ensures { NeverIsNever }
{}
