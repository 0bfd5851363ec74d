//! Laws of reading and writing along paths, each the contract of a function that does nothing.

ghost use Rattle.hhbc_semantics.specs.MemberLaws.{RefusedMembersChangeNothing};
ghost use Rattle.hhbc_semantics.specs.PathPhases.{ReadsFindWrites, WritesInPhases, WritesKeepObjects};

/// A write in one pass comes to the same as one that first reads all keys but the last, and then
/// begins at the last property that was passed, or at the base.
pub fn writes_in_phases()
    ensures { WritesInPhases }
{}

/// A write leaves every object in the heap, and of its class.
pub fn writes_keep_objects()
    ensures { WritesKeepObjects }
{}

/// Reading the base that a write leaves finds the value that was put, where nothing was appended.
pub fn reads_find_writes()
    ensures { ReadsFindWrites }
{}

/// A member sequence that raises makes its exception and changes no older object and no output; one
/// that ends the run changes nothing.
pub fn refused_members_change_nothing()
    ensures { RefusedMembersChangeNothing }
{}
