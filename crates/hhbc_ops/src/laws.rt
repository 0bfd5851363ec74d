//! Laws of the definitions, each the contract of a function that does nothing.

ghost use Rattle.hhbc_ops.specs.Laws.{NamesDiffer, RowsFit};

/// No two instructions have the same name.
pub fn names_differ()
    ensures { NamesDiffer }
{}

/// Each row says what the instruction does with a local, an iterator or a count that is its first operand.
pub fn rows_fit()
    ensures { RowsFit }
{}
