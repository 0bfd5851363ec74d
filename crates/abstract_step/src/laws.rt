//! Laws of the definitions, each the contract of a function that does nothing.

ghost use Rattle.abstract_step.specs.Laws.{CodeFitsRow, FlowIsMonotone};

/// Lower states without a type that has no members, and lower facts, have lower flows.
pub fn flow_is_monotone()
    ensures { FlowIsMonotone }
{}

/// From a frame whose slots are of the types of a state, what one of the codes of constants and locals
/// does is in its row.
pub fn code_fits_row()
    ensures { CodeFitsRow }
{}
