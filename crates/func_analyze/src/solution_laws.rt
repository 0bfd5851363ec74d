//! Laws of least solutions, each the contract of a function that does nothing.

ghost use Rattle.func_analyze.specs.SolutionLaws.{ClassesAreTransitive, LeastIsAlive, LeastIsByFlows, LeastOfFlows, LowerFactsLowerLeast};

/// Where facts make the states of a body flow alike, it has the same least solution under both.
pub fn least_is_by_flows()
    ensures { LeastIsByFlows }
{}

/// Under lower facts the least solution of a body is lower.
pub fn lower_facts_lower_least()
    ensures { LowerFactsLowerLeast }
{}

/// No state of a least solution has a type without members.
pub fn least_is_alive()
    ensures { LeastIsAlive }
{}

/// The least solution of a body is what a worklist over its flows gives.
pub fn least_of_flows()
    ensures { LeastOfFlows }
{}

/// What is below a class is below all that the class is below, in every tree.
pub fn classes_are_transitive()
    ensures { ClassesAreTransitive }
{}
