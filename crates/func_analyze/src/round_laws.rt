//! Laws of rounds, each the contract of a function that does nothing.

ghost use Rattle.func_analyze.specs.Dependencies.{ResultsDependOnNames};
ghost use Rattle.func_analyze.specs.Results.{ResultsMakeRound};
ghost use Rattle.func_analyze.specs.RoundLaws.{FactsNeverRise, LowerFactsLowerRound};

/// Under lower facts a round gives lower facts.
pub fn lower_facts_lower_round()
    ensures { LowerFactsLowerRound }
{}

/// Facts never rise from round to round, where all that the first round returns or writes are cells.
pub fn facts_never_rise()
    ensures { FactsNeverRise }
{}

/// What each body gives, joined over all bodies, is what a round gives.
pub fn results_make_round()
    ensures { ResultsMakeRound }
{}

/// What a body gives depends on the facts of its dependencies alone: those of the functions, methods
/// and properties that its codes name.
pub fn results_depend_on_names()
    ensures { ResultsDependOnNames }
{}
