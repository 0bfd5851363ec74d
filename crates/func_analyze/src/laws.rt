//! Laws of the definitions, each the contract of a function that does nothing.

ghost use Rattle.func_analyze.specs.Laws.{AnnotatedHasSpelling, AnnotatedIsFaithful, AnnotatedIsUnique, BareChainAnnotates, ChainAnnotates, ChainIsLeast, FactsAreTrue, SecondIsFaithful, SecondIsUnique};
ghost use Rattle.func_analyze.specs.TypeAnalysis.{FramesLie};

/// The states along a body without jumps, each made from the one before it, are its least solution.
pub fn chain_is_least()
    ensures { ChainIsLeast }
{}

/// What these states return and assert is the annotated repository, after any number of rounds from 1, where the
/// ints are of 64 bits.
pub fn chain_annotates()
    ensures { ChainAnnotates }
{}

/// Every repository of the codes that the flow has rows for, annotated after any number of rounds,
/// runs as before with its assertions tested, and all its claims are true in every run; where no run of it is stuck, no run of the
/// annotated one is.
pub fn annotated_is_faithful()
    ensures { AnnotatedIsFaithful }
{}

/// A repository of the first form, whose ints are of 64 bits, has one annotated repository after any
/// number of rounds from 1.
pub fn annotated_is_unique()
    ensures { AnnotatedIsUnique }
{}

/// The facts after any number of rounds are true in every run of every repository of the codes that
/// the flow has rows for, whether its assertions are tested or not.
pub fn facts_are_true()
    ensures { FactsAreTrue }
{}

/// In every state of every run each frame, those that wait for a call too, lies in the state that
/// the least solution has at its position, under the facts after any number of rounds, where the
/// flow has rows for all codes.
pub fn frames_lie()
    ensures { FramesLie }
{}

/// What the states along the codes return and assert is the annotated repository of one of the
/// second form, whose own claims don't count and whose ints are of 64 bits, after any number of rounds
/// from 1.
pub fn bare_chain_annotates()
    ensures { BareChainAnnotates }
{}

/// A repository of the second form that keeps to its shapes, annotated after any number of rounds
/// from 1, runs as before with its assertions tested; all its claims are true in every run, and no
/// run of either is stuck.
pub fn second_is_faithful()
    ensures { SecondIsFaithful }
{}

/// A repository of the second form, whose ints are of 64 bits, has one annotated repository after any
/// number of rounds from 1.
pub fn second_is_unique()
    ensures { SecondIsUnique }
{}

/// The annotated repository of the second form has a spelling where the repository has one.
pub fn annotated_has_spelling()
    ensures { AnnotatedHasSpelling }
{}
