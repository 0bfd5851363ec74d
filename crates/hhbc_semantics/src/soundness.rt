//! What may be known of the frames of a machine stays true of its runs: laws, each the contract of a
//! function that does nothing.

ghost use Rattle.hhbc_semantics.specs.Setting.{Setting};
ghost use Rattle.hhbc_semantics.specs.Soundness.{Analysis, CallsAreTold, ClosedFactsAreTrue, FactsStayTrue, RoundsStayTrue, StartsAreSound};
ghost use Rattle.hhbc_semantics.specs.Sample.{SampleIsTrue};
ghost use Rattle.hhbc_semantics.specs.Tested.{TestsOnlyStop};

/// An analysis of the runs of every repository, with natives that it may call.
///
/// The types of slots are one, with the flows of the abstract step, membership of types, and what
/// bodies return and properties hold as facts. The shapes of stacks are another, with edges as flows.
pub trait Analysed {
    /// What the codes do, what is known of frames, and how it flows.
    ghost analysis: { Setting → Analysis };
}

/// Facts that are true in a run stay true after a round under them, from each configuration in which
/// all frames lie in the states of the round's solution, and then they lie there throughout.
pub fn facts_stay_true<A: Analysed>()
    ensures { FactsStayTrue A.analysis }
{}

/// The facts after any number of rounds are true in every run, and in every run each frame, those
/// that wait for a call too, lies in the state of its position by each round from these facts.
pub fn rounds_stay_true<A: Analysed>()
    ensures { RoundsStayTrue A.analysis }
{}

/// A run starts soundly by each round: the world is as its facts say, and its frame lies in the state
/// of the position that it enters.
pub fn starts_are_sound<A: Analysed>()
    ensures { StartsAreSound A.analysis }
{}

/// Facts that are a round under themselves are true in every run from a sound configuration, and each
/// configuration is sound; nothing has to be known of the run before.
pub fn closed_facts_are_true<A: Analysed>()
    ensures { ClosedFactsAreTrue A.analysis }
{}

/// Each body that a frame of a sound configuration calls is one that the state of its position may
/// call under true facts.
pub fn calls_are_told<A: Analysed>()
    ensures { CallsAreTold A.analysis }
{}

/// An example: in each run of a small language, whose bodies call one another, write, and raise and
/// catch exceptions, its facts on ints and on output are true after any number of rounds.
pub fn sample_is_true()
    ensures { SampleIsTrue }
{}

/// A run whose assertions are tested goes as the one without tests, until it stops with the world
/// as it is.
pub fn tests_only_stop()
    ensures { TestsOnlyStop }
{}
