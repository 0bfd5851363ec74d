//! Laws of rounds over a queue, each the contract of a function that does nothing.

ghost use Rattle.round_pool.specs.Queue.{Bodies, QueueGivesRound, EmptyQueueStays, RoundsGiveOne};
ghost use Rattle.round_pool.specs.ResultRounds.{NamesAreDependencies, ResultRoundsAreFacts};

/// Bodies, what each gives under facts, and the facts on which that depends.
///
/// Of the analysis of bodies this is met by least solutions: what a body gives is the join of the
/// types that its reached positions return, and what they write to properties; its dependencies are
/// the names of the functions, methods and properties of its codes, since equal flows have equal
/// least solutions.
pub trait Dependents {
    /// The bodies, and what they give.
    ghost bodies: { Bodies };
}

/// Where what a body gives depends on the facts of its dependencies alone, a round over the queue of
/// bodies with a dependency that changed gives what a round over all bodies gives, and its results
/// can be kept for the next round.
pub fn queue_gives_round<A: Dependents>()
    ensures { QueueGivesRound A.bodies }
{}

/// Where the queue is empty, the facts stay as they are after every later round.
pub fn empty_queue_stays<A: Dependents>()
    ensures { EmptyQueueStays A.bodies }
{}

/// There is one list of facts after each number of rounds, where each body gives one result.
pub fn rounds_give_one<A: Dependents>()
    ensures { RoundsGiveOne A.bodies }
{}

/// Rounds by the results of all bodies of a repository, of any of which some may be kept from the
/// round before, give the facts after so many rounds, whatever names the facts.
pub fn result_rounds_are_facts<N>()
    ensures { ResultRoundsAreFacts N }
{}

/// The names of functions, methods and properties in its codes are what a body depends on.
pub fn names_are_dependencies()
    ensures { NamesAreDependencies }
{}
