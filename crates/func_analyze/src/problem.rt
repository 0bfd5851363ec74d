//! What flows between the positions of a body, as a worklist sees it.

ghost use Rattle.std.specs.Prelude.{◌≡◌, ℕ, ◌<◌, ◌≤◌, ◌↔◌, List, Contains, IfOk, IsTrue};
ghost use Rattle.func_analyze.specs.Problem.{FlowsBelow};

use hack_values::NoMemory;
use std::alloc::Global;

/// Flows of states between positions. A state may be put only where it fits: with the locals of the
/// body, a stack as high as the shape of the position, and proper types that all have members.
pub trait Problem {
    type State: Drop;

    /// How many positions there are.
    ghost positions: { Self → ℕ };

    /// The state that enters at position 0.
    ghost start: { Self → Self.State };

    /// The flows of a state at a position.
    ghost flows: { Self → ℕ → Self.State → List (ℕ × Self.State) };

    /// The order of states.
    ghost below: { Self → Self.State → Self.State → Type 0 };

    /// The states that may stand at a position.
    ghost fits: { Self → ℕ → Self.State → Type 0 };

    /// How high a state stands.
    ghost rank: { Self → Self.State → ℕ };

    /// How high a state may stand.
    ghost top: { Self → ℕ };

    /// How many positions there are.
    fn positions(&self) -> usize
        ensures { result ≡ positions self.now };

    /// The state that enters at position 0.
    fn entry(&self, alloc: Global) -> Result<Self::State, NoMemory>
        ensures { IfOk result (λ s. s ≡ start self.now) };

    /// The flows of a state at a position.
    fn flow(
        &self,
        alloc: Global,
        position: usize,
        state: &Self::State,
    ) -> Result<Vec<(usize, Self::State)>, NoMemory>
        requires { fits self.now position state.now }
        ensures { IfOk result (λ to. to.items ≡ flows self.now position state.now) };

    /// Whether a state at a position is below another one.
    fn is_below(&self, position: usize, lower: &Self::State, upper: &Self::State) -> bool
        requires lower { fits self.now position lower.now }
        requires upper { fits self.now position upper.now }
        ensures { IsTrue result ↔ below self.now lower.now upper.now };

    /// The join of two states at a position.
    fn join(
        &self,
        alloc: Global,
        position: usize,
        left: &Self::State,
        right: &Self::State,
    ) -> Result<Self::State, NoMemory>
        requires left { fits self.now position left.now }
        requires right { fits self.now position right.now }
        ensures fits { IfOk result (λ s. fits self.now position s) }
        ensures above_left { IfOk result (λ s. below self.now left.now s) }
        ensures above_right { IfOk result (λ s. below self.now right.now s) }
        ensures least { IfOk result (λ s. (u : Self.State) → below self.now left.now u → below self.now right.now u → below self.now s u) };

    /// The order of states is reflexive, as that of types is.
    ghost reflexive: { (p : Self) (s : Self.State) → below p s s };

    /// The order of states is transitive, as that of types is where that of classes is.
    ghost transitive: { (p : Self) (s t u : Self.State) → below p s t → below p t u → below p s u };

    /// Lower states have lower flows: the law that flow is monotone, for states whose types have members.
    ghost monotone: { (p : Self) (at : ℕ) (s u : Self.State) → fits p at s → below p s u → FlowsBelow (below p) (flows p at s) (flows p at u) };

    /// The state that enters fits, by the shape of position 0.
    ghost starts: { (p : Self) → fits p 0 (start p) };

    /// Only at a position of the body can a state stand.
    ghost inside: { (p : Self) (at : ℕ) (s : Self.State) → fits p at s → at < positions p };

    /// Flows fit where they go, by the shapes of a verified body and since no flow has a type without members.
    ghost leads: { (p : Self) (at : ℕ) (s : Self.State) → fits p at s → (q : ℕ) (t : Self.State) → Contains (flows p at s) (q, t) → fits p q t };

    /// A strictly higher state has a higher rank, as a strictly higher type has, summed over locals, stack and iterators.
    ghost higher: { (p : Self) (at : ℕ) (s t : Self.State) → fits p at s → fits p at t → below p s t → (below p t s → ⊥) → rank p s < rank p t };

    /// Ranks are bounded, as those of types are, by the classes and the slots that there are.
    ghost bounded: { (p : Self) (at : ℕ) (s : Self.State) → fits p at s → rank p s ≤ top p };
}
