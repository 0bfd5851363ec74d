//! The ancestors of a class among parents that may go in circles.

ghost use Rattle.std.specs.Prelude.{◌≡◌, None, Some, true, false, nat_le};
ghost use Rattle.type_lattice.specs.Classes.{parent_of, chain, chain_on, chain_within, has};
ghost use Rattle.hhbc_repo.specs.LinkFaults.{above, different};
ghost use Rattle.hhbc_repo.specs.declared.class_chains.ChainFault.TheVariants as faults;

use crate::limits::MOST_ON_CHAIN;

/// What is wrong with the ancestors of a class.
#[derive(Clone, Copy, PartialEq, Eq)]
pub(crate) enum ChainFault {
    /// The class is one of them.
    Cycle,
    /// There are too many.
    TooDeep,
}

/// The parent of a class.
pub(crate) fn parent_in(parents: &[Option<u32>], class: u32) -> Option<u32>
    ensures { result ≡ parent_of parents.now class }
{
    match parents.get(class as usize) {
        Some(parent) => *parent,
        None => None,
    }
}

/// Whether the other is the class or is met within so many steps up from it.
#[tactic(auto, using(crate::proofs::ChainLaws::met_here, crate::proofs::ChainLaws::met_root, crate::proofs::ChainLaws::met_up))]
fn is_met(parents: &[Option<u32>], class: u32, steps: usize, other: u32) -> bool
    ensures { result ≡ has other (chain_within steps parents.now class) }
{
    let mut at = class;
    for _ in 0..steps {
        if at == other {
            return true;
        }
        match parent_in(parents, at) {
            None => return false,
            Some(parent) => at = parent,
        }
    }
    at == other
}

/// Whether the class is met again within so many steps up from its parent.
fn is_met_again(parents: &[Option<u32>], class: u32, steps: usize) -> bool
    ensures { result ≡ has class (chain_on (chain_within steps parents.now) (parent_of parents.now class)) }
{
    match parent_in(parents, class) {
        None => false,
        Some(parent) => is_met(parents, parent, steps, class),
    }
}

/// Whether the class and its ancestors are no more classes than may be. It goes up until a class is met again.
fn is_shallow(parents: &[Option<u32>], class: u32) -> bool
    ensures { result ≡ nat_le (different (chain parents.now class)) 64 }
{
    if parents.len() < MOST_ON_CHAIN {
        return true;
    }
    let mut at = class;
    for steps in 0..MOST_ON_CHAIN {
        match parent_in(parents, at) {
            None => return true,
            Some(parent) if is_met(parents, class, steps, parent) => return true,
            Some(parent) => at = parent,
        }
    }
    false
}

/// What is wrong with a class and its ancestors, and nothing where all is well: then the time that it takes doesn't grow
/// with the count of classes. A class that is its own ancestor is told of as that, however many there are.
pub(crate) fn chain_fault(parents: &[Option<u32>], class: u32) -> Option<ChainFault>
    ensures none { result ≡ None → (has class (above parents.now (parent_of parents.now class)) ≡ false) × (nat_le (different (chain parents.now class)) 64 ≡ true) }
    ensures cycle { result ≡ Some faults.Cycle → has class (above parents.now (parent_of parents.now class)) ≡ true }
    ensures deep { result ≡ Some faults.TooDeep → (has class (above parents.now (parent_of parents.now class)) ≡ false) × (nat_le (different (chain parents.now class)) 64 ≡ false) }
{
    if is_shallow(parents, class) {
        // at most so many are there, so the class is met again within as many steps, or never
        let steps = parents.len().min(MOST_ON_CHAIN);
        if is_met_again(parents, class, steps) {
            Some(ChainFault::Cycle)
        } else {
            None
        }
    } else if is_met_again(parents, class, parents.len()) {
        Some(ChainFault::Cycle)
    } else {
        Some(ChainFault::TooDeep)
    }
}
