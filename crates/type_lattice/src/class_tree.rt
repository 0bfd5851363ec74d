//! The tree of classes.

ghost use Rattle.std.specs.Prelude.{◌≡◌, true, false, ◌<◌, ◌+◌, ◌^◌, IsTrue, IfSome, length, None, nat_lt, ◌⊎◌, ◌↔◌};
ghost use Rattle.std.specs.List.{list_all};
ghost use Rattle.type_lattice.specs.Classes.{Descends, HasStray, HasCycle, Forest, parent_of, chain, below, nearest};
ghost use Rattle.type_lattice.specs.Walks.{ends, inside, AllEnded, SomeUnended};

use hack_values::Seq;
use std::marker::Model;

/// The classes, each with its parent where it has one. A class is named by its place.
#[derive(Drop)]
pub struct ClassTree {
    parents: Seq<Option<u32>>,
}

impl Model for ClassTree {
    ghost use Rattle.std.specs.Prelude.{List, Option, ℕ};
    ghost use Rattle.type_lattice.specs.Classes.{Forest};

    ghost Value = { List (Option ℕ) };

    ghost view = { λ s. s.parents };

    ghost invariant = { λ s. Forest s.parents };
}

/// The parent of a class.
fn parent_in(parents: &[Option<u32>], class: u32) -> Option<u32>
    ensures { result ≡ parent_of parents.now class }
{
    match parents.get(class as usize) {
        Some(parent) => *parent,
        None => None,
    }
}

/// Whether the way up from the class ends.
#[tactic(auto, using(crate::proofs::Cycles::ends_step, crate::proofs::Cycles::ends_root))]
fn is_ended(parents: &[Option<u32>], class: u32) -> bool
    ensures { result ≡ ends (length parents.now) parents.now class }
{
    let mut at = class;
    for _ in 0..parents.len() {
        match parent_in(parents, at) {
            None => return true,
            Some(parent) => at = parent,
        }
    }
    parent_in(parents, at).is_none()
}

/// Whether each parent is a class.
fn are_inside(parents: &[Option<u32>]) -> bool
    ensures { result ≡ list_all (inside (length parents.now)) parents.now }
{
    let count = parents.len();
    parents.iter().all(|parent| match parent {
        None => true,
        Some(parent) => (*parent as usize) < count,
    })
}

/// Whether the way up from each class ends.
fn are_ended(parents: &[Option<u32>]) -> bool
    requires { length parents.now < 2 ^ 32 }
    ensures yes { result ≡ true → AllEnded parents.now (length parents.now) }
    ensures no { result ≡ false → SomeUnended parents.now }
{
    for class in 0..parents.len() {
        if !is_ended(parents, class as u32) {
            return false;
        }
    }
    true
}

/// Whether a is b or descends from it.
#[tactic(auto, using(crate::proofs::Chains::below_here, crate::proofs::Chains::below_root, crate::proofs::Chains::below_up, crate::proofs::Chains::chain_shorter))]
fn is_below(parents: &[Option<u32>], a: u32, b: u32) -> bool
    requires { Forest parents.now }
    ensures { result ≡ below parents.now a b }
{
    let mut at = a;
    loop {
        if at == b {
            return true;
        }
        match parent_in(parents, at) {
            None => return false,
            Some(parent) => at = parent,
        }
    }
}

/// How many classes are above the class.
#[tactic(auto, using(crate::proofs::Chains::chain_root, crate::proofs::Chains::chain_up, crate::proofs::Chains::chain_length))]
fn depth_in(parents: &[Option<u32>], class: u32) -> usize
    requires { Forest parents.now }
    ensures { result + 1 ≡ length (chain parents.now class) }
{
    let mut at = class;
    let mut depth = 0;
    while let Some(parent) = parent_in(parents, at) {
        at = parent;
        depth += 1;
    }
    depth
}

/// The nearest class that both are or descend from. Goes up from the deeper of the two until they meet.
#[tactic(auto, using(crate::proofs::Nearest::nearest_same, crate::proofs::Nearest::nearest_step, crate::proofs::Nearest::nearest_end, crate::proofs::Nearest::nearest_other_step, crate::proofs::Nearest::nearest_other_end, crate::proofs::Nearest::chain_one_shorter))]
fn nearest_in(parents: &[Option<u32>], a: u32, b: u32) -> Option<u32>
    requires { Forest parents.now }
    ensures { result ≡ nearest parents.now a b }
{
    let (mut at, mut other) = (a, b);
    let (mut depth, mut other_depth) = (depth_in(parents, a), depth_in(parents, b));
    'walk: while at != other {
        if depth < other_depth {
            match parent_in(parents, other) {
                None => return None,
                Some(parent) => other = parent,
            }
            other_depth -= 1;
        } else {
            match parent_in(parents, at) {
                None => return None,
                Some(parent) => at = parent,
            }
            depth -= 1;
        }
    }
    Some(at)
}

impl ClassTree {
    /// The tree of these parents; None where one of them is out of range or a class descends from itself.
    /// It takes no memory: from each class it goes up, so its time is the sum of the ways up.
    pub fn new(parents: Seq<Option<u32>>) -> Option<ClassTree>
        requires { length parents < 2 ^ 32 }
        ensures none { result ≡ None → HasStray parents ⊎ HasCycle parents }
        ensures some { IfSome result (λ tree. tree ≡ parents) }
        ensures forest { IfSome result (λ tree. Forest parents) }
    {
        if !are_inside(parents.as_slice()) {
            return None;
        }
        if !are_ended(parents.as_slice()) {
            return None;
        }
        Some(ClassTree { parents })
    }

    /// Each parent is a class of the tree, and no class descends from itself.
    pub fn is_forest(&self)
        ensures { Forest self.now }
    {
        let _ = self.parents.as_slice();
    }

    /// Whether the class is one of the tree.
    pub(crate) fn has(&self, class: u32) -> bool
        ensures { result ≡ nat_lt class (length self.now) }
    {
        (class as usize) < self.parents.as_slice().len()
    }

    /// Whether a is b or descends from b.
    #[tactic(auto, using(crate::proofs::Descent::descent, crate::proofs::Descent::ascent))]
    pub fn below(&self, a: u32, b: u32) -> bool
        ensures value { result ≡ below self.now a b }
        ensures meaning { IsTrue result ↔ Descends self.now a b }
    {
        is_below(self.parents.as_slice(), a, b)
    }

    /// The nearest class that both are or descend from.
    pub(crate) fn nearest(&self, a: u32, b: u32) -> Option<u32>
        ensures { result ≡ nearest self.now a b }
    {
        nearest_in(self.parents.as_slice(), a, b)
    }
}
