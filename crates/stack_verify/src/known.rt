//! Shapes while a walk works them out.

ghost use Rattle.std.specs.Prelude.{◌≡◌, ◌≤◌, ◌&&◌, [], ◌∷◌, ◌++◌, false, replicate, length, IfOk};
ghost use Rattle.hhbc_repo.specs.Shapes.{agree, caught_shape, same_live};
ghost use Rattle.hhbc_ops.specs.declared.words.Flavour.TheVariants.{C};
ghost use Rattle.stack_verify.specs.Kept.{bits_of, kept};

use crate::shape::Shape;
use hack_values::{NoMemory, Seq};
use hhbc_ops::Flavour;
use std::alloc::Global;
use std::marker::Model;

/// The flavours of the stack, the topmost first, and of each iterator whether it is live.
#[derive(Drop)]
pub(crate) struct Known {
    stack: Vec<Flavour>,
    live: Vec<bool>,
}

impl Model for Known {
    ghost use Rattle.hhbc_repo.specs.Shapes.{Shape};
    ghost use Rattle.std.specs.Coded.{codes};

    ghost Value = { Shape };

    ghost coded = { Prim.hlevel (codes) };

    ghost view = { λ k. record { stack = k.stack.items; live = k.live.items } };
}

/// A list with the same items.
pub(crate) fn copied<T: Copy>(alloc: Global, items: &[T]) -> Result<Vec<T>, NoMemory>
    ensures { IfOk result (λ all. all.items ≡ items.now) }
{
    let mut all = Vec::new(alloc);
    for item in items {
        all.push(*item)?;
    }
    Ok(all)
}

/// So many flags, none of them up.
pub(crate) fn all_false(alloc: Global, count: usize) -> Result<Vec<bool>, NoMemory>
    ensures { IfOk result (λ all. all.items ≡ replicate count false) }
{
    let mut all = Vec::new(alloc);
    for _ in 0..count {
        all.push(false)?;
    }
    Ok(all)
}

/// The flags as bits, the first as the lowest.
fn bits(live: &[bool]) -> u32
    requires { length live.now ≤ 32 }
    ensures { result ≡ bits_of live.now }
{
    let mut bits = 0;
    for at in (0..live.len()).rev() {
        bits = bits * 2 + u32::from(live[at]);
    }
    bits
}

/// The same flavours, as a list that is kept.
fn slots(alloc: Global, stack: &[Flavour]) -> Result<Seq<Flavour>, NoMemory>
    ensures { IfOk result (λ all. all ≡ stack.now) }
{
    let mut all = Seq::new(alloc);
    for flavour in stack {
        all.push(*flavour)?;
    }
    Ok(all)
}

/// Whether the flavours agree as far as both lists go.
pub(crate) fn agrees(these: &[Flavour], those: &[Flavour]) -> bool
    ensures { result ≡ agree these.now those.now }
{
    for (this, that) in these.iter().zip(those) {
        if this != that {
            return false;
        }
    }
    true
}

/// Whether the same iterators are live.
pub(crate) fn is_same_live(these: &[bool], those: &[bool]) -> bool
    ensures { result ≡ same_live these.now those.now }
{
    these == those
}

impl Known {
    /// This stack, and these live iterators.
    pub(crate) fn new(alloc: Global, stack: &[Flavour], live: &[bool]) -> Result<Known, NoMemory>
        ensures { IfOk result (λ known. known ≡ record { stack = stack.now; live = live.now }) }
    {
        Ok(Known {
            stack: copied(alloc, stack)?,
            live: copied(alloc, live)?,
        })
    }

    /// A stack without slots, and so many iterators, none of them live.
    pub(crate) fn empty(alloc: Global, iters: u8) -> Result<Known, NoMemory>
        ensures { IfOk result (λ known. known ≡ record { stack = []; live = replicate iters false }) }
    {
        Ok(Known {
            stack: Vec::new(alloc),
            live: all_false(alloc, iters as usize)?,
        })
    }

    pub(crate) fn copy(&self, alloc: Global) -> Result<Known, NoMemory>
        ensures { IfOk result (λ known. known ≡ self.now) }
    {
        Known::new(alloc, self.stack.as_slice(), self.live.as_slice())
    }

    /// What a catch body begins with: the exception alone on the stack.
    pub(crate) fn caught(&self, alloc: Global) -> Result<Known, NoMemory>
        ensures { IfOk result (λ known. known ≡ caught_shape self.now) }
    {
        Known::new(alloc, &[Flavour::C], self.live.as_slice())
    }

    /// The flavours of the stack, the topmost first.
    pub(crate) fn stack(&self) -> &[Flavour]
        ensures { result.now ≡ self.now.stack }
    {
        self.stack.as_slice()
    }

    /// Of each iterator whether it is live.
    pub(crate) fn live(&self) -> &[bool]
        ensures { result.now ≡ self.now.live }
    {
        self.live.as_slice()
    }

    /// The shape as it is kept.
    pub(crate) fn shape(&self, alloc: Global) -> Result<Shape, NoMemory>
        requires { length self.now.live ≤ 32 }
        ensures { IfOk result (λ shape. shape ≡ kept self.now) }
    {
        Ok(Shape {
            slots: slots(alloc, self.stack.as_slice())?,
            live: bits(self.live.as_slice()),
        })
    }
}
