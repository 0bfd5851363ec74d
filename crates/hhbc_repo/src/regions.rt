//! The regions of a body.

ghost use Rattle.std.specs.Prelude.{◌≡◌, ◌<◌, ◌≤◌, ◌+◌, ◌^◌, [], ◌∷◌, List, length, drop, OnOk, IfOk};
ghost use Rattle.std.specs.List.{flat_map};
ghost use Rattle.hhbc_repo.specs.declared.parts.ItemParts.{ItemParts};
ghost use Rattle.hhbc_repo.specs.LinkFaults.{position_in};
ghost use Rattle.hhbc_repo.specs.Resolved.{regions_from};
ghost use Rattle.hhbc_repo.specs.RegionWalks.{Seen, level};

use crate::body::Region;
use crate::nesting::count_positions;
use crate::parts::ItemParts;
use crate::stack::Stack;
use hack_values::{NoMemory, Seq};
use std::alloc::Global;

/// Where the catch body of an open try body begins, and where it ends.
#[derive(Clone, Copy)]
struct Level {
    mid: u32,
    last: u32,
}

/// A walk from the last item to the first.
#[derive(Drop)]
struct Walk {
    /// How many positions there are.
    end: u32,
    /// How many positions stand before the items that were seen.
    here: u32,
    /// The levels that the items seen end, the innermost on top. Others are open to the end.
    levels: Stack<Level>,
    /// The regions of the items seen.
    regions: Stack<Region>,
}

impl Walk {
    fn new(alloc: Global, end: u32) -> Walk
        ensures seen { Seen result [] }
        ensures here { result.here ≡ end }
    {
        Walk {
            end,
            here: end,
            levels: Stack::new(alloc),
            regions: Stack::new(alloc),
        }
    }

    /// Takes the innermost level off.
    fn leave(&mut self) -> Level
        ensures result { result ≡ level self.old.end self.old.levels 0 }
        ensures rest { self.new ≡ record self.old { levels = drop 1 self.old.levels } }
    {
        match self.levels.pop() {
            Some(level) => level,
            None => Level {
                mid: self.end,
                last: self.end,
            },
        }
    }

    /// A try body begins here.
    fn begin_try(&mut self) -> Result<(), NoMemory>
        ensures { OnOk result (self.new ≡ record self.old {
          levels = drop 1 self.old.levels;
          regions = record {
            first = self.old.here;
            mid = (level self.old.end self.old.levels 0).mid;
            last = (level self.old.end self.old.levels 0).last;
          } ∷ self.old.regions;
        }) }
    {
        let Level { mid, last } = self.leave();
        self.regions.push(Region {
            first: self.here,
            mid,
            last,
        })
    }

    /// A catch body begins here.
    fn begin_catch(&mut self) -> Result<(), NoMemory>
        ensures { OnOk result (self.new ≡ record self.old {
          levels = record { mid = self.old.here; last = (level self.old.end self.old.levels 0).last } ∷ drop 1 self.old.levels;
        }) }
    {
        let last = self.leave().last;
        self.levels.push(Level {
            mid: self.here,
            last,
        })
    }

    /// A body ends here.
    fn end(&mut self) -> Result<(), NoMemory>
        ensures { OnOk result (self.new ≡ record self.old { levels = record { mid = self.old.here; last = self.old.here } ∷ self.old.levels }) }
    {
        self.levels.push(Level {
            mid: self.here,
            last: self.here,
        })
    }

    /// Goes on to the item before.
    fn step(&mut self, item: &ItemParts) -> Result<(), NoMemory>
        requires { length (position_in item.now) ≤ self.old.here }
        ensures seen { OnOk result ((more : List ItemParts) → Seen self.old more → Seen self.new (item.now ∷ more)) }
        ensures here { OnOk result (self.new.here + length (position_in item.now) ≡ self.old.here) }
    {
        match item {
            ItemParts::Label(_) => Ok(()),
            ItemParts::Position(_) => {
                self.here -= 1;
                Ok(())
            }
            ItemParts::Try => self.begin_try(),
            ItemParts::Catch => self.begin_catch(),
            ItemParts::End => self.end(),
        }
    }
}

/// What is on a stack, from its top.
fn listed(alloc: Global, mut stack: Stack<Region>) -> Result<Seq<Region>, NoMemory>
    ensures { IfOk result (λ all. all ≡ stack) }
{
    let mut all = Seq::new(alloc);
    while let Some(region) = stack.pop() {
        all.push(region)?;
    }
    Ok(all)
}

/// The regions, in the order of their try bodies.
pub(crate) fn regions(alloc: Global, items: &[ItemParts]) -> Result<Seq<Region>, NoMemory>
    requires { length (flat_map position_in items.now) < 2 ^ 32 }
    ensures { IfOk result (λ all. all ≡ regions_from 0 items.now) }
{
    let mut walk = Walk::new(alloc, count_positions(items) as u32);
    for at in (0..items.len()).rev() {
        walk.step(&items[at])?;
    }
    listed(alloc, walk.regions)
}
