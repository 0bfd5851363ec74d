ghost use Rattle.std.specs.Prelude.{◌≡◌, ◌+◌, ◌<◌, ◌↔◌, max};
ghost use Rattle.hack_values.specs.Keys.{capped};
ghost use Rattle.hack_values.specs.Known.{IsDepth};
ghost use Rattle.hack_values.specs.Limits.{max_depth};
ghost use Rattle.hack_values.specs.Val.{weight, depth, weights, depths, entry_weights, entry_depths};
ghost use Rattle.hack_values.specs.View.{val_of};

use crate::key::{keys_weight_of, text_weight};
use crate::known::Depth;
use crate::value_fault::MAX_DEPTH;
use crate::{Cell, DictVal, VecVal};

impl Cell {
    /// The value's weight, and 4,294,967,295 where it is greater. Containers keep theirs at hand,
    /// through writes too, unless it became as great as that.
    #[cycle(weight)]
    #[tactic(auto, using(crate::specs::Val::rows))]
    pub fn weight(&self) -> u32
        ensures { result ≡ capped (weight (val_of self.now)) }
    {
        match self {
            Cell::Null | Cell::Bool(_) | Cell::Int(_) | Cell::Obj(_) => 1,
            Cell::Str(text) => text_weight(text),
            Cell::Vec(cells) => cells.weight(),
            Cell::Dict(entries) => entries.weight(),
            Cell::Keyset(keys) => keys.weight(),
        }
    }

    /// The value's depth, and 4,294,967,295 where it is greater. It is found anew in a container
    /// where an element as deep as any was lent for writing.
    #[cycle(depth)]
    #[tactic(auto, using(crate::specs::Val::rows))]
    pub fn depth(&self) -> u32
        ensures { result ≡ capped (depth (val_of self.now)) }
    {
        match self {
            Cell::Vec(cells) => cells.depth(),
            Cell::Dict(entries) => entries.depth(),
            Cell::Keyset(_) => 1,
            _ => 0,
        }
    }

    /// The depth as far as it is known without a walk through the value.
    #[cycle(depth_at_hand)]
    #[tactic(auto, using(crate::specs::Val::rows))]
    pub(crate) fn depth_at_hand(&self) -> Depth
        ensures { IsDepth (depth (val_of self.now)) result }
    {
        match self {
            Cell::Vec(cells) => cells.depth_at_hand(),
            Cell::Dict(entries) => entries.depth_at_hand(),
            Cell::Keyset(_) => Depth::exactly(1),
            _ => Depth::exactly(0),
        }
    }
}

impl VecVal {
    /// The weight as a cell.
    #[cycle(weight)]
    pub fn weight(&self) -> u32
        ensures { result ≡ capped (1 + weights self.now) }
    {
        if let Some(known) = self.known {
            return match known.but {
                None => known.weight,
                Some(at) if at < self.items.len() => {
                    known.weight.saturating_add(self.items[at].weight())
                }
                Some(_) => known.weight,
            };
        }
        let mut sum = 1u32;
        for cell in &self.items {
            sum = sum.saturating_add(cell.weight());
        }
        sum
    }

    /// The depth as a cell.
    #[cycle(depth)]
    pub fn depth(&self) -> u32
        ensures { result ≡ capped (1 + depths self.now) }
    {
        let known = self.depth_at_hand();
        if known.exact {
            return known.at_most;
        }
        let mut most = 0u32;
        for cell in &self.items {
            most = most.max(cell.depth());
        }
        most.saturating_add(1)
    }

    #[cycle(depth_at_hand)]
    pub(crate) fn depth_at_hand(&self) -> Depth
        ensures { IsDepth (1 + depths self.now) result }
    {
        let Some(known) = self.known else {
            return Depth::unknown();
        };
        match known.but {
            None => known.depth,
            Some(at) if at < self.items.len() => known.depth.with(self.items[at].depth_at_hand()),
            Some(_) => known.depth,
        }
    }

    /// The depth with one more element, as far as the limit asks for it.
    pub(crate) fn depth_with(&self, value: &Cell) -> Depth
        ensures deep { IsDepth (max (1 + depths self.now) (1 + depth (val_of value.now))) result }
        ensures limit { (max_depth < result.at_most) ↔ (max_depth < max (1 + depths self.now) (1 + depth (val_of value.now))) }
    {
        let known = self.depth_at_hand().with(value.depth_at_hand());
        if known.exact || known.at_most <= MAX_DEPTH {
            return known;
        }
        Depth::exactly(self.depth().max(value.depth().saturating_add(1)))
    }
}

impl DictVal {
    /// The weight as a cell.
    #[cycle(weight)]
    #[tactic(auto, using(crate::proofs::Rows::entry_sums))]
    pub fn weight(&self) -> u32
        ensures { result ≡ capped (1 + entry_weights self.now) }
    {
        if let Some(known) = self.known {
            return match known.but {
                None => known.weight,
                Some(at) if at < self.vals.len() => {
                    let keys = self.keys.as_slice();
                    let others = known.weight.saturating_add(keys[at].weight());
                    others.saturating_add(self.vals[at].weight())
                }
                Some(_) => known.weight,
            };
        }
        let mut sum = keys_weight_of(self.keys.as_slice(), 1);
        for cell in &self.vals {
            sum = sum.saturating_add(cell.weight());
        }
        sum
    }

    /// The depth as a cell.
    #[cycle(depth)]
    #[tactic(auto, using(crate::proofs::Rows::entry_sums))]
    pub fn depth(&self) -> u32
        ensures { result ≡ capped (1 + entry_depths self.now) }
    {
        let known = self.depth_at_hand();
        if known.exact {
            return known.at_most;
        }
        let mut most = 0u32;
        for cell in &self.vals {
            most = most.max(cell.depth());
        }
        most.saturating_add(1)
    }

    #[cycle(depth_at_hand)]
    pub(crate) fn depth_at_hand(&self) -> Depth
        ensures { IsDepth (1 + entry_depths self.now) result }
    {
        let Some(known) = self.known else {
            return Depth::unknown();
        };
        match known.but {
            None => known.depth,
            Some(at) if at < self.vals.len() => known.depth.with(self.vals[at].depth_at_hand()),
            Some(_) => known.depth,
        }
    }

    /// The depth with one more value, as far as the limit asks for it.
    pub(crate) fn depth_with(&self, value: &Cell) -> Depth
        ensures deep { IsDepth (max (1 + entry_depths self.now) (1 + depth (val_of value.now))) result }
        ensures limit { (max_depth < result.at_most) ↔ (max_depth < max (1 + entry_depths self.now) (1 + depth (val_of value.now))) }
    {
        let known = self.depth_at_hand().with(value.depth_at_hand());
        if known.exact || known.at_most <= MAX_DEPTH {
            return known;
        }
        Depth::exactly(self.depth().max(value.depth().saturating_add(1)))
    }

    /// The depth, as far as the limit asks for it.
    pub(crate) fn depth_to_limit(&self) -> Depth
        ensures deep { IsDepth (1 + entry_depths self.now) result }
        ensures limit { (max_depth < result.at_most) ↔ (max_depth < 1 + entry_depths self.now) }
    {
        let known = self.depth_at_hand();
        if known.exact || known.at_most <= MAX_DEPTH {
            return known;
        }
        Depth::exactly(self.depth())
    }
}
