ghost use Rattle.std.specs.Prelude.{◌≡◌, ◌+◌, ◌≤◌, ℕ, max, []};
ghost use Rattle.hack_values.specs.Keys.{capped};
ghost use Rattle.hack_values.specs.Known.{IsDepth, IsVecKnown, IsDictKnown};

/// A depth as far as it is known: at most this much, and this much where it is exact.
#[derive(Clone, Copy, Debug)]
pub(crate) struct Depth {
    pub(crate) at_most: u32,
    pub(crate) exact: bool,
}

/// Weight and depth of a container, as they are kept where they are known: without what stands at
/// the place `but`, where there is one.
#[derive(Clone, Copy, Debug)]
pub(crate) struct Known {
    pub(crate) weight: u32,
    pub(crate) depth: Depth,
    pub(crate) but: Option<usize>,
}

impl Depth {
    pub(crate) fn exactly(depth: u32) -> Depth
        ensures told { result.at_most ≡ depth }
        ensures exact { (n : ℕ) → depth ≡ capped n → IsDepth n result }
    {
        Depth {
            at_most: depth,
            exact: true,
        }
    }

    /// Where nothing is known.
    pub(crate) fn unknown() -> Depth
        ensures { (n : ℕ) → IsDepth n result }
    {
        Depth {
            at_most: u32::MAX,
            exact: false,
        }
    }

    /// Of a container with one more element.
    pub(crate) fn with(self, element: Depth) -> Depth
        ensures { (n m : ℕ) → IsDepth n self → IsDepth m element → IsDepth (max n (1 + m)) result }
    {
        Depth {
            at_most: self.at_most.max(element.at_most.saturating_add(1)),
            exact: self.exact && (element.exact || element.at_most < self.at_most),
        }
    }

    /// Of a container without one of its elements, which may have been the only one as deep as this.
    pub(crate) fn without(self, element: Depth) -> Depth
        ensures { (n m : ℕ) → 1 ≤ n → IsDepth (max n (1 + m)) self → IsDepth m element → IsDepth n result }
    {
        Depth {
            at_most: self.at_most,
            exact: self.exact && element.at_most < self.at_most.saturating_sub(1).max(1),
        }
    }
}

impl Known {
    /// Of an empty container.
    pub(crate) fn empty() -> Known
        ensures vec { IsVecKnown [] result }
        ensures dict { IsDictKnown [] result }
    {
        Known {
            weight: 1,
            depth: Depth::exactly(1),
            but: None,
        }
    }
}
