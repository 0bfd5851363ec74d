//! Numbers of names of which some may stand more than once.

ghost use Rattle.std.specs.Prelude.{◌≡◌, [], ◌∷◌, ◌++◌, false, IfOk};
ghost use Rattle.hhbc_repo.specs.FirstNumbers.{none, number_of, put};
ghost use Rattle.hhbc_repo.specs.LinkFaults.{names};

use crate::name_table::NameTable;
use hack_values::{NoMemory, Seq};
use std::alloc::Global;
use std::marker::Model;

/// Names with numbers. A name that is given several numbers keeps the first.
#[derive(Drop)]
pub(crate) struct FirstNumbers {
    known: NameTable,
    firsts: Seq<u32>,
}

impl Model for FirstNumbers {
    ghost use Rattle.std.specs.Prelude.{◌≡◌, length};
    ghost use Rattle.std.specs.Coded.{codes};
    ghost use Rattle.hhbc_repo.specs.FirstNumbers.{Numbers};

    ghost Value = { Numbers };

    ghost coded = { Prim.hlevel (codes) };

    ghost view = { λ t. record { known = t.known; firsts = t.firsts } };

    ghost invariant = { λ t. length t.known ≡ length t.firsts };
}

impl FirstNumbers {
    /// No names.
    pub(crate) fn new(alloc: Global) -> FirstNumbers
        ensures { result ≡ none }
    {
        FirstNumbers {
            known: NameTable::new(alloc),
            firsts: Seq::new(alloc),
        }
    }

    /// The number of a name.
    pub(crate) fn find(&self, name: &[u8]) -> Option<u32>
        ensures { result ≡ number_of self.now name.now }
    {
        let place = self.known.find(name)?;
        Some(self.firsts.as_slice()[place])
    }

    /// With the number of a name that has none.
    fn grown(self, alloc: Global, name: &[u8], number: u32) -> Result<FirstNumbers, NoMemory>
        requires { names self.known name.now ≡ false }
        ensures { IfOk result (λ t. t ≡ record { known = self.known ++ name.now ∷ []; firsts = self.firsts ++ number ∷ [] }) }
    {
        let FirstNumbers {
            mut known,
            mut firsts,
        } = self;
        known.add(alloc, name)?;
        firsts.push(number)?;
        Ok(FirstNumbers { known, firsts })
    }

    /// With the number of a name, where it has none.
    pub(crate) fn with(
        self,
        alloc: Global,
        name: &[u8],
        number: u32,
    ) -> Result<FirstNumbers, NoMemory>
        ensures { IfOk result (λ t. t ≡ put self name.now number) }
    {
        if self.known.contains(name) {
            return Ok(self);
        }
        self.grown(alloc, name, number)
    }
}
