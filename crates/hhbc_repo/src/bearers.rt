//! What bears a name, by number.

ghost use Rattle.std.specs.Prelude.{◌≡◌, ◌<◌, ◌+◌, ◌^◌, [], ◌∷◌, ◌++◌, OnOk, IfOk, List, ℕ, Some, false, if◌then◌else◌, length, slice_get, slice_set};
ghost use Rattle.hhbc_repo.specs.Bearers.{borne};
ghost use Rattle.hhbc_repo.specs.LinkFaults.{is_name, names};
ghost use Rattle.hhbc_repo.specs.Places.{bearers, together};

use crate::members::Members;
use crate::name_table::NameTable;
use hack_values::{NoMemory, Seq};
use std::alloc::Global;
use std::marker::Model;

/// Names, each once, with the numbers of all that bear it, in the order in which they were added.
#[derive(Drop)]
pub(crate) struct Bearers {
    names: NameTable,
    numbers: Seq<Seq<u32>>,
}

impl Model for Bearers {
    ghost use Rattle.std.specs.Prelude.{◌≡◌, length};
    ghost use Rattle.std.specs.Coded.{codes};
    ghost use Rattle.hhbc_repo.specs.Bearers as lists;

    ghost Value = { lists.Bearers };

    ghost coded = { Prim.hlevel (codes) };

    ghost view = { λ t. record { names = t.names; numbers = t.numbers } };

    ghost invariant = { λ t. length t.names ≡ length t.numbers };
}

/// Puts a number at the end of one of several lists.
fn push_at(lists: &mut Seq<Seq<u32>>, at: usize, number: u32) -> Result<(), NoMemory>
    ensures { OnOk result ((list : List ℕ) → slice_get lists.old at ≡ Some list → lists.new ≡ slice_set lists.old at (list ++ number ∷ [])) }
{
    match lists.get_mut(at) {
        Some(list) => list.push(number),
        None => Ok(()),
    }
}

impl Bearers {
    /// No names.
    fn new(alloc: Global) -> Bearers
        ensures { result ≡ record { names = []; numbers = [] } }
    {
        Bearers {
            names: NameTable::new(alloc),
            numbers: Seq::new(alloc),
        }
    }

    /// The numbers of what bears the name.
    pub(crate) fn of(&self, name: &[u8]) -> &[u32]
        ensures { result.now ≡ borne self.now name.now }
    {
        match self.names.find(name) {
            Some(place) => self.numbers.as_slice()[place].as_slice(),
            None => &[],
        }
    }

    /// With a name that isn't there, and its first number.
    fn grown(self, alloc: Global, name: &[u8], number: u32) -> Result<Bearers, NoMemory>
        requires { names self.names name.now ≡ false }
        ensures { IfOk result (λ t. t ≡ record { names = self.names ++ name.now ∷ []; numbers = self.numbers ++ (number ∷ []) ∷ [] }) }
    {
        let Bearers {
            mut names,
            mut numbers,
        } = self;
        let mut list = Seq::new(alloc);
        list.push(number)?;
        names.add(alloc, name)?;
        numbers.push(list)?;
        Ok(Bearers { names, numbers })
    }

    /// With a further number of the name at a place.
    fn longer(self, at: usize, number: u32) -> Result<Bearers, NoMemory>
        requires { at < length self.numbers }
        ensures { IfOk result (λ t. (list : List ℕ) → slice_get self.numbers at ≡ Some list → t ≡ record { names = self.names; numbers = slice_set self.numbers at (list ++ number ∷ []) }) }
    {
        let Bearers { names, mut numbers } = self;
        push_at(&mut numbers, at, number)?;
        Ok(Bearers { names, numbers })
    }

    /// With a further number of a name.
    fn with(self, alloc: Global, name: &[u8], number: u32) -> Result<Bearers, NoMemory>
        ensures { IfOk result (λ t. (other : List ℕ) → borne t other ≡ borne self other ++ (if is_name other name.now then number ∷ [] else [])) }
    {
        match self.names.find(name) {
            Some(place) => self.longer(place, number),
            None => self.grown(alloc, name, number),
        }
    }

    /// With several names, numbered from a first number on.
    fn with_names(self, alloc: Global, first: u32, names: &NameTable) -> Result<Bearers, NoMemory>
        requires { first + length names.now < 2 ^ 32 }
        ensures { IfOk result (λ t. (other : List ℕ) → borne t other ≡ borne self other ++ bearers first names.now other) }
    {
        let mut table = self;
        let mut number = first;
        for key in names.keys() {
            table = table.with(alloc, key.as_slice(), number)?;
            number += 1;
        }
        Ok(table)
    }
}

/// What bears each name among what all classes declare.
pub(crate) fn bearers_among(alloc: Global, members: &Members) -> Result<Bearers, NoMemory>
    ensures { IfOk result (λ t. (name : List ℕ) → borne t name ≡ bearers members.now.first (together members.now.names) name) }
{
    let mut table = Bearers::new(alloc);
    for row in members.rows() {
        table = table.with_names(alloc, row.first, &row.names)?;
    }
    Ok(table)
}
