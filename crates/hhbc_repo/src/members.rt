//! What the classes declare, by name, with its numbers.

ghost use Rattle.std.specs.Prelude.{◌≡◌, ◌<◌, ◌^◌, ◌+◌, [], ◌∷◌, ◌++◌, OnOk, IfOk, Some, length, map, slice_get, true, codes};
ghost use Rattle.std.specs.List.{list_all};
ghost use Rattle.hhbc_repo.specs.LinkFaults.{at_class, place_in};
ghost use Rattle.hhbc_repo.specs.Members.{Counted, names_of, starts};
ghost use Rattle.hhbc_repo.specs.LookUps.{own_number, total, method_names, property_names, no_names};
ghost use Rattle.hhbc_repo.specs.Names.{distinct};

use crate::name_table::{NameTable, table_of_bodies, table_of_properties};
use crate::repo::Class;
use hack_values::{NoMemory, Seq};
use std::alloc::Global;
use std::marker::Model;

/// The names that a class declares, and the number of the first.
#[derive(Drop)]
pub(crate) struct Row {
    pub(crate) names: NameTable,
    pub(crate) first: u32,
}

/// The names that each class declares. All are numbered, those of a class in their order and behind
/// those of the classes before it.
#[derive(Drop)]
pub(crate) struct Members {
    start: u32,
    next: u32,
    rows: Seq<Row>,
}

impl Model for Members {
    ghost use Rattle.hhbc_repo.specs.MemberNames.{MemberNames};
    ghost use Rattle.hhbc_repo.specs.Members.{Counted, names_of};
    ghost use Rattle.std.specs.Coded.{codes};

    ghost Value = { MemberNames };

    ghost coded = { Prim.hlevel (codes) };

    ghost view = { λ m. record { first = m.start; names = names_of m.rows } };

    ghost invariant = { λ m. Counted m.start m.next m.rows };
}

impl Members {
    /// Those of no class.
    fn new(alloc: Global, first: u32) -> Members
        ensures { result ≡ record { first = first; names = [] } }
    {
        Members {
            start: first,
            next: first,
            rows: Seq::new(alloc),
        }
    }

    /// Adds what the next class declares, so many names.
    fn add(&mut self, names: NameTable, count: usize) -> Result<(), NoMemory>
        requires counted { length names ≡ count }
        requires fits { self.old.first + total self.old.names + count < 2 ^ 32 }
        ensures { OnOk result (self.new ≡ record { first = self.old.first; names = self.old.names ++ names ∷ [] }) }
    {
        self.rows.push(Row {
            names,
            first: self.next,
        })?;
        self.next += count as u32;
        Ok(())
    }

    /// How many there are of all classes.
    pub(crate) fn count(&self) -> u32
        ensures { result ≡ total self.now.names }
    {
        self.next - self.start
    }

    /// How many the class itself declares.
    pub(crate) fn count_of(&self, class: u32) -> u32
        ensures { result ≡ length (at_class (slice_get self.now.names class)) }
    {
        match self.rows.as_slice().get(class as usize) {
            Some(row) => row.names.len() as u32,
            None => 0,
        }
    }

    /// The number of the first that the class itself declares, or would.
    pub(crate) fn first_of(&self, class: u32) -> u32
        requires { class < length self.now.names }
        ensures { slice_get (starts self.now.first self.now.names) class ≡ Some result }
    {
        self.rows.as_slice()[class as usize].first
    }

    /// The place of a name among those that the class itself declares.
    pub(crate) fn place(&self, class: u32, name: &[u8]) -> Option<u32>
        ensures { result ≡ place_in (at_class (slice_get self.now.names class)) name.now }
    {
        let row = self.rows.as_slice().get(class as usize)?;
        let place = row.names.find(name)?;
        Some(place as u32)
    }

    /// What each class declares.
    pub(crate) fn rows(&self) -> &[Row]
        ensures rows { names_of result.now ≡ self.now.names }
        ensures counted { Counted self.now.first (self.now.first + total self.now.names) result.now }
    {
        self.rows.as_slice()
    }

    /// The number of what the class itself declares by that name.
    pub(crate) fn number(&self, class: u32, name: &[u8]) -> Option<u32>
        ensures { result ≡ own_number self.now.first self.now.names name.now class }
    {
        let row = self.rows.as_slice().get(class as usize)?;
        let place = row.names.find(name)?;
        Some(row.first + place as u32)
    }
}

/// What the built-in classes declare: Exception has some names, and the others have none.
#[tactic(auto, using(crate::proofs::Numbered::total_append))]
fn built_in(alloc: Global, first: u32, names: NameTable, count: usize) -> Result<Members, NoMemory>
    requires counted { length names ≡ count }
    requires fits { first + count < 2 ^ 32 }
    ensures { IfOk result (λ m. m ≡ record { first = first; names = names ∷ no_names }) }
{
    let mut members = Members::new(alloc, first);
    members.add(names, count)?;
    for _ in 0..5_usize {
        members.add(NameTable::new(alloc), 0)?;
    }
    Ok(members)
}

/// The methods of all classes, numbered behind the functions.
#[tactic(auto, using(crate::proofs::Numbered::total_append))]
pub(crate) fn methods_of(alloc: Global, first: u32, classes: &[Class]) -> Result<Members, NoMemory>
    requires differ { list_all distinct (method_names classes.now) ≡ true }
    requires fits { first + total (method_names classes.now) < 2 ^ 32 }
    ensures { IfOk result (λ m. m ≡ record { first = first; names = ([] ∷ no_names) ++ method_names classes.now }) }
{
    let mut members = built_in(alloc, first, NameTable::new(alloc), 0)?;
    for class in classes {
        let methods = class.methods.as_slice();
        members.add(table_of_bodies(alloc, methods)?, methods.len())?;
    }
    Ok(members)
}

/// The properties of all classes.
#[tactic(auto, using(crate::proofs::Numbered::total_append))]
pub(crate) fn properties_of(alloc: Global, classes: &[Class]) -> Result<Members, NoMemory>
    requires differ { list_all distinct (property_names classes.now) ≡ true }
    requires fits { 1 + total (property_names classes.now) < 2 ^ 32 }
    ensures { IfOk result (λ m. m ≡ record { first = 0; names = ((codes "message" ∷ []) ∷ no_names) ++ property_names classes.now }) }
{
    let mut message = NameTable::new(alloc);
    message.add(alloc, b"message")?;
    let mut members = built_in(alloc, 0, message, 1)?;
    for class in classes {
        let properties = class.props.as_slice();
        members.add(table_of_properties(alloc, properties)?, properties.len())?;
    }
    Ok(members)
}
