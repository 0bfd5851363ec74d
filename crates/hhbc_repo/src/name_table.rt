//! Tables of names.

ghost use Rattle.std.specs.Prelude.{◌≡◌, [], ◌∷◌, ◌++◌, OnOk, IfOk, length, map, true, false};
ghost use Rattle.hhbc_repo.specs.LinkFaults.{names, place_in};
ghost use Rattle.hhbc_repo.specs.Names.{bytes_of, distinct};
ghost use Rattle.hhbc_repo.specs.Once.{added};

use crate::body::Body;
use crate::repo::Property;
use hack_values::{NoMemory, Text};
use indexmap::IndexSet;
use std::alloc::Global;
use std::marker::Model;

/// Names, each once, in the order in which they were added. They are found by their bytes.
#[derive(Drop)]
pub(crate) struct NameTable {
    keys: IndexSet<Vec<u8>>,
}

impl Model for NameTable {
    ghost use Rattle.std.specs.Prelude.{List, ℕ};
    ghost use Rattle.std.specs.Coded.{coded_list, coded_ℕ};
    ghost use Rattle.hhbc_repo.specs.Names.{bytes_of};

    ghost Value = { List (List ℕ) };

    ghost coded = { coded_list (coded_list coded_ℕ) };

    ghost view = { λ t. bytes_of t.keys.keys };
}

impl NameTable {
    /// The table without names.
    pub(crate) fn new(alloc: Global) -> NameTable
        ensures { result ≡ [] }
    {
        NameTable {
            keys: IndexSet::new(alloc),
        }
    }

    /// The place of the first that is the name.
    pub(crate) fn find(&self, name: &[u8]) -> Option<usize>
        ensures { result ≡ place_in self.now name.now }
    {
        self.keys.get_index_of(name)
    }

    /// How many names there are.
    pub(crate) fn len(&self) -> usize
        ensures { result ≡ length self.now }
    {
        self.keys.len()
    }

    /// The names in their order, as bytes.
    pub(crate) fn keys(&self) -> &[Vec<u8>]
        ensures { bytes_of result.now ≡ self.now }
    {
        self.keys.as_slice()
    }

    /// Whether the name is in the table.
    #[tactic(auto, using(crate::proofs::NumbersPut::found_names))]
    pub(crate) fn contains(&self, name: &[u8]) -> bool
        ensures { result ≡ names self.now name.now }
    {
        self.find(name).is_some()
    }

    /// Adds a name that isn't there.
    pub(crate) fn add(&mut self, alloc: Global, name: &[u8]) -> Result<(), NoMemory>
        requires { names self.old name.now ≡ false }
        ensures { OnOk result (self.new ≡ self.old ++ name.now ∷ []) }
    {
        let key = Vec::from_slice(alloc, name)?;
        self.keys.insert(key)?;
        Ok(())
    }

    /// Adds a name that may be there.
    pub(crate) fn add_once(&mut self, alloc: Global, name: &[u8]) -> Result<(), NoMemory>
        ensures { OnOk result (self.new ≡ added self.old name.now) }
    {
        if self.contains(name) {
            return Ok(());
        }
        self.add(alloc, name)
    }
}

/// The table of these texts.
pub(crate) fn table_of_texts(alloc: Global, texts: &[Text]) -> Result<NameTable, NoMemory>
    requires { distinct texts.now ≡ true }
    ensures { IfOk result (λ table. table ≡ texts.now) }
{
    let mut table = NameTable::new(alloc);
    for text in texts {
        table.add(alloc, text.bytes())?;
    }
    Ok(table)
}

/// The table of the names of these bodies.
pub(crate) fn table_of_bodies(alloc: Global, bodies: &[Body]) -> Result<NameTable, NoMemory>
    requires { distinct (map (λ b. b.name) bodies.now) ≡ true }
    ensures { IfOk result (λ table. table ≡ map (λ b. b.name) bodies.now) }
{
    let mut table = NameTable::new(alloc);
    for body in bodies {
        table.add(alloc, body.name.bytes())?;
    }
    Ok(table)
}

/// The table of the names of these properties.
pub(crate) fn table_of_properties(
    alloc: Global,
    properties: &[Property],
) -> Result<NameTable, NoMemory>
    requires { distinct (map (λ p. p.name) properties.now) ≡ true }
    ensures { IfOk result (λ table. table ≡ map (λ p. p.name) properties.now) }
{
    let mut table = NameTable::new(alloc);
    for property in properties {
        table.add(alloc, property.name.bytes())?;
    }
    Ok(table)
}
