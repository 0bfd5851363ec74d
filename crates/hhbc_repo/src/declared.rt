//! What classes declare, by name. A name may stand more than once: the first counts.

ghost use Rattle.std.specs.Prelude.{◌≡◌, OnOk, IfOk, MatchOption, None, Some, map};
ghost use Rattle.hhbc_repo.specs.FirstNumbers.{put};
ghost use Rattle.hhbc_repo.specs.LinkFaults.{place_in, with_name};
ghost use Rattle.hhbc_repo.specs.Once.{once};

use crate::name_table::NameTable;
use crate::parts::{BodyParts, PropertyParts};
use crate::repo::Const;
use hack_values::{NoMemory, Seq};
use std::alloc::Global;
use std::marker::Model;

/// Bodies that are found by name.
#[derive(Drop)]
pub(crate) struct BodyTable<'a> {
    bodies: &'a [BodyParts],
    known: NameTable,
    firsts: Seq<usize>,
}

impl<'a> Model for BodyTable<'a> {
    ghost use Rattle.std.specs.Prelude.{List, map};
    ghost use Rattle.std.specs.Coded.{codes};
    ghost use Rattle.hack_values.specs.Code.{coded_val, coded_key};
    ghost use Rattle.hhbc_repo.specs.declared.parts.BodyParts.{BodyParts};
    ghost use Rattle.hhbc_repo.specs.FirstNumbers.{Finds};

    ghost Value = { List BodyParts };

    ghost coded = { Prim.hlevel (codes, coded_val, coded_key) };

    ghost view = { λ t. t.bodies.now };

    ghost invariant = { λ t. Finds (record { known = t.known; firsts = t.firsts }) (map (λ b. b.name) t.bodies.now) };
}

/// Puts the place of a name that has none.
fn put_place(
    known: &mut NameTable,
    firsts: &mut Seq<usize>,
    alloc: Global,
    name: &[u8],
    place: usize,
) -> Result<(), NoMemory>
    ensures { OnOk result (record { known = known.new; firsts = firsts.new } ≡ put (record { known = known.old; firsts = firsts.old }) name.now place) }
{
    if known.contains(name) {
        return Ok(());
    }
    known.add(alloc, name)?;
    firsts.push(place)?;
    Ok(())
}

impl<'a> BodyTable<'a> {
    /// The table of these bodies.
    pub(crate) fn new(alloc: Global, bodies: &'a [BodyParts]) -> Result<BodyTable<'a>, NoMemory>
        ensures { IfOk result (λ t. t ≡ bodies.now) }
    {
        let mut known = NameTable::new(alloc);
        let mut firsts = Seq::new(alloc);
        for place in 0..bodies.len() {
            put_place(
                &mut known,
                &mut firsts,
                alloc,
                bodies[place].name.bytes(),
                place,
            )?;
        }
        Ok(BodyTable {
            bodies,
            known,
            firsts,
        })
    }

    /// The place of the first body of a name.
    fn place(&self, name: &[u8]) -> Option<usize>
        ensures { result ≡ place_in (map (λ b. b.name) self.now) name.now }
    {
        match self.known.find(name) {
            Some(at) => Some(self.firsts.as_slice()[at]),
            None => None,
        }
    }

    /// The first body of a name.
    pub(crate) fn find(&self, name: &[u8]) -> Option<&BodyParts>
        ensures { MatchOption result (with_name self.now name.now ≡ None) (λ b. with_name self.now name.now ≡ Some b.now) }
    {
        match self.place(name) {
            Some(place) => Some(&self.bodies[place]),
            None => None,
        }
    }
}

/// The names of constants.
pub(crate) fn constant_names(alloc: Global, constants: &[Const]) -> Result<NameTable, NoMemory>
    ensures { IfOk result (λ t. t ≡ once (map (λ c. c.name) constants.now)) }
{
    let mut table = NameTable::new(alloc);
    for constant in constants {
        table.add_once(alloc, constant.name.bytes())?;
    }
    Ok(table)
}

/// The names of properties.
pub(crate) fn property_names(
    alloc: Global,
    properties: &[PropertyParts],
) -> Result<NameTable, NoMemory>
    ensures { IfOk result (λ t. t ≡ once (map (λ p. p.name) properties.now)) }
{
    let mut table = NameTable::new(alloc);
    for property in properties {
        table.add_once(alloc, property.name.bytes())?;
    }
    Ok(table)
}
