//! Properties by number: the class of each, and where objects keep them.

ghost use Rattle.std.specs.Prelude.{◌≡◌, ◌<◌, ◌+◌, ◌^◌, ◌++◌, None, OnOk, IfOk, IfSome, length, replicate, slice_get};
ghost use Rattle.type_lattice.specs.Classes.{Forest, chain};
ghost use Rattle.hhbc_repo.specs.Bodies.{built_in_tree};
ghost use Rattle.hhbc_repo.specs.LinkFaults.{at_class};
ghost use Rattle.hhbc_repo.specs.LookUps.{parents_of_classes, property_owners_from, total};
ghost use Rattle.hhbc_repo.specs.Places.{place_here, place_up};

use crate::look_ups::parent_in;
use crate::members::Members;
use crate::repo::Class;
use hack_values::{NoMemory, Seq};
use std::alloc::Global;

/// Puts a class's number at the end so many times.
fn push_owner(owners: &mut Seq<u32>, class: u32, count: usize) -> Result<(), NoMemory>
    ensures { OnOk result (owners.new ≡ owners.old ++ replicate count class) }
{
    for _ in 0..count {
        owners.push(class)?;
    }
    Ok(())
}

/// The class of each of the properties.
pub(crate) fn owners(alloc: Global, properties: &Members) -> Result<Seq<u32>, NoMemory>
    requires { length properties.now.names < 2 ^ 32 }
    ensures { IfOk result (λ all. all ≡ property_owners_from 0 properties.now.names) }
{
    let mut all = Seq::new(alloc);
    let mut class = 0;
    for row in properties.rows() {
        push_owner(&mut all, class, row.names.len())?;
        class += 1;
    }
    Ok(all)
}

/// The place of a name, where the class is the next further up and the place so far is among what those below it declare.
fn place_with(properties: &Members, class: u32, name: &[u8], found: Option<u32>) -> Option<u32>
    requires { IfSome found (λ place. place + length (at_class (slice_get properties.now.names class)) < 2 ^ 32) }
    ensures { result ≡ place_here properties.now.names name.now found class }
{
    match found {
        Some(place) => Some(place + properties.count_of(class)),
        None => properties.place(class, name),
    }
}

/// Where an object keeps what its class or the nearest ancestor declares by the name: behind what is declared further up.
pub(crate) fn find_place(
    properties: &Members,
    classes: &[Class],
    class: u32,
    name: &[u8],
) -> Option<u32>
    requires forest { Forest (built_in_tree ++ parents_of_classes classes.now) }
    requires fits { total properties.now.names < 2 ^ 32 }
    ensures { result ≡ place_up properties.now.names name.now None (chain (built_in_tree ++ parents_of_classes classes.now) class) }
{
    let mut at = class;
    let mut found = None;
    loop {
        found = place_with(properties, at, name, found);
        match parent_in(classes, at) {
            None => return found,
            Some(parent) => at = parent,
        }
    }
}
