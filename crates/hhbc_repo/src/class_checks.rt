//! Checks of classes and of their parents.

ghost use Rattle.std.specs.Prelude.{◌≡◌, ◌<◌, ◌^◌, ◌+◌, ◌++◌, length, nat_le, not, take};
ghost use Rattle.type_lattice.specs.Classes.{chain, has, parent_of};
ghost use Rattle.hhbc_repo.specs.Checks.{Checks};
ghost use Rattle.hhbc_repo.specs.LinkFaults.{above, check, class_checks, class_names, different, each_class, first_class, names, parent_faults};
ghost use Rattle.hhbc_repo.specs.declared.link_fault.LinkKind.TheVariants as kinds;

use crate::class_chains::{ChainFault, chain_fault};
use crate::known::Known;
use crate::link_fault::{LinkError, LinkKind};
use crate::listed::Listed;
use crate::parts::ClassParts;
use crate::telling::{plain, unknown};
use hack_values::Text;
use std::alloc::Global;

/// Whether a class before this one has the name.
#[tactic(auto, using(crate::proofs::NamesMet::met_before, crate::proofs::NamesMet::met_never))]
fn is_taken(listed: &Listed<'_>, number: u32, name: &[u8]) -> bool
    ensures { result ≡ names (take number (class_names listed.now)) name.now }
{
    match listed.class_of(name) {
        Some(first) => first < number,
        None => false,
    }
}

/// The parent is to be there.
fn check_parent(
    alloc: Global,
    listed: &Listed<'_>,
    owner: &[u8],
    parent: &Option<Text>,
) -> Result<(), LinkError>
    ensures { Checks (parent_faults listed.now owner.now parent.now) tt result }
{
    match parent {
        Some(name) if listed.class_of(name.bytes()).is_none() => {
            Err(unknown(alloc, owner, name.bytes()))
        }
        _ => Ok(()),
    }
}

/// A class is no ancestor of its own, and has not too many.
fn check_chain(
    alloc: Global,
    parents: &[Option<u32>],
    number: u32,
    name: &[u8],
) -> Result<(), LinkError>
    ensures { Checks (check (not (has number (above parents.now (parent_of parents.now number)))) kinds.ClassCycle name.now name.now 0 ++ check (nat_le (different (chain parents.now number)) 64) kinds.ClassTooDeep name.now name.now 0) tt result }
{
    match chain_fault(parents, number) {
        None => Ok(()),
        Some(ChainFault::Cycle) => Err(plain(alloc, LinkKind::ClassCycle, name, name)),
        Some(ChainFault::TooDeep) => Err(plain(alloc, LinkKind::ClassTooDeep, name, name)),
    }
}

/// The class of a number.
fn check_class(
    alloc: Global,
    known: &Known<'_>,
    number: u32,
    class: &ClassParts,
) -> Result<(), LinkError>
    ensures { Checks (class_checks known.now number class.now) tt result }
{
    let name = class.name.bytes();
    if is_taken(known.listed(), number, name) {
        return Err(plain(alloc, LinkKind::DuplicateName, name, name));
    }
    match check_parent(alloc, known.listed(), name, &class.parent) {
        Ok(()) => check_chain(alloc, known.parents(), number, name),
        Err(error) => Err(error),
    }
}

/// All classes: the names, the parents, and how they descend from one another.
pub(crate) fn check_classes(
    alloc: Global,
    known: &Known<'_>,
    classes: &[ClassParts],
) -> Result<(), LinkError>
    requires { 6 + length classes.now < 2 ^ 32 }
    ensures { Checks (each_class (class_checks known.now) first_class classes.now) tt result }
{
    let mut number = 6;
    for class in classes {
        match check_class(alloc, known, number, class) {
            Ok(()) => number += 1,
            Err(error) => return Err(error),
        }
    }
    Ok(())
}
