//! Checks of what classes declare.

ghost use Rattle.std.specs.Prelude.{◌≡◌, ◌<◌, ◌^◌, ◌+◌, ◌∷◌, ◌++◌, [], length, not};
ghost use Rattle.hhbc_repo.specs.Checks.{Checks};
ghost use Rattle.hhbc_repo.specs.LinkFaults as faults;
ghost use Rattle.hhbc_repo.specs.LinkFaults.{along, ancestors, check, each_class, first_class, member_checks, names, property_checks, stated_faults};
ghost use Rattle.hhbc_repo.specs.declared.link_fault.LinkKind.TheVariants as kinds;

use crate::distinct_names::{check_consts, check_methods, with_new};
use crate::known::Known;
use crate::link_fault::{LinkError, LinkKind};
use crate::listed::Listed;
use crate::name_table::NameTable;
use crate::parts::{ClassParts, PropertyParts, TypeParts};
use crate::telling::plain;
use std::alloc::Global;

/// With the next property, which neither its class nor an ancestor of that is to have already.
#[tactic(auto, using(crate::proofs::NamesMet::names_inherited, crate::proofs::NamesMet::names_behind))]
fn with_new_property(
    seen: NameTable,
    alloc: Global,
    known: &Known<'_>,
    number: u32,
    owner: &[u8],
    name: &[u8],
) -> Result<NameTable, LinkError>
    ensures { Checks (check (not (names (along (faults.properties known.now) (ancestors known.now number) ++ seen) name.now)) kinds.DuplicateProperty owner.now name.now 0) (seen ++ name.now ∷ []) result }
{
    if known.has_inherited_property(number, name) {
        return Err(plain(alloc, LinkKind::DuplicateProperty, owner, name));
    }
    with_new(seen, alloc, LinkKind::DuplicateProperty, owner, name)
}

/// The classes of a type that is stated are to be there.
fn check_stated(
    alloc: Global,
    listed: &Listed<'_>,
    owner: &[u8],
    stated: &Option<TypeParts>,
) -> Result<(), LinkError>
    ensures { Checks (stated_faults listed.now owner.now stated.now) tt result }
{
    match listed.linked_stated(alloc, owner, stated) {
        Ok(_linked) => Ok(()),
        Err(error) => Err(error),
    }
}

/// With the next property, which is to be new and of a type whose classes are there.
fn with_property(
    seen: NameTable,
    alloc: Global,
    known: &Known<'_>,
    number: u32,
    owner: &[u8],
    property: &PropertyParts,
) -> Result<NameTable, LinkError>
    ensures { Checks (check (not (names (along (faults.properties known.now) (ancestors known.now number) ++ seen) property.now.name)) kinds.DuplicateProperty owner.now property.now.name 0 ++ stated_faults known.now owner.now property.now.stated) (seen ++ property.now.name ∷ []) result }
{
    match with_new_property(seen, alloc, known, number, owner, property.name.bytes()) {
        Ok(more) => match check_stated(alloc, known.listed(), owner, &property.stated) {
            Ok(()) => Ok(more),
            Err(error) => Err(error),
        },
        Err(error) => Err(error),
    }
}

/// The properties of the class of a number.
fn check_properties(
    alloc: Global,
    known: &Known<'_>,
    number: u32,
    owner: &[u8],
    properties: &[PropertyParts],
) -> Result<(), LinkError>
    ensures { Checks (property_checks known.now owner.now (along (faults.properties known.now) (ancestors known.now number)) properties.now) tt result }
{
    let mut seen = NameTable::new(alloc);
    for property in properties {
        match with_property(seen, alloc, known, number, owner, property) {
            Ok(more) => seen = more,
            Err(error) => return Err(error),
        }
    }
    Ok(())
}

/// What the class of a number declares.
fn check_class_members(
    alloc: Global,
    known: &Known<'_>,
    number: u32,
    class: &ClassParts,
) -> Result<(), LinkError>
    ensures { Checks (member_checks known.now number class.now) tt result }
{
    let name = class.name.bytes();
    match check_consts(alloc, name, class.consts.as_slice()) {
        Ok(()) => match check_properties(alloc, known, number, name, class.props.as_slice()) {
            Ok(()) => check_methods(alloc, name, class.methods.as_slice()),
            Err(error) => Err(error),
        },
        Err(error) => Err(error),
    }
}

/// What all classes declare.
pub(crate) fn check_members(
    alloc: Global,
    known: &Known<'_>,
    classes: &[ClassParts],
) -> Result<(), LinkError>
    requires { 6 + length classes.now < 2 ^ 32 }
    ensures { Checks (each_class (member_checks known.now) first_class classes.now) tt result }
{
    let mut number = 6;
    for class in classes {
        match check_class_members(alloc, known, number, class) {
            Ok(()) => number += 1,
            Err(error) => return Err(error),
        }
    }
    Ok(())
}
