//! Names that are to be unlike those before them.

ghost use Rattle.std.specs.Prelude.{◌≡◌, [], ◌∷◌, ◌++◌, false, map, not};
ghost use Rattle.std.specs.List.{flat_map};
ghost use Rattle.hhbc_repo.specs.Checks.{Checks};
ghost use Rattle.hhbc_repo.specs.LinkFaults.{as_it_is, check, differ_from, dollar, label_of, names, repeated_functions};
ghost use Rattle.hhbc_repo.specs.declared.link_fault.LinkKind.TheVariants as kinds;

use crate::link_fault::{LinkError, LinkKind};
use crate::name_table::NameTable;
use crate::parts::{BodyParts, ItemParts};
use crate::repo::Const;
use crate::telling::{of_local, plain};
use hack_values::Text;
use std::alloc::Global;

/// With a name that isn't there.
fn grown(mut seen: NameTable, alloc: Global, name: &[u8]) -> Result<NameTable, LinkError>
    requires { names seen name.now ≡ false }
    ensures { Checks [] (seen ++ name.now ∷ []) result }
{
    match seen.add(alloc, name) {
        Ok(()) => Ok(seen),
        Err(_want) => Err(LinkError::NoMemory),
    }
}

/// With the next name, which is to be new.
pub(crate) fn with_new(
    seen: NameTable,
    alloc: Global,
    kind: LinkKind,
    owner: &[u8],
    name: &[u8],
) -> Result<NameTable, LinkError>
    ensures { Checks (check (not (names seen name.now)) kind owner.now name.now 0) (seen ++ name.now ∷ []) result }
{
    if seen.contains(name) {
        return Err(plain(alloc, kind, owner, name));
    }
    grown(seen, alloc, name)
}

/// With the next local, which is to be new. It is told of with its dollar sign.
pub(crate) fn with_new_local(
    seen: NameTable,
    alloc: Global,
    owner: &[u8],
    name: &[u8],
) -> Result<NameTable, LinkError>
    ensures { Checks (check (not (names seen name.now)) kinds.DuplicateName owner.now (dollar name.now) 0) (seen ++ name.now ∷ []) result }
{
    if seen.contains(name) {
        return Err(of_local(alloc, LinkKind::DuplicateName, owner, name));
    }
    grown(seen, alloc, name)
}

/// Each constant's name is to be new.
pub(crate) fn check_consts(alloc: Global, owner: &[u8], consts: &[Const]) -> Result<(), LinkError>
    ensures { Checks (differ_from kinds.DuplicateName owner.now as_it_is [] (map (λ k. k.name) consts.now)) tt result }
{
    let mut seen = NameTable::new(alloc);
    for constant in consts {
        match with_new(
            seen,
            alloc,
            LinkKind::DuplicateName,
            owner,
            constant.name.bytes(),
        ) {
            Ok(more) => seen = more,
            Err(error) => return Err(error),
        }
    }
    Ok(())
}

/// Each method's name is to be new.
pub(crate) fn check_methods(
    alloc: Global,
    owner: &[u8],
    methods: &[BodyParts],
) -> Result<(), LinkError>
    ensures { Checks (differ_from kinds.DuplicateName owner.now as_it_is [] (map (λ b. b.name) methods.now)) tt result }
{
    let mut seen = NameTable::new(alloc);
    for method in methods {
        match with_new(
            seen,
            alloc,
            LinkKind::DuplicateName,
            owner,
            method.name.bytes(),
        ) {
            Ok(more) => seen = more,
            Err(error) => return Err(error),
        }
    }
    Ok(())
}

/// Each function's name is to be new.
pub(crate) fn check_functions(alloc: Global, functions: &[BodyParts]) -> Result<(), LinkError>
    ensures { Checks (repeated_functions [] functions.now) tt result }
{
    let mut seen = NameTable::new(alloc);
    for function in functions {
        let name = function.name.bytes();
        match with_new(seen, alloc, LinkKind::DuplicateName, name, name) {
            Ok(more) => seen = more,
            Err(error) => return Err(error),
        }
    }
    Ok(())
}

/// With more locals, each of which is to be new.
fn with_locals(
    start: NameTable,
    alloc: Global,
    owner: &[u8],
    locals: &[Text],
) -> Result<NameTable, LinkError>
    ensures { Checks (differ_from kinds.DuplicateName owner.now dollar start locals.now) (start ++ locals.now) result }
{
    let mut seen = start;
    for local in locals {
        match with_new_local(seen, alloc, owner, local.bytes()) {
            Ok(more) => seen = more,
            Err(error) => return Err(error),
        }
    }
    Ok(seen)
}

/// Each label is to be new.
pub(crate) fn check_labels(
    alloc: Global,
    owner: &[u8],
    items: &[ItemParts],
) -> Result<(), LinkError>
    ensures { Checks (differ_from kinds.DuplicateLabel owner.now as_it_is [] (flat_map label_of items.now)) tt result }
{
    let mut seen = NameTable::new(alloc);
    for item in items {
        if let ItemParts::Label(label) = item {
            match with_new(seen, alloc, LinkKind::DuplicateLabel, owner, label.bytes()) {
                Ok(more) => seen = more,
                Err(error) => return Err(error),
            }
        }
    }
    Ok(())
}

/// The locals of a body, parameters first, each of which is to be new.
pub(crate) fn check_locals(
    alloc: Global,
    owner: &[u8],
    params: &[Text],
    locals: &[Text],
) -> Result<(), LinkError>
    ensures { Checks (differ_from kinds.DuplicateName owner.now dollar [] (params.now ++ locals.now)) tt result }
{
    match with_locals(NameTable::new(alloc), alloc, owner, params) {
        Ok(seen) => match with_locals(seen, alloc, owner, locals) {
            Ok(_all) => Ok(()),
            Err(error) => Err(error),
        },
        Err(error) => Err(error),
    }
}
