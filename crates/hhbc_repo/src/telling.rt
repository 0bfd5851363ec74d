//! Faults of checks, as they are told.

ghost use Rattle.std.specs.Prelude.{◌≡◌, ◌∷◌, IfOk};
ghost use Rattle.hhbc_repo.specs.declared.link_fault.LinkKind.TheVariants as kinds;
ghost use Rattle.hhbc_repo.specs.Checks.{Tells};
ghost use Rattle.hhbc_repo.specs.LinkFaults.{dollar};

use crate::link_fault::{LinkError, LinkFault, LinkKind};
use hack_values::{NoMemory, Text};
use std::alloc::Global;

fn fault_of(
    alloc: Global,
    kind: LinkKind,
    owner: &[u8],
    name: &[u8],
    found: u64,
) -> Result<LinkFault, NoMemory>
    ensures { IfOk result (λ f. f ≡ record { kind = kind; owner = owner.now; name = name.now; found = found }) }
{
    Ok(LinkFault {
        kind,
        owner: Text::from_bytes(alloc, owner)?,
        name: Text::from_bytes(alloc, name)?,
        found,
    })
}

/// A fault with the number that was found.
pub(crate) fn counted(
    alloc: Global,
    kind: LinkKind,
    owner: &[u8],
    name: &[u8],
    found: u64,
) -> LinkError
    ensures { Tells (record { kind = kind; owner = owner.now; name = name.now; found = found }) result }
{
    match fault_of(alloc, kind, owner, name, found) {
        Ok(fault) => LinkError::Fault(fault),
        Err(_want) => LinkError::NoMemory,
    }
}

/// A fault without a number.
pub(crate) fn plain(alloc: Global, kind: LinkKind, owner: &[u8], name: &[u8]) -> LinkError
    ensures { Tells (record { kind = kind; owner = owner.now; name = name.now; found = 0 }) result }
{
    counted(alloc, kind, owner, name, 0)
}

/// A name that nothing has.
pub(crate) fn unknown(alloc: Global, owner: &[u8], name: &[u8]) -> LinkError
    ensures { Tells (record { kind = kinds.UnknownName; owner = owner.now; name = name.now; found = 0 }) result }
{
    plain(alloc, LinkKind::UnknownName, owner, name)
}

fn with_dollar(alloc: Global, name: &[u8]) -> Result<Text, NoMemory>
    ensures { IfOk result (λ t. t ≡ dollar name.now) }
{
    let mut spelled = Text::from_bytes(alloc, b"$")?;
    spelled.append(name)?;
    Ok(spelled)
}

/// A fault that names a local, which is told with its dollar sign.
pub(crate) fn of_local(alloc: Global, kind: LinkKind, owner: &[u8], name: &[u8]) -> LinkError
    ensures { Tells (record { kind = kind; owner = owner.now; name = dollar name.now; found = 0 }) result }
{
    match with_dollar(alloc, name) {
        Ok(spelled) => plain(alloc, kind, owner, spelled.bytes()),
        Err(_want) => LinkError::NoMemory,
    }
}
