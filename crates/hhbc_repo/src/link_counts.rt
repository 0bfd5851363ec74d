//! Counts that have a limit, and how many functions and classes there may be.

ghost use Rattle.std.specs.Prelude.{◌≡◌, IfSome, length};
ghost use Rattle.hhbc_repo.specs.Checks.{Checks};
ghost use Rattle.hhbc_repo.specs.LinkFaults.{count_faults, places, within};

use crate::limits::{MOST_BODIES, MOST_CLASSES};
use crate::link_fault::{LinkError, LinkKind};
use crate::parts::{BodyParts, ClassParts};
use crate::telling::counted;
use std::alloc::Global;

/// How many functions and methods there are, where 64 bits can tell it.
#[tactic(auto, using(crate::proofs::BodyCounts::places_start, crate::proofs::BodyCounts::methods_next))]
fn count_bodies(functions: &[BodyParts], classes: &[ClassParts]) -> Option<u64>
    ensures { IfSome result (λ count. count ≡ length (places (record { functions = functions.now; classes = classes.now }))) }
{
    let mut count = functions.len() as u64;
    for class in classes {
        match count.checked_add(class.methods.as_slice().len() as u64) {
            Some(sum) => count = sum,
            None => return None,
        }
    }
    Some(count)
}

/// A count is no more than it may be. What is counted of the whole repository has the empty name for its owner.
pub(crate) fn check_limit(
    alloc: Global,
    owner: &[u8],
    limit: u64,
    count: u64,
    name: &[u8],
) -> Result<(), LinkError>
    ensures { Checks (within limit count owner.now name.now) tt result }
{
    if count <= limit {
        return Ok(());
    }
    Err(counted(alloc, LinkKind::OverLimit, owner, name, count))
}

/// There are no more functions, methods and classes than may be.
pub(crate) fn check_counts(
    alloc: Global,
    functions: &[BodyParts],
    classes: &[ClassParts],
) -> Result<(), LinkError>
    ensures { Checks (count_faults (record { functions = functions.now; classes = classes.now })) tt result }
{
    match count_bodies(functions, classes) {
        Some(count) => match check_limit(alloc, b"", MOST_BODIES, count, b"functions") {
            Ok(()) => check_limit(alloc, b"", MOST_CLASSES, classes.len() as u64, b"classes"),
            Err(error) => Err(error),
        },
        None => Err(LinkError::NoMemory),
    }
}
