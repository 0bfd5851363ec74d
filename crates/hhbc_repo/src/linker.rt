//! A repository is linked.

ghost use Rattle.std.specs.Prelude.{◌≡◌, ◌<◌, ◌+◌, ◌^◌, length, map, true};
ghost use Rattle.std.specs.List.{flat_map};
ghost use Rattle.hhbc_repo.specs.Checks.{Checks};
ghost use Rattle.hhbc_repo.specs.Lengths.{parts_fewer};
ghost use Rattle.hhbc_repo.specs.LinkFaults.{Whole, body_faults, faults, properties};
ghost use Rattle.hhbc_repo.specs.LinkResults.{Links};
ghost use Rattle.hhbc_repo.specs.LookUps.{total};
ghost use Rattle.hhbc_repo.specs.Outlines.{bodies_among, declared_faults};
ghost use Rattle.hhbc_repo.specs.Resolved.{resolved_body, resolved_class};

use crate::body::Body;
use crate::class_checks::check_classes;
use crate::distinct_names::check_functions;
use crate::known::Known;
use crate::link_classes::{linked_classes, linked_functions};
use crate::link_counts::check_counts;
use crate::link_fault::LinkError;
use crate::member_checks::check_members;
use crate::outlines::{body_outlines, class_outlines};
use crate::parts::{BodyParts, ClassParts};
use crate::repo::{Class, Repo};
use crate::whole_parts::Parts;
use hack_values::Seq;
use std::alloc::Global;

/// All bodies, those of functions first, and the classes that have the others. The parts of each body are gone once it is linked.
fn linked_bodies(
    alloc: Global,
    known: &Known,
    functions: Seq<BodyParts>,
    classes: Seq<ClassParts>,
) -> Result<(Seq<Body>, Seq<Class>), LinkError>
    ensures { Checks (flat_map body_faults (bodies_among known.now functions classes)) (map (resolved_body known.now) functions, map (resolved_class known.now) classes) result }
{
    match linked_functions(alloc, known, functions) {
        Ok(functions) => match linked_classes(alloc, known, classes) {
            Ok(classes) => Ok((functions, classes)),
            Err(error) => Err(error),
        },
        Err(error) => Err(error),
    }
}

/// What is declared is checked, and then all bodies are linked.
fn linked_known(
    alloc: Global,
    known: &Known,
    functions: Seq<BodyParts>,
    classes: Seq<ClassParts>,
) -> Result<(Seq<Body>, Seq<Class>), LinkError>
    requires { 6 + length classes < 2 ^ 32 }
    ensures { Checks (declared_faults known.now functions classes) (map (resolved_body known.now) functions, map (resolved_class known.now) classes) result }
{
    if let Err(error) = check_functions(alloc, functions.as_slice()) {
        return Err(error);
    }
    if let Err(error) = check_classes(alloc, known, classes.as_slice()) {
        return Err(error);
    }
    if let Err(error) = check_members(alloc, known, classes.as_slice()) {
        return Err(error);
    }
    linked_bodies(alloc, known, functions, classes)
}

/// What is declared, within its limits. Bodies are linked by the outlines of all, so that each body's parts can be given away.
fn linked_in_limits(
    alloc: Global,
    functions: Seq<BodyParts>,
    classes: Seq<ClassParts>,
) -> Result<(Seq<Body>, Seq<Class>), LinkError>
    requires { 6 + length classes < 2 ^ 32 }
    ensures { (w : Whole) → w ≡ record { functions = functions; classes = classes }
        → Checks (declared_faults w w.functions w.classes) (map (resolved_body w) w.functions, map (resolved_class w) w.classes) result }
{
    let callable = body_outlines(alloc, functions.as_slice())?;
    let declared = class_outlines(alloc, classes.as_slice())?;
    match Known::new(alloc, callable.as_slice(), declared.as_slice()) {
        Ok(known) => linked_known(alloc, &known, functions, classes),
        Err(_want) => Err(LinkError::NoMemory),
    }
}

/// What is declared, checked and linked.
fn linked_parts(
    alloc: Global,
    functions: Seq<BodyParts>,
    classes: Seq<ClassParts>,
) -> Result<(Seq<Body>, Seq<Class>), LinkError>
    ensures { (w : Whole) → w ≡ record { functions = functions; classes = classes }
        → Checks (faults w) (map (resolved_body w) w.functions, map (resolved_class w) w.classes) result }
{
    match check_counts(alloc, functions.as_slice(), classes.as_slice()) {
        Ok(()) => linked_in_limits(alloc, functions, classes),
        Err(error) => Err(error),
    }
}

/// Links names to what they name. Locals and labels become numbers within their body, and classes numbers
/// within the repository, the built-in ones first.
pub fn link(alloc: Global, parts: Parts) -> Result<Repo, LinkError>
    requires properties { total (properties (record { functions = parts.functions; classes = parts.classes })) + 1 < 2 ^ 32 }
    requires lists { parts_fewer (2 ^ 32) (record { functions = parts.functions; classes = parts.classes }) ≡ true }
    ensures { Links (record { functions = parts.functions; classes = parts.classes }) result }
{
    match linked_parts(alloc, parts.functions, parts.classes) {
        Ok((functions, classes)) => match Repo::new(alloc, functions, classes) {
            Ok(repo) => Ok(repo),
            Err(_want) => Err(LinkError::NoMemory),
        },
        Err(error) => Err(error),
    }
}
