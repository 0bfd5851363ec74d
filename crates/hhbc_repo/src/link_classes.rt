//! Functions and classes are linked.

ghost use Rattle.std.specs.Prelude.{◌≡◌, ◌++◌, IfOk, codes, map};
ghost use Rattle.std.specs.List.{flat_map};
ghost use Rattle.hhbc_repo.specs.Checks.{Checks};
ghost use Rattle.hhbc_repo.specs.LinkFaults.{body_faults, method_places};
ghost use Rattle.hhbc_repo.specs.Resolved.{resolved_body, resolved_class, resolved_property};

use crate::body::Body;
use crate::known::Known;
use crate::link_bodies::linked_body;
use crate::link_fault::LinkError;
use crate::parts::{BodyParts, ClassParts, PropertyParts};
use crate::repo::{Class, Property};
use hack_values::{NoMemory, Seq, Text};
use std::alloc::Global;

/// The functions. The parts of each are gone once it is linked.
pub(crate) fn linked_functions(
    alloc: Global,
    known: &Known,
    functions: Seq<BodyParts>,
) -> Result<Seq<Body>, LinkError>
    ensures { Checks (flat_map body_faults (map (λ b. record { whole = known.now; body = b; owner = b.name }) functions)) (map (resolved_body known.now) functions) result }
{
    let mut all = Seq::new(alloc);
    for function in functions.into_vec() {
        match linked_body(alloc, known, &function, function.name.bytes()) {
            Ok(linked) => all.push(linked)?,
            Err(error) => return Err(error),
        }
    }
    Ok(all)
}

/// What a method is called.
fn method_owner(alloc: Global, class: &[u8], method: &[u8]) -> Result<Text, NoMemory>
    ensures { IfOk result (λ owner. owner ≡ class.now ++ (codes "::" ++ method.now)) }
{
    let mut owner = Text::from_bytes(alloc, class)?;
    owner.append(b"::")?;
    owner.append(method)?;
    Ok(owner)
}

fn linked_method(
    alloc: Global,
    known: &Known,
    class: &[u8],
    method: &BodyParts,
) -> Result<Body, LinkError>
    ensures { Checks (body_faults (record { whole = known.now; body = method.now; owner = class.now ++ (codes "::" ++ method.now.name) })) (resolved_body known.now method.now) result }
{
    match method_owner(alloc, class, method.name.bytes()) {
        Ok(owner) => linked_body(alloc, known, method, owner.bytes()),
        Err(_want) => Err(LinkError::NoMemory),
    }
}

fn linked_methods(
    alloc: Global,
    known: &Known,
    class: &[u8],
    methods: Seq<BodyParts>,
) -> Result<Seq<Body>, LinkError>
    ensures { Checks (flat_map body_faults (map (λ b. record { whole = known.now; body = b; owner = class.now ++ (codes "::" ++ b.name) }) methods)) (map (resolved_body known.now) methods) result }
{
    let mut all = Seq::new(alloc);
    for method in methods.into_vec() {
        match linked_method(alloc, known, class, &method) {
            Ok(linked) => all.push(linked)?,
            Err(error) => return Err(error),
        }
    }
    Ok(all)
}

fn property(known: &Known, parts: PropertyParts) -> Property
    ensures { result ≡ resolved_property known.now parts }
{
    Property {
        stated: known.listed().numbered_stated(&parts.stated),
        name: parts.name,
        initial: parts.initial,
    }
}

fn properties(
    alloc: Global,
    known: &Known,
    parts: Seq<PropertyParts>,
) -> Result<Seq<Property>, NoMemory>
    ensures { IfOk result (λ all. all ≡ map (resolved_property known.now) parts) }
{
    let mut all = Seq::new(alloc);
    for part in parts.into_vec() {
        all.push(property(known, part))?;
    }
    Ok(all)
}

fn linked_class(alloc: Global, known: &Known, parts: ClassParts) -> Result<Class, LinkError>
    ensures { Checks (flat_map body_faults (method_places known.now parts)) (resolved_class known.now parts) result }
{
    let methods = parts.methods;
    match linked_methods(alloc, known, parts.name.bytes(), methods) {
        Ok(methods) => Ok(Class {
            parent: known.listed().parent_of(&parts.parent),
            name: parts.name,
            consts: parts.consts,
            props: properties(alloc, known, parts.props)?,
            methods,
        }),
        Err(error) => Err(error),
    }
}

/// The classes. The parts of each method are gone once it is linked.
pub(crate) fn linked_classes(
    alloc: Global,
    known: &Known,
    classes: Seq<ClassParts>,
) -> Result<Seq<Class>, LinkError>
    ensures { Checks (flat_map body_faults (flat_map (method_places known.now) classes)) (map (resolved_class known.now) classes) result }
{
    let mut all = Seq::new(alloc);
    for class in classes.into_vec() {
        match linked_class(alloc, known, class) {
            Ok(linked) => all.push(linked)?,
            Err(error) => return Err(error),
        }
    }
    Ok(all)
}
