//! What the program says of a text that has a fault.

ghost use Rattle.std.specs.Prelude.{◌≡◌, ◌<◌, ◌++◌, ◌∷◌, IfOk, OnOk, codes, length, slice_get};
ghost use Rattle.std.specs.Fmt.{decimal};
ghost use Rattle.type_lattice.specs.TypeText.{named};
ghost use Rattle.hhbc_repo.specs.Bodies.{bodies, class_names};
ghost use Rattle.stack_verify.specs.Kept.{kind_of};
ghost use Rattle.hhbbc_top.specs.FaultLines as lines;
ghost use Rattle.hhbbc_top.specs.Report.{body_names};

use hack_values::{NoMemory, Text};
use hhbc_repo::{LinkFault, LinkKind, Repo};
use stack_verify::{ShapeFault, ShapeKind};
use std::alloc::Global;

/// The line of a text whose first fault is at this place.
pub fn text_fault_line(alloc: Global, at: u32) -> Result<Text, NoMemory>
    ensures { IfOk result (λ line. line ≡ lines.bad_text at) }
{
    let digits = format!(in alloc; "{at}")?;
    let mut line = Text::from_bytes(alloc, b"bad text at ")?;
    line.append(digits.as_bytes())?;
    line.append(b"\n")?;
    Ok(line)
}

fn kind_name(kind: LinkKind) -> &'static [u8]
    ensures { result.now ≡ lines.kind_name kind }
{
    match kind {
        LinkKind::DuplicateName => b"DuplicateName",
        LinkKind::UnknownName => b"UnknownName",
        LinkKind::ClassCycle => b"ClassCycle",
        LinkKind::ClassTooDeep => b"ClassTooDeep",
        LinkKind::DuplicateProperty => b"DuplicateProperty",
        LinkKind::WrongArity => b"WrongArity",
        LinkKind::UnknownLabel => b"UnknownLabel",
        LinkKind::DuplicateLabel => b"DuplicateLabel",
        LinkKind::OverLimit => b"OverLimit",
    }
}

/// The owner of a fault; `-` where the whole repository is.
fn owner_text(owner: &[u8]) -> &[u8]
    ensures { result.now ≡ lines.owner_text owner.now }
{
    match owner {
        [] => b"-",
        [_, ..] => owner,
    }
}

/// Adds a number behind a space.
fn push_number(alloc: Global, line: &mut Text, number: u64) -> Result<(), NoMemory>
    ensures { OnOk result (line.new ≡ line.old ++ 32 ∷ decimal number) }
{
    let digits = format!(in alloc; "{number}")?;
    line.append(b" ")?;
    line.append(digits.as_bytes())
}

/// Adds the number found, where the kind has one.
fn push_found(alloc: Global, line: &mut Text, kind: LinkKind, found: u64) -> Result<(), NoMemory>
    ensures { OnOk result (line.new ≡ line.old ++ lines.found_text kind found) }
{
    match kind {
        LinkKind::WrongArity | LinkKind::OverLimit => push_number(alloc, line, found),
        _ => Ok(()),
    }
}

/// Adds the owner and the name of a fault, each behind a space.
fn push_names(line: &mut Text, owner: &[u8], name: &[u8]) -> Result<(), NoMemory>
    ensures { OnOk result (line.new ≡ line.old ++ (32 ∷ (lines.owner_text owner.now ++ (32 ∷ name.now)))) }
{
    line.append(b" ")?;
    line.append(owner_text(owner))?;
    line.append(b" ")?;
    line.append(name)
}

/// The line of a text of which this is the first fault of linking.
pub fn link_fault_line(alloc: Global, fault: &LinkFault) -> Result<Text, NoMemory>
    ensures { IfOk result (λ line. line ≡ lines.bad_link fault.now) }
{
    let mut line = Text::from_bytes(alloc, b"bad link ")?;
    line.append(kind_name(fault.kind))?;
    push_names(&mut line, fault.owner.bytes(), fault.name.bytes())?;
    push_found(alloc, &mut line, fault.kind, fault.found)?;
    line.append(b"\n")?;
    Ok(line)
}

fn shape_kind_name(kind: ShapeKind) -> &'static [u8]
    ensures { result.now ≡ lines.shape_kind_name (kind_of kind) }
{
    match kind {
        ShapeKind::Underflow => b"Underflow",
        ShapeKind::Flavour => b"Flavour",
        ShapeKind::DepthMismatch => b"DepthMismatch",
        ShapeKind::IteratorDead => b"IteratorDead",
        ShapeKind::IteratorLive => b"IteratorLive",
        ShapeKind::IteratorMismatch => b"IteratorMismatch",
        ShapeKind::FallsOff => b"FallsOff",
        ShapeKind::StackTooDeep => b"StackTooDeep",
        ShapeKind::TooManyCells => b"TooManyCells",
    }
}

/// Adds the name of a method, behind that of its class.
fn push_method(line: &mut Text, classes: &[Text], class: u32, name: &[u8]) -> Result<(), NoMemory>
    ensures { OnOk result (line.new ≡ line.old ++ (named (slice_get classes.now class) ++ (codes "::" ++ name.now))) }
{
    if let Some(class_name) = classes.get(class as usize) {
        line.append(class_name.bytes())?;
    }
    line.append(b"::")?;
    line.append(name)
}

/// Adds the name of a body.
#[tactic(auto, using(crate::proofs::BodyNames::function_named, crate::proofs::BodyNames::method_named))]
fn push_body(line: &mut Text, repo: &Repo, body: u32) -> Result<(), NoMemory>
    requires { body < length (bodies repo.now) }
    ensures { OnOk result (line.new ≡ line.old ++ named (slice_get (body_names repo.now) body)) }
{
    let name = repo.body(body).name.bytes();
    match repo.class_of(body) {
        None => line.append(name),
        Some(class) => push_method(line, repo.class_names(), class, name),
    }
}

/// The line of a text of whose repository this is the first check that fails.
pub fn shape_fault_line(alloc: Global, repo: &Repo, fault: ShapeFault) -> Result<Text, NoMemory>
    requires { fault.body < length (bodies repo.now) }
    ensures { IfOk result (λ line. line ≡ lines.bad_shape (record { repo = repo.now; body = fault.body; position = fault.position; kind = kind_of fault.kind })) }
{
    let mut line = Text::from_bytes(alloc, b"bad shape ")?;
    line.append(shape_kind_name(fault.kind))?;
    line.append(b" ")?;
    push_body(&mut line, repo, fault.body)?;
    push_number(alloc, &mut line, fault.position as u64)?;
    line.append(b"\n")?;
    Ok(line)
}
