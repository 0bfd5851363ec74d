//! Names within a body: its locals, its labels and its iterators, and the classes of the whole.

ghost use Rattle.std.specs.Prelude.{◌≡◌, ◌<◌, ◌≤◌, ◌^◌, IfOk, length, nat_lt, false};
ghost use Rattle.std.specs.List.{flat_map};
ghost use Rattle.std.specs.Fmt.{decimal};
ghost use Rattle.hhbc_repo.specs.Checks.{Checks, Tells, TellsFirst};
ghost use Rattle.hhbc_repo.specs.LabelTables.{FindsLabels};
ghost use Rattle.hhbc_repo.specs.LinkFaults.{check, class_faults, known as known_faults, label_faults, local_faults, locals_of, position_in, positions_of, type_faults};
ghost use Rattle.hhbc_repo.specs.Resolved.{class_number, label_number, local_number, resolved_type};
ghost use Rattle.hhbc_repo.specs.declared.link_fault.LinkKind.TheVariants as kinds;

use crate::class_list::push_name;
use crate::first_numbers::FirstNumbers;
use crate::known::Known;
use crate::link_fault::{LinkError, LinkKind};
use crate::listed::places_of;
use crate::parts::{BodyParts, ItemParts, TypeParts};
use crate::telling::{counted, of_local, plain, unknown};
use hack_values::{NoMemory, Seq, Text};
use std::alloc::Global;
use std::marker::Model;
use type_lattice::HType;

/// A body, what it is called in faults, and the numbers of its names.
#[derive(Drop)]
pub(crate) struct Scope<'a> {
    known: &'a Known<'a>,
    body: &'a BodyParts,
    owner: &'a [u8],
    locals: FirstNumbers,
    labels: FirstNumbers,
}

impl<'a> Model for Scope<'a> {
    ghost use Rattle.std.specs.Prelude.{◌≤◌, length};
    ghost use Rattle.hhbc_repo.specs.FirstNumbers.{Finds};
    ghost use Rattle.hhbc_repo.specs.LabelTables.{FindsLabels};
    ghost use Rattle.hhbc_repo.specs.LinkFaults.{Place, locals_of};
    ghost use Rattle.std.specs.Coded.{codes};
    ghost use Rattle.hack_values.specs.Code.{coded_val, coded_key};

    ghost Value = { Place };

    ghost coded = { Prim.hlevel (codes, coded_val, coded_key) };

    ghost view = { λ s. record { whole = s.known.now; body = s.body.now; owner = s.owner.now } };

    ghost invariant = { λ s. (length (locals_of s.body.now) ≤ 255) × (Finds s.locals (locals_of s.body.now) × FindsLabels s.labels s.body.now.items) };
}

/// The names of the locals, parameters first.
pub(crate) fn local_names(alloc: Global, body: &BodyParts) -> Result<Seq<Text>, NoMemory>
    ensures { IfOk result (λ names. names ≡ locals_of body.now) }
{
    let mut names = Seq::new(alloc);
    for param in body.params.as_slice() {
        push_name(&mut names, alloc, param.bytes())?;
    }
    for local in body.locals.as_slice() {
        push_name(&mut names, alloc, local.bytes())?;
    }
    Ok(names)
}

/// How many positions stand before the first label of each name.
fn numbered_labels(alloc: Global, items: &[ItemParts]) -> Result<FirstNumbers, NoMemory>
    requires { length (flat_map position_in items.now) < 2 ^ 32 }
    ensures { IfOk result (λ labels. FindsLabels labels items.now) }
{
    let mut labels = FirstNumbers::new(alloc);
    let mut here: u32 = 0;
    for item in items {
        match item {
            ItemParts::Label(name) => labels = labels.with(alloc, name.bytes(), here)?,
            ItemParts::Position(_) => here += 1,
            ItemParts::Try => {}
            ItemParts::Catch => {}
            ItemParts::End => {}
        }
    }
    Ok(labels)
}

/// A number that nothing has.
fn unknown_number(alloc: Global, owner: &[u8], number: u8) -> LinkError
    ensures { Tells (record { kind = kinds.UnknownName; owner = owner.now; name = decimal number; found = 0 }) result }
{
    match format!(in alloc; "{number}") {
        Ok(text) => unknown(alloc, owner, text.as_bytes()),
        Err(_want) => LinkError::NoMemory,
    }
}

impl<'a> Scope<'a> {
    /// A body of which the names of the locals are listed.
    pub(crate) fn new(
        alloc: Global,
        known: &'a Known<'a>,
        body: &'a BodyParts,
        owner: &'a [u8],
        names: &[Text],
    ) -> Result<Scope<'a>, NoMemory>
        requires names { names.now ≡ locals_of body.now }
        requires few { length (locals_of body.now) ≤ 255 }
        requires fits { length (positions_of body.now) < 2 ^ 32 }
        ensures { IfOk result (λ s. s ≡ record { whole = known.now; body = body.now; owner = owner.now }) }
    {
        let locals = places_of(alloc, names)?;
        let labels = numbered_labels(alloc, body.items.as_slice())?;
        Ok(Scope {
            known,
            body,
            owner,
            locals,
            labels,
        })
    }

    /// The number of a local.
    pub(crate) fn local(&self, alloc: Global, name: &[u8]) -> Result<u8, LinkError>
        ensures { Checks (local_faults self.now name.now) (local_number self.now.body name.now) result }
    {
        match self.locals.find(name) {
            Some(number) => Ok(number as u8),
            None => Err(of_local(alloc, LinkKind::UnknownName, self.owner, name)),
        }
    }

    /// The position of a label.
    pub(crate) fn label(&self, alloc: Global, name: &[u8]) -> Result<u32, LinkError>
        ensures { Checks (label_faults self.now name.now) (label_number self.now.body name.now) result }
    {
        match self.labels.find(name) {
            Some(number) => Ok(number),
            None => Err(plain(alloc, LinkKind::UnknownLabel, self.owner, name)),
        }
    }

    /// The number of a class.
    pub(crate) fn class(&self, alloc: Global, name: &[u8]) -> Result<u32, LinkError>
        ensures { Checks (class_faults self.now.whole self.now.owner name.now) (class_number self.now.whole name.now) result }
    {
        match self.known.listed().class_of(name) {
            Some(number) => Ok(number),
            None => Err(unknown(alloc, self.owner, name)),
        }
    }

    /// The number of an iterator.
    pub(crate) fn iterator(&self, alloc: Global, number: u8) -> Result<u8, LinkError>
        ensures { Checks (known_faults (nat_lt number self.now.body.iters) self.now.owner (decimal number)) number result }
    {
        if u16::from(number) < self.body.iters {
            Ok(number)
        } else {
            Err(unknown_number(alloc, self.owner, number))
        }
    }

    /// A type with its classes by number.
    pub(crate) fn linked_type(&self, alloc: Global, parts: &TypeParts) -> Result<HType, LinkError>
        ensures { Checks (type_faults self.now.whole self.now.owner parts.now) (resolved_type self.now.whole parts.now) result }
    {
        self.known.listed().linked_type(alloc, self.owner, parts)
    }

    /// What the body is among.
    pub(crate) fn known(&self) -> &Known<'a>
        ensures { result.now ≡ self.now.whole }
    {
        self.known
    }

    /// A name that nothing has.
    pub(crate) fn missing(&self, alloc: Global, name: &[u8]) -> LinkError
        ensures { TellsFirst (known_faults false self.now.owner name.now) result }
    {
        unknown(alloc, self.owner, name)
    }

    /// A count that isn't that of the parameters of what is called.
    pub(crate) fn miscounted(&self, alloc: Global, name: &[u8], count: u16) -> LinkError
        ensures { TellsFirst (check false kinds.WrongArity self.now.owner name.now count) result }
    {
        counted(alloc, LinkKind::WrongArity, self.owner, name, count as u64)
    }

    /// The items of the body.
    pub(crate) fn items(&self) -> &[ItemParts]
        ensures { result.now ≡ self.now.body.items }
    {
        self.body.items.as_slice()
    }
}
