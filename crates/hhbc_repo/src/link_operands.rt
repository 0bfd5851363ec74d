//! Operands, with numbers for the names in them.

ghost use Rattle.std.specs.Prelude.{◌≡◌, ◌++◌, IfOk, map, option_map};
ghost use Rattle.std.specs.List.{flat_map};
ghost use Rattle.hhbc_repo.specs.Checks.{Checks};
ghost use Rattle.hhbc_repo.specs.LinkFaults.{key_local, label_faults, local_faults, operand_faults};
ghost use Rattle.hhbc_repo.specs.Resolved.{local_number, resolved_arm, resolved_operand};
ghost use Rattle.hhbc_repo.specs.declared.code.Imm.TheVariants as imms;

use crate::code::{Arm, Imm};
use crate::link_fault::LinkError;
use crate::parts::{ArmParts, ImmParts};
use crate::scope::Scope;
use hack_values::{NoMemory, Seq, Text};
use std::alloc::Global;

pub(crate) fn perhaps_copied(alloc: Global, text: &Option<Text>) -> Result<Option<Text>, NoMemory>
    ensures { IfOk result (λ copy. copy ≡ text.now) }
{
    match text {
        Some(text) => Ok(Some(text.copy(alloc)?)),
        None => Ok(None),
    }
}

impl<'a> Scope<'a> {
    fn arm(&self, alloc: Global, arm: &ArmParts) -> Result<Arm, LinkError>
        ensures { Checks (label_faults self.now arm.now.target) (resolved_arm self.now.body arm.now) result }
    {
        match self.label(alloc, arm.target.bytes()) {
            Ok(target) => match perhaps_copied(alloc, &arm.text) {
                Ok(text) => Ok(Arm { text, target }),
                Err(_want) => Err(LinkError::NoMemory),
            },
            Err(error) => Err(error),
        }
    }

    fn arms(&self, alloc: Global, arms: &[ArmParts]) -> Result<Seq<Arm>, LinkError>
        ensures { Checks (flat_map (λ a. label_faults self.now a.target) arms.now) (map (resolved_arm self.now.body) arms.now) result }
    {
        let mut linked = Seq::new(alloc);
        for arm in arms {
            match self.arm(alloc, arm) {
                Ok(arm) => linked.push(arm)?,
                Err(error) => return Err(error),
            }
        }
        Ok(linked)
    }

    fn perhaps_local(&self, alloc: Global, name: &Option<Text>) -> Result<Option<u8>, LinkError>
        ensures { Checks (key_local self.now name.now) (option_map (local_number self.now.body) name.now) result }
    {
        match name {
            Some(name) => match self.local(alloc, name.bytes()) {
                Ok(number) => Ok(Some(number)),
                Err(error) => Err(error),
            },
            None => Ok(None),
        }
    }

    /// The locals of an iterator's key, where it is told, and of its value.
    fn iterator_locals(
        &self,
        alloc: Global,
        key: &Option<Text>,
        value: &[u8],
    ) -> Result<Imm, LinkError>
        ensures { Checks (key_local self.now key.now ++ local_faults self.now value.now) (imms.IterLocals (option_map (local_number self.now.body) key.now) (local_number self.now.body value.now)) result }
    {
        match self.perhaps_local(alloc, key) {
            Ok(key) => match self.local(alloc, value) {
                Ok(value) => Ok(Imm::IterLocals(key, value)),
                Err(error) => Err(error),
            },
            Err(error) => Err(error),
        }
    }

    /// An operand.
    fn operand(&self, alloc: Global, imm: &ImmParts) -> Result<Imm, LinkError>
        ensures { Checks (operand_faults self.now imm.now) (resolved_operand self.now.whole self.now.body imm.now) result }
    {
        match imm {
            ImmParts::Local(name) => match self.local(alloc, name.bytes()) {
                Ok(number) => Ok(Imm::Local(number)),
                Err(error) => Err(error),
            },
            ImmParts::Iter(number) => match self.iterator(alloc, *number) {
                Ok(number) => Ok(Imm::Iter(number)),
                Err(error) => Err(error),
            },
            ImmParts::Pos(name) => match self.label(alloc, name.bytes()) {
                Ok(number) => Ok(Imm::Pos(number)),
                Err(error) => Err(error),
            },
            ImmParts::Class(name) => match self.class(alloc, name.bytes()) {
                Ok(number) => Ok(Imm::Class(number)),
                Err(error) => Err(error),
            },
            ImmParts::Constraint(parts) => match self.linked_type(alloc, parts) {
                Ok(linked) => Ok(Imm::Constraint(linked)),
                Err(error) => Err(error),
            },
            ImmParts::Arms(arms) => match self.arms(alloc, arms.as_slice()) {
                Ok(linked) => Ok(Imm::Arms(linked)),
                Err(error) => Err(error),
            },
            ImmParts::IterLocals(key, value) => self.iterator_locals(alloc, key, value.bytes()),
            ImmParts::Int(number) => Ok(Imm::Int(*number)),
            ImmParts::Count(count) => Ok(Imm::Count(*count)),
            ImmParts::Str(text) => Ok(Imm::Str(text.copy(alloc)?)),
            ImmParts::Name(name) => Ok(Imm::Name(name.copy(alloc)?)),
            ImmParts::IncDec(op) => Ok(Imm::IncDec(*op)),
            ImmParts::SetOp(op) => Ok(Imm::SetOp(*op)),
            ImmParts::IsType(op) => Ok(Imm::IsType(*op)),
        }
    }

    /// The operands of an instruction.
    pub(crate) fn operands(&self, alloc: Global, imms: &[ImmParts]) -> Result<Seq<Imm>, LinkError>
        ensures { Checks (flat_map (operand_faults self.now) imms.now) (map (resolved_operand self.now.whole self.now.body) imms.now) result }
    {
        let mut linked = Seq::new(alloc);
        for imm in imms {
            match self.operand(alloc, imm) {
                Ok(imm) => linked.push(imm)?,
                Err(error) => return Err(error),
            }
        }
        Ok(linked)
    }
}
