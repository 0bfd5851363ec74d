//! Codes, with numbers for the names in them. Where an instruction names what it calls, or a constant, that is checked too.

ghost use Rattle.std.specs.Prelude.{◌≡◌, [], ◌∷◌, map};
ghost use Rattle.type_lattice.specs.Classes.{chain};
ghost use Rattle.hhbc_ops.specs.declared.op.Op.TheVariants as ops;
ghost use Rattle.hhbc_repo.specs.Checks.{Checks};
ghost use Rattle.hhbc_repo.specs.declared.parts.ImmParts.TheVariants as named;
ghost use Rattle.hhbc_repo.specs.LinkFaults.{along, class_of, code_faults, constant_faults, constants, function_faults, instruction_faults, method_faults, method_in, methods, names, parents, same_count, with_name};
ghost use Rattle.hhbc_repo.specs.Resolved.{resolved_code, resolved_operand};

use crate::code::{Code, Imm, Instr};
use crate::link_fault::LinkError;
use crate::parts::{BodyParts, CodeParts, ImmParts};
use crate::scope::Scope;
use hack_values::{Seq, Text};
use hhbc_ops::Op;
use std::alloc::Global;

impl<'a> Scope<'a> {
    /// A class has a constant, itself or by an ancestor.
    fn check_constant(&self, alloc: Global, name: &[u8], class: &[u8]) -> Result<(), LinkError>
        ensures { Checks (constant_faults self.now name.now class.now (class_of self.now.whole class.now)) tt result }
    {
        match self.known().listed().class_of(class) {
            Some(number) => {
                if self.known().has_constant(number, name) {
                    Ok(())
                } else {
                    Err(self.missing(alloc, name))
                }
            }
            None => Err(self.missing(alloc, class)),
        }
    }

    /// What is called has so many parameters.
    fn check_count(
        &self,
        alloc: Global,
        name: &[u8],
        count: u16,
        called: &BodyParts,
    ) -> Result<(), LinkError>
        ensures { Checks (same_count self.now name.now count called.now) tt result }
    {
        if called.params.as_slice().len() == usize::from(count) {
            Ok(())
        } else {
            Err(self.miscounted(alloc, name, count))
        }
    }

    /// A class has a method with so many parameters.
    fn check_method_in(
        &self,
        alloc: Global,
        name: &[u8],
        class: u32,
        count: u16,
    ) -> Result<(), LinkError>
        ensures { Checks (method_in self.now name.now count (with_name (along (methods self.now.whole) (chain (parents self.now.whole) class)) name.now)) tt result }
    {
        match self.known().method(class, name) {
            Some(called) => self.check_count(alloc, name, count, called),
            None => Err(self.missing(alloc, name)),
        }
    }

    /// A class that is named has a method with so many parameters.
    fn check_method(
        &self,
        alloc: Global,
        name: &[u8],
        class: &[u8],
        count: u16,
    ) -> Result<(), LinkError>
        ensures { Checks (method_faults self.now name.now class.now count (class_of self.now.whole class.now)) tt result }
    {
        match self.known().listed().class_of(class) {
            Some(number) => self.check_method_in(alloc, name, number, count),
            None => Err(self.missing(alloc, class)),
        }
    }

    /// A function that is there has so many parameters.
    fn check_function(&self, alloc: Global, name: &[u8], count: u16) -> Result<(), LinkError>
        ensures { Checks (function_faults self.now name.now count (with_name self.now.whole.functions name.now)) tt result }
    {
        match self.known().function(name) {
            Some(called) => self.check_count(alloc, name, count, called),
            None => Ok(()),
        }
    }

    /// The operands where a constant of a class is named.
    fn named_constant(
        &self,
        alloc: Global,
        imms: &[ImmParts],
        name: &Text,
        class: &Text,
    ) -> Result<Seq<Imm>, LinkError>
        requires { imms.now ≡ named.Name name.now ∷ named.Class class.now ∷ [] }
        ensures { Checks (instruction_faults self.now ops.ClsCnsD imms.now) (map (resolved_operand self.now.whole self.now.body) imms.now) result }
    {
        match self.check_constant(alloc, name.bytes(), class.bytes()) {
            Ok(()) => self.operands(alloc, imms),
            Err(error) => Err(error),
        }
    }

    fn constant_operands(&self, alloc: Global, imms: &[ImmParts]) -> Result<Seq<Imm>, LinkError>
        ensures { Checks (instruction_faults self.now ops.ClsCnsD imms.now) (map (resolved_operand self.now.whole self.now.body) imms.now) result }
    {
        match imms {
            [ImmParts::Name(name), ImmParts::Class(class)] => {
                self.named_constant(alloc, imms, name, class)
            }
            _ => self.operands(alloc, imms),
        }
    }

    /// The operands where a method of a class is named.
    fn named_method(
        &self,
        alloc: Global,
        imms: &[ImmParts],
        count: u16,
        name: &Text,
        class: &Text,
    ) -> Result<Seq<Imm>, LinkError>
        requires { imms.now ≡ named.Count count ∷ named.Name name.now ∷ named.Class class.now ∷ [] }
        ensures { Checks (instruction_faults self.now ops.FCallClsMethodD imms.now) (map (resolved_operand self.now.whole self.now.body) imms.now) result }
    {
        match self.check_method(alloc, name.bytes(), class.bytes(), count) {
            Ok(()) => self.operands(alloc, imms),
            Err(error) => Err(error),
        }
    }

    fn method_operands(&self, alloc: Global, imms: &[ImmParts]) -> Result<Seq<Imm>, LinkError>
        ensures { Checks (instruction_faults self.now ops.FCallClsMethodD imms.now) (map (resolved_operand self.now.whole self.now.body) imms.now) result }
    {
        match imms {
            [
                ImmParts::Count(count),
                ImmParts::Name(name),
                ImmParts::Class(class),
            ] => { self.named_method(alloc, imms, *count, name, class) }
            _ => self.operands(alloc, imms),
        }
    }

    fn function_operands(&self, alloc: Global, imms: &[ImmParts]) -> Result<Seq<Imm>, LinkError>
        ensures { Checks (instruction_faults self.now ops.FCallFuncD imms.now) (map (resolved_operand self.now.whole self.now.body) imms.now) result }
    {
        match imms {
            [ImmParts::Count(count), ImmParts::Name(name)] => {
                match self.check_function(alloc, name.bytes(), *count) {
                    Ok(()) => self.operands(alloc, imms),
                    Err(error) => Err(error),
                }
            }
            _ => self.operands(alloc, imms),
        }
    }

    /// The operands of an instruction.
    fn operands_of(&self, alloc: Global, op: Op, imms: &[ImmParts]) -> Result<Seq<Imm>, LinkError>
        ensures { Checks (instruction_faults self.now op imms.now) (map (resolved_operand self.now.whole self.now.body) imms.now) result }
    {
        match op {
            Op::ClsCnsD => self.constant_operands(alloc, imms),
            Op::FCallClsMethodD => self.method_operands(alloc, imms),
            Op::FCallFuncD => self.function_operands(alloc, imms),
            _ => self.operands(alloc, imms),
        }
    }

    /// A code.
    pub(crate) fn code(&self, alloc: Global, code: &CodeParts) -> Result<Code, LinkError>
        ensures { Checks (code_faults self.now code.now) (resolved_code self.now.whole self.now.body code.now) result }
    {
        match code {
            CodeParts::Plain(instr) => {
                match self.operands_of(alloc, instr.op, instr.imms.as_slice()) {
                    Ok(imms) => Ok(Code::Plain(Instr { op: instr.op, imms })),
                    Err(error) => Err(error),
                }
            }
            CodeParts::Member(parts) => match self.member(alloc, parts) {
                Ok(member) => Ok(Code::Member(member)),
                Err(error) => Err(error),
            },
        }
    }
}
