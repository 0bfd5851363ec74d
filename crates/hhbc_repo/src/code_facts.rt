//! What is known of a code by itself: whether it may raise an exception, whether it goes on, what it reads and where it leads.

ghost use Rattle.std.specs.Prelude.{◌≡◌, ◌++◌, List, ℕ, map, IfOk, OnOk};
ghost use Rattle.std.specs.List.{flat_map};
ghost use Rattle.hhbc_repo.specs.Codes as codes;
ghost use Rattle.hhbc_repo.specs.EachOnce.{joined, perhaps};

use crate::code::{Arm, Base, Code, Final, Imm, Instr, MemberKey, MemberSeq};
use hack_values::{NoMemory, Seq};
use hhbc_ops::{OperandUse, has_next, may_throw, operand_use};
use std::alloc::Global;

/// Whether the code may raise an exception.
pub fn code_may_throw(code: &Code) -> bool
    ensures { result ≡ codes.throws code.now }
{
    match code {
        Code::Plain(instr) => may_throw(instr.op),
        Code::Member(_) => true,
    }
}

/// Whether the position behind the code may come next.
pub fn code_goes_on(code: &Code) -> bool
    ensures { result ≡ codes.goes_on code.now }
{
    match code {
        Code::Plain(instr) => has_next(instr.op),
        Code::Member(_) => true,
    }
}

/// The local among the operands, which is the first one.
fn local_of(imms: &[Imm]) -> u8
    ensures { result ≡ codes.local_of imms.now }
{
    match imms {
        [Imm::Local(local), ..] => *local,
        _ => 0,
    }
}

/// The local among the operands, where it is read or tested.
fn local_read_by(operand: OperandUse, imms: &[Imm]) -> Option<u8>
    ensures { perhaps result ≡ codes.read_by operand imms.now }
{
    match operand {
        OperandUse::ReadsLocal => Some(local_of(imms)),
        OperandUse::Nothing
        | OperandUse::SetsLocal
        | OperandUse::BeginsIter
        | OperandUse::AdvancesIter
        | OperandUse::FreesIter => None,
    }
}

/// The locals that an instruction reads: one at most.
fn instruction_locals(alloc: Global, instr: &Instr) -> Result<Seq<u8>, NoMemory>
    ensures { IfOk result (λ locals. locals ≡ codes.op_reads instr.now.op instr.now.imms) }
{
    let mut locals = Seq::new(alloc);
    if let Some(local) = local_read_by(operand_use(instr.op), instr.imms.as_slice()) {
        locals.push(local)?;
    }
    Ok(locals)
}

fn base_local(base: Base) -> Option<u8>
    ensures { perhaps result ≡ codes.base_locals base }
{
    match base {
        Base::Local(local) => Some(local),
        Base::Stack(_) | Base::This => None,
    }
}

fn key_local(key: &MemberKey) -> Option<u8>
    ensures { perhaps result ≡ codes.key_locals key.now }
{
    match key {
        MemberKey::ElemLocal(local) | MemberKey::PropLocal(local) => Some(*local),
        _ => None,
    }
}

/// The last key of a member sequence.
pub fn last_key(last: &Final) -> &MemberKey
    ensures { result.now ≡ codes.last_key last.now }
{
    match last {
        Final::Query(_, _, key)
        | Final::Set(_, key)
        | Final::SetOp(_, _, key)
        | Final::IncDec(_, _, key)
        | Final::Unset(_, key) => key,
    }
}

/// Adds a local, where there is one and the list doesn't have it yet.
fn add_once(locals: &mut Seq<u8>, local: Option<u8>) -> Result<(), NoMemory>
    ensures { OnOk result ((more : List ℕ) → joined locals.new more ≡ joined locals.old (perhaps local ++ more)) }
{
    match local {
        Some(local) => {
            if !locals.as_slice().contains(&local) {
                locals.push(local)?;
            }
            Ok(())
        }
        None => Ok(()),
    }
}

/// Adds the locals of keys.
fn add_key_locals(locals: &mut Seq<u8>, keys: &[MemberKey]) -> Result<(), NoMemory>
    ensures { OnOk result ((more : List ℕ) → joined locals.new more ≡ joined locals.old (flat_map codes.key_locals keys.now ++ more)) }
{
    for key in keys {
        add_once(locals, key_local(key))?;
    }
    Ok(())
}

/// The locals that a member sequence reads.
fn sequence_locals(alloc: Global, sequence: &MemberSeq) -> Result<Seq<u8>, NoMemory>
    ensures { IfOk result (λ locals. locals ≡ codes.each_once (codes.base_locals sequence.now.base ++ flat_map codes.key_locals (codes.keys_of sequence.now))) }
{
    let mut locals = Seq::new(alloc);
    add_once(&mut locals, base_local(sequence.base))?;
    add_key_locals(&mut locals, sequence.dims.as_slice())?;
    add_once(&mut locals, key_local(last_key(&sequence.last)))?;
    Ok(locals)
}

/// The locals that the code reads, in order, each once.
pub fn reads_locals(alloc: Global, code: &Code) -> Result<Seq<u8>, NoMemory>
    ensures { IfOk result (λ locals. locals ≡ codes.reads_locals code.now) }
{
    match code {
        Code::Plain(instr) => instruction_locals(alloc, instr),
        Code::Member(sequence) => sequence_locals(alloc, sequence),
    }
}

fn push_arm_labels(labels: &mut Seq<u32>, arms: &[Arm]) -> Result<(), NoMemory>
    ensures { OnOk result (labels.new ≡ labels.old ++ map (λ a. a.target) arms.now) }
{
    for arm in arms {
        labels.push(arm.target)?;
    }
    Ok(())
}

fn push_operand_labels(labels: &mut Seq<u32>, operand: &Imm) -> Result<(), NoMemory>
    ensures { OnOk result (labels.new ≡ labels.old ++ codes.labels_in operand.now) }
{
    match operand {
        Imm::Pos(position) => labels.push(*position),
        Imm::Arms(arms) => push_arm_labels(labels, arms.as_slice()),
        _ => Ok(()),
    }
}

fn push_all_labels(labels: &mut Seq<u32>, operands: &[Imm]) -> Result<(), NoMemory>
    ensures { OnOk result (labels.new ≡ labels.old ++ flat_map codes.labels_in operands.now) }
{
    for operand in operands {
        push_operand_labels(labels, operand)?;
    }
    Ok(())
}

/// Adds the positions that the operands of the code name, in order.
pub fn push_labels(labels: &mut Seq<u32>, code: &Code) -> Result<(), NoMemory>
    ensures { OnOk result (labels.new ≡ labels.old ++ codes.labels code.now) }
{
    match code {
        Code::Plain(instr) => push_all_labels(labels, instr.imms.as_slice()),
        Code::Member(_) => Ok(()),
    }
}
