//! What codes do to the stack and to iterators, from the table of instructions.

ghost use Rattle.std.specs.Prelude.{◌≡◌, ◌≤◌, length, option_map};
ghost use Rattle.hhbc_ops.specs.Laws.{flavours_of};
ghost use Rattle.hhbc_ops.specs.Stacks.{told_pops};
ghost use Rattle.hhbc_repo.specs.Codes as codes;
ghost use Rattle.hhbc_repo.specs.Codes.{final_stack, op_stack, popped_by, some_cells, takes, to_cell, turns};
ghost use Rattle.hhbc_repo.specs.Effects.{IsEffect, stack_of, used};

use crate::code::{Code, Final, Imm, Instr};
use hhbc_ops::{Flavour, OperandUse, Pops, operand_use, rows_fit, slots_popped, slots_pushed};

/// What a code does to the stack: it takes so many cells and the slots below them away, the topmost
/// first, and puts others there.
#[derive(Clone, Copy)]
pub struct Effect {
    pub cells: u16,
    pub below: &'static [Flavour],
    pub pushes: &'static [Flavour],
}

/// What a code does to an iterator: it begins it at a first element, takes its next element, or ends it.
#[derive(Clone, Copy)]
pub enum IterUse {
    Begin(u8),
    Advance(u8),
    Free(u8),
}

/// The count among the operands, which is the first one.
fn count_of(imms: &[Imm]) -> u16
    ensures { result ≡ codes.count_of imms.now }
{
    match imms {
        [Imm::Count(count), ..] => *count,
        _ => 0,
    }
}

/// The iterator among the operands, which is the first one.
fn iter_of(imms: &[Imm]) -> u8
    ensures { result ≡ codes.iter_of imms.now }
{
    match imms {
        [Imm::Iter(iter), ..] => *iter,
        _ => 0,
    }
}

/// The effect of taking these slots away and putting those there.
fn effect_by(pops: Pops, pushes: &'static [Flavour], imms: &[Imm]) -> Effect
    requires { length (flavours_of (told_pops pops)) ≤ 3 }
    ensures effect { IsEffect result (turns (popped_by (told_pops pops) imms.now) pushes.now) }
    ensures few { length result.below.now ≤ 3 }
{
    match pops {
        Pops::Fixed(below) => Effect {
            cells: 0,
            below,
            pushes,
        },
        Pops::Counted(below) => Effect {
            cells: count_of(imms),
            below,
            pushes,
        },
    }
}

/// The effect of an instruction on the stack.
fn instruction_effect(instr: &Instr) -> Effect
    ensures effect { IsEffect result (op_stack instr.now.op instr.now.imms) }
    ensures few { length result.below.now ≤ 3 }
{
    rows_fit();
    let op = instr.op;
    effect_by(slots_popped(op), slots_pushed(op), instr.imms.as_slice())
}

fn drops(cells: u16) -> Effect
    ensures effect { IsEffect result (takes (some_cells cells)) }
    ensures few { length result.below.now ≤ 3 }
{
    Effect {
        cells,
        below: &[],
        pushes: &[],
    }
}

fn makes_cell(cells: u16) -> Effect
    ensures effect { IsEffect result (to_cell (some_cells cells)) }
    ensures few { length result.below.now ≤ 3 }
{
    Effect {
        cells,
        below: &[],
        pushes: &[Flavour::C],
    }
}

/// The effect of a member sequence on the stack, by what it does at its last key.
fn final_effect(last: &Final) -> Effect
    ensures effect { IsEffect result (final_stack last.now) }
    ensures few { length result.below.now ≤ 3 }
{
    match last {
        Final::Query(count, _, _) | Final::IncDec(count, _, _) => makes_cell(u16::from(*count)),
        Final::Set(count, _) | Final::SetOp(count, _, _) => makes_cell(u16::from(*count) + 1),
        Final::Unset(count, _) => drops(u16::from(*count)),
    }
}

/// The effect of a code on the stack.
pub fn effect_of(code: &Code) -> Effect
    ensures effect { IsEffect result (stack_of code.now) }
    ensures few { length result.below.now ≤ 3 }
{
    match code {
        Code::Plain(instr) => instruction_effect(instr),
        Code::Member(sequence) => final_effect(&sequence.last),
    }
}

/// How many slots the code takes off the stack.
pub fn pops(code: &Code) -> u32
    ensures { result ≡ length (codes.pops code.now) }
{
    let effect = effect_of(code);
    u32::from(effect.cells) + effect.below.len() as u32
}

/// What is done to the iterator among the operands.
fn iter_used_by(operand: OperandUse, imms: &[Imm]) -> Option<IterUse>
    ensures { option_map used result ≡ codes.iter_used_by operand imms.now }
{
    match operand {
        OperandUse::BeginsIter => Some(IterUse::Begin(iter_of(imms))),
        OperandUse::AdvancesIter => Some(IterUse::Advance(iter_of(imms))),
        OperandUse::FreesIter => Some(IterUse::Free(iter_of(imms))),
        OperandUse::Nothing | OperandUse::ReadsLocal | OperandUse::SetsLocal => None,
    }
}

/// What a code does to an iterator.
pub fn iter_use(code: &Code) -> Option<IterUse>
    ensures { option_map used result ≡ codes.iter_use code.now }
{
    match code {
        Code::Plain(instr) => iter_used_by(operand_use(instr.op), instr.imms.as_slice()),
        Code::Member(_) => None,
    }
}
