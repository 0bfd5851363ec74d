//! A plain machine: one function of constants and locals, code by code, after the execution model of HHVM's
//! `doc/bytecode.specification`.

ghost use Rattle.std.specs.Prelude.{◌≡◌, ◌<◌, ◌^◌, ℕ, List, [], IfOk, Some, false, codes, length, map, replicate, reverse, slice_get, slice_set};
ghost use Rattle.hack_values.specs.declared.cell.Slot.TheVariants as slots;
ghost use Rattle.type_lattice.specs.Member as members;
ghost use Rattle.hhbc_repo.specs.declared.body.Body.{Body};
ghost use Rattle.hhbc_repo.specs.Bodies.{built_in_tree};
ghost use Rattle.hhbc_semantics.specs.Frames as frames;
ghost use Rattle.hhbc_semantics.specs.Machine as machines;
ghost use Rattle.hhbc_semantics.specs.Operands as operands;
ghost use Rattle.hhbc_semantics.specs.Run as runs;
ghost use Rattle.hhbc_semantics.specs.Setting.{Setting};
ghost use Rattle.hhbbc_top.specs.Forms.{code_of, setting_of};
ghost use Rattle.hhbbc_top.specs.Running as running;

use crate::form::{Line, Main, Step};
use hack_values::NoMemory;
use hhbc_repo::Assert;
use std::alloc::Global;
use type_lattice::{HType, IntPart};

/// A cell of the kinds that constants of the form make.
#[derive(Clone, Copy, PartialEq, Eq)]
pub enum Value {
    Null,
    Bool(bool),
    Int(i64),
}

/// How a run ended. Places are numbers of codes.
#[derive(Clone, Copy, PartialEq, Eq)]
pub enum Ending {
    Returned(Value),
    /// A local that isn't set was read, and nothing caught that.
    Undefined(u8, usize),
    /// An assertion didn't hold.
    AssertFalse(usize),
    /// The bound of steps was reached.
    StepsSpent,
    /// A code or an assertion reached below the stack.
    Stuck,
}

/// The frame of a run.
#[derive(Drop)]
pub struct Machine {
    /// The number of the code that is next.
    pub position: usize,
    /// None for what isn't set.
    pub locals: Vec<Option<Value>>,
    /// The top is last.
    pub stack: Vec<Value>,
}

/// What a code did.
#[derive(Clone, Copy, PartialEq, Eq)]
pub enum Turn {
    Goes,
    Returns(Value),
    /// This local isn't set.
    Raises(u8),
    Sticks,
}

fn has_int(part: IntPart, number: i64) -> bool
    ensures { result ≡ members.int_in number part }
{
    match part {
        IntPart::No => false,
        IntPart::One(other) => number == other,
        IntPart::Any => true,
    }
}

/// Whether a slot is of the type.
fn is_of(slot: Option<Value>, t: &HType) -> bool
    ensures { result ≡ members.is_member built_in_tree [] (running.slot_of slot) t.now }
{
    match slot {
        None => t.uninit,
        Some(Value::Null) => t.null,
        Some(Value::Bool(true)) => t.yes,
        Some(Value::Bool(false)) => t.no,
        Some(Value::Int(number)) => has_int(t.int, number),
    }
}

/// The value that is so many places below the top.
fn below_top(stack: &[Value], place: u8) -> Option<Value>
    ensures { result ≡ slice_get (reverse stack.now) place }
{
    let at = stack.len().checked_sub(1 + place as usize)?;
    stack.get(at).copied()
}

fn local_at(locals: &[Option<Value>], local: u8) -> Option<Option<Value>>
    ensures { result ≡ slice_get locals.now local }
{
    locals.get(local as usize).copied()
}

/// Whether an assertion holds; none where it reaches below the stack.
fn holds(machine: &Machine, assert: &Assert) -> Option<bool>
    ensures { result ≡ runs.holds built_in_tree [] (running.frame_of machine.now) assert.now }
{
    match assert {
        Assert::Local(local, t) => {
            let slot = local_at(&machine.locals, *local)?;
            Some(is_of(slot, t))
        }
        Assert::Stack(place, t) => {
            let value = below_top(&machine.stack, *place)?;
            Some(is_of(Some(value), t))
        }
    }
}

/// Whether all assertions hold, up to the first that doesn't or that reaches below the stack.
fn test(machine: &Machine, asserts: &[Assert]) -> Option<bool>
    ensures { result ≡ runs.test built_in_tree [] (running.frame_of machine.now) asserts.now }
{
    for assert in asserts {
        match holds(machine, assert) {
            None => return None,
            Some(false) => return Some(false),
            Some(true) => {}
        }
    }
    Some(true)
}

/// Locals that aren't set.
fn unset(alloc: Global, count: usize) -> Result<Vec<Option<Value>>, NoMemory>
    ensures { IfOk result (λ locals. map running.slot_of locals.items ≡ replicate count slots.Uninit) }
{
    let mut locals = Vec::new(alloc);
    for place in 0..count {
        locals.push(None)?;
    }
    Ok(locals)
}

/// The frame that enters a function without parameters.
fn entered(alloc: Global, locals: usize) -> Result<Machine, NoMemory>
    ensures { IfOk result (λ m. running.frame_of m ≡ record { body = 0; position = 0; locals = replicate locals slots.Uninit; stack = []; iters = []; this = None }) }
{
    Ok(Machine {
        position: 0,
        locals: unset(alloc, locals)?,
        stack: Vec::new(alloc),
    })
}

/// Pushes a value, and goes on.
fn push(machine: &mut Machine, value: Value) -> Result<Turn, NoMemory>
    requires { machine.old.position < 2 ^ 63 }
    ensures { IfOk result (λ turn. (turn ≡ Turn.Goes) × (running.frame_of machine.new ≡ frames.push (running.frame_of machine.old) (running.cell_of value))) }
{
    machine.stack.push(value)?;
    machine.position += 1;
    Ok(Turn::Goes)
}

/// Drops the top, and goes on.
fn pop(machine: &mut Machine) -> Turn
    requires { machine.old.position < 2 ^ 63 }
    ensures { (names : List (List ℕ)) → running.turn_of names result (running.frame_of machine.new) ≡ operands.with_cell (running.frame_of machine.old).stack runs.no_world (λ c rest. frames.Goes (frames.ahead (running.frame_of machine.old) rest) runs.no_world) }
{
    match machine.stack.pop() {
        None => Turn::Sticks,
        Some(_) => {
            machine.position += 1;
            Turn::Goes
        }
    }
}

/// Sets a local, if it is there.
fn store(locals: &mut Vec<Option<Value>>, local: u8, value: Value)
    ensures { locals.new.items ≡ slice_set locals.old.items local (Some value) }
{
    let place = local as usize;
    if place < locals.len() {
        locals[place] = Some(value);
    }
}

/// Copies the top to a local, and goes on.
fn set_local(machine: &mut Machine, local: u8) -> Turn
    requires { machine.old.position < 2 ^ 63 }
    ensures { (names : List (List ℕ)) → running.turn_of names result (running.frame_of machine.new) ≡ operands.with_cell (running.frame_of machine.old).stack runs.no_world (λ c rest. frames.Goes (frames.ahead (frames.set_local (running.frame_of machine.old) local (slots.Cell c)) (running.frame_of machine.old).stack) runs.no_world) }
{
    let Some(top) = below_top(&machine.stack, 0) else {
        return Turn::Sticks;
    };
    store(&mut machine.locals, local, top);
    machine.position += 1;
    Turn::Goes
}

/// Does what a code does.
fn perform(machine: &mut Machine, step: Step) -> Result<Turn, NoMemory>
    requires { machine.old.position < 2 ^ 63 }
    ensures { IfOk result (λ turn. (S : Setting) (b : Body) → machines.perform_code S (Some (code_of step)) b (running.frame_of machine.old) runs.no_world ≡ running.turn_of b.locals turn (running.frame_of machine.new)) }
{
    match step {
        Step::Null => push(machine, Value::Null),
        Step::True => push(machine, Value::Bool(true)),
        Step::False => push(machine, Value::Bool(false)),
        Step::Int(number) => push(machine, Value::Int(number)),
        Step::PopC => Ok(pop(machine)),
        Step::SetL(local) => Ok(set_local(machine, local)),
        Step::CGetL(local) => match local_at(&machine.locals, local) {
            None => Ok(Turn::Sticks),
            Some(None) => Ok(Turn::Raises(local)),
            Some(Some(value)) => push(machine, value),
        },
        Step::RetC => match below_top(&machine.stack, 0) {
            None => Ok(Turn::Sticks),
            Some(value) => Ok(Turn::Returns(value)),
        },
    }
}

/// One step: the code at the machine's position.
fn advance(machine: &mut Machine, line: &Line) -> Result<Option<Ending>, NoMemory>
    requires { machine.old.position < 2 ^ 63 }
    ensures { (m : Main) → slice_get m.codes machine.old.position ≡ Some line.now → running.Turned m.locals result machine.new (runs.advance (setting_of m) false (running.config_of machine.old)) }
{
    let position = machine.position;
    match perform(machine, line.step)? {
        Turn::Goes => Ok(None),
        Turn::Returns(value) => Ok(Some(Ending::Returned(value))),
        Turn::Raises(local) => Ok(Some(Ending::Undefined(local, position))),
        Turn::Sticks => Ok(Some(Ending::Stuck)),
    }
}

/// One turn: the assertions of the position, if they are tested, and then one step.
fn take_turn(machine: &mut Machine, main: &Main, asserted: bool) -> Result<Option<Ending>, NoMemory>
    ensures { running.Turned main.now.locals result machine.new (runs.advance (setting_of main.now) asserted (running.config_of machine.old)) }
{
    let Some(line) = main.codes.as_slice().get(machine.position) else {
        return Ok(Some(Ending::Stuck));
    };
    if asserted {
        match test(machine, line.asserts.as_slice()) {
            None => return Ok(Some(Ending::Stuck)),
            Some(false) => return Ok(Some(Ending::AssertFalse(machine.position))),
            Some(true) => {}
        }
    }
    advance(machine, line)
}

/// Runs a function with at most so many steps. With `asserted` the assertions of each code are tested before it; they
/// are no steps.
pub fn run(alloc: Global, main: &Main, steps: u32, asserted: bool) -> Result<Ending, NoMemory>
    ensures { IfOk result (λ ending. runs.run (setting_of main.now) (codes "main") [] steps asserted ≡ record { outcome = running.outcome_of main.now.locals ending; output = [] }) }
{
    let mut machine = entered(alloc, main.locals.as_slice().len())?;
    for count in 0..steps {
        if let Some(ending) = take_turn(&mut machine, main, asserted)? {
            return Ok(ending);
        }
    }
    Ok(Ending::StepsSpent)
}
