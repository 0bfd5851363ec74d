ghost use Rattle.std.specs.Prelude.{◌≡◌, ◌≢◌, IsTrue, Some};
ghost use Rattle.hack_values.specs.Operations.{op1, op2, compares, sign_of, joined, IsAnswer};

use crate::arithmetic::on_ints;
use crate::casts::cast_int;
use crate::{Cell, IntDigits, MAX_TEXT, NoMemory, Text, order, same, truthy};
use std::alloc::Global;
use std::cmp::Ordering;

/// Why an operator gave no value.
#[derive(Clone, Copy, Debug, PartialEq, Eq)]
pub enum OpFault {
    /// The operator doesn't take these operands.
    BadOperand,
    /// A remainder by zero.
    DivisionByZero,
    /// The text would have more than 1,048,576 bytes.
    TooLarge,
    NoMemory,
}

impl From<NoMemory> for OpFault {
    ghost use Rattle.hack_values.specs.declared.operators.OpFault.{OpFault};

    ghost from_gives = { λ _ fault. fault ≡ OpFault.NoMemory };

    fn from(_refusal: NoMemory) -> OpFault {
        OpFault::NoMemory
    }
}

/// An operator on two values.
#[derive(Clone, Copy, Debug, PartialEq, Eq)]
pub enum BinOp {
    Add,
    Sub,
    Mul,
    Mod,
    BitAnd,
    BitOr,
    BitXor,
    Shl,
    Shr,
    Concat,
    Same,
    NSame,
    Lt,
    Lte,
    Gt,
    Gte,
    Cmp,
}

/// An operator on one value.
#[derive(Clone, Copy, Debug, PartialEq, Eq)]
pub enum UnOp {
    Not,
    BitNot,
    CastBool,
    CastInt,
    CastString,
}

/// The operator's value at two cells, the left one first. Only `Concat` takes memory.
pub fn binary(alloc: Global, op: BinOp, a: &Cell, b: &Cell) -> Result<Cell, OpFault>
    ensures answer { IsAnswer result (op2 op a.now b.now) }
    ensures without_memory { op ≢ BinOp.Concat → result ≡ op2 op a.now b.now }
{
    match op {
        BinOp::Same => Ok(Cell::Bool(same(a, b))),
        BinOp::NSame => Ok(Cell::Bool(!same(a, b))),
        BinOp::Concat => concat(alloc, a, b),
        BinOp::Lt | BinOp::Lte | BinOp::Gt | BinOp::Gte | BinOp::Cmp => compare(op, a, b),
        _ => match (a, b) {
            (Cell::Int(x), Cell::Int(y)) => on_ints(op, *x, *y),
            _ => Err(OpFault::BadOperand),
        },
    }
}

fn compare(op: BinOp, a: &Cell, b: &Cell) -> Result<Cell, OpFault>
    requires { IsTrue (compares op) }
    ensures { result ≡ op2 op a.now b.now }
{
    let Some(found) = order(a, b) else {
        return Err(OpFault::BadOperand);
    };
    Ok(match op {
        BinOp::Lt => Cell::Bool(found == Ordering::Less),
        BinOp::Lte => Cell::Bool(found != Ordering::Greater),
        BinOp::Gt => Cell::Bool(found == Ordering::Greater),
        BinOp::Gte => Cell::Bool(found != Ordering::Less),
        BinOp::Cmp => Cell::Int(sign(found)),
        _ => unreachable!(),
    })
}

fn sign(found: Ordering) -> i64
    ensures { result ≡ sign_of found }
{
    match found {
        Ordering::Less => -1,
        Ordering::Equal => 0,
        Ordering::Greater => 1,
    }
}

fn concat(alloc: Global, a: &Cell, b: &Cell) -> Result<Cell, OpFault>
    ensures { IsAnswer result (op2 BinOp.Concat a.now b.now) }
{
    let mut left = IntDigits::new();
    let mut right = IntDigits::new();
    match (a.text(&mut left), b.text(&mut right)) {
        (Some(first), Some(second)) => join(alloc, first, second),
        _ => Err(OpFault::BadOperand),
    }
}

fn join(alloc: Global, first: &[u8], second: &[u8]) -> Result<Cell, OpFault>
    ensures { IsAnswer result (joined (Some first.now) (Some second.now)) }
{
    if first.len() > MAX_TEXT || second.len() > MAX_TEXT - first.len() {
        return Err(OpFault::TooLarge);
    }
    Ok(Cell::Str(Text::from_two(alloc, first, second)?))
}

/// The operator's value at a cell. Only `CastString` takes memory.
pub fn unary(alloc: Global, op: UnOp, a: &Cell) -> Result<Cell, OpFault>
    ensures answer { IsAnswer result (op1 op a.now) }
    ensures without_memory { op ≢ UnOp.CastString → result ≡ op1 op a.now }
{
    match op {
        UnOp::Not => Ok(Cell::Bool(!truthy(a))),
        UnOp::BitNot => match a {
            Cell::Int(number) => Ok(Cell::Int(!*number)),
            _ => Err(OpFault::BadOperand),
        },
        UnOp::CastBool => Ok(Cell::Bool(truthy(a))),
        UnOp::CastInt => match cast_int(a) {
            Some(number) => Ok(Cell::Int(number)),
            None => Err(OpFault::BadOperand),
        },
        UnOp::CastString => cast_string(alloc, a),
    }
}

/// A scalar's text as a cell. A string shares its bytes.
fn cast_string(alloc: Global, a: &Cell) -> Result<Cell, OpFault>
    ensures { IsAnswer result (op1 UnOp.CastString a.now) }
{
    if let Cell::Str(text) = a {
        return Ok(Cell::Str(text.copy(alloc)?));
    }
    let mut digits = IntDigits::new();
    match a.text(&mut digits) {
        Some(bytes) => Ok(Cell::Str(Text::from_bytes(alloc, bytes)?)),
        None => Err(OpFault::BadOperand),
    }
}
