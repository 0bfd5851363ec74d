ghost use Rattle.std.specs.Prelude.{◌≡◌, IsTrue};
ghost use Rattle.hack_values.specs.declared.cell.Cell.TheVariants.{Int as IntCell};
ghost use Rattle.hack_values.specs.Operations.{op2, shift, takes_ints};

use crate::{BinOp, Cell, OpFault};

/// How far a shift by `b` goes: `b` modulo 64.
fn distance(b: i64) -> u32
    ensures { result ≡ shift b }
{
    b.rem_euclid(64) as u32
}

fn remainder(a: i64, b: i64) -> Result<Cell, OpFault>
    ensures { result ≡ op2 BinOp.Mod (IntCell a) (IntCell b) }
{
    if b == 0 {
        return Err(OpFault::DivisionByZero);
    }
    Ok(Cell::Int(a.wrapping_rem(b)))
}

/// An operator that takes two ints alone.
#[tactic(auto, using(std::proofs::lemmas::Int::wraps))]
pub(crate) fn on_ints(op: BinOp, a: i64, b: i64) -> Result<Cell, OpFault>
    requires { IsTrue (takes_ints op) }
    ensures { result ≡ op2 op (IntCell a) (IntCell b) }
{
    match op {
        BinOp::Add => Ok(Cell::Int(a.wrapping_add(b))),
        BinOp::Sub => Ok(Cell::Int(a.wrapping_sub(b))),
        BinOp::Mul => Ok(Cell::Int(a.wrapping_mul(b))),
        BinOp::Mod => remainder(a, b),
        BinOp::BitAnd => Ok(Cell::Int(a & b)),
        BinOp::BitOr => Ok(Cell::Int(a | b)),
        BinOp::BitXor => Ok(Cell::Int(a ^ b)),
        BinOp::Shl => Ok(Cell::Int(a.wrapping_shl(distance(b)))),
        BinOp::Shr => Ok(Cell::Int(a.wrapping_shr(distance(b)))),
        _ => unreachable!(),
    }
}
