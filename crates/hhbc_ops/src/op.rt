ghost use Rattle.std.specs.Prelude.{◌≡◌, ◌≢◌, MatchOption, Some};
ghost use Rattle.hhbc_ops.specs.Ops.{op_name, kinds_of, op_throws, op_goes_on};
ghost use Rattle.hhbc_ops.specs.Stacks.{told_pops};
ghost use Rattle.hhbc_ops.specs.Ops as ops;

use crate::named::{Named, first_named};
use crate::table::{of_length, row_of};
use crate::words::{Flavour, ImmKind, OperandUse, Pops};

/// An instruction, without its operands.
#[derive(Clone, Copy, Debug, PartialEq, Eq)]
pub enum Op {
    Nop,
    Null,
    True,
    False,
    Int,
    String,
    NullUninit,
    PopC,
    PopU,
    Dup,
    PopL,
    SetL,
    CGetL,
    CGetQuietL,
    CGetL2,
    PushL,
    UnsetL,
    SetOpL,
    IncDecL,
    Concat,
    Add,
    Sub,
    Mul,
    Mod,
    BitAnd,
    BitOr,
    BitXor,
    Shl,
    Shr,
    Same,
    NSame,
    Lt,
    Lte,
    Gt,
    Gte,
    Cmp,
    BitNot,
    CastInt,
    CastString,
    Not,
    CastBool,
    IsTypeC,
    IsTypeL,
    InstanceOfD,
    NewVec,
    NewKeysetArray,
    NewDictArray,
    AddElemC,
    AddNewElemC,
    Jmp,
    JmpZ,
    JmpNZ,
    Switch,
    SSwitch,
    RetC,
    Throw,
    Fatal,
    ClsCnsD,
    FCallFuncD,
    FCallObjMethodD,
    FCallClsMethodD,
    NewObjD,
    FCallCtor,
    LockObj,
    This,
    BareThis,
    CheckThis,
    IterInit,
    IterNext,
    IterFree,
    VerifyParamType,
    VerifyRetTypeC,
    Print,
}

/// The instruction of this name.
pub fn op_named(name: &[u8]) -> Option<Op>
    ensures only { MatchOption result ((op : Op) → op_name op ≢ name.now) (λ op. op_name op ≡ name.now) }
    ensures each { (op : Op) → op_name op ≡ name.now → result ≡ Some op }
{
    first_named(of_length(name.len()), name)
}

/// The name of the instruction.
pub fn name_of(op: Op) -> &'static str
    ensures { result.now ≡ op_name op }
{
    row_of(op).name
}

/// The kinds of the instruction's operands, in order.
pub fn immediates(op: Op) -> &'static [ImmKind]
    ensures { result.now ≡ kinds_of op }
{
    row_of(op).kinds
}

/// The instruction may raise an exception.
pub fn may_throw(op: Op) -> bool
    ensures { result ≡ op_throws op }
{
    row_of(op).throws
}

/// The position behind the instruction may come next.
pub fn has_next(op: Op) -> bool
    ensures { result ≡ op_goes_on op }
{
    row_of(op).next
}

/// The slots that the instruction takes off the stack.
pub fn slots_popped(op: Op) -> Pops
    ensures { told_pops result ≡ ops.slots_popped op }
{
    row_of(op).stack.pops()
}

/// The slots that the instruction puts on the stack, the topmost first.
pub fn slots_pushed(op: Op) -> &'static [Flavour]
    ensures { result.now ≡ ops.slots_pushed op }
{
    row_of(op).stack.pushes()
}

/// What the instruction does with the local or the iterator that is its first operand.
pub fn operand_use(op: Op) -> OperandUse
    ensures { result ≡ ops.operand_use op }
{
    row_of(op).operand
}

impl Named for Op {
    ghost use Rattle.hhbc_ops.specs.Ops.{op_name};

    ghost spelling = { op_name };

    fn name(self) -> &'static str {
        name_of(self)
    }
}
