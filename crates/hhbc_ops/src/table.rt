ghost use Rattle.std.specs.Prelude.{◌≡◌, true, false};
ghost use Rattle.hhbc_ops.specs.Ops as ops;
ghost use Rattle.hhbc_ops.specs.Ops.{IsRow};
ghost use Rattle.hhbc_ops.specs.Stacks.{stack_pops, stack_pushes};

use crate::op::Op;
use crate::stack_use::StackUse;
use crate::stack_use::StackUse::{
    CCCToC, CCToC, CToC, CToCC, CallToC, CellsToC, DropC, DropU, MethodCallToC, ToC, ToU, Untouched,
};
use crate::words::ImmKind::{
    Class, Constraint, Count, IncDec, Int, IsType, Iter, IterLocals, Label, Local, Name, SSwitch,
    SetOp, Str, Switch,
};
use crate::words::OperandUse::{
    AdvancesIter, BeginsIter, FreesIter, Nothing, ReadsLocal, SetsLocal,
};
use crate::words::{ImmKind, OperandUse};

/// A row of the table of instructions.
#[derive(Clone, Copy)]
pub(crate) struct Row {
    pub name: &'static str,
    pub kinds: &'static [ImmKind],
    pub throws: bool,
    pub next: bool,
    pub stack: StackUse,
    pub operand: OperandUse,
}

/// An instruction that raises nothing and goes on.
fn plain(name: &'static str, kinds: &'static [ImmKind], stack: StackUse, operand: OperandUse) -> Row
    ensures { IsRow result (ops.plain name.now kinds.now (stack_pops stack) (stack_pushes stack) operand) }
{
    Row {
        name,
        kinds,
        throws: false,
        next: true,
        stack,
        operand,
    }
}

/// An instruction that may raise an exception, and goes on otherwise.
fn throwing(
    name: &'static str,
    kinds: &'static [ImmKind],
    stack: StackUse,
    operand: OperandUse,
) -> Row
    ensures { IsRow result (ops.throwing name.now kinds.now (stack_pops stack) (stack_pushes stack) operand) }
{
    Row {
        throws: true,
        ..plain(name, kinds, stack, operand)
    }
}

/// An instruction that never goes on to the position behind it.
fn ending(
    name: &'static str,
    kinds: &'static [ImmKind],
    stack: StackUse,
    operand: OperandUse,
) -> Row
    ensures { IsRow result (ops.ending name.now kinds.now (stack_pops stack) (stack_pushes stack) operand) }
{
    Row {
        next: false,
        ..plain(name, kinds, stack, operand)
    }
}

/// An instruction that raises an exception in any case.
fn raising(
    name: &'static str,
    kinds: &'static [ImmKind],
    stack: StackUse,
    operand: OperandUse,
) -> Row
    ensures { IsRow result (ops.raising name.now kinds.now (stack_pops stack) (stack_pushes stack) operand) }
{
    Row {
        next: false,
        ..throwing(name, kinds, stack, operand)
    }
}

/// The table of instructions.
pub(crate) fn row_of(op: Op) -> Row
    ensures { IsRow result (ops.table op) }
{
    match op {
        Op::Nop => plain("Nop", &[], Untouched, Nothing),
        Op::Null => plain("Null", &[], ToC, Nothing),
        Op::True => plain("True", &[], ToC, Nothing),
        Op::False => plain("False", &[], ToC, Nothing),
        Op::Int => plain("Int", &[Int], ToC, Nothing),
        Op::String => plain("String", &[Str], ToC, Nothing),
        Op::NullUninit => plain("NullUninit", &[], ToU, Nothing),
        Op::PopC => plain("PopC", &[], DropC, Nothing),
        Op::PopU => plain("PopU", &[], DropU, Nothing),
        Op::Dup => plain("Dup", &[], CToCC, Nothing),
        Op::PopL => plain("PopL", &[Local], DropC, SetsLocal),
        Op::SetL => plain("SetL", &[Local], CToC, SetsLocal),
        Op::CGetL => throwing("CGetL", &[Local], ToC, ReadsLocal),
        Op::CGetQuietL => plain("CGetQuietL", &[Local], ToC, ReadsLocal),
        Op::CGetL2 => throwing("CGetL2", &[Local], CToCC, ReadsLocal),
        Op::PushL => throwing("PushL", &[Local], ToC, ReadsLocal),
        Op::UnsetL => plain("UnsetL", &[Local], Untouched, SetsLocal),
        Op::SetOpL => throwing("SetOpL", &[Local, SetOp], CToC, ReadsLocal),
        Op::IncDecL => throwing("IncDecL", &[Local, IncDec], ToC, ReadsLocal),
        Op::Concat => throwing("Concat", &[], CCToC, Nothing),
        Op::Add => throwing("Add", &[], CCToC, Nothing),
        Op::Sub => throwing("Sub", &[], CCToC, Nothing),
        Op::Mul => throwing("Mul", &[], CCToC, Nothing),
        Op::Mod => throwing("Mod", &[], CCToC, Nothing),
        Op::BitAnd => throwing("BitAnd", &[], CCToC, Nothing),
        Op::BitOr => throwing("BitOr", &[], CCToC, Nothing),
        Op::BitXor => throwing("BitXor", &[], CCToC, Nothing),
        Op::Shl => throwing("Shl", &[], CCToC, Nothing),
        Op::Shr => throwing("Shr", &[], CCToC, Nothing),
        Op::Same => plain("Same", &[], CCToC, Nothing),
        Op::NSame => plain("NSame", &[], CCToC, Nothing),
        Op::Lt => throwing("Lt", &[], CCToC, Nothing),
        Op::Lte => throwing("Lte", &[], CCToC, Nothing),
        Op::Gt => throwing("Gt", &[], CCToC, Nothing),
        Op::Gte => throwing("Gte", &[], CCToC, Nothing),
        Op::Cmp => throwing("Cmp", &[], CCToC, Nothing),
        Op::BitNot => throwing("BitNot", &[], CToC, Nothing),
        Op::CastInt => throwing("CastInt", &[], CToC, Nothing),
        Op::CastString => throwing("CastString", &[], CToC, Nothing),
        Op::Not => plain("Not", &[], CToC, Nothing),
        Op::CastBool => plain("CastBool", &[], CToC, Nothing),
        Op::IsTypeC => plain("IsTypeC", &[IsType], CToC, Nothing),
        Op::IsTypeL => throwing("IsTypeL", &[Local, IsType], ToC, ReadsLocal),
        Op::InstanceOfD => plain("InstanceOfD", &[Class], CToC, Nothing),
        Op::NewVec => plain("NewVec", &[Count], CellsToC, Nothing),
        Op::NewKeysetArray => throwing("NewKeysetArray", &[Count], CellsToC, Nothing),
        Op::NewDictArray => plain("NewDictArray", &[Count], ToC, Nothing),
        Op::AddElemC => throwing("AddElemC", &[], CCCToC, Nothing),
        Op::AddNewElemC => throwing("AddNewElemC", &[], CCToC, Nothing),
        Op::Jmp => ending("Jmp", &[Label], Untouched, Nothing),
        Op::JmpZ => plain("JmpZ", &[Label], DropC, Nothing),
        Op::JmpNZ => plain("JmpNZ", &[Label], DropC, Nothing),
        Op::Switch => ending("Switch", &[Int, Switch], DropC, Nothing),
        Op::SSwitch => ending("SSwitch", &[SSwitch], DropC, Nothing),
        Op::RetC => ending("RetC", &[], DropC, Nothing),
        Op::Throw => raising("Throw", &[], DropC, Nothing),
        Op::Fatal => ending("Fatal", &[], DropC, Nothing),
        Op::ClsCnsD => plain("ClsCnsD", &[Name, Class], ToC, Nothing),
        Op::FCallFuncD => throwing("FCallFuncD", &[Count, Name], CallToC, Nothing),
        Op::FCallObjMethodD => throwing("FCallObjMethodD", &[Count, Name], MethodCallToC, Nothing),
        Op::FCallClsMethodD => throwing("FCallClsMethodD", &[Count, Name, Class], CallToC, Nothing),
        Op::NewObjD => plain("NewObjD", &[Class], ToC, Nothing),
        Op::FCallCtor => throwing("FCallCtor", &[Count], MethodCallToC, Nothing),
        Op::LockObj => throwing("LockObj", &[], CToC, Nothing),
        Op::This => throwing("This", &[], ToC, Nothing),
        Op::BareThis => plain("BareThis", &[], ToC, Nothing),
        Op::CheckThis => throwing("CheckThis", &[], Untouched, Nothing),
        Op::IterInit => throwing("IterInit", &[Iter, IterLocals, Label], DropC, BeginsIter),
        Op::IterNext => plain(
            "IterNext",
            &[Iter, IterLocals, Label],
            Untouched,
            AdvancesIter,
        ),
        Op::IterFree => plain("IterFree", &[Iter], Untouched, FreesIter),
        Op::VerifyParamType => throwing(
            "VerifyParamType",
            &[Local, Constraint],
            Untouched,
            ReadsLocal,
        ),
        Op::VerifyRetTypeC => throwing("VerifyRetTypeC", &[Constraint], CToC, Nothing),
        Op::Print => throwing("Print", &[], CToC, Nothing),
    }
}

/// The instructions whose names have so many bytes.
pub(crate) fn of_length(length: usize) -> &'static [Op]
    ensures { result.now ≡ ops.of_length length }
{
    match length {
        2 => &[Op::Lt, Op::Gt],
        3 => &[
            Op::Nop,
            Op::Int,
            Op::Dup,
            Op::Add,
            Op::Sub,
            Op::Mul,
            Op::Mod,
            Op::Shl,
            Op::Shr,
            Op::Lte,
            Op::Gte,
            Op::Cmp,
            Op::Not,
            Op::Jmp,
        ],
        4 => &[
            Op::Null,
            Op::True,
            Op::PopC,
            Op::PopU,
            Op::PopL,
            Op::SetL,
            Op::Same,
            Op::JmpZ,
            Op::RetC,
            Op::This,
        ],
        5 => &[
            Op::False,
            Op::CGetL,
            Op::PushL,
            Op::BitOr,
            Op::NSame,
            Op::JmpNZ,
            Op::Throw,
            Op::Fatal,
            Op::Print,
        ],
        6 => &[
            Op::String,
            Op::CGetL2,
            Op::UnsetL,
            Op::SetOpL,
            Op::Concat,
            Op::BitAnd,
            Op::BitXor,
            Op::BitNot,
            Op::NewVec,
            Op::Switch,
        ],
        7 => &[
            Op::IncDecL,
            Op::CastInt,
            Op::IsTypeC,
            Op::IsTypeL,
            Op::SSwitch,
            Op::ClsCnsD,
            Op::NewObjD,
            Op::LockObj,
        ],
        8 => &[
            Op::CastBool,
            Op::AddElemC,
            Op::BareThis,
            Op::IterInit,
            Op::IterNext,
            Op::IterFree,
        ],
        9 => &[Op::FCallCtor, Op::CheckThis],
        10 => &[
            Op::NullUninit,
            Op::CGetQuietL,
            Op::CastString,
            Op::FCallFuncD,
        ],
        11 => &[Op::InstanceOfD, Op::AddNewElemC],
        12 => &[Op::NewDictArray],
        14 => &[Op::NewKeysetArray, Op::VerifyRetTypeC],
        15 => &[
            Op::FCallObjMethodD,
            Op::FCallClsMethodD,
            Op::VerifyParamType,
        ],
        _ => &[],
    }
}
