use hack_values::{Seq, Text};
use hhbc_ops::{IncDecOp, IsTypeOp, Op, QueryMode, SetOpOp};
use type_lattice::HType;

/// A code: an instruction, or a member sequence, which is one code from its base to its final.
#[derive(Drop)]
pub enum Code {
    Plain(Instr),
    Member(MemberSeq),
}

/// An instruction and its operands, in order.
#[derive(Drop)]
pub struct Instr {
    pub op: Op,
    pub imms: Seq<Imm>,
}

/// An operand. Locals, iterators, positions and classes are numbers; a pair of iterator locals
/// is the key's, where it is told, and the value's.
#[derive(Drop)]
pub enum Imm {
    Int(i64),
    Count(u16),
    Str(Text),
    Name(Text),
    Local(u8),
    Iter(u8),
    Pos(u32),
    Class(u32),
    IncDec(IncDecOp),
    SetOp(SetOpOp),
    IsType(IsTypeOp),
    Constraint(HType),
    Arms(Seq<Arm>),
    IterLocals(Option<u8>, u8),
}

/// An arm of a switch. Without a text it is taken by its place, or is the default.
#[derive(Drop)]
pub struct Arm {
    pub text: Option<Text>,
    pub target: u32,
}

/// A base, the keys that lead away from it, and what is done at the last one.
#[derive(Drop)]
pub struct MemberSeq {
    pub base: Base,
    pub dims: Seq<MemberKey>,
    pub last: Final,
}

/// Where a member sequence begins: a local, a slot counted from the top of the stack, or `$this`.
#[derive(Clone, Copy)]
pub enum Base {
    Local(u8),
    Stack(u8),
    This,
}

/// A key of a member sequence: of an element, of a property, of a property of an object or null,
/// or the place behind the last element.
#[derive(Drop)]
pub enum MemberKey {
    ElemStack(u8),
    ElemLocal(u8),
    ElemText(Text),
    ElemInt(i64),
    PropStack(u8),
    PropLocal(u8),
    PropName(Text),
    NullsafeName(Text),
    Append,
}

/// What a member sequence does at its last key. The number is that of the slots that it drops.
#[derive(Drop)]
pub enum Final {
    Query(u8, QueryMode, MemberKey),
    Set(u8, MemberKey),
    SetOp(u8, SetOpOp, MemberKey),
    IncDec(u8, IncDecOp, MemberKey),
    Unset(u8, MemberKey),
}
