use crate::repo::Const;
use hack_values::{Cell, Seq, Text};
use hhbc_ops::{IncDecOp, IsTypeOp, Op, QueryMode, SetOpOp};
use type_lattice::HType;

// A repository before linking. Locals stand without their dollar sign; locals, labels and classes are names.

/// A function or a method, with the locals that it declares beside its parameters.
#[derive(Drop)]
pub struct BodyParts {
    pub name: Text,
    pub params: Seq<Text>,
    pub locals: Seq<Text>,
    pub iters: u16,
    pub stated: Option<TypeParts>,
    pub items: Seq<ItemParts>,
}

/// What stands in a body. `Try` opens a try body, `Catch` ends it and opens its catch body, and `End` ends that.
#[derive(Drop)]
pub enum ItemParts {
    Label(Text),
    Position(PositionParts),
    Try,
    Catch,
    End,
}

/// A code, and the assertions before it.
#[derive(Drop)]
pub struct PositionParts {
    pub asserts: Seq<AssertParts>,
    pub code: CodeParts,
}

/// The type of a local, or of the slot so far below the top of the stack.
#[derive(Drop)]
pub enum AssertParts {
    Local(Text, TypeParts),
    Stack(u8, TypeParts),
}

/// A type whose class numbers are places in a list of names, one for each class in its text.
#[derive(Drop)]
pub struct TypeParts {
    pub t: HType,
    pub classes: Seq<Text>,
}

/// A code.
#[derive(Drop)]
pub enum CodeParts {
    Plain(InstrParts),
    Member(MemberSeqParts),
}

/// An instruction and its operands, in order.
#[derive(Drop)]
pub struct InstrParts {
    pub op: Op,
    pub imms: Seq<ImmParts>,
}

/// An operand.
#[derive(Drop)]
pub enum ImmParts {
    Int(i64),
    Count(u16),
    Str(Text),
    Name(Text),
    Local(Text),
    Iter(u8),
    Pos(Text),
    Class(Text),
    IncDec(IncDecOp),
    SetOp(SetOpOp),
    IsType(IsTypeOp),
    Constraint(TypeParts),
    Arms(Seq<ArmParts>),
    IterLocals(Option<Text>, Text),
}

/// An arm of a switch.
#[derive(Drop)]
pub struct ArmParts {
    pub text: Option<Text>,
    pub target: Text,
}

/// A member sequence.
#[derive(Drop)]
pub struct MemberSeqParts {
    pub base: BaseParts,
    pub dims: Seq<MemberKeyParts>,
    pub last: FinalParts,
}

/// Where a member sequence begins.
#[derive(Drop)]
pub enum BaseParts {
    Local(Text),
    Stack(u8),
    This,
}

/// A key of a member sequence.
#[derive(Drop)]
pub enum MemberKeyParts {
    ElemStack(u8),
    ElemLocal(Text),
    ElemText(Text),
    ElemInt(i64),
    PropStack(u8),
    PropLocal(Text),
    PropName(Text),
    NullsafeName(Text),
    Append,
}

/// What a member sequence does at its last key.
#[derive(Drop)]
pub enum FinalParts {
    Query(u8, QueryMode, MemberKeyParts),
    Set(u8, MemberKeyParts),
    SetOp(u8, SetOpOp, MemberKeyParts),
    IncDec(u8, IncDecOp, MemberKeyParts),
    Unset(u8, MemberKeyParts),
}

/// A class.
#[derive(Drop)]
pub struct ClassParts {
    pub name: Text,
    pub parent: Option<Text>,
    pub consts: Seq<Const>,
    pub props: Seq<PropertyParts>,
    pub methods: Seq<BodyParts>,
}

/// A property of a class.
#[derive(Drop)]
pub struct PropertyParts {
    pub name: Text,
    pub initial: Cell,
    pub stated: Option<TypeParts>,
}
