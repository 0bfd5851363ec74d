/// What a place of the stack is for: a cell, or the Uninit that a call wants.
#[derive(Clone, Copy, Debug, PartialEq, Eq)]
pub enum Flavour {
    C,
    U,
}

/// The slots that an instruction takes off the stack, the topmost first.
#[derive(Clone, Copy)]
pub enum Pops {
    /// Slots of these flavours.
    Fixed(&'static [Flavour]),
    /// As many cells as its count says, and below them slots of these flavours.
    Counted(&'static [Flavour]),
}

/// What an instruction does with the local or the iterator that is its first operand.
#[derive(Clone, Copy, Debug, PartialEq, Eq)]
pub enum OperandUse {
    /// Its first operand is neither.
    Nothing,
    /// It reads or tests the local, and may set it.
    ReadsLocal,
    /// It sets the local, and doesn't look at it.
    SetsLocal,
    /// It begins the iterator at a first element.
    BeginsIter,
    /// It takes the iterator's next element.
    AdvancesIter,
    /// It ends the iterator.
    FreesIter,
}

/// The operator of a compound assignment.
#[derive(Clone, Copy, Debug, PartialEq, Eq)]
pub enum SetOpOp {
    PlusEqual,
    MinusEqual,
    MulEqual,
    ModEqual,
    ConcatEqual,
    AndEqual,
    OrEqual,
    XorEqual,
    SlEqual,
    SrEqual,
}

/// Whether 1 is added or taken away, and whether the new or the old value is pushed.
#[derive(Clone, Copy, Debug, PartialEq, Eq)]
pub enum IncDecOp {
    PreInc,
    PostInc,
    PreDec,
    PostDec,
}

/// What a query of a path answers where the path isn't there.
#[derive(Clone, Copy, Debug, PartialEq, Eq)]
pub enum QueryMode {
    CGet,
    CGetQuiet,
    Isset,
}

/// A kind of value that can be tested for.
#[derive(Clone, Copy, Debug, PartialEq, Eq)]
pub enum IsTypeOp {
    Null,
    Bool,
    Int,
    Str,
    Vec,
    Dict,
    Keyset,
    Obj,
}

/// The kind of an operand.
#[derive(Clone, Copy, Debug, PartialEq, Eq)]
pub enum ImmKind {
    Int,
    Count,
    Str,
    Name,
    Local,
    Iter,
    Label,
    Class,
    IncDec,
    SetOp,
    IsType,
    Constraint,
    Switch,
    SSwitch,
    IterLocals,
}
