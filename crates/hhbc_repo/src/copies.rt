//! Copies of a repository's parts.

ghost use Rattle.std.specs.Prelude.{◌≡◌, IfOk};

use crate::body::{Assert, Body, Position, Region};
use crate::code::{Arm, Code, Final, Imm, Instr, MemberKey, MemberSeq};
use crate::link_operands::perhaps_copied;
use crate::repo::{Class, Const, Property};
use hack_values::{NoMemory, Seq, Text};
use std::alloc::Global;

/// What can be copied, in memory of its own.
pub(crate) trait Copied: Sized {
    /// An equal value.
    fn copied(&self, alloc: Global) -> Result<Self, NoMemory>
        ensures { IfOk result (λ copy. copy ≡ self.now) };
}

/// A list with a copy of each item.
pub(crate) fn copied_all<T: Copied + Drop>(alloc: Global, items: &[T]) -> Result<Seq<T>, NoMemory>
    ensures { IfOk result (λ copies. copies ≡ items.now) }
{
    let mut copies = Seq::new(alloc);
    for item in items {
        copies.push(item.copied(alloc)?)?;
    }
    Ok(copies)
}

impl Copied for Text {
    fn copied(&self, alloc: Global) -> Result<Text, NoMemory> {
        self.copy(alloc)
    }
}

impl Copied for Assert {
    fn copied(&self, _alloc: Global) -> Result<Assert, NoMemory> {
        Ok(*self)
    }
}

impl Copied for Region {
    fn copied(&self, _alloc: Global) -> Result<Region, NoMemory> {
        Ok(*self)
    }
}

impl Copied for Arm {
    fn copied(&self, alloc: Global) -> Result<Arm, NoMemory> {
        Ok(Arm {
            text: perhaps_copied(alloc, &self.text)?,
            target: self.target,
        })
    }
}

impl Copied for Imm {
    fn copied(&self, alloc: Global) -> Result<Imm, NoMemory> {
        match self {
            Imm::Int(number) => Ok(Imm::Int(*number)),
            Imm::Count(count) => Ok(Imm::Count(*count)),
            Imm::Str(text) => Ok(Imm::Str(text.copy(alloc)?)),
            Imm::Name(name) => Ok(Imm::Name(name.copy(alloc)?)),
            Imm::Local(local) => Ok(Imm::Local(*local)),
            Imm::Iter(iter) => Ok(Imm::Iter(*iter)),
            Imm::Pos(position) => Ok(Imm::Pos(*position)),
            Imm::Class(class) => Ok(Imm::Class(*class)),
            Imm::IncDec(op) => Ok(Imm::IncDec(*op)),
            Imm::SetOp(op) => Ok(Imm::SetOp(*op)),
            Imm::IsType(op) => Ok(Imm::IsType(*op)),
            Imm::Constraint(constraint) => Ok(Imm::Constraint(*constraint)),
            Imm::Arms(arms) => Ok(Imm::Arms(copied_all(alloc, arms.as_slice())?)),
            Imm::IterLocals(key, value) => Ok(Imm::IterLocals(*key, *value)),
        }
    }
}

impl Copied for MemberKey {
    fn copied(&self, alloc: Global) -> Result<MemberKey, NoMemory> {
        match self {
            MemberKey::ElemStack(depth) => Ok(MemberKey::ElemStack(*depth)),
            MemberKey::ElemLocal(local) => Ok(MemberKey::ElemLocal(*local)),
            MemberKey::ElemText(text) => Ok(MemberKey::ElemText(text.copy(alloc)?)),
            MemberKey::ElemInt(number) => Ok(MemberKey::ElemInt(*number)),
            MemberKey::PropStack(depth) => Ok(MemberKey::PropStack(*depth)),
            MemberKey::PropLocal(local) => Ok(MemberKey::PropLocal(*local)),
            MemberKey::PropName(name) => Ok(MemberKey::PropName(name.copy(alloc)?)),
            MemberKey::NullsafeName(name) => Ok(MemberKey::NullsafeName(name.copy(alloc)?)),
            MemberKey::Append => Ok(MemberKey::Append),
        }
    }
}

impl Copied for Final {
    fn copied(&self, alloc: Global) -> Result<Final, NoMemory> {
        match self {
            Final::Query(slots, mode, key) => Ok(Final::Query(*slots, *mode, key.copied(alloc)?)),
            Final::Set(slots, key) => Ok(Final::Set(*slots, key.copied(alloc)?)),
            Final::SetOp(slots, op, key) => Ok(Final::SetOp(*slots, *op, key.copied(alloc)?)),
            Final::IncDec(slots, op, key) => Ok(Final::IncDec(*slots, *op, key.copied(alloc)?)),
            Final::Unset(slots, key) => Ok(Final::Unset(*slots, key.copied(alloc)?)),
        }
    }
}

impl Copied for MemberSeq {
    fn copied(&self, alloc: Global) -> Result<MemberSeq, NoMemory> {
        Ok(MemberSeq {
            base: self.base,
            dims: copied_all(alloc, self.dims.as_slice())?,
            last: self.last.copied(alloc)?,
        })
    }
}

impl Copied for Instr {
    fn copied(&self, alloc: Global) -> Result<Instr, NoMemory> {
        Ok(Instr {
            op: self.op,
            imms: copied_all(alloc, self.imms.as_slice())?,
        })
    }
}

impl Copied for Code {
    fn copied(&self, alloc: Global) -> Result<Code, NoMemory> {
        match self {
            Code::Plain(instr) => Ok(Code::Plain(instr.copied(alloc)?)),
            Code::Member(member) => Ok(Code::Member(member.copied(alloc)?)),
        }
    }
}

impl Copied for Position {
    fn copied(&self, alloc: Global) -> Result<Position, NoMemory> {
        Ok(Position {
            asserts: copied_all(alloc, self.asserts.as_slice())?,
            code: self.code.copied(alloc)?,
        })
    }
}

impl Copied for Body {
    fn copied(&self, alloc: Global) -> Result<Body, NoMemory> {
        Ok(Body {
            name: self.name.copy(alloc)?,
            params: self.params,
            locals: copied_all(alloc, self.locals.as_slice())?,
            iters: self.iters,
            stated: self.stated,
            positions: copied_all(alloc, self.positions.as_slice())?,
            regions: copied_all(alloc, self.regions.as_slice())?,
        })
    }
}

impl Copied for Const {
    fn copied(&self, alloc: Global) -> Result<Const, NoMemory> {
        Ok(Const {
            name: self.name.copy(alloc)?,
            value: self.value.copy(alloc)?,
        })
    }
}

impl Copied for Property {
    fn copied(&self, alloc: Global) -> Result<Property, NoMemory> {
        Ok(Property {
            name: self.name.copy(alloc)?,
            initial: self.initial.copy(alloc)?,
            stated: self.stated,
        })
    }
}

impl Copied for Class {
    fn copied(&self, alloc: Global) -> Result<Class, NoMemory> {
        Ok(Class {
            name: self.name.copy(alloc)?,
            parent: self.parent,
            consts: copied_all(alloc, self.consts.as_slice())?,
            props: copied_all(alloc, self.props.as_slice())?,
            methods: copied_all(alloc, self.methods.as_slice())?,
        })
    }
}
