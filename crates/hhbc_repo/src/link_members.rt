//! Member sequences, with numbers for the names in them.

ghost use Rattle.std.specs.Prelude.{◌++◌, map};
ghost use Rattle.std.specs.List.{flat_map};
ghost use Rattle.hhbc_repo.specs.Checks.{Checks};
ghost use Rattle.hhbc_repo.specs.LinkFaults.{base_faults, key_faults, last_key};
ghost use Rattle.hhbc_repo.specs.Resolved.{resolved_base, resolved_final, resolved_key};

use crate::code::{Base, Final, MemberKey, MemberSeq};
use crate::link_fault::LinkError;
use crate::parts::{BaseParts, FinalParts, MemberKeyParts, MemberSeqParts};
use crate::scope::Scope;
use hack_values::Seq;
use std::alloc::Global;

impl<'a> Scope<'a> {
    fn base(&self, alloc: Global, base: &BaseParts) -> Result<Base, LinkError>
        ensures { Checks (base_faults self.now base.now) (resolved_base self.now.body base.now) result }
    {
        match base {
            BaseParts::Local(name) => match self.local(alloc, name.bytes()) {
                Ok(number) => Ok(Base::Local(number)),
                Err(error) => Err(error),
            },
            BaseParts::Stack(depth) => Ok(Base::Stack(*depth)),
            BaseParts::This => Ok(Base::This),
        }
    }

    fn key(&self, alloc: Global, key: &MemberKeyParts) -> Result<MemberKey, LinkError>
        ensures { Checks (key_faults self.now key.now) (resolved_key self.now.body key.now) result }
    {
        match key {
            MemberKeyParts::ElemStack(depth) => Ok(MemberKey::ElemStack(*depth)),
            MemberKeyParts::ElemLocal(name) => match self.local(alloc, name.bytes()) {
                Ok(number) => Ok(MemberKey::ElemLocal(number)),
                Err(error) => Err(error),
            },
            MemberKeyParts::ElemText(text) => Ok(MemberKey::ElemText(text.copy(alloc)?)),
            MemberKeyParts::ElemInt(number) => Ok(MemberKey::ElemInt(*number)),
            MemberKeyParts::PropStack(depth) => Ok(MemberKey::PropStack(*depth)),
            MemberKeyParts::PropLocal(name) => match self.local(alloc, name.bytes()) {
                Ok(number) => Ok(MemberKey::PropLocal(number)),
                Err(error) => Err(error),
            },
            MemberKeyParts::PropName(name) => Ok(MemberKey::PropName(name.copy(alloc)?)),
            MemberKeyParts::NullsafeName(name) => Ok(MemberKey::NullsafeName(name.copy(alloc)?)),
            MemberKeyParts::Append => Ok(MemberKey::Append),
        }
    }

    fn keys(&self, alloc: Global, keys: &[MemberKeyParts]) -> Result<Seq<MemberKey>, LinkError>
        ensures { Checks (flat_map (key_faults self.now) keys.now) (map (resolved_key self.now.body) keys.now) result }
    {
        let mut linked = Seq::new(alloc);
        for key in keys {
            match self.key(alloc, key) {
                Ok(key) => linked.push(key)?,
                Err(error) => return Err(error),
            }
        }
        Ok(linked)
    }

    fn last(&self, alloc: Global, last: &FinalParts) -> Result<Final, LinkError>
        ensures { Checks (key_faults self.now (last_key last.now)) (resolved_final self.now.body last.now) result }
    {
        match last {
            FinalParts::Query(slots, mode, key) => match self.key(alloc, key) {
                Ok(key) => Ok(Final::Query(*slots, *mode, key)),
                Err(error) => Err(error),
            },
            FinalParts::Set(slots, key) => match self.key(alloc, key) {
                Ok(key) => Ok(Final::Set(*slots, key)),
                Err(error) => Err(error),
            },
            FinalParts::SetOp(slots, op, key) => match self.key(alloc, key) {
                Ok(key) => Ok(Final::SetOp(*slots, *op, key)),
                Err(error) => Err(error),
            },
            FinalParts::IncDec(slots, op, key) => match self.key(alloc, key) {
                Ok(key) => Ok(Final::IncDec(*slots, *op, key)),
                Err(error) => Err(error),
            },
            FinalParts::Unset(slots, key) => match self.key(alloc, key) {
                Ok(key) => Ok(Final::Unset(*slots, key)),
                Err(error) => Err(error),
            },
        }
    }

    /// A member sequence.
    pub(crate) fn member(
        &self,
        alloc: Global,
        parts: &MemberSeqParts,
    ) -> Result<MemberSeq, LinkError>
        ensures { Checks (base_faults self.now parts.now.base ++ (flat_map (key_faults self.now) parts.now.dims ++ key_faults self.now (last_key parts.now.last))) (record { base = resolved_base self.now.body parts.now.base; dims = map (resolved_key self.now.body) parts.now.dims; last = resolved_final self.now.body parts.now.last }) result }
    {
        match self.base(alloc, &parts.base) {
            Ok(base) => match self.keys(alloc, parts.dims.as_slice()) {
                Ok(dims) => match self.last(alloc, &parts.last) {
                    Ok(last) => Ok(MemberSeq { base, dims, last }),
                    Err(error) => Err(error),
                },
                Err(error) => Err(error),
            },
            Err(error) => Err(error),
        }
    }
}
