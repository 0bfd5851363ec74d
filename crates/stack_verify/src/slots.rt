//! The slots that codes read by their places.

ghost use Rattle.std.specs.Prelude.{◌≡◌, ◌++◌, IfOk, OnOk};
ghost use Rattle.std.specs.List.{flat_map};
ghost use Rattle.hhbc_repo.specs.Codes as codes;
ghost use Rattle.hhbc_repo.specs.EachOnce.{perhaps};

use hack_values::NoMemory;
use hhbc_repo::{Base, Code, MemberKey, MemberSeq, last_key};
use std::alloc::Global;

fn base_slot(base: Base) -> Option<u8>
    ensures { perhaps result ≡ codes.base_slots base }
{
    match base {
        Base::Stack(slot) => Some(slot),
        Base::Local(_) | Base::This => None,
    }
}

fn key_slot(key: &MemberKey) -> Option<u8>
    ensures { perhaps result ≡ codes.key_slots key.now }
{
    match key {
        MemberKey::ElemStack(slot) | MemberKey::PropStack(slot) => Some(*slot),
        _ => None,
    }
}

fn push_slot(slots: &mut Vec<u8>, slot: Option<u8>) -> Result<(), NoMemory>
    ensures { OnOk result (slots.new.items ≡ slots.old.items ++ perhaps slot) }
{
    match slot {
        Some(slot) => {
            slots.push(slot)?;
            Ok(())
        }
        None => Ok(()),
    }
}

fn push_key_slots(slots: &mut Vec<u8>, keys: &[MemberKey]) -> Result<(), NoMemory>
    ensures { OnOk result (slots.new.items ≡ slots.old.items ++ flat_map codes.key_slots keys.now) }
{
    for key in keys {
        push_slot(slots, key_slot(key))?;
    }
    Ok(())
}

/// The slots that a member sequence reads by their places from the top.
fn sequence_slots(alloc: Global, sequence: &MemberSeq) -> Result<Vec<u8>, NoMemory>
    ensures { IfOk result (λ slots. slots.items ≡ codes.base_slots sequence.now.base ++ flat_map codes.key_slots (codes.keys_of sequence.now)) }
{
    let mut slots = Vec::new(alloc);
    push_slot(&mut slots, base_slot(sequence.base))?;
    push_key_slots(&mut slots, sequence.dims.as_slice())?;
    push_slot(&mut slots, key_slot(last_key(&sequence.last)))?;
    Ok(slots)
}

/// The slots that a code reads by their places from the top.
pub(crate) fn slots_read(alloc: Global, code: &Code) -> Result<Vec<u8>, NoMemory>
    ensures { IfOk result (λ slots. slots.items ≡ codes.slots_read code.now) }
{
    match code {
        Code::Plain(_) => Ok(Vec::new(alloc)),
        Code::Member(sequence) => sequence_slots(alloc, sequence),
    }
}
