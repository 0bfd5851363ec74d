//! Operands of instructions.

ghost use Rattle.std.specs.Prelude.{◌≡◌, ◌++◌, [], ◌∷◌, OnOk, codes, map, option_map};
ghost use Rattle.std.specs.List.{flat_map};
ghost use Rattle.hhas_lex.specs.Spaced.{text_of};
ghost use Rattle.hhas_lex.specs.Tokens as token;
ghost use Rattle.hhbc_repo.specs.Canonical.{canonical_operand, label_name, local_name};
ghost use Rattle.hhbc_repo.specs.CanonicalText.{is_text_switch, key_local, operand_pieces, spaced, tagged};

use crate::pieces::{
    spaced_count, spaced_int, spaced_local, spaced_string, spaced_type, spaced_word, tagged_local,
};
use crate::scope::Scope;
use crate::switches::{push_switch, push_target};
use hack_values::{NoMemory, Text};
use hhbc_ops::{Op, inc_dec_name, is_type_name, set_op_name};
use hhbc_repo::Imm;

fn is_text_switch(op: Op) -> bool
    ensures { result ≡ is_text_switch op }
{
    matches!(op, Op::SSwitch)
}

fn spaced_target(out: &mut Text, scope: &Scope<'_>, position: u32) -> Result<(), NoMemory>
    ensures { OnOk result (out.new ≡ out.old ++ text_of (spaced (token.Word (label_name scope.now.body.positions position)) ∷ [])) }
{
    out.append(b" ")?;
    push_target(out, scope, position)
}

fn push_key_local(out: &mut Text, scope: &Scope<'_>, key: Option<u8>) -> Result<(), NoMemory>
    ensures { OnOk result (out.new ≡ out.old ++ text_of (key_local (option_map (local_name scope.now.body) key))) }
{
    match key {
        Some(key) => tagged_local(out, b"K", scope.local(key)),
        None => Ok(()),
    }
}

#[tactic(auto, using(crate::proofs::Written::text_append))]
fn push_iter_locals(
    out: &mut Text,
    scope: &Scope<'_>,
    key: Option<u8>,
    value: u8,
) -> Result<(), NoMemory>
    ensures { OnOk result (out.new ≡ out.old ++ text_of (key_local (option_map (local_name scope.now.body) key) ++ tagged (codes "V") (token.Local (local_name scope.now.body value)))) }
{
    push_key_local(out, scope, key)?;
    tagged_local(out, b"V", scope.local(value))
}

/// An operand of an instruction.
fn push_operand(out: &mut Text, scope: &Scope<'_>, op: Op, operand: &Imm) -> Result<(), NoMemory>
    ensures { OnOk result (out.new ≡ out.old ++ text_of (operand_pieces op (canonical_operand scope.now.classes scope.now.body operand.now))) }
{
    match operand {
        Imm::Int(number) => spaced_int(out, *number),
        Imm::Count(number) => spaced_count(out, *number),
        Imm::Str(text) => spaced_string(out, text.bytes()),
        Imm::Name(name) => spaced_word(out, name.bytes()),
        Imm::Local(local) => spaced_local(out, scope.local(*local)),
        Imm::Iter(iterator) => spaced_count(out, u16::from(*iterator)),
        Imm::Pos(position) => spaced_target(out, scope, *position),
        Imm::Class(class) => spaced_word(out, scope.class(*class)),
        Imm::IncDec(change) => spaced_word(out, inc_dec_name(*change).as_bytes()),
        Imm::SetOp(set_op) => spaced_word(out, set_op_name(*set_op).as_bytes()),
        Imm::IsType(kind) => spaced_word(out, is_type_name(*kind).as_bytes()),
        Imm::Constraint(t) => spaced_type(out, scope.classes(), t),
        Imm::Arms(arms) => push_switch(out, scope, is_text_switch(op), arms.as_slice()),
        Imm::IterLocals(key, value) => push_iter_locals(out, scope, *key, *value),
    }
}

/// The operands of an instruction.
pub(crate) fn push_operands(
    out: &mut Text,
    scope: &Scope<'_>,
    op: Op,
    operands: &[Imm],
) -> Result<(), NoMemory>
    ensures { OnOk result (out.new ≡ out.old ++ text_of (flat_map (operand_pieces op) (map (canonical_operand scope.now.classes scope.now.body) operands.now))) }
{
    for operand in operands {
        push_operand(out, scope, op, operand)?;
    }
    Ok(())
}
