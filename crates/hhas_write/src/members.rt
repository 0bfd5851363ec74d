//! Member sequences: the base, each Dim and the final are a line of their own.

ghost use Rattle.std.specs.Prelude.{◌≡◌, ◌++◌, [], ◌∷◌, OnOk, map, pos};
ghost use Rattle.std.specs.List.{flat_map};
ghost use Rattle.hhas_lex.specs.Spaced.{text_of};
ghost use Rattle.hhas_lex.specs.Tokens as token;
ghost use Rattle.hhbc_repo.specs.Canonical.{canonical_base, canonical_code, canonical_final, canonical_key, local_name};
ghost use Rattle.hhbc_repo.specs.CanonicalText.{base_pieces, code_pieces, dim_pieces, final_head, final_pieces, key_pieces, line, spaced};
ghost use Rattle.hhbc_repo.specs.declared.code.Code.TheVariants as forms;

use crate::key_texts::push_key;
use crate::pieces::{line_word, spaced_count, spaced_local, spaced_word};
use crate::scope::Scope;
use hack_values::{NoMemory, Text};
use hhbc_ops::{inc_dec_name, query_mode_name, set_op_name};
use hhbc_repo::{Base, Final, MemberKey, MemberSeq};

fn line_local(out: &mut Text, depth: usize, word: &[u8], name: &[u8]) -> Result<(), NoMemory>
    ensures { OnOk result (out.new ≡ out.old ++ text_of (line depth (token.Word word.now) ∷ spaced (token.Local name.now) ∷ [])) }
{
    line_word(out, depth, word)?;
    spaced_local(out, name)
}

/// A word and a number.
fn line_count(out: &mut Text, depth: usize, word: &[u8], number: u8) -> Result<(), NoMemory>
    ensures { OnOk result (out.new ≡ out.old ++ text_of (final_head depth word.now number)) }
{
    line_word(out, depth, word)?;
    spaced_count(out, u16::from(number))
}

fn push_base(out: &mut Text, depth: usize, scope: &Scope<'_>, base: &Base) -> Result<(), NoMemory>
    ensures { OnOk result (out.new ≡ out.old ++ text_of (base_pieces depth (canonical_base scope.now.body base.now))) }
{
    match base {
        Base::Local(local) => line_local(out, depth, b"BaseL", scope.local(*local)),
        Base::Stack(slot) => line_count(out, depth, b"BaseC", *slot),
        Base::This => line_word(out, depth, b"BaseH"),
    }
}

fn push_dim(
    out: &mut Text,
    depth: usize,
    scope: &Scope<'_>,
    key: &MemberKey,
) -> Result<(), NoMemory>
    ensures { OnOk result (out.new ≡ out.old ++ text_of (dim_pieces depth (canonical_key scope.now.body key.now))) }
{
    line_word(out, depth, b"Dim")?;
    push_key(out, scope, key)
}

fn push_dims(
    out: &mut Text,
    depth: usize,
    scope: &Scope<'_>,
    dims: &[MemberKey],
) -> Result<(), NoMemory>
    ensures { OnOk result (out.new ≡ out.old ++ text_of (flat_map (dim_pieces depth) (map (canonical_key scope.now.body) dims.now))) }
{
    for key in dims {
        push_dim(out, depth, scope, key)?;
    }
    Ok(())
}

/// The line of a final, of its word, its number and its key.
fn plain_final(
    out: &mut Text,
    depth: usize,
    scope: &Scope<'_>,
    word: &[u8],
    number: u8,
    key: &MemberKey,
) -> Result<(), NoMemory>
    ensures { OnOk result (out.new ≡ out.old ++ text_of (final_head depth word.now number ++ key_pieces (canonical_key scope.now.body key.now))) }
{
    line_count(out, depth, word, number)?;
    push_key(out, scope, key)
}

/// A final with one more word before its key.
fn worded_final(
    out: &mut Text,
    depth: usize,
    scope: &Scope<'_>,
    word: &[u8],
    number: u8,
    mode: &[u8],
    key: &MemberKey,
) -> Result<(), NoMemory>
    ensures { OnOk result (out.new ≡ out.old ++ text_of (final_head depth word.now number ++ (spaced (token.Word mode.now) ∷ key_pieces (canonical_key scope.now.body key.now)))) }
{
    line_count(out, depth, word, number)?;
    spaced_word(out, mode)?;
    push_key(out, scope, key)
}

fn push_final(out: &mut Text, depth: usize, scope: &Scope<'_>, last: &Final) -> Result<(), NoMemory>
    ensures { OnOk result (out.new ≡ out.old ++ text_of (final_pieces depth (canonical_final scope.now.body last.now))) }
{
    match last {
        Final::Query(number, mode, key) => {
            let mode = query_mode_name(*mode).as_bytes();
            worded_final(out, depth, scope, b"QueryM", *number, mode, key)
        }
        Final::Set(number, key) => plain_final(out, depth, scope, b"SetM", *number, key),
        Final::SetOp(number, op, key) => {
            let op = set_op_name(*op).as_bytes();
            worded_final(out, depth, scope, b"SetOpM", *number, op, key)
        }
        Final::IncDec(number, op, key) => {
            let op = inc_dec_name(*op).as_bytes();
            worded_final(out, depth, scope, b"IncDecM", *number, op, key)
        }
        Final::Unset(number, key) => { plain_final(out, depth, scope, b"UnsetM", *number, key) }
    }
}

/// A member sequence.
#[tactic(auto, using(crate::proofs::Written::text_append))]
pub(crate) fn push_member(
    out: &mut Text,
    depth: usize,
    scope: &Scope<'_>,
    member: &MemberSeq,
) -> Result<(), NoMemory>
    ensures { OnOk result (out.new ≡ out.old ++ text_of (code_pieces depth (canonical_code scope.now.classes scope.now.body (forms.Member member.now)))) }
{
    push_base(out, depth, scope, &member.base)?;
    push_dims(out, depth, scope, member.dims.as_slice())?;
    push_final(out, depth, scope, &member.last)
}
