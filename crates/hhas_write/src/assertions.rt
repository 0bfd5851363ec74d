//! Positions: assertions, and the code that they stand before.

ghost use Rattle.std.specs.Prelude.{◌≡◌, ◌++◌, [], ◌∷◌, OnOk, map, pos};
ghost use Rattle.std.specs.List.{flat_map};
ghost use Rattle.hhas_lex.specs.Spaced.{text_of};
ghost use Rattle.hhas_lex.specs.Tokens as token;
ghost use Rattle.hhbc_repo.specs.Canonical.{canonical_assert, canonical_code, canonical_position, local_name};
ghost use Rattle.hhbc_repo.specs.CanonicalText.{assert_pieces, code_pieces, line, position_pieces, spaced, type_pieces};
ghost use Rattle.hhbc_repo.specs.WrittenTypes.{canonical_type};
ghost use Rattle.hhbc_repo.specs.declared.code.Code.TheVariants as forms;

use crate::members::push_member;
use crate::operands::push_operands;
use crate::pieces::{line_word, spaced_count, spaced_local, spaced_type};
use crate::scope::Scope;
use hack_values::{NoMemory, Text};
use hhbc_ops::name_of;
use hhbc_repo::{Assert, Code, Instr, Position};
use type_lattice::HType;

fn local_assertion(
    out: &mut Text,
    depth: usize,
    word: &[u8],
    scope: &Scope<'_>,
    local: u8,
    t: &HType,
) -> Result<(), NoMemory>
    ensures { OnOk result (out.new ≡ out.old ++ text_of (line depth (token.Word word.now) ∷ spaced (token.Local (local_name scope.now.body local)) ∷ type_pieces (canonical_type scope.now.classes t.now))) }
{
    line_word(out, depth, word)?;
    spaced_local(out, scope.local(local))?;
    spaced_type(out, scope.classes(), t)
}

fn stack_assertion(
    out: &mut Text,
    depth: usize,
    word: &[u8],
    scope: &Scope<'_>,
    slot: u8,
    t: &HType,
) -> Result<(), NoMemory>
    ensures { OnOk result (out.new ≡ out.old ++ text_of (line depth (token.Word word.now) ∷ spaced (token.Integer (pos slot)) ∷ type_pieces (canonical_type scope.now.classes t.now))) }
{
    line_word(out, depth, word)?;
    spaced_count(out, u16::from(slot))?;
    spaced_type(out, scope.classes(), t)
}

fn push_assertion(
    out: &mut Text,
    depth: usize,
    scope: &Scope<'_>,
    claim: &Assert,
) -> Result<(), NoMemory>
    ensures { OnOk result (out.new ≡ out.old ++ text_of (assert_pieces depth (canonical_assert scope.now.classes scope.now.body claim.now))) }
{
    match claim {
        Assert::Local(local, t) => { local_assertion(out, depth, b"AssertRATL", scope, *local, t) }
        Assert::Stack(slot, t) => { stack_assertion(out, depth, b"AssertRATStk", scope, *slot, t) }
    }
}

fn push_assertions(
    out: &mut Text,
    depth: usize,
    scope: &Scope<'_>,
    claims: &[Assert],
) -> Result<(), NoMemory>
    ensures { OnOk result (out.new ≡ out.old ++ text_of (flat_map (assert_pieces depth) (map (canonical_assert scope.now.classes scope.now.body) claims.now))) }
{
    for claim in claims {
        push_assertion(out, depth, scope, claim)?;
    }
    Ok(())
}

/// An instruction and its operands.
fn push_instruction(
    out: &mut Text,
    depth: usize,
    scope: &Scope<'_>,
    code: &Instr,
) -> Result<(), NoMemory>
    ensures { OnOk result (out.new ≡ out.old ++ text_of (code_pieces depth (canonical_code scope.now.classes scope.now.body (forms.Plain code.now)))) }
{
    line_word(out, depth, name_of(code.op).as_bytes())?;
    push_operands(out, scope, code.op, code.imms.as_slice())
}

fn push_code(out: &mut Text, depth: usize, scope: &Scope<'_>, code: &Code) -> Result<(), NoMemory>
    ensures { OnOk result (out.new ≡ out.old ++ text_of (code_pieces depth (canonical_code scope.now.classes scope.now.body code.now))) }
{
    match code {
        Code::Plain(code) => push_instruction(out, depth, scope, code),
        Code::Member(member) => push_member(out, depth, scope, member),
    }
}

/// A position.
#[tactic(auto, using(crate::proofs::Written::text_append))]
pub(crate) fn push_position(
    out: &mut Text,
    depth: usize,
    scope: &Scope<'_>,
    position: &Position,
) -> Result<(), NoMemory>
    ensures { OnOk result (out.new ≡ out.old ++ text_of (position_pieces depth (canonical_position scope.now.classes scope.now.body position.now))) }
{
    push_assertions(out, depth, scope, position.asserts.as_slice())?;
    push_code(out, depth, scope, &position.code)
}
