//! What stands at the head of a body: its name and parameters, its stated type, and what it declares.

ghost use Rattle.std.specs.Prelude.{◌≡◌, ◌++◌, [], ◌∷◌, OnOk, drop, option_map, pos, take};
ghost use Rattle.std.specs.List.{flat_map};
ghost use Rattle.hhas_lex.specs.Spaced.{text_of};
ghost use Rattle.hhas_lex.specs.Tokens as token;
ghost use Rattle.hhbc_repo.specs.Canonical.{canonical_body};
ghost use Rattle.hhbc_repo.specs.CanonicalText.{head_pieces, iters_pieces, line, locals_pieces, more_local, params_pieces, spaced, stated_pieces, tight};
ghost use Rattle.hhbc_repo.specs.WrittenTypes.{canonical_type};

use crate::pieces::{
    line_directive, push_local, spaced_count, spaced_directive, spaced_local, spaced_open,
    spaced_type, spaced_word,
};
use hack_values::{NoMemory, Text};
use hhbc_repo::Body;
use std::alloc::Global;
use type_lattice::HType;

/// Further locals, each behind its comma.
fn push_more_locals(out: &mut Text, names: &[Text]) -> Result<(), NoMemory>
    ensures { OnOk result (out.new ≡ out.old ++ text_of (flat_map more_local names.now)) }
{
    for name in names {
        out.append(b",")?;
        spaced_local(out, name.bytes())?;
    }
    Ok(())
}

/// The parameters in their parentheses.
#[tactic(auto, using(crate::proofs::Written::text_append))]
fn push_params(out: &mut Text, names: &[Text]) -> Result<(), NoMemory>
    ensures { OnOk result (out.new ≡ out.old ++ text_of (params_pieces names.now)) }
{
    match names {
        [] => out.append(b"()"),
        [first, more @ ..] => {
            out.append(b"(")?;
            push_local(out, first.bytes())?;
            push_more_locals(out, more)?;
            out.append(b")")
        }
    }
}

/// A directive and a type, where one is stated.
pub(crate) fn push_stated(
    out: &mut Text,
    word: &[u8],
    classes: &[Text],
    stated: &Option<HType>,
) -> Result<(), NoMemory>
    ensures { OnOk result (out.new ≡ out.old ++ text_of (stated_pieces word.now (option_map (canonical_type classes.now) stated.now))) }
{
    match stated {
        Some(t) => {
            spaced_directive(out, word)?;
            spaced_type(out, classes, t)
        }
        None => Ok(()),
    }
}

#[tactic(auto, using(crate::proofs::Written::text_append))]
fn push_declaration(
    out: &mut Text,
    depth: usize,
    word: &[u8],
    first: &[u8],
    more: &[Text],
) -> Result<(), NoMemory>
    ensures { OnOk result (out.new ≡ out.old ++ text_of (line depth (token.Directive word.now) ∷ spaced (token.Local first.now) ∷ (flat_map more_local more.now ++ tight (token.Mark 59) ∷ []))) }
{
    line_directive(out, depth, word)?;
    spaced_local(out, first)?;
    push_more_locals(out, more)?;
    out.append(b";")
}

/// The locals that a body declares.
pub(crate) fn push_locals(out: &mut Text, depth: usize, names: &[Text]) -> Result<(), NoMemory>
    ensures { OnOk result (out.new ≡ out.old ++ text_of (locals_pieces depth names.now)) }
{
    match names {
        [] => Ok(()),
        [first, more @ ..] => push_declaration(out, depth, b"declvars", first.bytes(), more),
    }
}

fn push_number(out: &mut Text, depth: usize, word: &[u8], number: u8) -> Result<(), NoMemory>
    ensures { OnOk result (out.new ≡ out.old ++ text_of (line depth (token.Directive word.now) ∷ spaced (token.Integer (pos number)) ∷ tight (token.Mark 59) ∷ [])) }
{
    line_directive(out, depth, word)?;
    spaced_count(out, u16::from(number))?;
    out.append(b";")
}

/// The number of iterators of a body.
pub(crate) fn push_iters(out: &mut Text, depth: usize, number: u8) -> Result<(), NoMemory>
    ensures { OnOk result (out.new ≡ out.old ++ text_of (iters_pieces depth number)) }
{
    if number == 0 {
        Ok(())
    } else {
        push_number(out, depth, b"numiters", number)
    }
}

/// The parameters of a body are its first locals.
fn params(body: &Body) -> &[Text]
    ensures { result.now ≡ take body.now.params body.now.locals }
{
    let locals = body.locals.as_slice();
    locals.get(..body.params as usize).unwrap_or(locals)
}

/// The other locals.
pub(crate) fn declared(body: &Body) -> &[Text]
    ensures { result.now ≡ drop body.now.params body.now.locals }
{
    let locals = body.locals.as_slice();
    locals.get(body.params as usize..).unwrap_or(&[])
}

/// The line that begins a body.
#[tactic(auto, using(crate::proofs::Written::text_append))]
pub(crate) fn push_head(
    out: &mut Text,
    depth: usize,
    word: &[u8],
    classes: &[Text],
    body: &Body,
) -> Result<(), NoMemory>
    ensures { OnOk result (out.new ≡ out.old ++ text_of (head_pieces depth word.now (canonical_body classes.now body.now))) }
{
    line_directive(out, depth, word)?;
    spaced_word(out, body.name.bytes())?;
    push_params(out, params(body))?;
    push_stated(out, b"returns", classes, &body.stated)?;
    spaced_open(out)
}
