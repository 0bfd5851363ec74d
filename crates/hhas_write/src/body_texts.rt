//! Bodies of functions and methods.

ghost use Rattle.std.specs.Prelude.{◌≡◌, ◌++◌, ◌<◌, OnOk};
ghost use Rattle.hhas_lex.specs.Spaced.{text_of};
ghost use Rattle.hhbc_repo.specs.Canonical.{canonical_body};
ghost use Rattle.hhbc_repo.specs.CanonicalText.{body_pieces, inner_pieces};

use crate::body_heads::{declared, push_head, push_iters, push_locals};
use crate::item_texts::push_items;
use crate::pieces::line_close;
use crate::scope::Scope;
use hack_values::{NoMemory, Text};
use hhbc_repo::Body;
use std::alloc::Global;

/// What stands between the braces of a body.
#[tactic(auto, using(crate::proofs::Written::text_append))]
fn push_inner(
    alloc: Global,
    out: &mut Text,
    depth: usize,
    classes: &[Text],
    body: &Body,
) -> Result<(), NoMemory>
    ensures { OnOk result (out.new ≡ out.old ++ text_of (inner_pieces depth (canonical_body classes.now body.now))) }
{
    push_locals(out, depth, declared(body))?;
    push_iters(out, depth, body.iters)?;
    let scope = Scope::new(alloc, classes, body)?;
    push_items(out, depth, &scope)
}

/// A function or a method, by the word of its directive.
#[tactic(auto, using(crate::proofs::Written::text_append))]
pub(crate) fn push_body(
    alloc: Global,
    out: &mut Text,
    depth: usize,
    word: &[u8],
    classes: &[Text],
    body: &Body,
) -> Result<(), NoMemory>
    requires { depth < 2 }
    ensures { OnOk result (out.new ≡ out.old ++ text_of (body_pieces depth word.now (canonical_body classes.now body.now))) }
{
    push_head(out, depth, word, classes, body)?;
    push_inner(alloc, out, depth + 1, classes, body)?;
    line_close(out, depth)
}
