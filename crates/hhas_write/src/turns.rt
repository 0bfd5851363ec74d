//! What stands before a position: ends and beginnings of try and catch bodies, and its label.

ghost use Rattle.std.specs.Prelude.{◌≡◌, ◌≤◌, ◌++◌, OnOk, length, replicate};
ghost use Rattle.hhbc_repo.specs.Canonical.{before, label_item};
ghost use Rattle.hhbc_repo.specs.declared.parts.ItemParts.TheVariants as items;
ghost use Rattle.hhas_write.specs.Items.{Writes, catch_text, try_text};

use crate::pieces::{line_close, line_directive, line_label, spaced_directive, spaced_open};
use crate::scope::Scope;
use hack_values::{NoMemory, Text};

/// Closes catch bodies.
#[tactic(auto, using(crate::proofs::Turning::writes_none))]
fn push_ends(out: &mut Text, depth: &mut usize, count: usize) -> Result<(), NoMemory>
    ensures { OnOk result (Writes (replicate count items.End) out.old depth.old out.new depth.new) }
{
    for _ in 0..count {
        *depth = depth.saturating_sub(1);
        line_close(out, *depth)?;
    }
    Ok(())
}

fn push_catch(out: &mut Text, outer: usize) -> Result<(), NoMemory>
    ensures { OnOk result (out.new ≡ out.old ++ catch_text outer) }
{
    line_close(out, outer)?;
    spaced_directive(out, b"catch")?;
    spaced_open(out)
}

/// Closes try bodies and opens their catch bodies.
#[tactic(auto, using(crate::proofs::Turning::writes_none))]
fn push_catches(out: &mut Text, depth: usize, count: usize) -> Result<(), NoMemory>
    ensures { OnOk result (Writes (replicate count items.Catch) out.old depth out.new depth) }
{
    for _ in 0..count {
        push_catch(out, depth.saturating_sub(1))?;
    }
    Ok(())
}

fn push_try(out: &mut Text, depth: usize) -> Result<(), NoMemory>
    ensures { OnOk result (out.new ≡ out.old ++ try_text depth) }
{
    line_directive(out, depth, b"try")?;
    spaced_open(out)
}

/// Opens try bodies. No memory holds a text within so many braces that they can't be counted.
#[tactic(auto, using(crate::proofs::Turning::writes_none))]
fn push_tries(out: &mut Text, depth: &mut usize, count: usize) -> Result<(), NoMemory>
    ensures { OnOk result (Writes (replicate count items.Try) out.old depth.old out.new depth.new) }
{
    for _ in 0..count {
        push_try(out, *depth)?;
        match depth.checked_add(1) {
            Some(inner) => *depth = inner,
            None => return Err(NoMemory),
        }
    }
    Ok(())
}

#[tactic(auto, using(crate::proofs::Turning::writes_none, crate::proofs::Turning::label_written))]
fn push_label_line(out: &mut Text, depth: usize, label: Option<usize>) -> Result<(), NoMemory>
    ensures { OnOk result (Writes (label_item label) out.old depth out.new depth) }
{
    match label {
        Some(label) => line_label(out, depth, label),
        None => Ok(()),
    }
}

/// What stands before a position, or behind the last.
#[tactic(auto, using(crate::proofs::Turning::before_written))]
pub(crate) fn push_before(
    out: &mut Text,
    depth: &mut usize,
    scope: &Scope<'_>,
    position: usize,
) -> Result<(), NoMemory>
    requires { position ≤ length scope.now.body.positions }
    ensures { OnOk result (Writes (before scope.now.body position) out.old depth.old out.new depth.new) }
{
    push_ends(out, depth, scope.ends(position))?;
    push_catches(out, *depth, scope.catches(position))?;
    push_tries(out, depth, scope.tries(position))?;
    push_label_line(out, *depth, scope.label(position))
}
