//! Arms of switches.

ghost use Rattle.std.specs.Prelude.{◌≡◌, ◌++◌, ◌∷◌, OnOk, map};
ghost use Rattle.std.specs.List.{flat_map};
ghost use Rattle.hhas_lex.specs.Spaced.{text_of};
ghost use Rattle.hhas_lex.specs.Spelling.{spelling};
ghost use Rattle.hhbc_repo.specs.Canonical.{canonical_arm, label_name};
ghost use Rattle.hhbc_repo.specs.CanonicalText.{arm_token, arms_pieces, inner_arms, label_piece, more_arm, switch_pieces, text_arms_pieces};

use crate::pieces::push_label;
use crate::scope::Scope;
use hack_values::{NoMemory, Text, push_literal};
use hhbc_repo::Arm;

/// The label of a position.
pub(crate) fn push_target(out: &mut Text, scope: &Scope<'_>, position: u32) -> Result<(), NoMemory>
    ensures { OnOk result (out.new ≡ out.old ++ label_name scope.now.body.positions position) }
{
    match scope.label(position as usize) {
        Some(label) => push_label(out, label),
        None => Ok(()),
    }
}

fn push_more_targets(out: &mut Text, scope: &Scope<'_>, arms: &[Arm]) -> Result<(), NoMemory>
    ensures { OnOk result (out.new ≡ out.old ++ text_of (map label_piece (map (canonical_arm scope.now.body) arms.now))) }
{
    for arm in arms {
        out.append(b" ")?;
        push_target(out, scope, arm.target)?;
    }
    Ok(())
}

/// The arms of a switch on ints.
fn push_arms(out: &mut Text, scope: &Scope<'_>, arms: &[Arm]) -> Result<(), NoMemory>
    ensures { OnOk result (out.new ≡ out.old ++ text_of (arms_pieces (map (canonical_arm scope.now.body) arms.now))) }
{
    match arms {
        [] => Ok(()),
        [first, more @ ..] => {
            push_target(out, scope, first.target)?;
            push_more_targets(out, scope, more)
        }
    }
}

/// A string, or the word of the arm for all others.
fn push_arm_text(out: &mut Text, text: &Option<Text>) -> Result<(), NoMemory>
    ensures { OnOk result (out.new ≡ out.old ++ spelling (arm_token text.now)) }
{
    match text {
        Some(text) => push_literal(out, text.bytes()),
        None => out.append(b"default"),
    }
}

fn push_text_arm(out: &mut Text, scope: &Scope<'_>, arm: &Arm) -> Result<(), NoMemory>
    ensures { OnOk result (out.new ≡ out.old ++ (spelling (arm_token arm.now.text) ++ 58 ∷ label_name scope.now.body.positions arm.now.target)) }
{
    push_arm_text(out, &arm.text)?;
    out.append(b":")?;
    push_target(out, scope, arm.target)
}

fn push_more_text_arms(out: &mut Text, scope: &Scope<'_>, arms: &[Arm]) -> Result<(), NoMemory>
    ensures { OnOk result (out.new ≡ out.old ++ text_of (flat_map more_arm (map (canonical_arm scope.now.body) arms.now))) }
{
    for arm in arms {
        out.append(b", ")?;
        push_text_arm(out, scope, arm)?;
    }
    Ok(())
}

/// The arms of a switch on strings.
fn push_text_arms(out: &mut Text, scope: &Scope<'_>, arms: &[Arm]) -> Result<(), NoMemory>
    ensures { OnOk result (out.new ≡ out.old ++ text_of (text_arms_pieces (map (canonical_arm scope.now.body) arms.now))) }
{
    match arms {
        [] => Ok(()),
        [first, more @ ..] => {
            push_text_arm(out, scope, first)?;
            push_more_text_arms(out, scope, more)
        }
    }
}

fn push_inner_arms(
    out: &mut Text,
    scope: &Scope<'_>,
    by_text: bool,
    arms: &[Arm],
) -> Result<(), NoMemory>
    ensures { OnOk result (out.new ≡ out.old ++ text_of (inner_arms by_text (map (canonical_arm scope.now.body) arms.now))) }
{
    if by_text {
        push_text_arms(out, scope, arms)
    } else {
        push_arms(out, scope, arms)
    }
}

/// The arms of a switch in their brackets.
#[tactic(auto, using(crate::proofs::Written::text_append))]
pub(crate) fn push_switch(
    out: &mut Text,
    scope: &Scope<'_>,
    by_text: bool,
    arms: &[Arm],
) -> Result<(), NoMemory>
    ensures { OnOk result (out.new ≡ out.old ++ text_of (switch_pieces by_text (map (canonical_arm scope.now.body) arms.now))) }
{
    out.append(b" <")?;
    push_inner_arms(out, scope, by_text, arms)?;
    out.append(b">")
}
