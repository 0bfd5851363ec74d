//! Whole texts.

ghost use Rattle.std.specs.Prelude.{◌≡◌, ◌++◌, IfOk, OnOk, map};
ghost use Rattle.std.specs.List.{flat_map};
ghost use Rattle.hhas_lex.specs.Spaced.{text_of};
ghost use Rattle.hhbc_repo.specs.Canonical.{canonical_body, canonical_class};
ghost use Rattle.hhbc_repo.specs.CanonicalText.{canonical_text, class_pieces, function_pieces};

use crate::body_texts::push_body;
use crate::class_texts::push_class;
use hack_values::{NoMemory, Text};
use hhbc_repo::{Body, Class, Repo};
use std::alloc::Global;

fn push_functions(
    alloc: Global,
    out: &mut Text,
    classes: &[Text],
    functions: &[Body],
) -> Result<(), NoMemory>
    ensures { OnOk result (out.new ≡ out.old ++ text_of (flat_map function_pieces (map (canonical_body classes.now) functions.now))) }
{
    for function in functions {
        push_body(alloc, out, 0, b"function", classes, function)?;
    }
    Ok(())
}

fn push_classes(
    alloc: Global,
    out: &mut Text,
    names: &[Text],
    classes: &[Class],
) -> Result<(), NoMemory>
    ensures { OnOk result (out.new ≡ out.old ++ text_of (flat_map class_pieces (map (canonical_class names.now) classes.now))) }
{
    for class in classes {
        push_class(alloc, out, names, class)?;
    }
    Ok(())
}

/// The canonical text of a repository.
pub fn write_text(alloc: Global, repo: &Repo) -> Result<Text, NoMemory>
    ensures { IfOk result (λ text. text ≡ canonical_text repo.now) }
{
    let names = repo.class_names();
    let mut out = Text::from_bytes(alloc, b".profile 1;")?;
    push_functions(alloc, &mut out, names, repo.functions())?;
    push_classes(alloc, &mut out, names, repo.classes())?;
    out.append(b"\n")?;
    Ok(out)
}
