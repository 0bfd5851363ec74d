//! Classes and their members.

ghost use Rattle.std.specs.Prelude.{◌≡◌, ◌++◌, [], ◌∷◌, OnOk, map, option_map};
ghost use Rattle.std.specs.List.{flat_map};
ghost use Rattle.hhas_lex.specs.Spaced.{text_of};
ghost use Rattle.hhas_lex.specs.Spelling.{spelling};
ghost use Rattle.type_lattice.specs.TypeText.{class_name};
ghost use Rattle.hhbc_repo.specs.Canonical.{canonical_body, canonical_class, canonical_property};
ghost use Rattle.hhbc_repo.specs.CanonicalText.{cell_token, class_head, class_pieces, const_pieces, member_pieces, method_pieces, parent_pieces, property_pieces, valued};

use crate::body_heads::push_stated;
use crate::body_texts::push_body;
use crate::pieces::{line_close, line_directive, push_int, spaced_open, spaced_word};
use hack_values::{Cell, NoMemory, Text, push_literal};
use hhbc_repo::{Body, Class, Const, Property};
use std::alloc::Global;

/// A scalar, or the word of a container.
fn push_cell(out: &mut Text, value: &Cell) -> Result<(), NoMemory>
    ensures { OnOk result (out.new ≡ out.old ++ spelling (cell_token value.now)) }
{
    match value {
        Cell::Null => out.append(b"Null"),
        Cell::Bool(true) => out.append(b"True"),
        Cell::Bool(false) => out.append(b"False"),
        Cell::Int(number) => push_int(out, *number),
        Cell::Str(text) => push_literal(out, text.bytes()),
        Cell::Vec(_) => out.append(b"Vec"),
        Cell::Dict(_) => out.append(b"Dict"),
        Cell::Keyset(_) => out.append(b"Keyset"),
        Cell::Obj(_) => Ok(()),
    }
}

/// A name and its value, behind a directive.
fn push_valued(out: &mut Text, word: &[u8], name: &[u8], value: &Cell) -> Result<(), NoMemory>
    ensures { OnOk result (out.new ≡ out.old ++ text_of (valued word.now name.now value.now)) }
{
    line_directive(out, 1, word)?;
    spaced_word(out, name)?;
    out.append(b" = ")?;
    push_cell(out, value)
}

fn push_const(out: &mut Text, constant: &Const) -> Result<(), NoMemory>
    ensures { OnOk result (out.new ≡ out.old ++ text_of (const_pieces constant.now)) }
{
    push_valued(out, b"const", constant.name.bytes(), &constant.value)?;
    out.append(b";")
}

fn push_consts(out: &mut Text, consts: &[Const]) -> Result<(), NoMemory>
    ensures { OnOk result (out.new ≡ out.old ++ text_of (flat_map const_pieces consts.now)) }
{
    for constant in consts {
        push_const(out, constant)?;
    }
    Ok(())
}

fn push_property(out: &mut Text, classes: &[Text], property: &Property) -> Result<(), NoMemory>
    ensures { OnOk result (out.new ≡ out.old ++ text_of (property_pieces (canonical_property classes.now property.now))) }
{
    push_valued(out, b"property", property.name.bytes(), &property.initial)?;
    push_stated(out, b"holds", classes, &property.stated)?;
    out.append(b";")
}

fn push_properties(
    out: &mut Text,
    classes: &[Text],
    properties: &[Property],
) -> Result<(), NoMemory>
    ensures { OnOk result (out.new ≡ out.old ++ text_of (flat_map property_pieces (map (canonical_property classes.now) properties.now))) }
{
    for property in properties {
        push_property(out, classes, property)?;
    }
    Ok(())
}

fn push_methods(
    alloc: Global,
    out: &mut Text,
    classes: &[Text],
    methods: &[Body],
) -> Result<(), NoMemory>
    ensures { OnOk result (out.new ≡ out.old ++ text_of (flat_map method_pieces (map (canonical_body classes.now) methods.now))) }
{
    for method in methods {
        push_body(alloc, out, 1, b"method", classes, method)?;
    }
    Ok(())
}

fn push_parent(out: &mut Text, classes: &[Text], parent: Option<u32>) -> Result<(), NoMemory>
    ensures { OnOk result (out.new ≡ out.old ++ text_of (parent_pieces (option_map (class_name classes.now) parent))) }
{
    let Some(parent) = parent else {
        return Ok(());
    };
    spaced_word(out, b"extends")?;
    match classes.get(parent as usize) {
        Some(name) => spaced_word(out, name.bytes()),
        None => spaced_word(out, b""),
    }
}

#[tactic(auto, using(crate::proofs::Written::text_append))]
fn push_class_head(out: &mut Text, classes: &[Text], class: &Class) -> Result<(), NoMemory>
    ensures { OnOk result (out.new ≡ out.old ++ text_of (class_head (canonical_class classes.now class.now))) }
{
    line_directive(out, 0, b"class")?;
    spaced_word(out, class.name.bytes())?;
    push_parent(out, classes, class.parent)?;
    spaced_open(out)
}

#[tactic(auto, using(crate::proofs::Written::text_append))]
fn push_members(
    alloc: Global,
    out: &mut Text,
    classes: &[Text],
    class: &Class,
) -> Result<(), NoMemory>
    ensures { OnOk result (out.new ≡ out.old ++ text_of (member_pieces (canonical_class classes.now class.now))) }
{
    push_consts(out, class.consts.as_slice())?;
    push_properties(out, classes, class.props.as_slice())?;
    push_methods(alloc, out, classes, class.methods.as_slice())
}

/// A class.
#[tactic(auto, using(crate::proofs::Written::text_append))]
pub(crate) fn push_class(
    alloc: Global,
    out: &mut Text,
    classes: &[Text],
    class: &Class,
) -> Result<(), NoMemory>
    ensures { OnOk result (out.new ≡ out.old ++ text_of (class_pieces (canonical_class classes.now class.now))) }
{
    push_class_head(out, classes, class)?;
    push_members(alloc, out, classes, class)?;
    line_close(out, 0)
}
