//! The canonical text of a type.

ghost use Rattle.std.specs.Prelude.{◌≡◌, ◌++◌, [], ◌∷◌, ◌<◌, IfOk, OnOk, true};
ghost use Rattle.std.specs.List.{flat_map};
ghost use Rattle.type_lattice.specs.Atoms.{Adds, bar};
ghost use Rattle.type_lattice.specs.TypeText as text;

use crate::types::{HType, IntPart, Leaf, ObjPart, StrPart};
use hack_values::{NoMemory, Text, push_literal};
use itoa::Buffer;
use std::alloc::Global;

fn push_class(out: &mut Text, names: &[Text], class: u32) -> Result<(), NoMemory>
    ensures { OnOk result (out.new ≡ out.old ++ text.class_name names.now class) }
{
    match names.get(class as usize) {
        Some(name) => out.append(name.bytes()),
        None => Ok(()),
    }
}

/// Adds a bar, but before the first atom, and the front of an atom.
fn begin(out: &mut Text, first: bool, front: &[u8]) -> Result<(), NoMemory>
    ensures { OnOk result (out.new ≡ out.old ++ bar first ++ front.now) }
{
    if !first {
        out.append(b"|")?;
    }
    out.append(front)
}

// Each function below takes whether its first atom is the first of all, and tells whether the next one still is.

/// Adds an atom where it is there.
fn put(out: &mut Text, first: bool, there: bool, name: &[u8]) -> Result<bool, NoMemory>
    ensures { IfOk result (λ still. Adds first (text.atom there name.now) out.old out.new still) }
{
    if !there {
        return Ok(first);
    }
    begin(out, first, name)?;
    Ok(false)
}

fn put_bools(out: &mut Text, first: bool, no: bool, yes: bool) -> Result<bool, NoMemory>
    ensures { IfOk result (λ still. Adds first (text.bool_atoms no yes) out.old out.new still) }
{
    match (no, yes) {
        (true, true) => put(out, first, true, b"Bool"),
        (true, false) => put(out, first, true, b"False"),
        (false, true) => put(out, first, true, b"True"),
        (false, false) => Ok(first),
    }
}

fn put_one_int(out: &mut Text, first: bool, number: i64) -> Result<bool, NoMemory>
    ensures { IfOk result (λ still. Adds first (text.int_atoms (IntPart.One number)) out.old out.new still) }
{
    begin(out, first, b"Int=")?;
    out.append(Buffer::new().format(number).as_bytes())?;
    Ok(false)
}

fn put_int(out: &mut Text, first: bool, part: IntPart) -> Result<bool, NoMemory>
    ensures { IfOk result (λ still. Adds first (text.int_atoms part) out.old out.new still) }
{
    match part {
        IntPart::No => Ok(first),
        IntPart::One(number) => put_one_int(out, first, number),
        IntPart::Any => put(out, first, true, b"Int"),
    }
}

fn put_one_str(out: &mut Text, first: bool, bytes: &[u8]) -> Result<bool, NoMemory>
    ensures { IfOk result (λ still. Adds first (text.one_str bytes.now ∷ []) out.old out.new still) }
{
    begin(out, first, b"Str=")?;
    push_literal(out, bytes)?;
    Ok(false)
}

fn put_str(out: &mut Text, first: bool, part: &StrPart) -> Result<bool, NoMemory>
    ensures { IfOk result (λ still. Adds first (text.str_atoms part.now) out.old out.new still) }
{
    match part {
        StrPart::No => Ok(first),
        StrPart::One(short) => put_one_str(out, first, short.as_bytes()),
        StrPart::Any => put(out, first, true, b"Str"),
    }
}

/// Adds a word and the name of a class.
fn put_class(
    out: &mut Text,
    first: bool,
    word: &[u8],
    names: &[Text],
    class: u32,
) -> Result<bool, NoMemory>
    ensures { IfOk result (λ still. Adds first ((word.now ++ text.class_name names.now class) ∷ []) out.old out.new still) }
{
    begin(out, first, word)?;
    push_class(out, names, class)?;
    Ok(false)
}

fn put_obj(out: &mut Text, first: bool, names: &[Text], part: ObjPart) -> Result<bool, NoMemory>
    ensures { IfOk result (λ still. Adds first (text.obj_atoms names.now part) out.old out.new still) }
{
    match part {
        ObjPart::No => Ok(first),
        ObjPart::Exact(class) => put_class(out, first, b"Obj=", names, class),
        ObjPart::Sub(class) => put_class(out, first, b"Obj<=", names, class),
        ObjPart::Any => put(out, first, true, b"Obj"),
    }
}

fn put_kinds(out: &mut Text, first: bool, leaf: &Leaf) -> Result<bool, NoMemory>
    ensures { IfOk result (λ still. Adds first (text.kind_atoms leaf.now) out.old out.new still) }
{
    let first = put(out, first, leaf.vec, b"Vec")?;
    let first = put(out, first, leaf.dict, b"Dict")?;
    put(out, first, leaf.keyset, b"Keyset")
}

fn put_leaf(out: &mut Text, names: &[Text], leaf: &Leaf) -> Result<bool, NoMemory>
    ensures { IfOk result (λ still. Adds true (text.leaf_atoms names.now leaf.now) out.old out.new still) }
{
    let first = put(out, true, leaf.null, b"Null")?;
    let first = put_bools(out, first, leaf.no, leaf.yes)?;
    let first = put_int(out, first, leaf.int)?;
    let first = put_str(out, first, &leaf.str)?;
    let first = put_obj(out, first, names, leaf.obj)?;
    put_kinds(out, first, leaf)
}

fn put_key(out: &mut Text, key: &Leaf) -> Result<bool, NoMemory>
    ensures { IfOk result (λ still. Adds true (text.key_atoms key.now) out.old out.new still) }
{
    let first = put_int(out, true, key.int)?;
    put_str(out, first, &key.str)
}

fn push_leaf(out: &mut Text, names: &[Text], leaf: &Leaf) -> Result<(), NoMemory>
    ensures { OnOk result (out.new ≡ out.old ++ text.leaf_text names.now leaf.now) }
{
    if leaf.is_whole() {
        return out.append(b"Cell");
    }
    if put_leaf(out, names, leaf)? {
        out.append(b"Never")?;
    }
    Ok(())
}

fn push_key(out: &mut Text, key: &Leaf) -> Result<(), NoMemory>
    ensures { OnOk result (out.new ≡ out.old ++ text.key_text key.now) }
{
    if put_key(out, key)? {
        out.append(b"Never")?;
    }
    Ok(())
}

fn put_vec(
    out: &mut Text,
    first: bool,
    names: &[Text],
    part: &Option<Leaf>,
) -> Result<bool, NoMemory>
    ensures { IfOk result (λ still. Adds first (text.vec_atoms names.now part.now) out.old out.new still) }
{
    let Some(leaf) = part else {
        return Ok(first);
    };
    if leaf.is_whole() {
        return put(out, first, true, b"Vec");
    }
    begin(out, first, b"Vec<")?;
    push_leaf(out, names, leaf)?;
    out.append(b">")?;
    Ok(false)
}

/// Adds the key and the value of a dict, with a comma between them.
fn push_entry(out: &mut Text, names: &[Text], key: &Leaf, value: &Leaf) -> Result<(), NoMemory>
    ensures { OnOk result (out.new ≡ out.old ++ text.entry_text names.now (key.now, value.now)) }
{
    push_key(out, key)?;
    out.append(b",")?;
    push_leaf(out, names, value)
}

fn put_dict(
    out: &mut Text,
    first: bool,
    names: &[Text],
    part: &Option<(Leaf, Leaf)>,
) -> Result<bool, NoMemory>
    ensures { IfOk result (λ still. Adds first (text.dict_atoms names.now part.now) out.old out.new still) }
{
    let Some((key, value)) = part else {
        return Ok(first);
    };
    if key.has_all_keys() && value.is_whole() {
        return put(out, first, true, b"Dict");
    }
    begin(out, first, b"Dict<")?;
    push_entry(out, names, key, value)?;
    out.append(b">")?;
    Ok(false)
}

fn put_keyset(out: &mut Text, first: bool, part: &Option<Leaf>) -> Result<bool, NoMemory>
    ensures { IfOk result (λ still. Adds first (text.keyset_atoms part.now) out.old out.new still) }
{
    let Some(key) = part else {
        return Ok(first);
    };
    if key.has_all_keys() {
        return put(out, first, true, b"Keyset");
    }
    begin(out, first, b"Keyset<")?;
    push_key(out, key)?;
    out.append(b">")?;
    Ok(false)
}

fn put_scalars(out: &mut Text, first: bool, names: &[Text], t: &HType) -> Result<bool, NoMemory>
    ensures { IfOk result (λ still. Adds first (text.scalar_atoms names.now t.now) out.old out.new still) }
{
    let first = put(out, first, t.null, b"Null")?;
    let first = put_bools(out, first, t.no, t.yes)?;
    let first = put_int(out, first, t.int)?;
    let first = put_str(out, first, &t.str)?;
    put_obj(out, first, names, t.obj)
}

fn put_containers(out: &mut Text, first: bool, names: &[Text], t: &HType) -> Result<bool, NoMemory>
    ensures { IfOk result (λ still. Adds first (text.container_atoms names.now t.now) out.old out.new still) }
{
    let first = put_vec(out, first, names, &t.vec)?;
    let first = put_dict(out, first, names, &t.dict)?;
    put_keyset(out, first, &t.keyset)
}

fn put_cells(out: &mut Text, first: bool, names: &[Text], t: &HType) -> Result<bool, NoMemory>
    ensures { IfOk result (λ still. Adds first (text.cell_atoms names.now t.now) out.old out.new still) }
{
    if t.has_all_cells() {
        return put(out, first, true, b"Cell");
    }
    let first = put_scalars(out, first, names, t)?;
    put_containers(out, first, names, t)
}

fn put_type(out: &mut Text, names: &[Text], t: &HType) -> Result<bool, NoMemory>
    ensures { IfOk result (λ still. Adds true (text.type_atoms names.now t.now) out.old out.new still) }
{
    let first = put(out, true, t.uninit, b"Uninit")?;
    put_cells(out, first, names, t)
}

/// Puts the canonical text of a type at the end of `out`. `names` has the name of each class at its number; a
/// class past its end is written without a name. Where there was no memory, some front of the text may stand there.
pub fn push_type(out: &mut Text, t: &HType, names: &[Text]) -> Result<(), NoMemory>
    ensures { OnOk result (out.new ≡ out.old ++ text.type_text names.now t.now) }
{
    if put_type(out, names, t)? {
        out.append(b"Never")?;
    }
    Ok(())
}

/// The canonical text of a type. `names` has the name of each class at its number; a class past its end is
/// written without a name.
pub fn type_text(alloc: Global, t: &HType, names: &[Text]) -> Result<Text, NoMemory>
    ensures { IfOk result (λ out. out ≡ text.type_text names.now t.now) }
{
    let mut out = Text::from_bytes(alloc, b"")?;
    push_type(&mut out, t, names)?;
    Ok(out)
}
