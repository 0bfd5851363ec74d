ghost use Rattle.std.specs.Prelude.{◌≡◌, ◌++◌, OnOk, IfOk, codes, decimal};
ghost use Rattle.hack_values.specs.Show.{show_val, show_key};
ghost use Rattle.hack_values.specs.Val.{from_list, from_pairs};
ghost use Rattle.hack_values.specs.Val.Val.{vec, dict, keyset};
ghost use Rattle.hack_values.specs.View.{val_of};

use crate::{Cell, DictVal, IntDigits, Key, KeysetVal, NoMemory, Text, VecVal, push_literal};
use std::alloc::Global;

/// The value as text, as the program prints it: `vec[1, "a"]`, `dict[1 => null]`, `object #0`.
pub fn show(alloc: Global, value: &Cell) -> Result<Text, NoMemory>
    ensures { IfOk result (λ text. text ≡ show_val (val_of value.now)) }
{
    let mut out = Text::from_bytes(alloc, b"")?;
    show_cell(value, &mut out)?;
    Ok(out)
}

/// Puts the cell's text at the end of `out`.
#[cycle(show)]
fn show_cell(cell: &Cell, out: &mut Text) -> Result<(), NoMemory>
    ensures { OnOk result (out.new ≡ out.old ++ show_val (val_of cell.now)) }
{
    match cell {
        Cell::Null => out.append(b"null"),
        Cell::Bool(true) => out.append(b"true"),
        Cell::Bool(false) => out.append(b"false"),
        Cell::Int(number) => out.append(IntDigits::new().format(*number).as_bytes()),
        Cell::Str(text) => push_literal(out, text.bytes()),
        Cell::Vec(cells) => show_vec(cells, out),
        Cell::Dict(entries) => show_dict(entries, out),
        Cell::Keyset(keys) => show_keyset(keys, out),
        Cell::Obj(number) => show_object(*number, out),
    }
}

fn show_object(number: u32, out: &mut Text) -> Result<(), NoMemory>
    ensures { OnOk result (out.new ≡ out.old ++ (codes "object #" ++ decimal number)) }
{
    out.append(b"object #")?;
    out.append(IntDigits::new().format(number).as_bytes())
}

fn show_key_into(key: &Key, out: &mut Text) -> Result<(), NoMemory>
    ensures { OnOk result (out.new ≡ out.old ++ show_key key.now) }
{
    match key {
        Key::Int(number) => out.append(IntDigits::new().format(*number).as_bytes()),
        Key::Str(text) => push_literal(out, text.bytes()),
    }
}

fn show_keyset(keys: &KeysetVal, out: &mut Text) -> Result<(), NoMemory>
    ensures { OnOk result (out.new ≡ out.old ++ show_val (keyset keys.now)) }
{
    out.append(b"keyset[")?;
    let mut first = true;
    for key in keys.keys() {
        if !first {
            out.append(b", ")?;
        }
        first = false;
        show_key_into(key, out)?;
    }
    out.append(b"]")
}

#[cycle(show)]
fn show_vec(cells: &VecVal, out: &mut Text) -> Result<(), NoMemory>
    ensures { OnOk result (out.new ≡ out.old ++ show_val (vec (from_list cells.now))) }
{
    out.append(b"vec[")?;
    let mut first = true;
    for cell in &cells.items {
        if !first {
            out.append(b", ")?;
        }
        first = false;
        show_cell(cell, out)?;
    }
    out.append(b"]")
}

#[cycle(show)]
fn show_dict(entries: &DictVal, out: &mut Text) -> Result<(), NoMemory>
    ensures { OnOk result (out.new ≡ out.old ++ show_val (dict (from_pairs entries.now))) }
{
    out.append(b"dict[")?;
    let mut first = true;
    let keys = entries.keys.as_slice();
    for at in 0..keys.len() {
        if !first {
            out.append(b", ")?;
        }
        first = false;
        show_key_into(&keys[at], out)?;
        out.append(b" => ")?;
        show_cell(&entries.vals[at], out)?;
    }
    out.append(b"]")
}
