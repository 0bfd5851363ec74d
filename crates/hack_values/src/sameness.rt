ghost use Rattle.std.specs.Prelude.{◌≡◌, ◌↔◌, IsTrue};
ghost use Rattle.hack_values.specs.Same.{is_same};

use crate::key::{same_key, same_text};
use crate::{Cell, DictVal, Key, KeysetVal, VecVal};

fn same_keys(a: &[Key], b: &[Key]) -> bool
    ensures { IsTrue result ↔ (a.now ≡ b.now) }
{
    if a.len() != b.len() {
        return false;
    }
    for at in 0..a.len() {
        if !same_key(&a[at], &b[at]) {
            return false;
        }
    }
    true
}

fn same_keyset(a: &KeysetVal, b: &KeysetVal) -> bool
    ensures { IsTrue result ↔ (a.now ≡ b.now) }
{
    same_keys(a.keys(), b.keys())
}

/// Whether two cells are the same: part by part, in order, and objects by their number.
#[tactic(auto, using(crate::proofs::SameLaws::decided))]
pub fn same(a: &Cell, b: &Cell) -> bool
    ensures value { result ≡ is_same a.now b.now }
    ensures equal { IsTrue result ↔ (a.now ≡ b.now) }
{
    same_cell(a, b)
}

#[cycle(same)]
fn same_cell(a: &Cell, b: &Cell) -> bool
    ensures { IsTrue result ↔ (a.now ≡ b.now) }
{
    match (a, b) {
        (Cell::Null, Cell::Null) => true,
        (Cell::Bool(x), Cell::Bool(y)) => *x == *y,
        (Cell::Int(x), Cell::Int(y)) => *x == *y,
        (Cell::Str(x), Cell::Str(y)) => same_text(x, y),
        (Cell::Vec(x), Cell::Vec(y)) => same_vec(x, y),
        (Cell::Dict(x), Cell::Dict(y)) => same_dict(x, y),
        (Cell::Keyset(x), Cell::Keyset(y)) => same_keyset(x, y),
        (Cell::Obj(x), Cell::Obj(y)) => *x == *y,
        _ => false,
    }
}

#[cycle(same)]
#[tactic(auto, using(crate::specs::View::by_cells))]
fn same_vec(a: &VecVal, b: &VecVal) -> bool
    ensures { IsTrue result ↔ (a.now ≡ b.now) }
{
    same_cells(a.items.as_slice(), b.items.as_slice())
}

#[cycle(same)]
#[tactic(auto, using(crate::proofs::Rows::entries, crate::proofs::Rows::by_parts))]
fn same_dict(a: &DictVal, b: &DictVal) -> bool
    ensures { IsTrue result ↔ (a.now ≡ b.now) }
{
    same_keys(a.keys.as_slice(), b.keys.as_slice())
        && same_cells(a.vals.as_slice(), b.vals.as_slice())
}

#[cycle(same)]
fn same_cells(a: &[Cell], b: &[Cell]) -> bool
    ensures { IsTrue result ↔ (a.now ≡ b.now) }
{
    if a.len() != b.len() {
        return false;
    }
    for at in 0..a.len() {
        if !same_cell(&a[at], &b[at]) {
            return false;
        }
    }
    true
}
