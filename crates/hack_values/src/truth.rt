ghost use Rattle.std.specs.Prelude.{◌≡◌};
ghost use Rattle.hack_values.specs.Casts.{truth, order_of, is_true_text};

use crate::Cell;
use std::cmp::Ordering;

/// Whether a value counts as true. Null, false, 0, `""`, `"0"` and the empty containers do not.
pub fn truthy(a: &Cell) -> bool
    ensures { result ≡ truth a.now }
{
    match a {
        Cell::Null => false,
        Cell::Bool(flag) => *flag,
        Cell::Int(number) => *number != 0,
        Cell::Str(text) => counts_as_true(text.bytes()),
        Cell::Vec(cells) => !cells.as_slice().is_empty(),
        Cell::Dict(entries) => entries.len() > 0,
        Cell::Keyset(keys) => keys.len() > 0,
        Cell::Obj(_) => true,
    }
}

fn counts_as_true(bytes: &[u8]) -> bool
    ensures { result ≡ is_true_text bytes.now }
{
    match bytes {
        [] => false,
        [byte] => *byte != b'0',
        _ => true,
    }
}

/// The order of two ints, or of two strings by their bytes; None for other values.
pub fn order(a: &Cell, b: &Cell) -> Option<Ordering>
    ensures { result ≡ order_of a.now b.now }
{
    match (a, b) {
        (Cell::Int(x), Cell::Int(y)) => Some(x.cmp(y)),
        (Cell::Str(x), Cell::Str(y)) => Some(x.bytes().cmp(y.bytes())),
        _ => None,
    }
}
