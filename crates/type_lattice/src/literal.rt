ghost use Rattle.std.specs.Prelude.{◌≡◌, ◌≤◌, ◌++◌, ◌-◌, length, replicate};
ghost use Rattle.type_lattice.specs.Types.{literal, str_part, IsLiteral};

use crate::types::{HType, IntPart, Leaf, Short, StrPart};
use hack_values::Cell;

/// The bytes, and zeros behind them.
fn padded(text: &[u8]) -> [u8; 32]
    requires { length text.now ≤ 32 }
    ensures { result ≡ text.now ++ replicate (32 - length text.now) 0 }
{
    let mut bytes = [0u8; 32];
    bytes[..text.len()].copy_from_slice(text);
    bytes
}

/// The least part that has the string.
fn part_of(text: &[u8]) -> StrPart
    ensures { result ≡ str_part text.now }
{
    if text.len() <= 32 {
        StrPart::One(Short {
            len: text.len() as u8,
            bytes: padded(text),
        })
    } else {
        StrPart::Any
    }
}

/// The least type that has the cell as a member. A string of more than 32 bytes has the type of all strings.
pub fn of_literal(cell: &Cell) -> HType
    requires { IsLiteral cell.now }
    ensures { result ≡ literal cell.now }
{
    match cell {
        Cell::Null => HType {
            null: true,
            ..HType::NEVER
        },
        Cell::Bool(false) => HType {
            no: true,
            ..HType::NEVER
        },
        Cell::Bool(true) => HType {
            yes: true,
            ..HType::NEVER
        },
        Cell::Int(number) => HType {
            int: IntPart::One(*number),
            ..HType::NEVER
        },
        Cell::Str(text) => HType {
            str: part_of(text.bytes()),
            ..HType::NEVER
        },
        Cell::Vec(_) => HType {
            vec: Some(Leaf::NEVER),
            ..HType::NEVER
        },
        Cell::Dict(_) => HType {
            dict: Some((Leaf::NEVER, Leaf::NEVER)),
            ..HType::NEVER
        },
        Cell::Keyset(_) => HType {
            keyset: Some(Leaf::NEVER),
            ..HType::NEVER
        },
        Cell::Obj(_) => unreachable!(),
    }
}
