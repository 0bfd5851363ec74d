ghost use Rattle.std.specs.Prelude.{◌≡◌, ◌-◌, ◌<◌, ◌^◌, Some, None};
ghost use Rattle.std.specs.Option.{option_copied};
ghost use Rattle.hack_values.specs.Casts.{text_of, int_of, integer_of, natural_of, is_digit, number_after, zero_alone, positive, negative, within_u64};

use crate::{Cell, IntDigits};

impl Cell {
    /// The text that a scalar is cast to; None for containers and objects. A string lends its own bytes, and an int has
    /// its digits written into `digits`.
    pub fn text<'a>(&'a self, digits: &'a mut IntDigits) -> Option<&'a [u8]>
        ensures { option_copied result ≡ text_of self.now }
    {
        match self {
            Cell::Null | Cell::Bool(false) => Some(b""),
            Cell::Bool(true) => Some(b"1"),
            Cell::Int(number) => Some(digits.format(*number).as_bytes()),
            Cell::Str(text) => Some(text.bytes()),
            _ => None,
        }
    }
}

/// The number that a value is cast to; None where there is none.
pub(crate) fn cast_int(cell: &Cell) -> Option<i64>
    ensures { result ≡ int_of cell.now }
{
    match cell {
        Cell::Null | Cell::Bool(false) => Some(0),
        Cell::Bool(true) => Some(1),
        Cell::Int(number) => Some(*number),
        Cell::Str(text) => parse_integer(text.bytes()),
        _ => None,
    }
}

/// The number of an integer token; None for every other text.
#[tactic(auto, using(crate::proofs::Digits::ranges))]
fn parse_integer(bytes: &[u8]) -> Option<i64>
    ensures { result ≡ integer_of bytes.now }
{
    match bytes {
        [] => None,
        [first, rest @ ..] => {
            if *first == b'0' {
                if rest.is_empty() { Some(0) } else { None }
            } else if *first == b'-' {
                negative_of(parse_natural(rest))
            } else {
                positive_of(parse_natural(bytes))
            }
        }
    }
}

fn positive_of(number: Option<u64>) -> Option<i64>
    ensures { result ≡ positive number }
{
    let number = number?;
    if number < 0x8000_0000_0000_0000 {
        Some(number as i64)
    } else {
        None
    }
}

fn negative_of(number: Option<u64>) -> Option<i64>
    ensures { result ≡ negative number }
{
    let number = number?;
    if number < 0x8000_0000_0000_0000 {
        Some(-(number as i64))
    } else if number == 0x8000_0000_0000_0000 {
        Some(i64::MIN)
    } else {
        None
    }
}

/// The number that a digit 1 to 9 and further digits spell, and 2^64 - 1 where it is greater.
fn parse_natural(bytes: &[u8]) -> Option<u64>
    ensures { result ≡ within_u64 (natural_of bytes.now) }
{
    match bytes {
        [] => None,
        [b'0', ..] => None,
        _ => parse_digits(bytes),
    }
}

fn is_decimal(byte: u8) -> bool
    ensures { result ≡ is_digit byte }
{
    b'0' <= byte && byte <= b'9'
}

/// The number that digits spell, and 2^64 - 1 where it is greater; None where not all are digits.
#[tactic(auto, using(crate::proofs::Digits::digits))]
fn parse_digits(digits: &[u8]) -> Option<u64>
    ensures { result ≡ within_u64 (number_after 0 digits.now) }
{
    let mut value = 0u64;
    for digit in digits {
        if !is_decimal(*digit) {
            return None;
        }
        value = value
            .saturating_mul(10)
            .saturating_add((*digit - b'0') as u64);
    }
    Some(value)
}
