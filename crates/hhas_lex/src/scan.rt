//! The token at the front.

ghost use Rattle.std.specs.Prelude.{◌≡◌, ◌≤◌, ◌+◌, ◌^◌, length, All, IsTrue, true, false, if◌then◌else◌, nat_le, Some, None, IfSome, ◌∷◌};
ghost use Rattle.hhas_lex.specs.Bytes as bytes;
ghost use Rattle.hhas_lex.specs.Shape as shape;

use crate::bytes::{digits, is_digit, is_mark, is_word_start, lowers, word_bytes};
use crate::strings::quoted;
use crate::token::TokenKind;
use hack_values::MAX_TEXT;

/// How many bytes a word has at most.
const WORD_LIMIT: usize = 100;

/// The token at the front of bytes that no white space and no comment begins, and the length of its spelling.
#[tactic(auto, using(crate::proofs::Scanning::end_scan, crate::proofs::Scanning::other_scan))]
pub fn scan(text: &[u8]) -> Option<(TokenKind, usize)>
    ensures within { IfSome result (λ r. r.1 ≤ length text.now) }
    ensures value { result ≡ shape.scan text.now }
{
    let [first, rest @ ..] = text else {
        return Some((TokenKind::End, 0));
    };
    if is_word_start(*first) {
        return word(*first, rest);
    }
    if is_digit(*first) {
        return positive(*first, rest);
    }
    if is_mark(*first) {
        return mark(*first, rest);
    }
    if *first == b'.' {
        return directive(rest);
    }
    if *first == b'$' {
        return local(rest);
    }
    if *first == b'-' {
        return negative(rest);
    }
    if *first == b'"' {
        return string(rest);
    }
    None
}

#[tactic(auto, using(crate::proofs::Scanning::word_scan))]
fn word(first: u8, rest: &[u8]) -> Option<(TokenKind, usize)>
    requires { bytes.is_word_start first ≡ true }
    ensures within { IfSome result (λ r. r.1 ≤ 1 + length rest.now) }
    ensures value { result ≡ shape.scan (first ∷ rest.now) }
{
    let count = 1 + word_bytes(rest);
    if count > WORD_LIMIT {
        return None;
    }
    Some((TokenKind::Word, count))
}

/// A local, behind its dollar.
#[tactic(auto, using(crate::proofs::Scanning::local_scan, crate::proofs::Scanning::no_local_scan))]
fn local(rest: &[u8]) -> Option<(TokenKind, usize)>
    ensures within { IfSome result (λ r. r.1 ≤ 1 + length rest.now) }
    ensures value { result ≡ shape.scan (36 ∷ rest.now) }
{
    let [first, others @ ..] = rest else {
        return None;
    };
    if !is_word_start(*first) {
        return None;
    }
    let count = 1 + word_bytes(others);
    if count > WORD_LIMIT {
        return None;
    }
    Some((TokenKind::Local, 1 + count))
}

/// A directive, behind its dot.
#[tactic(auto, using(crate::proofs::Scanning::directive_scan))]
fn directive(rest: &[u8]) -> Option<(TokenKind, usize)>
    ensures within { IfSome result (λ r. r.1 ≤ 1 + length rest.now) }
    ensures value { result ≡ shape.scan (46 ∷ rest.now) }
{
    let count = lowers(rest);
    if count == 0 {
        return None;
    }
    Some((TokenKind::Directive, 1 + count))
}

/// The number that digits spell behind a first digit of this value, where it is at most 2^63.
fn number_from(first: u64, digits: &[u8]) -> Option<u64>
    requires one_digit { first ≤ 9 }
    requires digits { All (λ d. IsTrue (bytes.is_digit d)) digits.now }
    ensures { result ≡ (if nat_le (bytes.number_from first digits.now) (2 ^ 63) then Some (bytes.number_from first digits.now) else None) }
{
    let mut number = first;
    for digit in digits {
        if number > 922_337_203_685_477_580 {
            return None;
        }
        number = 10 * number + (*digit - b'0') as u64;
        if number > 9_223_372_036_854_775_808 {
            return None;
        }
    }
    Some(number)
}

#[tactic(auto, using(crate::proofs::Scanning::zero_scan, crate::proofs::Scanning::positive_scan))]
fn positive(first: u8, rest: &[u8]) -> Option<(TokenKind, usize)>
    requires digit { bytes.is_digit first ≡ true }
    requires no_word { bytes.is_word_start first ≡ false }
    ensures within { IfSome result (λ r. r.1 ≤ 1 + length rest.now) }
    ensures value { result ≡ shape.scan (first ∷ rest.now) }
{
    if first == b'0' {
        return Some((TokenKind::Integer(0), 1));
    }
    let count = digits(rest);
    let number = number_from((first - b'0') as u64, &rest[..count])?;
    if number > 9_223_372_036_854_775_807 {
        return None;
    }
    Some((TokenKind::Integer(number as i64), 1 + count))
}

/// A negative integer, behind its sign.
#[tactic(auto, using(crate::proofs::Scanning::negative_scan, crate::proofs::Scanning::no_negative_scan))]
fn negative(rest: &[u8]) -> Option<(TokenKind, usize)>
    ensures within { IfSome result (λ r. r.1 ≤ 1 + length rest.now) }
    ensures value { result ≡ shape.scan (45 ∷ rest.now) }
{
    let [first, others @ ..] = rest else {
        return None;
    };
    if *first < b'1' || *first > b'9' {
        return None;
    }
    let count = digits(others);
    let number = number_from((*first - b'0') as u64, &others[..count])?;
    let value = if number == 9_223_372_036_854_775_808 {
        i64::MIN
    } else {
        -(number as i64)
    };
    Some((TokenKind::Integer(value), 2 + count))
}

/// A string, behind the quote that opens it.
#[tactic(auto, using(crate::proofs::Scanning::quote_scan))]
fn string(rest: &[u8]) -> Option<(TokenKind, usize)>
    ensures within { IfSome result (λ r. r.1 ≤ 1 + length rest.now) }
    ensures value { result ≡ shape.scan (34 ∷ rest.now) }
{
    let (count, size) = quoted(rest)?;
    if size > MAX_TEXT {
        return None;
    }
    Some((TokenKind::Str, 1 + count))
}

#[tactic(auto, using(crate::proofs::Scanning::mark_scan, crate::proofs::Scanning::last_mark_scan))]
fn mark(first: u8, rest: &[u8]) -> Option<(TokenKind, usize)>
    requires mark { bytes.is_mark first ≡ true }
    requires no_word { bytes.is_word_start first ≡ false }
    requires no_digit { bytes.is_digit first ≡ false }
    ensures within { IfSome result (λ r. r.1 ≤ 1 + length rest.now) }
    ensures value { result ≡ shape.scan (first ∷ rest.now) }
{
    match rest {
        [second, ..] if first == b'<' && *second == b'=' => Some((TokenKind::LessEqual, 2)),
        _ => Some((TokenKind::Mark(first), 1)),
    }
}
