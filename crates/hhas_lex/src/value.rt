//! The values of strings.

ghost use Rattle.std.specs.Prelude.{◌≡◌, ◌≤◌, ◌++◌, length, IfOk, OnOk, true, Some};
ghost use Rattle.std.specs.Option.{option_to_list};
ghost use Rattle.hhas_lex.specs.Strings.{IsSmall, given};
ghost use Rattle.hhas_lex.specs.Tokens.{Str, meaning};

use crate::strings::{Mode, given, step};
use crate::token::{Token, TokenKind};
use hack_values::{NoMemory, Text};
use std::alloc::Global;

/// Whether the byte stands in the value as it is, by itself.
fn is_literal(mode: Mode, byte: u8) -> bool
    ensures { result ≡ true → given mode byte ≡ Some byte }
{
    match mode {
        Mode::Plain => byte != b'"' && byte != b'\\',
        _ => false,
    }
}

/// Puts the byte that stands in the value once this byte is read at the end, if one does.
fn push_given(value: &mut Text, mode: Mode, byte: u8) -> Result<(), NoMemory>
    requires { IsSmall mode }
    ensures { OnOk result (value.new ≡ value.old ++ option_to_list (given mode byte)) }
{
    match given(mode, byte) {
        Some(next) => value.append(&[next]),
        None => Ok(()),
    }
}

/// Puts the bytes at the end, and the byte that stands in the value once this one is read behind them, if one does.
fn push_run(value: &mut Text, run: &[u8], mode: Mode, byte: u8) -> Result<(), NoMemory>
    requires { IsSmall mode }
    ensures { OnOk result (value.new ≡ value.old ++ run.now ++ option_to_list (given mode byte)) }
{
    value.append(run)?;
    push_given(value, mode, byte)
}

/// The value of a string of the text. Bytes that stand for themselves are copied by runs.
pub fn string_value(alloc: Global, text: &[u8], token: Token) -> Result<Text, NoMemory>
    requires kind { token.kind ≡ TokenKind.Str }
    requires ordered { token.start ≤ token.end }
    requires inside { token.end ≤ length text.now }
    ensures { IfOk result (λ v. Str v ≡ meaning text.now token) }
{
    let mut value = Text::from_bytes(alloc, b"")?;
    let [_, pieces @ ..] = &text[token.start as usize..token.end as usize] else {
        return Ok(value);
    };
    let mut mode = Mode::Plain;
    let mut from = 0;
    for (at, byte) in pieces.iter().enumerate() {
        if !is_literal(mode, *byte) {
            push_run(&mut value, &pieces[from..at], mode, *byte)?;
            from = at + 1;
        }
        mode = step(mode, *byte);
    }
    value.append(&pieces[from..])?;
    Ok(value)
}
