//! The lexer.

ghost use Rattle.std.specs.Prelude.{◌≡◌, ◌≢◌, true, ◌+◌, ◌-◌, ◌≤◌, ◌<◌, ◌^◌, length, drop, IfOk, IfErr};
ghost use Rattle.hhas_lex.specs.Shape.{IsTokenAt, NoToken};
ghost use Rattle.hhas_lex.specs.Spelling.{is_proper};
ghost use Rattle.hhas_lex.specs.Tokens.{Bad, front, front_place, behind, left, left_places, meaning, gap, places, tokens};

use crate::bytes::is_white;
use crate::scan::scan;
use crate::token::{LexFault, Token, TokenKind};
use std::marker::Model;

/// The tokens of a text, one after the other.
#[derive(Drop)]
pub struct Lexer<'a> {
    text: &'a [u8],
    at: usize,
}

impl<'a> Model for Lexer<'a> {
    ghost use Rattle.std.specs.Prelude.{◌≤◌, ◌<◌, ◌^◌, length};
    ghost use Rattle.hhas_lex.specs.Tokens.{Cursor};

    ghost Value = { Cursor };

    ghost view = { λ l. record { text = l.text.now; at = l.at } };

    ghost invariant = { λ l. (l.at ≤ length l.text.now) × (length l.text.now < 2 ^ 32) };
}

/// How many bytes of white space and comments stand at the front.
fn gap_length(text: &[u8]) -> usize
    ensures within { result ≤ length text.now }
    ensures value { result ≡ gap text.now }
{
    let mut count = 0;
    let mut comment = false;
    while count < text.len() {
        let byte = text[count];
        if comment {
            comment = byte != b'\n';
        } else if byte == b'#' {
            comment = true;
        } else if !is_white(byte) {
            return count;
        }
        count += 1;
    }
    count
}

impl<'a> Lexer<'a> {
    /// A lexer at the front of the text.
    pub fn new(text: &'a [u8]) -> Lexer<'a>
        requires { length text.now < 2 ^ 32 }
        ensures text { result.text ≡ text.now }
        ensures at { result.at ≡ 0 }
        ensures left { left result ≡ tokens text.now }
        ensures places { left_places result ≡ places 0 text.now }
    {
        Lexer { text, at: 0 }
    }

    /// The next token. After the end the end comes again, and after a fault the same fault.
    pub fn next(&mut self) -> Result<Token, LexFault>
        ensures token { IfOk result (λ t. (front (left self.old) ≡ meaning self.old.text t) × (left self.new ≡ behind (left self.old)) × (self.new.text ≡ self.old.text)) }
        ensures fault { IfErr result (λ f. (front (left self.old) ≡ Bad) × (self.new ≡ self.old)) }

        // The token stands behind white space and comments, and the lexer behind the token.
        ensures span { IfOk result (λ t. (t.start ≡ self.old.at + gap (drop self.old.at self.old.text)) × (t.start ≤ t.end) × (t.end ≤ length self.old.text) × (self.new.at ≡ t.end)) }

        // It is the longest that begins there, and there is none exactly where the lexer finds a fault.
        ensures longest { IfOk result (λ t. IsTokenAt (drop t.start self.old.text) t.kind (t.end - t.start)) }
        ensures none { IfErr result (λ f. NoToken (drop f.at self.old.text)) }
        ensures proper { IfOk result (λ t. t.kind ≢ TokenKind.End → is_proper (meaning self.old.text t) ≡ true) }

        // The places where the tokens begin go along.
        ensures places { IfOk result (λ t. (front_place (left_places self.old) ≡ t.start) × (left_places self.new ≡ behind (left_places self.old))) }
        ensures fault_at { IfErr result (λ f. (f.at ≡ self.old.at + gap (drop self.old.at self.old.text)) × (front_place (left_places self.old) ≡ f.at)) }
    {
        let start = self.at + gap_length(&self.text[self.at..]);
        match scan(&self.text[start..]) {
            Some((kind, count)) => {
                self.at = start + count;
                Ok(Token {
                    kind,
                    start: start as u32,
                    end: (start + count) as u32,
                })
            }
            None => Err(LexFault { at: start as u32 }),
        }
    }
}
