//! The tokens of a text from its front, the next one in sight.

ghost use Rattle.std.specs.Prelude.{◌≡◌, ◌≤◌, ◌<◌, ◌^◌, [], ◌∷◌, length, drop, IfOk, IfSome};
ghost use Rattle.hhas_lex.specs.Tokens.{left, left_places, tokens, places, token_of, followed, front_place};
ghost use Rattle.hhas_read.specs.Pieces.{Says, IsInner, IsValue, told};
ghost use Rattle.hhas_read.specs.Reading.{Past, next};

use hack_values::{NoMemory, Text};
use hhas_lex::{Lexer, Token, TokenKind, string_value};
use std::alloc::Global;
use std::marker::Model;

/// Why no more was read: the next token leads to no text, or there is no memory.
#[derive(Clone, Copy, Debug, PartialEq, Eq)]
pub enum Stop {
    Syntax,
    NoMemory,
}

impl From<NoMemory> for Stop {
    ghost use Rattle.std.specs.Prelude.{◌≡◌};
    ghost use Rattle.hhas_read.specs.declared.reader.Stop.TheVariants.{NoMemory as WantOfMemory};

    ghost from_gives = { λ _ e. e ≡ WantOfMemory };

    fn from(_want: NoMemory) -> Stop {
        Stop::NoMemory
    }
}

/// A token with what it says, but for the value of a string. `Bad` is a place where no token begins.
#[derive(Clone, Copy)]
pub enum Piece<'a> {
    Directive(&'a [u8]),
    Word(&'a [u8]),
    Local(&'a [u8]),
    Integer(i64),
    Str,
    Mark(u8),
    LessEqual,
    End,
    Bad,
}

/// The bytes behind the first one.
fn behind_first(bytes: &[u8]) -> &[u8]
    ensures { result.now ≡ drop 1 bytes.now }
{
    match bytes {
        [_, rest @ ..] => rest,
        [] => bytes,
    }
}

/// What a token of a kind says, by its spelling.
fn piece_of(kind: TokenKind, spelling: &[u8]) -> Piece<'_>
    ensures { Says result (token_of kind spelling.now) }
{
    match kind {
        TokenKind::Directive => Piece::Directive(behind_first(spelling)),
        TokenKind::Word => Piece::Word(spelling),
        TokenKind::Local => Piece::Local(behind_first(spelling)),
        TokenKind::Integer(number) => Piece::Integer(number),
        TokenKind::Mark(byte) => Piece::Mark(byte),
        TokenKind::End => Piece::End,
        TokenKind::Str => Piece::Str,
        TokenKind::LessEqual => Piece::LessEqual,
    }
}

/// The token that the lexer finds, if it finds one, and where it begins.
#[derive(Drop)]
struct Ahead {
    token: Option<Token>,
    start: u32,
}

fn look(lexer: &mut Lexer) -> Ahead
    ensures text { lexer.new.text ≡ lexer.old.text }
    ensures inside { IfSome result.token (λ t. (t.start ≤ t.end) × (t.end ≤ length lexer.old.text)) }
    ensures tokens { left lexer.old ≡ followed (told lexer.old.text result.token) (told lexer.old.text result.token) (left lexer.new) }
    ensures places { left_places lexer.old ≡ followed (told lexer.old.text result.token) result.start (left_places lexer.new) }
{
    match lexer.next() {
        Ok(token) => Ahead {
            token: Some(token),
            start: token.start,
        },
        Err(fault) => Ahead {
            token: None,
            start: fault.at,
        },
    }
}

/// The tokens that are left of a text.
#[derive(Drop)]
pub struct Reader<'a> {
    text: &'a [u8],
    lexer: Lexer<'a>,
    ahead: Option<Token>,
    start: u32,
}

impl<'a> Model for Reader<'a> {
    ghost use Rattle.std.specs.Prelude.{◌≡◌, ◌≤◌, length, IfSome};
    ghost use Rattle.hhas_lex.specs.Tokens.{left, left_places, followed};
    ghost use Rattle.hhas_read.specs.Pieces.{told};
    ghost use Rattle.hhas_read.specs.Reading.{Placed};

    ghost Value = { Placed };

    ghost view = { λ r. record { tokens = followed (told r.text.now r.ahead) (told r.text.now r.ahead) (left r.lexer); places = followed (told r.text.now r.ahead) r.start (left_places r.lexer) } };

    ghost invariant = { λ r. (r.lexer.text ≡ r.text.now) × IfSome r.ahead (λ t. (t.start ≤ t.end) × (t.end ≤ length r.text.now)) };
}

impl<'a> Reader<'a> {
    /// At the front of a text.
    pub fn new(text: &'a [u8]) -> Reader<'a>
        requires { length text.now < 2 ^ 32 }
        ensures tokens { result.tokens ≡ tokens text.now }
        ensures places { result.places ≡ places 0 text.now }
    {
        let mut lexer = Lexer::new(text);
        let ahead = look(&mut lexer);
        Reader {
            text,
            lexer,
            ahead: ahead.token,
            start: ahead.start,
        }
    }

    /// What the next token says.
    pub fn peek(&self) -> Piece<'a>
        ensures { Says result (next self.now) }
    {
        match self.ahead {
            Some(token) => {
                let spelling = &self.text[token.start as usize..token.end as usize];
                piece_of(token.kind, spelling)
            }
            None => Piece::Bad,
        }
    }

    /// Where the next token begins, or the place where none does. Some token is always next: nothing goes past the end.
    pub fn place(&self) -> u32
        ensures place { result ≡ front_place self.now.places }
        ensures some { self.now.tokens ≡ next self.now ∷ drop 1 self.now.tokens }
    {
        self.start
    }

    /// Goes past the next token.
    pub fn skip(&mut self)
        requires { IsInner (next self.old) }
        ensures { Past (next self.old ∷ []) self.old self.new }
    {
        let ahead = look(&mut self.lexer);
        self.ahead = ahead.token;
        self.start = ahead.start;
    }

    /// The value of the next token, if it is a string.
    pub fn value(&self, alloc: Global) -> Result<Option<Text>, NoMemory>
        ensures { IfOk result (λ value. IsValue value (next self.now)) }
    {
        match self.ahead {
            Some(token) => {
                if token.kind == TokenKind::Str {
                    let value = string_value(alloc, self.text, token)?;
                    Ok(Some(value))
                } else {
                    Ok(None)
                }
            }
            None => Ok(None),
        }
    }
}
