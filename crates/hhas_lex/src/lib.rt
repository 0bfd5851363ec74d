//! The tokens of an assembler text, one at a time, by their spans.
#![tactic(auto)]

mod bytes;
mod laws;
mod lexer;
mod scan;
mod strings;
mod token;
mod value;

pub use laws::{
    neighbours_are_told_apart, spaced_tokens_are_read, spelled_tokens_are_read,
    strings_are_their_pieces, tokens_end_once,
};
pub use lexer::Lexer;
pub use token::{LexFault, Token, TokenKind};
pub use value::string_value;
