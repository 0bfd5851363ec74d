/// A token, and where it stands: from the byte at `start` up to the byte at `end`, which is no part of it.
#[derive(Clone, Copy, Debug, PartialEq, Eq)]
pub struct Token {
    pub kind: TokenKind,
    pub start: u32,
    pub end: u32,
}

/// What a token is. Names and strings stand in the text, at the token's span.
#[derive(Clone, Copy, Debug, PartialEq, Eq)]
pub enum TokenKind {
    /// A dot and lower-case letters.
    Directive,
    Word,
    /// A dollar and a word.
    Local,
    Integer(i64),
    /// A string with its quotes.
    Str,
    /// A punctuation mark, by its byte.
    Mark(u8),
    LessEqual,
    /// The end of the text.
    End,
}

/// No token begins at this place, which white space and comments lead up to.
#[derive(Clone, Copy, Debug, PartialEq, Eq)]
pub struct LexFault {
    pub at: u32,
}
