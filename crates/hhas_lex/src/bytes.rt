//! Kinds of bytes, and runs of one kind.

ghost use Rattle.std.specs.Prelude.{◌≡◌, ◌≤◌, length};
ghost use Rattle.hhas_lex.specs.Bytes as bytes;

fn is_lower(byte: u8) -> bool
    ensures { result ≡ bytes.is_lower byte }
{
    b'a' <= byte && byte <= b'z'
}

pub fn is_white(byte: u8) -> bool
    ensures { result ≡ bytes.is_white byte }
{
    byte == b' ' || byte == b'\t' || byte == b'\n' || byte == b'\r'
}

pub fn is_word_start(byte: u8) -> bool
    ensures { result ≡ bytes.is_word_start byte }
{
    byte == b'_' || (b'a' <= byte && byte <= b'z') || (b'A' <= byte && byte <= b'Z')
}

pub fn is_digit(byte: u8) -> bool
    ensures { result ≡ bytes.is_digit byte }
{
    b'0' <= byte && byte <= b'9'
}

fn is_word_byte(byte: u8) -> bool
    ensures { result ≡ bytes.is_word_byte byte }
{
    is_word_start(byte) || is_digit(byte) || byte == b'\\'
}

pub fn is_mark(byte: u8) -> bool
    ensures { result ≡ bytes.is_mark byte }
{
    matches!(
        byte,
        b'{' | b'}' | b'(' | b')' | b'<' | b'>' | b',' | b';' | b':' | b'=' | b'|'
    )
}

/// How many lower-case letters stand at the front.
pub fn lowers(text: &[u8]) -> usize
    ensures within { result ≤ length text.now }
    ensures value { result ≡ bytes.run_of bytes.is_lower text.now }
{
    text.iter().take_while(|b| is_lower(**b)).count()
}

/// How many bytes of a word stand at the front.
pub fn word_bytes(text: &[u8]) -> usize
    ensures within { result ≤ length text.now }
    ensures value { result ≡ bytes.run_of bytes.is_word_byte text.now }
{
    text.iter().take_while(|b| is_word_byte(**b)).count()
}

/// How many digits stand at the front.
pub fn digits(text: &[u8]) -> usize
    ensures within { result ≤ length text.now }
    ensures value { result ≡ bytes.run_of bytes.is_digit text.now }
{
    text.iter().take_while(|b| is_digit(**b)).count()
}
