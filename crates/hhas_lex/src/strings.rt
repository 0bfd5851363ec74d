//! Strings, behind the quote that opens them.

ghost use Rattle.std.specs.Prelude.{◌≡◌, ◌<◌, ◌≤◌, length, take, MatchOption, IfSome};
ghost use Rattle.std.specs.Option.{option_to_list};
ghost use Rattle.hhas_lex.specs.Bytes.{hex_value};
ghost use Rattle.hhas_lex.specs.Strings.{IsSmall, step, given, closes, value_of};
ghost use Rattle.hhas_lex.specs.Fronts.{LongestFront, NoFront};

/// How the reading of a string stands.
#[derive(Clone, Copy)]
pub enum Mode {
    /// Between two pieces.
    Plain,
    /// Behind a backslash.
    Escaped,
    /// Before the first hexadecimal digit.
    High,
    /// Behind a hexadecimal digit of this value.
    Low(u8),
    /// Behind the closing quote.
    Closed,
    /// Behind a byte that can't stand there.
    Broken,
}

/// The value of a hexadecimal digit of either case.
fn hex_value(byte: u8) -> Option<u8>
    ensures small { IfSome result (λ v. v < 16) }
    ensures value { result ≡ hex_value byte }
{
    match byte {
        b'0'..=b'9' => Some(byte - b'0'),
        b'a'..=b'f' => Some(byte - b'a' + 10),
        b'A'..=b'F' => Some(byte - b'A' + 10),
        _ => None,
    }
}

/// How the reading stands after one more byte.
pub fn step(mode: Mode, byte: u8) -> Mode
    ensures small { IsSmall result }
    ensures value { result ≡ step mode byte }
{
    match mode {
        Mode::Plain => step_plain(byte),
        Mode::Escaped => match byte {
            b'"' | b'\\' | b'n' => Mode::Plain,
            b'x' => Mode::High,
            _ => Mode::Broken,
        },
        Mode::High => match hex_value(byte) {
            Some(high) => Mode::Low(high),
            None => Mode::Broken,
        },
        Mode::Low(_) => match hex_value(byte) {
            Some(_) => Mode::Plain,
            None => Mode::Broken,
        },
        Mode::Closed | Mode::Broken => Mode::Broken,
    }
}

fn step_plain(byte: u8) -> Mode
    ensures small { IsSmall result }
    ensures value { result ≡ step Mode.Plain byte }
{
    if byte == b'"' {
        Mode::Closed
    } else if byte == b'\\' {
        Mode::Escaped
    } else if b' ' <= byte && byte <= b'~' {
        Mode::Plain
    } else {
        Mode::Broken
    }
}

/// The byte that stands in the value once this byte is read.
pub fn given(mode: Mode, byte: u8) -> Option<u8>
    requires { IsSmall mode }
    ensures { result ≡ given mode byte }
{
    match mode {
        Mode::Plain => match byte {
            b'"' | b'\\' => None,
            _ => Some(byte),
        },
        Mode::Escaped => match byte {
            b'x' => None,
            b'n' => Some(b'\n'),
            _ => Some(byte),
        },
        Mode::Low(high) => match hex_value(byte) {
            Some(low) => Some(16 * high + low),
            None => None,
        },
        Mode::High | Mode::Closed | Mode::Broken => None,
    }
}

/// How many bytes of the value are there once this byte is read, more than before.
fn given_count(mode: Mode, byte: u8) -> usize
    requires { IsSmall mode }
    ensures few { result ≤ 1 }
    ensures value { result ≡ length (option_to_list (given mode byte)) }
{
    match given(mode, byte) {
        Some(_) => 1,
        None => 0,
    }
}

/// How many bytes stand up to the quote that closes the string and with it, and how many its value has.
pub fn quoted(text: &[u8]) -> Option<(usize, usize)>
    ensures { MatchOption result (NoFront closes text.now) (λ r. LongestFront closes text.now r.0 × (r.1 ≡ length (value_of (take r.0 text.now)))) }
{
    let mut mode = Mode::Plain;
    let mut size = 0;
    for (count, byte) in text.iter().enumerate() {
        size += given_count(mode, *byte);
        mode = step(mode, *byte);
        match mode {
            Mode::Closed => return Some((count + 1, size)),
            Mode::Broken => return None,
            _ => {}
        }
    }
    None
}
