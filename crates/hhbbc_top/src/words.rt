//! The words of a command, read by hand.

ghost use Rattle.std.specs.Prelude.{◌≡◌, true, nat_le, Some, None, if◌then◌else◌};
ghost use Rattle.std.specs.List.{list_all};
ghost use Rattle.hhas_lex.specs.Bytes as bytes;
ghost use Rattle.hhbbc_top.specs.Words as words;

use hack_values::Text;

/// What the program is to do.
#[derive(Clone, Copy, PartialEq, Eq)]
pub enum Command {
    /// Reads, links and verifies the text.
    Check,
    /// Reads and links the text, and writes it in the canonical form.
    Format,
    /// Annotates the text.
    Analyze,
    /// Runs the text's `main` with at most so many steps, and with its assertions tested or not.
    Run(u32, bool),
}

const MAX_STEPS: u64 = 1_000_000_000;

const DEFAULT_STEPS: u32 = 1_000_000;

fn is_digit(byte: u8) -> bool
    ensures { result ≡ bytes.is_digit byte }
{
    byte >= b'0' && byte <= b'9'
}

fn begins_numeral(byte: u8) -> bool
    ensures { result ≡ bytes.is_between 49 57 byte }
{
    byte >= b'1' && byte <= b'9'
}

fn are_digits(all: &[u8]) -> bool
    ensures { result ≡ list_all bytes.is_digit all.now }
{
    for byte in all {
        if !is_digit(*byte) {
            return false;
        }
    }
    true
}

/// Digits, the first of which isn't 0.
fn is_numeral(word: &[u8]) -> bool
    ensures { result ≡ words.is_numeral word.now }
{
    let [first, rest @ ..] = word else {
        return false;
    };
    begins_numeral(*first) && are_digits(rest)
}

/// The number of digits, where it is no more than a run may have of steps.
fn number_of(digits: &[u8]) -> Option<u32>
    requires { list_all bytes.is_digit digits.now ≡ true }
    ensures { result ≡ (if nat_le (bytes.number_from 0 digits.now) words.max_steps then Some (bytes.number_from 0 digits.now) else None) }
{
    let mut number: u64 = 0;
    for digit in digits {
        number = 10 * number + (*digit - b'0') as u64;
        if number > MAX_STEPS {
            return None;
        }
    }
    Some(number as u32)
}

/// The bound of steps of a word: 1 to 1,000,000,000 in decimal, without leading zeros.
fn steps_of(word: &[u8]) -> Option<u32>
    ensures { result ≡ words.steps_of word.now }
{
    if is_numeral(word) {
        number_of(word)
    } else {
        None
    }
}

/// What may stand last: `--asserts`.
fn asserts(steps: u32, rest: &[Text]) -> Option<Command>
    ensures { result ≡ words.asserts_in steps rest.now }
{
    match rest {
        [] => Some(Command::Run(steps, false)),
        [word] => {
            if word.bytes() == b"--asserts".as_slice() {
                Some(Command::Run(steps, true))
            } else {
                None
            }
        }
        _ => None,
    }
}

/// What may stand behind `run`: `--steps` with its bound, and then `--asserts`.
fn options(rest: &[Text]) -> Option<Command>
    ensures { result ≡ words.options_in rest.now }
{
    match rest {
        [word, bound, more @ ..] => {
            if word.bytes() == b"--steps".as_slice() {
                asserts(steps_of(bound.bytes())?, more)
            } else {
                None
            }
        }
        _ => asserts(DEFAULT_STEPS, rest),
    }
}

/// A command that takes no further words.
fn alone(command: Command, rest: &[Text]) -> Option<Command>
    ensures { result ≡ words.alone command rest.now }
{
    if rest.is_empty() { Some(command) } else { None }
}

/// The command of the words behind the program's name, where they are those of one.
pub fn command_of(all: &[Text]) -> Option<Command>
    ensures { result ≡ words.command_of all.now }
{
    let [word, rest @ ..] = all else {
        return None;
    };
    if word.bytes() == b"analyze".as_slice() {
        alone(Command::Analyze, rest)
    } else if word.bytes() == b"check".as_slice() {
        alone(Command::Check, rest)
    } else if word.bytes() == b"fmt".as_slice() {
        alone(Command::Format, rest)
    } else if word.bytes() == b"run".as_slice() {
        options(rest)
    } else {
        None
    }
}
