//! `hhbbc`: types of a repository of bytecode, inferred and written back as assertions.
#![tactic(auto)]

ghost use Rattle.std.specs.Prelude.{◌≡◌, ◌⊎◌, IfErr};

mod annotation;
mod counts;
mod fault_lines;
mod form;
mod machine;
mod report;
mod status;
mod top;
mod words;

use hack_values::{Seq, Text};
use hh_io::{StdSink, StdSource};
pub use status::Status;
use std::env;
use std::io::{self, ErrorKind};
use std::process::ExitCode;
pub use top::{finish, hhbbc};

/// The words after the program's name, or the status where there is none for them: words that aren't
/// UTF-8 name no command.
fn words_of(rt: &HostRuntime) -> Result<Seq<Text>, Status>
    ensures { IfErr result (λ s. (s ≡ Status.Usage) ⊎ (s ≡ Status.NoMemory)) }
{
    let words = match env::args(rt) {
        Ok(words) => words,
        Err(error) => return Err(status_of(&error)),
    };
    let mut texts = Seq::new(rt.alloc());
    for (place, word) in words.enumerate() {
        if place > 0 {
            let Ok(text) = Text::from_bytes(rt.alloc(), word.as_bytes()) else {
                return Err(Status::NoMemory);
            };
            if texts.push(text).is_err() {
                return Err(Status::NoMemory);
            }
        }
    }
    Ok(texts)
}

fn status_of(error: &io::Error) -> Status
    ensures { (result ≡ Status.Usage) ⊎ (result ≡ Status.NoMemory) }
{
    if error.kind() == ErrorKind::InvalidData {
        Status::Usage
    } else {
        Status::NoMemory
    }
}

fn main(rt: HostRuntime) -> ExitCode {
    let mut err = StdSink::new(rt.stderr());
    let status = match words_of(&rt) {
        Ok(words) => hhbbc(
            rt.alloc(),
            words.as_slice(),
            &mut StdSource::new(rt.stdin()),
            &mut StdSink::new(rt.stdout()),
            &mut err,
        ),
        Err(status) => finish(&mut err, status),
    };
    ExitCode::from(status.number())
}
