ghost use Rattle.std.specs.Prelude.{◌≡◌, ◌+◌, ◌≤◌, length, IfOk, OnOk, IfSome, IsErrOf};
ghost use Rattle.std.specs.Io.KnownBytes.{Consumes, IsAtEnd};
ghost use Rattle.hh_io.specs.Sources.{IsLonger, IsWithin, LosesFront, ReadsPerByte, FaultsFollow};

use crate::Source;
use hack_values::{NoMemory, Text};
use std::alloc::Global;

/// Why not all bytes were read.
#[derive(Clone, Copy, Debug, PartialEq, Eq)]
pub enum ReadError {
    ReadFailed,
    TooLong,
    NoMemory,
}

impl From<NoMemory> for ReadError {
    ghost use Rattle.std.specs.Prelude.{◌≡◌};
    ghost use Rattle.hh_io.specs.declared.reading.ReadError.TheVariants.{NoMemory as WantOfMemory};

    ghost from_gives = { λ _ error. error ≡ WantOfMemory };

    fn from(_error: NoMemory) -> ReadError {
        ReadError::NoMemory
    }
}

/// All bytes that the source has left, if they are at most `limit`.
pub fn read_all<S: Source>(alloc: Global, source: &mut S, limit: u32) -> Result<Text, ReadError>
    ensures all { IfOk result (λ text. Consumes (S.left source.old) (S.left source.new) text) }
    ensures ended { OnOk result (IsAtEnd (S.left source.new)) }
    ensures short { IfOk result (λ text. length text ≤ limit) }
    ensures within { OnOk result (IsWithin (S.left source.old) limit) }
    ensures long { IsErrOf result ReadError.TooLong → IsLonger (S.left source.old) limit }
    ensures lost { LosesFront (S.left source.old) (S.left source.new) }
    ensures faults { FaultsFollow (S.faults source.old) (S.faults source.new) result }
    ensures sound { IsErrOf result ReadError.ReadFailed → S.certain source.old ≤ limit }
    ensures sound_told { IsErrOf result ReadError.ReadFailed →
        IfSome (S.left source.old) (λ bytes. S.certain source.old ≤ length bytes) }
    ensures later { S.reads source.old ≤ S.reads source.new }
    ensures reads { S.reads source.new ≤ S.reads source.old + limit + 2 }
    ensures reads_told { ReadsPerByte (S.left source.old) (S.left source.new)
        (S.reads source.old) (S.reads source.new) }
{
    let mut text = Text::from_bytes(alloc, &[])?;
    let mut buf = [0u8; 4096];
    loop {
        let Ok(count) = source.read(&mut buf) else {
            return Err(ReadError::ReadFailed);
        };
        if count == 0 {
            return Ok(text);
        }
        if count > limit as usize - text.bytes().len() {
            return Err(ReadError::TooLong);
        }
        text.append(&buf[..count])?;
    }
}
