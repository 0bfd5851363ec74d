//! Whole texts.

ghost use Rattle.std.specs.Prelude.{◌^◌, ◌<◌, length, IfErr, IfOk};
ghost use Rattle.hhbc_repo.specs.TextSyntax.{Spells};
ghost use Rattle.hhas_read.specs.Texts.{IsFault};

use crate::reader::{Reader, Stop};
use hhbc_repo::{Parts, spelled_parts_fit};
use std::alloc::Global;

/// Why a text was not read: where its first fault is, or there is no memory.
#[derive(Clone, Copy, Debug, PartialEq, Eq)]
pub enum PartsFault {
    TextFault(u32),
    NoMemory,
}

/// The functions and classes that a text spells, before linking. The place of a fault is a byte of the text, or its
/// length where more should follow.
pub fn read_parts(alloc: Global, text: &[u8]) -> Result<Parts, PartsFault>
    requires { length text.now < 2 ^ 32 }
    ensures parts { IfOk result (λ parts. Spells text.now (record { functions = parts.functions; classes = parts.classes })) }
    ensures fault { IfErr result (λ fault. IsFault text.now fault) }
{
    spelled_parts_fit();
    let mut reader = Reader::new(text);
    match reader.declarations(alloc) {
        Ok(parts) => Ok(parts.into_parts()),
        Err(Stop::Syntax) => Err(PartsFault::TextFault(reader.place())),
        Err(Stop::NoMemory) => Err(PartsFault::NoMemory),
    }
}
