//! The repositories of texts.

ghost use Rattle.std.specs.Prelude.{◌≡◌, ◌+◌, ◌^◌, ◌<◌, true, length, IfErr, IfOk};
ghost use Rattle.hhbc_repo.specs.Lengths.{parts_fewer};
ghost use Rattle.hhbc_repo.specs.LinkFaults.{properties};
ghost use Rattle.hhbc_repo.specs.LookUps.{total};
ghost use Rattle.hhas_read.specs.LinkedTexts.{IsReadFault, LinksParts, ReadsRepository};

use crate::texts::{PartsFault, read_parts};
use hack_values::Text;
use hhbc_repo::{LinkError, LinkFault, Parts, Repo, link, spelled_parts_are_few};
use std::alloc::Global;

/// Why a text gives no repository: where its first fault is, or what the first check of linking finds that fails, or
/// there is no memory.
#[derive(Debug, Drop)]
pub enum ReadFault {
    TextFault(u32),
    LinkFault(LinkFault),
    NoMemory,
}

/// Links what was read.
fn linked(alloc: Global, parts: Parts) -> Result<Repo, ReadFault>
    requires properties { total (properties (record { functions = parts.functions; classes = parts.classes })) + 1 < 2 ^ 32 }
    requires lists { parts_fewer (2 ^ 32) (record { functions = parts.functions; classes = parts.classes }) ≡ true }
    ensures { LinksParts (record { functions = parts.functions; classes = parts.classes }) result }
{
    match link(alloc, parts) {
        Ok(repo) => Ok(repo),
        Err(LinkError::Fault(fault)) => Err(ReadFault::LinkFault(fault)),
        Err(LinkError::NoMemory) => Err(ReadFault::NoMemory),
    }
}

/// The repository of a text. The place of a text fault is a byte of the text, or its length where more should follow. A
/// text is linked only where it has no fault of its own. Its length bounds those of all lists in it.
pub fn read_text(alloc: Global, text: &Text) -> Result<Repo, ReadFault>
    requires { length text.now < 2 ^ 32 }
    ensures repository { IfOk result (λ repo. ReadsRepository text.now repo) }
    ensures fault { IfErr result (λ fault. IsReadFault text.now fault) }
{
    spelled_parts_are_few();
    match read_parts(alloc, text.bytes()) {
        Ok(parts) => linked(alloc, parts),
        Err(PartsFault::TextFault(at)) => Err(ReadFault::TextFault(at)),
        Err(PartsFault::NoMemory) => Err(ReadFault::NoMemory),
    }
}
