//! Labels.

ghost use Rattle.std.specs.Prelude.{◌≡◌};
ghost use Rattle.std.specs.List.{list_any};
ghost use Rattle.std.specs.Str.{bytes_eq};
ghost use Rattle.hhbc_repo.specs.CodeSyntax as code;
ghost use Rattle.hhbc_repo.specs.CodeSyntax.{ALabel};
ghost use Rattle.hhas_read.specs.Reading.{Reads, any};

use crate::reader::{Piece, Reader, Stop};
use hack_values::Text;
use hhbc_ops::op_named;
use std::alloc::Global;

fn is_among(names: &[&'static str], name: &[u8]) -> bool
    ensures { result ≡ list_any (λ other. bytes_eq other.now name.now) names.now }
{
    names.iter().any(|other| other.as_bytes() == name)
}

/// The word is one of assertions and member sequences.
#[tactic(auto, unfolding(hhbc_repo::specs::CodeSyntax::other_names))]
pub(crate) fn is_other_name(name: &[u8]) -> bool
    ensures { result ≡ list_any (λ other. bytes_eq other name.now) code.other_names }
{
    is_among(
        &[
            "AssertRATL",
            "AssertRATStk",
            "BaseL",
            "BaseC",
            "BaseH",
            "Dim",
            "QueryM",
            "SetM",
            "SetOpM",
            "IncDecM",
            "UnsetM",
        ],
        name,
    )
}

/// The word names an instruction, a base, `Dim`, a final or an assertion.
pub fn is_reserved(name: &[u8]) -> bool
    ensures { result ≡ code.is_reserved name.now }
{
    op_named(name).is_some() || is_other_name(name)
}

impl<'a> Reader<'a> {
    /// A word that isn't reserved.
    pub fn label(&mut self, alloc: Global) -> Result<Text, Stop>
        ensures { Reads any ALabel self.old result self.new }
    {
        let Piece::Word(name) = self.peek() else {
            return Err(Stop::Syntax);
        };
        if is_reserved(name) {
            return Err(Stop::Syntax);
        }
        let label = Text::from_bytes(alloc, name)?;
        self.skip();
        Ok(label)
    }
}
