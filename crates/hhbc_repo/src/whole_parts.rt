ghost use Rattle.std.specs.Prelude.{◌≡◌, true};
ghost use Rattle.hhbc_repo.specs.Fits.{parts_fit};

use crate::parts::{BodyParts, ClassParts};
use hack_values::Seq;

/// What a text spells: its functions and its classes, each in their order. They keep to the ranges of what texts spell.
#[derive(Drop)]
pub struct Parts {
    pub functions: Seq<BodyParts>,
    pub classes: Seq<ClassParts>,
    pub ghost spelled: { parts_fit functions classes ≡ true },
}
