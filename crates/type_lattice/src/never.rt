//! Whether a type has members, and the type without Uninit.

ghost use Rattle.std.specs.Prelude.{◌≡◌};
ghost use Rattle.type_lattice.specs.Never as never;
ghost use Rattle.type_lattice.specs.Types as types;

use crate::types::{HType, IntPart, ObjPart, StrPart};

fn has_no_ints(part: IntPart) -> bool
    ensures { result ≡ never.no_ints part }
{
    matches!(part, IntPart::No)
}

fn has_no_strs(part: StrPart) -> bool
    ensures { result ≡ never.no_strs part }
{
    matches!(part, StrPart::No)
}

pub(crate) fn has_no_objects(part: ObjPart) -> bool
    ensures { result ≡ never.no_objs part }
{
    matches!(part, ObjPart::No)
}

fn is_absent<T: Copy>(part: &Option<T>) -> bool
    ensures { result ≡ never.is_absent part.now }
{
    part.is_none()
}

impl HType {
    /// Whether the type has no part, and so no member.
    pub fn is_never(&self) -> bool
        ensures { result ≡ never.is_never self.now }
    {
        !self.uninit
            && !self.null
            && !self.no
            && !self.yes
            && has_no_ints(self.int)
            && has_no_strs(self.str)
            && has_no_objects(self.obj)
            && is_absent(&self.vec)
            && is_absent(&self.dict)
            && is_absent(&self.keyset)
    }

    /// The type without Uninit.
    pub fn initialised(self) -> HType
        ensures { result ≡ types.initialised self }
    {
        HType {
            uninit: false,
            ..self
        }
    }
}
