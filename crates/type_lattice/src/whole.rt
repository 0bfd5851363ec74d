//! Whether parts have all that they may.

ghost use Rattle.std.specs.Prelude.{◌≡◌};
ghost use Rattle.type_lattice.specs.Whole as whole;

use crate::types::{HType, IntPart, Leaf, ObjPart, StrPart};

fn has_all_ints(part: IntPart) -> bool
    ensures { result ≡ whole.all_ints part }
{
    matches!(part, IntPart::Any)
}

fn has_all_strs(part: StrPart) -> bool
    ensures { result ≡ whole.all_strs part }
{
    matches!(part, StrPart::Any)
}

fn has_all_objects(part: ObjPart) -> bool
    ensures { result ≡ whole.all_objs part }
{
    matches!(part, ObjPart::Any)
}

impl Leaf {
    /// Whether the leaf holds every cell.
    pub(crate) fn is_whole(&self) -> bool
        ensures { result ≡ whole.whole_leaf self.now }
    {
        self.null
            && self.no
            && self.yes
            && has_all_ints(self.int)
            && has_all_strs(self.str)
            && has_all_objects(self.obj)
            && self.vec
            && self.dict
            && self.keyset
    }

    /// Whether the leaf holds every key.
    pub(crate) fn has_all_keys(&self) -> bool
        ensures { result ≡ whole.whole_key self.now }
    {
        has_all_ints(self.int) && has_all_strs(self.str)
    }
}

fn vec_is_whole(part: &Option<Leaf>) -> bool
    ensures { result ≡ whole.part_is whole.whole_leaf part.now }
{
    match part {
        Some(leaf) => leaf.is_whole(),
        None => false,
    }
}

fn dict_is_whole(part: &Option<(Leaf, Leaf)>) -> bool
    ensures { result ≡ whole.part_is whole.whole_entry part.now }
{
    match part {
        Some((key, value)) => key.has_all_keys() && value.is_whole(),
        None => false,
    }
}

fn keyset_is_whole(part: &Option<Leaf>) -> bool
    ensures { result ≡ whole.part_is whole.whole_key part.now }
{
    match part {
        Some(key) => key.has_all_keys(),
        None => false,
    }
}

impl HType {
    /// Whether the type has every cell: each part but Uninit, whole.
    pub fn has_all_cells(&self) -> bool
        ensures { result ≡ whole.is_whole self.now }
    {
        self.null
            && self.no
            && self.yes
            && has_all_ints(self.int)
            && has_all_strs(self.str)
            && has_all_objects(self.obj)
            && vec_is_whole(&self.vec)
            && dict_is_whole(&self.dict)
            && keyset_is_whole(&self.keyset)
    }
}
