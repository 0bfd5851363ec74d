//! Types whose classes become numbers.

ghost use Rattle.std.specs.Prelude.{◌≡◌, map, option_map};
ghost use Rattle.hhbc_repo.specs.Checks.{Checks, TellsFirst};
ghost use Rattle.hhbc_repo.specs.LinkFaults as faults;
ghost use Rattle.hhbc_repo.specs.LinkFaults.{stated_faults, type_faults};
ghost use Rattle.hhbc_repo.specs.Resolved as resolved;
ghost use Rattle.hhbc_repo.specs.Resolved.{entry_with, leaf_with, obj_with, resolved_type, type_with};

use crate::link_fault::LinkError;
use crate::listed::Listed;
use crate::parts::TypeParts;
use crate::telling::unknown;
use hack_values::Text;
use std::alloc::Global;
use type_lattice::{HType, Leaf, ObjPart};

impl<'a> Listed<'a> {
    /// The number of the class whose name is at a place.
    fn class_at(&self, classes: &[Text], place: u32) -> u32
        ensures { result ≡ resolved.class_at self.now classes.now place }
    {
        match classes.get(place as usize) {
            Some(name) => match self.class_of(name.bytes()) {
                Some(number) => number,
                None => 0,
            },
            None => 0,
        }
    }

    fn obj(&self, classes: &[Text], part: ObjPart) -> ObjPart
        ensures { result ≡ obj_with (resolved.class_at self.now classes.now) part }
    {
        match part {
            ObjPart::No => ObjPart::No,
            ObjPart::Exact(place) => ObjPart::Exact(self.class_at(classes, place)),
            ObjPart::Sub(place) => ObjPart::Sub(self.class_at(classes, place)),
            ObjPart::Any => ObjPart::Any,
        }
    }

    fn leaf(&self, classes: &[Text], leaf: Leaf) -> Leaf
        ensures { result ≡ leaf_with (resolved.class_at self.now classes.now) leaf }
    {
        Leaf {
            obj: self.obj(classes, leaf.obj),
            ..leaf
        }
    }

    fn perhaps_leaf(&self, classes: &[Text], leaf: Option<Leaf>) -> Option<Leaf>
        ensures { result ≡ option_map (leaf_with (resolved.class_at self.now classes.now)) leaf }
    {
        match leaf {
            Some(leaf) => Some(self.leaf(classes, leaf)),
            None => None,
        }
    }

    fn perhaps_entry(&self, classes: &[Text], entry: Option<(Leaf, Leaf)>) -> Option<(Leaf, Leaf)>
        ensures { result ≡ option_map (entry_with (resolved.class_at self.now classes.now)) entry }
    {
        match entry {
            Some((key, value)) => Some((self.leaf(classes, key), self.leaf(classes, value))),
            None => None,
        }
    }

    /// A type, where its names are those of classes.
    fn numbered_type(&self, parts: &TypeParts) -> HType
        ensures { result ≡ resolved_type self.now parts.now }
    {
        let classes = parts.classes.as_slice();
        HType {
            obj: self.obj(classes, parts.t.obj),
            vec: self.perhaps_leaf(classes, parts.t.vec),
            dict: self.perhaps_entry(classes, parts.t.dict),
            keyset: self.perhaps_leaf(classes, parts.t.keyset),
            ..parts.t
        }
    }

    /// A type that may be stated, where its names are those of classes.
    pub(crate) fn numbered_stated(&self, stated: &Option<TypeParts>) -> Option<HType>
        ensures { result ≡ option_map (resolved_type self.now) stated.now }
    {
        match stated {
            Some(parts) => Some(self.numbered_type(parts)),
            None => None,
        }
    }

    /// The first name of a type that no class has.
    fn check_type(&self, alloc: Global, owner: &[u8], parts: &TypeParts) -> Result<(), LinkError>
        ensures { Checks (type_faults self.now owner.now parts.now) tt result }
    {
        for name in parts.classes.as_slice() {
            if self.class_of(name.bytes()).is_none() {
                return Err(unknown(alloc, owner, name.bytes()));
            }
        }
        Ok(())
    }

    /// A type with its classes by number.
    pub(crate) fn linked_type(
        &self,
        alloc: Global,
        owner: &[u8],
        parts: &TypeParts,
    ) -> Result<HType, LinkError>
        ensures { Checks (type_faults self.now owner.now parts.now) (resolved_type self.now parts.now) result }
    {
        match self.check_type(alloc, owner, parts) {
            Ok(()) => Ok(self.numbered_type(parts)),
            Err(error) => Err(error),
        }
    }

    /// A type that may be stated.
    pub(crate) fn linked_stated(
        &self,
        alloc: Global,
        owner: &[u8],
        stated: &Option<TypeParts>,
    ) -> Result<Option<HType>, LinkError>
        ensures { Checks (stated_faults self.now owner.now stated.now) (option_map (resolved_type self.now) stated.now) result }
    {
        match stated {
            Some(parts) => match self.linked_type(alloc, owner, parts) {
                Ok(linked) => Ok(Some(linked)),
                Err(error) => Err(error),
            },
            None => Ok(None),
        }
    }
}
