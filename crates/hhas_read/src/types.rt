//! Atoms of types, with what stands in their brackets.

ghost use Rattle.std.specs.Prelude.{◌≡◌, []};
ghost use Rattle.hhbc_repo.specs.Languages.{Means, Says};
ghost use Rattle.hhas_read.specs.Atoms.{Tail};
ghost use Rattle.hhas_read.specs.declared.types.TypeAtom.TheVariants.{Plain};
ghost use Rattle.hhas_read.specs.Reading.{Reads};
ghost use Rattle.hhas_read.specs.TypeWords.{ATypeAtomOf, TypeTail};
ghost use Rattle.hhas_read.specs.Written.{ends_atom};

use crate::atoms::{Atom, Head};
use crate::leaves::Written;
use crate::reader::{Reader, Stop};
use std::alloc::Global;

/// An atom of a type as it is written. `Plain` has no brackets.
#[derive(Drop)]
pub enum TypeAtom {
    Uninit,
    Plain(Atom),
    VecOf(Written),
    DictOf(Written, Written),
    KeysetOf(Written),
}

impl<'a> Reader<'a> {
    /// The atom, where it ends here.
    fn type_atom_ended(&self, atom: TypeAtom) -> Result<TypeAtom, Stop>
        ensures { Reads ends_atom (Says [] atom) self.now result self.now }
    {
        if self.ends_atom() {
            Ok(atom)
        } else {
            Err(Stop::Syntax)
        }
    }

    /// What stands behind `Vec`.
    fn vec_atom(&mut self, alloc: Global) -> Result<TypeAtom, Stop>
        ensures { Reads ends_atom (TypeTail Head.Vec) self.old result self.new }
    {
        if !self.is_mark(b'<') {
            return self.type_atom_ended(TypeAtom::Plain(Atom::Vec));
        }
        self.skip();
        match self.closed_leaf(alloc) {
            Ok(leaf) => self.type_atom_ended(TypeAtom::VecOf(leaf)),
            Err(stop) => Err(stop),
        }
    }

    /// What stands behind `Dict`.
    fn dict_atom(&mut self, alloc: Global) -> Result<TypeAtom, Stop>
        ensures { Reads ends_atom (TypeTail Head.Dict) self.old result self.new }
    {
        if !self.is_mark(b'<') {
            return self.type_atom_ended(TypeAtom::Plain(Atom::Dict));
        }
        self.skip();
        match self.key_and_leaf(alloc) {
            Ok((key, leaf)) => self.type_atom_ended(TypeAtom::DictOf(key, leaf)),
            Err(stop) => Err(stop),
        }
    }

    /// What stands behind `Keyset`.
    fn keyset_atom(&mut self, alloc: Global) -> Result<TypeAtom, Stop>
        ensures { Reads ends_atom (TypeTail Head.Keyset) self.old result self.new }
    {
        if !self.is_mark(b'<') {
            return self.type_atom_ended(TypeAtom::Plain(Atom::Keyset));
        }
        self.skip();
        match self.key_to(alloc, b'>') {
            Ok(key) => self.type_atom_ended(TypeAtom::KeysetOf(key)),
            Err(stop) => Err(stop),
        }
    }

    /// An atom without brackets, behind its head.
    fn plain_atom(&mut self, alloc: Global, head: Head) -> Result<TypeAtom, Stop>
        ensures { Reads ends_atom (Means Plain (Tail head)) self.old result self.new }
    {
        match self.behind_head(alloc, head) {
            Ok(atom) => Ok(TypeAtom::Plain(atom)),
            Err(stop) => Err(stop),
        }
    }

    /// What stands behind the head of an atom of a type.
    pub(crate) fn behind_type_head(&mut self, alloc: Global, head: Head) -> Result<TypeAtom, Stop>
        ensures { Reads ends_atom (TypeTail head) self.old result self.new }
    {
        match head {
            Head::Null => self.plain_atom(alloc, Head::Null),
            Head::False => self.plain_atom(alloc, Head::False),
            Head::True => self.plain_atom(alloc, Head::True),
            Head::Bools => self.plain_atom(alloc, Head::Bools),
            Head::Int => self.plain_atom(alloc, Head::Int),
            Head::Str => self.plain_atom(alloc, Head::Str),
            Head::Obj => self.plain_atom(alloc, Head::Obj),
            Head::Vec => self.vec_atom(alloc),
            Head::Dict => self.dict_atom(alloc),
            Head::Keyset => self.keyset_atom(alloc),
        }
    }

    /// An atom of a type, with what stands in its brackets.
    pub fn type_atom(&mut self, alloc: Global) -> Result<TypeAtom, Stop>
        ensures { Reads ends_atom ATypeAtomOf self.old result self.new }
    {
        if self.is_word(b"Uninit") {
            self.skip();
            return self.type_atom_ended(TypeAtom::Uninit);
        }
        let Some(head) = self.next_head() else {
            return Err(Stop::Syntax);
        };
        self.skip();
        self.behind_type_head(alloc, head)
    }
}
