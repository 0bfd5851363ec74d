//! Types as they are written.

ghost use Rattle.std.specs.Prelude.{◌≡◌, ◌≤◌, [], ◌∷◌};
ghost use Rattle.hhbc_repo.specs.Languages.{Says};
ghost use Rattle.hhbc_repo.specs.TypeSyntax.{type_line};
ghost use Rattle.hhas_read.specs.declared.types.TypeAtom.TheVariants.{Uninit};
ghost use Rattle.hhas_read.specs.Reading.{Reads};
ghost use Rattle.hhas_read.specs.TypeWords.{type_atom_of};
ghost use Rattle.hhas_read.specs.WholeTypes.{AWrittenTypeOf, TypeAtomFrom, TypeAtomsBehind, UninitMore, UninitTail};
ghost use Rattle.hhas_read.specs.Written.{ends_atom, ends_type};

use crate::leaves::{atom_line, head_line};
use crate::reader::{Reader, Stop};
use crate::types::TypeAtom;
use hack_values::Seq;
use std::alloc::Global;

/// A type as it is written. `Uninit` stands first of the atoms, if it is one.
#[derive(Drop)]
pub enum WrittenType {
    Never,
    Cell,
    UninitCell,
    Atoms(Seq<TypeAtom>),
}

/// The line of an atom of a type.
fn type_line(atom: &TypeAtom) -> u8
    ensures { result ≡ type_line (type_atom_of atom.now) }
{
    match atom {
        TypeAtom::Uninit => 0,
        TypeAtom::Plain(atom) => atom_line(atom),
        TypeAtom::VecOf(_) => 6,
        TypeAtom::DictOf(_, _) => 7,
        TypeAtom::KeysetOf(_) => 8,
    }
}

impl<'a> Reader<'a> {
    /// An atom of a type, of a line from one on; `Uninit` is none of them.
    fn type_atom_from(&mut self, alloc: Global, least: u8) -> Result<TypeAtom, Stop>
        requires low { 1 ≤ least }
        requires high { least ≤ 8 }
        ensures { Reads ends_atom (TypeAtomFrom least) self.old result self.new }
    {
        let Some(head) = self.next_head() else {
            return Err(Stop::Syntax);
        };
        if head_line(head) < least {
            return Err(Stop::Syntax);
        }
        self.skip();
        self.behind_type_head(alloc, head)
    }
    /// The atoms of a type behind the first ones, at most one of each line, in their order.
    fn type_atoms(&mut self, alloc: Global, first: Seq<TypeAtom>) -> Result<Seq<TypeAtom>, Stop>
        ensures { Reads ends_type (TypeAtomsBehind first) self.old result self.new }
    {
        let mut out = first;
        let mut least = 1u8;
        loop {
            let atom = self.type_atom_from(alloc, least)?;
            least = type_line(&atom) + 1;
            out.push(atom)?;
            if least <= 8 && self.is_mark(b'|') {
                self.skip();
            } else if self.ends_type() {
                return Ok(out);
            } else {
                return Err(Stop::Syntax);
            }
        }
    }

    /// The type, where it ends here.
    fn type_ended(&self, written: WrittenType) -> Result<WrittenType, Stop>
        ensures { Reads ends_type (Says [] written) self.now result self.now }
    {
        if self.ends_type() {
            Ok(written)
        } else {
            Err(Stop::Syntax)
        }
    }

    /// What stands behind `Uninit` and a bar.
    fn uninit_more(&mut self, alloc: Global, first: Seq<TypeAtom>) -> Result<WrittenType, Stop>
        requires { first ≡ Uninit ∷ [] }
        ensures { Reads ends_type UninitMore self.old result self.new }
    {
        if self.is_word(b"Cell") {
            self.skip();
            return self.type_ended(WrittenType::UninitCell);
        }
        match self.type_atoms(alloc, first) {
            Ok(atoms) => Ok(WrittenType::Atoms(atoms)),
            Err(stop) => Err(stop),
        }
    }

    /// What stands behind `Uninit`.
    fn behind_uninit(&mut self, alloc: Global) -> Result<WrittenType, Stop>
        ensures { Reads ends_type UninitTail self.old result self.new }
    {
        let mut first = Seq::new(alloc);
        first.push(TypeAtom::Uninit)?;
        if !self.is_mark(b'|') {
            return self.type_ended(WrittenType::Atoms(first));
        }
        self.skip();
        self.uninit_more(alloc, first)
    }

    /// A type as it is written: `Never`, `Cell`, `Uninit|Cell`, or atoms.
    pub fn written_type(&mut self, alloc: Global) -> Result<WrittenType, Stop>
        ensures { Reads ends_type AWrittenTypeOf self.old result self.new }
    {
        if self.is_word(b"Never") {
            self.skip();
            return self.type_ended(WrittenType::Never);
        }
        if self.is_word(b"Cell") {
            self.skip();
            return self.type_ended(WrittenType::Cell);
        }
        if self.is_word(b"Uninit") {
            self.skip();
            return self.behind_uninit(alloc);
        }
        match self.type_atoms(alloc, Seq::new(alloc)) {
            Ok(atoms) => Ok(WrittenType::Atoms(atoms)),
            Err(stop) => Err(stop),
        }
    }
}
