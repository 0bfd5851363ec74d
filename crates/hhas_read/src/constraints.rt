//! Constraints as they are written.

ghost use Rattle.std.specs.Prelude.{◌≡◌, ◌≤◌};
ghost use Rattle.hhas_read.specs.declared.atoms.Head.TheVariants.{Obj};
ghost use Rattle.hhas_read.specs.Constraints.{AConstraintOf, BroadFrom, BroadTail, BroadsFrom, broad_head};
ghost use Rattle.hhas_read.specs.Reading.{Reads};
ghost use Rattle.hhas_read.specs.Written.{ends_atom, ends_type};

use crate::atoms::{Atom, Head};
use crate::leaves::{Written, atom_line, head_line};
use crate::reader::{Piece, Reader, Stop};
use hack_values::Seq;
use std::alloc::Global;

/// Whether an atom of a constraint may begin so.
fn is_broad(head: Head) -> bool
    ensures { result ≡ broad_head head }
{
    match head {
        Head::Null => true,
        Head::False => false,
        Head::True => false,
        Head::Bools => true,
        Head::Int => true,
        Head::Str => true,
        Head::Obj => true,
        Head::Vec => true,
        Head::Dict => true,
        Head::Keyset => true,
    }
}

impl<'a> Reader<'a> {
    /// What stands behind `Obj`.
    fn broad_obj(&mut self, alloc: Global) -> Result<Atom, Stop>
        ensures { Reads ends_atom (BroadTail Obj) self.old result self.new }
    {
        if let Piece::LessEqual = self.peek() {
            self.skip();
            return match self.word(alloc) {
                Ok(class) => self.ended(Atom::Sub(class)),
                Err(stop) => Err(stop),
            };
        }
        self.ended(Atom::Obj)
    }

    /// What stands behind the head of an atom of a constraint.
    fn behind_broad_head(&mut self, alloc: Global, head: Head) -> Result<Atom, Stop>
        ensures { Reads ends_atom (BroadTail head) self.old result self.new }
    {
        match head {
            Head::Null => self.ended(Atom::Null),
            Head::False => self.ended(Atom::False),
            Head::True => self.ended(Atom::True),
            Head::Bools => self.ended(Atom::Bools),
            Head::Int => self.ended(Atom::Int),
            Head::Str => self.ended(Atom::Str),
            Head::Obj => self.broad_obj(alloc),
            Head::Vec => self.ended(Atom::Vec),
            Head::Dict => self.ended(Atom::Dict),
            Head::Keyset => self.ended(Atom::Keyset),
        }
    }

    /// An atom of a constraint, of a line from one on.
    fn broad_from(&mut self, alloc: Global, least: u8) -> Result<Atom, Stop>
        requires { least ≤ 8 }
        ensures { Reads ends_atom (BroadFrom least) self.old result self.new }
    {
        let Some(head) = self.next_head() else {
            return Err(Stop::Syntax);
        };
        if !is_broad(head) {
            return Err(Stop::Syntax);
        }
        if head_line(head) < least {
            return Err(Stop::Syntax);
        }
        self.skip();
        self.behind_broad_head(alloc, head)
    }

    /// Atoms of a constraint, at most one of each line, in their order.
    fn broad_atoms(&mut self, alloc: Global) -> Result<Seq<Atom>, Stop>
        ensures { Reads ends_type (BroadsFrom 0) self.old result self.new }
    {
        let mut out = Seq::new(alloc);
        let mut least = 0u8;
        loop {
            let atom = self.broad_from(alloc, least)?;
            least = atom_line(&atom) + 1;
            out.push(atom)?;
            if least <= 8 && self.is_mark(b'|') {
                self.skip();
            } else if self.ends_type() {
                return Ok(out);
            } else {
                return Err(Stop::Syntax);
            }
        }
    }

    /// A constraint as it is written: `Cell`, or atoms that name no single value.
    pub fn constraint(&mut self, alloc: Global) -> Result<Written, Stop>
        ensures { Reads ends_type AConstraintOf self.old result self.new }
    {
        if self.is_word(b"Cell") {
            self.skip();
            return self.leaf_ended(Written::Cell);
        }
        match self.broad_atoms(alloc) {
            Ok(atoms) => Ok(Written::Of(atoms)),
            Err(stop) => Err(stop),
        }
    }
}
