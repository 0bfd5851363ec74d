//! Leaves and keys of types.

ghost use Rattle.std.specs.Prelude.{◌≡◌, ◌≤◌, [], nat_le, ◌&&◌};
ghost use Rattle.hhbc_repo.specs.TypeSyntax.{line};
ghost use Rattle.hhbc_repo.specs.Languages.{Says};
ghost use Rattle.hhas_read.specs.LeafSyntax.{ALeafOf, AKeyOf, AtomFrom, AtomsFrom, head_among, head_line, last_line};
ghost use Rattle.hhas_read.specs.Reading.{Reads, next};
ghost use Rattle.hhas_read.specs.Written.{atom_of, ends_atom, ends_type};

use crate::atoms::{Atom, Head};
use crate::reader::{Piece, Reader, Stop};
use hack_values::Seq;
use std::alloc::Global;

/// What stands in the brackets of a container, as it is written.
#[derive(Drop)]
pub enum Written {
    Never,
    Cell,
    Of(Seq<Atom>),
}

pub(crate) fn head_line(head: Head) -> u8
    ensures { result ≡ head_line head }
{
    match head {
        Head::Null => 1,
        Head::False => 2,
        Head::True => 2,
        Head::Bools => 2,
        Head::Int => 3,
        Head::Str => 4,
        Head::Obj => 5,
        Head::Vec => 6,
        Head::Dict => 7,
        Head::Keyset => 8,
    }
}

/// The line of an atom.
pub(crate) fn atom_line(atom: &Atom) -> u8
    ensures { result ≡ line (atom_of atom.now) }
{
    match atom {
        Atom::Null => 1,
        Atom::False => 2,
        Atom::True => 2,
        Atom::Bools => 2,
        Atom::Int => 3,
        Atom::OneInt(_) => 3,
        Atom::Str => 4,
        Atom::OneStr(_) => 4,
        Atom::Obj => 5,
        Atom::Exact(_) => 5,
        Atom::Sub(_) => 5,
        Atom::Vec => 6,
        Atom::Dict => 7,
        Atom::Keyset => 8,
    }
}

/// Whether a key may have such an atom, or it's none of a key.
fn is_among(head: Head, keys: bool) -> bool
    ensures { result ≡ head_among keys head }
{
    if keys {
        match head {
            Head::Int => true,
            Head::Str => true,
            _ => false,
        }
    } else {
        true
    }
}

fn last_line(keys: bool) -> u8
    ensures { result ≡ last_line keys }
{
    if keys { 4 } else { 8 }
}

impl<'a> Reader<'a> {
    /// Whether the next token goes on with no type.
    pub fn ends_type(&self) -> bool
        ensures { result ≡ ends_type (next self.now) }
    {
        match self.peek() {
            Piece::LessEqual => false,
            Piece::Mark(byte) => byte != b'=' && byte != b'<' && byte != b'|',
            _ => true,
        }
    }

    /// An atom of a line from one on.
    fn atom_from(&mut self, alloc: Global, keys: bool, least: u8) -> Result<Atom, Stop>
        requires { least ≤ last_line keys }
        ensures { Reads ends_atom (AtomFrom keys least) self.old result self.new }
    {
        let Some(head) = self.next_head() else {
            return Err(Stop::Syntax);
        };
        if !is_among(head, keys) {
            return Err(Stop::Syntax);
        }
        if head_line(head) < least {
            return Err(Stop::Syntax);
        }
        self.skip();
        self.behind_head(alloc, head)
    }

    /// Atoms with bars between them, at most one of each line, in their order.
    fn atoms(&mut self, alloc: Global, keys: bool) -> Result<Seq<Atom>, Stop>
        ensures { Reads ends_type (AtomsFrom keys 0) self.old result self.new }
    {
        let mut out = Seq::new(alloc);
        let mut least = 0u8;
        loop {
            let atom = self.atom_from(alloc, keys, least)?;
            least = atom_line(&atom) + 1;
            out.push(atom)?;
            if least <= last_line(keys) && self.is_mark(b'|') {
                self.skip();
            } else if self.ends_type() {
                return Ok(out);
            } else {
                return Err(Stop::Syntax);
            }
        }
    }

    /// What is written, where it ends here.
    pub(crate) fn leaf_ended(&self, leaf: Written) -> Result<Written, Stop>
        ensures { Reads ends_type (Says [] leaf) self.now result self.now }
    {
        if self.ends_type() {
            Ok(leaf)
        } else {
            Err(Stop::Syntax)
        }
    }

    /// A leaf of a type: `Never`, `Cell`, or atoms.
    pub fn leaf(&mut self, alloc: Global) -> Result<Written, Stop>
        ensures { Reads ends_type ALeafOf self.old result self.new }
    {
        if self.is_word(b"Never") {
            self.skip();
            return self.leaf_ended(Written::Never);
        }
        if self.is_word(b"Cell") {
            self.skip();
            return self.leaf_ended(Written::Cell);
        }
        match self.atoms(alloc, false) {
            Ok(atoms) => Ok(Written::Of(atoms)),
            Err(stop) => Err(stop),
        }
    }

    /// A key of a type: `Never`, or atoms of ints and strings.
    pub fn key_type(&mut self, alloc: Global) -> Result<Written, Stop>
        ensures { Reads ends_type AKeyOf self.old result self.new }
    {
        if self.is_word(b"Never") {
            self.skip();
            return self.leaf_ended(Written::Never);
        }
        match self.atoms(alloc, true) {
            Ok(atoms) => Ok(Written::Of(atoms)),
            Err(stop) => Err(stop),
        }
    }
}
