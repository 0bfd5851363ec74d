//! Atoms of types.

ghost use Rattle.std.specs.Prelude.{◌≡◌, [], MatchOption};
ghost use Rattle.hhas_lex.specs.Tokens.{Word};
ghost use Rattle.hhbc_repo.specs.Languages.{Says};
ghost use Rattle.hhas_read.specs.Atoms.{Tail, ShortString};
ghost use Rattle.hhas_read.specs.Reading.{Reads, any, next};
ghost use Rattle.hhas_read.specs.Written.{AnAtomOf, head_name, ends_atom};

use crate::reader::{Piece, Reader, Stop};
use hack_values::Text;
use std::alloc::Global;

/// The word that an atom begins with.
#[derive(Clone, Copy, Debug, PartialEq, Eq)]
pub enum Head {
    Null,
    False,
    True,
    Bools,
    Int,
    Str,
    Obj,
    Vec,
    Dict,
    Keyset,
}

/// An atom as it is written, its container whole.
#[derive(Drop)]
pub enum Atom {
    Null,
    False,
    True,
    Bools,
    Int,
    OneInt(i64),
    Str,
    OneStr(Text),
    Obj,
    Exact(Text),
    Sub(Text),
    Vec,
    Dict,
    Keyset,
}

impl<'a> Reader<'a> {
    /// The head whose word is next, if it is one.
    pub fn next_head(&self) -> Option<Head>
        ensures { MatchOption result ((h : Head) → next self.now ≡ Word (head_name h) → ⊥) (λ h. next self.now ≡ Word (head_name h)) }
    {
        if self.is_word(b"Null") {
            return Some(Head::Null);
        }
        if self.is_word(b"False") {
            return Some(Head::False);
        }
        if self.is_word(b"True") {
            return Some(Head::True);
        }
        if self.is_word(b"Bool") {
            return Some(Head::Bools);
        }
        if self.is_word(b"Int") {
            return Some(Head::Int);
        }
        if self.is_word(b"Str") {
            return Some(Head::Str);
        }
        if self.is_word(b"Obj") {
            return Some(Head::Obj);
        }
        if self.is_word(b"Vec") {
            return Some(Head::Vec);
        }
        if self.is_word(b"Dict") {
            return Some(Head::Dict);
        }
        if self.is_word(b"Keyset") {
            return Some(Head::Keyset);
        }
        None
    }

    /// Whether the next token goes on with no atom.
    pub fn ends_atom(&self) -> bool
        ensures { result ≡ ends_atom (next self.now) }
    {
        match self.peek() {
            Piece::LessEqual => false,
            Piece::Mark(byte) => byte != b'=' && byte != b'<',
            _ => true,
        }
    }

    /// The atom, where it ends here.
    pub(crate) fn ended(&self, atom: Atom) -> Result<Atom, Stop>
        ensures { Reads ends_atom (Says [] atom) self.now result self.now }
    {
        if self.ends_atom() {
            Ok(atom)
        } else {
            Err(Stop::Syntax)
        }
    }

    /// The value of a string of at most 32 bytes.
    pub fn short_string(&mut self, alloc: Global) -> Result<Text, Stop>
        ensures { Reads any ShortString self.old result self.new }
    {
        let Some(value) = self.value(alloc)? else {
            return Err(Stop::Syntax);
        };
        if value.bytes().len() > 32 {
            return Err(Stop::Syntax);
        }
        self.skip();
        Ok(value)
    }

    /// What stands behind `Int`.
    fn int_atom(&mut self) -> Result<Atom, Stop>
        ensures { Reads ends_atom (Tail Head.Int) self.old result self.new }
    {
        if !self.is_mark(b'=') {
            return self.ended(Atom::Int);
        }
        self.skip();
        match self.integer() {
            Ok(number) => self.ended(Atom::OneInt(number)),
            Err(stop) => Err(stop),
        }
    }

    /// What stands behind `Str`.
    fn str_atom(&mut self, alloc: Global) -> Result<Atom, Stop>
        ensures { Reads ends_atom (Tail Head.Str) self.old result self.new }
    {
        if !self.is_mark(b'=') {
            return self.ended(Atom::Str);
        }
        self.skip();
        match self.short_string(alloc) {
            Ok(text) => self.ended(Atom::OneStr(text)),
            Err(stop) => Err(stop),
        }
    }

    /// What stands behind `Obj`.
    fn obj_atom(&mut self, alloc: Global) -> Result<Atom, Stop>
        ensures { Reads ends_atom (Tail Head.Obj) self.old result self.new }
    {
        if self.is_mark(b'=') {
            self.skip();
            return match self.word(alloc) {
                Ok(class) => self.ended(Atom::Exact(class)),
                Err(stop) => Err(stop),
            };
        }
        if let Piece::LessEqual = self.peek() {
            self.skip();
            return match self.word(alloc) {
                Ok(class) => self.ended(Atom::Sub(class)),
                Err(stop) => Err(stop),
            };
        }
        self.ended(Atom::Obj)
    }

    /// What stands behind the head.
    pub(crate) fn behind_head(&mut self, alloc: Global, head: Head) -> Result<Atom, Stop>
        ensures { Reads ends_atom (Tail head) self.old result self.new }
    {
        match head {
            Head::Null => self.ended(Atom::Null),
            Head::False => self.ended(Atom::False),
            Head::True => self.ended(Atom::True),
            Head::Bools => self.ended(Atom::Bools),
            Head::Int => self.int_atom(),
            Head::Str => self.str_atom(alloc),
            Head::Obj => self.obj_atom(alloc),
            Head::Vec => self.ended(Atom::Vec),
            Head::Dict => self.ended(Atom::Dict),
            Head::Keyset => self.ended(Atom::Keyset),
        }
    }

    /// An atom, where no mark of a longer one follows.
    pub fn atom(&mut self, alloc: Global) -> Result<Atom, Stop>
        ensures { Reads ends_atom AnAtomOf self.old result self.new }
    {
        let Some(head) = self.next_head() else {
            return Err(Stop::Syntax);
        };
        self.skip();
        self.behind_head(alloc, head)
    }
}
