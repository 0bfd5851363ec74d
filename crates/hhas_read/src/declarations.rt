//! Texts without their end.

ghost use Rattle.std.specs.Prelude.{◌≡◌, [], OnOk, pos, true};
ghost use Rattle.hhas_lex.specs.Tokens.{Integer};
ghost use Rattle.hhbc_repo.specs.Fits.{parts_fit};
ghost use Rattle.hhbc_repo.specs.Languages.{Many, Means};
ghost use Rattle.hhbc_repo.specs.TextSyntax.{ADeclaration};
ghost use Rattle.hhas_read.specs.Declarations.{ADeclarationOf, Profile, declaration_of, parts_of, with_declaration};
ghost use Rattle.hhas_read.specs.TextWithoutEnd.{DeclaredText, is_end};
ghost use Rattle.hhas_read.specs.Reading.{IsNext, Reads, any, next};

use crate::reader::{Piece, Reader, Stop};
use hack_values::{NoMemory, Seq};
use hhbc_repo::{BodyParts, ClassParts, Parts};
use std::alloc::Global;
use std::marker::Model;

/// What stands in a text.
#[derive(Drop)]
pub enum Declaration {
    Function(BodyParts),
    Class(ClassParts),
}

/// Functions and classes, each in the order in which they stand in a text.
#[derive(Drop)]
pub struct Collected {
    functions: Seq<BodyParts>,
    classes: Seq<ClassParts>,
}

impl Model for Collected {
    ghost use Rattle.hhbc_repo.specs.LinkFaults.{Whole};

    ghost Value = { Whole };

    ghost use Rattle.std.specs.Coded.{codes};
    ghost use Rattle.hack_values.specs.Code.{coded_val, coded_key};

    ghost coded = { Prim.hlevel (codes, coded_val, coded_key) };

    ghost view = { λ c. record { functions = c.functions; classes = c.classes } };
}

impl Collected {
    /// No functions and no classes.
    fn new(alloc: Global) -> Collected
        ensures { result ≡ parts_of [] }
    {
        Collected {
            functions: Seq::new(alloc),
            classes: Seq::new(alloc),
        }
    }

    fn add(&mut self, declaration: Declaration) -> Result<(), NoMemory>
        ensures { OnOk result (self.new ≡ with_declaration (declaration_of declaration) self.old) }
    {
        match declaration {
            Declaration::Function(function) => self.functions.push(function),
            Declaration::Class(class) => self.classes.push(class),
        }
    }

    /// The parts of a whole text.
    pub fn into_parts(self) -> Parts
        requires { parts_fit self.functions self.classes ≡ true }
        ensures { self ≡ record { functions = result.functions; classes = result.classes } }
    {
        Parts {
            functions: self.functions,
            classes: self.classes,
        }
    }
}

impl<'a> Reader<'a> {
    /// Whether the text ends here.
    fn is_end(&self) -> bool
        ensures { result ≡ is_end (next self.now) }
    {
        match self.peek() {
            Piece::End => true,
            _ => false,
        }
    }

    /// Whether the integer 1 is next.
    fn is_one(&self) -> bool
        ensures { IsNext (Integer (pos 1)) self.now result }
    {
        match self.peek() {
            Piece::Integer(found) => { if found == 1 { true } else { false } }
            _ => false,
        }
    }

    /// `.profile 1;`.
    fn profile(&mut self) -> Result<(), Stop>
        ensures { Reads any Profile self.old result self.new }
    {
        if !self.is_directive(b"profile") {
            return Err(Stop::Syntax);
        }
        self.skip();
        if !self.is_one() {
            return Err(Stop::Syntax);
        }
        self.skip();
        self.mark(b';')
    }

    /// A function or a class.
    fn declaration(&mut self, alloc: Global) -> Result<Declaration, Stop>
        ensures { Reads any ADeclarationOf self.old result self.new }
    {
        if self.is_directive(b"function") {
            self.skip();
            return match self.body(alloc) {
                Ok(function) => Ok(Declaration::Function(function)),
                Err(stop) => Err(stop),
            };
        }
        match self.class(alloc) {
            Ok(class) => Ok(Declaration::Class(class)),
            Err(stop) => Err(stop),
        }
    }

    /// Functions and classes until the end of the text.
    fn declared(&mut self, alloc: Global) -> Result<Collected, Stop>
        ensures { Reads is_end (Means parts_of (Many ADeclaration)) self.old result self.new }
    {
        let mut parts = Collected::new(alloc);
        while !self.is_end() {
            let declaration = self.declaration(alloc)?;
            parts.add(declaration)?;
        }
        Ok(parts)
    }

    /// A text without its end, which is only looked at.
    pub fn declarations(&mut self, alloc: Global) -> Result<Collected, Stop>
        ensures { Reads is_end DeclaredText self.old result self.new }
    {
        match self.profile() {
            Ok(()) => self.declared(alloc),
            Err(stop) => Err(stop),
        }
    }
}
