//! Members of classes.

ghost use Rattle.std.specs.Prelude.{◌≡◌, [], ◌∷◌};
ghost use Rattle.hhas_lex.specs.Tokens.{Mark};
ghost use Rattle.hhbc_repo.specs.Languages.{Both, Ended};
ghost use Rattle.hhbc_repo.specs.TextSyntax.{AScalar, AnInitial};
ghost use Rattle.hhbc_repo.specs.TypeSyntax.{AType};
ghost use Rattle.hhas_read.specs.ClassMembers.{AMemberOf, ConstTail, ConstValue, HeldToEnd, PropertyTail, PropertyValue};
ghost use Rattle.hhas_read.specs.Reading.{Reads, any};

use crate::reader::{Reader, Stop};
use hack_values::Cell;
use hhbc_repo::{BodyParts, Const, PropertyParts, TypeParts};
use std::alloc::Global;

/// A member of a class.
#[derive(Drop)]
pub enum Member {
    Const(Const),
    Property(PropertyParts),
    Method(BodyParts),
}

impl<'a> Reader<'a> {
    /// A scalar, and the semicolon behind it.
    fn scalar_to_end(&mut self, alloc: Global) -> Result<Cell, Stop>
        ensures { Reads any (Ended AScalar (Mark 59 ∷ [])) self.old result self.new }
    {
        match self.scalar(alloc) {
            Ok(value) => {
                if !self.is_mark(b';') {
                    return Err(Stop::Syntax);
                }
                self.skip();
                Ok(value)
            }
            Err(stop) => Err(stop),
        }
    }

    /// What stands behind the name of a constant.
    fn const_value(&mut self, alloc: Global) -> Result<Cell, Stop>
        ensures { Reads any ConstValue self.old result self.new }
    {
        match self.mark(b'=') {
            Ok(()) => self.scalar_to_end(alloc),
            Err(stop) => Err(stop),
        }
    }

    /// What stands behind `.const`.
    fn constant(&mut self, alloc: Global) -> Result<Const, Stop>
        ensures { Reads any ConstTail self.old result self.new }
    {
        let name = self.word(alloc)?;
        let value = self.const_value(alloc)?;
        Ok(Const { name, value })
    }

    /// A type, and the semicolon behind it.
    fn type_to_end(&mut self, alloc: Global) -> Result<TypeParts, Stop>
        ensures { Reads any (Ended AType (Mark 59 ∷ [])) self.old result self.new }
    {
        match self.type_parts(alloc) {
            Ok(stated) => {
                if !self.is_mark(b';') {
                    return Err(Stop::Syntax);
                }
                self.skip();
                Ok(stated)
            }
            Err(stop) => Err(stop),
        }
    }

    /// Perhaps the type of what a property holds, and the semicolon.
    fn held_to_end(&mut self, alloc: Global) -> Result<Option<TypeParts>, Stop>
        ensures { Reads any HeldToEnd self.old result self.new }
    {
        if self.is_directive(b"holds") {
            self.skip();
            return match self.type_to_end(alloc) {
                Ok(stated) => Ok(Some(stated)),
                Err(stop) => Err(stop),
            };
        }
        match self.mark(b';') {
            Ok(()) => Ok(None),
            Err(stop) => Err(stop),
        }
    }

    /// The value that a property has at first, and what stands behind it.
    fn initial_and_held(&mut self, alloc: Global) -> Result<(Cell, Option<TypeParts>), Stop>
        ensures { Reads any (Both AnInitial HeldToEnd) self.old result self.new }
    {
        let initial = self.initial(alloc)?;
        let stated = self.held_to_end(alloc)?;
        Ok((initial, stated))
    }

    /// What stands behind the name of a property.
    fn property_value(&mut self, alloc: Global) -> Result<(Cell, Option<TypeParts>), Stop>
        ensures { Reads any PropertyValue self.old result self.new }
    {
        match self.mark(b'=') {
            Ok(()) => self.initial_and_held(alloc),
            Err(stop) => Err(stop),
        }
    }

    /// What stands behind `.property`.
    fn property(&mut self, alloc: Global) -> Result<PropertyParts, Stop>
        ensures { Reads any PropertyTail self.old result self.new }
    {
        let name = self.word(alloc)?;
        let (initial, stated) = self.property_value(alloc)?;
        Ok(PropertyParts {
            name,
            initial,
            stated,
        })
    }

    /// A constant, a property or a method.
    pub(crate) fn member(&mut self, alloc: Global) -> Result<Member, Stop>
        ensures { Reads any AMemberOf self.old result self.new }
    {
        if self.is_directive(b"const") {
            self.skip();
            return match self.constant(alloc) {
                Ok(constant) => Ok(Member::Const(constant)),
                Err(stop) => Err(stop),
            };
        }
        if self.is_directive(b"property") {
            self.skip();
            return match self.property(alloc) {
                Ok(property) => Ok(Member::Property(property)),
                Err(stop) => Err(stop),
            };
        }
        if self.is_directive(b"method") {
            self.skip();
            return match self.body(alloc) {
                Ok(method) => Ok(Member::Method(method)),
                Err(stop) => Err(stop),
            };
        }
        Err(Stop::Syntax)
    }
}
