//! Positions: a code, and the assertions before it.

ghost use Rattle.std.specs.Prelude.{◌≡◌};
ghost use Rattle.hhas_lex.specs.Tokens.{Word};
ghost use Rattle.hhbc_ops.specs.Ops.{op_name};
ghost use Rattle.hhbc_repo.specs.BodySyntax.{AnAssert, APosition};
ghost use Rattle.hhas_read.specs.Assertions.{IsAssertionNext, LocalAssertion, StackAssertion};
ghost use Rattle.hhas_read.specs.Reading.{Reads, next};
ghost use Rattle.hhas_read.specs.Written.{ends_type};

use crate::reader::{Reader, Stop};
use hack_values::Seq;
use hhbc_ops::Op;
use hhbc_repo::{AssertParts, CodeParts, PositionParts};
use std::alloc::Global;

impl<'a> Reader<'a> {
    /// What stands behind `AssertRATL`: a local, and its type.
    fn local_assertion(&mut self, alloc: Global) -> Result<AssertParts, Stop>
        ensures { Reads ends_type LocalAssertion self.old result self.new }
    {
        let name = self.local(alloc)?;
        let stated = self.type_parts(alloc)?;
        Ok(AssertParts::Local(name, stated))
    }

    /// What stands behind `AssertRATStk`: how far below the top of the stack the slot is, and its type.
    fn stack_assertion(&mut self, alloc: Global) -> Result<AssertParts, Stop>
        ensures { Reads ends_type StackAssertion self.old result self.new }
    {
        let depth = self.index()?;
        let stated = self.type_parts(alloc)?;
        Ok(AssertParts::Stack(depth, stated))
    }

    /// An assertion, of a local or of a slot of the stack.
    pub fn assertion(&mut self, alloc: Global) -> Result<AssertParts, Stop>
        ensures { Reads ends_type AnAssert self.old result self.new }
    {
        if self.is_word(b"AssertRATL") {
            self.skip();
            return self.local_assertion(alloc);
        }
        if self.is_word(b"AssertRATStk") {
            self.skip();
            return self.stack_assertion(alloc);
        }
        Err(Stop::Syntax)
    }

    /// Whether an assertion begins here.
    fn is_assertion_next(&self) -> bool
        ensures { IsAssertionNext self.now result }
    {
        self.is_word(b"AssertRATL") || self.is_word(b"AssertRATStk")
    }

    /// A position without assertions, of an instruction that was looked up by its name, which is next.
    pub(crate) fn named_position(&mut self, alloc: Global, op: Op) -> Result<PositionParts, Stop>
        requires { next self.old ≡ Word (op_name op) }
        ensures { Reads ends_type APosition self.old result self.new }
    {
        match self.named_instruction(alloc, op) {
            Ok(instruction) => Ok(PositionParts {
                asserts: Seq::new(alloc),
                code: CodeParts::Plain(instruction),
            }),
            Err(stop) => Err(stop),
        }
    }

    /// Assertions, perhaps none, and the code that they stand before.
    #[inline(never)]
    pub fn position(&mut self, alloc: Global) -> Result<PositionParts, Stop>
        ensures { Reads ends_type APosition self.old result self.new }
    {
        let mut asserts = Seq::new(alloc);
        while self.is_assertion_next() {
            let assertion = self.assertion(alloc)?;
            asserts.push(assertion)?;
        }
        let code = self.code(alloc)?;
        Ok(PositionParts { asserts, code })
    }
}
