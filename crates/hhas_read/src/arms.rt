//! The arms of switches.

ghost use Rattle.std.specs.Prelude.{◌≡◌, true, [], ◌∷◌};
ghost use Rattle.hhas_lex.specs.Spelling.{is_proper};
ghost use Rattle.hhas_lex.specs.Tokens.{Mark};
ghost use Rattle.hhbc_repo.specs.CodeSyntax.{ALabel, AnArm, AStringArm};
ghost use Rattle.hhbc_repo.specs.Languages.{Behind, Ended};
ghost use Rattle.hhas_read.specs.Arms.{ArmsToEnd, StringArmsToEnd, TargetTo};
ghost use Rattle.hhas_read.specs.Reading.{Reads, any};

use crate::reader::{Reader, Stop};
use hack_values::{Seq, Text};
use hhbc_repo::ArmParts;
use std::alloc::Global;

impl<'a> Reader<'a> {
    /// An arm of a switch on ints.
    fn arm(&mut self, alloc: Global) -> Result<ArmParts, Stop>
        ensures { Reads any AnArm self.old result self.new }
    {
        match self.label(alloc) {
            Ok(target) => Ok(ArmParts { text: None, target }),
            Err(stop) => Err(stop),
        }
    }

    /// Arms without strings, and the mark at their end.
    fn arms_to_end(&mut self, alloc: Global) -> Result<Seq<ArmParts>, Stop>
        ensures { Reads any ArmsToEnd self.old result self.new }
    {
        let mut arms = Seq::new(alloc);
        loop {
            let arm = self.arm(alloc)?;
            arms.push(arm)?;
            if self.is_mark(b'>') {
                self.skip();
                return Ok(arms);
            }
        }
    }

    /// Labels in angle brackets, one or more: the arms of a switch on ints.
    #[inline(never)]
    pub fn arms(&mut self, alloc: Global) -> Result<Seq<ArmParts>, Stop>
        ensures { Reads any (Behind (Mark 60 ∷ []) ArmsToEnd) self.old result self.new }
    {
        if !self.is_mark(b'<') {
            return Err(Stop::Syntax);
        }
        self.skip();
        self.arms_to_end(alloc)
    }

    /// A label, and the mark behind it.
    pub fn label_to(&mut self, alloc: Global, end: u8) -> Result<Text, Stop>
        requires { is_proper (Mark end) ≡ true }
        ensures { Reads any (Ended ALabel (Mark end ∷ [])) self.old result self.new }
    {
        match self.label(alloc) {
            Ok(label) => {
                if !self.is_mark(end) {
                    return Err(Stop::Syntax);
                }
                self.skip();
                Ok(label)
            }
            Err(stop) => Err(stop),
        }
    }

    /// A colon, a label and the mark behind it.
    fn target_to(&mut self, alloc: Global, end: u8) -> Result<Text, Stop>
        requires { is_proper (Mark end) ≡ true }
        ensures { Reads any (TargetTo end) self.old result self.new }
    {
        if !self.is_mark(b':') {
            return Err(Stop::Syntax);
        }
        self.skip();
        self.label_to(alloc, end)
    }

    /// An arm of a switch on strings.
    fn string_arm(&mut self, alloc: Global) -> Result<ArmParts, Stop>
        ensures { Reads any AStringArm self.old result self.new }
    {
        let text = self.string(alloc)?;
        let target = self.target_to(alloc, b',')?;
        Ok(ArmParts {
            text: Some(text),
            target,
        })
    }

    /// Arms with strings, perhaps none, the default and the mark at their end.
    fn string_arms_to_end(&mut self, alloc: Global) -> Result<Seq<ArmParts>, Stop>
        ensures { Reads any StringArmsToEnd self.old result self.new }
    {
        let mut arms = Seq::new(alloc);
        while !self.is_word(b"default") {
            let arm = self.string_arm(alloc)?;
            arms.push(arm)?;
        }
        self.skip();
        let target = self.target_to(alloc, b'>')?;
        arms.push(ArmParts { text: None, target })?;
        Ok(arms)
    }

    /// Arms with strings and the default, in angle brackets: the arms of a switch on strings.
    #[inline(never)]
    pub fn string_arms(&mut self, alloc: Global) -> Result<Seq<ArmParts>, Stop>
        ensures { Reads any (Behind (Mark 60 ∷ []) StringArmsToEnd) self.old result self.new }
    {
        if !self.is_mark(b'<') {
            return Err(Stop::Syntax);
        }
        self.skip();
        self.string_arms_to_end(alloc)
    }
}
