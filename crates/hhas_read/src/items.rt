//! The items of bodies.

ghost use Rattle.std.specs.Prelude.{◌≡◌, true, [], ◌∷◌};
ghost use Rattle.hhas_lex.specs.Spelling.{is_proper};
ghost use Rattle.hhas_lex.specs.Tokens.{Directive, Mark};
ghost use Rattle.hhbc_repo.specs.BodySyntax.{AnItemList};
ghost use Rattle.hhbc_repo.specs.Languages.{Ended};
ghost use Rattle.hhas_read.specs.Nesting.{CatchOpening, Opening};
ghost use Rattle.hhas_read.specs.Reading.{Reads, any};

use crate::labels::is_other_name;
use crate::open_bodies::{OpenBodies, OpenBody};
use crate::reader::{Piece, Reader, Stop};
use hack_values::Seq;
use hhbc_ops::op_named;
use hhbc_repo::ItemParts;
use std::alloc::Global;

impl<'a> Reader<'a> {
    /// The directive of this name, without its dot, and an opening brace.
    fn opening(&mut self, name: &[u8]) -> Result<(), Stop>
        requires { is_proper (Directive name.now) ≡ true }
        ensures { Reads any (Opening name.now) self.old result self.new }
    {
        match self.directive(name) {
            Ok(()) => self.mark(b'{'),
            Err(stop) => Err(stop),
        }
    }

    /// The brace that closes a try body, and the opening of its catch body.
    fn catch_opening(&mut self) -> Result<(), Stop>
        ensures { Reads any CatchOpening self.old result self.new }
    {
        match self.mark(b'}') {
            Ok(()) => self.opening(b"catch"),
            Err(stop) => Err(stop),
        }
    }

    /// The items of a body, and its closing brace. Bodies may be nested as deeply as there is memory for.
    pub fn items_to_end(&mut self, alloc: Global) -> Result<Seq<ItemParts>, Stop>
        ensures { Reads any (Ended AnItemList (Mark 125 ∷ [])) self.old result self.new }
    {
        let mut items = Seq::new(alloc);
        let mut opened = OpenBodies::new(alloc);
        let mut needs_code = false;
        'items: loop {
            if let Piece::Word(name) = self.peek() {
                if let Some(op) = op_named(name) {
                    let position = self.named_position(alloc, op)?;
                    items.push(ItemParts::Position(position))?;
                    needs_code = false;
                    continue 'items;
                }
                if is_other_name(name) {
                    let position = self.position(alloc)?;
                    items.push(ItemParts::Position(position))?;
                    needs_code = false;
                    continue 'items;
                }
                let label = self.label_to(alloc, b':')?;
                items.push(ItemParts::Label(label))?;
                continue 'items;
            }
            if self.is_directive(b"try") {
                self.opening(b"try")?;
                opened.push(OpenBody::Try)?;
                items.push(ItemParts::Try)?;
                needs_code = true;
                continue 'items;
            }
            if needs_code {
                return Err(Stop::Syntax);
            }
            match opened.pop() {
                None => {
                    self.mark(b'}')?;
                    return Ok(items);
                }
                Some(OpenBody::Try) => {
                    self.catch_opening()?;
                    opened.push(OpenBody::Catch)?;
                    items.push(ItemParts::Catch)?;
                    needs_code = true;
                    continue 'items;
                }
                Some(OpenBody::Catch) => {
                    self.mark(b'}')?;
                    items.push(ItemParts::End)?;
                    continue 'items;
                }
            }
        }
    }
}
