//! The positions of a body, with numbers for the names in them.

ghost use Rattle.std.specs.Prelude.{map};
ghost use Rattle.std.specs.List.{flat_map};
ghost use Rattle.hhbc_repo.specs.Checks.{Checks};
ghost use Rattle.hhbc_repo.specs.LinkFaults.{assert_faults, position_faults, position_in, positions_of};
ghost use Rattle.hhbc_repo.specs.Resolved.{resolved_assert, resolved_item, resolved_position};

use crate::body::{Assert, Position};
use crate::link_fault::LinkError;
use crate::parts::{AssertParts, ItemParts, PositionParts};
use crate::scope::Scope;
use hack_values::Seq;
use std::alloc::Global;

impl<'a> Scope<'a> {
    fn assertion(&self, alloc: Global, parts: &AssertParts) -> Result<Assert, LinkError>
        ensures { Checks (assert_faults self.now parts.now) (resolved_assert self.now.whole self.now.body parts.now) result }
    {
        match parts {
            AssertParts::Local(name, parts) => match self.local(alloc, name.bytes()) {
                Ok(number) => match self.linked_type(alloc, parts) {
                    Ok(linked) => Ok(Assert::Local(number, linked)),
                    Err(error) => Err(error),
                },
                Err(error) => Err(error),
            },
            AssertParts::Stack(depth, parts) => match self.linked_type(alloc, parts) {
                Ok(linked) => Ok(Assert::Stack(*depth, linked)),
                Err(error) => Err(error),
            },
        }
    }

    fn assertions(&self, alloc: Global, asserts: &[AssertParts]) -> Result<Seq<Assert>, LinkError>
        ensures { Checks (flat_map (assert_faults self.now) asserts.now) (map (resolved_assert self.now.whole self.now.body) asserts.now) result }
    {
        let mut linked = Seq::new(alloc);
        for parts in asserts {
            match self.assertion(alloc, parts) {
                Ok(assertion) => linked.push(assertion)?,
                Err(error) => return Err(error),
            }
        }
        Ok(linked)
    }

    fn position(&self, alloc: Global, parts: &PositionParts) -> Result<Position, LinkError>
        ensures { Checks (position_faults self.now parts.now) (resolved_position self.now.whole self.now.body parts.now) result }
    {
        match self.assertions(alloc, parts.asserts.as_slice()) {
            Ok(asserts) => match self.code(alloc, &parts.code) {
                Ok(code) => Ok(Position { asserts, code }),
                Err(error) => Err(error),
            },
            Err(error) => Err(error),
        }
    }

    fn positions_among(
        &self,
        alloc: Global,
        items: &[ItemParts],
    ) -> Result<Seq<Position>, LinkError>
        ensures { Checks (flat_map (position_faults self.now) (flat_map position_in items.now)) (flat_map (resolved_item self.now.whole self.now.body) items.now) result }
    {
        let mut linked = Seq::new(alloc);
        for item in items {
            if let ItemParts::Position(parts) = item {
                match self.position(alloc, parts) {
                    Ok(position) => linked.push(position)?,
                    Err(error) => return Err(error),
                }
            }
        }
        Ok(linked)
    }

    /// The positions of the body.
    pub(crate) fn positions(&self, alloc: Global) -> Result<Seq<Position>, LinkError>
        ensures { Checks (flat_map (position_faults self.now) (positions_of self.now.body)) (flat_map (resolved_item self.now.whole self.now.body) self.now.body.items) result }
    {
        self.positions_among(alloc, self.items())
    }
}
