//! The bodies that are open.

ghost use Rattle.std.specs.Prelude.{◌≡◌, [], ◌∷◌, OnOk, MatchOption};

use hack_values::NoMemory;
use std::alloc::Global;
use std::marker::Model;

/// A body whose closing brace is still to come.
#[derive(Clone, Copy, PartialEq, Eq, Drop)]
pub enum OpenBody {
    Try,
    Catch,
}

/// The open bodies, seen from the innermost one.
#[derive(Drop)]
pub struct OpenBodies {
    bodies: Vec<OpenBody>,
}

impl Model for OpenBodies {
    ghost use Rattle.std.specs.Prelude.{List, reverse};
    ghost use Rattle.hhas_read.specs.declared.open_bodies.OpenBody.{OpenBody};

    ghost Value = { List OpenBody };

    ghost view = { λ s. reverse s.bodies.items };
}

impl OpenBodies {
    /// No body is open.
    pub fn new(alloc: Global) -> OpenBodies
        ensures { result ≡ [] }
    {
        OpenBodies {
            bodies: Vec::new(alloc),
        }
    }

    /// Opens a body within the innermost one.
    pub fn push(&mut self, body: OpenBody) -> Result<(), NoMemory>
        ensures { OnOk result (self.new ≡ body ∷ self.old) }
    {
        self.bodies.push(body)?;
        Ok(())
    }

    /// Closes the innermost body.
    pub fn pop(&mut self) -> Option<OpenBody>
        ensures { MatchOption result (self.old ≡ []) (λ body. self.old ≡ body ∷ self.new) }
    {
        self.bodies.pop()
    }
}
