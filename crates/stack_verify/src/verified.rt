//! Repositories that keep to their shapes.

ghost use Rattle.std.specs.Prelude.{◌≡◌, ◌<◌, Some, length, MatchResult, slice_get};
ghost use Rattle.hhbc_repo.specs.declared.body.Body.{Body as BodyOf};
ghost use Rattle.hhbc_repo.specs.Bodies.{bodies, body_at};
ghost use Rattle.hhbc_repo.specs.Shapes.{Types, given};
ghost use Rattle.stack_verify.specs.Kept.{kept};
ghost use Rattle.stack_verify.specs.Verified.{IsRefused, IsTyped, StopsRepo, stopped_in};

use crate::shape::{RepoStop, Shape, ShapeFault, VerifyFault};
use crate::walk::{BodyStop, walk_over};
use hack_values::{NoMemory, Seq};
use hhbc_repo::Repo;
use std::alloc::Global;
use std::marker::Model;

/// A repository that keeps to its shapes, with them.
#[derive(Drop)]
pub struct Verified {
    repo: Repo,
    /// The shapes of the positions of each body.
    shapes: Seq<Seq<Shape>>,
}

impl Model for Verified {
    ghost use Rattle.hhbc_repo.specs.Linked.{Linked};
    ghost use Rattle.stack_verify.specs.Verified.{IsTyped};
    ghost use Rattle.std.specs.Coded.{codes};
    ghost use Rattle.hack_values.specs.Code.{coded_val, coded_key};

    ghost Value = { Linked };

    ghost coded = { Prim.hlevel (codes, coded_val, coded_key) };

    ghost view = { λ v. v.repo };

    ghost invariant = { λ v. IsTyped v.repo v.shapes };
}

/// The same stop, with the body where it comes.
fn stop_in(body: u32, stop: BodyStop) -> RepoStop
    ensures { result ≡ stopped_in body stop }
{
    match stop {
        BodyStop::Fails(position, kind) => RepoStop::Fails(ShapeFault {
            body,
            position,
            kind,
        }),
        BodyStop::NoMemory => RepoStop::NoMemory,
    }
}

/// The shapes of all bodies, or the first fault.
fn shapes_of(alloc: Global, repo: &Repo) -> Result<Seq<Seq<Shape>>, RepoStop>
    ensures { MatchResult result (λ all. IsTyped repo.now all) (λ stop. StopsRepo repo.now stop) }
{
    repo.is_sound();
    let mut all = Seq::new(alloc);
    for number in 0..repo.bodies() {
        match walk_over(alloc, repo.body(number)) {
            Ok(shapes) => all.push(shapes)?,
            Err(stop) => return Err(stop_in(number, stop)),
        }
    }
    Ok(all)
}

/// The shapes of a body.
fn table_in(shapes: &Seq<Seq<Shape>>, body: usize) -> &Seq<Shape>
    requires { body < length shapes.now }
    ensures { slice_get shapes.now body ≡ Some result.now }
{
    &shapes.as_slice()[body]
}

/// The shape of a position among those of a body.
fn shape_in(table: &Seq<Shape>, position: usize) -> &Shape
    requires { position < length table.now }
    ensures { slice_get table.now position ≡ Some result.now }
{
    &table.as_slice()[position]
}

/// Verifies a repository: it types exactly where no check of a position fails, each body has a
/// position, and so no run of it reaches below the stack or meets a slot or an iterator that it may not.
pub fn verify(alloc: Global, repo: Repo) -> Result<Verified, VerifyFault>
    ensures { MatchResult result (λ verified. (verified ≡ repo) × Types repo) (λ fault. IsRefused repo fault) }
{
    match shapes_of(alloc, &repo) {
        Ok(shapes) => Ok(Verified { repo, shapes }),
        Err(RepoStop::Fails(fault)) => Err(VerifyFault::Shape(fault, repo)),
        Err(RepoStop::NoMemory) => Err(VerifyFault::NoMemory),
    }
}

impl Verified {
    /// The repository, which types.
    pub fn repo(&self) -> &Repo
        ensures repo { result.now ≡ self.now }
        ensures types { Types self.now }
    {
        &self.repo
    }

    /// Takes the repository back out.
    pub fn into_repo(self) -> Repo
        ensures repo { result ≡ self }
        ensures types { Types self }
    {
        self.repo
    }

    /// The shape of a position, which each run has there whichever way it comes.
    pub fn shape(&self, body: u32, position: u32) -> &Shape
        requires body { body < length (bodies self.now) }
        requires position { (b : BodyOf) → body_at self.now body ≡ Some b → position < length b.positions }
        ensures { (b : BodyOf) → body_at self.now body ≡ Some b → result.now ≡ kept (given b position) }
    {
        let table = table_in(&self.shapes, body as usize);
        shape_in(table, position as usize)
    }
}
