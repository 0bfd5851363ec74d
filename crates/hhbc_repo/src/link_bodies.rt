//! Bodies are linked.

ghost use Rattle.std.specs.Prelude.{◌≡◌, ◌++◌, [], IfOk, length};
ghost use Rattle.std.specs.List.{flat_map};
ghost use Rattle.hhbc_repo.specs.declared.link_fault.LinkKind.TheVariants as kinds;
ghost use Rattle.hhbc_repo.specs.BodyLimits.{InLimits};
ghost use Rattle.hhbc_repo.specs.Checks.{Checks};
ghost use Rattle.hhbc_repo.specs.LinkFaults as faults;
ghost use Rattle.hhbc_repo.specs.LinkFaults.{Whole, as_it_is, body_faults, differ_from, dollar, labels_of, limit_faults, position_faults, positions_of, stated_faults};
ghost use Rattle.hhbc_repo.specs.Resolved.{regions_from, resolved_body, resolved_item};

use crate::body::{Body, Position};
use crate::distinct_names::{check_labels, check_locals};
use crate::known::Known;
use crate::limits::{MOST_ITERATORS, MOST_LOCALS, MOST_NESTING, MOST_POSITIONS};
use crate::link_counts::check_limit;
use crate::link_fault::LinkError;
use crate::nesting::{count_positions, nesting};
use crate::parts::BodyParts;
use crate::regions::regions;
use crate::scope::{Scope, local_names};
use hack_values::{NoMemory, Seq, Text};
use std::alloc::Global;
use type_lattice::HType;

fn count_locals(body: &BodyParts) -> usize
    ensures { result ≡ length (faults.locals_of body.now) }
{
    body.params.as_slice().len() + body.locals.as_slice().len()
}

/// A body is no larger than it may be.
fn check_limits(alloc: Global, body: &BodyParts, owner: &[u8]) -> Result<(), LinkError>
    ensures { (w : Whole) → Checks (limit_faults (record { whole = w; body = body.now; owner = owner.now })) tt result }
{
    let items = body.items.as_slice();
    if let Err(error) = check_limit(
        alloc,
        owner,
        MOST_LOCALS,
        count_locals(body) as u64,
        b"locals",
    ) {
        return Err(error);
    }
    if let Err(error) = check_limit(
        alloc,
        owner,
        MOST_ITERATORS,
        body.iters as u64,
        b"iterators",
    ) {
        return Err(error);
    }
    if let Err(error) = check_limit(
        alloc,
        owner,
        MOST_POSITIONS,
        count_positions(items) as u64,
        b"positions",
    ) {
        return Err(error);
    }
    check_limit(
        alloc,
        owner,
        MOST_NESTING,
        nesting(items) as u64,
        b"nesting",
    )
}

/// The body, of which what names stand for is known.
fn body_with(
    alloc: Global,
    body: &BodyParts,
    locals: Seq<Text>,
    stated: Option<HType>,
    positions: Seq<Position>,
) -> Result<Body, NoMemory>
    requires { InLimits body.now }
    ensures { IfOk result (λ b. b ≡ record {
      name = body.now.name;
      params = length body.now.params;
      locals = locals;
      iters = body.now.iters;
      stated = stated;
      positions = positions;
      regions = regions_from 0 body.now.items;
    }) }
{
    let name = body.name.copy(alloc)?;
    let regions = regions(alloc, body.items.as_slice())?;
    Ok(Body {
        name,
        params: body.params.as_slice().len() as u8,
        locals,
        iters: body.iters as u8,
        stated,
        positions,
        regions,
    })
}

fn linked_positions(
    alloc: Global,
    known: &Known,
    body: &BodyParts,
    owner: &[u8],
    locals: &[Text],
) -> Result<Seq<Position>, LinkError>
    requires limits { InLimits body.now }
    requires locals { locals.now ≡ faults.locals_of body.now }
    ensures { Checks (flat_map (position_faults (record { whole = known.now; body = body.now; owner = owner.now })) (positions_of body.now)) (flat_map (resolved_item known.now body.now) body.now.items) result }
{
    match Scope::new(alloc, known, body, owner, locals) {
        Ok(scope) => scope.positions(alloc),
        Err(_want) => Err(LinkError::NoMemory),
    }
}

fn linked_inside(
    alloc: Global,
    known: &Known,
    body: &BodyParts,
    owner: &[u8],
    locals: Seq<Text>,
) -> Result<Body, LinkError>
    requires limits { InLimits body.now }
    requires locals { locals ≡ faults.locals_of body.now }
    ensures { Checks (stated_faults known.now owner.now body.now.stated ++ flat_map (position_faults (record { whole = known.now; body = body.now; owner = owner.now })) (positions_of body.now)) (resolved_body known.now body.now) result }
{
    match known.listed().linked_stated(alloc, owner, &body.stated) {
        Ok(stated) => match linked_positions(alloc, known, body, owner, locals.as_slice()) {
            Ok(positions) => Ok(body_with(alloc, body, locals, stated, positions)?),
            Err(error) => Err(error),
        },
        Err(error) => Err(error),
    }
}

fn linked_in_limits(
    alloc: Global,
    known: &Known,
    body: &BodyParts,
    owner: &[u8],
) -> Result<Body, LinkError>
    requires { InLimits body.now }
    ensures { Checks (differ_from kinds.DuplicateName owner.now dollar [] (faults.locals_of body.now)
        ++ (differ_from kinds.DuplicateLabel owner.now as_it_is [] (labels_of body.now)
        ++ (stated_faults known.now owner.now body.now.stated
        ++ flat_map (position_faults (record { whole = known.now; body = body.now; owner = owner.now })) (positions_of body.now)))) (resolved_body known.now body.now) result }
{
    let locals = local_names(alloc, body)?;
    if let Err(error) = check_locals(alloc, owner, body.params.as_slice(), body.locals.as_slice()) {
        return Err(error);
    }
    if let Err(error) = check_labels(alloc, owner, body.items.as_slice()) {
        return Err(error);
    }
    linked_inside(alloc, known, body, owner, locals)
}

/// A body with its locals, labels and classes by number.
pub(crate) fn linked_body(
    alloc: Global,
    known: &Known,
    body: &BodyParts,
    owner: &[u8],
) -> Result<Body, LinkError>
    ensures { Checks (body_faults (record { whole = known.now; body = body.now; owner = owner.now })) (resolved_body known.now body.now) result }
{
    match check_limits(alloc, body, owner) {
        Ok(()) => linked_in_limits(alloc, known, body, owner),
        Err(error) => Err(error),
    }
}
