//! Stated types and assertions that are replaced, one at a time.

ghost use Rattle.std.specs.Prelude.{◌≡◌};
ghost use Rattle.hhbc_repo.specs.Claims.{changed, claiming, holding};
ghost use Rattle.hhbc_repo.specs.ChangedClaims.{claimed};

use crate::body::{Assert, Body, Position};
use crate::repo::{Class, Property};
use hack_values::Seq;
use type_lattice::HType;

/// What a body is to claim: the type of what it returns, or the assertions of a position.
#[derive(Drop)]
pub(crate) enum Claim {
    Returns(Option<HType>),
    Asserts(u32, Seq<Assert>),
}

/// Gives a position its assertions.
fn claim_position(positions: &mut Seq<Position>, at: u32, asserts: Seq<Assert>)
    ensures { positions.new ≡ changed (claiming asserts) at positions.old }
{
    match positions.get_mut(at as usize) {
        Some(position) => position.asserts = asserts,
        None => {}
    }
}

/// Gives a body what it claims.
fn give_claim(body: &mut Body, claim: Claim)
    ensures { body.new ≡ claimed claim body.old }
{
    match claim {
        Claim::Returns(stated) => body.stated = stated,
        Claim::Asserts(at, asserts) => claim_position(&mut body.positions, at, asserts),
    }
}

/// Gives the body at a place what it claims.
pub(crate) fn claim_body(bodies: &mut Seq<Body>, at: u32, new: Claim)
    ensures { bodies.new ≡ changed (claimed new) at bodies.old }
{
    match bodies.get_mut(at as usize) {
        Some(body) => give_claim(body, new),
        None => {}
    }
}

/// Gives a method of a class what it claims.
pub(crate) fn claim_method(classes: &mut Seq<Class>, class: u32, at: u32, new: Claim)
    ensures { classes.new ≡ changed (λ c. record c { methods = changed (claimed new) at c.methods }) class classes.old }
{
    match classes.get_mut(class as usize) {
        Some(class) => claim_body(&mut class.methods, at, new),
        None => {}
    }
}

/// Gives a property the type that is stated of it.
fn hold(properties: &mut Seq<Property>, at: u32, stated: Option<HType>)
    ensures { properties.new ≡ changed (holding stated) at properties.old }
{
    match properties.get_mut(at as usize) {
        Some(property) => property.stated = stated,
        None => {}
    }
}

/// Gives a property of a class the type that is stated of it.
pub(crate) fn hold_property(classes: &mut Seq<Class>, class: u32, at: u32, stated: Option<HType>)
    ensures { classes.new ≡ changed (λ c. record c { props = changed (holding stated) at c.props }) class classes.old }
{
    match classes.get_mut(class as usize) {
        Some(class) => hold(&mut class.props, at, stated),
        None => {}
    }
}
