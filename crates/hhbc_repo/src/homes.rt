//! Where each body stands.

ghost use Rattle.std.specs.Prelude.{◌≡◌, ◌<◌, ◌≤◌, ◌-◌, ◌^◌, ◌+◌, [], ◌∷◌, ◌++◌, OnOk, IfOk, Some, length, slice_get};
ghost use Rattle.hhbc_repo.specs.Homes.{IsDeclared, bodies_in, homes_at, homes_of, methods_of};
ghost use Rattle.hhbc_repo.specs.LookUps.{methods_in};

use crate::body::Body;
use crate::repo::Class;
use hack_values::{NoMemory, Seq};
use std::alloc::Global;

/// The class that a body is a method of, and its place there; a function's place is among the functions.
#[derive(Clone, Copy)]
pub(crate) struct Home {
    pub(crate) class: Option<u32>,
    pub(crate) place: u32,
}

/// Adds the bodies of one class, or the functions.
fn push_homes(homes: &mut Seq<Home>, class: Option<u32>, bodies: &[Body]) -> Result<(), NoMemory>
    requires { length bodies.now < 2 ^ 32 }
    ensures { OnOk result (homes.new ≡ homes.old ++ homes_at class 0 bodies.now) }
{
    let mut place = 0;
    for _body in bodies {
        homes.push(Home { class, place })?;
        place += 1;
    }
    Ok(())
}

/// The homes of all bodies, by number.
pub(crate) fn homes(
    alloc: Global,
    functions: &[Body],
    classes: &[Class],
) -> Result<Seq<Home>, NoMemory>
    requires bodies { length (functions.now ++ methods_in classes.now) < 2 ^ 32 }
    requires classes { 6 + length classes.now < 2 ^ 32 }
    ensures { IfOk result (λ all. all ≡ homes_of functions.now classes.now) }
{
    let mut all = Seq::new(alloc);
    push_homes(&mut all, None, functions)?;
    let mut number = 6;
    for class in classes {
        push_homes(&mut all, Some(number), class.methods.as_slice())?;
        number += 1;
    }
    Ok(all)
}

/// The methods of a declared class.
fn methods_at(classes: &[Class], class: u32) -> &[Body]
    requires declared { 6 ≤ class }
    requires within { class - 6 < length classes.now }
    ensures { result.now ≡ methods_of (slice_get classes.now (class - 6)) }
{
    classes[class as usize - 6].methods.as_slice()
}

/// The functions, or the methods of a declared class.
fn bodies_at<'a>(functions: &'a [Body], classes: &'a [Class], class: Option<u32>) -> &'a [Body]
    requires declared { IsDeclared class }
    requires any { 0 < length (bodies_in functions.now classes.now class) }
    ensures { result.now ≡ bodies_in functions.now classes.now class }
{
    match class {
        None => functions,
        Some(class) => methods_at(classes, class),
    }
}

/// The body that stands there.
pub(crate) fn body_at<'a>(functions: &'a [Body], classes: &'a [Class], home: Home) -> &'a Body
    requires declared { IsDeclared home.class }
    requires within { home.place < length (bodies_in functions.now classes.now home.class) }
    ensures { slice_get (bodies_in functions.now classes.now home.class) home.place ≡ Some result.now }
{
    &bodies_at(functions, classes, home.class)[home.place as usize]
}
