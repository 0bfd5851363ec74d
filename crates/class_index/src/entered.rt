//! The bodies that a call of a method may enter.

ghost use Rattle.std.specs.Prelude.{◌≡◌, ◌<◌, ◌++◌, OnOk, IfOk, length, filter};
ghost use Rattle.hhbc_repo.specs.Bodies.{bodies, body_at, tree_of};
ghost use Rattle.hhbc_repo.specs.LookUps.{method_of};
ghost use Rattle.class_index.specs.Named as named;
ghost use Rattle.class_index.specs.Reached as reached;

use crate::named::is_number;
use hack_values::{NoMemory, Seq};
use hhbc_repo::Repo;
use std::alloc::Global;
use type_lattice::ObjPart;

fn class_calls(repo: &Repo, class: u32, name: &[u8], body: u32) -> bool
    ensures { result ≡ named.is_number (method_of repo.now class name.now) body }
{
    is_number(repo.method_of(class, name), body)
}

/// Whether some object of the part has this body of the name as its method.
fn is_entered(repo: &Repo, receiver: ObjPart, name: &[u8], body: u32) -> bool
    requires { body < length (bodies repo.now) }
    ensures { result ≡ reached.is_entered repo.now receiver name.now body }
{
    match (repo.class_of(body), receiver) {
        (None, _) | (_, ObjPart::No) => false,
        (Some(_), ObjPart::Exact(class)) => class_calls(repo, class, name, body),
        (Some(owner), ObjPart::Sub(class)) => {
            repo.tree().below(owner, class) || class_calls(repo, class, name, body)
        }
        (Some(_), ObjPart::Any) => true,
    }
}

fn takes(repo: &Repo, body: u32, count: u8) -> bool
    requires { body < length (bodies repo.now) }
    ensures { result ≡ named.takes (body_at repo.now body) count }
{
    repo.body(body).params == count
}

/// The bodies that a call of the name with so many arguments may enter, where the receiver is an object of the part,
/// ascending, each once. It looks at the methods of that name alone.
pub fn targets(
    alloc: Global,
    repo: &Repo,
    receiver: ObjPart,
    name: &[u8],
    count: u8,
) -> Result<Seq<u32>, NoMemory>
    ensures { IfOk result (λ bodies. bodies ≡ named.targets repo.now receiver name.now count) }
{
    repo.is_sound();
    let mut entered = Seq::new(alloc);
    for body in repo.methods_named(name) {
        if is_entered(repo, receiver, name, *body) && takes(repo, *body, count) {
            entered.push(*body)?;
        }
    }
    Ok(entered)
}
