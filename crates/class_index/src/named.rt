//! What the names of keys give in the classes of an obj part.

ghost use Rattle.std.specs.Prelude.{◌≡◌, ◌<◌, Some, length, slice_get};
ghost use Rattle.hhbc_repo.specs.Bodies.{tree_of};
ghost use Rattle.hhbc_repo.specs.LookUps.{all_properties, total};
ghost use Rattle.class_index.specs.Named as named;
ghost use Rattle.class_index.specs.Named.{key_names};
ghost use Rattle.class_index.specs.Reached as reached;

use crate::keys::TypeKey;
use hhbc_repo::Repo;
use type_lattice::{ObjPart, StrPart};

pub(crate) fn is_number(found: Option<u32>, number: u32) -> bool
    ensures { result ≡ named.is_number found number }
{
    match found {
        None => false,
        Some(other) => other == number,
    }
}

/// How many properties bear a name that the key may have.
pub(crate) fn count_borne(repo: &Repo, key: &TypeKey) -> usize
    ensures { result ≡ length (reached.borne repo.now (key_names key.now)) }
{
    match key {
        TypeKey::Prop(t) => match &t.str {
            StrPart::No => 0,
            StrPart::One(name) => repo.properties_named(name.as_bytes()).len(),
            StrPart::Any => repo.properties() as usize,
        },
        TypeKey::PropName(name) | TypeKey::Nullsafe(name) => {
            repo.properties_named(name.bytes()).len()
        }
        TypeKey::Elem(_) | TypeKey::Append => 0,
    }
}

fn number_at(numbers: &[u32], at: usize) -> u32
    requires { at < length numbers.now }
    ensures { slice_get numbers.now at ≡ Some result }
{
    numbers[at]
}

fn property_at(repo: &Repo, key: &TypeKey, at: usize) -> u32
    requires { at < length (reached.borne repo.now (key_names key.now)) }
    ensures { slice_get (reached.borne repo.now (key_names key.now)) at ≡ Some result }
{
    repo.is_sound();
    match key {
        TypeKey::Prop(t) => match &t.str {
            StrPart::No => 0,
            StrPart::One(name) => number_at(repo.properties_named(name.as_bytes()), at),
            StrPart::Any => at as u32,
        },
        TypeKey::PropName(name) | TypeKey::Nullsafe(name) => {
            number_at(repo.properties_named(name.bytes()), at)
        }
        TypeKey::Elem(_) | TypeKey::Append => 0,
    }
}

/// One of them.
#[tactic(auto, using(crate::proofs::Candidates::borne_within))]
pub(crate) fn property_borne(repo: &Repo, key: &TypeKey, at: usize) -> u32
    requires { at < length (reached.borne repo.now (key_names key.now)) }
    ensures value { slice_get (reached.borne repo.now (key_names key.now)) at ≡ Some result }
    ensures within { result < total (all_properties repo.now) }
{
    property_at(repo, key, at)
}

/// Whether the key gives a property in objects of a class.
fn class_gives(repo: &Repo, key: &TypeKey, class: u32, property: u32) -> bool
    requires { property < total (all_properties repo.now) }
    ensures { result ≡ named.gives repo.now (key_names key.now) property class }
{
    repo.is_sound();
    match key {
        TypeKey::Prop(t) => match &t.str {
            StrPart::No => false,
            StrPart::One(name) => is_number(repo.property_of(class, name.as_bytes()), property),
            StrPart::Any => repo.tree().below(class, repo.owner_of(property)),
        },
        TypeKey::PropName(name) | TypeKey::Nullsafe(name) => {
            is_number(repo.property_of(class, name.bytes()), property)
        }
        TypeKey::Elem(_) | TypeKey::Append => false,
    }
}

/// Whether the key gives a property, whose name it may have, in objects of a part.
pub(crate) fn is_reached(repo: &Repo, key: &TypeKey, part: ObjPart, property: u32) -> bool
    requires { property < total (all_properties repo.now) }
    ensures { result ≡ reached.is_reached repo.now part (key_names key.now) property }
{
    match part {
        ObjPart::No => false,
        ObjPart::Exact(class) => class_gives(repo, key, class, property),
        ObjPart::Sub(class) => {
            repo.tree().below(repo.owner_of(property), class)
                || class_gives(repo, key, class, property)
        }
        ObjPart::Any => true,
    }
}
