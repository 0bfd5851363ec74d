//! The type of what reading along keys finds.

ghost use Rattle.std.specs.Prelude.{◌≡◌, ◌<◌, ◌∷◌, List, ℕ, length};
ghost use Rattle.hhbc_repo.specs.LookUps.{all_properties, total};
ghost use Rattle.class_index.specs.Leaves as leaves;
ghost use Rattle.class_index.specs.Named.{key_names, fact};
ghost use Rattle.class_index.specs.Reached.{gathered};
ghost use Rattle.class_index.specs.Reading as reading;

use crate::facts::Facts;
use crate::keys::TypeKey;
use crate::leaves::{has_int, has_key, type_of};
use crate::named::{count_borne, is_reached, property_borne};
use hhbc_repo::Repo;
use type_lattice::{ClassTree, HType, Leaf, ObjPart, join};

fn held(fits: bool, part: &Option<Leaf>) -> HType
    ensures { result ≡ reading.held leaves.type_of fits part.now }
{
    match part {
        Some(leaf) if fits => type_of(leaf),
        _ => HType::NEVER,
    }
}

fn held_values(fits: bool, part: &Option<(Leaf, Leaf)>) -> HType
    ensures { result ≡ reading.held reading.value_of fits part.now }
{
    match part {
        Some((_, value)) if fits => type_of(value),
        _ => HType::NEVER,
    }
}

fn element_type(t: &HType, key: &HType, tree: &ClassTree) -> HType
    ensures { result ≡ reading.element_type tree.now t.now key.now }
{
    let elements = held(has_int(key), &t.vec);
    let values = held_values(has_key(key), &t.dict);
    let keys = held(has_key(key), &t.keyset);
    join(&elements, &join(&values, &keys, tree), tree)
}

/// What a property holds.
pub(crate) fn fact_of(facts: &Facts, property: u32) -> HType
    requires { property < length facts.now.props }
    ensures { result ≡ fact facts.now.props property }
{
    facts.property_fact(property)
}

/// What is joined so far, with what one more property holds, if objects of the part have it.
fn with_property(
    all: HType,
    repo: &Repo,
    facts: &Facts,
    part: ObjPart,
    key: &TypeKey,
    property: u32,
) -> HType
    requires within { property < total (all_properties repo.now) }
    requires facts { length facts.now.props ≡ total (all_properties repo.now) }
    ensures { (rest : List ℕ) → gathered repo.now facts.now.props part (key_names key.now) result rest ≡ gathered repo.now facts.now.props part (key_names key.now) all (property ∷ rest) }
{
    repo.is_sound();
    if is_reached(repo, key, part, property) {
        join(&all, &fact_of(facts, property), repo.tree())
    } else {
        all
    }
}

/// The type of what the properties hold that the key gives in a part.
fn property_type(repo: &Repo, facts: &Facts, part: ObjPart, key: &TypeKey) -> HType
    requires { length facts.now.props ≡ total (all_properties repo.now) }
    ensures { result ≡ reading.property_type repo.now facts.now.props part (key_names key.now) }
{
    repo.is_sound();
    let mut all = HType::NEVER;
    for at in 0..count_borne(repo, key) {
        all = with_property(all, repo, facts, part, key, property_borne(repo, key, at));
    }
    all
}

/// The type of what one step of reading finds. A null-safe key finds Null at Null.
fn step_type(repo: &Repo, facts: &Facts, t: &HType, key: &TypeKey) -> HType
    requires { length facts.now.props ≡ total (all_properties repo.now) }
    ensures { result ≡ reading.step_type repo.now facts.now.props t.now key.now }
{
    match key {
        TypeKey::Elem(element) => element_type(t, element, repo.tree()),
        TypeKey::Prop(_) | TypeKey::PropName(_) => property_type(repo, facts, t.obj, key),
        TypeKey::Nullsafe(_) => {
            let found = property_type(repo, facts, t.obj, key);
            let null = HType {
                null: t.null,
                ..HType::NEVER
            };
            join(&found, &null, repo.tree())
        }
        TypeKey::Append => HType::NEVER,
    }
}

/// The type of what reading along the keys finds. No key is `Append`.
pub fn path_type(repo: &Repo, facts: &Facts, base: &HType, keys: &[TypeKey]) -> HType
    requires { length facts.now.props ≡ total (all_properties repo.now) }
    ensures { result ≡ reading.path_type repo.now facts.now.props base.now keys.now }
{
    let mut t = *base;
    for key in keys {
        t = step_type(repo, facts, &t, key);
    }
    t
}
