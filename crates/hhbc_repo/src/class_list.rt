//! All classes by number, the built-in ones first.

ghost use Rattle.std.specs.Prelude.{◌≡◌, ◌<◌, ◌^◌, [], ◌∷◌, ◌++◌, OnOk, IfOk, length};
ghost use Rattle.type_lattice.specs.Classes.{Forest};
ghost use Rattle.hhbc_repo.specs.Bodies.{built_in_names, built_in_tree};
ghost use Rattle.hhbc_repo.specs.LookUps.{names_of_classes, parents_of_classes};

use crate::repo::Class;
use hack_values::{NoMemory, Seq, Text};
use std::alloc::Global;
use type_lattice::ClassTree;

/// Puts a name at the end.
pub(crate) fn push_name(names: &mut Seq<Text>, alloc: Global, name: &[u8]) -> Result<(), NoMemory>
    ensures { OnOk result (names.new ≡ names.old ++ name.now ∷ []) }
{
    names.push(Text::from_bytes(alloc, name)?)
}

/// The names of the built-in classes.
pub(crate) fn built_in_list(alloc: Global) -> Result<Seq<Text>, NoMemory>
    ensures { IfOk result (λ names. names ≡ built_in_names) }
{
    let mut names = Seq::new(alloc);
    push_name(&mut names, alloc, b"Exception")?;
    push_name(&mut names, alloc, b"OutOfBoundsException")?;
    push_name(&mut names, alloc, b"InvalidOperationException")?;
    push_name(&mut names, alloc, b"UndefinedVariableException")?;
    push_name(&mut names, alloc, b"DivisionByZeroException")?;
    push_name(&mut names, alloc, b"TypehintViolationException")?;
    Ok(names)
}

/// The names of all classes.
pub(crate) fn list_of_classes(alloc: Global, classes: &[Class]) -> Result<Seq<Text>, NoMemory>
    ensures { IfOk result (λ names. names ≡ built_in_names ++ names_of_classes classes.now) }
{
    let mut names = built_in_list(alloc)?;
    for class in classes {
        push_name(&mut names, alloc, class.name.bytes())?;
    }
    Ok(names)
}

/// The parents of the built-in classes.
pub(crate) fn built_in_parents(alloc: Global) -> Result<Seq<Option<u32>>, NoMemory>
    ensures { IfOk result (λ parents. parents ≡ built_in_tree) }
{
    let mut parents = Seq::new(alloc);
    parents.push(None)?;
    for _ in 0..5_usize {
        parents.push(Some(0))?;
    }
    Ok(parents)
}

/// The parents of all classes.
fn parents(alloc: Global, classes: &[Class]) -> Result<Seq<Option<u32>>, NoMemory>
    ensures { IfOk result (λ all. all ≡ built_in_tree ++ parents_of_classes classes.now) }
{
    let mut all = built_in_parents(alloc)?;
    for class in classes {
        all.push(class.parent)?;
    }
    Ok(all)
}

/// The tree of all classes.
pub(crate) fn tree_of_classes(alloc: Global, classes: &[Class]) -> Result<ClassTree, NoMemory>
    requires forest { Forest (built_in_tree ++ parents_of_classes classes.now) }
    requires fits { length (built_in_tree ++ parents_of_classes classes.now) < 2 ^ 32 }
    ensures { IfOk result (λ tree. tree ≡ built_in_tree ++ parents_of_classes classes.now) }
{
    match ClassTree::new(parents(alloc, classes)?) {
        Some(tree) => Ok(tree),
        None => unreachable!(),
    }
}
