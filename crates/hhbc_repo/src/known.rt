//! What is linked, with all that is found in it by name.

ghost use Rattle.std.specs.Prelude.{◌≡◌, ◌<◌, ◌+◌, ◌^◌, [], ◌∷◌, ◌++◌, IfOk, MatchOption, None, Some, codes, length, map, slice_get};
ghost use Rattle.type_lattice.specs.Classes.{chain};
ghost use Rattle.hhbc_repo.specs.Bodies.{built_in_tree};
ghost use Rattle.hhbc_repo.specs.LinkFaults as faults;
ghost use Rattle.hhbc_repo.specs.LinkFaults.{along, ancestors, at_class, constants, methods, names, properties, with_name};
ghost use Rattle.hhbc_repo.specs.Once.{constant_tables, property_tables};

use crate::class_chains::parent_in;
use crate::class_list::built_in_parents;
use crate::declared::{BodyTable, constant_names, property_names};
use crate::listed::Listed;
use crate::name_table::NameTable;
use crate::parts::{BodyParts, ClassParts};
use hack_values::{NoMemory, Seq};
use std::alloc::Global;
use std::marker::Model;

/// The functions and classes that are linked, with all that names find in them. Where a name stands
/// more than once, the first counts.
#[derive(Drop)]
pub(crate) struct Known<'a> {
    listed: Listed<'a>,
    tree: Seq<Option<u32>>,
    functions: BodyTable<'a>,
    of_constants: Seq<NameTable>,
    of_properties: Seq<NameTable>,
    of_methods: Seq<BodyTable<'a>>,
}

impl<'a> Model for Known<'a> {
    ghost use Rattle.std.specs.Coded.{codes};
    ghost use Rattle.hack_values.specs.Code.{coded_val, coded_key};
    ghost use Rattle.hhbc_repo.specs.LinkFaults.{Whole};
    ghost use Rattle.hhbc_repo.specs.Once.{Tabled};

    ghost Value = { Whole };

    ghost coded = { Prim.hlevel (codes, coded_val, coded_key) };

    ghost view = { λ k. k.listed };

    ghost invariant = { λ k. Tabled k.listed k.tree k.functions k.of_constants k.of_properties k.of_methods };
}

/// The parents of all classes.
fn all_parents(
    alloc: Global,
    listed: &Listed<'_>,
    classes: &[ClassParts],
) -> Result<Seq<Option<u32>>, NoMemory>
    ensures { IfOk result (λ all. all ≡ built_in_tree ++ map (λ c. faults.parent_in listed.now c.parent) classes.now) }
{
    let mut all = built_in_parents(alloc)?;
    for class in classes {
        all.push(listed.parent_of(&class.parent))?;
    }
    Ok(all)
}

/// The names that the built-in classes declare: Exception has some, and the others have none.
fn built_in_tables(alloc: Global, first: NameTable) -> Result<Seq<NameTable>, NoMemory>
    ensures { IfOk result (λ all. all ≡ first ∷ [] ∷ [] ∷ [] ∷ [] ∷ [] ∷ []) }
{
    let mut all = Seq::new(alloc);
    all.push(first)?;
    for _ in 0..5_usize {
        all.push(NameTable::new(alloc))?;
    }
    Ok(all)
}

/// The constants of all classes.
fn all_constants(alloc: Global, classes: &[ClassParts]) -> Result<Seq<NameTable>, NoMemory>
    ensures { IfOk result (λ all. all ≡ constant_tables classes.now) }
{
    let mut all = built_in_tables(alloc, NameTable::new(alloc))?;
    for class in classes {
        all.push(constant_names(alloc, class.consts.as_slice())?)?;
    }
    Ok(all)
}

/// The name of the property that Exception has.
fn message_table(alloc: Global) -> Result<NameTable, NoMemory>
    ensures { IfOk result (λ t. t ≡ codes "message" ∷ []) }
{
    let mut table = NameTable::new(alloc);
    table.add(alloc, b"message")?;
    Ok(table)
}

/// The properties of all classes.
fn all_properties(alloc: Global, classes: &[ClassParts]) -> Result<Seq<NameTable>, NoMemory>
    ensures { IfOk result (λ all. all ≡ property_tables classes.now) }
{
    let mut all = built_in_tables(alloc, message_table(alloc)?)?;
    for class in classes {
        all.push(property_names(alloc, class.props.as_slice())?)?;
    }
    Ok(all)
}

/// The methods of the built-in classes, which have none.
fn built_in_methods<'a>(alloc: Global) -> Result<Seq<BodyTable<'a>>, NoMemory>
    ensures { IfOk result (λ all. all ≡ [] ∷ [] ∷ [] ∷ [] ∷ [] ∷ [] ∷ []) }
{
    let mut all = Seq::new(alloc);
    for _ in 0..6_usize {
        all.push(BodyTable::new(alloc, &[])?)?;
    }
    Ok(all)
}

/// The methods of all classes.
fn all_methods<'a>(alloc: Global, classes: &'a [ClassParts]) -> Result<Seq<BodyTable<'a>>, NoMemory>
    ensures { IfOk result (λ all. all ≡ methods (record { functions = []; classes = classes.now })) }
{
    let mut all = built_in_methods(alloc)?;
    for class in classes {
        all.push(BodyTable::new(alloc, class.methods.as_slice())?)?;
    }
    Ok(all)
}

/// Whether the class itself declares the name.
fn declares_itself(tables: &[NameTable], class: u32, name: &[u8]) -> bool
    ensures { result ≡ names (at_class (slice_get tables.now class)) name.now }
{
    match tables.get(class as usize) {
        Some(table) => table.contains(name),
        None => false,
    }
}

/// Whether the class or one that it descends from declares the name.
#[tactic(auto, using(crate::proofs::WaysUp::declared_here, crate::proofs::WaysUp::declared_root, crate::proofs::WaysUp::declared_up, crate::proofs::WaysUp::declared_last))]
fn declares(tables: &[NameTable], tree: &[Option<u32>], class: u32, name: &[u8]) -> bool
    ensures { result ≡ names (along tables.now (chain tree.now class)) name.now }
{
    let mut at = class;
    for _ in 0..tree.len() {
        if declares_itself(tables, at, name) {
            return true;
        }
        match parent_in(tree, at) {
            None => return false,
            Some(parent) => at = parent,
        }
    }
    declares_itself(tables, at, name)
}

/// The method of the name that the class itself has.
fn own_method<'t>(tables: &'t [BodyTable<'_>], class: u32, name: &[u8]) -> Option<&'t BodyParts>
    ensures { MatchOption result (with_name (at_class (slice_get tables.now class)) name.now ≡ None) (λ b. with_name (at_class (slice_get tables.now class)) name.now ≡ Some b.now) }
{
    match tables.get(class as usize) {
        Some(table) => table.find(name),
        None => None,
    }
}

/// The method of the name that the class has, or the nearest that it descends from and that has one.
#[tactic(auto, using(crate::proofs::WaysUp::method_here, crate::proofs::WaysUp::method_root, crate::proofs::WaysUp::method_up))]
fn find_method<'t>(
    tables: &'t [BodyTable<'_>],
    tree: &[Option<u32>],
    class: u32,
    name: &[u8],
) -> Option<&'t BodyParts>
    ensures { MatchOption result (with_name (along tables.now (chain tree.now class)) name.now ≡ None) (λ b. with_name (along tables.now (chain tree.now class)) name.now ≡ Some b.now) }
{
    let mut at = class;
    for _ in 0..tree.len() {
        if let Some(body) = own_method(tables, at, name) {
            return Some(body);
        }
        match parent_in(tree, at) {
            None => return None,
            Some(parent) => at = parent,
        }
    }
    own_method(tables, at, name)
}

impl<'a> Known<'a> {
    pub(crate) fn new(
        alloc: Global,
        functions: &'a [BodyParts],
        classes: &'a [ClassParts],
    ) -> Result<Known<'a>, NoMemory>
        requires { 6 + length classes.now < 2 ^ 32 }
        ensures { IfOk result (λ k. k ≡ record { functions = functions.now; classes = classes.now }) }
    {
        let listed = Listed::new(alloc, functions, classes)?;
        let tree = all_parents(alloc, &listed, classes)?;
        Ok(Known {
            listed,
            tree,
            functions: BodyTable::new(alloc, functions)?,
            of_constants: all_constants(alloc, classes)?,
            of_properties: all_properties(alloc, classes)?,
            of_methods: all_methods(alloc, classes)?,
        })
    }

    /// The classes by name.
    pub(crate) fn listed(&self) -> &Listed<'a>
        ensures { result.now ≡ self.now }
    {
        &self.listed
    }

    /// The parent of each class.
    pub(crate) fn parents(&self) -> &[Option<u32>]
        ensures { result.now ≡ faults.parents self.now }
    {
        self.tree.as_slice()
    }

    /// The first function of a name.
    pub(crate) fn function(&self, name: &[u8]) -> Option<&BodyParts>
        ensures { MatchOption result (with_name self.now.functions name.now ≡ None) (λ b. with_name self.now.functions name.now ≡ Some b.now) }
    {
        self.functions.find(name)
    }

    /// Whether the class has a constant of the name, its own or inherited.
    pub(crate) fn has_constant(&self, class: u32, name: &[u8]) -> bool
        ensures { result ≡ names (along (constants self.now) (chain (faults.parents self.now) class)) name.now }
    {
        declares(
            self.of_constants.as_slice(),
            self.tree.as_slice(),
            class,
            name,
        )
    }

    /// Whether the class inherits a property of the name.
    pub(crate) fn has_inherited_property(&self, class: u32, name: &[u8]) -> bool
        ensures { result ≡ names (along (properties self.now) (ancestors self.now class)) name.now }
    {
        match parent_in(self.tree.as_slice(), class) {
            None => false,
            Some(parent) => declares(
                self.of_properties.as_slice(),
                self.tree.as_slice(),
                parent,
                name,
            ),
        }
    }

    /// The method of the name that the class has, its own or inherited.
    pub(crate) fn method(&self, class: u32, name: &[u8]) -> Option<&BodyParts>
        ensures { MatchOption result (with_name (along (methods self.now) (chain (faults.parents self.now) class)) name.now ≡ None) (λ b. with_name (along (methods self.now) (chain (faults.parents self.now) class)) name.now ≡ Some b.now) }
    {
        find_method(
            self.of_methods.as_slice(),
            self.tree.as_slice(),
            class,
            name,
        )
    }
}
