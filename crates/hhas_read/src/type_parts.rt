//! Types and constraints as what they stand for: a type whose classes are numbered in the order of the text.

ghost use Rattle.std.specs.Prelude.{◌≡◌, ◌+◌, ◌++◌, [], ◌∷◌, length, map, IfOk, OnOk, MatchOption};
ghost use Rattle.std.specs.List.{flat_map};
ghost use Rattle.type_lattice.specs.Types.{never_leaf, str_part};
ghost use Rattle.hhbc_repo.specs.TypeSyntax as grammar;
ghost use Rattle.hhbc_repo.specs.TypeSyntax.{AConstraint, AType, atom_classes, classes_in, constraint_of, leaf_from, leaf_of, leaf_with, of_atoms, type_classes, type_of, type_plain, type_with};
ghost use Rattle.hhas_read.specs.LeafSyntax.{written_of};
ghost use Rattle.hhas_read.specs.Reading.{Reads};
ghost use Rattle.hhas_read.specs.TypeWords.{type_atom_of};
ghost use Rattle.hhas_read.specs.WholeTypes.{written_type_of};
ghost use Rattle.hhas_read.specs.Written.{atom_of, ends_type};

use crate::atoms::Atom;
use crate::leaves::Written;
use crate::reader::{Reader, Stop};
use crate::types::TypeAtom;
use crate::whole_types::WrittenType;
use hack_values::{Cell, NoMemory, Seq, Text};
use hhbc_repo::TypeParts;
use std::alloc::Global;
use type_lattice::{HType, IntPart, Leaf, ObjPart, StrPart, of_literal};

/// The class that an atom names.
fn class_of(atom: &Atom) -> Option<&Text>
    ensures { MatchOption result (atom_classes (atom_of atom.now) ≡ []) (λ class. atom_classes (atom_of atom.now) ≡ class.now ∷ []) }
{
    match atom {
        Atom::Exact(class) => Some(class),
        Atom::Sub(class) => Some(class),
        _ => None,
    }
}

/// The number of the next class, behind the atom.
fn number_behind(number: u32, atom: &Atom) -> Result<u32, NoMemory>
    ensures { IfOk result (λ next. next ≡ number + length (atom_classes (atom_of atom.now))) }
{
    match class_of(atom) {
        Some(_) => match number.checked_add(1) {
            Some(next) => Ok(next),
            None => Err(NoMemory),
        },
        None => Ok(number),
    }
}

/// The part that has just the string.
fn part_of(alloc: Global, text: &Text) -> Result<StrPart, NoMemory>
    ensures { IfOk result (λ part. part ≡ str_part text.now) }
{
    let literal = Cell::Str(text.copy(alloc)?);
    Ok(of_literal(&literal).str)
}

/// The leaf with an atom more, whose class has the number.
fn leaf_with(alloc: Global, number: u32, atom: &Atom, mut leaf: Leaf) -> Result<Leaf, NoMemory>
    ensures { IfOk result (λ l. l ≡ leaf_with number (atom_of atom.now) leaf) }
{
    match atom {
        Atom::Null => leaf.null = true,
        Atom::False => leaf.no = true,
        Atom::True => leaf.yes = true,
        Atom::Bools => {
            leaf.no = true;
            leaf.yes = true;
        }
        Atom::Int => leaf.int = IntPart::Any,
        Atom::OneInt(value) => leaf.int = IntPart::One(*value),
        Atom::Str => leaf.str = StrPart::Any,
        Atom::OneStr(text) => leaf.str = part_of(alloc, text)?,
        Atom::Obj => leaf.obj = ObjPart::Any,
        Atom::Exact(_) => leaf.obj = ObjPart::Exact(number),
        Atom::Sub(_) => leaf.obj = ObjPart::Sub(number),
        Atom::Vec => leaf.vec = true,
        Atom::Dict => leaf.dict = true,
        Atom::Keyset => leaf.keyset = true,
    }
    Ok(leaf)
}

/// The leaf of the atoms, of which the first class has the number.
fn leaf_of_atoms(alloc: Global, first: u32, atoms: &[Atom]) -> Result<Leaf, NoMemory>
    ensures { IfOk result (λ l. l ≡ leaf_from first (map atom_of atoms.now) never_leaf) }
{
    let mut leaf = Leaf::NEVER;
    let mut number = first;
    for atom in atoms {
        leaf = leaf_with(alloc, number, atom, leaf)?;
        number = number_behind(number, atom)?;
    }
    Ok(leaf)
}

/// The leaf that is written, whose first class has the number.
fn leaf_of(alloc: Global, first: u32, written: &Written) -> Result<Leaf, NoMemory>
    ensures { IfOk result (λ l. l ≡ leaf_of first (written_of written.now)) }
{
    match written {
        Written::Never => Ok(Leaf::NEVER),
        Written::Cell => Ok(Leaf::CELL),
        Written::Of(atoms) => leaf_of_atoms(alloc, first, atoms.as_slice()),
    }
}

/// The type with an atom without brackets more, whose class has the number.
fn type_plain(alloc: Global, number: u32, atom: &Atom, mut t: HType) -> Result<HType, NoMemory>
    ensures { IfOk result (λ all. all ≡ type_plain number (atom_of atom.now) t) }
{
    match atom {
        Atom::Null => t.null = true,
        Atom::False => t.no = true,
        Atom::True => t.yes = true,
        Atom::Bools => {
            t.no = true;
            t.yes = true;
        }
        Atom::Int => t.int = IntPart::Any,
        Atom::OneInt(value) => t.int = IntPart::One(*value),
        Atom::Str => t.str = StrPart::Any,
        Atom::OneStr(text) => t.str = part_of(alloc, text)?,
        Atom::Obj => t.obj = ObjPart::Any,
        Atom::Exact(_) => t.obj = ObjPart::Exact(number),
        Atom::Sub(_) => t.obj = ObjPart::Sub(number),
        Atom::Vec => t.vec = Some(Leaf::CELL),
        Atom::Dict => t.dict = Some((Leaf::KEY, Leaf::CELL)),
        Atom::Keyset => t.keyset = Some(Leaf::KEY),
    }
    Ok(t)
}

/// The type with lists more.
fn with_vec(alloc: Global, first: u32, leaf: &Written, t: HType) -> Result<HType, NoMemory>
    ensures { IfOk result (λ all. all ≡ type_with first (grammar.VecOf (written_of leaf.now)) t) }
{
    let leaf = leaf_of(alloc, first, leaf)?;
    Ok(HType {
        vec: Some(leaf),
        ..t
    })
}

/// The type with dictionaries more.
fn with_dict(
    alloc: Global,
    first: u32,
    key: &Written,
    leaf: &Written,
    t: HType,
) -> Result<HType, NoMemory>
    ensures { IfOk result (λ all. all ≡ type_with first (grammar.DictOf (written_of key.now) (written_of leaf.now)) t) }
{
    let key = leaf_of(alloc, first, key)?;
    let leaf = leaf_of(alloc, first, leaf)?;
    Ok(HType {
        dict: Some((key, leaf)),
        ..t
    })
}

/// The type with sets of keys more.
fn with_keyset(alloc: Global, first: u32, key: &Written, t: HType) -> Result<HType, NoMemory>
    ensures { IfOk result (λ all. all ≡ type_with first (grammar.KeysetOf (written_of key.now)) t) }
{
    let key = leaf_of(alloc, first, key)?;
    Ok(HType {
        keyset: Some(key),
        ..t
    })
}

/// The type with an atom more, whose first class has the number. The key of a dictionary names none.
fn type_with(alloc: Global, first: u32, atom: &TypeAtom, t: HType) -> Result<HType, NoMemory>
    ensures { IfOk result (λ all. all ≡ type_with first (type_atom_of atom.now) t) }
{
    match atom {
        TypeAtom::Uninit => Ok(HType { uninit: true, ..t }),
        TypeAtom::Plain(atom) => type_plain(alloc, first, atom, t),
        TypeAtom::VecOf(leaf) => with_vec(alloc, first, leaf, t),
        TypeAtom::DictOf(key, leaf) => with_dict(alloc, first, key, leaf, t),
        TypeAtom::KeysetOf(key) => with_keyset(alloc, first, key, t),
    }
}

/// Puts the class of the atom last.
fn push_class(classes: &mut Seq<Text>, atom: Atom) -> Result<(), NoMemory>
    ensures { OnOk result (classes.new ≡ classes.old ++ atom_classes (atom_of atom)) }
{
    match atom {
        Atom::Exact(class) => classes.push(class),
        Atom::Sub(class) => classes.push(class),
        _ => Ok(()),
    }
}

/// Puts the classes of the atoms last.
fn push_classes(classes: &mut Seq<Text>, atoms: Seq<Atom>) -> Result<(), NoMemory>
    ensures { OnOk result (classes.new ≡ classes.old ++ flat_map atom_classes (map atom_of atoms)) }
{
    for atom in atoms.into_vec() {
        push_class(classes, atom)?;
    }
    Ok(())
}

/// Puts the classes of the leaf last.
fn push_leaf_classes(classes: &mut Seq<Text>, written: Written) -> Result<(), NoMemory>
    ensures { OnOk result (classes.new ≡ classes.old ++ classes_in (written_of written)) }
{
    match written {
        Written::Never => Ok(()),
        Written::Cell => Ok(()),
        Written::Of(atoms) => push_classes(classes, atoms),
    }
}

/// Puts the classes of the key and of the leaf last.
fn push_entry_classes(classes: &mut Seq<Text>, key: Written, leaf: Written) -> Result<(), NoMemory>
    ensures { OnOk result (classes.new ≡ classes.old ++ (classes_in (written_of key) ++ classes_in (written_of leaf))) }
{
    push_leaf_classes(classes, key)?;
    push_leaf_classes(classes, leaf)
}

/// Puts the classes of the atom last.
fn push_type_classes(classes: &mut Seq<Text>, atom: TypeAtom) -> Result<(), NoMemory>
    ensures { OnOk result (classes.new ≡ classes.old ++ type_classes (type_atom_of atom)) }
{
    match atom {
        TypeAtom::Uninit => Ok(()),
        TypeAtom::Plain(atom) => push_class(classes, atom),
        TypeAtom::VecOf(leaf) => push_leaf_classes(classes, leaf),
        TypeAtom::DictOf(key, leaf) => push_entry_classes(classes, key, leaf),
        TypeAtom::KeysetOf(key) => push_leaf_classes(classes, key),
    }
}

/// The number of a class that is put last.
fn next_number(classes: &Seq<Text>) -> Result<u32, NoMemory>
    ensures { IfOk result (λ number. number ≡ length classes.now) }
{
    match u32::try_from(classes.as_slice().len()) {
        Ok(number) => Ok(number),
        Err(_) => Err(NoMemory),
    }
}

/// What the atoms of a type stand for.
fn parts_of_atoms(alloc: Global, atoms: Seq<TypeAtom>) -> Result<TypeParts, NoMemory>
    ensures { IfOk result (λ parts. parts ≡ of_atoms (map type_atom_of atoms)) }
{
    let mut t = HType::NEVER;
    let mut classes = Seq::new(alloc);
    for atom in atoms.into_vec() {
        t = type_with(alloc, next_number(&classes)?, &atom, t)?;
        push_type_classes(&mut classes, atom)?;
    }
    Ok(TypeParts { t, classes })
}

/// What the atoms of a constraint stand for.
fn parts_of_plain_atoms(alloc: Global, atoms: Seq<Atom>) -> Result<TypeParts, NoMemory>
    ensures { IfOk result (λ parts. parts ≡ of_atoms (map grammar.Plain (map atom_of atoms))) }
{
    let mut t = HType::NEVER;
    let mut classes = Seq::new(alloc);
    for atom in atoms.into_vec() {
        t = type_plain(alloc, next_number(&classes)?, &atom, t)?;
        push_class(&mut classes, atom)?;
    }
    Ok(TypeParts { t, classes })
}

/// A type without classes.
fn without_classes(alloc: Global, t: HType) -> TypeParts
    ensures { result ≡ grammar.of_type t }
{
    TypeParts {
        t,
        classes: Seq::new(alloc),
    }
}

/// What a type stands for.
fn type_of(alloc: Global, written: WrittenType) -> Result<TypeParts, NoMemory>
    ensures { IfOk result (λ parts. parts ≡ type_of (written_type_of written)) }
{
    match written {
        WrittenType::Never => Ok(without_classes(alloc, HType::NEVER)),
        WrittenType::Cell => Ok(without_classes(alloc, HType::CELL)),
        WrittenType::UninitCell => Ok(without_classes(
            alloc,
            HType {
                uninit: true,
                ..HType::CELL
            },
        )),
        WrittenType::Atoms(atoms) => parts_of_atoms(alloc, atoms),
    }
}

/// What a constraint stands for.
fn constraint_of(alloc: Global, written: Written) -> Result<TypeParts, NoMemory>
    ensures { IfOk result (λ parts. parts ≡ constraint_of (written_of written)) }
{
    match written {
        Written::Never => Ok(without_classes(alloc, HType::NEVER)),
        Written::Cell => Ok(without_classes(alloc, HType::CELL)),
        Written::Of(atoms) => parts_of_plain_atoms(alloc, atoms),
    }
}

impl<'a> Reader<'a> {
    /// A type: `Never`, `Cell`, `Uninit|Cell`, or atoms.
    pub fn type_parts(&mut self, alloc: Global) -> Result<TypeParts, Stop>
        ensures { Reads ends_type AType self.old result self.new }
    {
        let written = match self.written_type(alloc) {
            Ok(written) => written,
            Err(stop) => return Err(stop),
        };
        match type_of(alloc, written) {
            Ok(parts) => Ok(parts),
            Err(NoMemory) => Err(Stop::NoMemory),
        }
    }

    /// A constraint: `Cell`, or atoms that name no single value.
    #[inline(never)]
    pub fn constraint_parts(&mut self, alloc: Global) -> Result<TypeParts, Stop>
        ensures { Reads ends_type AConstraint self.old result self.new }
    {
        let written = match self.constraint(alloc) {
            Ok(written) => written,
            Err(stop) => return Err(stop),
        };
        match constraint_of(alloc, written) {
            Ok(parts) => Ok(parts),
            Err(NoMemory) => Err(Stop::NoMemory),
        }
    }
}
