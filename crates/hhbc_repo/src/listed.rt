//! What is linked, and the classes in it by name.

ghost use Rattle.std.specs.Prelude.{◌≡◌, ◌<◌, ◌^◌, ◌+◌, [], IfOk, length};
ghost use Rattle.hhbc_repo.specs.FirstNumbers.{Finds};
ghost use Rattle.hhbc_repo.specs.LinkFaults.{class_names};
ghost use Rattle.hhbc_repo.specs.LinkFaults as faults;

use crate::class_list::{built_in_list, push_name};
use crate::first_numbers::FirstNumbers;
use crate::parts::{BodyParts, ClassParts};
use hack_values::{NoMemory, Seq, Text};
use std::alloc::Global;
use std::marker::Model;

/// The functions and classes that are linked, with the numbers of classes. The first class of a name has it.
#[derive(Drop)]
pub(crate) struct Listed<'a> {
    functions: &'a [BodyParts],
    classes: &'a [ClassParts],
    numbers: FirstNumbers,
}

impl<'a> Model for Listed<'a> {
    ghost use Rattle.hhbc_repo.specs.FirstNumbers.{Finds};
    ghost use Rattle.hhbc_repo.specs.LinkFaults.{Whole, class_names};
    ghost use Rattle.std.specs.Coded.{codes};
    ghost use Rattle.hack_values.specs.Code.{coded_val, coded_key};

    ghost Value = { Whole };

    ghost coded = { Prim.hlevel (codes, coded_val, coded_key) };

    ghost view = { λ l. record { functions = l.functions.now; classes = l.classes.now } };

    ghost invariant = { λ l. Finds l.numbers (class_names (record { functions = l.functions.now; classes = l.classes.now })) };
}

/// The names of all classes, the built-in ones first.
fn all_names(alloc: Global, classes: &[ClassParts]) -> Result<Seq<Text>, NoMemory>
    ensures { IfOk result (λ names. names ≡ class_names (record { functions = []; classes = classes.now })) }
{
    let mut names = built_in_list(alloc)?;
    for class in classes {
        push_name(&mut names, alloc, class.name.bytes())?;
    }
    Ok(names)
}

/// The place of each name.
pub(crate) fn places_of(alloc: Global, names: &[Text]) -> Result<FirstNumbers, NoMemory>
    requires { length names.now < 2 ^ 32 }
    ensures { IfOk result (λ numbers. Finds numbers names.now) }
{
    let mut numbers = FirstNumbers::new(alloc);
    let mut number = 0;
    for name in names {
        numbers = numbers.with(alloc, name.bytes(), number)?;
        number += 1;
    }
    Ok(numbers)
}

impl<'a> Listed<'a> {
    pub(crate) fn new(
        alloc: Global,
        functions: &'a [BodyParts],
        classes: &'a [ClassParts],
    ) -> Result<Listed<'a>, NoMemory>
        requires { 6 + length classes.now < 2 ^ 32 }
        ensures { IfOk result (λ l. l ≡ record { functions = functions.now; classes = classes.now }) }
    {
        let names = all_names(alloc, classes)?;
        let numbers = places_of(alloc, names.as_slice())?;
        Ok(Listed {
            functions,
            classes,
            numbers,
        })
    }

    /// The number of the first class of a name.
    pub(crate) fn class_of(&self, name: &[u8]) -> Option<u32>
        ensures { result ≡ faults.class_of self.now name.now }
    {
        self.numbers.find(name)
    }

    /// The number of a parent, where a class has its name.
    pub(crate) fn parent_of(&self, parent: &Option<Text>) -> Option<u32>
        ensures { result ≡ faults.parent_in self.now parent.now }
    {
        match parent {
            Some(name) => self.class_of(name.bytes()),
            None => None,
        }
    }
}
