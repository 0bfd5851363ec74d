ghost use Rattle.std.specs.Prelude.{◌≡◌, ◌+◌, ◌-◌, ◌^◌, ◌<◌, ◌↔◌, ◌++◌, [], ◌∷◌, length, IfOk, OnOk, OnErr, IsSome, IfSome, Some, slice_get, slice_set};
ghost use Rattle.std.specs.Borrow.{sem, LendsIf};
ghost use Rattle.hack_values.specs.contracts.heap.Heap.{the_row as heap_row};
ghost use Rattle.hack_values.specs.contracts.heap.Object.{the_row as object_row};

use crate::{Cell, NoMemory, Seq};
use std::alloc::Global;
use std::marker::Model;

/// An object: the number of its class, and the values of its properties.
#[derive(Debug, Drop)]
pub struct Object {
    pub class: u32,
    pub props: Seq<Cell>,
}

/// The objects by their numbers, from 0 in the order in which they were made.
#[derive(Debug, Drop)]
pub struct Heap {
    objects: Vec<Object>,
}

impl Model for Heap {
    ghost use Rattle.std.specs.Prelude.{List};
    ghost use Rattle.std.specs.Coded.{coded_list};
    ghost use Rattle.hack_values.specs.declared.heap.Object.{Object};
    ghost use Rattle.hack_values.specs.contracts.heap.Object.{the_row};

    ghost Value = { List Object };

    ghost coded = { coded_list the_row.coded };

    ghost view = { λ a. a.objects.items };
}

impl Heap {
    /// The empty heap.
    pub fn new(alloc: Global) -> Heap
        ensures { result ≡ [] }
    {
        Heap {
            objects: Vec::new(alloc),
        }
    }

    /// Puts the object last and gives its number. Drops it where there is no memory.
    pub fn add(&mut self, object: Object) -> Result<u32, NoMemory>
        requires { length self.old < 2 ^ 32 - 1 }
        ensures number { IfOk result (λ n. n ≡ length self.old) }
        ensures ok { OnOk result (self.new ≡ self.old ++ object ∷ []) }
        ensures err { OnErr result (self.new ≡ self.old) }
    {
        let number = self.objects.len() as u32;
        self.objects.push(object)?;
        Ok(number)
    }

    /// The object of a number; None where the number isn't below the length.
    pub fn get(&self, number: u32) -> Option<&Object>
        ensures variant { IsSome result ↔ (number < length self.now) }
        ensures value { IfSome result (λ object. slice_get self.now number ≡ Some object.now) }
    {
        self.objects.get(number as usize)
    }

    /// The object of a number, for writing; None where the number isn't below the length.
    pub fn get_mut(&mut self, number: u32) -> Option<&mut Object>
        ensures* writes_back { sem 𝓛 (LendsIf heap_row object_row self.entry result (λ w. slice_set self.old number w) self.old) }
        ensures variant { IsSome result ↔ (number < length self.old) }
        ensures value { IfSome result (λ object. slice_get self.old number ≡ Some object.now) }
    {
        self.objects.get_mut(number as usize)
    }
}
