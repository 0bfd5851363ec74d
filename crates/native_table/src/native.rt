ghost use Rattle.std.specs.Prelude.{◌≡◌, ◌↔◌, true, false, not, IfOk, IsTrue};
ghost use Rattle.hack_values.specs.Natives.{native_value};
ghost use Rattle.type_lattice.specs.InRange.{is_proper};
ghost use Rattle.native_table.specs.Answers.{AreArguments, answered, answer_prop, no_objects};
ghost use Rattle.native_table.specs.Rows.{HoldsValues};

use crate::NativeAnswer;
use hack_values::{Cell, NoMemory, Text};
use std::alloc::Global;
use type_lattice::HType;

/// A native, with the function that does its work.
///
/// It keeps what is known of the function: it may be called with every list of `arity` cells without objects, and then
/// answers what the native of this name gives, or that memory was wanting. The type `answer` has no Uninit and names no
/// class; all that the native of this name gives is of it.
#[derive(Drop)]
pub struct Native {
    pub name: Text,
    pub arity: u8,
    pub answer: HType,
    pub call: fn(Global, &[Cell]) -> Result<NativeAnswer, NoMemory>,
    pub ghost may_be_called: { (alloc : _) (args : _) → AreArguments arity args.now → pre call alloc args },
    pub ghost gives_value: { (alloc : _) (args : _) (r : _) → AreArguments arity args.now → post call alloc args r → IfOk r (λ a. a ≡ answered (native_value name args.now)) } by { Prim.hlevel answer_prop },
    pub ghost is_initialised: { answer.uninit ≡ false },
    pub ghost names_no_class: { is_proper 0 answer ≡ true },
    pub ghost holds_values: { HoldsValues name arity answer },
}

impl Native {
    /// Whether it may be called with these arguments: there are as many as it takes, and none is or holds an object.
    pub fn takes(&self, args: &[Cell]) -> bool
        ensures { IsTrue result ↔ AreArguments self.now.arity args.now }
    {
        args.len() == self.arity as usize && !hold_object(args)
    }
}

fn hold_object(cells: &[Cell]) -> bool
    ensures { result ≡ not (no_objects cells.now) }
{
    for cell in cells {
        if cell.holds_object() {
            return true;
        }
    }
    false
}
