ghost use Rattle.std.specs.Prelude.{◌≡◌, true, length, codes, IfOk};
ghost use Rattle.hack_values.specs.Natives.{native_value};
ghost use Rattle.native_table.specs.Answers.{answered, no_objects};

use crate::NativeAnswer;
use hack_values::{Cell, NoMemory};
use std::alloc::Global;

/// `abs`: the absolute value of an int. That of the least int is past the greatest, and is the least int again.
pub fn native_abs(_alloc: Global, args: &[Cell]) -> Result<NativeAnswer, NoMemory>
    requires count { length args.now ≡ 1 }
    requires objects { no_objects args.now ≡ true }
    ensures { IfOk result (λ answer. answer ≡ answered (native_value (codes "abs") args.now)) }
{
    match args {
        [Cell::Int(number)] => Ok(NativeAnswer::Value(Cell::Int(number.wrapping_abs()))),
        _ => Ok(NativeAnswer::Throws),
    }
}

/// `min`: the lesser of two ints.
pub fn native_min(_alloc: Global, args: &[Cell]) -> Result<NativeAnswer, NoMemory>
    requires count { length args.now ≡ 2 }
    requires objects { no_objects args.now ≡ true }
    ensures { IfOk result (λ answer. answer ≡ answered (native_value (codes "min") args.now)) }
{
    match args {
        [Cell::Int(a), Cell::Int(b)] => Ok(NativeAnswer::Value(Cell::Int((*a).min(*b)))),
        _ => Ok(NativeAnswer::Throws),
    }
}

/// `max`: the greater of two ints.
pub fn native_max(_alloc: Global, args: &[Cell]) -> Result<NativeAnswer, NoMemory>
    requires count { length args.now ≡ 2 }
    requires objects { no_objects args.now ≡ true }
    ensures { IfOk result (λ answer. answer ≡ answered (native_value (codes "max") args.now)) }
{
    match args {
        [Cell::Int(a), Cell::Int(b)] => Ok(NativeAnswer::Value(Cell::Int((*a).max(*b)))),
        _ => Ok(NativeAnswer::Throws),
    }
}
