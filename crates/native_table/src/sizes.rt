ghost use Rattle.std.specs.Prelude.{◌≡◌, true, length, codes, IfOk};
ghost use Rattle.hack_values.specs.Natives.{native_value};
ghost use Rattle.native_table.specs.Answers.{answered, no_objects};

use crate::NativeAnswer;
use hack_values::{Cell, NoMemory};
use std::alloc::Global;

/// `count`: how many elements a vec, a dict or a keyset has.
pub fn native_count(_alloc: Global, args: &[Cell]) -> Result<NativeAnswer, NoMemory>
    requires count { length args.now ≡ 1 }
    requires objects { no_objects args.now ≡ true }
    ensures { IfOk result (λ answer. answer ≡ answered (native_value (codes "count") args.now)) }
{
    let elements = match args {
        [Cell::Vec(cells)] => cells.len(),
        [Cell::Dict(entries)] => entries.len(),
        [Cell::Keyset(keys)] => keys.len(),
        _ => return Ok(NativeAnswer::Throws),
    };
    Ok(NativeAnswer::Value(Cell::Int(elements as i64)))
}
