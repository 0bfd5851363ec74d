ghost use Rattle.std.specs.Prelude.{◌≡◌, [], ◌∷◌, true, length, codes, IfOk};
ghost use Rattle.hack_values.specs.declared.cell.Cell.TheVariants.{Int as IntCell, Str as StrCell};
ghost use Rattle.hack_values.specs.Natives.{native_value, str_repeat_value};
ghost use Rattle.native_table.specs.Answers.{answered, no_objects};

use crate::NativeAnswer;
use hack_values::{Cell, MAX_TEXT, NoMemory, Text};
use std::alloc::Global;

/// `strlen`: the number of a string's bytes.
pub fn native_strlen(_alloc: Global, args: &[Cell]) -> Result<NativeAnswer, NoMemory>
    requires count { length args.now ≡ 1 }
    requires objects { no_objects args.now ≡ true }
    ensures { IfOk result (λ answer. answer ≡ answered (native_value (codes "strlen") args.now)) }
{
    match args {
        [Cell::Str(text)] => Ok(NativeAnswer::Value(Cell::Int(text.bytes().len() as i64))),
        _ => Ok(NativeAnswer::Throws),
    }
}

/// `str_repeat`: a string so often. It raises where that would be longer than a string value may be.
pub fn native_str_repeat(alloc: Global, args: &[Cell]) -> Result<NativeAnswer, NoMemory>
    requires count { length args.now ≡ 2 }
    requires objects { no_objects args.now ≡ true }
    ensures { IfOk result (λ answer. answer ≡ answered (native_value (codes "str_repeat") args.now)) }
{
    match args {
        [Cell::Str(text), Cell::Int(times)] => str_repeat(alloc, text.bytes(), *times),
        _ => Ok(NativeAnswer::Throws),
    }
}

fn str_repeat(alloc: Global, bytes: &[u8], times: i64) -> Result<NativeAnswer, NoMemory>
    ensures { IfOk result (λ answer. answer ≡ answered (str_repeat_value (StrCell bytes.now ∷ IntCell times ∷ []))) }
{
    let Ok(times) = usize::try_from(times) else {
        return Ok(NativeAnswer::Throws);
    };
    match bytes.len().checked_mul(times) {
        Some(total) if total <= MAX_TEXT => {
            let whole = bytes.repeat(alloc, times)?;
            let text = Text::from_bytes(alloc, &whole)?;
            Ok(NativeAnswer::Value(Cell::Str(text)))
        }
        _ => Ok(NativeAnswer::Throws),
    }
}
