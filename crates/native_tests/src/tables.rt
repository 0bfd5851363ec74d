ghost use Rattle.std.specs.Prelude.{◌≡◌, Ok, IsErr};

use hack_values::{Cell, NoMemory, Text};
use native_table::{
    AddFault, Native, NativeAnswer, NativeTable, native_abs, native_strlen, native_values_are_typed,
};
use std::alloc::Global;
use std::test::Fail;
use type_lattice::{HType, IntPart};

const INT: HType = HType {
    int: IntPart::Any,
    ..HType::NEVER
};

/// What came of a call by name.
#[derive(Clone, Copy, Debug, PartialEq, Eq)]
enum Called {
    Int(i64),
    Other,
    Throws,
    NoMemory,
    /// There is no native of the name that takes these arguments.
    Nothing,
}

fn call(alloc: Global, table: &NativeTable, name: &[u8], arg: Cell) -> Called {
    let args = [arg];
    match table.find(name) {
        Some(native) if native.takes(&args) => outcome(table.call(alloc, name, &args)),
        _ => Called::Nothing,
    }
}

fn outcome(answer: Result<NativeAnswer, NoMemory>) -> Called {
    match answer {
        Ok(NativeAnswer::Value(Cell::Int(number))) => Called::Int(number),
        Ok(NativeAnswer::Value(_other)) => Called::Other,
        Ok(NativeAnswer::Throws) => Called::Throws,
        Err(_want) => Called::NoMemory,
    }
}

fn wants_memory(_alloc: Global, _args: &[Cell]) -> Result<NativeAnswer, NoMemory>
    ensures { IsErr result }
{
    Err(NoMemory)
}

fn throws(_alloc: Global, _args: &[Cell]) -> Result<NativeAnswer, NoMemory>
    ensures { result ≡ Ok NativeAnswer.Throws }
{
    Ok(NativeAnswer::Throws)
}

/// The name that comes back since it is taken.
fn taken(added: Result<(), AddFault>) -> Option<Text> {
    match added {
        Ok(()) => None,
        Err(AddFault::NameTaken(native)) => Some(native.name),
        Err(AddFault::NoMemory(_native)) => None,
    }
}

#[test]
fn a_name_is_taken_once(rt: HostRuntime) -> Result<(), Fail> {
    native_values_are_typed();
    let alloc = rt.alloc();
    let mut table = NativeTable::new(alloc);
    let first = Native {
        name: Text::from_bytes(alloc, b"strlen")?,
        arity: 1,
        answer: INT,
        call: native_strlen,
    };
    assert!(rt; table.add(first).is_ok());
    let second = Native {
        name: Text::from_bytes(alloc, b"strlen")?,
        arity: 1,
        answer: INT,
        call: wants_memory,
    };
    let name = taken(table.add(second));
    assert_eq!(rt; name.as_ref().map(Text::bytes), Some(b"strlen".as_slice()));
    let abc = Cell::Str(Text::from_bytes(alloc, b"abc")?);
    assert_eq!(rt; call(alloc, &table, b"strlen", abc), Called::Int(3));
    assert_eq!(rt; call(alloc, &table, b"strlen", Cell::Null), Called::Throws);
    Ok(())
}

#[test]
fn what_is_stored_is_called(rt: HostRuntime) -> Result<(), Fail> {
    native_values_are_typed();
    let alloc = rt.alloc();
    let mut table = NativeTable::new(alloc);
    let wanting = Native {
        name: Text::from_bytes(alloc, b"abs")?,
        arity: 1,
        answer: INT,
        call: wants_memory,
    };
    assert!(rt; table.add(wanting).is_ok());
    let other = Native {
        name: Text::from_bytes(alloc, b"other")?,
        arity: 1,
        answer: HType::NEVER,
        call: throws,
    };
    assert!(rt; table.add(other).is_ok());
    assert_eq!(rt; call(alloc, &table, b"abs", Cell::Int(1)), Called::NoMemory);
    assert_eq!(rt; call(alloc, &table, b"other", Cell::Int(1)), Called::Throws);
    assert_eq!(rt; call(alloc, &table, b"ab", Cell::Int(1)), Called::Nothing);
    assert_eq!(rt; call(alloc, &table, b"abs", Cell::Obj(0)), Called::Nothing);
    Ok(())
}
