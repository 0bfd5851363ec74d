use hack_values::{Cell, NoMemory, Text, VecVal};
use native_table::{
    NativeAnswer, native_abs, native_count, native_max, native_min, native_str_repeat,
    native_strlen,
};
use std::alloc::Global;
use std::test::Fail;

/// The int that is answered.
fn int(answer: NativeAnswer) -> Option<i64> {
    match answer {
        NativeAnswer::Value(Cell::Int(number)) => Some(number),
        _ => None,
    }
}

/// The number of bytes of the string that is answered.
fn length(answer: NativeAnswer) -> Option<usize> {
    match answer {
        NativeAnswer::Value(Cell::Str(text)) => Some(text.bytes().len()),
        _other => None,
    }
}

fn strlen(alloc: Global, bytes: &[u8]) -> Result<Option<i64>, NoMemory> {
    let args = [Cell::Str(Text::from_bytes(alloc, bytes)?)];
    Ok(int(native_strlen(alloc, &args)?))
}

fn repeated(alloc: Global, bytes: &[u8], times: i64) -> Result<Option<usize>, NoMemory> {
    let args = [Cell::Str(Text::from_bytes(alloc, bytes)?), Cell::Int(times)];
    Ok(length(native_str_repeat(alloc, &args)?))
}

fn abs(alloc: Global, number: i64) -> Result<Option<i64>, NoMemory> {
    Ok(int(native_abs(alloc, &[Cell::Int(number)])?))
}

fn min(alloc: Global, a: i64, b: i64) -> Result<Option<i64>, NoMemory> {
    Ok(int(native_min(alloc, &[Cell::Int(a), Cell::Int(b)])?))
}

fn max(alloc: Global, a: i64, b: i64) -> Result<Option<i64>, NoMemory> {
    Ok(int(native_max(alloc, &[Cell::Int(a), Cell::Int(b)])?))
}

/// What `count` answers for a vec of one element.
fn count(alloc: Global) -> Result<Option<i64>, NoMemory> {
    let mut cells = VecVal::new(alloc);
    cells.push(Cell::Int(1))?;
    Ok(int(native_count(alloc, &[Cell::Vec(cells)])?))
}

const REPEATED: [(&[u8], i64, Option<usize>); 6] = [
    (b"ab", 2, Some(4)),
    (b"ab", -1, None),
    (b"a", 1_048_576, Some(1_048_576)),
    (b"a", 1_048_577, None),
    (b"ab", i64::MAX, None),
    (b"", i64::MAX, Some(0)),
];

#[test]
fn strings_are_repeated(rt: HostRuntime) -> Result<(), Fail> {
    for (bytes, times, wanted) in REPEATED {
        assert_eq!(rt; repeated(rt.alloc(), bytes, times)?, wanted);
    }
    Ok(())
}

#[test]
fn ints_are_answered(rt: HostRuntime) -> Result<(), Fail> {
    let alloc = rt.alloc();
    assert_eq!(rt; strlen(alloc, b"abc")?, Some(3));
    assert_eq!(rt; abs(alloc, -3)?, Some(3));
    assert_eq!(rt; abs(alloc, i64::MIN)?, Some(i64::MIN));
    assert_eq!(rt; min(alloc, 2, 5)?, Some(2));
    assert_eq!(rt; max(alloc, 2, 5)?, Some(5));
    assert_eq!(rt; count(alloc)?, Some(1));
    Ok(())
}
