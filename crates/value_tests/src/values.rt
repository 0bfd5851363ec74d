use hack_values::{
    BinOp, Cell, DictVal, Heap, Key, KeysetVal, NoMemory, Object, OpFault, Seq, Slot, Text, UnOp,
    ValueFault, VecVal, binary, order, same, show, truthy, unary,
};
use std::alloc::Global;
use std::cmp::Ordering;
use std::test::Fail;

/// A value that a row of a table gives.
#[derive(Clone, Copy)]
enum Given {
    Null,
    Bool(bool),
    Int(i64),
    Str(&'static [u8]),
    EmptyVec,
    EmptyDict,
    EmptyKeyset,
    Obj(u32),
}

fn cell(alloc: Global, given: Given) -> Result<Cell, NoMemory> {
    Ok(match given {
        Given::Null => Cell::Null,
        Given::Bool(flag) => Cell::Bool(flag),
        Given::Int(number) => Cell::Int(number),
        Given::Str(bytes) => Cell::Str(Text::from_bytes(alloc, bytes)?),
        Given::EmptyVec => Cell::Vec(VecVal::new(alloc)),
        Given::EmptyDict => Cell::Dict(DictVal::new(alloc)),
        Given::EmptyKeyset => Cell::Keyset(KeysetVal::new(alloc)),
        Given::Obj(number) => Cell::Obj(number),
    })
}

/// An operator's answer as text: the value as `show` gives it, or the fault's name.
fn told(alloc: Global, answer: Result<Cell, OpFault>) -> Result<Text, NoMemory> {
    match answer {
        Ok(value) => show(alloc, &value),
        Err(OpFault::BadOperand) => Text::from_bytes(alloc, b"BadOperand"),
        Err(OpFault::DivisionByZero) => Text::from_bytes(alloc, b"DivisionByZero"),
        Err(OpFault::TooLarge) => Text::from_bytes(alloc, b"TooLarge"),
        Err(OpFault::NoMemory) => Err(NoMemory),
    }
}

fn key(alloc: Global, bytes: &[u8]) -> Result<Key, NoMemory> {
    Ok(Key::Str(Text::from_bytes(alloc, bytes)?))
}

#[test]
fn texts_and_lists_grow(rt: HostRuntime) -> Result<(), Fail> {
    let mut text = Text::from_bytes(rt.alloc(), b"ab")?;
    text.append(b"c")?;
    assert_eq!(rt; text.bytes(), b"abc".as_slice());
    let mut list = Seq::new(rt.alloc());
    list.push(7u8)?;
    list.push(8u8)?;
    if let Some(item) = list.get_mut(1) {
        *item = 9;
    }
    assert_eq!(rt; list.as_slice(), [7u8, 9].as_slice());
    Ok(())
}

#[test]
fn binary_operators_follow_the_table(rt: HostRuntime) -> Result<(), Fail> {
    let rows = [
        (BinOp::Add, Given::Int(2), Given::Int(3), b"5".as_slice()),
        (
            BinOp::Add,
            Given::Int(i64::MAX),
            Given::Int(1),
            b"-9223372036854775808",
        ),
        (BinOp::Add, Given::Int(1), Given::Str(b"1"), b"BadOperand"),
        (
            BinOp::Sub,
            Given::Int(i64::MIN),
            Given::Int(1),
            b"9223372036854775807",
        ),
        (BinOp::Sub, Given::Null, Given::Int(1), b"BadOperand"),
        (
            BinOp::Mul,
            Given::Int(i64::MIN),
            Given::Int(-1),
            b"-9223372036854775808",
        ),
        (
            BinOp::Mul,
            Given::Int(4294967296),
            Given::Int(4294967296),
            b"0",
        ),
        (BinOp::Mod, Given::Int(-7), Given::Int(3), b"-1"),
        (BinOp::Mod, Given::Int(7), Given::Int(-3), b"1"),
        (BinOp::Mod, Given::Int(i64::MIN), Given::Int(-1), b"0"),
        (BinOp::Mod, Given::Int(1), Given::Int(0), b"DivisionByZero"),
        (BinOp::Mod, Given::Bool(true), Given::Int(0), b"BadOperand"),
        (BinOp::BitAnd, Given::Int(12), Given::Int(10), b"8"),
        (
            BinOp::BitAnd,
            Given::Int(-1),
            Given::Int(i64::MIN),
            b"-9223372036854775808",
        ),
        (BinOp::BitOr, Given::Int(12), Given::Int(10), b"14"),
        (BinOp::BitXor, Given::Int(12), Given::Int(10), b"6"),
        (BinOp::BitXor, Given::Int(-1), Given::Int(0), b"-1"),
        (
            BinOp::Shl,
            Given::Int(1),
            Given::Int(63),
            b"-9223372036854775808",
        ),
        (BinOp::Shl, Given::Int(3), Given::Int(64), b"3"),
        (
            BinOp::Shl,
            Given::Int(1),
            Given::Int(-1),
            b"-9223372036854775808",
        ),
        (BinOp::Shr, Given::Int(-8), Given::Int(1), b"-4"),
        (BinOp::Shr, Given::Int(-1), Given::Int(63), b"-1"),
        (BinOp::Shr, Given::Int(8), Given::Int(65), b"4"),
        (BinOp::Shr, Given::Int(i64::MIN), Given::Int(-1), b"-1"),
        (BinOp::Concat, Given::Str(b"a"), Given::Int(-5), b"\"a-5\""),
        (BinOp::Concat, Given::Bool(true), Given::Null, b"\"1\""),
        (
            BinOp::Concat,
            Given::Bool(false),
            Given::Str(b"\n"),
            b"\"\\n\"",
        ),
        (
            BinOp::Concat,
            Given::EmptyVec,
            Given::Str(b""),
            b"BadOperand",
        ),
        (BinOp::Concat, Given::Str(b""), Given::Obj(0), b"BadOperand"),
        (BinOp::Same, Given::Int(0), Given::Null, b"false"),
        (BinOp::Same, Given::Str(b"a"), Given::Str(b"a"), b"true"),
        (BinOp::Same, Given::EmptyVec, Given::EmptyVec, b"true"),
        (BinOp::Same, Given::EmptyVec, Given::EmptyKeyset, b"false"),
        (BinOp::Same, Given::Obj(1), Given::Obj(2), b"false"),
        (BinOp::NSame, Given::Obj(1), Given::Obj(1), b"false"),
        (BinOp::NSame, Given::Str(b"1"), Given::Int(1), b"true"),
        (BinOp::Lt, Given::Int(-1), Given::Int(0), b"true"),
        (BinOp::Lt, Given::Str(b"b"), Given::Str(b"ab"), b"false"),
        (
            BinOp::Lt,
            Given::Bool(false),
            Given::Bool(true),
            b"BadOperand",
        ),
        (BinOp::Lte, Given::Int(4), Given::Int(4), b"true"),
        (BinOp::Gt, Given::Str(b"a"), Given::Str(b""), b"true"),
        (BinOp::Gte, Given::Int(3), Given::Int(4), b"false"),
        (BinOp::Gte, Given::Int(3), Given::Str(b"3"), b"BadOperand"),
        (
            BinOp::Cmp,
            Given::Int(i64::MIN),
            Given::Int(i64::MAX),
            b"-1",
        ),
        (BinOp::Cmp, Given::Str(b"\xff"), Given::Str(b"\xff"), b"0"),
        (BinOp::Cmp, Given::Str(b"\x80"), Given::Str(b"\x7f"), b"1"),
    ];
    for (op, a, b, wanted) in rows {
        let (left, right) = (cell(rt.alloc(), a)?, cell(rt.alloc(), b)?);
        let found = told(rt.alloc(), binary(rt.alloc(), op, &left, &right))?;
        assert_eq!(rt; found.bytes(), wanted, "{op:?}");
    }
    Ok(())
}

#[test]
fn unary_operators_follow_the_table(rt: HostRuntime) -> Result<(), Fail> {
    let rows = [
        (UnOp::Not, Given::Null, b"true".as_slice()),
        (UnOp::Not, Given::Str(b"0"), b"true"),
        (UnOp::Not, Given::Str(b"00"), b"false"),
        (UnOp::Not, Given::Obj(0), b"false"),
        (UnOp::BitNot, Given::Int(0), b"-1"),
        (UnOp::BitNot, Given::Int(i64::MAX), b"-9223372036854775808"),
        (UnOp::BitNot, Given::Bool(true), b"BadOperand"),
        (UnOp::CastBool, Given::Int(0), b"false"),
        (UnOp::CastBool, Given::Int(-1), b"true"),
        (UnOp::CastBool, Given::Str(b""), b"false"),
        (UnOp::CastBool, Given::Str(b" "), b"true"),
        (UnOp::CastBool, Given::EmptyVec, b"false"),
        (UnOp::CastBool, Given::EmptyDict, b"false"),
        (UnOp::CastBool, Given::EmptyKeyset, b"false"),
        (UnOp::CastInt, Given::Null, b"0"),
        (UnOp::CastInt, Given::Bool(true), b"1"),
        (UnOp::CastInt, Given::Bool(false), b"0"),
        (UnOp::CastInt, Given::Int(-4), b"-4"),
        (UnOp::CastInt, Given::Str(b"0"), b"0"),
        (UnOp::CastInt, Given::Str(b"-10"), b"-10"),
        (
            UnOp::CastInt,
            Given::Str(b"9223372036854775807"),
            b"9223372036854775807",
        ),
        (
            UnOp::CastInt,
            Given::Str(b"9223372036854775808"),
            b"BadOperand",
        ),
        (
            UnOp::CastInt,
            Given::Str(b"-9223372036854775808"),
            b"-9223372036854775808",
        ),
        (
            UnOp::CastInt,
            Given::Str(b"-9223372036854775809"),
            b"BadOperand",
        ),
        (
            UnOp::CastInt,
            Given::Str(b"36893488147419103232"),
            b"BadOperand",
        ),
        (UnOp::CastInt, Given::Str(b""), b"BadOperand"),
        (UnOp::CastInt, Given::Str(b"-"), b"BadOperand"),
        (UnOp::CastInt, Given::Str(b"-0"), b"BadOperand"),
        (UnOp::CastInt, Given::Str(b"01"), b"BadOperand"),
        (UnOp::CastInt, Given::Str(b"+1"), b"BadOperand"),
        (UnOp::CastInt, Given::Str(b"1 "), b"BadOperand"),
        (UnOp::CastInt, Given::EmptyVec, b"BadOperand"),
        (UnOp::CastString, Given::Null, b"\"\""),
        (UnOp::CastString, Given::Bool(false), b"\"\""),
        (UnOp::CastString, Given::Bool(true), b"\"1\""),
        (
            UnOp::CastString,
            Given::Int(i64::MIN),
            b"\"-9223372036854775808\"",
        ),
        (UnOp::CastString, Given::Str(b"x"), b"\"x\""),
        (UnOp::CastString, Given::EmptyDict, b"BadOperand"),
        (UnOp::CastString, Given::Obj(3), b"BadOperand"),
    ];
    for (op, a, wanted) in rows {
        let operand = cell(rt.alloc(), a)?;
        let found = told(rt.alloc(), unary(rt.alloc(), op, &operand))?;
        assert_eq!(rt; found.bytes(), wanted, "{op:?}");
    }
    Ok(())
}

#[test]
fn values_are_shown(rt: HostRuntime) -> Result<(), Fail> {
    let rows = [
        (Given::Int(-12), b"-12".as_slice()),
        (
            Given::Str(b"a\n\"\\\x00\x7f~"),
            b"\"a\\n\\\"\\\\\\x00\\x7f~\"",
        ),
        (Given::Str(b"\xab"), b"\"\\xab\""),
        (Given::Obj(7), b"object #7"),
        (Given::EmptyDict, b"dict[]"),
    ];
    for (given, wanted) in rows {
        let value = cell(rt.alloc(), given)?;
        let found = show(rt.alloc(), &value)?;
        assert_eq!(rt; found.bytes(), wanted);
    }
    let mut inner = DictVal::new(rt.alloc());
    inner.add_elem(Key::Int(1), Cell::Keyset(KeysetVal::new(rt.alloc())))?;
    let mut cells = VecVal::new(rt.alloc());
    cells.append(Cell::Null)?;
    cells.append(Cell::Bool(true))?;
    cells.append(cell(rt.alloc(), Given::Str(b"a"))?)?;
    cells.append(Cell::Dict(inner))?;
    let whole = Cell::Vec(cells);
    let copy = whole.copy(rt.alloc())?;
    let found = show(rt.alloc(), &copy)?;
    assert_eq!(rt;
        found.bytes(),
        b"vec[null, true, \"a\", dict[1 => keyset[]]]".as_slice()
    );
    assert_eq!(rt; same(&whole, &copy), true);
    assert_eq!(rt; (whole.weight(), whole.depth()), (8, 3));
    Ok(())
}

#[test]
fn containers_keep_their_places(rt: HostRuntime) -> Result<(), Fail> {
    let mut cells = VecVal::new(rt.alloc());
    cells.append(Cell::Int(1))?;
    cells.append(Cell::Int(2))?;
    let mut entries = DictVal::new(rt.alloc());
    entries.add_elem(key(rt.alloc(), b"a")?, Cell::Int(1))?;
    entries.add_elem(key(rt.alloc(), b"b")?, Cell::Int(2))?;
    entries.add_elem(key(rt.alloc(), b"a")?, Cell::Int(5))?;
    let mut keys = KeysetVal::new(rt.alloc());
    keys.add(Key::Int(1))?;
    keys.add(Key::Int(1))?;
    let shown = [
        (Cell::Vec(cells), b"vec[1, 2]".as_slice()),
        (Cell::Dict(entries), b"dict[\"a\" => 5, \"b\" => 2]"),
        (Cell::Keyset(keys), b"keyset[1]"),
    ];
    for (value, wanted) in shown {
        let found = show(rt.alloc(), &value)?;
        assert_eq!(rt; found.bytes(), wanted);
    }
    Ok(())
}

#[test]
fn containers_are_changed_in_place(rt: HostRuntime) -> Result<(), Fail> {
    let mut cells = VecVal::new(rt.alloc());
    cells.append(Cell::Int(1))?;
    cells.append(Cell::Int(2))?;
    if let Some(cell) = cells.get_mut(0) {
        *cell = Cell::Bool(false);
    }
    let mut entries = DictVal::new(rt.alloc());
    let mut keys = KeysetVal::new(rt.alloc());
    for number in 1..=3i64 {
        entries.add_elem(Key::Int(number), Cell::Null)?;
        keys.add(Key::Int(number))?;
    }
    if let Some(value) = entries.value_mut(1) {
        *value = Cell::Int(3);
    }
    assert_eq!(rt; entries.remove(&Key::Int(1)), true);
    assert_eq!(rt; entries.at(1).is_some(), true);
    assert_eq!(rt; keys.remove(&Key::Int(2)), true);
    assert_eq!(rt; keys.remove(&Key::Int(2)), false);
    assert_eq!(rt; keys.find(&Key::Int(3)), Some(1));
    assert_eq!(rt; keys.at(2).is_none(), true);
    let shown = [
        (Cell::Vec(cells), b"vec[false, 2]".as_slice()),
        (Cell::Dict(entries), b"dict[2 => 3, 3 => null]"),
        (Cell::Keyset(keys), b"keyset[1, 3]"),
    ];
    for (value, wanted) in shown {
        let found = show(rt.alloc(), &value)?;
        assert_eq!(rt; found.bytes(), wanted);
    }
    Ok(())
}

#[test]
fn limits_are_exact(rt: HostRuntime) -> Result<(), Fail> {
    let mut nested = VecVal::new(rt.alloc());
    for _ in 0..63 {
        let mut outer = VecVal::new(rt.alloc());
        outer.append(Cell::Vec(nested))?;
        nested = outer;
    }
    let mut outer = VecVal::new(rt.alloc());
    assert_eq!(rt; outer.append(Cell::Vec(nested)), Err(ValueFault::TooDeep));
    assert_eq!(rt; outer.as_slice().len(), 0);
    let mut long = Text::from_bytes(rt.alloc(), &[b'x'; 1024])?;
    for _ in 0..12 {
        let again = long.copy(rt.alloc())?;
        long.append(again.bytes())?;
    }
    // 4,194,304 bytes: with the text's own 1 and the vec's 1 it is 2 over the limit
    assert_eq!(rt; outer.append(Cell::Str(long)), Err(ValueFault::TooLarge));
    assert_eq!(rt;
        outer.append(Cell::Str(Text::from_bytes(rt.alloc(), &[b'x'; 1024])?)),
        Ok(())
    );
    Ok(())
}

fn object(alloc: Global, class: u32) -> Result<Object, NoMemory> {
    let mut props = Seq::new(alloc);
    props.push(Cell::Null)?;
    Ok(Object { class, props })
}

#[test]
fn the_heap_numbers_its_objects(rt: HostRuntime) -> Result<(), Fail> {
    let mut heap = Heap::new(rt.alloc());
    heap.add(object(rt.alloc(), 4)?)?;
    heap.add(object(rt.alloc(), 2)?)?;
    if let Some(object) = heap.get_mut(1) {
        object.class = 3;
    }
    assert_eq!(rt; heap.get(0).map(|object| object.class), Some(4));
    assert_eq!(rt; heap.get(1).map(|object| object.class), Some(3));
    assert_eq!(rt; heap.get(2).is_none(), true);
    assert_eq!(rt; order(&Cell::Int(1), &Cell::Int(2)), Some(Ordering::Less));
    assert_eq!(rt; truthy(&Cell::Obj(0)), true);
    Ok(())
}

fn crosses<T: Send + Sync>(_value: &T) {}

#[test]
fn values_cross_threads(rt: HostRuntime) -> Result<(), Fail> {
    crosses(&Text::from_bytes(rt.alloc(), b"")?);
    crosses(&Key::Int(0));
    crosses(&Cell::Null);
    crosses(&Slot::Uninit);
    crosses(&VecVal::new(rt.alloc()));
    crosses(&DictVal::new(rt.alloc()));
    crosses(&KeysetVal::new(rt.alloc()));
    crosses(&Heap::new(rt.alloc()));
    crosses(&Object {
        class: 0,
        props: Seq::new(rt.alloc()),
    });
    crosses(&Seq::<Cell>::new(rt.alloc()));
    crosses(&NoMemory);
    crosses(&ValueFault::TooLarge);
    crosses(&OpFault::TooLarge);
    crosses(&BinOp::Add);
    crosses(&UnOp::Not);
    Ok(())
}
