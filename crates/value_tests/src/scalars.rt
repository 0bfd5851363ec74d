use hack_values::{
    Cell, DictVal, IntDigits, Key, KeysetVal, MAX_DEPTH, MAX_TEXT, MAX_WEIGHT, Text, VecVal,
    push_literal,
};
use std::test::Fail;

#[test]
fn copies_of_a_text_grow_apart(rt: HostRuntime) -> Result<(), Fail> {
    let mut first = Text::from_bytes(rt.alloc(), b"ab")?;
    let mut second = first.copy(rt.alloc())?;
    let third = first.copy(rt.alloc())?;
    first.append(b"c")?;
    second.append(b"d")?;
    second.append(b"e")?;
    assert_eq!(rt; first.bytes(), b"abc".as_slice());
    assert_eq!(rt; second.bytes(), b"abde".as_slice());
    assert_eq!(rt; third.bytes(), b"ab".as_slice());
    Ok(())
}

#[test]
fn scalars_lend_their_text(rt: HostRuntime) -> Result<(), Fail> {
    let mut digits = IntDigits::new();
    let string = Cell::Str(Text::from_bytes(rt.alloc(), b"a\0")?);
    let minimum = Cell::Int(i64::MIN);
    assert_eq!(rt; string.text(&mut digits), Some(b"a\0".as_slice()));
    assert_eq!(rt;
        minimum.text(&mut digits),
        Some(b"-9223372036854775808".as_slice())
    );
    assert_eq!(rt; Cell::Bool(true).text(&mut digits), Some(b"1".as_slice()));
    assert_eq!(rt; Cell::Bool(false).text(&mut digits), Some(b"".as_slice()));
    assert_eq!(rt; Cell::Null.text(&mut digits), Some(b"".as_slice()));
    assert_eq!(rt; Cell::Obj(0).text(&mut digits), None);
    assert_eq!(rt; Cell::Vec(VecVal::new(rt.alloc())).text(&mut digits), None);
    Ok(())
}

#[test]
fn literals_stand_behind_what_was_there(rt: HostRuntime) -> Result<(), Fail> {
    let mut out = Text::from_bytes(rt.alloc(), b"x=")?;
    push_literal(&mut out, b"a\n\"\\\x1f \x7f\xff")?;
    assert_eq!(rt;
        out.bytes(),
        b"x=\"a\\n\\\"\\\\\\x1f \\x7f\\xff\"".as_slice()
    );
    Ok(())
}

#[test]
fn objects_are_found_at_any_depth(rt: HostRuntime) -> Result<(), Fail> {
    let mut keys = KeysetVal::new(rt.alloc());
    keys.add(Key::Int(0))?;
    let mut entries = DictVal::new(rt.alloc());
    entries.add_elem(Key::Int(0), Cell::Keyset(keys))?;
    entries.add_elem(Key::Int(1), Cell::Int(0))?;
    let mut cells = VecVal::new(rt.alloc());
    cells.append(Cell::Dict(entries))?;
    let mut whole = Cell::Vec(cells);
    assert_eq!(rt; whole.holds_object(), false);
    if let Cell::Vec(cells) = &mut whole {
        if let Some(Cell::Dict(entries)) = cells.get_mut(0) {
            entries.add_elem(Key::Int(1), Cell::Obj(0))?;
        }
    }
    assert_eq!(rt; whole.holds_object(), true);
    assert_eq!(rt; Cell::Obj(3).holds_object(), true);
    Ok(())
}

#[test]
fn limits_have_their_numbers(rt: HostRuntime) {
    assert_eq!(rt;
        (MAX_WEIGHT, MAX_DEPTH, MAX_TEXT),
        (4_194_304, 64, 1_048_576)
    );
}
