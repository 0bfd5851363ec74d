use hack_values::{Cell, DictVal, KeysetVal, NoMemory, Seq, Text, VecVal};
use std::alloc::Global;
use std::process::Abort;
use std::test::Fail;
use type_lattice::{
    ClassTree, HType, IntPart, Leaf, ObjPart, StrPart, classes_are_ordered, depth_is_bounded,
    height_is_bounded, join, join_is_least_above, keep, keep_is_greatest_below, le, le_is_order,
    literal_is_least, literal_is_proper, members_stay, never_is_never, of_literal, type_text,
    whole_is_above_cell,
};

/// The six built-in classes, then A, B below A, C below B, and D below Exception.
const PARENTS: [Option<u32>; 10] = [
    None,
    Some(0),
    Some(0),
    Some(0),
    Some(0),
    Some(0),
    None,
    Some(6),
    Some(7),
    Some(0),
];

const NAMES: [&[u8]; 10] = [
    b"Exception",
    b"OutOfBoundsException",
    b"InvalidOperationException",
    b"UndefinedVariableException",
    b"DivisionByZeroException",
    b"TypehintViolationException",
    b"A",
    b"B",
    b"C",
    b"D",
];

const BELOW_B: HType = HType {
    obj: ObjPart::Sub(7),
    ..HType::NEVER
};

fn tree(alloc: Global, parents: &[Option<u32>]) -> Result<Option<ClassTree>, NoMemory> {
    let mut list = Seq::new(alloc);
    for parent in parents {
        list.push(*parent)?;
    }
    if list.as_slice().len() > 16 {
        return Ok(None);
    }
    Ok(ClassTree::new(list))
}

fn names(alloc: Global) -> Result<Seq<Text>, NoMemory> {
    let mut list = Seq::new(alloc);
    for name in NAMES {
        list.push(Text::from_bytes(alloc, name)?)?;
    }
    Ok(list)
}

fn obj(part: ObjPart) -> HType {
    HType {
        obj: part,
        ..HType::NEVER
    }
}

fn int(number: i64) -> HType {
    HType {
        int: IntPart::One(number),
        ..HType::NEVER
    }
}

/// The text of the type is as wanted.
fn expect(rt: &impl Abort, alloc: Global, t: &HType, wanted: &[u8]) -> Result<(), Fail> {
    let names = names(alloc)?;
    let text = type_text(alloc, t, names.as_slice())?;
    assert_eq!(rt; text.bytes(), wanted);
    Ok(())
}

#[test]
fn trees_have_parents_in_range_and_no_cycle(rt: HostRuntime) -> Result<(), Fail> {
    let rows: [(&[Option<u32>], bool); 7] = [
        (&[], true),
        (&[None], true),
        (&PARENTS, true),
        (&[Some(1), None], true),
        (&[None, Some(2)], false),
        (&[Some(0)], false),
        (&[None, Some(2), Some(1)], false),
    ];
    for (parents, is_tree) in rows {
        assert_eq!(rt; tree(rt.alloc(), parents)?.is_some(), is_tree);
    }
    Ok(())
}

#[test]
fn classes_are_below_those_that_they_descend_from(rt: HostRuntime) -> Result<(), Fail> {
    let tree = tree(rt.alloc(), &PARENTS)?.ok_or("a tree")?;
    tree.is_forest();
    let rows = [
        (8, 8, true),
        (8, 7, true),
        (8, 6, true),
        (6, 8, false),
        (7, 8, false),
        (9, 6, false),
        (9, 0, true),
    ];
    for (a, b, is_below) in rows {
        assert_eq!(rt; tree.below(a, b), is_below);
    }
    Ok(())
}

#[test]
fn joins_are_the_least_above(rt: HostRuntime) -> Result<(), Fail> {
    let tree = tree(rt.alloc(), &PARENTS)?.ok_or("a tree")?;
    let rows: [(HType, HType, &[u8]); 8] = [
        (int(1), int(2), b"Int"),
        (int(1), int(1), b"Int=1"),
        (obj(ObjPart::Exact(6)), obj(ObjPart::Exact(7)), b"Obj<=A"),
        (obj(ObjPart::Exact(8)), obj(ObjPart::Exact(8)), b"Obj=C"),
        (obj(ObjPart::Sub(8)), obj(ObjPart::Exact(7)), b"Obj<=B"),
        (obj(ObjPart::Exact(8)), obj(ObjPart::Exact(9)), b"Obj"),
        (obj(ObjPart::No), obj(ObjPart::Sub(7)), b"Obj<=B"),
        (HType::CELL, HType::UNINIT, b"Uninit|Cell"),
    ];
    for (a, b, wanted) in rows {
        let above = join(&a, &b, &tree);
        expect(&rt, rt.alloc(), &above, wanted)?;
        assert_eq!(rt; le(&a, &above, &tree) && le(&b, &above, &tree), true);
    }
    assert_eq!(rt; le(&HType::CELL, &obj(ObjPart::Any), &tree), false);
    Ok(())
}

#[test]
fn constraints_keep_what_passes(rt: HostRuntime) -> Result<(), Fail> {
    let tree = tree(rt.alloc(), &PARENTS)?.ok_or("a tree")?;
    let rows: [(ObjPart, &[u8]); 8] = [
        (ObjPart::No, b"Never"),
        (ObjPart::Exact(8), b"Obj=C"),
        (ObjPart::Exact(6), b"Never"),
        (ObjPart::Sub(8), b"Obj<=C"),
        (ObjPart::Sub(6), b"Obj<=B"),
        (ObjPart::Sub(9), b"Never"),
        (ObjPart::Any, b"Obj<=B"),
        (ObjPart::Exact(7), b"Obj=B"),
    ];
    for (part, wanted) in rows {
        let kept = keep(&obj(part), &BELOW_B, &tree);
        expect(&rt, rt.alloc(), &kept, wanted)?;
    }
    Ok(())
}

#[test]
fn constraints_keep_no_slot_without_a_cell(rt: HostRuntime) -> Result<(), Fail> {
    let tree = tree(rt.alloc(), &PARENTS)?.ok_or("a tree")?;
    let all = join(&HType::CELL, &HType::UNINIT, &tree);
    expect(&rt, rt.alloc(), &keep(&all, &HType::CELL, &tree), b"Cell")?;
    let some = HType {
        null: true,
        yes: true,
        vec: Some(Leaf::NEVER),
        ..int(3)
    };
    let constraint = HType {
        no: true,
        yes: true,
        str: StrPart::Any,
        vec: Some(Leaf::CELL),
        ..HType::NEVER
    };
    let kept = keep(&some, &constraint, &tree);
    expect(&rt, rt.alloc(), &kept, b"True|Vec<Never>")
}

#[test]
fn literals_have_the_least_type(rt: HostRuntime) -> Result<(), Fail> {
    let alloc = rt.alloc();
    expect(&rt, alloc, &of_literal(&Cell::Null), b"Null")?;
    expect(&rt, alloc, &of_literal(&Cell::Bool(false)), b"False")?;
    expect(&rt, alloc, &of_literal(&Cell::Bool(true)), b"True")?;
    expect(&rt, alloc, &of_literal(&Cell::Int(-7)), b"Int=-7")?;
    let strings: [(&[u8], &[u8]); 3] = [
        (b"a\"\n\x01", b"Str=\"a\\\"\\n\\x01\""),
        (
            b"12345678901234567890123456789012",
            b"Str=\"12345678901234567890123456789012\"",
        ),
        (b"123456789012345678901234567890123", b"Str"),
    ];
    for (bytes, wanted) in strings {
        let cell = Cell::Str(Text::from_bytes(alloc, bytes)?);
        expect(&rt, alloc, &of_literal(&cell), wanted)?;
    }
    let vec = Cell::Vec(VecVal::new(alloc));
    expect(&rt, alloc, &of_literal(&vec), b"Vec<Never>")?;
    let dict = Cell::Dict(DictVal::new(alloc));
    expect(&rt, alloc, &of_literal(&dict), b"Dict<Never,Never>")?;
    let keyset = Cell::Keyset(KeysetVal::new(alloc));
    expect(&rt, alloc, &of_literal(&keyset), b"Keyset<Never>")
}

#[test]
fn laws_can_be_called(_rt: HostRuntime) -> Result<(), Fail> {
    classes_are_ordered();
    le_is_order();
    join_is_least_above();
    members_stay();
    literal_is_least();
    literal_is_proper();
    keep_is_greatest_below();
    height_is_bounded();
    depth_is_bounded();
    whole_is_above_cell();
    never_is_never();
    Ok(())
}

fn crosses<T: Send + Sync>(_value: &T) {}

#[test]
fn trees_cross_threads(rt: HostRuntime) -> Result<(), Fail> {
    crosses(&tree(rt.alloc(), &PARENTS)?.ok_or("a tree")?);
    crosses(&HType::NEVER);
    Ok(())
}
