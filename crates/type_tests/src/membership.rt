use hack_values::{Cell, DictVal, Heap, Key, KeysetVal, NoMemory, Object, Seq, Slot, Text, VecVal};
use std::alloc::Global;
use std::process::Abort;
use std::test::Fail;
use type_lattice::{ClassTree, HType, IntPart, Leaf, ObjPart, Short, StrPart};
use type_truth::is_member;

/// Class 1 descends from class 0, and class 2 from none.
fn tree(alloc: Global) -> Result<Option<ClassTree>, NoMemory> {
    let mut parents = Seq::new(alloc);
    parents.push(None)?;
    parents.push(Some(0))?;
    parents.push(None)?;
    Ok(ClassTree::new(parents))
}

fn object(alloc: Global, class: u32) -> Object {
    Object {
        class,
        props: Seq::new(alloc),
    }
}

/// Object 0 is of class 0, and object 1 of class 1.
fn heap(alloc: Global) -> Result<Heap, NoMemory> {
    let mut heap = Heap::new(alloc);
    heap.add(object(alloc, 0))?;
    heap.add(object(alloc, 1))?;
    Ok(heap)
}

fn short(first: u8) -> StrPart {
    let mut bytes = [0; 32];
    bytes[0] = first;
    StrPart::One(Short { len: 1, bytes })
}

/// The slot is of each type where that is wanted.
fn expect(rt: &impl Abort, alloc: Global, slot: &Slot, rows: &[(HType, bool)]) -> Result<(), Fail> {
    let heap = heap(alloc)?;
    if let Some(tree) = tree(alloc)? {
        for (t, wanted) in rows {
            assert_eq!(rt; is_member(slot, t, &heap, &tree), *wanted);
        }
    }
    Ok(())
}

fn expect_cell(
    rt: &impl Abort,
    alloc: Global,
    cell: Cell,
    rows: &[(HType, bool)],
) -> Result<(), Fail> {
    expect(rt, alloc, &Slot::Cell(cell), rows)
}

const NULL: HType = HType {
    null: true,
    ..HType::NEVER
};

const NO: HType = HType {
    no: true,
    ..HType::NEVER
};

const YES: HType = HType {
    yes: true,
    ..HType::NEVER
};

const SEVEN: HType = HType {
    int: IntPart::One(7),
    ..HType::NEVER
};

const INT: HType = HType {
    int: IntPart::Any,
    ..HType::NEVER
};

const STR: HType = HType {
    str: StrPart::Any,
    ..HType::NEVER
};

/// What holds ints alone.
const INTS: Leaf = Leaf {
    int: IntPart::Any,
    ..Leaf::NEVER
};

/// What holds vecs alone.
const VECS: Leaf = Leaf {
    vec: true,
    ..Leaf::NEVER
};

fn obj(part: ObjPart) -> HType {
    HType {
        obj: part,
        ..HType::NEVER
    }
}

fn vec(leaf: Leaf) -> HType {
    HType {
        vec: Some(leaf),
        ..HType::NEVER
    }
}

fn dict(key: Leaf, value: Leaf) -> HType {
    HType {
        dict: Some((key, value)),
        ..HType::NEVER
    }
}

fn keyset(element: Leaf) -> HType {
    HType {
        keyset: Some(element),
        ..HType::NEVER
    }
}

#[test]
fn scalars(rt: HostRuntime) -> Result<(), Fail> {
    let alloc = rt.alloc();
    let cell_types = [
        (HType::UNINIT, true),
        (HType::CELL, false),
        (HType::NEVER, false),
    ];
    expect(&rt, alloc, &Slot::Uninit, &cell_types)?;
    let rows = [
        (HType::CELL, true),
        (HType::UNINIT, false),
        (NULL, true),
        (NO, false),
    ];
    expect_cell(&rt, alloc, Cell::Null, &rows)?;
    let rows = [(HType::CELL, true), (NO, true), (YES, false), (NULL, false)];
    expect_cell(&rt, alloc, Cell::Bool(false), &rows)?;
    let rows = [(HType::CELL, true), (NO, false), (YES, true), (INT, false)];
    expect_cell(&rt, alloc, Cell::Bool(true), &rows)?;
    let rows = [
        (HType::CELL, true),
        (INT, true),
        (SEVEN, true),
        (STR, false),
        (HType::NEVER, false),
    ];
    expect_cell(&rt, alloc, Cell::Int(7), &rows)?;
    expect_cell(&rt, alloc, Cell::Int(-7), &[(INT, true), (SEVEN, false)])?;
    Ok(())
}

#[test]
fn strings(rt: HostRuntime) -> Result<(), Fail> {
    let alloc = rt.alloc();
    let a = HType {
        str: short(97),
        ..HType::NEVER
    };
    let rows = [(HType::CELL, true), (STR, true), (a, true), (INT, false)];
    expect_cell(&rt, alloc, Cell::Str(Text::from_bytes(alloc, b"a")?), &rows)?;
    let rows = [(STR, true), (a, false)];
    expect_cell(
        &rt,
        alloc,
        Cell::Str(Text::from_bytes(alloc, b"ab")?),
        &rows,
    )?;
    expect_cell(&rt, alloc, Cell::Str(Text::from_bytes(alloc, b"")?), &rows)?;
    Ok(())
}

#[test]
fn objects(rt: HostRuntime) -> Result<(), Fail> {
    let alloc = rt.alloc();
    let rows = [
        (HType::CELL, true),
        (obj(ObjPart::Any), true),
        (obj(ObjPart::Exact(0)), true),
        (obj(ObjPart::Sub(0)), true),
        (obj(ObjPart::Exact(1)), false),
        (obj(ObjPart::Sub(1)), false),
        (INT, false),
    ];
    expect_cell(&rt, alloc, Cell::Obj(0), &rows)?;
    let rows = [
        (obj(ObjPart::Exact(1)), true),
        (obj(ObjPart::Sub(1)), true),
        (obj(ObjPart::Sub(0)), true),
        (obj(ObjPart::Exact(0)), false),
        (obj(ObjPart::Sub(2)), false),
        (obj(ObjPart::No), false),
    ];
    expect_cell(&rt, alloc, Cell::Obj(1), &rows)?;
    Ok(())
}

#[test]
fn containers(rt: HostRuntime) -> Result<(), Fail> {
    let alloc = rt.alloc();
    let rows = [
        (vec(Leaf::NEVER), true),
        (HType::CELL, true),
        (dict(Leaf::KEY, Leaf::CELL), false),
    ];
    expect_cell(&rt, alloc, Cell::Vec(VecVal::new(alloc)), &rows)?;
    let rows = [
        (dict(Leaf::NEVER, Leaf::NEVER), true),
        (vec(Leaf::CELL), false),
    ];
    expect_cell(&rt, alloc, Cell::Dict(DictVal::new(alloc)), &rows)?;
    let rows = [
        (keyset(Leaf::NEVER), true),
        (dict(Leaf::KEY, Leaf::CELL), false),
    ];
    expect_cell(&rt, alloc, Cell::Keyset(KeysetVal::new(alloc)), &rows)?;
    let mut inner = VecVal::new(alloc);
    inner.append(Cell::Int(1))?;
    inner.append(Cell::Null)?;
    let mut outer = VecVal::new(alloc);
    outer.append(Cell::Vec(inner))?;
    let rows = [
        (vec(VECS), true),
        (vec(INTS), false),
        (vec(Leaf::NEVER), false),
    ];
    expect_cell(&rt, alloc, Cell::Vec(outer), &rows)?;
    let mut mixed = VecVal::new(alloc);
    mixed.append(Cell::Int(1))?;
    mixed.append(Cell::Null)?;
    let rows = [(vec(INTS), false), (vec(Leaf::CELL), true)];
    expect_cell(&rt, alloc, Cell::Vec(mixed), &rows)?;
    Ok(())
}

#[test]
fn dicts_and_keysets(rt: HostRuntime) -> Result<(), Fail> {
    let alloc = rt.alloc();
    let mut entries = DictVal::new(alloc);
    entries.add_elem(Key::Int(1), Cell::Int(2))?;
    entries.add_elem(Key::Str(Text::from_bytes(alloc, b"a")?), Cell::Int(3))?;
    let rows = [
        (dict(Leaf::KEY, INTS), true),
        (dict(INTS, INTS), false),
        (dict(Leaf::KEY, VECS), false),
        (HType::CELL, true),
    ];
    expect_cell(&rt, alloc, Cell::Dict(entries), &rows)?;
    let mut keys = KeysetVal::new(alloc);
    keys.add(Key::Int(1))?;
    keys.add(Key::Str(Text::from_bytes(alloc, b"a")?))?;
    let rows = [
        (keyset(Leaf::KEY), true),
        (keyset(INTS), false),
        (HType::CELL, true),
    ];
    expect_cell(&rt, alloc, Cell::Keyset(keys), &rows)?;
    Ok(())
}
