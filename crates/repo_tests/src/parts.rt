//! What texts say: types, and operands with their escapes.

use hhas_read::{is_reserved, read_parts};
use hhbc_ops::Op;
use hhbc_repo::{CodeParts, ImmParts, InstrParts, ItemParts};
use std::alloc::Global;
use std::process::Abort;
use type_lattice::{HType, IntPart, Leaf, ObjPart, Short, StrPart};

/// The string "ab".
const AB: StrPart = StrPart::One(Short {
    len: 2,
    bytes: [
        97, 98, 0, 0, 0, 0, 0, 0, 0, 0, 0, 0, 0, 0, 0, 0, 0, 0, 0, 0, 0, 0, 0, 0, 0, 0, 0, 0, 0, 0,
        0, 0,
    ],
});

const SCALARS: HType = HType {
    null: true,
    no: true,
    yes: true,
    int: IntPart::One(-5),
    str: AB,
    ..HType::NEVER
};

const WITHOUT_BRACKETS: HType = HType {
    uninit: true,
    obj: ObjPart::Sub(0),
    vec: Some(Leaf::CELL),
    dict: Some((Leaf::KEY, Leaf::CELL)),
    keyset: Some(Leaf::KEY),
    ..HType::NEVER
};

const LIST: Leaf = Leaf {
    null: true,
    int: IntPart::Any,
    obj: ObjPart::Exact(1),
    vec: true,
    ..Leaf::NEVER
};

const UNDER: Leaf = Leaf {
    no: true,
    yes: true,
    obj: ObjPart::Sub(2),
    ..Leaf::NEVER
};

const WITH_CLASSES: HType = HType {
    obj: ObjPart::Exact(0),
    vec: Some(LIST),
    dict: Some((Leaf::KEY, UNDER)),
    keyset: Some(Leaf::NEVER),
    ..HType::NEVER
};

/// Texts of a function that states a type, the type, and the classes that it names, numbered in the order of the text.
const TYPES: &[(&[u8], HType, &[&[u8]])] = &[
    (
        b".profile 1; .function f() .returns Never {}",
        HType::NEVER,
        &[],
    ),
    (
        b".profile 1; .function f() .returns Cell {}",
        HType::CELL,
        &[],
    ),
    (
        b".profile 1; .function f() .returns Uninit {}",
        HType::UNINIT,
        &[],
    ),
    (
        b".profile 1; .function f() .returns Null|Bool|Int=-5|Str=\"ab\" {}",
        SCALARS,
        &[],
    ),
    (
        b".profile 1; .function f() .returns Uninit|Obj<=C|Vec|Dict|Keyset {}",
        WITHOUT_BRACKETS,
        &[b"C"],
    ),
    (
        b".profile 1; .function f() .returns Obj=C|Vec<Null|Int|Obj=D|Vec>|Dict<Int|Str,Bool|Obj<=C>|Keyset<Never> {}",
        WITH_CLASSES,
        &[b"C", b"D", b"C"],
    ),
];

fn stands_for(rt: &impl Abort, alloc: Global, text: &[u8], wanted: HType, classes: &[&[u8]]) {
    assert!(rt; text.len() < 200);
    let Ok(parts) = read_parts(alloc, text) else {
        panic!(rt; "not read");
    };
    let [function] = parts.functions.as_slice() else {
        panic!(rt; "not one function");
    };
    let Some(stated) = &function.stated else {
        panic!(rt; "nothing stated");
    };
    assert_eq!(rt; stated.t, wanted);
    assert_eq!(rt; stated.classes.as_slice().len(), classes.len());
    for (class, name) in stated.classes.as_slice().iter().zip(classes) {
        assert!(rt; class.bytes() == *name);
    }
}

#[test]
fn types_are_read(rt: HostRuntime) {
    for (text, wanted, classes) in TYPES {
        stands_for(&rt, rt.alloc(), text, *wanted, classes);
    }
}

/// The instruction that stands there, without assertions.
fn instruction(item: &ItemParts) -> Option<&InstrParts> {
    match item {
        ItemParts::Position(position) => match &position.code {
            CodeParts::Plain(instruction) => Some(instruction),
            CodeParts::Member(_) => None,
        },
        _ => None,
    }
}

fn is_jump(item: &ItemParts, target: &[u8]) -> bool {
    match instruction(item) {
        Some(jump) => match jump.imms.as_slice() {
            [ImmParts::Pos(label)] => jump.op == Op::Jmp && label.bytes() == target,
            _ => false,
        },
        None => false,
    }
}

fn is_string(item: &ItemParts, value: &[u8]) -> bool {
    match instruction(item) {
        Some(string) => match string.imms.as_slice() {
            [ImmParts::Str(text)] => string.op == Op::String && text.bytes() == value,
            _ => false,
        },
        None => false,
    }
}

#[test]
fn strings_are_read_with_their_escapes(rt: HostRuntime) {
    let text = b".profile 1; .function main(){Jmp end end: String \"\\x41\\x0a\" RetC}";
    let Ok(parts) = read_parts(rt.alloc(), text) else {
        panic!(rt; "not read");
    };
    let [main] = parts.functions.as_slice() else {
        panic!(rt; "not one function");
    };
    let [jump, ItemParts::Label(label), string, _] = main.items.as_slice() else {
        panic!(rt; "other items");
    };
    assert!(rt; is_jump(jump, b"end"));
    assert!(rt; label.bytes() == b"end".as_slice());
    assert!(rt; is_string(string, b"A\n"));
}

/// Words, and whether no label is called so.
const WORDS: &[(&[u8], bool)] = &[
    (b"Nop", true),
    (b"Dim", true),
    (b"UnsetM", true),
    (b"AssertRATStk", true),
    (b"nop", false),
    (b"try", false),
    (b"default", false),
    (b"CGet", false),
];

#[test]
fn some_words_are_reserved(rt: HostRuntime) {
    for (word, reserved) in WORDS {
        assert_eq!(rt; is_reserved(word), *reserved);
    }
}
