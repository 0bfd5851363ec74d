use hhbc_ops::{
    ImmKind, Op, has_next, immediates, inc_dec_name, inc_dec_named, is_type_name, is_type_named,
    may_throw, name_of, op_named, query_mode_name, query_mode_named, set_op_name, set_op_named,
};
use std::test::Fail;

/// A line of the table: an instruction, its name, its operands, whether it may throw, and whether it has a next.
type Line = (Op, &'static str, &'static [ImmKind], bool, bool);

const CONSTANTS_AND_LOCALS: [Line; 19] = [
    (Op::Nop, "Nop", &[], false, true),
    (Op::Null, "Null", &[], false, true),
    (Op::True, "True", &[], false, true),
    (Op::False, "False", &[], false, true),
    (Op::Int, "Int", &[ImmKind::Int], false, true),
    (Op::String, "String", &[ImmKind::Str], false, true),
    (Op::NullUninit, "NullUninit", &[], false, true),
    (Op::PopC, "PopC", &[], false, true),
    (Op::PopU, "PopU", &[], false, true),
    (Op::Dup, "Dup", &[], false, true),
    (Op::PopL, "PopL", &[ImmKind::Local], false, true),
    (Op::SetL, "SetL", &[ImmKind::Local], false, true),
    (Op::CGetL, "CGetL", &[ImmKind::Local], true, true),
    (Op::CGetQuietL, "CGetQuietL", &[ImmKind::Local], false, true),
    (Op::CGetL2, "CGetL2", &[ImmKind::Local], true, true),
    (Op::PushL, "PushL", &[ImmKind::Local], true, true),
    (Op::UnsetL, "UnsetL", &[ImmKind::Local], false, true),
    (
        Op::SetOpL,
        "SetOpL",
        &[ImmKind::Local, ImmKind::SetOp],
        true,
        true,
    ),
    (
        Op::IncDecL,
        "IncDecL",
        &[ImmKind::Local, ImmKind::IncDec],
        true,
        true,
    ),
];

const OPERATORS: [Line; 25] = [
    (Op::Concat, "Concat", &[], true, true),
    (Op::Add, "Add", &[], true, true),
    (Op::Sub, "Sub", &[], true, true),
    (Op::Mul, "Mul", &[], true, true),
    (Op::Mod, "Mod", &[], true, true),
    (Op::BitAnd, "BitAnd", &[], true, true),
    (Op::BitOr, "BitOr", &[], true, true),
    (Op::BitXor, "BitXor", &[], true, true),
    (Op::Shl, "Shl", &[], true, true),
    (Op::Shr, "Shr", &[], true, true),
    (Op::Same, "Same", &[], false, true),
    (Op::NSame, "NSame", &[], false, true),
    (Op::Lt, "Lt", &[], true, true),
    (Op::Lte, "Lte", &[], true, true),
    (Op::Gt, "Gt", &[], true, true),
    (Op::Gte, "Gte", &[], true, true),
    (Op::Cmp, "Cmp", &[], true, true),
    (Op::BitNot, "BitNot", &[], true, true),
    (Op::CastInt, "CastInt", &[], true, true),
    (Op::CastString, "CastString", &[], true, true),
    (Op::Not, "Not", &[], false, true),
    (Op::CastBool, "CastBool", &[], false, true),
    (Op::IsTypeC, "IsTypeC", &[ImmKind::IsType], false, true),
    (
        Op::IsTypeL,
        "IsTypeL",
        &[ImmKind::Local, ImmKind::IsType],
        true,
        true,
    ),
    (
        Op::InstanceOfD,
        "InstanceOfD",
        &[ImmKind::Class],
        false,
        true,
    ),
];

const CONTAINERS_AND_JUMPS: [Line; 13] = [
    (Op::NewVec, "NewVec", &[ImmKind::Count], false, true),
    (
        Op::NewKeysetArray,
        "NewKeysetArray",
        &[ImmKind::Count],
        true,
        true,
    ),
    (
        Op::NewDictArray,
        "NewDictArray",
        &[ImmKind::Count],
        false,
        true,
    ),
    (Op::AddElemC, "AddElemC", &[], true, true),
    (Op::AddNewElemC, "AddNewElemC", &[], true, true),
    (Op::Jmp, "Jmp", &[ImmKind::Label], false, false),
    (Op::JmpZ, "JmpZ", &[ImmKind::Label], false, true),
    (Op::JmpNZ, "JmpNZ", &[ImmKind::Label], false, true),
    (
        Op::Switch,
        "Switch",
        &[ImmKind::Int, ImmKind::Switch],
        false,
        false,
    ),
    (Op::SSwitch, "SSwitch", &[ImmKind::SSwitch], false, false),
    (Op::RetC, "RetC", &[], false, false),
    (Op::Throw, "Throw", &[], true, false),
    (Op::Fatal, "Fatal", &[], false, false),
];

const CALLS_AND_OBJECTS: [Line; 16] = [
    (
        Op::ClsCnsD,
        "ClsCnsD",
        &[ImmKind::Name, ImmKind::Class],
        false,
        true,
    ),
    (
        Op::FCallFuncD,
        "FCallFuncD",
        &[ImmKind::Count, ImmKind::Name],
        true,
        true,
    ),
    (
        Op::FCallObjMethodD,
        "FCallObjMethodD",
        &[ImmKind::Count, ImmKind::Name],
        true,
        true,
    ),
    (
        Op::FCallClsMethodD,
        "FCallClsMethodD",
        &[ImmKind::Count, ImmKind::Name, ImmKind::Class],
        true,
        true,
    ),
    (Op::NewObjD, "NewObjD", &[ImmKind::Class], false, true),
    (Op::FCallCtor, "FCallCtor", &[ImmKind::Count], true, true),
    (Op::LockObj, "LockObj", &[], true, true),
    (Op::This, "This", &[], true, true),
    (Op::BareThis, "BareThis", &[], false, true),
    (Op::CheckThis, "CheckThis", &[], true, true),
    (
        Op::IterInit,
        "IterInit",
        &[ImmKind::Iter, ImmKind::IterLocals, ImmKind::Label],
        true,
        true,
    ),
    (
        Op::IterNext,
        "IterNext",
        &[ImmKind::Iter, ImmKind::IterLocals, ImmKind::Label],
        false,
        true,
    ),
    (Op::IterFree, "IterFree", &[ImmKind::Iter], false, true),
    (
        Op::VerifyParamType,
        "VerifyParamType",
        &[ImmKind::Local, ImmKind::Constraint],
        true,
        true,
    ),
    (
        Op::VerifyRetTypeC,
        "VerifyRetTypeC",
        &[ImmKind::Constraint],
        true,
        true,
    ),
    (Op::Print, "Print", &[], true, true),
];

fn is_in_the_table(line: &Line) -> bool {
    let (op, name, kinds, throws, next) = line;
    name_of(*op) == *name
        && op_named(name.as_bytes()) == Some(*op)
        && immediates(*op) == *kinds
        && may_throw(*op) == *throws
        && has_next(*op) == *next
}

#[test]
fn constants_and_locals(rt: HostRuntime) -> Result<(), Fail> {
    for line in &CONSTANTS_AND_LOCALS {
        assert!(rt; is_in_the_table(line));
    }
    Ok(())
}

#[test]
fn operators(rt: HostRuntime) -> Result<(), Fail> {
    for line in &OPERATORS {
        assert!(rt; is_in_the_table(line));
    }
    Ok(())
}

#[test]
fn containers_and_jumps(rt: HostRuntime) -> Result<(), Fail> {
    for line in &CONTAINERS_AND_JUMPS {
        assert!(rt; is_in_the_table(line));
    }
    Ok(())
}

#[test]
fn calls_and_objects(rt: HostRuntime) -> Result<(), Fail> {
    for line in &CALLS_AND_OBJECTS {
        assert!(rt; is_in_the_table(line));
    }
    Ok(())
}

#[test]
fn names_of_no_instruction(rt: HostRuntime) -> Result<(), Fail> {
    let names: [&'static str; 9] = [
        "",
        "nop",
        "Nopp",
        "CGetS",
        "SetS",
        "QueryM",
        "Dim",
        "AssertRATL",
        "FCallFunc",
    ];
    for name in names {
        assert_eq!(rt; op_named(name.as_bytes()), None);
    }
    Ok(())
}

#[test]
fn words_of_operands(rt: HostRuntime) -> Result<(), Fail> {
    let set_ops: [&'static str; 10] = [
        "PlusEqual",
        "MinusEqual",
        "MulEqual",
        "ModEqual",
        "ConcatEqual",
        "AndEqual",
        "OrEqual",
        "XorEqual",
        "SlEqual",
        "SrEqual",
    ];
    for word in set_ops {
        assert_eq!(rt;
            set_op_named(word.as_bytes()).map(|found| set_op_name(found)),
            Some(word)
        );
    }
    let inc_decs: [&'static str; 4] = ["PreInc", "PostInc", "PreDec", "PostDec"];
    for word in inc_decs {
        assert_eq!(rt;
            inc_dec_named(word.as_bytes()).map(|found| inc_dec_name(found)),
            Some(word)
        );
    }
    let modes: [&'static str; 3] = ["CGet", "CGetQuiet", "Isset"];
    for word in modes {
        assert_eq!(rt;
            query_mode_named(word.as_bytes()).map(|found| query_mode_name(found)),
            Some(word)
        );
    }
    let kinds: [&'static str; 8] = ["Null", "Bool", "Int", "Str", "Vec", "Dict", "Keyset", "Obj"];
    for word in kinds {
        assert_eq!(rt;
            is_type_named(word.as_bytes()).map(|found| is_type_name(found)),
            Some(word)
        );
    }
    assert_eq!(rt; set_op_named(b"DivEqual"), None);
    assert_eq!(rt; inc_dec_named(b"Inc"), None);
    assert_eq!(rt; query_mode_named(b"Empty"), None);
    assert_eq!(rt; is_type_named(b"Dbl"), None);
    Ok(())
}
