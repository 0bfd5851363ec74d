//! Look-ups in repositories that are read.

use hack_values::Text;
use hhas_read::read_text;
use hhbc_repo::Repo;
use std::alloc::Global;
use std::process::Abort;

/// Four classes behind the six that are built in, and four methods behind two functions.
const SMALL: &[u8] =
    b".profile 1;.function f(){}.function g(){}.class A{.property p=1;.property q=2;.method m(){}.method n(){}}.class B extends A{.property r=3;.method n(){}.method o(){}}.class C extends Exception{}.class D extends C{}";

/// Names, each with the number of the function and of the class that has it.
const NAMES: &[(&[u8], Option<u32>, Option<u32>)] = &[
    (b"g", Some(1), None),
    (b"B", None, Some(7)),
    (b"Exception", None, Some(0)),
    (b"m", None, None),
];

/// Bodies, each with its name and class.
const BODIES: &[(u32, &[u8], Option<u32>)] = &[
    (1, b"g", None),
    (3, b"n", Some(6)),
    (4, b"n", Some(7)),
];

/// Classes and names, each with the number of the method and of the property that the class has by the name.
const MEMBERS: &[(u32, &[u8], Option<u32>, Option<u32>)] = &[
    (6, b"n", Some(3), None),
    (6, b"o", None, None),
    (7, b"n", Some(4), None),
    (7, b"m", Some(2), None),
    (7, b"q", None, Some(2)),
    (7, b"r", None, Some(3)),
    (7, b"message", None, None),
    (9, b"message", None, Some(0)),
];

pub(crate) fn read(rt: &impl Abort, alloc: Global, text: &[u8]) -> Repo {
    let Ok(text) = Text::from_bytes(alloc, text) else {
        panic!(rt; "no memory");
    };
    assert!(rt; text.bytes().len() < 1000);
    match read_text(alloc, &text) {
        Ok(repo) => repo,
        Err(_) => panic!(rt; "not read"),
    }
}

#[test]
fn functions_and_classes_are_found(rt: HostRuntime) {
    let repo = read(&rt, rt.alloc(), SMALL);
    for (name, function, class) in NAMES {
        assert_eq!(rt; repo.find_function(name), *function);
        assert_eq!(rt; repo.find_class(name), *class);
    }
}

#[test]
fn bodies_have_numbers(rt: HostRuntime) {
    let repo = read(&rt, rt.alloc(), SMALL);
    assert_eq!(rt; repo.bodies(), 6);
    for (number, name, class) in BODIES {
        assert!(rt; *number < repo.bodies());
        assert!(rt; repo.body(*number).name.bytes() == *name);
        assert_eq!(rt; repo.class_of(*number), *class);
    }
}

#[test]
fn classes_have_members(rt: HostRuntime) {
    let repo = read(&rt, rt.alloc(), SMALL);
    for (class, name, method, property) in MEMBERS {
        assert!(rt; (*class as usize) < repo.class_names().len());
        assert_eq!(rt; repo.method_of(*class, name), *method);
        assert_eq!(rt; repo.property_of(*class, name), *property);
    }
}

/// Texts, each with the regions of its function.
const REGIONS: &[(&[u8], &[(u32, u32, u32)])] = &[
    (b".profile 1;.function f(){Nop Nop}", &[]),
    (
        b".profile 1;.function f(){.try{Nop Nop}.catch{Nop}.try{Nop}.catch{Nop Nop}}",
        &[(0, 2, 3), (3, 4, 6)],
    ),
    (
        b".profile 1;.function f(){Nop .try{Nop .try{Nop}.catch{Nop}Nop}.catch{Nop}}",
        &[(1, 5, 6), (2, 3, 4)],
    ),
    (
        b".profile 1;.function f(){.try{Nop}.catch{.try{Nop}.catch{Nop}Nop}}",
        &[(0, 1, 4), (1, 2, 3)],
    ),
    (
        b".profile 1;.function f(){a:.try{b:Nop c:}.catch{d:Nop e:}g:}",
        &[(0, 1, 2)],
    ),
];

fn has_regions(rt: &impl Abort, alloc: Global, text: &[u8], wanted: &[(u32, u32, u32)]) {
    let repo = read(rt, alloc, text);
    let [function] = repo.functions() else {
        panic!(rt; "not one function");
    };
    let regions = function.regions.as_slice();
    assert_eq!(rt; regions.len(), wanted.len());
    for (region, (first, mid, last)) in regions.iter().zip(wanted) {
        assert_eq!(rt;
            (region.first, region.mid, region.last),
            (*first, *mid, *last)
        );
    }
}

#[test]
fn bodies_have_regions(rt: HostRuntime) {
    for (text, regions) in REGIONS {
        has_regions(&rt, rt.alloc(), text, regions);
    }
}
