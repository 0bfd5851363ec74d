use hhas_lex::TokenKind::{Directive, End, Integer, LessEqual, Local, Mark, Str, Word};
use hhas_lex::{LexFault, Lexer, Token, TokenKind, string_value};
use std::process::Abort;
use std::test::Fail;

/// A text, its tokens with their spans, and the place where the end or a fault comes.
#[derive(Drop)]
struct Case<'a> {
    text: &'a [u8],
    tokens: &'a [(TokenKind, u32, u32)],
    faults: bool,
    last: u32,
}

/// The tokens come, and then the end or the fault, again and again.
fn check(rt: &impl Abort, case: &Case) {
    assert!(rt; case.text.len() < 4_294_967_296);
    let last = if case.faults {
        Err(LexFault { at: case.last })
    } else {
        Ok(Token {
            kind: End,
            start: case.last,
            end: case.last,
        })
    };
    let mut lexer = Lexer::new(case.text);
    for (kind, start, end) in case.tokens {
        let token = Token {
            kind: *kind,
            start: *start,
            end: *end,
        };
        assert_eq!(rt; lexer.next(), Ok(token));
    }
    for _ in 0..3 {
        assert_eq!(rt; lexer.next(), last);
    }
}

fn ends<'a>(text: &'a [u8], tokens: &'a [(TokenKind, u32, u32)], last: u32) -> Case<'a> {
    Case {
        text,
        tokens,
        faults: false,
        last,
    }
}

fn faults<'a>(text: &'a [u8], tokens: &'a [(TokenKind, u32, u32)], last: u32) -> Case<'a> {
    Case {
        text,
        tokens,
        faults: true,
        last,
    }
}

#[test]
fn tokens_stand_at_their_spans(rt: HostRuntime) {
    let cases = [
        ends(b"", &[], 0),
        ends(b" \t\r\n#\r no end of the comment", &[], 28),
        ends(b"#a\nb#c\r\nd#", &[(Word, 3, 4), (Word, 8, 9)], 10),
        ends(
            b".profile 1;",
            &[(Directive, 0, 8), (Integer(1), 9, 10), (Mark(59), 10, 11)],
            11,
        ),
        ends(
            b"<<=<==<",
            &[
                (Mark(60), 0, 1),
                (LessEqual, 1, 3),
                (LessEqual, 3, 5),
                (Mark(61), 5, 6),
                (Mark(60), 6, 7),
            ],
            7,
        ),
        ends(b"00", &[(Integer(0), 0, 1), (Integer(0), 1, 2)], 2),
        ends(
            b"-12a\\B.c9$_x",
            &[
                (Integer(-12), 0, 3),
                (Word, 3, 6),
                (Directive, 6, 8),
                (Integer(9), 8, 9),
                (Local, 9, 12),
            ],
            12,
        ),
        ends(
            b"-9223372036854775808 9223372036854775807",
            &[(Integer(i64::MIN), 0, 20), (Integer(i64::MAX), 21, 40)],
            40,
        ),
        faults(b" -0", &[], 1),
        faults(b"-9223372036854775809", &[], 0),
        faults(b"9223372036854775808 a", &[], 0),
        faults(b"a . b", &[(Word, 0, 1)], 2),
        faults(b"#x\n$1", &[], 3),
        faults(b"\xc3", &[], 0),
    ];
    for case in &cases {
        check(&rt, case);
    }
}

const HEAD: [(TokenKind, u32, u32); 8] = [
    (Directive, 0, 8),
    (Integer(1), 9, 10),
    (Mark(59), 10, 11),
    (Directive, 12, 21),
    (Word, 22, 26),
    (Mark(40), 26, 27),
    (Mark(41), 27, 28),
    (Mark(123), 29, 30),
];

/// The bytes, some of one byte in a row behind them, and the rest.
fn text(
    rt: &HostRuntime,
    front: &[u8],
    byte: u8,
    times: usize,
    rest: &[u8],
) -> Result<Vec<u8>, Fail> {
    let mut text = Vec::from_slice(rt.alloc(), front)?;
    for _ in 0..times {
        text.push(byte)?;
    }
    text.extend_from_slice(rest)?;
    Ok(text)
}

#[test]
fn faults_of_a_program_come_at_their_place(rt: HostRuntime) -> Result<(), Fail> {
    let head = b".profile 1;\n.function main() {\n  ";
    let cases = [
        (b"String \"ab".as_slice(), 39, 40),
        (b"Int 9223372036854775808".as_slice(), 36, 37),
        (b"Int 9223372036854775808\n".as_slice(), 36, 37),
    ];
    for (line, word_end, fault) in &cases {
        let text = text(&rt, head, 0, 0, line)?;
        let mut tokens = HEAD.to_vec(rt.alloc())?;
        tokens.push((Word, 33, *word_end))?;
        check(&rt, &faults(text.as_slice(), tokens.as_slice(), *fault));
    }
    Ok(())
}

#[test]
fn names_have_100_bytes_at_most(rt: HostRuntime) -> Result<(), Fail> {
    let head = b".profile 1;\n.function ";
    let name = text(&rt, head, b'n', 100, b"")?;
    let mut tokens = HEAD[..4].to_vec(rt.alloc())?;
    tokens.push((Word, 22, 122))?;
    check(&rt, &ends(name.as_slice(), tokens.as_slice(), 122));
    let long = text(&rt, head, b'n', 101, b"() { Null RetC }\n")?;
    check(&rt, &faults(long.as_slice(), &HEAD[..4], 22));
    let local = text(&rt, b"$", b'n', 100, b"")?;
    check(&rt, &ends(local.as_slice(), &[(Local, 0, 101)], 101));
    let long_local = text(&rt, b"$", b'n', 101, b"")?;
    check(&rt, &faults(long_local.as_slice(), &[], 0));
    Ok(())
}

#[test]
fn string_values_have_1048576_bytes_at_most(rt: HostRuntime) -> Result<(), Fail> {
    let most = text(&rt, b"\"\\x4a", b'a', 1_048_575, b"\"")?;
    check(
        &rt,
        &ends(most.as_slice(), &[(Str, 0, 1_048_581)], 1_048_581),
    );
    let long = text(&rt, b"\"\\x4a", b'a', 1_048_576, b"\"")?;
    check(&rt, &faults(long.as_slice(), &[], 0));
    let unfinished = text(&rt, b"\"", b'a', 4_194_303, b"")?;
    check(&rt, &faults(unfinished.as_slice(), &[], 0));
    Ok(())
}

#[test]
fn strings_have_values(rt: HostRuntime) -> Result<(), Fail> {
    let cases = [
        (b"\"\"".as_slice(), b"".as_slice()),
        (b"\"a ~\"".as_slice(), b"a ~".as_slice()),
        (b"\"\\\"\\\\\\n\"".as_slice(), b"\"\\\n".as_slice()),
        (
            b"\"\\x0a\\xfF\\xEb0\"".as_slice(),
            b"\n\xff\xeb0".as_slice(),
        ),
    ];
    for (text, value) in &cases {
        assert!(rt; text.len() < 100);
        let token = Lexer::new(text).next();
        let Ok(token) = token else {
            return Err("no token")?;
        };
        assert_eq!(rt; token.kind, Str);
        assert_eq!(rt; token.end as usize, text.len());
        assert_eq!(rt; token.start, 0);
        let found = string_value(rt.alloc(), text, token)?;
        assert_eq!(rt; found.bytes(), *value);
    }
    for text in &[
        b"\"\\t\"".as_slice(),
        b"\"\\x4\"".as_slice(),
        b"\"\\xg0\"".as_slice(),
        b"\"\n\"".as_slice(),
        b"\"\x7f\"".as_slice(),
    ] {
        check(&rt, &faults(text, &[], 0));
    }
    Ok(())
}
