// Replays whose files and sinks fail in turn, and the order of their refusals.
use crate::calls::{call, call_failing, expect};
use std::test::Fail;

#[test]
fn reads_that_fail_in_turn(rt: HostRuntime) -> Result<(), Fail> {
    let alloc = rt.alloc();
    let held = [
        (
            "s.toml",
            b"source = \"a.c\"\nweights = \"w.toml\"\n".as_slice(),
        ),
        ("w.toml", b"add = 1\n"),
        ("a.c", b"void frame(void) { }\n"),
        ("x.bin", b""),
    ];
    let words = ["replay", "s.toml", "x.bin"];
    let cases = [
        (1, 5, "fault 5 read s.toml\n"),
        (2, 5, "fault 5 read w.toml\n"),
        (3, 5, "fault 5 read a.c\n"),
        (4, 5, "fault 5 read x.bin\n"),
        (5, 0, "wmops replay 1\n"),
    ];
    for (failing, status, text) in cases {
        let answer = call_failing(alloc, &words, &held, &[failing], &[])?;
        expect(&rt, &answer, status, text);
    }
    for missing in 0..held.len() {
        let mut others = Vec::new(alloc);
        for (k, file) in held.iter().enumerate() {
            if k != missing {
                others.push(*file)?;
            }
        }
        assert_eq!(rt; call(alloc, &words, &others)?.status, 5, "{missing}");
    }
    Ok(())
}

#[test]
fn puts_that_fail(rt: HostRuntime) -> Result<(), Fail> {
    let alloc = rt.alloc();
    let held = [
        ("s.toml", b"source = \"a.c\"\n".as_slice()),
        ("a.c", b"void frame(void) { }\n"),
        ("x.bin", b""),
    ];
    let words = ["replay", "s.toml", "x.bin"];
    for failing_reads in [[9u64].as_slice(), &[2]] {
        let whole = call_failing(alloc, &words, &held, failing_reads, &[2])?;
        let cut = call_failing(alloc, &words, &held, failing_reads, &[1])?;
        assert_eq!(rt; cut.status, 6);
        assert!(rt; whole.text.starts_with(&cut.text));
    }
    Ok(())
}

/// With several things wrong, the first in the order of a call is told.
#[test]
fn refusals_in_their_order(rt: HostRuntime) -> Result<(), Fail> {
    let alloc = rt.alloc();
    let specification =
        b"source = \"a.c\"\nweights = \"w.toml\"\n[range]\nx = [0, 10]\n".as_slice();
    let sum = b"Word16 x; void frame(void) { x = add(x, 1); }".as_slice();
    let cases = [
        (
            b"add = 1".as_slice(),
            sum,
            b"\x01\x00".as_slice(),
            "wmops replay 1\nframe 1 count 1 overflow 0 ended\n",
        ),
        (b"add", b"\x01", b"\x01", "fault 3 NotToml w.toml\n"),
        (
            b"sub = 1",
            b"Word16 x, z[; \x01",
            b"\x01",
            "fault 2 BadByte a.c:1:15\n",
        ),
        (
            b"sub = 1",
            b"Word16 x, z[; void",
            b"\x01",
            "fault 2 Syntax a.c:1:13\n",
        ),
        (
            b"sub = 1",
            b"struct S { Word16 m; }; struct S s; void frame(void) { y = s->m; }",
            b"\x01",
            "fault 2 StructKind a.c:1:61\n",
        ),
        (
            b"sub = 1",
            b"void frame(void) { y = 0; }",
            b"\x01",
            "fault 2 UnknownName a.c:1:20\n",
        ),
        (
            b"add = 1",
            b"void frame(void) { }",
            b"\x01",
            "fault 2 BadInput x\n",
        ),
        (b"sub = 1", sum, b"\x01", "fault 3 MissingWeight add\n"),
        (
            b"add = 1",
            b"Word16 x; void frame(void) { x = mult(x, 1); x = sub(x, 1); }",
            b"\x01",
            "fault 3 MissingWeight sub\n",
        ),
        (b"add = 1", sum, b"\x0b\x00\x02", "fault 3 Rest 1\n"),
        (
            b"add = 1",
            sum,
            b"\x01\x00\x0b\x00",
            "fault 3 OutOfRange frame 2 x cell 0 value 11\n",
        ),
        (
            b"add = 1",
            b"Word16 x; void frame(void) { x = 1;",
            b"\x01",
            "fault 2 Syntax end\n",
        ),
    ];
    for (weights, source, samples, text) in cases {
        let held = [
            ("s.toml", specification),
            ("w.toml", weights),
            ("a.c", source),
            ("x.bin", samples),
        ];
        let answer = call(alloc, &["replay", "s.toml", "x.bin"], &held)?;
        assert!(rt; answer.text.as_slice() == text.as_bytes(), "{text}");
    }
    Ok(())
}
