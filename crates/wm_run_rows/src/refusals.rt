// Words that are no command, and files and sinks that fail in turn.
use crate::calls::{call, call_failing, call_on, expect};
use crate::programs::{ALONE, COUNTER, COUNTER_FILES, ONE_MORE};
use std::test::Fail;

#[test]
fn unknown_words(rt: HostRuntime) -> Result<(), Fail> {
    let alloc = rt.alloc();
    let rows = [
        [].as_slice(),
        &["prove"],
        &["check"],
        &["worst"],
        &["headroom"],
        &["Prove", "s.toml"],
        &["prove", "s.toml", "s.toml"],
        &["replay", "s.toml"],
        &["observe", "s.toml"],
        &["replay", "s.toml", "x.bin", "x.bin"],
        &["demo"],
        &["demo", "0"],
        &["demo", "01"],
        &["demo", "501"],
        &["demo", "-1"],
        &["demo", "3", "3"],
    ];
    let held = [("s.toml", ALONE.as_bytes()), ("a.c", ONE_MORE.as_bytes())];
    for words in rows {
        let answer = call(alloc, words, &held)?;
        expect(&rt, &answer, 8, "fault 8 words\n");
    }
    Ok(())
}

/// The files are read in their order, and the one at which they fail is told; the certificate is written before the text is put.
#[test]
fn files_that_fail_in_turn(rt: HostRuntime) -> Result<(), Fail> {
    let alloc = rt.alloc();
    let held = [
        ("s.toml", COUNTER_FILES.as_bytes()),
        ("a.c", COUNTER.as_bytes()),
        (
            "c.txt",
            b"wmops certificate 1\nheads 1\nhead 1 frame\nbound 1 0 99\nbound 2 0 0\nend\n",
        ),
    ];
    let rows = [
        ("prove", 1, 5, "fault 5 read s.toml\n"),
        ("prove", 2, 5, "fault 5 read a.c\n"),
        ("prove", 3, 6, "fault 6 write c.txt\n"),
        ("worst", 2, 5, "fault 5 read a.c\n"),
        ("headroom", 1, 5, "fault 5 read s.toml\n"),
        ("check", 1, 5, "fault 5 read s.toml\n"),
        ("check", 2, 5, "fault 5 read a.c\n"),
        ("check", 3, 5, "fault 5 read c.txt\n"),
        (
            "worst",
            3,
            0,
            "wmops worst 1\nbound 2\nword add 1 1\nword sub 1 1\n",
        ),
    ];
    for (command, failing, status, text) in rows {
        let answer = call_failing(alloc, &[command, "s.toml"], &held, &[failing], &[])?;
        expect(&rt, &answer, status, text);
    }
    Ok(())
}

/// A text of which a prefix is put, where the sink fails; the certificate is whole by then.
#[test]
fn sinks_that_fail(rt: HostRuntime) -> Result<(), Fail> {
    let alloc = rt.alloc();
    let held = [
        ("s.toml", COUNTER_FILES.as_bytes()),
        ("a.c", COUNTER.as_bytes()),
    ];
    for failing_files in [[9u64].as_slice(), &[2]] {
        let whole = call_failing(alloc, &["prove", "s.toml"], &held, failing_files, &[2])?;
        let cut = call_failing(alloc, &["prove", "s.toml"], &held, failing_files, &[1])?;
        assert_eq!(rt; cut.status, 6);
        assert!(rt; whole.text.starts_with(&cut.text));
        assert!(rt; cut.certificate.as_slice() == whole.certificate.as_slice());
    }
    Ok(())
}

/// Each command tells what is wrong with a specification and its files.
#[test]
fn refused_specifications(rt: HostRuntime) -> Result<(), Fail> {
    let alloc = rt.alloc();
    let weights = [
        (
            "s.toml",
            b"source = \"a.c\"\nweights = \"w.toml\"\n".as_slice(),
        ),
        ("w.toml", b"add = 1\n"),
        ("a.c", b"Word16 y;\nvoid frame(void) { y = sub(y, 1); }\n"),
    ];
    for command in ["prove", "worst", "headroom"] {
        let unknown = call_on(alloc, command, "sorce = \"a.c\"\n", ONE_MORE)?;
        expect(&rt, &unknown, 3, "fault 3 MissingKey source\n");
        let weightless = call(alloc, &[command, "s.toml"], &weights)?;
        expect(&rt, &weightless, 3, "fault 3 MissingWeight sub\n");
        let refused = call_on(alloc, command, ALONE, "void frame(void) { y = 0; }")?;
        expect(&rt, &refused, 2, "fault 2 UnknownName a.c:1:20\n");
        let absent = call(alloc, &[command, "s.toml"], &[("s.toml", ALONE.as_bytes())])?;
        expect(&rt, &absent, 5, "fault 5 read a.c\n");
    }
    Ok(())
}
