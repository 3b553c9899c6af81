// Certificates: what `prove` writes, what `check` accepts and why it refuses, and that no other command writes one.
use crate::calls::{Answer, call, call_failing, call_on, expect};
use crate::programs::{ALONE, COUNTER, COUNTER_FILES, ENERGY, HALVES, UNSET};
use std::alloc::Global;
use std::test::Fail;

const COUNTER_CERTIFICATE: &str =
    "wmops certificate 1\nheads 1\nhead 1 frame\nbound 1 0 99\nbound 2 0 0\nend\n";

const COUNTER_REPORT: &str =
    "wmops report 1\nsites 2\nsite 1 a.c:3:7 sub safe\nsite 2 a.c:3:27 add safe\n\
    loops 0\nstates 1\nstate 1 c 0..99\nbound 2\nresult safe\n";

const HALVES_CERTIFICATE: &str = "wmops certificate 1\nheads 2\nhead 1 frame\nbound 1 0 0\n\
    array 1 -32768 32767\narray 2 -16384 16383\nhead 2 loop 1 instance 1\nbound 1 0 40\nbound 2 0 40\n\
    bound 3 0 0\nminus 1 2 0 0\narray 1 -32768 32767\narray 2 -16384 16383\nend\n";

/// Checks a certificate of a source.
fn check(
    alloc: Global,
    specification: &str,
    source: &str,
    certificate: &[u8],
) -> Result<Answer, Fail> {
    let held = [
        ("s.toml", specification.as_bytes()),
        ("a.c", source.as_bytes()),
        ("c.txt", certificate),
    ];
    call(alloc, &["check", "s.toml"], &held)
}

/// The bytes with the first place of some bytes changed to others of any length, or nothing where they stand nowhere.
fn changed(alloc: Global, bytes: &[u8], from: &[u8], to: &[u8]) -> Result<Vec<u8>, Fail> {
    let mut whole = Vec::new(alloc);
    for k in 0..bytes.len() {
        if bytes[k..].starts_with(from) {
            whole.extend_from_slice(&bytes[..k])?;
            whole.extend_from_slice(to)?;
            whole.extend_from_slice(&bytes[k + from.len()..])?;
            return Ok(whole);
        }
    }
    Ok(whole)
}

#[test]
fn a_certificate_is_written(rt: HostRuntime) -> Result<(), Fail> {
    let alloc = rt.alloc();
    let answer = call_on(alloc, "prove", COUNTER_FILES, COUNTER)?;
    expect(&rt, &answer, 0, COUNTER_REPORT);
    assert!(rt; answer.certificate.as_slice() == COUNTER_CERTIFICATE.as_bytes());
    let none = call_on(alloc, "prove", ALONE, COUNTER)?;
    assert_eq!(rt; none.status, 0);
    assert!(rt; none.certificate.as_slice() == b"".as_slice());
    for command in ["worst", "headroom"] {
        let other = call_on(alloc, command, COUNTER_FILES, COUNTER)?;
        assert_eq!(rt; other.status, 0, "{command}");
        assert!(rt; other.certificate.as_slice() == b"".as_slice(), "{command}");
    }
    Ok(())
}

#[test]
fn certificates_of_a_counter(rt: HostRuntime) -> Result<(), Fail> {
    let alloc = rt.alloc();
    let whole = COUNTER_CERTIFICATE.as_bytes();
    let one_less = changed(alloc, whole, b"99", b"98")?;
    let leading_zero = changed(alloc, whole, b"99", b"099")?;
    let rows = [
        (whole, 0, COUNTER_REPORT),
        (
            one_less.as_slice(),
            4,
            "fault 4 NotInductive head 1 back bound 1 high have 99 allowed 98\n",
        ),
        (leading_zero.as_slice(), 4, "fault 4 BadText line 4\n"),
        (&whole[..40], 4, "fault 4 BadText line 3\n"),
        (HALVES_CERTIFICATE.as_bytes(), 4, "fault 4 WrongHeads\n"),
    ];
    for (certificate, status, text) in rows {
        let answer = check(alloc, COUNTER_FILES, COUNTER, certificate)?;
        expect(&rt, &answer, status, text);
        assert!(rt; answer.certificate.as_slice() == certificate);
    }
    Ok(())
}

/// The line through which the bytes of a certificate begin none, wherever they are cut or one of them is changed.
#[test]
fn certificates_that_are_cut_or_changed(rt: HostRuntime) -> Result<(), Fail> {
    let alloc = rt.alloc();
    let whole = COUNTER_CERTIFICATE.as_bytes();
    let mut longer = whole.to_vec(alloc)?;
    longer.push(b'\n')?;
    let rows = [
        (&whole[..0], "fault 4 BadText line 1\n"),
        (&whole[..41], "fault 4 BadText line 4\n"),
        (&whole[..69], "fault 4 BadText line 6\n"),
        (longer.as_slice(), "fault 4 BadText line 7\n"),
    ];
    for (certificate, text) in rows {
        let answer = check(alloc, COUNTER_FILES, COUNTER, certificate)?;
        expect(&rt, &answer, 4, text);
    }
    for k in 0..whole.len() {
        let mut other = whole.to_vec(alloc)?;
        other[k] = b'x';
        let answer = check(alloc, COUNTER_FILES, COUNTER, &other)?;
        assert_eq!(rt; answer.status, 4, "{k}");
        assert!(rt; answer.text.starts_with(b"fault 4 BadText line "), "{k}");
    }
    Ok(())
}

#[test]
fn a_certificate_of_a_loop(rt: HostRuntime) -> Result<(), Fail> {
    let alloc = rt.alloc();
    let specification = "source = \"a.c\"\ncertificate = \"c.txt\"\n[range]\nx = [-32768, 32767]\n";
    let answer = check(alloc, specification, HALVES, HALVES_CERTIFICATE.as_bytes())?;
    assert_eq!(rt; answer.status, 0);
    // a cell that the state at the start of a frame may hold is not allowed at the head of the loop
    let loose = changed(
        alloc,
        HALVES_CERTIFICATE.as_bytes(),
        b"array 2 -16384 16383\nend",
        b"array 2 -16384 16382\nend",
    )?;
    let refused = check(alloc, specification, HALVES, &loose)?;
    expect(
        &rt,
        &refused,
        4,
        "fault 4 NotInductive head 2 entry array 2 high have 16383 allowed 16382\n",
    );
    Ok(())
}

/// A certificate with a sum counter: one step less than the greatest square of a sample, twice, is refused.
#[test]
fn a_certificate_with_a_sum(rt: HostRuntime) -> Result<(), Fail> {
    let alloc = rt.alloc();
    let specification = "source = \"a.c\"\ncertificate = \"c.txt\"\n[range]\nx = [-4096, 4095]\n";
    let found = call_on(alloc, "prove", specification, ENERGY)?;
    assert_eq!(rt; found.status, 0);
    let same = check(alloc, specification, ENERGY, &found.certificate)?;
    assert_eq!(rt; same.status, 0);
    assert!(rt; same.text.as_slice() == found.text.as_slice());
    let less = changed(
        alloc,
        &found.certificate,
        b"head 2 loop 1 instance 1\nsum 2 33554432\n",
        b"head 2 loop 1 instance 1\nsum 2 33554431\n",
    )?;
    let refused = check(alloc, specification, ENERGY, &less)?;
    expect(
        &rt,
        &refused,
        4,
        "fault 4 NotInductive head 2 back minus 2 5 high have 1 allowed 0\n",
    );
    Ok(())
}

#[test]
fn certificates_that_are_not_there(rt: HostRuntime) -> Result<(), Fail> {
    let alloc = rt.alloc();
    let unnamed = check(alloc, ALONE, COUNTER, COUNTER_CERTIFICATE.as_bytes())?;
    expect(&rt, &unnamed, 3, "fault 3 MissingKey certificate\n");
    let not_held = call_on(alloc, "check", COUNTER_FILES, COUNTER)?;
    expect(&rt, &not_held, 5, "fault 5 read c.txt\n");
    Ok(())
}

/// A certificate that cannot be written: the line of the fault is put, and no report.
#[test]
fn a_certificate_that_cannot_be_written(rt: HostRuntime) -> Result<(), Fail> {
    let alloc = rt.alloc();
    let held = [
        ("s.toml", COUNTER_FILES.as_bytes()),
        ("a.c", COUNTER.as_bytes()),
    ];
    let answer = call_failing(alloc, &["prove", "s.toml"], &held, &[3], &[])?;
    expect(&rt, &answer, 6, "fault 6 write c.txt\n");
    assert!(rt;
        COUNTER_CERTIFICATE
            .as_bytes()
            .starts_with(&answer.certificate)
    );
    Ok(())
}

/// A certificate that is held stays as it is where samples are run.
#[test]
fn certificates_beside_samples(rt: HostRuntime) -> Result<(), Fail> {
    let alloc = rt.alloc();
    let named = "source = \"a.c\"\ncertificate = \"c.txt\"\n[range]\nx = [0, 0]\n";
    let held = [
        ("s.toml", named.as_bytes()),
        ("a.c", UNSET.as_bytes()),
        ("x.bin", b"\x00\x00".as_slice()),
        ("c.txt", b"kept".as_slice()),
    ];
    for command in ["observe", "replay"] {
        let answer = call(alloc, &[command, "s.toml", "x.bin"], &held)?;
        assert_eq!(rt; answer.status, 0, "{command}");
        assert!(rt;
            answer.certificate.as_slice() == b"kept".as_slice(),
            "{command}"
        );
    }
    Ok(())
}
