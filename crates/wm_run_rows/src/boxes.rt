// Boxes alone, which relate no variable to another: the same findings where nothing rests on a relation, and the same answers to
// certificates.
use crate::calls::call_on;
use crate::programs::{
    ALONE, COUNTER, COUNTER_FILES, FULL, NEARLY_FULL, NORMALIZES, NORMALIZES_STEPS, NOT_NEGATIVE,
    ONE_MORE, QUOTIENT, QUOTIENT_OPEN, UNSET,
};
use std::alloc::Global;
use std::test::Fail;
use wm_boxes::Boxes;
use wm_files::MemoryFiles;
use wm_findings_text::report_text;
use wm_load::{Loaded, load};
use wm_ops::NoMemory;
use wm_proving::{Proof, checked, proved};
use wm_report::{RunFault, fault_text};

/// The program of a specification and a source.
fn loaded_of(
    alloc: Global,
    specification: &str,
    source: &str,
) -> Result<Result<Loaded, RunFault>, NoMemory> {
    let mut files = MemoryFiles::new(alloc, Vec::new(alloc));
    files.hold(b"s.toml", specification.as_bytes())?;
    files.hold(b"a.c", source.as_bytes())?;
    Ok(load(alloc, b"s.toml", &mut files))
}

/// The report of what boxes prove of a program, or the line of its fault.
fn report_by_boxes(alloc: Global, specification: &str, source: &str) -> Result<Vec<u8>, NoMemory> {
    match loaded_of(alloc, specification, source)? {
        Ok(loaded) => {
            let proof: Proof<Boxes> = proved(alloc, &loaded.program, &loaded.weights)?;
            report_text(alloc, &loaded.program, &loaded.spec, &proof.findings)
        }
        Err(fault) => fault_text(alloc, &fault),
    }
}

/// The report of a certificate of boxes, or the line of its fault.
fn report_of_certificate(
    alloc: Global,
    source: &str,
    certificate: &[u8],
) -> Result<Vec<u8>, NoMemory> {
    match loaded_of(alloc, COUNTER_FILES, source)? {
        Ok(loaded) => match checked::<Boxes>(alloc, &loaded.program, &loaded.weights, certificate) {
            Ok(proof) => report_text(alloc, &loaded.program, &loaded.spec, &proof.findings),
            Err(fault) => fault_text(alloc, &fault),
        },
        Err(fault) => fault_text(alloc, &fault),
    }
}

#[test]
fn the_same_findings(rt: HostRuntime) -> Result<(), Fail> {
    let alloc = rt.alloc();
    let rows = [
        (ALONE, "void frame(void) { }\n"),
        (NEARLY_FULL, ONE_MORE),
        (NOT_NEGATIVE, ONE_MORE),
        (
            "source = \"a.c\"\n[range]\nx = [-32768, 32767]\nz = [-32768, 32767]\n",
            "Word16 x, y, z;\nvoid frame(void) { y = mult(x, z); }\n",
        ),
        (
            "source = \"a.c\"\n[range]\na = [0, 10]\nb = [10, 20]\n",
            QUOTIENT,
        ),
        (QUOTIENT_OPEN, QUOTIENT),
        (FULL, "Word16 x, y;\nvoid frame(void) { y = abs_s(x); }\n"),
        (ALONE, COUNTER),
        (
            FULL,
            "Word16 x, s;\nvoid frame(void) { s = add(mult(s, 16384), shr(x, 1)); }\n",
        ),
        (NORMALIZES_STEPS, NORMALIZES),
        ("source = \"a.c\"\n[range]\nx = [0, 0]\n", UNSET),
    ];
    for (specification, source) in rows {
        let by_groups = call_on(alloc, "prove", specification, source)?;
        let by_boxes = report_by_boxes(alloc, specification, source)?;
        assert!(rt; by_boxes.starts_with(b"wmops report 1\n"));
        assert!(rt; by_boxes.as_slice() == by_groups.text.as_slice());
    }
    Ok(())
}

#[test]
fn the_same_answers_to_certificates(rt: HostRuntime) -> Result<(), Fail> {
    let alloc = rt.alloc();
    let report = call_on(alloc, "prove", ALONE, COUNTER)?;
    let whole = "wmops certificate 1\nheads 1\nhead 1 frame\nbound 1 0 99\nbound 2 0 0\nend\n";
    let accepted = report_of_certificate(alloc, COUNTER, whole.as_bytes())?;
    assert!(rt; accepted.as_slice() == report.text.as_slice());
    let rows = [
        (
            "wmops certificate 1\nheads 1\nhead 1 frame\nbound 1 0 98\nbound 2 0 0\nend\n",
            "fault 4 NotInductive head 1 back bound 1 high have 99 allowed 98\n",
        ),
        (
            "wmops certificate 1\nheads 1\nhead 1 frame\nbound 1 0 099\nbound 2 0 0\nend\n",
            "fault 4 BadText line 4\n",
        ),
        (
            "wmops certificate 1\nheads 1\nhead 1 frame\n",
            "fault 4 BadText line 4\n",
        ),
        (
            "wmops certificate 1\nheads 2\nhead 1 frame\nbound 1 0 0\narray 1 -32768 32767\n\
            array 2 -16384 16383\nhead 2 loop 1 instance 1\nbound 1 0 40\nbound 2 0 40\nbound 3 0 0\n\
            array 1 -32768 32767\narray 2 -16384 16383\nend\n",
            "fault 4 WrongHeads\n",
        ),
        // a pair of variables, which boxes do not relate
        (
            "wmops certificate 1\nheads 1\nhead 1 frame\nbound 1 0 99\nbound 2 0 0\nminus 1 2 0 98\nend\n",
            "fault 4 BadText line 6\n",
        ),
    ];
    for (certificate, text) in rows {
        let answer = report_of_certificate(alloc, COUNTER, certificate.as_bytes())?;
        assert!(rt; answer.as_slice() == text.as_bytes());
    }
    Ok(())
}
