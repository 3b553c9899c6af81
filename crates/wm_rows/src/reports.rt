// The lines of refusals and the texts of replays, as worked by hand.
use std::alloc::Global;
use std::test::Fail;
use wm_cert::{End2, Gap, Line};
use wm_lang::Name;
use wm_ops::{ControlWord, Counted, List, Op};
use wm_program::{Cause, End, Event, FrameResult, Program, What};
use wm_report::{At, RunFault, SourceName, fault_text, replay_text, status_of};

fn name(alloc: Global, bytes: &[u8]) -> Result<Name, Fail> {
    Ok(Name::new(alloc, bytes)?)
}

fn at(alloc: Global, line: u32, column: u32) -> Result<Option<At>, Fail> {
    Ok(Some(At {
        file: name(alloc, b"a.c")?,
        line,
        column,
    }))
}

/// The line of a refusal, without its line feed.
fn line_of(alloc: Global, fault: RunFault) -> Result<String, Fail> {
    let text = fault_text(alloc, &fault)?;
    let text = std::str::from_utf8(&text).unwrap_or("?");
    Ok(String::from_str(alloc, text.strip_suffix("\n").unwrap_or("no line feed"))?)
}

#[test]
fn faults_at_places(rt: HostRuntime) -> Result<(), Fail> {
    let alloc = rt.alloc();
    for (fault, line, column, told) in [
        (SourceName::Recursion, 2, 29, "fault 2 Recursion a.c:2:29"),
        (SourceName::OpenComment, 1, 1, "fault 2 OpenComment a.c:1:1"),
        (SourceName::MacroLoop, 2, 10, "fault 2 MacroLoop a.c:2:10"),
        (SourceName::BadLength, 1, 8, "fault 2 BadLength a.c:1:8"),
        (SourceName::StructKind, 4, 52, "fault 2 StructKind a.c:4:52"),
        (
            SourceName::TooManyTokens,
            1,
            1000001,
            "fault 2 TooManyTokens a.c:1:1000001",
        ),
    ] {
        let fault = RunFault::Source {
            fault,
            at: at(alloc, line, column)?,
        };
        assert_eq!(rt; line_of(alloc, fault)?.as_str(), told);
    }
    Ok(())
}

#[test]
fn too_many_at_a_place(rt: HostRuntime) -> Result<(), Fail> {
    let alloc = rt.alloc();
    let fault = RunFault::TooMany {
        what: What::LoopNest,
        at: at(alloc, 9, 3)?,
    };
    assert_eq!(rt;
        line_of(alloc, fault)?.as_str(),
        "fault 2 TooMany LoopNest a.c:9:3"
    );
    Ok(())
}

/// A fault that tells nothing but a name.
#[derive(Clone, Copy)]
enum Naming {
    NoFrame,
    NoInit,
    BadInput,
    FileTooLong,
    NotToml,
    MissingKey,
    UnknownKey,
    BadValue,
    BadKey,
    BadNumber,
    ReadFailed,
    WriteFailed,
}

fn fault_naming(kind: Naming, name: Name) -> RunFault {
    match kind {
        Naming::NoFrame => RunFault::NoFrame { name },
        Naming::NoInit => RunFault::NoInit { name },
        Naming::BadInput => RunFault::BadInput { name },
        Naming::FileTooLong => RunFault::FileTooLong { name },
        Naming::NotToml => RunFault::NotToml { name },
        Naming::MissingKey => RunFault::MissingKey { key: name },
        Naming::UnknownKey => RunFault::UnknownKey { key: name },
        Naming::BadValue => RunFault::BadValue { key: name },
        Naming::BadKey => RunFault::BadKey { key: name },
        Naming::BadNumber => RunFault::BadNumber { key: name },
        Naming::ReadFailed => RunFault::ReadFailed { name },
        Naming::WriteFailed => RunFault::WriteFailed { name },
    }
}

#[test]
fn faults_with_names(rt: HostRuntime) -> Result<(), Fail> {
    let alloc = rt.alloc();
    for (kind, bytes, told) in [
        (
            Naming::NoFrame,
            b"frame".as_slice(),
            "fault 2 NoFrame frame",
        ),
        (Naming::NoInit, b"init".as_slice(), "fault 2 NoInit init"),
        (Naming::BadInput, b"q".as_slice(), "fault 2 BadInput q"),
        (
            Naming::FileTooLong,
            b"s.toml".as_slice(),
            "fault 3 TooLong s.toml",
        ),
        (
            Naming::NotToml,
            b"w.toml".as_slice(),
            "fault 3 NotToml w.toml",
        ),
        (
            Naming::MissingKey,
            b"source".as_slice(),
            "fault 3 MissingKey source",
        ),
        (
            Naming::UnknownKey,
            b" a\x7f\xc3~!".as_slice(),
            "fault 3 UnknownKey ?a??~!",
        ),
        (
            Naming::BadValue,
            b"steps".as_slice(),
            "fault 3 BadValue steps",
        ),
        (
            Naming::BadKey,
            b"round_fx".as_slice(),
            "fault 3 BadKey round_fx",
        ),
        (
            Naming::BadNumber,
            b"add".as_slice(),
            "fault 3 BadNumber add",
        ),
        (Naming::ReadFailed, b"a.c".as_slice(), "fault 5 read a.c"),
        (
            Naming::WriteFailed,
            b"c.txt".as_slice(),
            "fault 6 write c.txt",
        ),
    ] {
        let fault = fault_naming(kind, name(alloc, bytes)?);
        assert_eq!(rt; line_of(alloc, fault)?.as_str(), told);
    }
    Ok(())
}

/// A fault without a name.
#[derive(Clone, Copy)]
enum Plain {
    SourcesTooLong,
    SyntaxAtTheEnd,
    TooManyHeads,
    NoWeight(Counted),
    Rest,
    CertificateTooLong,
    BadText,
    WrongHeads,
    Memory,
    Words,
}

fn fault_without_name(kind: Plain) -> RunFault {
    match kind {
        Plain::SourcesTooLong => RunFault::SourcesTooLong,
        Plain::SyntaxAtTheEnd => RunFault::Source {
            fault: SourceName::Syntax,
            at: None,
        },
        Plain::TooManyHeads => RunFault::TooMany {
            what: What::Heads,
            at: None,
        },
        Plain::NoWeight(word) => RunFault::MissingWeight { word },
        Plain::Rest => RunFault::Rest { bytes: 1 },
        Plain::CertificateTooLong => RunFault::CertificateTooLong,
        Plain::BadText => RunFault::BadText { line: 4 },
        Plain::WrongHeads => RunFault::WrongHeads,
        Plain::Memory => RunFault::Memory,
        Plain::Words => RunFault::Words,
    }
}

#[test]
fn faults_without_names(rt: HostRuntime) -> Result<(), Fail> {
    let alloc = rt.alloc();
    for (kind, told) in [
        (Plain::SourcesTooLong, "fault 2 TooLong"),
        (Plain::SyntaxAtTheEnd, "fault 2 Syntax end"),
        (Plain::TooManyHeads, "fault 2 TooMany Heads"),
        (
            Plain::NoWeight(Counted::Operator(Op::Sub)),
            "fault 3 MissingWeight sub",
        ),
        (
            Plain::NoWeight(Counted::Word(ControlWord::If)),
            "fault 3 MissingWeight IF",
        ),
        (Plain::Rest, "fault 3 Rest 1"),
        (Plain::CertificateTooLong, "fault 4 TooLong"),
        (Plain::BadText, "fault 4 BadText line 4"),
        (Plain::WrongHeads, "fault 4 WrongHeads"),
        (Plain::Memory, "fault 7 memory"),
        (Plain::Words, "fault 8 words"),
    ] {
        assert_eq!(rt; line_of(alloc, fault_without_name(kind))?.as_str(), told);
    }
    Ok(())
}

#[test]
fn samples_out_of_range(rt: HostRuntime) -> Result<(), Fail> {
    let alloc = rt.alloc();
    for (frame, cell, value, told) in [
        (
            0,
            0,
            32767,
            "fault 3 OutOfRange frame 1 x cell 0 value 32767",
        ),
        (8, 3, -3, "fault 3 OutOfRange frame 9 x cell 3 value -3"),
    ] {
        let fault = RunFault::OutOfRange {
            frame,
            name: name(alloc, b"x")?,
            cell,
            value,
        };
        assert_eq!(rt; line_of(alloc, fault)?.as_str(), told);
    }
    Ok(())
}

#[test]
fn gaps(rt: HostRuntime) -> Result<(), Fail> {
    let alloc = rt.alloc();
    for (head, back, line, end, have, allowed, told) in [
        (
            1,
            true,
            Line::Minus {
                first: 1,
                second: 4,
            },
            End2::High,
            1,
            Some(0),
            "fault 4 NotInductive head 2 back minus 2 5 high have 1 allowed 0",
        ),
        (
            0,
            true,
            Line::Bound { variable: 0 },
            End2::High,
            99,
            Some(98),
            "fault 4 NotInductive head 1 back bound 1 high have 99 allowed 98",
        ),
        (
            2,
            false,
            Line::Plus {
                first: 0,
                second: 9,
            },
            End2::Low,
            -7,
            Some(-6),
            "fault 4 NotInductive head 3 entry plus 1 10 low have -7 allowed -6",
        ),
        (
            4,
            false,
            Line::Array { array: 2 },
            End2::Low,
            0,
            None,
            "fault 4 NotInductive head 5 entry array 3 low have 0 allowed none",
        ),
    ] {
        let gap = Gap {
            head,
            back,
            line,
            end,
            have,
            allowed,
        };
        assert_eq!(rt; status_of(&RunFault::NotInductive { gap }), 4);
        assert_eq!(rt;
            line_of(alloc, RunFault::NotInductive { gap })?.as_str(),
            told
        );
    }
    Ok(())
}

fn program_of(alloc: Global, init: Option<u32>) -> Program {
    Program {
        functions: List::new(alloc),
        objects: List::new(alloc),
        sites: List::new(alloc),
        loops: List::new(alloc),
        instances: List::new(alloc),
        inputs: List::new(alloc),
        constants: List::new(alloc),
        init,
        frame: 0,
    }
}

fn found(
    alloc: Global,
    count: u128,
    overflow: i64,
    events: &[Event],
    end: End,
) -> Result<FrameResult, Fail> {
    let mut list = List::new(alloc);
    for event in events {
        list.push(*event)?;
    }
    Ok(FrameResult {
        count,
        overflow,
        events: list,
        end,
    })
}

/// The text of a replay whose init, where there is one, counts 2.
fn replayed(alloc: Global, init: Option<u32>, frames: &[FrameResult]) -> Result<String, Fail> {
    let start = found(alloc, 2, 0, &[], End::Ended)?;
    let text = replay_text(alloc, &program_of(alloc, init), &start, frames)?;
    Ok(String::from_str(alloc, std::str::from_utf8(&text).unwrap_or("?"))?)
}

#[test]
fn replay_of_no_frame(rt: HostRuntime) -> Result<(), Fail> {
    assert_eq!(rt;
        replayed(rt.alloc(), None, &[])?.as_str(),
        "wmops replay 1\n"
    );
    Ok(())
}

#[test]
fn a_frame_ends_stops_or_runs_out_of_steps(rt: HostRuntime) -> Result<(), Fail> {
    let alloc = rt.alloc();
    for (init, count, end, told) in [
        (
            None,
            0,
            End::Stopped {
                site: 0,
                cause: Cause::Unset,
            },
            "wmops replay 1\nframe 1 count 0 overflow 0 stopped site 1 unset\n",
        ),
        (
            None,
            8,
            End::StepLimit,
            "wmops replay 1\nframe 1 count 8 overflow 0 steps\n",
        ),
        (
            Some(0),
            499,
            End::Ended,
            "wmops replay 1\ninit count 2 overflow 0 ended\nframe 1 count 499 overflow 0 ended\n",
        ),
    ] {
        let frames = [found(alloc, count, 0, &[], end)?];
        assert_eq!(rt; replayed(alloc, init, &frames)?.as_str(), told);
    }
    Ok(())
}

#[test]
fn failures_stand_by_site_and_cause(rt: HostRuntime) -> Result<(), Fail> {
    let alloc = rt.alloc();
    let many = Event {
        site: 9,
        cause: Cause::Saturates,
        times: 40,
    };
    let last = Event {
        site: 0,
        cause: Cause::Domain,
        times: 1,
    };
    let end = End::Stopped {
        site: 0,
        cause: Cause::Domain,
    };
    let frames = [
        found(alloc, 3, 1, &[many], End::Ended)?,
        found(alloc, 1, 0, &[many, last], end)?,
    ];
    assert_eq!(rt;
        replayed(alloc, None, &frames)?.as_str(),
        "wmops replay 1\nframe 1 site 10 saturates 40\nframe 1 count 3 overflow 1 ended\n\
         frame 2 site 10 saturates 40\nframe 2 site 1 domain 1\n\
         frame 2 count 1 overflow 0 stopped site 1 domain\n"
    );
    Ok(())
}
