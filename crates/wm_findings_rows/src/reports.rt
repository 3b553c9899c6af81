// Texts of what is found.
use crate::programs::{add_instance, add_loop, add_object, add_site, empty, place, specification};
use std::alloc::Global;
use std::test::Fail;
use wm_arrays::{StateLine, Summary};
use wm_findings::{Findings, Seen, Turns, Verdict};
use wm_findings_text::{demo_text, is_safe, observe_text, report_text};
use wm_flow::Bound;
use wm_interval::Interval;
use wm_ops::{List, Op};
use wm_program::{Program, SiteKind, Spec};

fn no_findings(alloc: Global) -> Findings {
    Findings {
        sites: List::new(alloc),
        loops: List::new(alloc),
        states: List::new(alloc),
        bounds: List::new(alloc),
    }
}

fn safe(found: &mut Findings, sites: usize) -> Result<(), Fail> {
    for _site in 0..sites {
        found.sites.push(Verdict::Safe { unset: false })?;
    }
    Ok(())
}

fn text(bytes: &[u8]) -> &str {
    std::str::from_utf8(bytes).unwrap_or("?")
}

/// Two functions of a list, each with its bound.
fn two_functions(alloc: Global, frame_us: Option<u32>) -> Result<(Program, Spec, Findings), Fail> {
    let mut program = empty(alloc);
    add_site(&mut program, SiteKind::Operator(Op::Sub), 3, 23)?;
    add_site(&mut program, SiteKind::Operator(Op::Add), 3, 44)?;
    add_object(alloc, &mut program, b"c")?;
    let mut found = no_findings(alloc);
    safe(&mut found, 2)?;
    found.states.push(StateLine {
        object: 0,
        summary: Summary::Range(Interval { low: 0, high: 9 }),
    })?;
    found.bounds.push(Bound::At(1))?;
    found.bounds.push(Bound::At(3))?;
    let spec = specification(alloc, &[b"low", b"high"], frame_us)?;
    Ok((program, spec, found))
}

#[test]
fn several_frame_functions(rt: HostRuntime) -> Result<(), Fail> {
    let alloc = rt.alloc();
    let (program, spec, found) = two_functions(alloc, None)?;
    let told = report_text(alloc, &program, &spec, &found)?;
    assert_eq!(rt;
        text(&told),
        "wmops report 1\nsites 2\nsite 1 a.c:3:23 sub safe\nsite 2 a.c:3:44 add safe\nloops 0\nstates 1\nstate 1 c 0..9\nbound 1 in low\nbound 3 in high\nresult safe\n"
    );
    assert!(rt; is_safe(&found));
    let (program, spec, mut found) = two_functions(alloc, Some(2000))?;
    found.bounds.push(Bound::At(7))?;
    let told = report_text(alloc, &program, &spec, &found)?;
    assert!(rt;
        text(&told).ends_with(
            "bound 1 in low\nbound 3 in high\nwmops 0.001 in low\nwmops 0.002 in high\nresult safe\n"
        )
    );
    Ok(())
}

/// A call of a call, in which everything is told that a report can tell.
fn open_program(alloc: Global) -> Result<Program, Fail> {
    let mut program = empty(alloc);
    add_site(&mut program, SiteKind::Operator(Op::LMac), 1, 2)?;
    add_site(&mut program, SiteKind::Index, 3, 4)?;
    add_site(&mut program, SiteKind::View, 5, 6)?;
    add_site(&mut program, SiteKind::Arithmetic, 7, 8)?;
    add_site(&mut program, SiteKind::Narrowing, 9, 10)?;
    add_loop(&mut program, 11, 1)?;
    add_loop(&mut program, 12, 1)?;
    add_loop(&mut program, 13, 1)?;
    add_object(alloc, &mut program, b"x")?;
    add_object(alloc, &mut program, b"f.y")?;
    add_instance(alloc, &mut program, None, None)?;
    add_instance(alloc, &mut program, None, None)?;
    add_instance(alloc, &mut program, Some(1), Some(place(20, 3)))?;
    add_instance(alloc, &mut program, Some(2), Some(place(30, 5)))?;
    program.init = Some(0);
    program.frame = 1;
    Ok(program)
}

fn unproved(
    alloc: Global,
    boxes: &[Interval],
    values: &[i64],
    instance: u32,
) -> Result<Verdict, Fail> {
    let mut all_boxes = List::new(alloc);
    for one in boxes {
        all_boxes.push(*one)?;
    }
    let mut all_values = List::new(alloc);
    for value in values {
        all_values.push(*value)?;
    }
    Ok(Verdict::Unproved {
        boxes: all_boxes,
        values: all_values,
        instance,
    })
}

fn open_findings(alloc: Global, bound: Bound) -> Result<Findings, Fail> {
    let wide = Interval {
        low: -2147483648,
        high: 2147483647,
    };
    let few = Interval { low: -4, high: 3 };
    let mut found = no_findings(alloc);
    found.sites.push(unproved(alloc, &[wide, few, few], &[-2147483648, -4, 1], 3)?)?;
    found.sites.push(Verdict::Safe { unset: true })?;
    found.sites.push(Verdict::Never)?;
    found
        .sites
        .push(unproved(alloc, &[wide], &[-2147483648], 0)?)?;
    found.sites.push(unproved(alloc, &[wide], &[-32769], 1)?)?;
    found.loops.push(Turns::Most(16))?;
    found.loops.push(Turns::None)?;
    found.loops.push(Turns::Never)?;
    found.states.push(StateLine {
        object: 0,
        summary: Summary::Empty,
    })?;
    found.states.push(StateLine {
        object: 1,
        summary: Summary::Range(few),
    })?;
    found.bounds.push(bound)?;
    Ok(found)
}

#[test]
fn all_that_a_report_can_tell(rt: HostRuntime) -> Result<(), Fail> {
    let alloc = rt.alloc();
    let program = open_program(alloc)?;
    let spec = specification(alloc, &[b"frame"], Some(3))?;
    let head =
        "wmops report 1\nsites 5\nsite 1 a.c:1:2 L_mac unproved -2147483648..2147483647 -4..3 -4..3 at -2147483648 -4 1 in frame via a.c:20:3 a.c:30:5\nsite 2 a.c:3:4 index safe unset\nsite 3 a.c:5:6 view never\nsite 4 a.c:7:8 arithmetic unproved -2147483648..2147483647 at -2147483648 in init\nsite 5 a.c:9:10 narrowing unproved -2147483648..2147483647 at -32769 in frame\nloops 3\nloop 1 a.c:11:1 trips 16\nloop 2 a.c:12:1 trips none\nloop 3 a.c:13:1 never\nstates 2\nstate 1 x empty\nstate 2 f.y -4..3\n";
    for (bound, tail) in [
        (Bound::At(7000), "bound 7000\nwmops 2333.334\nresult open\n"),
        (Bound::At(6), "bound 6\nwmops 2.000\nresult open\n"),
        (
            Bound::At(1000000000000000),
            "bound 1000000000000000\nwmops 333333333333333.334\nresult open\n",
        ),
        (
            Bound::NoTrips { loop_id: 1 },
            "bound none loop 2\nwmops none\nresult open\n",
        ),
        (Bound::TooLarge, "bound large\nwmops none\nresult open\n"),
    ] {
        let found = open_findings(alloc, bound)?;
        let told = report_text(alloc, &program, &spec, &found)?;
        assert!(rt; text(&told).starts_with(head));
        assert!(rt; text(&told).ends_with(tail));
        assert_eq!(rt; told.len(), head.len() + tail.len());
    }
    Ok(())
}

#[test]
fn safe_only_with_a_number_as_bound(rt: HostRuntime) -> Result<(), Fail> {
    let alloc = rt.alloc();
    for (bound, expected) in [
        (Bound::At(0), true),
        (Bound::NoTrips { loop_id: 0 }, false),
        (Bound::TooLarge, false),
    ] {
        let mut found = no_findings(alloc);
        safe(&mut found, 1)?;
        found.sites.push(Verdict::Never)?;
        found.bounds.push(bound)?;
        assert_eq!(rt; is_safe(&found), expected);
    }
    Ok(())
}

#[test]
fn a_generated_example(rt: HostRuntime) -> Result<(), Fail> {
    let alloc = rt.alloc();
    let mut found = no_findings(alloc);
    safe(&mut found, 12)?;
    found.bounds.push(Bound::At(72))?;
    let told = demo_text(alloc, 3, &found)?;
    assert_eq!(rt;
        text(&told),
        "wmops demo 1\nstages 3\nsites 12 safe 12 never 0 unproved 0\nbound 72\n"
    );
    let found = open_findings(alloc, Bound::TooLarge)?;
    let told = demo_text(alloc, 500, &found)?;
    assert_eq!(rt;
        text(&told),
        "wmops demo 1\nstages 500\nsites 5 safe 1 never 1 unproved 3\nbound large\n"
    );
    Ok(())
}

#[test]
fn seen_beside_proved(rt: HostRuntime) -> Result<(), Fail> {
    let alloc = rt.alloc();
    let mut program = empty(alloc);
    add_object(alloc, &mut program, b"y")?;
    let spec = specification(alloc, &[b"frame"], None)?;
    let proved = Interval {
        low: 0,
        high: 32767,
    };
    let mut found = no_findings(alloc);
    found.states.push(StateLine {
        object: 0,
        summary: Summary::Range(proved),
    })?;
    found.bounds.push(Bound::At(1))?;
    for (frames, summary, count, told) in [
        (
            2,
            Summary::Range(Interval { low: 0, high: 6 }),
            1,
            "wmops observe 1\nframes 2\nstate 1 y seen 0..6 proved 0..32767\ncount 1 bound 1\n",
        ),
        (
            0,
            Summary::Empty,
            0,
            "wmops observe 1\nframes 0\nstate 1 y seen empty proved 0..32767\ncount 0 bound 1\n",
        ),
    ] {
        let mut states = List::new(alloc);
        states.push(StateLine { object: 0, summary })?;
        let mut counts = List::new(alloc);
        counts.push(count)?;
        let seen = Seen {
            frames,
            states,
            counts,
        };
        let shown = observe_text(alloc, &program, &spec, &found, &seen)?;
        assert_eq!(rt; text(&shown), told);
    }
    Ok(())
}
