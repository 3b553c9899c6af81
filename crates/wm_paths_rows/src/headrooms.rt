// Texts of shifts.
ghost use Rattle.wm_hull.specs.Boxes.{BoxesFit, used_box};
ghost use Rattle.std.specs.Prelude.{◌≡◌, Some, IfOk};
ghost use Rattle.wm_ops.specs.declared.operators.Op as ops;
ghost use Rattle.wm_headroom_text.specs.Open.{boxes_in, open_in, three, Fits};

use crate::graphs::{empty, specification};
use std::alloc::Global;
use std::test::Fail;
use wm_findings::{Findings, Verdict};
use wm_headroom_text::headroom_text;
use wm_interval::Interval;
use wm_lang::Place;
use wm_ops::{List, Op};
use wm_program::{SiteInfo, SiteKind};

fn unproved(alloc: Global, boxes: &[Interval]) -> Result<Verdict, Fail>
    ensures boxes { IfOk result (λ verdict. (op : ops.Op) → boxes_in op (Some verdict) ≡ Some (record { op = op; boxes = boxes.now })) }
{
    let mut all_boxes = List::new(alloc);
    let mut values = List::new(alloc);
    for one in boxes {
        all_boxes.push(*one)?;
        values.push(one.high)?;
    }
    Ok(Verdict::Unproved {
        boxes: all_boxes,
        values,
        instance: 0,
    })
}

/// The text of one site in line 2, column 24.
fn told(alloc: Global, kind: SiteKind, verdict: Verdict) -> Result<Vec<u8>, Fail>
    requires fits { Fits (open_in kind (Some verdict)) }
{
    let mut program = empty(alloc);
    program.sites.push(SiteInfo {
        kind,
        token: 0,
        place: Place {
            file: 0,
            line: 2,
            column: 24,
        },
    })?;
    let mut found = Findings {
        sites: List::new(alloc),
        loops: List::new(alloc),
        states: List::new(alloc),
        bounds: List::new(alloc),
    };
    found.sites.push(verdict)?;
    let spec = specification(alloc, &[b"frame"])?;
    Ok(headroom_text(alloc, &program, &spec, &found)?)
}

fn text(bytes: &[u8]) -> &str {
    std::str::from_utf8(bytes).unwrap_or("?")
}

/// The text of an operator that may fail in these boxes.
fn shift(alloc: Global, op: Op, boxes: &[Interval]) -> Result<Vec<u8>, Fail>
    requires { BoxesFit op (used_box op (three boxes.now) 0) (used_box op (three boxes.now) 1) (used_box op (three boxes.now) 2) }
{
    told(alloc, SiteKind::Operator(op), unproved(alloc, boxes)?)
}

#[test]
fn shifts(rt: HostRuntime) -> Result<(), Fail> {
    let alloc = rt.alloc();
    let natural = Interval::new(0, 32767);
    let one = Interval::new(1, 1);
    assert_eq!(rt;
        text(&shift(alloc, Op::Add, &[natural, one])?),
        "wmops headroom 1\nsite 1 a.c:2:24 add shift 1\n"
    );
    assert_eq!(rt;
        text(&shift(alloc, Op::Shl, &[natural, Interval::new(3, 3)])?),
        "wmops headroom 1\nsite 1 a.c:2:24 shl shift 3\n"
    );
    assert_eq!(rt;
        text(&shift(
            alloc,
            Op::DivS,
            &[Interval::new(0, 11), Interval::new(10, 20)]
        )?),
        "wmops headroom 1\nsite 1 a.c:2:24 div_s shift none\n"
    );
    assert_eq!(rt;
        text(&told(alloc, SiteKind::Operator(Op::Add), Verdict::Never)?),
        "wmops headroom 1\n"
    );
    assert_eq!(rt;
        text(&told(alloc, SiteKind::Index, unproved(alloc, &[natural])?)?),
        "wmops headroom 1\n"
    );
    Ok(())
}
