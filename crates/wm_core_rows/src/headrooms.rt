//! Worked boxes: how far their operands have to be shifted.

use wm_headroom::headroom;
use wm_interval::Interval;
use wm_ops::Op;

#[test]
fn shifts_of_worked_boxes(rt: HostRuntime) {
    let unused = Interval::new(0, 0);
    let natural = Interval::new(0, 32767);
    let one = Interval::new(1, 1);
    assert_eq!(rt; headroom(Op::Add, &[natural, one, unused]), Some(1));
    assert_eq!(rt;
        headroom(Op::Shl, &[natural, Interval::new(3, 3), unused]),
        Some(3)
    );
}

#[test]
fn boxes_that_no_shift_helps(rt: HostRuntime) {
    let unused = Interval::new(0, 0);
    let negative = Interval::new(-1, -1);
    assert_eq!(rt;
        headroom(Op::Shl, &[negative, Interval::new(16, 16), unused]),
        None
    );
    assert_eq!(rt;
        headroom(
            Op::DivS,
            &[Interval::new(0, 11), Interval::new(10, 20), unused]
        ),
        None
    );
}
