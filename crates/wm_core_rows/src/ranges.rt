//! Worked boxes: exact ranges, first failures and flags.

use wm_hull::{flags, hull, worst};
use wm_interval::Interval;
use wm_ops::Op;

#[test]
fn ranges_of_worked_boxes(rt: HostRuntime) {
    let unused = Interval::new(0, 0);
    let words = Interval::new(-32768, 32767);
    assert_eq!(rt;
        hull(Op::NormS, &[Interval::new(-5, 5), unused, unused]),
        Some(Interval::new(0, 15))
    );
    assert_eq!(rt;
        hull(Op::ExtractL, &[Interval::new(32767, 32768), unused, unused]),
        Some(words)
    );
    assert_eq!(rt;
        hull(Op::ShrR, &[words, Interval::new(16, 16), unused]),
        Some(unused)
    );
}

#[test]
fn ranges_of_products_and_quotients(rt: HostRuntime) {
    let unused = Interval::new(0, 0);
    let words = Interval::new(-32768, 32767);
    let products = Interval::new(-1073709056, 1073741824);
    assert_eq!(rt;
        hull(
            Op::DivS,
            &[Interval::new(5, 9), Interval::new(1, 4), unused]
        ),
        None
    );
    assert_eq!(rt; hull(Op::LMult0, &[words, words, unused]), Some(products));
}

#[test]
fn first_failures_of_worked_boxes(rt: HostRuntime) {
    let unused = Interval::new(0, 0);
    let bits = Interval::new(0, 1);
    let one = Interval::new(1, 1);
    let top = Interval::new(2147483647, 2147483647);
    assert_eq!(rt;
        worst(Op::Shl, &[unused, Interval::new(0, 32767), unused]),
        None
    );
    assert_eq!(rt;
        worst(Op::Shl, &[one, Interval::new(14, 16), unused]),
        Some([1, 15, 0])
    );
    assert_eq!(rt;
        worst(Op::LMac0, &[top, bits, bits]),
        Some([2147483647, 1, 1])
    );
}

#[test]
fn quiet_operators_do_not_flag(rt: HostRuntime) {
    let unused = Interval::new(0, 0);
    let words = Interval::new(-32768, 32767);
    assert!(rt; !flags(Op::AbsS, &[words, unused, unused]));
    assert!(rt; flags(Op::Mult, &[words, words, unused]));
}
