//! A table of boundary boxes, two for each operator: its whole types, and a box at their ends or at the counts where a
//! shift begins to fail. The expected ranges and first failures come from another program.

use crate::scanning::found;
use wm_interval::Interval;
use wm_ops::Op;

#[derive(Clone, Copy)]
struct Row {
    op: Op,
    boxes: [(i64, i64); 3],
    range: Option<(i64, i64)>,
    first: Option<[i64; 3]>,
}

/// The interval of these ends, which stand in order in the table.
fn interval(ends: (i64, i64)) -> Interval {
    if ends.0 > ends.1 {
        return Interval::new(0, 0);
    }
    Interval::new(ends.0, ends.1)
}

/// The first row whose range or failure is another.
fn wrong_row(rows: &[Row]) -> Option<Op> {
    for row in rows {
        let [x, y, z] = row.boxes;
        if found(row.op, interval(x), interval(y), interval(z)) != Some((row.range, row.first)) {
            return Some(row.op);
        }
    }
    None
}

#[test]
fn from_add_to_mult_r(rt: HostRuntime) {
    let rows = [
        Row {
            op: Op::Add,
            boxes: [(-32768, 32767), (-32768, 32767), (0, 0)],
            range: Some((-32768, 32767)),
            first: Some([-32768, -32768, 0]),
        },
        Row {
            op: Op::Add,
            boxes: [(32766, 32767), (-1, 1), (0, 0)],
            range: Some((32765, 32767)),
            first: Some([32767, 1, 0]),
        },
        Row {
            op: Op::Sub,
            boxes: [(-32768, 32767), (-32768, 32767), (0, 0)],
            range: Some((-32768, 32767)),
            first: Some([-32768, 1, 0]),
        },
        Row {
            op: Op::Sub,
            boxes: [(32766, 32767), (-1, 1), (0, 0)],
            range: Some((32765, 32767)),
            first: Some([32767, -1, 0]),
        },
        Row {
            op: Op::AbsS,
            boxes: [(-32768, 32767), (0, 0), (0, 0)],
            range: Some((0, 32767)),
            first: Some([-32768, 0, 0]),
        },
        Row {
            op: Op::AbsS,
            boxes: [(32766, 32767), (0, 0), (0, 0)],
            range: Some((32766, 32767)),
            first: None,
        },
        Row {
            op: Op::Negate,
            boxes: [(-32768, 32767), (0, 0), (0, 0)],
            range: Some((-32767, 32767)),
            first: Some([-32768, 0, 0]),
        },
        Row {
            op: Op::Negate,
            boxes: [(32766, 32767), (0, 0), (0, 0)],
            range: Some((-32767, -32766)),
            first: None,
        },
        Row {
            op: Op::Mult,
            boxes: [(-32768, 32767), (-32768, 32767), (0, 0)],
            range: Some((-32767, 32767)),
            first: Some([-32768, -32768, 0]),
        },
        Row {
            op: Op::Mult,
            boxes: [(32766, 32767), (-1, 1), (0, 0)],
            range: Some((-1, 0)),
            first: None,
        },
        Row {
            op: Op::MultR,
            boxes: [(-32768, 32767), (-32768, 32767), (0, 0)],
            range: Some((-32767, 32767)),
            first: Some([-32768, -32768, 0]),
        },
        Row {
            op: Op::MultR,
            boxes: [(32766, 32767), (-1, 1), (0, 0)],
            range: Some((-1, 1)),
            first: None,
        },
    ];
    assert_eq!(rt; wrong_row(&rows), None);
}

#[test]
fn from_shl_to_l_abs(rt: HostRuntime) {
    let rows = [
        Row {
            op: Op::Shl,
            boxes: [(-32768, 32767), (-32768, 32767), (0, 0)],
            range: Some((-32768, 32767)),
            first: Some([-32768, 1, 0]),
        },
        Row {
            op: Op::Shl,
            boxes: [(-3, 2), (-1, 16), (0, 0)],
            range: Some((-32768, 32767)),
            first: Some([-3, 14, 0]),
        },
        Row {
            op: Op::Shr,
            boxes: [(-32768, 32767), (-32768, 32767), (0, 0)],
            range: Some((-32768, 32767)),
            first: Some([-32768, -32768, 0]),
        },
        Row {
            op: Op::Shr,
            boxes: [(-3, 2), (-1, 16), (0, 0)],
            range: Some((-6, 4)),
            first: None,
        },
        Row {
            op: Op::ShrR,
            boxes: [(-32768, 32767), (-32768, 32767), (0, 0)],
            range: Some((-32768, 32767)),
            first: Some([-32768, -32768, 0]),
        },
        Row {
            op: Op::ShrR,
            boxes: [(-3, 2), (-1, 16), (0, 0)],
            range: Some((-6, 4)),
            first: None,
        },
        Row {
            op: Op::LAdd,
            boxes: [(-2147483648, 2147483647), (-2147483648, 2147483647), (0, 0)],
            range: Some((-2147483648, 2147483647)),
            first: Some([-2147483648, -2147483648, 0]),
        },
        Row {
            op: Op::LAdd,
            boxes: [(2147483646, 2147483647), (-1, 1), (0, 0)],
            range: Some((2147483645, 2147483647)),
            first: Some([2147483647, 1, 0]),
        },
        Row {
            op: Op::LSub,
            boxes: [(-2147483648, 2147483647), (-2147483648, 2147483647), (0, 0)],
            range: Some((-2147483648, 2147483647)),
            first: Some([-2147483648, 1, 0]),
        },
        Row {
            op: Op::LSub,
            boxes: [(2147483646, 2147483647), (-1, 1), (0, 0)],
            range: Some((2147483645, 2147483647)),
            first: Some([2147483647, -1, 0]),
        },
        Row {
            op: Op::LAbs,
            boxes: [(-2147483648, 2147483647), (0, 0), (0, 0)],
            range: Some((0, 2147483647)),
            first: Some([-2147483648, 0, 0]),
        },
        Row {
            op: Op::LAbs,
            boxes: [(2147483646, 2147483647), (0, 0), (0, 0)],
            range: Some((2147483646, 2147483647)),
            first: None,
        },
    ];
    assert_eq!(rt; wrong_row(&rows), None);
}

#[test]
fn from_l_negate_to_l_shr(rt: HostRuntime) {
    let rows = [
        Row {
            op: Op::LNegate,
            boxes: [(-2147483648, 2147483647), (0, 0), (0, 0)],
            range: Some((-2147483647, 2147483647)),
            first: Some([-2147483648, 0, 0]),
        },
        Row {
            op: Op::LNegate,
            boxes: [(2147483646, 2147483647), (0, 0), (0, 0)],
            range: Some((-2147483647, -2147483646)),
            first: None,
        },
        Row {
            op: Op::LMult,
            boxes: [(-32768, 32767), (-32768, 32767), (0, 0)],
            range: Some((-2147418112, 2147483647)),
            first: Some([-32768, -32768, 0]),
        },
        Row {
            op: Op::LMult,
            boxes: [(32766, 32767), (-1, 1), (0, 0)],
            range: Some((-65534, 65534)),
            first: None,
        },
        Row {
            op: Op::LMac,
            boxes: [(-2147483648, 2147483647), (-32768, 32767), (-32768, 32767)],
            range: Some((-2147483648, 2147483647)),
            first: Some([-2147483648, -32768, -32768]),
        },
        Row {
            op: Op::LMac,
            boxes: [(2147483646, 2147483647), (-1, 1), (-32768, -32767)],
            range: Some((2147418110, 2147483647)),
            first: Some([2147483646, -1, -32768]),
        },
        Row {
            op: Op::LMsu,
            boxes: [(-2147483648, 2147483647), (-32768, 32767), (-32768, 32767)],
            range: Some((-2147483648, 2147483647)),
            first: Some([-2147483648, -32768, -32768]),
        },
        Row {
            op: Op::LMsu,
            boxes: [(2147483646, 2147483647), (-1, 1), (-32768, -32767)],
            range: Some((2147418110, 2147483647)),
            first: Some([2147483646, 1, -32768]),
        },
        Row {
            op: Op::LShl,
            boxes: [(-2147483648, 2147483647), (-32768, 32767), (0, 0)],
            range: Some((-2147483648, 2147483647)),
            first: Some([-2147483648, 1, 0]),
        },
        Row {
            op: Op::LShl,
            boxes: [(-3, 2), (-1, 16), (0, 0)],
            range: Some((-196608, 131072)),
            first: None,
        },
        Row {
            op: Op::LShr,
            boxes: [(-2147483648, 2147483647), (-32768, 32767), (0, 0)],
            range: Some((-2147483648, 2147483647)),
            first: Some([-2147483648, -32768, 0]),
        },
        Row {
            op: Op::LShr,
            boxes: [(-3, 2), (-1, 16), (0, 0)],
            range: Some((-6, 4)),
            first: None,
        },
    ];
    assert_eq!(rt; wrong_row(&rows), None);
}

#[test]
fn from_l_shr_r_to_round(rt: HostRuntime) {
    let rows = [
        Row {
            op: Op::LShrR,
            boxes: [(-2147483648, 2147483647), (-32768, 32767), (0, 0)],
            range: Some((-2147483648, 2147483647)),
            first: Some([-2147483648, -32768, 0]),
        },
        Row {
            op: Op::LShrR,
            boxes: [(-3, 2), (-1, 16), (0, 0)],
            range: Some((-6, 4)),
            first: None,
        },
        Row {
            op: Op::ExtractH,
            boxes: [(-2147483648, 2147483647), (0, 0), (0, 0)],
            range: Some((-32768, 32767)),
            first: None,
        },
        Row {
            op: Op::ExtractH,
            boxes: [(2147483646, 2147483647), (0, 0), (0, 0)],
            range: Some((32767, 32767)),
            first: None,
        },
        Row {
            op: Op::ExtractL,
            boxes: [(-2147483648, 2147483647), (0, 0), (0, 0)],
            range: Some((-32768, 32767)),
            first: None,
        },
        Row {
            op: Op::ExtractL,
            boxes: [(2147483646, 2147483647), (0, 0), (0, 0)],
            range: Some((-2, -1)),
            first: None,
        },
        Row {
            op: Op::LDepositH,
            boxes: [(-32768, 32767), (0, 0), (0, 0)],
            range: Some((-2147483648, 2147418112)),
            first: None,
        },
        Row {
            op: Op::LDepositH,
            boxes: [(32766, 32767), (0, 0), (0, 0)],
            range: Some((2147352576, 2147418112)),
            first: None,
        },
        Row {
            op: Op::LDepositL,
            boxes: [(-32768, 32767), (0, 0), (0, 0)],
            range: Some((-32768, 32767)),
            first: None,
        },
        Row {
            op: Op::LDepositL,
            boxes: [(32766, 32767), (0, 0), (0, 0)],
            range: Some((32766, 32767)),
            first: None,
        },
        Row {
            op: Op::Round,
            boxes: [(-2147483648, 2147483647), (0, 0), (0, 0)],
            range: Some((-32768, 32767)),
            first: Some([2147450880, 0, 0]),
        },
        Row {
            op: Op::Round,
            boxes: [(2147483646, 2147483647), (0, 0), (0, 0)],
            range: Some((32767, 32767)),
            first: Some([2147483646, 0, 0]),
        },
    ];
    assert_eq!(rt; wrong_row(&rows), None);
}

#[test]
fn from_mac_r_to_s_max(rt: HostRuntime) {
    let rows = [
        Row {
            op: Op::MacR,
            boxes: [(-2147483648, 2147483647), (-32768, 32767), (-32768, 32767)],
            range: Some((-32768, 32767)),
            first: Some([-2147483648, -32768, -32768]),
        },
        Row {
            op: Op::MacR,
            boxes: [(2147483646, 2147483647), (-1, 1), (-32768, -32767)],
            range: Some((32767, 32767)),
            first: Some([2147483646, -1, -32768]),
        },
        Row {
            op: Op::MsuR,
            boxes: [(-2147483648, 2147483647), (-32768, 32767), (-32768, 32767)],
            range: Some((-32768, 32767)),
            first: Some([-2147483648, -32768, -32768]),
        },
        Row {
            op: Op::MsuR,
            boxes: [(2147483646, 2147483647), (-1, 1), (-32768, -32767)],
            range: Some((32767, 32767)),
            first: Some([2147483646, 0, -32768]),
        },
        Row {
            op: Op::NormS,
            boxes: [(-32768, 32767), (0, 0), (0, 0)],
            range: Some((0, 15)),
            first: None,
        },
        Row {
            op: Op::NormS,
            boxes: [(32766, 32767), (0, 0), (0, 0)],
            range: Some((0, 0)),
            first: None,
        },
        Row {
            op: Op::NormL,
            boxes: [(-2147483648, 2147483647), (0, 0), (0, 0)],
            range: Some((0, 31)),
            first: None,
        },
        Row {
            op: Op::NormL,
            boxes: [(2147483646, 2147483647), (0, 0), (0, 0)],
            range: Some((0, 0)),
            first: None,
        },
        Row {
            op: Op::DivS,
            boxes: [(-32768, 32767), (-32768, 32767), (0, 0)],
            range: Some((0, 32767)),
            first: Some([-32768, -32768, 0]),
        },
        Row {
            op: Op::DivS,
            boxes: [(3, 9), (10, 12), (0, 0)],
            range: Some((8192, 29491)),
            first: None,
        },
        Row {
            op: Op::SMax,
            boxes: [(-32768, 32767), (-32768, 32767), (0, 0)],
            range: Some((-32768, 32767)),
            first: None,
        },
        Row {
            op: Op::SMax,
            boxes: [(32766, 32767), (-1, 1), (0, 0)],
            range: Some((32766, 32767)),
            first: None,
        },
    ];
    assert_eq!(rt; wrong_row(&rows), None);
}

#[test]
fn from_s_min_to_l_msu0(rt: HostRuntime) {
    let rows = [
        Row {
            op: Op::SMin,
            boxes: [(-32768, 32767), (-32768, 32767), (0, 0)],
            range: Some((-32768, 32767)),
            first: None,
        },
        Row {
            op: Op::SMin,
            boxes: [(32766, 32767), (-1, 1), (0, 0)],
            range: Some((-1, 1)),
            first: None,
        },
        Row {
            op: Op::LMax,
            boxes: [(-2147483648, 2147483647), (-2147483648, 2147483647), (0, 0)],
            range: Some((-2147483648, 2147483647)),
            first: None,
        },
        Row {
            op: Op::LMax,
            boxes: [(2147483646, 2147483647), (-1, 1), (0, 0)],
            range: Some((2147483646, 2147483647)),
            first: None,
        },
        Row {
            op: Op::LMin,
            boxes: [(-2147483648, 2147483647), (-2147483648, 2147483647), (0, 0)],
            range: Some((-2147483648, 2147483647)),
            first: None,
        },
        Row {
            op: Op::LMin,
            boxes: [(2147483646, 2147483647), (-1, 1), (0, 0)],
            range: Some((-1, 1)),
            first: None,
        },
        Row {
            op: Op::LMult0,
            boxes: [(-32768, 32767), (-32768, 32767), (0, 0)],
            range: Some((-1073709056, 1073741824)),
            first: None,
        },
        Row {
            op: Op::LMult0,
            boxes: [(32766, 32767), (-1, 1), (0, 0)],
            range: Some((-32767, 32767)),
            first: None,
        },
        Row {
            op: Op::LMac0,
            boxes: [(-2147483648, 2147483647), (-32768, 32767), (-32768, 32767)],
            range: Some((-2147483648, 2147483647)),
            first: Some([-2147483648, -32768, 1]),
        },
        Row {
            op: Op::LMac0,
            boxes: [(2147483646, 2147483647), (-1, 1), (-32768, -32767)],
            range: Some((2147450878, 2147483647)),
            first: Some([2147483646, -1, -32768]),
        },
        Row {
            op: Op::LMsu0,
            boxes: [(-2147483648, 2147483647), (-32768, 32767), (-32768, 32767)],
            range: Some((-2147483648, 2147483647)),
            first: Some([-2147483648, -32768, -32768]),
        },
        Row {
            op: Op::LMsu0,
            boxes: [(2147483646, 2147483647), (-1, 1), (-32768, -32767)],
            range: Some((2147450878, 2147483647)),
            first: Some([2147483646, 1, -32768]),
        },
    ];
    assert_eq!(rt; wrong_row(&rows), None);
}
