//! Every operator over all small boxes around the corners of its argument types.

use crate::agrees;
use wm_interval::Interval;
use wm_ops::{OPERATORS, Op, Width, arg_width, arity, op_at};

const UNUSED: [i64; 1] = [0];

const SHORT: [i64; 11] = [-32768, -32767, -16385, -3, -2, -1, 0, 1, 2, 16383, 32765];

const LONG: [i64; 11] = [
    -2147483648,
    -2147483646,
    -65537,
    -3,
    -2,
    -1,
    0,
    1,
    32767,
    1073741823,
    2147483645,
];

const COUNTS: [i64; 53] = [
    -32768, -17, -16, -15, -14, -13, -12, -11, -10, -9, -8, -7, -6, -5, -4, -3, -2, -1, 0, 1, 2, 3,
    4, 5, 6, 7, 8, 9, 10, 11, 12, 13, 14, 15, 16, 17, 18, 19, 20, 21, 22, 23, 24, 25, 26, 27, 28,
    29, 30, 31, 32, 33, 32765,
];

fn is_shift(op: Op) -> bool {
    match op {
        Op::Shl => true,
        Op::Shr => true,
        Op::ShrR => true,
        Op::LShl => true,
        Op::LShr => true,
        Op::LShrR => true,
        _ => false,
    }
}

fn lows(op: Op, k: usize) -> &'static [i64] {
    if k >= arity(op) {
        return &UNUSED;
    }
    if k == 1 && is_shift(op) {
        return &COUNTS;
    }
    match arg_width(op, k) {
        Width::W16 => &SHORT,
        Width::W32 => &LONG,
    }
}

fn sizes(op: Op, k: usize) -> &'static [i64] {
    if k >= arity(op) {
        return &[0];
    }
    &[0, 2]
}

fn small_box(low: i64, size: i64) -> Option<Interval> {
    let high = low.checked_add(size)?;
    if low > high {
        return None;
    }
    Some(Interval::new(low, high))
}

fn third_agrees(op: Op, x: Interval, y: Interval) -> bool {
    for low in lows(op, 2) {
        for size in sizes(op, 2) {
            if let Some(z) = small_box(*low, *size) {
                if !agrees(op, x, y, z) {
                    return false;
                }
            }
        }
    }
    true
}

fn second_agrees(op: Op, x: Interval) -> bool {
    for low in lows(op, 1) {
        for size in sizes(op, 1) {
            if let Some(y) = small_box(*low, *size) {
                if !third_agrees(op, x, y) {
                    return false;
                }
            }
        }
    }
    true
}

fn operator_agrees(op: Op) -> bool {
    for low in lows(op, 0) {
        for size in sizes(op, 0) {
            if let Some(x) = small_box(*low, *size) {
                if !second_agrees(op, x) {
                    return false;
                }
            }
        }
    }
    true
}

#[test]
fn each_operator_agrees_with_a_scan(rt: HostRuntime) {
    for number in 0..OPERATORS {
        if let Some(op) = op_at(number) {
            assert!(rt; operator_agrees(op), "{op:?}");
        }
    }
}
