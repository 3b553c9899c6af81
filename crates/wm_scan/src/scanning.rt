//! The scan itself, and what it is compared with.

use crate::fitting::{applied, boxes_fit};
use wm_hull::{hull, worst};
use wm_interval::Interval;
use wm_ops::{Op, Outcome};

/// What a scan has seen: the least and the greatest value, and the first arguments at which the operator failed.
#[derive(Clone, Copy)]
struct Seen {
    range: Option<(i64, i64)>,
    first: Option<[i64; 3]>,
}

/// The ends of a range and the first failing arguments.
#[cfg(test)]
pub(crate) type Found = (Option<(i64, i64)>, Option<[i64; 3]>);

fn with_value(seen: Seen, value: i64) -> Seen {
    let range = match seen.range {
        None => (value, value),
        Some((low, high)) => (low.min(value), high.max(value)),
    };
    Seen {
        range: Some(range),
        first: seen.first,
    }
}

fn with_failure(seen: Seen, args: [i64; 3]) -> Seen {
    if seen.first.is_some() {
        return seen;
    }
    Seen {
        range: seen.range,
        first: Some(args),
    }
}

fn with_outcome(seen: Seen, op: Op, args: [i64; 3]) -> Seen {
    let [a, b, c] = args;
    match applied(op, a, b, c) {
        None => seen,
        Some(Outcome::OutOfDomain) => with_failure(seen, args),
        Some(
            Outcome::Value {
                value,
                saturates,
                flag: _,
            },
        ) => {
            if saturates {
                return with_failure(with_value(seen, value), args);
            }
            with_value(seen, value)
        }
    }
}

/// The number `step` above the low end, where the box has it.
fn number_at(x: Interval, step: i64) -> Option<i64> {
    let number = x.low.checked_add(step)?;
    if number > x.high {
        return None;
    }
    Some(number)
}

fn scanned_third(seen: Seen, op: Op, a: i64, b: i64, z: Interval) -> Seen {
    let mut seen = seen;
    for step in [0, 1, 2] {
        if let Some(c) = number_at(z, step) {
            seen = with_outcome(seen, op, [a, b, c]);
        }
    }
    seen
}

fn scanned_second(seen: Seen, op: Op, a: i64, y: Interval, z: Interval) -> Seen {
    let mut seen = seen;
    for step in [0, 1, 2] {
        if let Some(b) = number_at(y, step) {
            seen = scanned_third(seen, op, a, b, z);
        }
    }
    seen
}

/// The scan of three boxes of at most three numbers each.
fn scanned(op: Op, x: Interval, y: Interval, z: Interval) -> Seen {
    let mut seen = Seen {
        range: None,
        first: None,
    };
    for step in [0, 1, 2] {
        if let Some(a) = number_at(x, step) {
            seen = scanned_second(seen, op, a, y, z);
        }
    }
    seen
}

fn same_range(range: Option<Interval>, seen: Option<(i64, i64)>) -> bool {
    match range {
        None => seen.is_none(),
        Some(found) => seen == Some((found.low, found.high)),
    }
}

/// The ends of the exact range and the first failure over the boxes; None where they do not lie in the argument types.
#[cfg(test)]
pub(crate) fn found(op: Op, x: Interval, y: Interval, z: Interval) -> Option<Found> {
    if !boxes_fit(op, x, y, z) {
        return None;
    }
    let range = match hull(op, &[x, y, z]) {
        None => None,
        Some(found) => Some((found.low, found.high)),
    };
    Some((range, worst(op, &[x, y, z])))
}

/// Whether the exact range and the first failure over the boxes are what the scan sees; also where the boxes do not lie
/// in the argument types, so that nothing is to be compared. The boxes have at most three numbers each, and 0..0 in the
/// places that the operator does not use.
pub fn agrees(op: Op, x: Interval, y: Interval, z: Interval) -> bool {
    if !boxes_fit(op, x, y, z) {
        return true;
    }
    let seen = scanned(op, x, y, z);
    if !same_range(hull(op, &[x, y, z]), seen.range) {
        return false;
    }
    worst(op, &[x, y, z]) == seen.first
}
