// What one step can add.
ghost use Rattle.std.specs.Prelude.{◌≡◌, ◌≤ℤ◌, true, pos, negsuc};

use wm_domain::{Domain, Form, Shape};
use wm_hull::hull;
use wm_interval::Interval;
use wm_ops::{NoMemory, Op};
use wm_sight::argument;

/// The greater of the sizes of the two ends.
fn size(range: Interval) -> u64 {
    range.low.unsigned_abs().max(range.high.unsigned_abs())
}

fn size_of(range: Option<Interval>) -> u64 {
    match range {
        None => 0,
        Some(range) => size(range),
    }
}

/// Whether all numbers have 16 bits.
fn is_short(range: Interval) -> bool
    ensures { result ≡ true → (negsuc 32767 ≤ℤ range.low) × (range.high ≤ℤ pos 32767) }
{
    if range.low < -32768 {
        return false;
    }
    if 32767 < range.high {
        return false;
    }
    true
}

/// The greatest size of a saturated product.
fn product_size(y: Interval, z: Interval) -> u64
    requires y { (negsuc 32767 ≤ℤ y.low) × (y.high ≤ℤ pos 32767) }
    requires z { (negsuc 32767 ≤ℤ z.low) × (z.high ≤ℤ pos 32767) }
{
    let zero = Interval { low: 0, high: 0 };
    size_of(hull(Op::LMult, &[y, z, zero]))
}

/// The greatest size of a plain product.
fn plain_product_size(y: Interval, z: Interval) -> u64
    requires y { (negsuc 32767 ≤ℤ y.low) × (y.high ≤ℤ pos 32767) }
    requires z { (negsuc 32767 ≤ℤ z.low) × (z.high ≤ℤ pos 32767) }
{
    let zero = Interval { low: 0, high: 0 };
    size_of(hull(Op::LMult0, &[y, z, zero]))
}

/// The same, doubled or plain, of factors of 16 bits; others are no arguments of such an operator.
fn factors_size(y: Interval, z: Interval, is_plain: bool) -> Result<u64, NoMemory> {
    if is_short(y) {
        if is_short(z) {
            if is_plain {
                return Ok(plain_product_size(y, z));
            }
            return Ok(product_size(y, z));
        }
    }
    Err(NoMemory)
}

/// The greatest size of what the operator adds to its first argument, by the boxes of the others.
fn added(op: Op, y: Interval, z: Interval) -> Result<u64, NoMemory> {
    match op {
        Op::LMac => factors_size(y, z, false),
        Op::LMsu => factors_size(y, z, false),
        Op::LMac0 => factors_size(y, z, true),
        Op::LMsu0 => factors_size(y, z, true),
        _ => Ok(size(y)),
    }
}

/// The greatest size of what an operator can add to its first argument, by the label before it, which has the shape; 0 where no
/// arguments are left in their types.
pub fn growth<D: Domain>(
    shape: &Shape,
    label: &D,
    op: Op,
    args: &[Form; 3],
) -> Result<u64, NoMemory>
    requires shape { D.shape_of label.now ≡ shape.now }
{
    match argument(shape, label, op, 0, &args[0])? {
        None => Ok(0),
        Some(_x) => match argument(shape, label, op, 1, &args[1])? {
            None => Ok(0),
            Some(y) => match argument(shape, label, op, 2, &args[2])? {
                None => Ok(0),
                Some(z) => added(op, y, z),
            },
        },
    }
}
