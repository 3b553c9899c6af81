// Ways between two nodes.
ghost use Rattle.std.specs.Prelude.{◌≡◌, ◌+◌, ◌<◌, ◌^◌, true, length};
ghost use Rattle.wm_domain.specs.States.{IsShape, count_of, array_count};
ghost use Rattle.wm_carry.specs.Following.{IsWay};
ghost use Rattle.wm_drawn.specs.Pairing.{ArePaired};

use crate::shapes::is_shape;
use wm_domain::Shape;
use wm_interval::Interval;

fn is_same(left: Interval, right: Interval) -> bool
    ensures { result ≡ true → left ≡ right }
{
    if left.low != right.low {
        return false;
    }
    left.high == right.high
}

// whether the ranges are the same by place, as far as there are some in both lists
fn are_paired(left: &[Interval], right: &[Interval]) -> bool
    ensures { result ≡ true → ArePaired left.now right.now }
{
    match left.split_first() {
        None => true,
        Some((here, left_rest)) => match right.split_first() {
            None => true,
            Some((there, right_rest)) => {
                if is_same(*here, *there) {
                    return are_paired(left_rest, right_rest);
                }
                false
            }
        },
    }
}

/// Whether there are fewer than 2^32 variables and arrays
pub(crate) fn is_numbered(shape: &Shape) -> bool
    requires shape { IsShape shape.now }
    ensures variables { result ≡ true → length shape.now.group + length shape.now.singles < 2 ^ 32 }
    ensures count { result ≡ true → count_of shape.now < 2 ^ 32 }
    ensures arrays { result ≡ true → array_count shape.now < 2 ^ 32 }
{
    if shape.singles.items().len() >= 4_294_967_264 {
        return false;
    }
    if shape.arrays.items().len() >= 4_294_967_296 {
        return false;
    }
    true
}

/// Whether a state can be carried from a node to the next: what is paired by place has one full range.
#[tactic(auto, using(crate::proofs::Paired::way_of))]
pub fn is_way(source: &Shape, target: &Shape) -> bool
    ensures way { result ≡ true → IsWay source.now target.now }
{
    if !is_shape(source) {
        return false;
    }
    if !is_shape(target) {
        return false;
    }
    if !is_numbered(source) {
        return false;
    }
    if !is_numbered(target) {
        return false;
    }
    if !are_paired(target.group.items(), source.group.items()) {
        return false;
    }
    if !are_paired(target.singles.items(), source.singles.items()) {
        return false;
    }
    are_paired(target.arrays.items(), source.arrays.items())
}
