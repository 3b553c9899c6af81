//! A half table and octagons of two variables, worked by hand.

ghost use Rattle.std.specs.Prelude.{◌≡◌, IfOk};
ghost use Rattle.wm_numbers.specs.Within.{IsWord32};

use std::alloc::Global;
use std::test::Fail;
use wm_interval::Interval;
use wm_octagon::{Half, Octagon, Side};
use wm_ops::NoMemory;

#[test]
fn two_ranges_and_an_order(rt: HostRuntime) -> Result<(), Fail> {
    let ten = Interval::new(0, 10);
    let ranges = [ten, ten];
    let mut half = Half::new(rt.alloc(), &ranges)?;
    let open = half.close_one(2, 0, -1);
    assert!(rt; open);
    assert_eq!(rt; half.entry(1, 0), 18);
    assert_eq!(rt; half.entry(2, 3), -2);
    let still_open = half.close_one(3, 1, 0);
    assert!(rt; !still_open);
    Ok(())
}

const V: Side = Side {
    variable: 0,
    negative: false,
};

const MINUS_V: Side = Side {
    variable: 0,
    negative: true,
};

const W: Side = Side {
    variable: 1,
    negative: false,
};

const MINUS_W: Side = Side {
    variable: 1,
    negative: true,
};

const THIRD: Side = Side {
    variable: 2,
    negative: false,
};

#[test]
fn an_order_and_a_sum(rt: HostRuntime) -> Result<(), Fail> {
    let ten = Interval::new(0, 10);
    let ranges = [ten, ten];
    let mut octagon = Octagon::new(rt.alloc(), &ranges)?;
    octagon.add_bound(V, MINUS_W, 0);
    octagon.add_bound(V, W, 9);
    assert_eq!(rt; octagon.range(0), Some(Interval::new(0, 4)));
    assert_eq!(rt; octagon.range(1), Some(Interval::new(0, 9)));
    assert_eq!(rt; octagon.bound(W, MINUS_V), Some(9));
    octagon.add_bound(V, W, -1);
    assert!(rt; octagon.is_empty());
    assert_eq!(rt; octagon.range(0), None);
    Ok(())
}

#[test]
fn half_of_five_is_no_point(rt: HostRuntime) -> Result<(), Fail> {
    let ten = Interval::new(0, 10);
    let ranges = [ten, ten];
    let mut octagon = Octagon::new(rt.alloc(), &ranges)?;
    octagon.add_bound(V, W, 5);
    octagon.add_bound(MINUS_V, MINUS_W, -5);
    octagon.add_bound(V, MINUS_W, 0);
    assert!(rt; !octagon.is_empty());
    octagon.add_bound(W, MINUS_V, 0);
    assert!(rt; octagon.is_empty());
    Ok(())
}

// the variables v and w from 0 to 10, with v at most w and their sum at most 9
fn ordered(alloc: Global) -> Result<Octagon, NoMemory>
    ensures { IfOk result (λ o. o.variables ≡ 2) }
{
    let ten = Interval::new(0, 10);
    let ranges = [ten, ten];
    let mut octagon = Octagon::new(alloc, &ranges)?;
    octagon.add_bound(V, MINUS_W, 0);
    octagon.add_bound(V, W, 9);
    Ok(octagon)
}

#[test]
fn a_copy(rt: HostRuntime) -> Result<(), Fail> {
    let octagon = ordered(rt.alloc())?;
    let copy = octagon.copy(rt.alloc())?;
    assert_eq!(rt; copy.range(0), Some(Interval::new(0, 4)));
    assert_eq!(rt; copy.bound(W, MINUS_V), Some(9));
    Ok(())
}

#[test]
fn projected_to_one(rt: HostRuntime) -> Result<(), Fail> {
    let octagon = ordered(rt.alloc())?;
    let unused = [Interval::new(0, 10)];
    let one = octagon.project(rt.alloc(), &[Some(1)], &unused)?;
    assert_eq!(rt; one.range(0), Some(Interval::new(0, 9)));
    Ok(())
}

// w, a number from 2 to 3, and v
fn w_free_v(alloc: Global) -> Result<Octagon, NoMemory>
    ensures { IfOk result (λ o. o.variables ≡ 3) }
{
    let octagon = ordered(alloc)?;
    let ten = Interval::new(0, 10);
    let ranges = [ten, Interval::new(2, 3), ten];
    octagon.project(alloc, &[Some(1), None, Some(0)], &ranges)
}

#[test]
fn projected_to_three(rt: HostRuntime) -> Result<(), Fail> {
    let three = w_free_v(rt.alloc())?;
    assert_eq!(rt; three.range(1), Some(Interval::new(2, 3)));
    assert_eq!(rt; three.bound(THIRD, MINUS_V), Some(0));
    assert_eq!(rt; three.bound(THIRD, V), Some(9));
    assert_eq!(rt; three.bound(W, MINUS_V), Some(3));
    Ok(())
}

#[test]
fn nothing_projected(rt: HostRuntime) -> Result<(), Fail> {
    let mut octagon = ordered(rt.alloc())?;
    octagon.add_bound(V, W, -1);
    let unused = [Interval::new(0, 10)];
    let none = octagon.project(rt.alloc(), &[Some(1)], &unused)?;
    assert!(rt; none.is_empty());
    assert_eq!(rt; none.range(0), None);
    Ok(())
}

#[test]
fn neighbours_in_an_order(rt: HostRuntime) -> Result<(), Fail> {
    let ten = Interval::new(0, 10);
    let ranges = [ten, ten];
    let mut octagon = Octagon::new(rt.alloc(), &ranges)?;
    octagon.add_bound(V, MINUS_W, -1);
    octagon.add_bound(W, MINUS_V, 1);
    assert_eq!(rt; octagon.bound(W, MINUS_V), Some(1));
    assert_eq!(rt; octagon.range(0), Some(Interval::new(0, 9)));
    assert_eq!(rt; octagon.range(1), Some(Interval::new(1, 10)));
    Ok(())
}

// v and w have the number
fn at(alloc: Global, number: i64) -> Result<Octagon, NoMemory>
    requires { IsWord32 number }
    ensures { IfOk result (λ o. o.variables ≡ 2) }
{
    let point = Interval::new(number, number);
    let ranges = [point, point];
    Octagon::new(alloc, &ranges)
}

#[test]
fn two_points_joined(rt: HostRuntime) -> Result<(), Fail> {
    let mut joined = at(rt.alloc(), 0)?;
    let other = at(rt.alloc(), 5)?;
    joined.join_with(&other);
    assert_eq!(rt; joined.range(0), Some(Interval::new(0, 5)));
    assert_eq!(rt; joined.range(1), Some(Interval::new(0, 5)));
    assert_eq!(rt; joined.bound(V, MINUS_W), Some(0));
    assert_eq!(rt; joined.bound(W, MINUS_V), Some(0));
    Ok(())
}

#[test]
fn a_point_within_a_join(rt: HostRuntime) -> Result<(), Fail> {
    let mut joined = at(rt.alloc(), 0)?;
    let other = at(rt.alloc(), 5)?;
    assert!(rt; !other.within(&joined));
    joined.join_with(&other);
    assert!(rt; other.within(&joined));
    Ok(())
}
