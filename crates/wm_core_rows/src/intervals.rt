use wm_interval::Interval;

#[test]
fn intervals_of_two_intervals(rt: HostRuntime) {
    let a = Interval::new(-3, 5);
    let b = Interval::new(4, 9);
    assert_eq!(rt; a.join(b), Interval::new(-3, 9));
    assert_eq!(rt; a.meet(b), Some(Interval::new(4, 5)));
    assert_eq!(rt; a.meet(Interval::new(6, 9)), None);
    assert_eq!(rt; a.add(b), Interval::new(1, 14));
    assert_eq!(rt; a.sub(b), Interval::new(-12, 1));
    assert_eq!(rt; a.mul(b), Interval::new(-27, 45));
    assert!(rt; Interval::new(4, 4).within(a));
    assert!(rt; !b.within(a));
}

#[test]
fn a_product_has_its_ends_at_any_corner(rt: HostRuntime) {
    let below = Interval::new(-3, -2);
    let across = Interval::new(-2, 3);
    let above = Interval::new(2, 3);
    let other = Interval::new(-5, 4);
    let words = Interval::new(-2147483648, 2147483647);
    assert_eq!(rt; across.mul(other), Interval::new(-15, 12));
    assert_eq!(rt; below.mul(Interval::new(-5, -4)), Interval::new(8, 15));
    assert_eq!(rt; above.mul(Interval::new(-5, -4)), Interval::new(-15, -8));
    assert_eq!(rt; Interval::new(0, 0).mul(other), Interval::new(0, 0));
    assert_eq!(rt;
        words.mul(words),
        Interval::new(-4611686016279904256, 4611686018427387904)
    );
}
