// Summaries of worked arrays.
ghost use Rattle.std.specs.Prelude.{◌≤ℤ◌};

use wm_arrays::Summary;
use wm_interval::Interval;

fn range(low: i64, high: i64) -> Summary
    requires { low ≤ℤ high }
{
    Summary::Range(Interval::new(low, high))
}

#[test]
fn a_write_joins_but_in_an_array_of_one_cell(rt: HostRuntime) {
    let written = Interval::new(5, 6);
    assert_eq!(rt; range(0, 0).write(written, 40), range(0, 6));
    assert_eq!(rt; range(0, 0).write(written, 1), range(5, 6));
    assert_eq!(rt; range(0, 0).write(written, 2), range(0, 6));
    assert_eq!(rt; range(-9, 9).write(written, 65536), range(-9, 9));
    assert_eq!(rt; Summary::Empty.write(written, 40), range(5, 6));
    assert_eq!(rt; Summary::Empty.write(written, 1), range(5, 6));
}

#[test]
fn joins_and_inclusion(rt: HostRuntime) {
    assert_eq!(rt; Summary::Empty.join(Summary::Empty), Summary::Empty);
    assert_eq!(rt; Summary::Empty.join(range(1, 2)), range(1, 2));
    assert_eq!(rt; range(1, 2).join(Summary::Empty), range(1, 2));
    assert_eq!(rt; range(-3, 2).join(range(7, 9)), range(-3, 9));
    assert!(rt; Summary::Empty.within(Summary::Empty));
    assert!(rt; Summary::Empty.within(range(0, 0)));
    assert!(rt; !range(0, 0).within(Summary::Empty));
    assert!(rt; range(1, 2).within(range(1, 2)));
    assert!(rt; !range(0, 2).within(range(1, 2)));
    assert!(rt; !range(1, 3).within(range(1, 2)));
}
