// The numbers of 32 bits of an interval, and the differences of two such numbers.
ghost use Rattle.wm_filters.specs.Words.{IsWords, AreDifferences};

use wm_interval::Interval;

/// The part of an interval that has 32 bits; None where there is none.
pub fn words(r: Interval) -> Option<Interval>
    ensures words { IsWords r result }
{
    let all = Interval::new(-2147483648, 2147483647);
    r.meet(all)
}

/// The part of an interval in which differences of two numbers of 32 bits lie; None where there is none.
pub fn differences(d: Interval) -> Option<Interval>
    ensures differences { AreDifferences d result }
{
    let all = Interval::new(-4294967295, 4294967295);
    d.meet(all)
}
