// Full ranges, and lists of them.
ghost use Rattle.std.specs.Prelude.{◌≡◌, ◌++◌, ◌∷◌, [], take, drop, replicate, pos, OnOk};
ghost use Rattle.wm_flow.specs.Layouts as layouts;
ghost use Rattle.wm_flow.specs.Views.{range_of};
ghost use Rattle.wm_layouts.specs.Ranges.{ranges_of};

use wm_interval::Interval;
use wm_ops::{List, NoMemory, Width};

/// The numbers of 32 bits.
pub(crate) fn word32() -> Interval
    ensures { range_of result ≡ layouts.word32 }
{
    Interval::new(-2147483648, 2147483647)
}

/// The numbers of a width.
pub(crate) fn width_range(width: Width) -> Interval
    ensures { range_of result ≡ layouts.width_range width }
{
    match width {
        Width::W16 => Interval::new(-32768, 32767),
        Width::W32 => word32(),
    }
}

/// What a counter may be.
pub(crate) fn count_range() -> Interval
    ensures { range_of result ≡ layouts.count_range }
{
    Interval::new(0, 2147483647)
}

/// The numbers from 0 to `high`.
pub(crate) fn up_to(high: u32) -> Interval
    ensures { range_of result ≡ layouts.range (pos 0) (pos high) }
{
    Interval::new(0, i64::from(high))
}

/// One more range.
#[tactic(auto, using(crate::proofs::Grown::ranges_joined))]
pub(crate) fn push_range(list: &mut List<Interval>, range: Interval) -> Result<(), NoMemory>
    ensures { OnOk result (ranges_of list.new ≡ ranges_of list.old ++ range_of range ∷ []) }
{
    list.push(range)
}

/// All ranges of a list.
pub(crate) fn push_ranges(list: &mut List<Interval>, more: &[Interval]) -> Result<(), NoMemory>
    ensures { OnOk result (ranges_of list.new ≡ ranges_of list.old ++ ranges_of more.now) }
{
    for range in more {
        push_range(list, *range)?;
    }
    Ok(())
}

/// The range so many times.
#[tactic(auto, using(crate::proofs::Grown::same_step))]
pub(crate) fn push_same(
    list: &mut List<Interval>,
    range: Interval,
    count: u32,
) -> Result<(), NoMemory>
    ensures { OnOk result (ranges_of list.new ≡ ranges_of list.old ++ replicate count (range_of range)) }
{
    for k in 0..count {
        push_range(list, range)?;
    }
    Ok(())
}

/// The first so many ranges.
pub(crate) fn first_of(list: &[Interval], count: usize) -> &[Interval]
    ensures { ranges_of result.now ≡ take count (ranges_of list.now) }
{
    let end = list.len().min(count);
    let (front, _back) = list.split_at(end);
    front
}

/// The ranges behind the first so many.
pub(crate) fn behind(list: &[Interval], count: usize) -> &[Interval]
    ensures { ranges_of result.now ≡ drop count (ranges_of list.now) }
{
    let end = list.len().min(count);
    let (_front, back) = list.split_at(end);
    back
}
