// The image of a state along the edge of a cast to 16 bits.
ghost use Rattle.std.specs.Prelude.{◌≡◌, ◌<◌, IfOk};
ghost use Rattle.wm_domain.specs.Forms.{IsForm};
ghost use Rattle.wm_domain.specs.States.{count_of, Keeps, IsLeast};
ghost use Rattle.wm_carry.specs.Following.{IsWay};
ghost use Rattle.wm_assign.specs.Giving.{Sets};
ghost use Rattle.wm_cast.specs.Casting.{InCast, IsNarrowed, IsCastRange};

use wm_assign::{any, bare};
use wm_carry::Way;
use wm_domain::{Domain, Form};
use wm_interval::Interval;
use wm_ops::NoMemory;

// the range where it has 16 bits, else all numbers of 16 bits
fn narrowed(range: Interval) -> Interval
    ensures narrow { IsNarrowed range result }
{
    let all = Interval::new(-32768, 32767);
    if range.within(all) {
        return range;
    }
    all
}

// the numbers that a cast of the form can give; None where the state has no point
fn cast_range<D: Domain>(at: &D, f: &Form) -> Option<Interval>
    requires form { IsForm (count_of (D.shape_of at.now)) f.now }
    ensures cast { IsCastRange (D.holds at.now) f.now result }
{
    match at.form(f) {
        None => None,
        Some(range) => Some(narrowed(range)),
    }
}

/// Variable `target` of the next node gets the low half of the form, as the state tells it: a number of the form's range
/// where that has 16 bits, else any number of 16 bits. `NoMemory`: memory ran out.
pub fn cast<D: Domain>(way: &Way, at: &D, f: &Form, target: u32) -> Result<D, NoMemory>
    requires way { IsWay way.now.source.now way.now.target.now }
    requires shape { D.shape_of at.now ≡ way.now.source.now }
    requires form { IsForm (count_of (D.shape_of at.now)) f.now }
    requires inside { target < count_of way.now.target.now }
    ensures shape { IfOk result (λ s. D.shape_of s ≡ way.now.target.now) }
    ensures sound { IfOk result (λ s. Keeps D.holds D.shape_of s (Sets way.now.source.now way.now.target.now (D.holds at.now) target (λ was z. InCast (D.holds at.now) f.now z))) }
    ensures least { IfOk result (λ s. IsLeast D.holds D.shape_of s (Sets way.now.source.now way.now.target.now (D.holds at.now) target (λ was z. InCast (D.holds at.now) f.now z))) }
{
    match cast_range(at, f) {
        None => {
            let state = bare(way, at)?;
            Ok(state)
        }
        Some(r) => {
            let state = any(way, at, target, r)?;
            Ok(state)
        }
    }
}
