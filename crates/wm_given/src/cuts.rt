// The part of an interval in which a form lies.
ghost use Rattle.std.specs.Prelude.{◌<◌};
ghost use Rattle.wm_domain.specs.Forms.{IsForm};
ghost use Rattle.wm_domain.specs.States.{count_of};
ghost use Rattle.wm_given.specs.Parts.{IsCut};

use wm_domain::{Domain, Form};
use wm_interval::Interval;

/// The numbers of an interval between two values of the form; None exactly where there are none.
pub fn cut<D: Domain>(at: &D, f: &Form, all: Interval) -> Option<Interval>
    requires form { IsForm (count_of (D.shape_of at.now)) f.now }
    ensures exact { IsCut (D.holds at.now) f.now all result }
{
    match at.form(f) {
        None => None,
        Some(range) => range.meet(all),
    }
}
