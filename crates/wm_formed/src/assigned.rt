// The image of a state where a variable gets the value of a form.
ghost use Rattle.std.specs.Prelude.{◌≡◌, ◌∷◌, ◌<◌, [], IfOk};
ghost use Rattle.wm_domain.specs.Forms.{IsForm};
ghost use Rattle.wm_domain.specs.States.{count_of, Keeps, IsLeast};
ghost use Rattle.wm_carry.specs.Following.{IsWay};
ghost use Rattle.wm_assign.specs.Giving.{Sets, IsGiven, AreSeen};

use crate::pairs::pair_value;
use wm_assign::{exact, set};
use wm_carry::Way;
use wm_domain::{Domain, Form, Term};
use wm_ops::NoMemory;

// the form has these two terms
fn both<D: Domain>(way: &Way, at: &D, v: u32, f: &Form, t: Term, u: Term) -> Result<D, NoMemory>
    requires way { IsWay way.now.source.now way.now.target.now }
    requires shape { D.shape_of at.now ≡ way.now.source.now }
    requires inside { v < count_of way.now.target.now }
    requires form { IsForm (count_of way.now.source.now) f.now }
    requires seen { AreSeen way.now.source.now way.now.target.now v f.now.terms }
    requires terms { f.now.terms ≡ t ∷ u ∷ [] }
    ensures shape { IfOk result (λ s. D.shape_of s ≡ way.now.target.now) }
    ensures sound { IfOk result (λ s. Keeps D.holds D.shape_of s (Sets way.now.source.now way.now.target.now (D.holds at.now) v (IsGiven (D.holds at.now) f.now))) }
    ensures least { IfOk result (λ s. IsLeast D.holds D.shape_of s (Sets way.now.source.now way.now.target.now (D.holds at.now) v (IsGiven (D.holds at.now) f.now))) }
{
    let value = pair_value(way.alloc, at, f, t, u)?;
    let state = set(way, at, v, value)?;
    Ok(state)
}

/// Variable `v` gets the value of the form, exactly where that has at most one term. With two it gets a number of the
/// form's range that differs from the first variable with the plus sign by a number of the range of the rest. `NoMemory`:
/// memory ran out.
pub fn formed<D: Domain>(way: &Way, at: &D, v: u32, f: &Form) -> Result<D, NoMemory>
    requires way { IsWay way.now.source.now way.now.target.now }
    requires shape { D.shape_of at.now ≡ way.now.source.now }
    requires inside { v < count_of way.now.target.now }
    requires form { IsForm (count_of way.now.source.now) f.now }
    requires seen { AreSeen way.now.source.now way.now.target.now v f.now.terms }
    ensures shape { IfOk result (λ s. D.shape_of s ≡ way.now.target.now) }
    ensures sound { IfOk result (λ s. Keeps D.holds D.shape_of s (Sets way.now.source.now way.now.target.now (D.holds at.now) v (IsGiven (D.holds at.now) f.now))) }
    ensures least { IfOk result (λ s. IsLeast D.holds D.shape_of s (Sets way.now.source.now way.now.target.now (D.holds at.now) v (IsGiven (D.holds at.now) f.now))) }
{
    match f.terms.items().split_first() {
        None => {
            let state = exact(way, at, v, f)?;
            Ok(state)
        }
        Some((t, rest)) => match rest.split_first() {
            None => {
                let state = exact(way, at, v, f)?;
                Ok(state)
            }
            Some((u, _more)) => {
                let state = both(way, at, v, f, *t, *u)?;
                Ok(state)
            }
        },
    }
}
