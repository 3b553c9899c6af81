// Arms of the image along an edge: calls and returns.
ghost use Rattle.std.specs.Prelude.{◌≡◌, IfOk};
ghost use Rattle.wm_domain.specs.States.{IsShape, Keeps, IsBare};
ghost use Rattle.wm_step.specs.Images.{EnterImage};
ghost use Rattle.wm_drawn.specs.Fitting.{EnterFits};

use wm_carry::Way;
use wm_domain::Domain;
use wm_entered::entered;
use wm_flow::Argument;
use wm_middle::Call;
use wm_ops::NoMemory;

// the beginning of a call
#[inline(never)]
pub(crate) fn enter<D: Domain>(
    way: &Way,
    at: &D,
    picks: &[Option<u32>],
    arrays: &[Option<u32>],
    arguments: &[Argument],
) -> Result<D, NoMemory>
    requires fits { EnterFits way.now.source.now way.now.target.now picks.now arrays.now arguments.now }
    requires shape { D.shape_of at.now ≡ way.now.source.now }
    ensures shape { IfOk result (λ s. D.shape_of s ≡ way.now.target.now) }
    ensures sound { IfOk result (λ s. Keeps D.holds D.shape_of s (EnterImage (D.holds at.now) picks.now arrays.now arguments.now)) }
{
    entered(
        way.alloc,
        way.target,
        at,
        &Call {
            picks,
            arrays,
            arguments,
        },
    )
}

// no point: a return takes the state at the call's node too
#[inline(never)]
pub(crate) fn nowhere<D: Domain>(way: &Way) -> Result<D, NoMemory>
    requires shape { IsShape way.now.target.now }
    ensures shape { IfOk result (λ s. D.shape_of s ≡ way.now.target.now) }
    ensures bare { IfOk result (λ s. IsBare (D.holds s)) }
{
    let mut state = D::full(way.alloc, way.target)?;
    state.clear();
    Ok(state)
}
