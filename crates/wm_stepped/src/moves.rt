// Arms of the image along an edge: states that are carried, counters and inputs.
ghost use Rattle.std.specs.Prelude.{◌≡◌, [], IfOk};
ghost use Rattle.wm_domain.specs.States.{Keeps};
ghost use Rattle.wm_domain.specs.Changes.{Kept};
ghost use Rattle.wm_carry.specs.Following.{IsWay, Moved};
ghost use Rattle.wm_cleared.specs.Dropping as dropping;
ghost use Rattle.wm_tested.specs.Likes.{Between};
ghost use Rattle.wm_step.specs.Images.{TurnImage, TieImage, InputsImage};
ghost use Rattle.wm_drawn.specs.Fitting.{VariablesFit, KeepFits, TestFits, TurnFits, TieFits, InputsFit};

use wm_carry::{Way, carried};
use wm_cleared::{cleared, reset};
use wm_domain::{Domain, Form, Relation};
use wm_flow::{Given, Growth};
use wm_guarded::{kept, tested};
use wm_ops::NoMemory;
use wm_paced::{Pace, paced};
use wm_supplied::supplied;
use wm_turned_at::turned;

// variables that may have any number
#[inline(never)]
pub(crate) fn clear_variables<D: Domain>(
    way: &Way,
    at: &D,
    variables: &[u32],
) -> Result<D, NoMemory>
    requires fits { VariablesFit way.now.source.now way.now.target.now variables.now }
    requires shape { D.shape_of at.now ≡ way.now.source.now }
    ensures shape { IfOk result (λ s. D.shape_of s ≡ way.now.target.now) }
    ensures sound { IfOk result (λ s. Keeps D.holds D.shape_of s (Moved way.now.source.now way.now.target.now (D.holds at.now) variables.now [])) }
{
    cleared(way, at, variables)
}

// a relation that holds
#[inline(never)]
pub(crate) fn keep_relation<D: Domain>(
    way: &Way,
    at: &D,
    form: &Form,
    relation: Relation,
) -> Result<D, NoMemory>
    requires fits { KeepFits way.now.source.now way.now.target.now form.now }
    requires shape { D.shape_of at.now ≡ way.now.source.now }
    ensures shape { IfOk result (λ s. D.shape_of s ≡ way.now.target.now) }
    ensures sound { IfOk result (λ s. Keeps D.holds D.shape_of s (Moved way.now.source.now way.now.target.now (Kept (D.holds at.now) form.now relation) [] [])) }
{
    kept(way, at, form, relation)
}

// a form's value between two numbers
#[inline(never)]
pub(crate) fn keep_between<D: Domain>(
    way: &Way,
    at: &D,
    form: &Form,
    low: i64,
    high: i64,
) -> Result<D, NoMemory>
    requires fits { TestFits way.now.source.now way.now.target.now form.now low high }
    requires shape { D.shape_of at.now ≡ way.now.source.now }
    ensures shape { IfOk result (λ s. D.shape_of s ≡ way.now.target.now) }
    ensures sound { IfOk result (λ s. Keeps D.holds D.shape_of s (Moved way.now.source.now way.now.target.now (Between (D.holds at.now) form.now low high) [] [])) }
{
    tested(way, at, form, low, high)
}

// nothing changes
#[inline(never)]
pub(crate) fn carry<D: Domain>(way: &Way, at: &D) -> Result<D, NoMemory>
    requires fits { IsWay way.now.source.now way.now.target.now }
    requires shape { D.shape_of at.now ≡ way.now.source.now }
    ensures shape { IfOk result (λ s. D.shape_of s ≡ way.now.target.now) }
    ensures sound { IfOk result (λ s. Keeps D.holds D.shape_of s (Moved way.now.source.now way.now.target.now (D.holds at.now) [] [])) }
{
    carried(way, at)
}

// counters at 0
#[inline(never)]
pub(crate) fn reset_counters<D: Domain>(way: &Way, at: &D, counters: &[u32]) -> Result<D, NoMemory>
    requires fits { VariablesFit way.now.source.now way.now.target.now counters.now }
    requires shape { D.shape_of at.now ≡ way.now.source.now }
    ensures shape { IfOk result (λ s. D.shape_of s ≡ way.now.target.now) }
    ensures sound { IfOk result (λ s. Keeps D.holds D.shape_of s (dropping.Reset way.now.source.now way.now.target.now (D.holds at.now) counters.now)) }
{
    reset(way, at, counters)
}

// counters that have grown
#[inline(never)]
pub(crate) fn turn<D: Domain>(way: &Way, at: &D, growths: &[Growth]) -> Result<D, NoMemory>
    requires fits { TurnFits way.now.source.now way.now.target.now growths.now }
    requires shape { D.shape_of at.now ≡ way.now.source.now }
    ensures shape { IfOk result (λ s. D.shape_of s ≡ way.now.target.now) }
    ensures sound { IfOk result (λ s. Keeps D.holds D.shape_of s (TurnImage way.now.source.now way.now.target.now (D.holds at.now) growths.now)) }
{
    turned(way, at, growths)
}

// a sum counter between what the turns of a loop make of it
#[inline(never)]
pub(crate) fn tie<D: Domain>(
    way: &Way,
    at: &D,
    counter: u32,
    loop_step: u32,
    variable: u32,
    step: u32,
) -> Result<D, NoMemory>
    requires fits { TieFits way.now.source.now way.now.target.now counter loop_step variable }
    requires shape { D.shape_of at.now ≡ way.now.source.now }
    ensures shape { IfOk result (λ s. D.shape_of s ≡ way.now.target.now) }
    ensures sound { IfOk result (λ s. Keeps D.holds D.shape_of s (TieImage way.now.source.now way.now.target.now (D.holds at.now) counter loop_step variable step)) }
{
    paced(
        way,
        at,
        Pace {
            counter,
            loop_step,
            variable,
            step,
        },
    )
}

// inputs with any numbers of their ranges
#[inline(never)]
pub(crate) fn supply<D: Domain>(
    way: &Way,
    at: &D,
    scalars: &[Given],
    arrays: &[Given],
) -> Result<D, NoMemory>
    requires fits { InputsFit way.now.source.now way.now.target.now scalars.now arrays.now }
    requires shape { D.shape_of at.now ≡ way.now.source.now }
    ensures shape { IfOk result (λ s. D.shape_of s ≡ way.now.target.now) }
    ensures sound { IfOk result (λ s. Keeps D.holds D.shape_of s (InputsImage way.now.source.now way.now.target.now (D.holds at.now) scalars.now arrays.now)) }
{
    supplied(way, at, scalars, arrays)
}
