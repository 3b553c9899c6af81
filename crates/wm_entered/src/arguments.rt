// Parameters that get the values of their arguments.
ghost use Rattle.std.specs.Prelude.{◌≡◌, ◌<◌, ◌^◌, All, length, OnOk};
ghost use Rattle.wm_domain.specs.Forms.{IsForm};
ghost use Rattle.wm_domain.specs.States.{count_of, IsShape};
ghost use Rattle.wm_filters.specs.Stays.{Stays};
ghost use Rattle.wm_flow.specs.declared.action.Argument.{Argument};
ghost use Rattle.wm_assign.specs.Giving.{InRange, IsGiven};
ghost use Rattle.wm_middle.specs.Parting.{IsArgument};
ghost use Rattle.wm_entered.specs.Crossing.{Crosses};

use crate::values::{Between, put_any, put_value};
use wm_domain::Domain;
use wm_flow::Argument;
use wm_middle::{Part, find};
use wm_ops::NoMemory;

// a parameter, where it is one of the variables between
fn put_argument<D: Domain>(
    between: &Between,
    at: &D,
    state: &mut D,
    it: &Argument,
) -> Result<(), NoMemory>
    requires few { length between.now.parts.now < 2 ^ 32 }
    requires long { count_of (D.shape_of state.old) ≡ length between.now.parts.now }
    requires shaped { IsShape (D.shape_of state.old) }
    requires form { IsForm (count_of (D.shape_of at.now)) it.now.form }
    ensures shape { OnOk result (D.shape_of state.new ≡ D.shape_of state.old) }
    ensures kept { OnOk result (Crosses D.holds (D.shape_of state.old) between.now.parts.now state.old state.new (λ was p. D.holds at.now was × IsGiven (D.holds at.now) it.now.form was (p.values it.now.parameter))) }
{
    match find(between.parts, Part::Parameter(it.parameter)) {
        None => Ok(()),
        Some(place) => put_value(between, at, state, place, &it.form),
    }
}

/// The parameters among the variables between have the values of their arguments. `NoMemory`: memory ran out.
pub fn put_arguments<D: Domain>(
    between: &Between,
    at: &D,
    state: &mut D,
    arguments: &[Argument],
) -> Result<(), NoMemory>
    requires few { length between.now.parts.now < 2 ^ 32 }
    requires long { count_of (D.shape_of state.old) ≡ length between.now.parts.now }
    requires shaped { IsShape (D.shape_of state.old) }
    requires forms { All (λ (it : Argument). IsForm (count_of (D.shape_of at.now)) it.form) arguments.now }
    ensures shape { OnOk result (D.shape_of state.new ≡ D.shape_of state.old) }
    ensures kept { OnOk result (Crosses D.holds (D.shape_of state.old) between.now.parts.now state.old state.new (λ was p. D.holds at.now was × All (λ (it : Argument). IsGiven (D.holds at.now) it.form was (p.values it.parameter)) arguments.now)) }
{
    for k in 0..arguments.len() {
        put_argument(between, at, state, &arguments[k])?;
    }
    Ok(())
}

// a parameter that is none of the variables between
fn put_other<D: Domain>(parts: &[Part], at: &D, state: &mut D, it: &Argument)
    requires few { length parts.now < 2 ^ 32 }
    requires shaped { IsShape (D.shape_of state.old) }
    requires inside { it.now.parameter < count_of (D.shape_of state.old) }
    requires form { IsForm (count_of (D.shape_of at.now)) it.now.form }
    ensures shape { D.shape_of state.new ≡ D.shape_of state.old }
    ensures kept { Stays D.holds (D.shape_of state.old) state.old state.new (λ p. InRange (D.holds at.now) it.now.form (p.values it.now.parameter)) }
{
    match find(parts, Part::Parameter(it.parameter)) {
        None => put_any(at, state, it.parameter, &it.form),
        Some(_place) => {}
    }
}

/// The parameters that are none of the variables between have numbers of the ranges of their arguments.
pub fn put_others<D: Domain>(parts: &[Part], at: &D, state: &mut D, arguments: &[Argument])
    requires few { length parts.now < 2 ^ 32 }
    requires shaped { IsShape (D.shape_of state.old) }
    requires arguments { All (IsArgument (count_of (D.shape_of at.now)) (count_of (D.shape_of state.old))) arguments.now }
    ensures shape { D.shape_of state.new ≡ D.shape_of state.old }
    ensures kept { Stays D.holds (D.shape_of state.old) state.old state.new (λ p. All (λ (it : Argument). InRange (D.holds at.now) it.form (p.values it.parameter)) arguments.now) }
{
    for k in 0..arguments.len() {
        put_other(parts, at, state, &arguments[k]);
    }
}
