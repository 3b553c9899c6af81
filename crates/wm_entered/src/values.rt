// A parameter that gets the value of its argument.
ghost use Rattle.std.specs.Prelude.{◌≡◌, ◌∷◌, [], ◌<◌, ◌^◌, ◌-ℤ◌, length, OnOk};
ghost use Rattle.wm_domain.specs.Forms.{IsForm};
ghost use Rattle.wm_domain.specs.States.{count_of, IsShape};
ghost use Rattle.wm_filters.specs.Stays.{Stays};
ghost use Rattle.wm_assign.specs.Giving.{InRange, IsGiven, IsGivenBy, rest_form};
ghost use Rattle.wm_middle.specs.Parting.{part_at, part_value};
ghost use Rattle.wm_entered.specs.Crossing.{Crosses, middle_point};

use std::alloc::Global;
use wm_domain::{Domain, Form, Term};
use wm_filters::{put_form, put_near, put_range};
use wm_middle::{Part, find};
use wm_ops::NoMemory;
use wm_tested::of_variable;

/// Variable `v` has a number between two values of the form at another state.
pub fn put_any<D: Domain>(at: &D, state: &mut D, v: u32, f: &Form)
    requires shaped { IsShape (D.shape_of state.old) }
    requires inside { v < count_of (D.shape_of state.old) }
    requires form { IsForm (count_of (D.shape_of at.now)) f.now }
    ensures shape { D.shape_of state.new ≡ D.shape_of state.old }
    ensures kept { Stays D.holds (D.shape_of state.old) state.old state.new (λ p. InRange (D.holds at.now) f.now (p.values v)) }
{
    match at.form(f) {
        None => state.clear(),
        Some(r) => put_range(state, v, r),
    }
}

/// The variables between, and where memory comes from.
#[derive(Clone, Copy)]
pub struct Between<'g> {
    pub alloc: Global,
    pub parts: &'g [Part],
}

// the value of a form of one term
fn put_one<D: Domain>(
    between: &Between,
    at: &D,
    state: &mut D,
    v: u32,
    f: &Form,
    t: Term,
) -> Result<(), NoMemory>
    requires few { length between.now.parts.now < 2 ^ 32 }
    requires long { count_of (D.shape_of state.old) ≡ length between.now.parts.now }
    requires shaped { IsShape (D.shape_of state.old) }
    requires inside { v < count_of (D.shape_of state.old) }
    requires form { IsForm (count_of (D.shape_of at.now)) f.now }
    requires terms { f.now.terms ≡ t ∷ [] }
    ensures shape { OnOk result (D.shape_of state.new ≡ D.shape_of state.old) }
    ensures kept { OnOk result (Crosses D.holds (D.shape_of state.old) between.now.parts.now state.old state.new (λ was p. D.holds at.now was × IsGiven (D.holds at.now) f.now was (part_value was p (part_at between.now.parts.now v)))) }
{
    match find(between.parts, Part::Caller(t.variable)) {
        None => {
            put_any(at, state, v, f);
            Ok(())
        }
        Some(w) => {
            let form = of_variable(between.alloc, w, t.negative, f.constant)?;
            put_form(state, v, &form);
            Ok(())
        }
    }
}

// a number of the form's range that differs from a variable by one of the range of the rest
fn put_beside<D: Domain>(
    between: &Between,
    at: &D,
    state: &mut D,
    v: u32,
    f: &Form,
    from: u32,
    other: Term,
) -> Result<(), NoMemory>
    requires few { length between.now.parts.now < 2 ^ 32 }
    requires long { count_of (D.shape_of state.old) ≡ length between.now.parts.now }
    requires shaped { IsShape (D.shape_of state.old) }
    requires inside { v < count_of (D.shape_of state.old) }
    requires form { IsForm (count_of (D.shape_of at.now)) f.now }
    requires other { other.variable < count_of (D.shape_of at.now) }
    ensures shape { OnOk result (D.shape_of state.new ≡ D.shape_of state.old) }
    ensures kept { OnOk result (Crosses D.holds (D.shape_of state.old) between.now.parts.now state.old state.new (λ was p. InRange (D.holds at.now) f.now (part_value was p (part_at between.now.parts.now v)) × InRange (D.holds at.now) (rest_form other f.now.constant) (part_value was p (part_at between.now.parts.now v) -ℤ was.values from))) }
{
    let rest = of_variable(between.alloc, other.variable, other.negative, f.constant)?;
    match find(between.parts, Part::Caller(from)) {
        None => {
            put_any(at, state, v, f);
            Ok(())
        }
        Some(w) => {
            put_difference(at, state, v, w, f, &rest);
            Ok(())
        }
    }
}

// a number between two values of the form that differs from a variable by one between two values of the rest
fn put_difference<D: Domain>(at: &D, state: &mut D, v: u32, w: u32, f: &Form, rest: &Form)
    requires shaped { IsShape (D.shape_of state.old) }
    requires inside { v < count_of (D.shape_of state.old) }
    requires from { w < count_of (D.shape_of state.old) }
    requires form { IsForm (count_of (D.shape_of at.now)) f.now }
    requires rest { IsForm (count_of (D.shape_of at.now)) rest.now }
    ensures shape { D.shape_of state.new ≡ D.shape_of state.old }
    ensures kept { Stays D.holds (D.shape_of state.old) state.old state.new (λ p. InRange (D.holds at.now) f.now (p.values v) × InRange (D.holds at.now) rest.now (p.values v -ℤ p.values w)) }
{
    match at.form(f) {
        None => state.clear(),
        Some(r) => match at.form(rest) {
            None => state.clear(),
            Some(d) => put_near(state, v, w, d, r),
        },
    }
}

// what is known of the value of a form of two terms
fn put_two<D: Domain>(
    between: &Between,
    at: &D,
    state: &mut D,
    v: u32,
    f: &Form,
    t: Term,
    u: Term,
) -> Result<(), NoMemory>
    requires few { length between.now.parts.now < 2 ^ 32 }
    requires long { count_of (D.shape_of state.old) ≡ length between.now.parts.now }
    requires shaped { IsShape (D.shape_of state.old) }
    requires inside { v < count_of (D.shape_of state.old) }
    requires form { IsForm (count_of (D.shape_of at.now)) f.now }
    requires first { t.variable < count_of (D.shape_of at.now) }
    requires second { u.variable < count_of (D.shape_of at.now) }
    ensures shape { OnOk result (D.shape_of state.new ≡ D.shape_of state.old) }
    ensures kept { OnOk result (Crosses D.holds (D.shape_of state.old) between.now.parts.now state.old state.new (λ was p. IsGivenBy (D.holds at.now) f.now (t ∷ u ∷ []) was (part_value was p (part_at between.now.parts.now v)))) }
{
    if !t.negative {
        return put_beside(between, at, state, v, f, t.variable, u);
    }
    if !u.negative {
        return put_beside(between, at, state, v, f, u.variable, t);
    }
    put_any(at, state, v, f);
    Ok(())
}

/// The variable at place `v` between has the value of the form, as far as a state at the call's node tells it. `NoMemory`:
/// memory ran out.
pub fn put_value<D: Domain>(
    between: &Between,
    at: &D,
    state: &mut D,
    v: u32,
    f: &Form,
) -> Result<(), NoMemory>
    requires few { length between.now.parts.now < 2 ^ 32 }
    requires long { count_of (D.shape_of state.old) ≡ length between.now.parts.now }
    requires shaped { IsShape (D.shape_of state.old) }
    requires inside { v < count_of (D.shape_of state.old) }
    requires form { IsForm (count_of (D.shape_of at.now)) f.now }
    ensures shape { OnOk result (D.shape_of state.new ≡ D.shape_of state.old) }
    ensures kept { OnOk result (Crosses D.holds (D.shape_of state.old) between.now.parts.now state.old state.new (λ was p. D.holds at.now was × IsGiven (D.holds at.now) f.now was (part_value was p (part_at between.now.parts.now v)))) }
{
    match f.terms.items().split_first() {
        None => {
            put_any(at, state, v, f);
            Ok(())
        }
        Some((t, rest)) => match rest.split_first() {
            None => put_one(between, at, state, v, f, *t),
            Some((u, _more)) => put_two(between, at, state, v, f, *t, *u),
        },
    }
}
