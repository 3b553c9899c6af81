// What another state tells of pairs of variables.
ghost use Rattle.std.specs.Prelude.{◌≡◌, ◌≢◌, ◌<◌, ◌≤◌, ◌^◌, pos, length, slice_index_or, Some, None, IfOk, OnOk};
ghost use Rattle.wm_domain.specs.Forms.{IsForm, form_value};
ghost use Rattle.wm_domain.specs.States.{count_of, IsShape, IsSized};
ghost use Rattle.wm_domain.specs.Changes.{ArePicks};
ghost use Rattle.wm_interval.specs.Holds.{Holds};
ghost use Rattle.wm_filters.specs.Stays.{Stays};
ghost use Rattle.wm_step.specs.Operating.{sum_form};
ghost use Rattle.wm_left.specs.Taking.{TakenFrom, TakenBoth};

use std::alloc::Global;
use wm_domain::{Domain, Form, Term};
use wm_given::cut;
use wm_interval::Interval;
use wm_ops::{List, NoMemory};
use wm_tested::keep_between;

// the first variable and the second one or its negative
fn pair_form(alloc: Global, v: u32, w: u32, negative: bool) -> Result<Form, NoMemory>
    ensures { IfOk result (λ f. f ≡ sum_form v w negative) }
{
    let mut terms = List::new(alloc);
    terms.push(Term {
        variable: v,
        negative: false,
    })?;
    terms.push(Term {
        variable: w,
        negative,
    })?;
    Ok(Form { terms, constant: 0 })
}

// whether the state tells no more of the form than the range
fn is_known<D: Domain>(state: &D, form: &Form, r: Interval) -> bool
    requires form { IsForm (count_of (D.shape_of state.now)) form.now }
{
    match state.form(form) {
        None => true,
        Some(known) => known.within(r),
    }
}

// the form, whose constant is 0, lies in the range
fn take_form<D: Domain>(
    alloc: Global,
    state: &mut D,
    form: &Form,
    r: Interval,
) -> Result<(), NoMemory>
    requires form { IsForm (count_of (D.shape_of state.old)) form.now }
    requires plain { form.now.constant ≡ pos 0 }
    requires range { IsSized r }
    ensures shape { OnOk result (D.shape_of state.new ≡ D.shape_of state.old) }
    ensures kept { OnOk result (Stays D.holds (D.shape_of state.old) state.old state.new (λ p. Holds r (form_value p.values form.now))) }
{
    if is_known(state, form, r) {
        return Ok(());
    }
    keep_between(alloc, state, form, r.low, r.high)
}

// a variable and the one of the other state from which it comes
#[derive(Clone, Copy)]
struct Taken {
    to: u32,
    from: u32,
}

// the sum of two variables, or their difference, lies in its range at the other state
fn take_pair<D: Domain>(
    alloc: Global,
    there: &D,
    state: &mut D,
    first: Taken,
    second: Taken,
    negative: bool,
) -> Result<(), NoMemory>
    requires shaped { IsShape (D.shape_of there.now) }
    requires apart { first.to ≢ second.to }
    requires apart_there { first.from ≢ second.from }
    requires first { (first.to < count_of (D.shape_of state.old)) × (first.from < count_of (D.shape_of there.now)) }
    requires second { (second.to < count_of (D.shape_of state.old)) × (second.from < count_of (D.shape_of there.now)) }
    ensures shape { OnOk result (D.shape_of state.new ≡ D.shape_of state.old) }
    ensures kept { OnOk result (Stays D.holds (D.shape_of state.old) state.old state.new (TakenBoth (D.holds there.now) first.to second.to first.from second.from)) }
{
    let all = Interval::new(-4294967296, 4294967296);
    let form = pair_form(alloc, first.from, second.from, negative)?;
    match cut(there, &form, all) {
        None => {
            state.clear();
            Ok(())
        }
        Some(r) => {
            let here = pair_form(alloc, first.to, second.to, negative)?;
            take_form(alloc, state, &here, r)
        }
    }
}

// the sum and the difference of two variables
fn take_both<D: Domain>(
    alloc: Global,
    there: &D,
    state: &mut D,
    first: Taken,
    second: Taken,
) -> Result<(), NoMemory>
    requires shaped { IsShape (D.shape_of there.now) }
    requires apart { first.to ≢ second.to }
    requires apart_there { first.from ≢ second.from }
    requires first { (first.to < count_of (D.shape_of state.old)) × (first.from < count_of (D.shape_of there.now)) }
    requires second { (second.to < count_of (D.shape_of state.old)) × (second.from < count_of (D.shape_of there.now)) }
    ensures shape { OnOk result (D.shape_of state.new ≡ D.shape_of state.old) }
    ensures kept { OnOk result (Stays D.holds (D.shape_of state.old) state.old state.new (TakenBoth (D.holds there.now) first.to second.to first.from second.from)) }
{
    take_pair(alloc, there, state, first, second, true)?;
    take_pair(alloc, there, state, first, second, false)?;
    Ok(())
}

// the variable with another, which comes from the other state too
fn take_other<D: Domain>(
    alloc: Global,
    there: &D,
    state: &mut D,
    picks: &[Option<u32>],
    v: u32,
    it: Taken,
) -> Result<(), NoMemory>
    requires shaped { IsShape (D.shape_of there.now) }
    requires long { length picks.now ≤ count_of (D.shape_of state.old) }
    requires picks { ArePicks (count_of (D.shape_of there.now)) picks.now }
    requires inside { it.to < length picks.now }
    requires taken { slice_index_or picks.now it.to None ≡ Some it.from }
    requires before { v < it.to }
    ensures shape { OnOk result (D.shape_of state.new ≡ D.shape_of state.old) }
    ensures kept { OnOk result (Stays D.holds (D.shape_of state.old) state.old state.new (TakenFrom (D.holds there.now) picks.now)) }
{
    match picks[v as usize] {
        None => Ok(()),
        Some(from) => take_both(alloc, there, state, Taken { to: v, from }, it),
    }
}

// the variable with each that stands before it
fn take_before<D: Domain>(
    alloc: Global,
    there: &D,
    state: &mut D,
    picks: &[Option<u32>],
    it: Taken,
) -> Result<(), NoMemory>
    requires shaped { IsShape (D.shape_of there.now) }
    requires long { length picks.now ≤ count_of (D.shape_of state.old) }
    requires picks { ArePicks (count_of (D.shape_of there.now)) picks.now }
    requires inside { it.to < length picks.now }
    requires taken { slice_index_or picks.now it.to None ≡ Some it.from }
    ensures shape { OnOk result (D.shape_of state.new ≡ D.shape_of state.old) }
    ensures kept { OnOk result (Stays D.holds (D.shape_of state.old) state.old state.new (TakenFrom (D.holds there.now) picks.now)) }
{
    for v in 0..it.to {
        take_other(alloc, there, state, picks, v, it)?;
    }
    Ok(())
}

// the variable at a place, where it comes from the other state, with each before it
fn take_at<D: Domain>(
    alloc: Global,
    there: &D,
    state: &mut D,
    picks: &[Option<u32>],
    v: u32,
) -> Result<(), NoMemory>
    requires shaped { IsShape (D.shape_of there.now) }
    requires long { length picks.now ≤ count_of (D.shape_of state.old) }
    requires picks { ArePicks (count_of (D.shape_of there.now)) picks.now }
    requires inside { v < length picks.now }
    ensures shape { OnOk result (D.shape_of state.new ≡ D.shape_of state.old) }
    ensures kept { OnOk result (Stays D.holds (D.shape_of state.old) state.old state.new (TakenFrom (D.holds there.now) picks.now)) }
{
    match picks[v as usize] {
        None => Ok(()),
        Some(from) => take_before(alloc, there, state, picks, Taken { to: v, from }),
    }
}

/// The sums and differences of two of the first `group` variables that come from another state lie in their ranges there.
/// `NoMemory`: memory ran out.
pub fn take_pairs<D: Domain>(
    alloc: Global,
    there: &D,
    state: &mut D,
    picks: &[Option<u32>],
    group: usize,
) -> Result<(), NoMemory>
    requires shaped { IsShape (D.shape_of there.now) }
    requires long { length picks.now ≤ count_of (D.shape_of state.old) }
    requires few { length picks.now < 2 ^ 32 }
    requires picks { ArePicks (count_of (D.shape_of there.now)) picks.now }
    ensures shape { OnOk result (D.shape_of state.new ≡ D.shape_of state.old) }
    ensures kept { OnOk result (Stays D.holds (D.shape_of state.old) state.old state.new (TakenFrom (D.holds there.now) picks.now)) }
{
    let end = group.min(picks.len());
    for v in 0..end {
        take_at(alloc, there, state, picks, v as u32)?;
    }
    Ok(())
}
