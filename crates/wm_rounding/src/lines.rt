// What a state on the grid keeps of single forms and of single arrays.
ghost use Rattle.std.specs.Prelude.{◌≡◌, ◌<◌, ◌≤ℤ◌, ◌^◌, pos, neg_ℤ, true, false, OnOk, IfOk, IsTrue, length, unsigned_abs, MatchOption};
ghost use Rattle.wm_interval.specs.Holds.{IsHullOf};
ghost use Rattle.wm_domain.specs.Changes.{IsFormValue};
ghost use Rattle.wm_domain.specs.Forms.{IsForm, AreBounded, form_value};
ghost use Rattle.wm_domain.specs.States.{count_of, array_count, IsBare};
ghost use Rattle.wm_rounding.specs.Bounding.{IsAbove, IsBelow};
ghost use Rattle.wm_rounding.specs.Rounding.{MeetsForm, MeetsPair, MeetsCell};
ghost use Rattle.wm_rounding.specs.Forms as forms;
ghost use Rattle.wm_rounding.specs.Cuts.{Cut, SetsCell, AllowsCells};

use crate::ends::{around, summary_around};
use crate::forms::{one_form, pair_form};
use crate::known::{is_from, is_to};
use std::alloc::Global;
use wm_arrays::Summary;
use wm_domain::{Domain, Form, Relation};
use wm_grid::Grid;
use wm_ops::NoMemory;
use wm_tested::with_constant;

/// Refuses a number of 2^50 or more in size, which no grid of a program has.
fn small(z: i64) -> Result<(), NoMemory>
    ensures size { OnOk result (unsigned_abs z < 2 ^ 50) }
{
    if z <= -1_125_899_906_842_624 {
        return Err(NoMemory);
    }
    if z >= 1_125_899_906_842_624 {
        return Err(NoMemory);
    }
    Ok(())
}

/// The number with the other sign.
fn opposite(z: i64) -> i64
    requires { unsigned_abs z < 2 ^ 50 }
    ensures { result ≡ neg_ℤ z }
{
    -z
}

/// Keeps the points at which the form is at most 0.
fn keep_form<D: Domain>(state: &mut D, form: &Form)
    requires form { IsForm (count_of (D.shape_of state.old)) form.now }
    requires bounded { AreBounded D.PAIRS (length (D.shape_of state.old).group) form.now.terms }
    ensures shape { D.shape_of state.new ≡ D.shape_of state.old }
    ensures cut { Cut (D.holds state.old) (D.holds state.new) (λ p. form_value p.values form.now ≤ℤ pos 0) }
{
    state.keep(form, Relation::AtMost);
}

/// Keeps the points at which a form without a constant is at least the number.
fn keep_from<D: Domain>(alloc: Global, state: &mut D, f: &Form, low: i64) -> Result<(), NoMemory>
    requires form { IsForm (count_of (D.shape_of state.old)) f.now }
    requires bounded { AreBounded D.PAIRS (length (D.shape_of state.old).group) f.now.terms }
    requires bare { f.now.constant ≡ pos 0 }
    ensures shape { OnOk result (D.shape_of state.new ≡ D.shape_of state.old) }
    ensures cut { OnOk result (Cut (D.holds state.old) (D.holds state.new) (λ p. low ≤ℤ form_value p.values f.now)) }
{
    small(low)?;
    let under = with_constant(alloc, f, true, low)?;
    keep_form(state, &under);
    Ok(())
}

/// Keeps the points at which a form without a constant is at most the number.
fn keep_to<D: Domain>(alloc: Global, state: &mut D, f: &Form, high: i64) -> Result<(), NoMemory>
    requires form { IsForm (count_of (D.shape_of state.old)) f.now }
    requires bounded { AreBounded D.PAIRS (length (D.shape_of state.old).group) f.now.terms }
    requires bare { f.now.constant ≡ pos 0 }
    ensures shape { OnOk result (D.shape_of state.new ≡ D.shape_of state.old) }
    ensures cut { OnOk result (Cut (D.holds state.old) (D.holds state.new) (λ p. form_value p.values f.now ≤ℤ high)) }
{
    small(high)?;
    let over = with_constant(alloc, f, false, opposite(high))?;
    keep_form(state, &over);
    Ok(())
}

/// Keeps the points at which the form is none below the bound, where there is one.
fn keep_above<D: Domain>(
    alloc: Global,
    state: &mut D,
    f: &Form,
    low: Option<i64>,
) -> Result<(), NoMemory>
    requires form { IsForm (count_of (D.shape_of state.old)) f.now }
    requires bounded { AreBounded D.PAIRS (length (D.shape_of state.old).group) f.now.terms }
    requires bare { f.now.constant ≡ pos 0 }
    ensures shape { OnOk result (D.shape_of state.new ≡ D.shape_of state.old) }
    ensures cut { OnOk result (Cut (D.holds state.old) (D.holds state.new) (λ p. IsAbove low (form_value p.values f.now))) }
{
    match low {
        None => Ok(()),
        Some(low) => {
            if is_from(state, f, low) {
                return Ok(());
            }
            keep_from(alloc, state, f, low)
        },
    }
}

/// Keeps the points at which the form is none above the bound, where there is one.
fn keep_below<D: Domain>(
    alloc: Global,
    state: &mut D,
    f: &Form,
    high: Option<i64>,
) -> Result<(), NoMemory>
    requires form { IsForm (count_of (D.shape_of state.old)) f.now }
    requires bounded { AreBounded D.PAIRS (length (D.shape_of state.old).group) f.now.terms }
    requires bare { f.now.constant ≡ pos 0 }
    ensures shape { OnOk result (D.shape_of state.new ≡ D.shape_of state.old) }
    ensures cut { OnOk result (Cut (D.holds state.old) (D.holds state.new) (λ p. IsBelow high (form_value p.values f.now))) }
{
    match high {
        None => Ok(()),
        Some(high) => {
            if is_to(state, f, high) {
                return Ok(());
            }
            keep_to(alloc, state, f, high)
        },
    }
}

/// Rounds the values that a form has in `held`, which has a point, to the grid.
fn round_form<D: Domain>(
    alloc: Global,
    grid: &Grid,
    held: &D,
    state: &mut D,
    f: &Form,
) -> Result<(), NoMemory>
    requires point { IsBare (D.holds held.now) → ⊥ }
    requires shape { D.shape_of state.old ≡ D.shape_of held.now }
    requires form { IsForm (count_of (D.shape_of held.now)) f.now }
    requires bounded { AreBounded D.PAIRS (length (D.shape_of held.now).group) f.now.terms }
    requires bare { f.now.constant ≡ pos 0 }
    ensures shape { OnOk result (D.shape_of state.new ≡ D.shape_of state.old) }
    ensures cut { OnOk result (Cut (D.holds state.old) (D.holds state.new) (MeetsForm grid.now (D.holds held.now) f.now)) }
{
    match held.form(f) {
        None => Err(NoMemory),
        Some(range) => {
            let ends = around(grid, range);
            keep_above(alloc, state, f, ends.low)?;
            keep_below(alloc, state, f, ends.high)
        }
    }
}

/// Rounds the range that a variable has in `held` to the grid.
pub(crate) fn round_variable<D: Domain>(
    alloc: Global,
    grid: &Grid,
    held: &D,
    state: &mut D,
    v: u32,
) -> Result<(), NoMemory>
    requires point { IsBare (D.holds held.now) → ⊥ }
    requires shape { D.shape_of state.old ≡ D.shape_of held.now }
    requires inside { v < count_of (D.shape_of held.now) }
    ensures shape { OnOk result (D.shape_of state.new ≡ D.shape_of state.old) }
    ensures cut { OnOk result (Cut (D.holds state.old) (D.holds state.new) (MeetsForm grid.now (D.holds held.now) (forms.one_form v))) }
{
    let form = one_form(alloc, v)?;
    round_form(alloc, grid, held, state, &form)
}

/// Rounds the range that the sum of two variables, or the first less the second, has in `held` to the grid.
fn round_pair<D: Domain>(
    alloc: Global,
    grid: &Grid,
    held: &D,
    state: &mut D,
    v: u32,
    w: u32,
    negative: bool,
) -> Result<(), NoMemory>
    requires point { IsBare (D.holds held.now) → ⊥ }
    requires pairs { IsTrue D.PAIRS }
    requires shape { D.shape_of state.old ≡ D.shape_of held.now }
    requires order { v < w }
    requires inside { w < length (D.shape_of held.now).group }
    ensures shape { OnOk result (D.shape_of state.new ≡ D.shape_of state.old) }
    ensures cut { OnOk result (Cut (D.holds state.old) (D.holds state.new) (MeetsForm grid.now (D.holds held.now) (forms.pair_form v w negative))) }
{
    let form = pair_form(alloc, v, w, negative)?;
    round_form(alloc, grid, held, state, &form)
}

/// Rounds the ranges of the difference and of the sum of two variables to the grid.
pub(crate) fn round_both<D: Domain>(
    alloc: Global,
    grid: &Grid,
    held: &D,
    state: &mut D,
    v: u32,
    w: u32,
) -> Result<(), NoMemory>
    requires point { IsBare (D.holds held.now) → ⊥ }
    requires pairs { IsTrue D.PAIRS }
    requires shape { D.shape_of state.old ≡ D.shape_of held.now }
    requires order { v < w }
    requires inside { w < length (D.shape_of held.now).group }
    ensures shape { OnOk result (D.shape_of state.new ≡ D.shape_of state.old) }
    ensures cut { OnOk result (Cut (D.holds state.old) (D.holds state.new) (MeetsPair grid.now (D.holds held.now) v w)) }
{
    round_pair(alloc, grid, held, state, v, w, true)?;
    round_pair(alloc, grid, held, state, v, w, false)
}

/// The least summary on the grid that allows what the cells of an array hold. `NoMemory`: the grid has no number on one side of it,
/// which that of a program has.
fn rounded_cells<D: Domain>(grid: &Grid, held: &D, a: u32) -> Result<Summary, NoMemory>
    requires point { IsBare (D.holds held.now) → ⊥ }
    requires inside { a < array_count (D.shape_of held.now) }
    ensures on { IfOk result (λ s. AllowsCells grid.now (D.holds held.now) a s) }
{
    match held.array(a) {
        None => Err(NoMemory),
        Some(summary) => match summary_around(grid, summary) {
            None => Err(NoMemory),
            Some(rounded) => Ok(rounded),
        },
    }
}

/// Rounds what the cells of an array hold in `held` to the grid.
pub(crate) fn round_array<D: Domain>(
    grid: &Grid,
    held: &D,
    state: &mut D,
    a: u32,
) -> Result<(), NoMemory>
    requires point { IsBare (D.holds held.now) → ⊥ }
    requires shape { D.shape_of state.old ≡ D.shape_of held.now }
    requires inside { a < array_count (D.shape_of held.now) }
    ensures shape { OnOk result (D.shape_of state.new ≡ D.shape_of state.old) }
    ensures set { OnOk result (SetsCell grid.now (D.holds held.now) (D.holds state.old) (D.holds state.new) (D.shape_of state.old) a) }
{
    let summary = rounded_cells(grid, held, a)?;
    state.set_array(a, summary);
    Ok(())
}
