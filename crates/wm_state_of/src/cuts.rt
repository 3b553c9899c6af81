// Ranges of single variables and of pairs, kept by a state.
ghost use Rattle.std.specs.Prelude.{◌≡◌, ◌<◌, ◌^◌, ◌≤ℤ◌, pos, neg_ℤ, IsTrue, IfOk, OnOk, length, unsigned_abs};
ghost use Rattle.wm_domain.specs.Forms.{IsForm, AreBounded, form_value};
ghost use Rattle.wm_domain.specs.States.{count_of};
ghost use Rattle.wm_domain.specs.declared.form.Relation.TheVariants.{AtMost};
ghost use Rattle.wm_state_of.specs.Cuts.{Cut};
ghost use Rattle.wm_state_of.specs.Meeting.{Between, PairMet, turns};

use crate::forms::{one_form, two_form};
use std::alloc::Global;
use wm_cert_text::{Ends, Kind, Pair};
use wm_domain::{Domain, Form, Relation};
use wm_ops::NoMemory;

/// Keeps the points at which the form is at most 0.
fn keep_form<D: Domain>(state: &mut D, form: &Form)
    requires form { IsForm (count_of (D.shape_of state.old)) form.now }
    requires bounded { AreBounded D.PAIRS (length (D.shape_of state.old).group) form.now.terms }
    ensures shape { D.shape_of state.new ≡ D.shape_of state.old }
    ensures cut { Cut (D.holds state.old) (D.holds state.new) (λ p. form_value p.values form.now ≤ℤ pos 0) }
{
    state.keep(form, Relation::AtMost);
}

/// Refuses ends of 2^50 or more in size, which no text has.
fn small(ends: Ends) -> Result<(), NoMemory>
    ensures low { OnOk result (unsigned_abs ends.low < 2 ^ 50) }
    ensures high { OnOk result (unsigned_abs ends.high < 2 ^ 50) }
{
    if ends.low <= -1_125_899_906_842_624 {
        return Err(NoMemory);
    }
    if ends.low >= 1_125_899_906_842_624 {
        return Err(NoMemory);
    }
    if ends.high <= -1_125_899_906_842_624 {
        return Err(NoMemory);
    }
    if ends.high >= 1_125_899_906_842_624 {
        return Err(NoMemory);
    }
    Ok(())
}

/// The number with the other sign.
fn opposite(z: i64) -> i64
    requires { unsigned_abs z < 2 ^ 50 }
    ensures { result ≡ neg_ℤ z }
{
    -z
}

/// Keeps the points at which a variable lies between the ends.
pub fn keep_variable<D: Domain>(
    alloc: Global,
    state: &mut D,
    v: u32,
    ends: Ends,
) -> Result<(), NoMemory>
    requires inside { v < count_of (D.shape_of state.old) }
    ensures shape { OnOk result (D.shape_of state.new ≡ D.shape_of state.old) }
    ensures cut { OnOk result (Cut (D.holds state.old) (D.holds state.new) (λ p. Between ends (p.values v))) }
{
    small(ends)?;
    let above = one_form(alloc, v, true, ends.low)?;
    let below = one_form(alloc, v, false, opposite(ends.high))?;
    keep_form(state, &above);
    keep_form(state, &below);
    Ok(())
}

/// Keeps the points at which the difference or the sum of two variables lies between the ends.
fn keep_two<D: Domain>(
    alloc: Global,
    state: &mut D,
    pair: Pair,
    other: bool,
) -> Result<(), NoMemory>
    requires pairs { IsTrue D.PAIRS }
    requires order { pair.first < pair.second }
    requires second { pair.second < length (D.shape_of state.old).group }
    requires sign { other ≡ turns pair.kind }
    ensures shape { OnOk result (D.shape_of state.new ≡ D.shape_of state.old) }
    ensures cut { OnOk result (Cut (D.holds state.old) (D.holds state.new) (PairMet pair)) }
{
    small(pair.ends)?;
    let above = two_form(alloc, pair.first, true, pair.second, !other, pair.ends.low)?;
    let below = two_form(
        alloc,
        pair.first,
        false,
        pair.second,
        other,
        opposite(pair.ends.high),
    )?;
    keep_form(state, &above);
    keep_form(state, &below);
    Ok(())
}

fn turns(kind: Kind) -> bool
    ensures { result ≡ turns kind }
{
    match kind {
        Kind::Minus => true,
        Kind::Plus => false,
    }
}

/// Keeps the points at which a pair of the group lies between its ends. A pair that is none of the group, or of a domain
/// without bounds on pairs, which no text of the graph has, is refused.
pub fn keep_pair<D: Domain>(
    alloc: Global,
    state: &mut D,
    group: usize,
    pair: Pair,
) -> Result<(), NoMemory>
    requires group { group ≡ length (D.shape_of state.old).group }
    ensures shape { OnOk result (D.shape_of state.new ≡ D.shape_of state.old) }
    ensures cut { OnOk result (Cut (D.holds state.old) (D.holds state.new) (PairMet pair)) }
{
    if !D::PAIRS {
        return Err(NoMemory);
    }
    if pair.first >= pair.second {
        return Err(NoMemory);
    }
    if pair.second as usize >= group {
        return Err(NoMemory);
    }
    keep_two(alloc, state, pair, turns(pair.kind))
}
