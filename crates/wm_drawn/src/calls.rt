// Whether calls and returns fit the shapes of their nodes.
ghost use Rattle.std.specs.Prelude.{◌≡◌, ◌<◌, ◌^◌, true, All};
ghost use Rattle.wm_domain.specs.States.{count_of, array_count, IsShape};
ghost use Rattle.wm_domain.specs.Changes.{ArePicks};
ghost use Rattle.wm_middle.specs.Parting.{IsArgument};
ghost use Rattle.wm_left.specs.Taking.{IsResult};
ghost use Rattle.wm_drawn.specs.Fitting.{EnterFits, LeaveFits};

use crate::acts::count_of;
use crate::forms::is_form;
use crate::lists::are_rising;
use crate::shapes::is_shape;
use crate::ways::is_numbered;
use wm_domain::Shape;
use wm_flow::{Argument, Returned};
use wm_left::Return;
use wm_middle::Call;

// whether the picks name some of so many, in their order
#[tactic(auto, using(crate::proofs::Rising::picks_of))]
fn are_picks(count: usize, picks: &[Option<u32>]) -> bool
    ensures { result ≡ true → ArePicks count picks.now }
{
    are_rising(0, count, picks)
}

// whether the arguments are forms over so many variables, for some of so many parameters
fn are_arguments(count: usize, parameters: usize, arguments: &[Argument]) -> bool
    ensures { result ≡ true → All (IsArgument count parameters) arguments.now }
{
    match arguments.split_first() {
        None => true,
        Some((it, rest)) => {
            if it.parameter as usize >= parameters {
                return false;
            }
            if !is_form(count, &it.form) {
                return false;
            }
            are_arguments(count, parameters, rest)
        }
    }
}

// whether both are shapes of fewer than 2^32 variables and arrays
fn are_shapes(source: &Shape, target: &Shape) -> bool
    ensures source { result ≡ true → IsShape source.now }
    ensures target { result ≡ true → IsShape target.now }
    ensures few { result ≡ true → count_of target.now < 2 ^ 32 }
    ensures few_arrays { result ≡ true → array_count target.now < 2 ^ 32 }
{
    if !is_shape(source) {
        return false;
    }
    if !is_shape(target) {
        return false;
    }
    if !is_numbered(source) {
        return false;
    }
    is_numbered(target)
}

pub(crate) fn enter_fits(source: &Shape, target: &Shape, call: &Call) -> bool
    ensures { result ≡ true → EnterFits source.now target.now call.now.picks.now call.now.arrays.now call.now.arguments.now }
{
    if !are_shapes(source, target) {
        return false;
    }
    let (before, count) = (count_of(source), count_of(target));
    if call.picks.len() != count {
        return false;
    }
    if call.arrays.len() != target.arrays.items().len() {
        return false;
    }
    if !are_picks(before, call.picks) {
        return false;
    }
    if !are_picks(source.arrays.items().len(), call.arrays) {
        return false;
    }
    are_arguments(before, count, call.arguments)
}

// whether the result stands among so many variables, and goes to one of so many
fn is_result(targets: usize, sources: usize, result_of: Option<Returned>) -> bool
    ensures { result ≡ true → IsResult targets sources result_of }
{
    match result_of {
        None => true,
        Some(it) => {
            if it.target as usize >= targets {
                return false;
            }
            (it.at_exit as usize) < sources
        }
    }
}

pub(crate) fn leave_fits(call: &Shape, source: &Shape, target: &Shape, it: &Return) -> bool
    ensures { result ≡ true → LeaveFits source.now target.now call.now it.now.from_call.now it.now.from_exit.now it.now.arrays.now it.now.result }
{
    if !are_shapes(source, target) {
        return false;
    }
    if !is_shape(call) {
        return false;
    }
    if !is_numbered(call) {
        return false;
    }
    let count = count_of(target);
    if it.from_call.len() != count {
        return false;
    }
    if it.from_exit.len() != count {
        return false;
    }
    if it.arrays.len() != target.arrays.items().len() {
        return false;
    }
    if !are_picks(count_of(call), it.from_call) {
        return false;
    }
    if !are_picks(count_of(source), it.from_exit) {
        return false;
    }
    if !are_picks(source.arrays.items().len(), it.arrays) {
        return false;
    }
    is_result(count, count_of(source), it.result)
}
