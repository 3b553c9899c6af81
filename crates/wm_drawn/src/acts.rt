// Whether actions fit the shapes of their nodes, where a state is carried from the one to the other.
ghost use Rattle.std.specs.Prelude.{◌≡◌, true, All, Some};
ghost use Rattle.wm_domain.specs.Forms.{IsForm};
ghost use Rattle.wm_domain.specs.States.{count_of, array_count, IsShape};
ghost use Rattle.wm_carry.specs.Following.{IsWay, origin};
ghost use Rattle.wm_drawn.specs.Fitting.{FormFits, PlainFits, CastFits, RangeFits, OperateFits, VariablesFit, CellsFit, ReadFits, WriteFits, KeepFits, TestFits, TurnFits, TieFits, InputsFit};

use crate::counters::are_counters;
use crate::forms::{are_seen, is_apart, is_form, is_sized};
use crate::lists::{are_below, targets_below};
use crate::ways::is_way;
use wm_carry::{Way, origin};
use wm_domain::{Form, Shape};
use wm_flow::{Given, Growth};
use wm_interval::Interval;

/// How many variables a shape has.
pub(crate) fn count_of(shape: &Shape) -> usize
    requires shape { IsShape shape.now }
    ensures { result ≡ count_of shape.now }
{
    shape.group.items().len() + shape.singles.items().len()
}

pub(crate) fn form_fits(way: &Way, v: u32, f: &Form) -> bool
    ensures { result ≡ true → FormFits way.now.source.now way.now.target.now v f.now }
{
    if !is_way(way.source, way.target) {
        return false;
    }
    let count = count_of(way.target);
    if v as usize >= count {
        return false;
    }
    if !is_form(count_of(way.source), f) {
        return false;
    }
    are_seen(way, count, v, f.terms.items())
}

pub(crate) fn plain_fits(way: &Way, args: &[Form; 2], v: u32) -> bool
    ensures { result ≡ true → PlainFits way.now.source.now way.now.target.now args.now v }
{
    if !is_way(way.source, way.target) {
        return false;
    }
    if v as usize >= count_of(way.target) {
        return false;
    }
    let count = count_of(way.source);
    if !is_form(count, &args[0]) {
        return false;
    }
    is_form(count, &args[1])
}

pub(crate) fn cast_fits(way: &Way, f: &Form, v: u32) -> bool
    ensures { result ≡ true → CastFits way.now.source.now way.now.target.now f.now v }
{
    if !is_way(way.source, way.target) {
        return false;
    }
    if v as usize >= count_of(way.target) {
        return false;
    }
    is_form(count_of(way.source), f)
}

pub(crate) fn range_fits(way: &Way, v: u32, r: Interval) -> bool
    ensures { result ≡ true → RangeFits way.now.source.now way.now.target.now v r }
{
    if !is_way(way.source, way.target) {
        return false;
    }
    if v as usize >= count_of(way.target) {
        return false;
    }
    is_sized(r)
}

// whether the arguments are forms over so many variables
fn are_forms(count: usize, args: &[Form]) -> bool
    ensures { result ≡ true → All (IsForm count) args.now }
{
    match args.split_first() {
        None => true,
        Some((f, rest)) => {
            if is_form(count, f) {
                return are_forms(count, rest);
            }
            false
        }
    }
}

// whether the variable stands at one place in both nodes
fn stands(way: &Way, v: u32) -> bool
    requires way { IsWay way.now.source.now way.now.target.now }
    ensures { result ≡ true → origin way.now.source.now way.now.target.now v ≡ Some v }
{
    match origin(way, v as usize) {
        None => false,
        Some(from) => from == v,
    }
}

pub(crate) fn operate_fits(way: &Way, args: &[Form; 3], v: u32, overflow: u32) -> bool
    ensures { result ≡ true → OperateFits way.now.source.now way.now.target.now args.now v overflow }
{
    if !is_way(way.source, way.target) {
        return false;
    }
    let count = count_of(way.target);
    if v as usize >= count {
        return false;
    }
    if overflow as usize >= count {
        return false;
    }
    if v == overflow {
        return false;
    }
    if !stands(way, overflow) {
        return false;
    }
    if !are_forms(count_of(way.source), args) {
        return false;
    }
    are_seen(way, count, v, args[0].terms.items())
}

pub(crate) fn variables_fit(way: &Way, variables: &[u32]) -> bool
    ensures { result ≡ true → VariablesFit way.now.source.now way.now.target.now variables.now }
{
    if !is_way(way.source, way.target) {
        return false;
    }
    are_below(count_of(way.target), variables)
}

pub(crate) fn cells_fit(way: &Way, array: u32) -> bool
    ensures { result ≡ true → CellsFit way.now.source.now way.now.target.now array }
{
    if !is_way(way.source, way.target) {
        return false;
    }
    (array as usize) < way.target.arrays.items().len()
}

pub(crate) fn read_fits(way: &Way, array: u32, v: u32) -> bool
    ensures { result ≡ true → ReadFits way.now.source.now way.now.target.now array v }
{
    if !is_way(way.source, way.target) {
        return false;
    }
    if array as usize >= way.source.arrays.items().len() {
        return false;
    }
    (v as usize) < count_of(way.target)
}

pub(crate) fn write_fits(way: &Way, array: u32, value: &Form) -> bool
    ensures { result ≡ true → WriteFits way.now.source.now way.now.target.now array value.now }
{
    if !is_way(way.source, way.target) {
        return false;
    }
    if array as usize >= way.source.arrays.items().len() {
        return false;
    }
    if array as usize >= way.target.arrays.items().len() {
        return false;
    }
    is_form(count_of(way.source), value)
}

pub(crate) fn keep_fits(way: &Way, f: &Form) -> bool
    ensures { result ≡ true → KeepFits way.now.source.now way.now.target.now f.now }
{
    if !is_way(way.source, way.target) {
        return false;
    }
    is_form(count_of(way.source), f)
}

pub(crate) fn test_fits(way: &Way, f: &Form, low: i64, high: i64) -> bool
    ensures { result ≡ true → TestFits way.now.source.now way.now.target.now f.now low high }
{
    if !is_way(way.source, way.target) {
        return false;
    }
    if !is_form(count_of(way.source), f) {
        return false;
    }
    if !is_apart(low, f.constant) {
        return false;
    }
    is_apart(f.constant, high)
}

pub(crate) fn turn_fits(way: &Way, growths: &[Growth]) -> bool
    ensures { result ≡ true → TurnFits way.now.source.now way.now.target.now growths.now }
{
    if !is_way(way.source, way.target) {
        return false;
    }
    are_counters(way, count_of(way.target), growths)
}

pub(crate) fn tie_fits(way: &Way, counter: u32, loop_step: u32, v: u32) -> bool
    ensures { result ≡ true → TieFits way.now.source.now way.now.target.now counter loop_step v }
{
    if !is_way(way.source, way.target) {
        return false;
    }
    let count = count_of(way.source);
    if counter as usize >= count {
        return false;
    }
    if v as usize >= count {
        return false;
    }
    loop_step >= 1
}

pub(crate) fn inputs_fit(way: &Way, scalars: &[Given], arrays: &[Given]) -> bool
    ensures { result ≡ true → InputsFit way.now.source.now way.now.target.now scalars.now arrays.now }
{
    if !is_way(way.source, way.target) {
        return false;
    }
    if !targets_below(count_of(way.target), scalars) {
        return false;
    }
    targets_below(way.target.arrays.items().len(), arrays)
}
