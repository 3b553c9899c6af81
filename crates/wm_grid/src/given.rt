// The numbers that a program gives: those of its text, the ranges of its inputs, the lengths of its arrays, and what its
// objects begin with.
ghost use Rattle.std.specs.Prelude.{◌≡◌, ◌++◌, OnOk, ℕ, ℤ};
ghost use Rattle.std.specs.Int.{int_max, int_min};
ghost use Rattle.wm_grid.specs.Given.{near_each, near_range, near_ranges, first_number, least_from, greatest_from, near_length, least_number, greatest_number, near_ends, near_initial, near_objects, near_array, near_locals, near_functions};

use crate::beside::push_near;
use std::alloc::AllocError;
use wm_program::{FunctionInfo, InputInfo, LocalInfo, ObjectInfo};

pub fn push_numbers(numbers: &mut Vec<i64>, steps: &[u32], given: &[i64]) -> Result<(), AllocError>
    ensures { OnOk result (numbers.new.items ≡ numbers.old.items ++ near_each steps.now given.now) }
{
    for number in given {
        push_near(numbers, steps, *number)?;
    }
    Ok(())
}

/// Both ends of the range of an input.
#[tactic(auto, unfolding(crate::specs::Given::near_range))]
fn push_range(numbers: &mut Vec<i64>, steps: &[u32], input: &InputInfo) -> Result<(), AllocError>
    ensures { OnOk result (numbers.new.items ≡ numbers.old.items ++ near_range steps.now input.now) }
{
    push_near(numbers, steps, input.range.low)?;
    push_near(numbers, steps, input.range.high)
}

pub fn push_ranges(
    numbers: &mut Vec<i64>,
    steps: &[u32],
    inputs: &[InputInfo],
) -> Result<(), AllocError>
    ensures { OnOk result (numbers.new.items ≡ numbers.old.items ++ near_ranges steps.now inputs.now) }
{
    for input in inputs {
        push_range(numbers, steps, input)?;
    }
    Ok(())
}

/// A number that the object begins with: 0 where it has more cells than initial numbers, else the first of these.
fn first_number(object: &ObjectInfo) -> i64
    ensures { result ≡ first_number object.now }
{
    let initial = object.initial.items();
    if (initial.len() as u64) < u64::from(object.length) {
        return 0;
    }
    match initial.first() {
        Some(number) => *number,
        None => 0,
    }
}

fn least_from(first: i64, numbers: &[i64]) -> i64
    ensures { result ≡ least_from first numbers.now }
{
    let mut least = first;
    for number in numbers {
        if *number < least {
            least = *number;
        }
    }
    least
}

fn greatest_from(first: i64, numbers: &[i64]) -> i64
    ensures { result ≡ greatest_from first numbers.now }
{
    let mut greatest = first;
    for number in numbers {
        if *number > greatest {
            greatest = *number;
        }
    }
    greatest
}

/// The length of an array; a scalar has none.
fn push_length(numbers: &mut Vec<i64>, steps: &[u32], object: &ObjectInfo) -> Result<(), AllocError>
    ensures { OnOk result (numbers.new.items ≡ numbers.old.items ++ near_length steps.now object.now) }
{
    if object.scalar {
        return Ok(());
    }
    push_near(numbers, steps, i64::from(object.length))
}

#[tactic(auto, unfolding(crate::specs::Given::least_number))]
fn least_number(object: &ObjectInfo) -> i64
    ensures { result ≡ least_number object.now }
{
    least_from(first_number(object), object.initial.items())
}

#[tactic(auto, unfolding(crate::specs::Given::greatest_number))]
fn greatest_number(object: &ObjectInfo) -> i64
    ensures { result ≡ greatest_number object.now }
{
    greatest_from(first_number(object), object.initial.items())
}

/// The least and the greatest number that an object begins with.
#[tactic(auto, unfolding(crate::specs::Given::near_ends))]
fn push_ends(numbers: &mut Vec<i64>, steps: &[u32], object: &ObjectInfo) -> Result<(), AllocError>
    ensures { OnOk result (numbers.new.items ≡ numbers.old.items ++ near_ends steps.now object.now) }
{
    push_near(numbers, steps, least_number(object))?;
    push_near(numbers, steps, greatest_number(object))
}

/// The same of an object that may change.
fn push_initial(
    numbers: &mut Vec<i64>,
    steps: &[u32],
    object: &ObjectInfo,
) -> Result<(), AllocError>
    ensures { OnOk result (numbers.new.items ≡ numbers.old.items ++ near_initial steps.now object.now) }
{
    if object.constant {
        return Ok(());
    }
    push_ends(numbers, steps, object)
}

pub fn push_objects(
    numbers: &mut Vec<i64>,
    steps: &[u32],
    objects: &[ObjectInfo],
) -> Result<(), AllocError>
    ensures { OnOk result (numbers.new.items ≡ numbers.old.items ++ near_objects steps.now objects.now) }
{
    for object in objects {
        push_length(numbers, steps, object)?;
        push_initial(numbers, steps, object)?;
    }
    Ok(())
}

fn push_array(numbers: &mut Vec<i64>, steps: &[u32], array: Option<u32>) -> Result<(), AllocError>
    ensures { OnOk result (numbers.new.items ≡ numbers.old.items ++ near_array steps.now array) }
{
    match array {
        None => Ok(()),
        Some(length) => push_near(numbers, steps, i64::from(length)),
    }
}

fn push_locals(
    numbers: &mut Vec<i64>,
    steps: &[u32],
    locals: &[LocalInfo],
) -> Result<(), AllocError>
    ensures { OnOk result (numbers.new.items ≡ numbers.old.items ++ near_locals steps.now locals.now) }
{
    for local in locals {
        push_array(numbers, steps, local.array)?;
    }
    Ok(())
}

pub fn push_functions(
    numbers: &mut Vec<i64>,
    steps: &[u32],
    functions: &[FunctionInfo],
) -> Result<(), AllocError>
    ensures { OnOk result (numbers.new.items ≡ numbers.old.items ++ near_functions steps.now functions.now) }
{
    for function in functions {
        push_locals(numbers, steps, function.locals.items())?;
    }
    Ok(())
}
