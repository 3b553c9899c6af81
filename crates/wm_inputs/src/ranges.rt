// The inputs: objects that have a range.
ghost use Rattle.std.specs.Prelude.{◌≡◌, pos, max, length, OnOk, IfOk};
ghost use Rattle.std.specs.Option.{option_copied};
ghost use Rattle.wm_inputs.specs.Called.{call_input};
ghost use Rattle.wm_inputs.specs.Ranges.{is_unfit, lies_in, bounds, object_of, range_named, is_bad, bad_range, with_input, packed_from, declared_from, inputs_of};

use crate::named::is_named;
use std::alloc::Global;
use wm_interval::Interval;
use wm_lang::Name;
use wm_ops::{List, NoMemory, Width};
use wm_program::{InputInfo, ObjectInfo, RangeOf, Spec};

/// Whether both ends of a range lie in a type.
fn lies_in(range: Interval, width: Width) -> bool
    ensures { result ≡ lies_in range width }
{
    match width {
        Width::W16 => bounds(range, -32768, 32767),
        Width::W32 => bounds(range, -2147483648, 2147483647),
    }
}

fn bounds(range: Interval, least: i64, greatest: i64) -> bool
    ensures { result ≡ bounds range least greatest }
{
    if range.low < least {
        return false;
    }
    if greatest < range.low {
        return false;
    }
    if range.high < least {
        return false;
    }
    range.high <= greatest
}

/// The number of the object of this name.
#[tactic(auto, unfolding(crate::specs::Ranges::object_of))]
fn object_of(objects: &[ObjectInfo], word: &[u8]) -> Option<usize>
    ensures { result ≡ object_of objects.now word.now }
{
    for (k, object) in objects.iter().enumerate() {
        if is_named(&object.name, word) {
            return Some(k);
        }
    }
    None
}

/// The range of this name.
pub(crate) fn range_named(ranges: &[RangeOf], word: &[u8]) -> Option<Interval>
    ensures { result ≡ range_named ranges.now word.now }
{
    for range in ranges {
        if is_named(&range.name, word) {
            return Some(range.range);
        }
    }
    None
}

fn is_unfit(object: &ObjectInfo, range: Interval) -> bool
    ensures { result ≡ is_unfit object.now range }
{
    if object.constant {
        return true;
    }
    !lies_in(range, object.width)
}

/// Whether a range names no object that may change, or does not lie in its type.
fn is_bad(objects: &[ObjectInfo], range: &RangeOf) -> bool
    ensures { result ≡ is_bad objects.now range.now }
{
    for object in objects {
        if is_named(&object.name, range.name.bytes()) {
            return is_unfit(object, range.range);
        }
    }
    true
}

/// The name of the first range that names no object which may change, or does not lie in the object's type.
pub fn bad_range<'a>(objects: &[ObjectInfo], ranges: &'a [RangeOf]) -> Option<&'a Name>
    ensures bad { option_copied result ≡ bad_range objects.now ranges.now }
{
    for range in ranges {
        if is_bad(objects, range) {
            return Some(&range.name);
        }
    }
    None
}

/// Puts an input at the end, where there are an object and a range. A number past 32 bits counts as want of memory.
fn push_input(
    inputs: &mut List<InputInfo>,
    object: Option<usize>,
    range: Option<Interval>,
) -> Result<(), NoMemory>
    ensures { OnOk result (inputs.new ≡ with_input object range inputs.old) }
{
    match object {
        None => Ok(()),
        Some(object) => match range {
            None => Ok(()),
            Some(range) => match u32::try_from(object) {
                Ok(object) => inputs.push(InputInfo { object, range }),
                Err(_) => Err(NoMemory),
            },
        },
    }
}

/// Puts the inputs of these names at the end, in their order.
fn push_packed(
    inputs: &mut List<InputInfo>,
    objects: &[ObjectInfo],
    ranges: &[RangeOf],
    pack: &[Name],
) -> Result<(), NoMemory>
    ensures { OnOk result (inputs.new ≡ packed_from objects.now ranges.now pack.now inputs.old) }
{
    for name in pack {
        push_input(
            inputs,
            object_of(objects, name.bytes()),
            range_named(ranges, name.bytes()),
        )?;
    }
    Ok(())
}

/// Puts the objects that have a range at the end, in the order of declaration.
fn push_declared(
    inputs: &mut List<InputInfo>,
    objects: &[ObjectInfo],
    ranges: &[RangeOf],
) -> Result<(), NoMemory>
    ensures { OnOk result (inputs.new ≡ declared_from 0 ranges.now objects.now inputs.old) }
{
    for (k, object) in objects.iter().enumerate() {
        push_input(inputs, Some(k), range_named(ranges, object.name.bytes()))?;
    }
    Ok(())
}

/// Puts the inputs at the end: in the order of `pack`, or without it in the order of declaration.
pub fn inputs(
    inputs: &mut List<InputInfo>,
    objects: &[ObjectInfo],
    spec: &Spec,
) -> Result<(), NoMemory>
    ensures inputs { OnOk result (inputs.new ≡ inputs_of objects.now spec.now.ranges spec.now.pack inputs.old) }
{
    match &spec.pack {
        Some(names) => push_packed(inputs, objects, spec.ranges.items(), names.items()),
        None => push_declared(inputs, objects, spec.ranges.items()),
    }
}

/// The numbers from 1 to the count, which is at least 1.
fn numbers_to(count: u32) -> Interval
    ensures low { result.low ≡ pos 1 }
    ensures high { result.high ≡ pos (max count 1) }
{
    Interval::new(1, i64::from(count.max(1)))
}

fn count_of(frames: &[u32]) -> Result<u32, NoMemory>
    ensures { IfOk result (λ count. count ≡ length frames.now) }
{
    match u32::try_from(frames.len()) {
        Ok(count) => Ok(count),
        Err(_) => Err(NoMemory),
    }
}

/// The input `call`, by the number of its object: its numbers are those of the frame functions, from 1. A number past 32
/// bits counts as want of memory.
pub fn call_input(object: u32, frames: &[u32]) -> Result<InputInfo, NoMemory>
    ensures call { IfOk result (λ input. input ≡ call_input object frames.now) }
{
    let count = count_of(frames)?;
    let range = numbers_to(count);
    Ok(InputInfo { object, range })
}
