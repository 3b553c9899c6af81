// The verdict of what is known of a site.
ghost use Rattle.std.specs.Prelude.{◌≡◌, ◌≤◌, ◌++◌, IfOk, take, length};
ghost use Rattle.wm_tally.specs.Verdicts.{places, unproved, verdict_of};

use crate::entry::{Entry, Standing};
use crate::seen::Failure;
use std::alloc::Global;
use wm_findings::Verdict;
use wm_interval::Interval;
use wm_ops::{List, NoMemory};

/// The numbers in a list.
fn value_list(alloc: Global, values: &[i64]) -> Result<List<i64>, NoMemory>
    ensures { IfOk result (λ list. list ≡ values.now) }
{
    let mut list = List::new(alloc);
    for value in values {
        list.push(*value)?;
    }
    Ok(list)
}

/// The boxes in a list.
fn box_list(alloc: Global, boxes: &[Interval]) -> Result<List<Interval>, NoMemory>
    ensures { IfOk result (λ list. list ≡ boxes.now) }
{
    let mut list = List::new(alloc);
    for range in boxes {
        list.push(*range)?;
    }
    Ok(list)
}

/// How many of three places the operands take.
fn places(failure: Failure) -> usize
    ensures count { result ≡ places failure }
    ensures few { result ≤ 3 }
{
    if failure.operands < 3 {
        return failure.operands as usize;
    }
    3
}

fn unproved(alloc: Global, failure: Failure, instance: u32) -> Result<Verdict, NoMemory>
    ensures { IfOk result (λ verdict. verdict ≡ unproved failure instance) }
{
    let count = places(failure);
    let boxes = box_list(alloc, &failure.boxes[..count])?;
    let values = value_list(alloc, &failure.values[..count])?;
    Ok(Verdict::Unproved {
        boxes,
        values,
        instance,
    })
}

/// The verdict of what is known of a site when all has been seen.
pub fn verdict_of(alloc: Global, entry: Entry) -> Result<Verdict, NoMemory>
    ensures verdict { IfOk result (λ verdict. verdict ≡ verdict_of entry) }
{
    match entry.standing {
        Standing::Never => Ok(Verdict::Never),
        Standing::Safe => Ok(Verdict::Safe { unset: entry.unset }),
        Standing::Unproved { failure, instance } => unproved(alloc, failure, instance),
    }
}
