// The objects of a program, with those marked that are inputs.
ghost use Rattle.std.specs.Prelude.{◌≡◌, is_some, map, IfOk};
ghost use Rattle.wm_inputs.specs.Ranges.{range_named, marked_object, marked_objects};

use crate::ranges::range_named;
use std::alloc::Global;
use wm_lang::Name;
use wm_ops::{List, NoMemory};
use wm_program::{ObjectInfo, RangeOf};

fn copied_numbers(alloc: Global, numbers: &[i64]) -> Result<List<i64>, NoMemory>
    ensures { IfOk result (λ copy. copy ≡ numbers.now) }
{
    let mut copy = List::new(alloc);
    for number in numbers {
        copy.push(*number)?;
    }
    Ok(copy)
}

/// An object, which is an input where it has a range.
fn marked_object(
    alloc: Global,
    object: &ObjectInfo,
    ranges: &[RangeOf],
) -> Result<ObjectInfo, NoMemory>
    ensures { IfOk result (λ marked. marked ≡ marked_object ranges.now object.now) }
{
    let name = Name::new(alloc, object.name.bytes())?;
    let initial = copied_numbers(alloc, object.initial.items())?;
    let input = range_named(ranges, object.name.bytes()).is_some();
    Ok(ObjectInfo {
        name,
        width: object.width,
        length: object.length,
        scalar: object.scalar,
        constant: object.constant,
        addressed: object.addressed,
        initial,
        input,
    })
}

/// The objects, of which those that have a range are inputs.
#[tactic(auto, unfolding(crate::specs::Ranges::marked_objects))]
pub fn marked_objects(
    alloc: Global,
    objects: &[ObjectInfo],
    ranges: &[RangeOf],
) -> Result<List<ObjectInfo>, NoMemory>
    ensures marked { IfOk result (λ marked. marked ≡ marked_objects ranges.now objects.now) }
{
    let mut marked = List::new(alloc);
    for object in objects {
        let one = marked_object(alloc, object, ranges)?;
        marked.push(one)?;
    }
    Ok(marked)
}
