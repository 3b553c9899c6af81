// The full ranges of the objects of static storage, by kind.
ghost use Rattle.std.specs.Prelude.{◌≡◌, IfOk, OnOk, ◌++◌};
ghost use Rattle.wm_flow.specs.Layouts as layouts;
ghost use Rattle.wm_flow.specs.Seats as seats;
ghost use Rattle.wm_layouts.specs.Ranges.{ranges_of};

use crate::ranges::{push_range, width_range};
use std::alloc::Global;
use wm_interval::Interval;
use wm_ops::{List, NoMemory};
use wm_program::ObjectInfo;

fn is_stored(object: &ObjectInfo) -> bool
    ensures { result ≡ seats.is_stored object.now }
{
    if object.scalar {
        return object.addressed;
    }
    true
}

fn is_state(object: &ObjectInfo) -> bool
    ensures { result ≡ layouts.is_state object.now }
{
    if object.constant {
        return false;
    }
    if is_stored(object) {
        return false;
    }
    !object.input
}

fn is_input(object: &ObjectInfo) -> bool
    ensures { result ≡ layouts.is_input object.now }
{
    if object.constant {
        return false;
    }
    if is_stored(object) {
        return false;
    }
    object.input
}

fn is_static_array(object: &ObjectInfo) -> bool
    ensures { result ≡ layouts.is_static_array object.now }
{
    if object.constant {
        return false;
    }
    is_stored(object)
}

/// The state scalars.
pub(crate) fn states(alloc: Global, objects: &[ObjectInfo]) -> Result<List<Interval>, NoMemory>
    ensures { IfOk result (λ list. ranges_of list ≡ layouts.ranges_where layouts.is_state objects.now) }
{
    let mut list = List::new(alloc);
    for object in objects {
        if is_state(object) {
            push_range(&mut list, width_range(object.width))?;
        }
    }
    Ok(list)
}

/// The input scalars, behind others.
pub(crate) fn push_inputs(list: &mut List<Interval>, objects: &[ObjectInfo]) -> Result<(), NoMemory>
    ensures { OnOk result (ranges_of list.new ≡ ranges_of list.old ++ layouts.ranges_where layouts.is_input objects.now) }
{
    for object in objects {
        if is_input(object) {
            push_range(list, width_range(object.width))?;
        }
    }
    Ok(())
}

/// The cells of the static arrays.
pub(crate) fn static_arrays(
    alloc: Global,
    objects: &[ObjectInfo],
) -> Result<List<Interval>, NoMemory>
    ensures { IfOk result (λ list. ranges_of list ≡ layouts.ranges_where layouts.is_static_array objects.now) }
{
    let mut list = List::new(alloc);
    for object in objects {
        if is_static_array(object) {
            push_range(&mut list, width_range(object.width))?;
        }
    }
    Ok(list)
}
