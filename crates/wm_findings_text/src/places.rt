// Where something stands in a report: a place in a source, and the calls that lead to an instance.
ghost use Rattle.std.specs.Prelude.{◌≡◌, ◌++◌, slice_get, OnOk};
ghost use Rattle.wm_findings_text.specs.Places.{name_in, place_text, call_text, caller_in, call_in, calls_to, root_from, root_of, root_word, via, instance_text};

use std::alloc::AllocError;
use wm_digits::push_number;
use wm_lang::{Name, Place};
use wm_program::{InstanceInfo, Program};

/// The name of the source of this number.
fn name_in(names: &[Name], file: u32) -> &[u8]
    ensures { result.now ≡ name_in (slice_get names.now file) }
{
    match names.get(file as usize) {
        Some(name) => name.bytes(),
        None => b"",
    }
}

/// FILE:LINE:COLUMN
#[tactic(auto, unfolding(crate::specs::Places::place_text))]
pub fn push_place(text: &mut Vec<u8>, names: &[Name], place: Place) -> Result<(), AllocError>
    ensures { OnOk result (text.new.items ≡ text.old.items ++ place_text names.now place) }
{
    text.extend_from_slice(name_in(names, place.file))?;
    text.extend_from_slice(b":")?;
    push_number(text, u64::from(place.line))?;
    text.extend_from_slice(b":")?;
    push_number(text, u64::from(place.column))
}

/// A space and the place of a call; nothing for an instance at a root.
fn push_call(text: &mut Vec<u8>, names: &[Name], call: Option<Place>) -> Result<(), AllocError>
    ensures { OnOk result (text.new.items ≡ text.old.items ++ call_text names.now call) }
{
    match call {
        None => Ok(()),
        Some(place) => {
            text.extend_from_slice(b" ")?;
            push_place(text, names, place)
        }
    }
}

/// The instance that calls this one.
fn caller_in(instances: &[InstanceInfo], instance: u32) -> Option<u32>
    ensures { result ≡ caller_in (slice_get instances.now instance) }
{
    match instances.get(instance as usize) {
        None => None,
        Some(it) => it.caller,
    }
}

fn call_in(instances: &[InstanceInfo], instance: u32) -> Option<Place>
    ensures { result ≡ call_in (slice_get instances.now instance) }
{
    match instances.get(instance as usize) {
        None => None,
        Some(it) => it.call,
    }
}

/// The calls that lead to an instance, from its root inwards.
#[tactic(auto, unfolding(crate::specs::Places::calls_to))]
fn push_calls(
    text: &mut Vec<u8>,
    names: &[Name],
    instances: &[InstanceInfo],
    levels: usize,
    instance: Option<u32>,
) -> Result<(), AllocError>
    ensures { OnOk result (text.new.items ≡ text.old.items ++ calls_to names.now instances.now levels instance) }
{
    let Some(instance) = instance else {
        return Ok(());
    };
    if levels == 0 {
        return Ok(());
    }
    let caller = caller_in(instances, instance);
    push_calls(text, names, instances, levels - 1, caller)?;
    push_call(text, names, call_in(instances, instance))?;
    Ok(())
}

/// The outermost of the instances that call this one.
#[tactic(auto, unfolding(crate::specs::Places::root_from))]
fn root_from(instances: &[InstanceInfo], levels: usize, instance: u32, caller: Option<u32>) -> u32
    ensures { result ≡ root_from instances.now levels instance caller }
{
    let Some(caller) = caller else {
        return instance;
    };
    if levels == 0 {
        return instance;
    }
    let above = caller_in(instances, caller);
    root_from(instances, levels - 1, caller, above)
}

/// The root of an instance.
fn root_of(instances: &[InstanceInfo], instance: u32) -> u32
    ensures { result ≡ root_of instances.now instance }
{
    root_from(
        instances,
        instances.len(),
        instance,
        caller_in(instances, instance),
    )
}

/// Whether the root is that of init or that of the frames.
fn root_word(init: Option<u32>, root: u32) -> &'static [u8]
    ensures { result.now ≡ root_word init root }
{
    match init {
        None => b"frame",
        Some(init) => { if root == init { b"init" } else { b"frame" } }
    }
}

fn push_via(
    text: &mut Vec<u8>,
    names: &[Name],
    instances: &[InstanceInfo],
    instance: u32,
    caller: Option<u32>,
) -> Result<(), AllocError>
    ensures { OnOk result (text.new.items ≡ text.old.items ++ via names.now instances.now instance caller) }
{
    match caller {
        None => Ok(()),
        Some(_) => {
            text.extend_from_slice(b" via")?;
            push_calls(text, names, instances, instances.len(), Some(instance))
        }
    }
}

/// ` in ROOT` and, where the instance is no root, ` via` and the calls that lead to it.
#[tactic(auto, unfolding(crate::specs::Places::instance_text))]
pub fn push_instance(
    text: &mut Vec<u8>,
    names: &[Name],
    program: &Program,
    instance: u32,
) -> Result<(), AllocError>
    ensures { OnOk result (text.new.items ≡ text.old.items ++ instance_text names.now program.now.instances program.now.init instance) }
{
    let instances = program.instances.items();
    text.extend_from_slice(b" in ")?;
    text.extend_from_slice(root_word(program.init, root_of(instances, instance)))?;
    push_via(
        text,
        names,
        instances,
        instance,
        caller_in(instances, instance),
    )
}
