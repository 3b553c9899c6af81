// The faults before any instance is made: the least at a token, and those of the specification.
ghost use Rattle.std.specs.Prelude.{◌≡◌, IfOk};
ghost use Rattle.std.specs.Option.{option_copied};
ghost use Rattle.wm_assemble.specs.Faults.{is_earlier, token_fault, frame_fault, init_fault, range_fault, spec_fault, limit_fault};

use std::alloc::Global;
use wm_inputs::{bad_range, entry, missing_entry};
use wm_lang::{Name, Position};
use wm_ops::NoMemory;
use wm_program::{FunctionInfo, LinkFault, ObjectInfo, Spec, What};
use wm_scope::Found;

/// Whether a fault comes before a call in a circle at this token.
fn is_earlier(found: Found, token: usize) -> bool
    ensures { result ≡ is_earlier found token }
{
    if found.token == token {
        return found.fault.rank() < 9;
    }
    found.token < token
}

/// The first of the least fault of the names and the first call in a circle.
pub(crate) fn token_fault(least: Option<Found>, circle: Option<Position>) -> Option<LinkFault>
    ensures { result ≡ token_fault least circle }
{
    match least {
        None => match circle {
            None => None,
            Some(at) => Some(LinkFault::Recursion { token: at.token }),
        },
        Some(found) => match circle {
            None => Some(found.fault.at(found.token)),
            Some(at) => {
                if is_earlier(found, at.token) {
                    return Some(found.fault.at(found.token));
                }
                Some(LinkFault::Recursion { token: at.token })
            }
        },
    }
}

fn copied(alloc: Global, name: &Name) -> Result<Name, NoMemory>
    ensures { IfOk result (λ copy. copy ≡ name.now) }
{
    Name::new(alloc, name.bytes())
}

fn frame_fault(
    alloc: Global,
    functions: &[FunctionInfo],
    spec: &Spec,
) -> Result<Option<LinkFault>, NoMemory>
    ensures { IfOk result (λ fault. fault ≡ frame_fault functions.now spec.now) }
{
    match missing_entry(functions, spec.frames.items()) {
        None => Ok(None),
        Some(name) => {
            let name = copied(alloc, name)?;
            Ok(Some(LinkFault::NoFrame { name }))
        }
    }
}

fn init_fault(
    alloc: Global,
    functions: &[FunctionInfo],
    spec: &Spec,
) -> Result<Option<LinkFault>, NoMemory>
    ensures { IfOk result (λ fault. fault ≡ init_fault functions.now spec.now.init) }
{
    match &spec.init {
        None => Ok(None),
        Some(name) => match entry(functions, name.bytes()) {
            Some(_) => Ok(None),
            None => {
                let name = copied(alloc, name)?;
                Ok(Some(LinkFault::NoInit { name }))
            }
        },
    }
}

fn range_fault(
    alloc: Global,
    objects: &[ObjectInfo],
    spec: &Spec,
) -> Result<Option<LinkFault>, NoMemory>
    ensures { IfOk result (λ fault. fault ≡ range_fault objects.now spec.now) }
{
    match bad_range(objects, spec.ranges.items()) {
        None => Ok(None),
        Some(name) => {
            let name = copied(alloc, name)?;
            Ok(Some(LinkFault::BadInput { name }))
        }
    }
}

/// The first fault of the specification: NoFrame, NoInit, BadInput.
pub(crate) fn spec_fault(
    alloc: Global,
    functions: &[FunctionInfo],
    objects: &[ObjectInfo],
    spec: &Spec,
) -> Result<Option<LinkFault>, NoMemory>
    ensures { IfOk result (λ fault. fault ≡ spec_fault functions.now objects.now spec.now) }
{
    let frame = frame_fault(alloc, functions, spec)?;
    if frame.is_some() {
        return Ok(frame);
    }
    let init = init_fault(alloc, functions, spec)?;
    if init.is_some() {
        return Ok(init);
    }
    range_fault(alloc, objects, spec)
}

/// The first limit that is passed, behind that of instances.
pub(crate) fn limit_fault(
    heads: u32,
    size: u32,
    has_constants: bool,
    exceeds_steps: bool,
) -> Option<LinkFault>
    ensures { result ≡ limit_fault heads size has_constants exceeds_steps }
{
    if 2048 < heads {
        return Some(LinkFault::TooMany { what: What::Heads });
    }
    if 100000 < size {
        return Some(LinkFault::TooMany { what: What::Size });
    }
    if !has_constants {
        return Some(LinkFault::TooMany {
            what: What::Constants,
        });
    }
    if exceeds_steps {
        return Some(LinkFault::TooMany { what: What::Steps });
    }
    None
}
