// From a unit and its specification to the program.
ghost use Rattle.std.specs.Prelude.{◌≡◌, [], ◌∷◌, IfOk};
ghost use Rattle.wm_assemble.specs.Answers.{Answers};
ghost use Rattle.wm_link.specs.Linked.{linked};

use std::alloc::Global;
use wm_assemble::{finish, start};
use wm_lang::Unit;
use wm_program::{LinkFault, Program, Spec};
use wm_reading::read_unit;

/// The program of a unit and a specification, or the first of their faults: the fault at the least token, at one token the
/// first in the order of `LinkFault`; then NoFrame, NoInit, BadInput, and TooMany of instances, heads, size, constants and
/// steps. The unit is given up on a refusal. Want of memory is NoMemory, as is a number that does not fit 32 bits.
#[tactic(auto, using(crate::proofs::Following::refused))]
pub fn link(alloc: Global, unit: Unit, spec: &Spec) -> Result<Program, LinkFault>
    ensures linked { Answers result (linked unit spec.now) }
{
    let first = read_unit(alloc, &unit, &[])?;
    let started = start(alloc, &unit, spec, first)?;
    let second = read_unit(alloc, &unit, started.offsets.items())?;
    let program = finish(alloc, spec, started, second)?;
    Ok(program)
}
