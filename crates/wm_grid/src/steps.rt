// The different steps of a program's loops.
ghost use Rattle.std.specs.Prelude.{◌≡◌, [], IfOk, OnOk};
ghost use Rattle.wm_grid.specs.Steps.{with_step, steps_from};

use std::alloc::{AllocError, Global};
use wm_program::LoopInfo;

/// Puts a step at the end where it is not there yet.
fn push_step(steps: &mut Vec<u32>, step: u32) -> Result<(), AllocError>
    ensures { OnOk result (steps.new.items ≡ with_step steps.old.items step) }
{
    if steps.contains(&step) {
        return Ok(());
    }
    steps.push(step)?;
    Ok(())
}

/// The steps of the loops, each once.
pub fn steps_of(alloc: Global, loops: &[LoopInfo]) -> Result<Vec<u32>, AllocError>
    ensures { IfOk result (λ steps. steps.items ≡ steps_from [] loops.now) }
{
    let mut steps = Vec::new(alloc);
    for info in loops {
        push_step(&mut steps, info.step)?;
    }
    Ok(steps)
}
