// The run of a list of frames, up to the first that does not end.
ghost use Rattle.std.specs.Prelude.{◌≡◌, [], ◌∷◌, if◌then◌else◌, IfOk};
ghost use Rattle.wm_interp.specs.Projected.{Stands};
ghost use Rattle.wm_interp.specs.Standing.{code_in, stand_of, weights_in};
ghost use Rattle.wm_program.specs.Code.{code_of};
ghost use Rattle.wm_program.specs.Runs.{results_from, run_of, started};
ghost use Rattle.wm_replay.specs.Replay.{frames_given, frames_of, is_ended, numbers_of, up_to_halt};
ghost use Rattle.wm_weights.specs.Table.{weight_of};

use std::alloc::Global;
use wm_interp::Machine;
use wm_ops::NoMemory;
use wm_program::{End, FrameResult, Inputs, Program};
use wm_weights::Weights;

/// What came of the start, and of each frame that was run.
#[derive(Drop)]
pub struct Results {
    pub start: FrameResult,
    pub frames: Vec<FrameResult>,
}

fn is_ended(end: End) -> bool
    ensures { result ≡ is_ended end }
{
    match end {
        End::Ended => true,
        End::Stopped { .. } => false,
        End::StepLimit => false,
    }
}

/// Runs these frames on a machine that was started, up to the first that does not end.
fn run_frames(
    alloc: Global,
    machine: &mut Machine<'_>,
    frames: &[Inputs],
    steps: u64,
) -> Result<Vec<FrameResult>, NoMemory>
    requires { Stands (weights_in machine.old) (started (code_in machine.old) [] steps) (stand_of machine.old) }
    ensures { IfOk result (λ found. found.items ≡ up_to_halt (results_from (code_in machine.old) (weights_in machine.old) (started (code_in machine.old) [] steps) (frames_given steps frames.now))) }
{
    let mut found = Vec::new(alloc);
    for inputs in frames {
        let result = machine.run_frame(inputs, steps)?;
        let goes_on = is_ended(result.end);
        found.push(result)?;
        if !goes_on {
            return Ok(found);
        }
    }
    Ok(found)
}

/// The frames behind a start that came to this end.
fn frames_behind(
    alloc: Global,
    machine: &mut Machine<'_>,
    end: End,
    frames: &[Inputs],
    steps: u64,
) -> Result<Vec<FrameResult>, NoMemory>
    requires { Stands (weights_in machine.old) (started (code_in machine.old) [] steps) (stand_of machine.old) }
    ensures { IfOk result (λ found. found.items ≡ (if is_ended end then up_to_halt (results_from (code_in machine.old) (weights_in machine.old) (started (code_in machine.old) [] steps) (frames_given steps frames.now)) else [])) }
{
    if is_ended(end) {
        return run_frames(alloc, machine, frames, steps);
    }
    Ok(Vec::new(alloc))
}

/// Runs a program behind its static values, with an empty fill list: init, where there is one, and then each frame, up to the
/// first of them that stops or comes to the limit of its elementary steps, that one included. Init and each frame may make
/// `steps` of these. `NoMemory`: memory ran out.
pub fn replay(
    alloc: Global,
    program: &Program,
    weights: &Weights,
    frames: &[Inputs],
    steps: u64,
) -> Result<Results, NoMemory>
    ensures results { IfOk result (λ shown. shown.start ∷ shown.frames.items ≡ up_to_halt (run_of (code_of program.now) (weight_of weights.now) [] steps (frames_of steps (numbers_of frames.now)))) }
{
    let mut machine = Machine::new(alloc, program, weights)?;
    let start = machine.start(Vec::new(alloc), steps)?;
    let found = frames_behind(alloc, &mut machine, start.end, frames, steps)?;
    Ok(Results {
        start,
        frames: found,
    })
}
