// Frames that are run, and what is seen of them.
ghost use Rattle.std.specs.Prelude.{◌≡◌, [], if◌then◌else◌, replicate, IfOk, OnOk};
ghost use Rattle.wm_interp.specs.Projected.{Stands};
ghost use Rattle.wm_interp.specs.Standing.{code_in, stand_of, weights_in};
ghost use Rattle.wm_program.specs.Code.{code_of};
ghost use Rattle.wm_program.specs.Runs.{result_of, started};
ghost use Rattle.wm_weights.specs.Table.{weight_of};
ghost use Rattle.wm_observe.specs.Functions.{is_several, function_of};
ghost use Rattle.wm_observe.specs.Ended.{is_ended};
ghost use Rattle.wm_observe.specs.Observation.{moments, moments_behind, observation, observation_in, raised, with_moments, unseen};
ghost use Rattle.wm_observe.specs.Watched.{watched};

use crate::functions::{function_of, functions_in, is_several};
use crate::lines::{look, no_lines};
use std::alloc::Global;
use wm_arrays::StateLine;
use wm_findings::Seen;
use wm_interp::Machine;
use wm_ops::{List, NoMemory};
use wm_program::{End, Inputs, Program};
use wm_weights::Weights;

/// What was seen so far.
#[derive(Drop)]
pub struct Watch {
    pub frames: usize,
    pub lines: Vec<StateLine>,
    pub counts: Vec<u128>,
}

fn is_ended(end: End) -> bool
    ensures { result ≡ is_ended end }
{
    match end {
        End::Ended => true,
        End::Stopped { .. } => false,
        End::StepLimit => false,
    }
}

/// Raises the count of a function.
fn raise(counts: &mut Vec<u128>, function: usize, count: u128)
    ensures { counts.new.items ≡ raised counts.old.items function count }
{
    if function < counts.len() {
        let greatest = counts[function].max(count);
        counts[function] = greatest;
    }
}

/// Runs these frames on a machine that was started, up to the first that does not end.
fn watch_frames(
    machine: &mut Machine<'_>,
    several: bool,
    watch: &mut Watch,
    frames: &[Inputs],
    steps: u64,
) -> Result<(), NoMemory>
    requires stands { Stands (weights_in machine.old) (started (code_in machine.old) [] steps) (stand_of machine.old) }
    requires none { watch.old.frames ≡ 0 }
    ensures { OnOk result (watched watch.new ≡ with_moments several (moments (code_in machine.old) (weights_in machine.old) (started (code_in machine.old) [] steps) steps frames.now) (watched watch.old)) }
{
    for inputs in frames {
        look(&mut watch.lines, machine);
        let result = machine.run_frame(inputs, steps)?;
        raise(
            &mut watch.counts,
            function_of(several, inputs.values.items()),
            result.count,
        );
        watch.frames += 1;
        if !is_ended(result.end) {
            return Ok(());
        }
    }
    Ok(())
}

/// The frames behind a start that came to this end.
fn watch_behind(
    machine: &mut Machine<'_>,
    end: End,
    several: bool,
    watch: &mut Watch,
    frames: &[Inputs],
    steps: u64,
) -> Result<(), NoMemory>
    requires stands { Stands (weights_in machine.old) (started (code_in machine.old) [] steps) (stand_of machine.old) }
    requires none { watch.old.frames ≡ 0 }
    ensures { OnOk result (watched watch.new ≡ with_moments several (if is_ended end then moments (code_in machine.old) (weights_in machine.old) (started (code_in machine.old) [] steps) steps frames.now else []) (watched watch.old)) }
{
    if is_ended(end) {
        return watch_frames(machine, several, watch, frames, steps);
    }
    Ok(())
}

fn no_counts(alloc: Global, functions: usize) -> Result<Vec<u128>, NoMemory>
    ensures { IfOk result (λ counts. counts.items ≡ replicate functions 0) }
{
    let counts = vec![in alloc; 0; functions]?;
    Ok(counts)
}

fn listed_lines(alloc: Global, items: &[StateLine]) -> Result<List<StateLine>, NoMemory>
    ensures { IfOk result (λ list. list ≡ items.now) }
{
    let mut list = List::new(alloc);
    for item in items {
        list.push(*item)?;
    }
    Ok(list)
}

fn listed_counts(alloc: Global, items: &[u128]) -> Result<List<u128>, NoMemory>
    ensures { IfOk result (λ list. list ≡ items.now) }
{
    let mut list = List::new(alloc);
    for item in items {
        list.push(*item)?;
    }
    Ok(list)
}

/// Nothing was seen so far.
fn nothing_seen(alloc: Global, program: &Program) -> Result<Watch, NoMemory>
    ensures { IfOk result (λ watch. watched watch ≡ unseen program.now) }
{
    let lines = no_lines(alloc, program.objects.items())?;
    let counts = no_counts(alloc, functions_in(program))?;
    Ok(Watch {
        frames: 0,
        lines,
        counts,
    })
}

/// What was seen.
fn seen_of(alloc: Global, watch: &Watch) -> Result<Seen, NoMemory>
    ensures { IfOk result (λ seen. observation_in seen ≡ watched watch.now) }
{
    let states = listed_lines(alloc, watch.lines.as_slice())?;
    let counts = listed_counts(alloc, watch.counts.as_slice())?;
    Ok(Seen {
        frames: watch.frames as u64,
        states,
        counts,
    })
}

/// Runs sample frames, with an empty fill list, and tells what is seen: init, where there is one, and then each frame up to the
/// first that does not end, that one included; no frame where init does not end. Init and each frame may make `steps`
/// elementary steps. For each object that is neither const nor input it tells the least interval that holds its set cells
/// as the frames that are run begin, and for each frame function the greatest count of its frames, 0 where none was run.
/// Each frame has one number for each input cell. `NoMemory`: memory ran out, or the program has 2^32 objects or more.
pub fn observe(
    alloc: Global,
    program: &Program,
    weights: &Weights,
    frames: &[Inputs],
    steps: u64,
) -> Result<Seen, NoMemory>
    ensures seen { IfOk result (λ seen. observation_in seen ≡ observation program.now (weight_of weights.now) frames.now steps) }
{
    let mut watch = nothing_seen(alloc, program)?;
    let mut machine = Machine::new(alloc, program, weights)?;
    let start = machine.start(Vec::new(alloc), steps)?;
    watch_behind(
        &mut machine,
        start.end,
        is_several(program),
        &mut watch,
        frames,
        steps,
    )?;
    seen_of(alloc, &watch)
}
