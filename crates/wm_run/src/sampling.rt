//! What `replay` and `observe` come to: the samples are run.

ghost use Rattle.std.specs.Prelude.{◌≡◌, ◌≤◌, IfOk};
ghost use Rattle.wm_load.specs.Replay.{replay_of};
ghost use Rattle.wm_load.specs.Replaying.{replay_asked};
ghost use Rattle.wm_run.specs.Leads.{From, Reading};
ghost use Rattle.wm_run.specs.Outcome.{IsOwn, decided};
ghost use Rattle.wm_run.specs.Replay.{whole_replay};
ghost use Rattle.wm_run.specs.Sampled.{ObservedAs, ReplayedAs};
ghost use Rattle.wm_run.specs.World.{world_of};

use crate::outcome::{Outcome, refused};
use crate::proving::proof_of;
use std::alloc::Global;
use wm_files::Files;
use wm_findings_text::observe_text;
use wm_load::{Replay, replay_files};
use wm_observe::observe as observed;
use wm_ops::NoMemory;
use wm_replay::replay as replayed;
use wm_report::replay_text;

/// The text of the run of what was read.
fn text_of(alloc: Global, given: &Replay) -> Result<Vec<u8>, NoMemory>
    ensures { IfOk result (λ text. text.items ≡ whole_replay (replay_of given.now)) }
{
    let frames = given.frames.as_slice();
    let results = replayed(
        alloc,
        &given.program,
        &given.weights,
        frames,
        given.spec.steps,
    )?;
    let shown = results.frames.as_slice();
    replay_text(alloc, &given.program, &results.start, shown)
}

/// What `replay` comes to over what was read.
fn replay_given(alloc: Global, given: &Replay) -> Result<Outcome, NoMemory>
    ensures replayed { IfOk result (λ o. ReplayedAs (replay_of given.now) (decided o)) }
    ensures own { IfOk result (λ o. IsOwn (decided o)) }
{
    let text = text_of(alloc, given)?;
    Ok(Outcome::Told { text })
}

/// What `replay` comes to over the specification and the samples of these names.
pub(crate) fn replay<F: Files>(
    alloc: Global,
    spec: &[u8],
    samples: &[u8],
    files: &mut F,
) -> Result<Outcome, NoMemory>
    ensures leads { IfOk result (λ o. From (world_of (F.held files.old) (F.held files.new) (F.faults files.old) (F.faults files.new)) (Reading (world_of (F.held files.old) (F.held files.new) (F.faults files.old) (F.faults files.new)) ReplayedAs) (replay_asked spec.now samples.now) (decided o)) }
    ensures own { IfOk result (λ o. IsOwn (decided o)) }
    ensures held { F.held files.new ≡ F.held files.old }
    ensures count { F.faults files.old ≤ F.faults files.new }
{
    match replay_files(alloc, spec, samples, files) {
        Ok(given) => replay_given(alloc, &given),
        Err(fault) => refused(fault),
    }
}

/// What `observe` comes to over what was read.
fn observe_given(alloc: Global, given: &Replay) -> Result<Outcome, NoMemory>
    ensures observed { IfOk result (λ o. ObservedAs (replay_of given.now) (decided o)) }
    ensures own { IfOk result (λ o. IsOwn (decided o)) }
{
    let proof = proof_of(alloc, &given.program, &given.weights)?;
    let seen = observed(
        alloc,
        &given.program,
        &given.weights,
        given.frames.as_slice(),
        given.spec.steps,
    )?;
    let text = observe_text(alloc, &given.program, &given.spec, &proof.findings, &seen)?;
    Ok(Outcome::Told { text })
}

/// What `observe` comes to over the specification and the samples of these names.
pub(crate) fn observe<F: Files>(
    alloc: Global,
    spec: &[u8],
    samples: &[u8],
    files: &mut F,
) -> Result<Outcome, NoMemory>
    ensures leads { IfOk result (λ o. From (world_of (F.held files.old) (F.held files.new) (F.faults files.old) (F.faults files.new)) (Reading (world_of (F.held files.old) (F.held files.new) (F.faults files.old) (F.faults files.new)) ObservedAs) (replay_asked spec.now samples.now) (decided o)) }
    ensures own { IfOk result (λ o. IsOwn (decided o)) }
    ensures held { F.held files.new ≡ F.held files.old }
    ensures count { F.faults files.old ≤ F.faults files.new }
{
    match replay_files(alloc, spec, samples, files) {
        Ok(given) => observe_given(alloc, &given),
        Err(fault) => refused(fault),
    }
}
