// What a replay is given.
ghost use Rattle.std.specs.Prelude.{◌≡◌, ◌≤◌};
ghost use Rattle.wm_load.specs.Loaded.{loaded_of};
ghost use Rattle.wm_load.specs.Replay.{replay_of};
ghost use Rattle.wm_load.specs.Replaying.{replay_asked, replay_behind};
ghost use Rattle.wm_read.specs.Asking.{Reads};

use crate::loaded::{Loaded, load};
use std::alloc::Global;
use wm_files::Files;
use wm_program::{Inputs, Program, Spec};
use wm_read::read_samples;
use wm_report::RunFault;
use wm_weights::Weights;

/// What a replay is given.
#[derive(Drop)]
pub struct Replay {
    pub spec: Spec,
    /// One for each word that the program uses.
    pub weights: Weights,
    pub program: Program,
    /// The inputs of each frame.
    pub frames: Vec<Inputs>,
}

/// The samples of a program, in the file of this name.
fn with_samples<F: Files>(
    alloc: Global,
    loaded: Loaded,
    samples: &[u8],
    files: &mut F,
) -> Result<Replay, RunFault>
    ensures given { Reads replay_of (F.held files.old) (F.faults files.old) (F.faults files.new) (replay_behind samples.now (loaded_of loaded)) result }
    ensures held { F.held files.new ≡ F.held files.old }
    ensures count { F.faults files.old ≤ F.faults files.new }
{
    match read_samples(alloc, &loaded.program, samples, files) {
        Ok(frames) => Ok(Replay {
            spec: loaded.spec,
            weights: loaded.weights,
            program: loaded.program,
            frames,
        }),
        Err(fault) => Err(fault),
    }
}

/// The specification, weights and program of a call, and the frames in its sample file.
///
/// The refusals of `load` come first, then those of the samples: `ReadFailed`, `FileTooLong` past 16 MiB, `Rest`,
/// `OutOfRange`. `Memory`: memory ran out.
pub fn replay_files<F: Files>(
    alloc: Global,
    spec: &[u8],
    samples: &[u8],
    files: &mut F,
) -> Result<Replay, RunFault>
    ensures given { Reads replay_of (F.held files.old) (F.faults files.old) (F.faults files.new) (replay_asked spec.now samples.now) result }
    ensures held { F.held files.new ≡ F.held files.old }
    ensures count { F.faults files.old ≤ F.faults files.new }
{
    match load(alloc, spec, files) {
        Ok(loaded) => with_samples(alloc, loaded, samples, files),
        Err(fault) => Err(fault),
    }
}
