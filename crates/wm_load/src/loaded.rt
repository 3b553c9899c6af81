// What every command is given.
ghost use Rattle.std.specs.Prelude.{◌≡◌, ◌≤◌, All};
ghost use Rattle.wm_load.specs.Loaded.{loaded_of};
ghost use Rattle.wm_load.specs.Loading.{load_asked, loaded_from, weighed};
ghost use Rattle.wm_program.specs.Settings.{settings_of};
ghost use Rattle.wm_read.specs.Asking.{Finds, Reads};
ghost use Rattle.wm_read.specs.Given.{given_of, IsText};

use crate::linking::program_of_texts;
use std::alloc::Global;
use wm_files::Files;
use wm_lacking::lacking;
use wm_program::{Program, Spec};
use wm_read::{Texts, read_texts};
use wm_report::RunFault;
use wm_weights::Weights;

/// What every command is given.
#[derive(Drop)]
pub struct Loaded {
    pub spec: Spec,
    /// One for each word that the program uses.
    pub weights: Weights,
    pub program: Program,
}

/// Each word that the program uses must have a weight.
#[tactic(auto, unfolding(crate::specs::Loading::weighed))]
fn weighed(spec: Spec, weights: Weights, program: Program) -> Result<Loaded, RunFault>
    ensures { Finds loaded_of result (weighed (settings_of spec) weights program) }
{
    match lacking(&program, &weights) {
        None => Ok(Loaded {
            spec,
            weights,
            program,
        }),
        Some(word) => Err(RunFault::MissingWeight { word }),
    }
}

/// What was read, with the program of the sources.
///
/// The first fault of the sources, then `MissingWeight` for the first word that the program uses and that has no weight. `Memory`:
/// memory ran out.
pub fn load_texts(alloc: Global, texts: Texts) -> Result<Loaded, RunFault>
    requires short { All IsText texts.sources.items }
    ensures { Finds loaded_of result (loaded_from (given_of texts)) }
{
    match program_of_texts(alloc, &texts.spec, &texts.sources) {
        Ok(program) => weighed(texts.spec, texts.weights, program),
        Err(fault) => Err(fault),
    }
}

/// The specification of this name, its weights, and the program of its sources.
///
/// In this order: what is wrong with the specification, with the weights, a source that cannot be read, the first fault of
/// the sources, `MissingWeight` for the first word that the program uses and that has no weight. `Memory`: memory ran out.
pub fn load<F: Files>(alloc: Global, name: &[u8], files: &mut F) -> Result<Loaded, RunFault>
    ensures given { Reads loaded_of (F.held files.old) (F.faults files.old) (F.faults files.new) (load_asked name.now) result }
    ensures held { F.held files.new ≡ F.held files.old }
    ensures count { F.faults files.old ≤ F.faults files.new }
{
    match read_texts(alloc, name, files) {
        Ok(texts) => load_texts(alloc, texts),
        Err(fault) => Err(fault),
    }
}
