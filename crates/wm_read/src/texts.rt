// All files of a call but the samples, in the order in which they are read.
ghost use Rattle.std.specs.Prelude.{◌≡◌, ◌≤◌, IfOk, All};
ghost use Rattle.wm_program.specs.Settings.{settings_of};
ghost use Rattle.wm_read.specs.Asking.{Reads};
ghost use Rattle.wm_read.specs.Certificate.{check_texts_asked};
ghost use Rattle.wm_read.specs.Files.{texts_asked, texts_with, texts_behind};
ghost use Rattle.wm_read.specs.Given.{given_of, IsText};

use crate::certificate::read_certified;
use crate::sources::read_sources;
use crate::specification::read_specification;
use crate::weights::read_weights_file;
use std::alloc::Global;
use wm_files::Files;
use wm_program::Spec;
use wm_report::RunFault;
use wm_weights::Weights;

/// What the files of a call say.
#[derive(Drop)]
pub struct Texts {
    pub spec: Spec,
    /// Those of the weights file; without one each word weighs 1.
    pub weights: Weights,
    /// The bytes of the sources, in the order of the specification.
    pub sources: Vec<Vec<u8>>,
}

fn with_weights<F: Files>(
    alloc: Global,
    spec: Spec,
    weights: Weights,
    files: &mut F,
) -> Result<Texts, RunFault>
    ensures given { Reads given_of (F.held files.old) (F.faults files.old) (F.faults files.new) (texts_behind (settings_of spec) weights) result }
    ensures short { IfOk result (λ texts. All IsText texts.sources.items) }
    ensures held { F.held files.new ≡ F.held files.old }
    ensures count { F.faults files.old ≤ F.faults files.new }
{
    match read_sources(alloc, spec.sources.items(), files) {
        Ok(sources) => Ok(Texts {
            spec,
            weights,
            sources,
        }),
        Err(fault) => Err(fault),
    }
}

fn with_spec<F: Files>(alloc: Global, spec: Spec, files: &mut F) -> Result<Texts, RunFault>
    ensures given { Reads given_of (F.held files.old) (F.faults files.old) (F.faults files.new) (texts_with (settings_of spec)) result }
    ensures short { IfOk result (λ texts. All IsText texts.sources.items) }
    ensures held { F.held files.new ≡ F.held files.old }
    ensures count { F.faults files.old ≤ F.faults files.new }
{
    match read_weights_file(alloc, &spec.weights, files) {
        Ok(weights) => with_weights(alloc, spec, weights, files),
        Err(fault) => Err(fault),
    }
}

/// The specification of this name, the weights and the sources that it names, in this order.
///
/// `ReadFailed`: a file could not be read. `FileTooLong`: specification or weights have more than 1 MiB. `NotToml`,
/// `MissingKey`, `UnknownKey`, `BadValue`: the specification is none. `NotToml`, `BadKey`, `BadNumber`: the weights are
/// none. `SourcesTooLong`: the sources have more than 4 MiB together. `Memory`: memory ran out.
pub fn read_texts<F: Files>(alloc: Global, name: &[u8], files: &mut F) -> Result<Texts, RunFault>
    ensures given { Reads given_of (F.held files.old) (F.faults files.old) (F.faults files.new) (texts_asked name.now) result }
    ensures short { IfOk result (λ texts. All IsText texts.sources.items) }
    ensures held { F.held files.new ≡ F.held files.old }
    ensures count { F.faults files.old ≤ F.faults files.new }
{
    match read_specification(alloc, name, files) {
        Ok(spec) => with_spec(alloc, spec, files),
        Err(fault) => Err(fault),
    }
}

/// As `read_texts`, of a specification that must name a certificate, as a check wants it.
///
/// `MissingKey` of the key `certificate` stands behind all other refusals of the specification, and before all that follows.
pub fn read_check_texts<F: Files>(
    alloc: Global,
    name: &[u8],
    files: &mut F,
) -> Result<Texts, RunFault>
    ensures given { Reads given_of (F.held files.old) (F.faults files.old) (F.faults files.new) (check_texts_asked name.now) result }
    ensures short { IfOk result (λ texts. All IsText texts.sources.items) }
    ensures held { F.held files.new ≡ F.held files.old }
    ensures count { F.faults files.old ≤ F.faults files.new }
{
    match read_certified(alloc, name, files) {
        Ok(spec) => with_spec(alloc, spec, files),
        Err(fault) => Err(fault),
    }
}
