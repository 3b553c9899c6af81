//! What `demo` comes to: the example is read as if it stood in files, and proved.

ghost use Rattle.std.specs.Prelude.{◌≡◌, [], ◌∷◌, All, IfOk};
ghost use Rattle.wm_load.specs.Loaded.{loaded_of};
ghost use Rattle.wm_load.specs.Loading.{loaded_from};
ghost use Rattle.wm_program.specs.Settings.{settings_of};
ghost use Rattle.wm_read.specs.Asking.{Bytes, Finds, IsFault};
ghost use Rattle.wm_read.specs.Files.{settings_from, spec_fault};
ghost use Rattle.wm_read.specs.Given.{IsText};
ghost use Rattle.wm_read.specs.Seen.{texts_of};
ghost use Rattle.wm_weights.specs.Table.{ones};
ghost use Rattle.wm_run.specs.Demo.{ByExample, DemoAs, demo_name, example_loaded};
ghost use Rattle.wm_run.specs.Outcome.{IsOwn, decided};

use crate::outcome::{Outcome, refused};
use crate::proving::proof_of;
use std::alloc::Global;
use wm_findings_text::demo_text;
use wm_gen::example;
use wm_lang::Name;
use wm_load::{Loaded, load_texts};
use wm_ops::NoMemory;
use wm_program::Spec;
use wm_read::Texts;
use wm_report::RunFault;
use wm_spec::{SpecFault, read_spec};
use wm_weights::all_ones;

/// The refusal for what is wrong with the specification of the example, of which there is nothing.
fn spec_fault(alloc: Global, fault: SpecFault) -> RunFault
    ensures { IsFault result (spec_fault demo_name fault) }
{
    match fault {
        SpecFault::NotToml => match Name::new(alloc, b"demo.toml") {
            Ok(name) => RunFault::NotToml { name },
            Err(_) => RunFault::Memory,
        },
        SpecFault::MissingKey { key } => RunFault::MissingKey { key },
        SpecFault::UnknownKey { key } => RunFault::UnknownKey { key },
        SpecFault::BadValue { key } => RunFault::BadValue { key },
        SpecFault::NoMemory => RunFault::Memory,
    }
}

/// The specification in these bytes.
fn spec_in(alloc: Global, bytes: &[u8]) -> Result<Spec, RunFault>
    ensures { Finds settings_of result (settings_from demo_name (Bytes bytes.now)) }
{
    match read_spec(alloc, bytes) {
        Ok(spec) => Ok(spec),
        Err(fault) => Err(spec_fault(alloc, fault)),
    }
}

/// The source as the texts of a call. One too long for its bytes to be numbered, which no example is, is refused.
fn sources_of(alloc: Global, source: &[u8]) -> Result<Vec<Vec<u8>>, NoMemory>
    ensures texts { IfOk result (λ texts. texts_of texts.items ≡ source.now ∷ []) }
    ensures short { IfOk result (λ texts. All IsText texts.items) }
{
    if source.len() > u32::MAX as usize {
        return Err(NoMemory);
    }
    let mut texts = Vec::new(alloc);
    texts.push(Vec::from_slice(alloc, source)?)?;
    Ok(texts)
}

/// The example by its specification.
fn loaded_with(alloc: Global, spec: Spec, source: &[u8]) -> Result<Loaded, RunFault>
    ensures { Finds loaded_of result (loaded_from (record { settings = settings_of spec; weights = ones; sources = source.now ∷ [] })) }
{
    match sources_of(alloc, source) {
        Ok(sources) => load_texts(
            alloc,
            Texts {
                spec,
                weights: all_ones(),
                sources,
            },
        ),
        Err(_refused) => Err(RunFault::Memory),
    }
}

/// The example of so many stages, loaded.
fn example_loaded(alloc: Global, stages: u32) -> Result<Loaded, RunFault>
    ensures { Finds loaded_of result (example_loaded stages) }
{
    match example(alloc, stages) {
        Ok(example) => match spec_in(alloc, example.spec.items()) {
            Ok(spec) => loaded_with(alloc, spec, example.source.items()),
            Err(fault) => Err(fault),
        },
        Err(_refused) => Err(RunFault::Memory),
    }
}

/// What `demo` comes to over the example that was loaded.
fn demo_loaded(alloc: Global, stages: u32, loaded: &Loaded) -> Result<Outcome, NoMemory>
    ensures demo { IfOk result (λ o. DemoAs stages (loaded_of loaded.now) (decided o)) }
    ensures own { IfOk result (λ o. IsOwn (decided o)) }
{
    let proof = proof_of(alloc, &loaded.program, &loaded.weights)?;
    let text = demo_text(alloc, stages, &proof.findings)?;
    Ok(Outcome::Told { text })
}

/// What `demo` comes to for so many stages, from 1 to 500.
pub(crate) fn demo(alloc: Global, stages: u32) -> Result<Outcome, NoMemory>
    ensures leads { IfOk result (λ o. ByExample stages (example_loaded stages) (decided o)) }
    ensures own { IfOk result (λ o. IsOwn (decided o)) }
{
    match example_loaded(alloc, stages) {
        Ok(loaded) => demo_loaded(alloc, stages, &loaded),
        Err(fault) => refused(fault),
    }
}
