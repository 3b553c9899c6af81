// The program of sources.
ghost use Rattle.std.specs.Prelude.{All};
ghost use Rattle.wm_load.specs.Linking.{linked_in, program_of_texts, program_of_tokens};
ghost use Rattle.wm_read.specs.Asking.{Finds};
ghost use Rattle.wm_read.specs.Given.{IsText};
ghost use Rattle.wm_read.specs.Seen.{same, texts_of};

use std::alloc::Global;
use wm_lang::{Token, Unit};
use wm_link::link;
use wm_program::{Program, Spec};
use wm_report::RunFault;
use wm_tokens::{link_fault, read_tokens};
use wm_unit::unit_of;

/// The program of a unit, whose names and limits are looked at.
#[tactic(auto, unfolding(crate::specs::Linking::linked_in), using(crate::proofs::Refusals::link_refused))]
fn linked(alloc: Global, spec: &Spec, tokens: &[Token], unit: Unit) -> Result<Program, RunFault>
    ensures { Finds same result (linked_in spec.now tokens.now unit) }
{
    match link(alloc, unit, spec) {
        Ok(program) => Ok(program),
        Err(fault) => Err(link_fault(alloc, spec.sources.items(), tokens, fault)),
    }
}

#[tactic(auto, unfolding(crate::specs::Linking::program_of_tokens))]
fn program_of_tokens(alloc: Global, spec: &Spec, tokens: &[Token]) -> Result<Program, RunFault>
    ensures { Finds same result (program_of_tokens spec.now tokens.now) }
{
    match unit_of(alloc, spec.sources.items(), tokens) {
        Ok(unit) => linked(alloc, spec, tokens, unit),
        Err(fault) => Err(fault),
    }
}

/// The program of the sources of a specification.
///
/// The first fault of the texts; where they have none, the first token through which the tokens begin no unit; then the
/// first fault of structs, then that of names and limits. `Memory`: memory ran out.
#[tactic(auto, unfolding(crate::specs::Linking::program_of_texts))]
pub(crate) fn program_of_texts(
    alloc: Global,
    spec: &Spec,
    texts: &[Vec<u8>],
) -> Result<Program, RunFault>
    requires short { All IsText texts.now }
    ensures { Finds same result (program_of_texts spec.now (texts_of texts.now)) }
{
    match read_tokens(alloc, spec.sources.items(), texts) {
        Ok(tokens) => program_of_tokens(alloc, spec, &tokens),
        Err(fault) => Err(fault),
    }
}
