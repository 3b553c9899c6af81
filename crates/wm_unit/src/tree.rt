// From tokens to a unit without the forms of structs.
ghost use Rattle.wm_read.specs.Asking.{Finds, IsFault};
ghost use Rattle.wm_read.specs.Seen.{same};
ghost use Rattle.wm_unit.specs.Trees.{plain_in, unit_in, written_in};

use crate::fault::struct_fault;
use std::alloc::Global;
use wm_lang::{Name, Token, Unit};
use wm_parse::{ParseFault, parse};
use wm_report::{RunFault, SourceName};
use wm_struct::expand;
use wm_tokens::source_fault;

/// The unit as it is written.
#[tactic(auto, unfolding(crate::specs::Trees::written_in))]
fn written(alloc: Global, names: &[Name], tokens: &[Token]) -> Result<Unit, RunFault>
    ensures { Finds same result (written_in names.now tokens.now) }
{
    match parse(alloc, tokens) {
        Ok(unit) => Ok(unit),
        Err(ParseFault::Syntax { token }) => Err(source_fault(
            alloc,
            names,
            tokens,
            SourceName::Syntax,
            token,
        )),
        Err(ParseFault::NoMemory) => Err(RunFault::Memory),
    }
}

/// A unit without its structs.
#[tactic(auto, unfolding(crate::specs::Trees::plain_in), using(crate::proofs::Refusals::structs_refused))]
fn plain(alloc: Global, names: &[Name], tokens: &[Token], unit: Unit) -> Result<Unit, RunFault>
    ensures { Finds same result (plain_in names.now tokens.now unit) }
{
    match expand(alloc, unit) {
        Ok(unit) => Ok(unit),
        Err(fault) => Err(struct_fault(alloc, names, tokens, fault)),
    }
}

/// The unit of the tokens of the sources of these names, without the forms of structs.
///
/// `Source`: `Syntax` at the first token through which the tokens begin no unit, or behind the last one; where they are a
/// unit, its first struct fault at its token. `Memory`: memory ran out.
#[tactic(auto, unfolding(crate::specs::Trees::unit_in))]
pub fn unit_of(alloc: Global, names: &[Name], tokens: &[Token]) -> Result<Unit, RunFault>
    ensures unit { Finds same result (unit_in names.now tokens.now) }
{
    match written(alloc, names, tokens) {
        Ok(unit) => plain(alloc, names, tokens, unit),
        Err(fault) => Err(fault),
    }
}
