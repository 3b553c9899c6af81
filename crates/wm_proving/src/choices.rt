// The worst choice of each frame function.
ghost use Rattle.std.specs.Prelude.{◌≡◌, map, All, IfOk};
ghost use Rattle.wm_domain.specs.States.{IsShape};
ghost use Rattle.wm_drawn.specs.Drawn.{IsDrawn};
ghost use Rattle.wm_walk.specs.Graphs.{AreDrawn, AreStates};
ghost use Rattle.wm_proving.specs.Worst.{AreOfParts, AreWorst, IsWorst, choice_in, facts_in};

use crate::finding::Proof;
use std::alloc::Global;
use wm_bounds::{Part, lives_in, parts_of};
use wm_check::facts;
use wm_domain::Domain;
use wm_flow::{Facts, Graph};
use wm_ops::{List, NoMemory};
use wm_path::{Choice, worst_path};
use wm_program::Program;
use wm_stepped::Steps;
use wm_weights::Weights;

/// The items once more.
fn listed<T: Copy + Drop>(alloc: Global, items: &[T]) -> Result<List<T>, NoMemory>
    ensures items { IfOk result (λ list. list ≡ items.now) }
{
    let mut list = List::new(alloc);
    for item in items {
        list.push(*item)?;
    }
    Ok(list)
}

/// The facts in which the edges from and to the nodes of other frame functions are not live.
fn facts_in(alloc: Global, graph: &Graph, facts: &Facts, part: Part) -> Result<Facts, NoMemory>
    ensures facts { IfOk result (λ own. own ≡ facts_in graph.now facts.now part) }
{
    let live = lives_in(alloc, graph, part, facts.live.items())?;
    Ok(Facts {
        turns: listed(alloc, facts.turns.items())?,
        live: listed(alloc, live.as_slice())?,
        stops: listed(alloc, facts.stops.items())?,
    })
}

/// The worst choice of a frame function.
fn choice_in(
    alloc: Global,
    graph: &Graph,
    weights: &Weights,
    facts: &Facts,
    part: Part,
) -> Result<Option<Choice>, NoMemory>
    ensures choice { IfOk result (λ choice. choice ≡ choice_in graph.now weights.now facts.now part) }
{
    let own = facts_in(alloc, graph, facts, part)?;
    worst_path(alloc, graph, weights, &own)
}

/// The worst choices of frame functions by the same facts.
fn choices_by(
    alloc: Global,
    graph: &Graph,
    weights: &Weights,
    facts: &Facts,
    parts: &[Part],
) -> Result<Vec<Option<Choice>>, NoMemory>
    ensures choices { IfOk result (λ choices. choices.items ≡ map (choice_in graph.now weights.now facts.now) parts.now) }
{
    let mut choices = Vec::new(alloc);
    for part in parts {
        choices.push(choice_in(alloc, graph, weights, facts, *part)?)?;
    }
    Ok(choices)
}

/// The worst choice of each frame function, in their order: none where no number bounds what its frames count.
///
/// `NoMemory`: memory ran out.
pub fn worst_choices<D: Domain>(
    alloc: Global,
    program: &Program,
    weights: &Weights,
    proof: &Proof<D>,
) -> Result<Vec<Option<Choice>>, NoMemory>
    requires shapes { All IsShape proof.now.graph.shapes }
    requires drawn { AreDrawn IsDrawn proof.now.graph }
    requires states { AreStates D.shape_of proof.now.graph proof.now.certificate.heads }
    ensures worst { IfOk result (λ choices. AreWorst proof.now.graph weights.now choices.items) }
    ensures parts { IfOk result (λ choices. AreOfParts program.now proof.now.graph weights.now choices.items) }
{
    let told = facts(alloc, &Steps, program, &proof.graph, &proof.certificate)?;
    let parts = parts_of(alloc, program)?;
    choices_by(alloc, &proof.graph, weights, &told, parts.as_slice())
}
