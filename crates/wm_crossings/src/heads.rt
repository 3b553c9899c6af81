// The edges to and from the head of the frames, which has the static variables without the inputs, and the static arrays.
ghost use Rattle.std.specs.Prelude.{◌≡◌, ◌+◌, IfOk};
ghost use Rattle.wm_flow.specs.Calls as calls;
ghost use Rattle.wm_flow.specs.Views.{doing_of};
ghost use Rattle.wm_crossings.specs.Heads.{picks_from_head};
ghost use Rattle.wm_places.specs.Seen.{plan_of};

use crate::calls::entry_arrays;
use crate::functions::scene_of;
use crate::picks::{push_none, push_place, push_places};
use std::alloc::Global;
use wm_flow::{Action, Bases, Counts};
use wm_ops::{List, NoMemory};
use wm_places::{
    Plan, bases_of, group_size, other_scalars, other_states, plus, related_scalars, related_states,
};

/// From where the variables of the head come: from a node whose group has this size and that has so many inputs.
#[tactic(auto, unfolding(wm_flow::specs::Calls::head_picks), using(crate::proofs::Pieces::joined3))]
fn head_picks(
    alloc: Global,
    counts: Counts,
    size: u32,
    inputs: u32,
) -> Result<List<Option<u32>>, NoMemory>
    ensures { IfOk result (λ picks. picks ≡ calls.head_picks counts size inputs) }
{
    let first = plus(size, other_states(counts))?;
    let overflow = plus(first, inputs)?;
    let mut picks = List::new(alloc);
    push_places(&mut picks, 0, related_states(counts))?;
    push_places(&mut picks, size, other_states(counts))?;
    push_place(&mut picks, overflow)?;
    Ok(picks)
}

/// The static arrays, each from its own place.
fn static_arrays(alloc: Global, counts: Counts) -> Result<List<Option<u32>>, NoMemory>
    ensures { IfOk result (λ arrays. arrays ≡ calls.places_from 0 counts.arrays) }
{
    let mut arrays = List::new(alloc);
    push_places(&mut arrays, 0, counts.arrays)?;
    Ok(arrays)
}

/// To the head from the exit of an instance.
#[tactic(auto, unfolding(wm_places::specs::Seen::plan_of, wm_flow::specs::Calls::to_head, wm_flow::specs::Views::doing_of))]
pub fn to_head(plan: &Plan, instance: u32) -> Result<Action, NoMemory>
    ensures { IfOk result (λ action. doing_of action ≡ calls.to_head (plan_of plan.now) instance) }
{
    let counts = plan.tables.counts;
    let bases = bases_of(plan, scene_of(plan, instance))?;
    let size = group_size(bases)?;
    let picks = head_picks(plan.alloc, counts, size, counts.inputs)?;
    let arrays = static_arrays(plan.alloc, counts)?;
    Ok(Action::Enter {
        picks,
        arrays,
        arguments: List::new(plan.alloc),
    })
}

/// To the head from a node of its shape, where a run without init starts.
#[tactic(auto, unfolding(wm_places::specs::Seen::plan_of, wm_flow::specs::Calls::to_head_from_start, wm_flow::specs::Views::doing_of))]
pub fn to_head_from_start(plan: &Plan) -> Result<Action, NoMemory>
    ensures { IfOk result (λ action. doing_of action ≡ calls.to_head_from_start (plan_of plan.now)) }
{
    let counts = plan.tables.counts;
    let picks = head_picks(plan.alloc, counts, related_states(counts), 0)?;
    let arrays = static_arrays(plan.alloc, counts)?;
    Ok(Action::Enter {
        picks,
        arrays,
        arguments: List::new(plan.alloc),
    })
}

/// From where the variables of the first node of an instance come that is entered from the head; the inputs are not there.
#[tactic(auto, unfolding(crate::specs::Heads::picks_from_head), using(crate::proofs::Pieces::joined6))]
fn picks_from_head(alloc: Global, bases: Bases) -> Result<List<Option<u32>>, NoMemory>
    ensures { IfOk result (λ picks. picks ≡ picks_from_head bases) }
{
    let mut picks = List::new(alloc);
    push_places(&mut picks, 0, related_states(bases.counts))?;
    push_none(&mut picks, related_scalars(bases.locals))?;
    push_places(
        &mut picks,
        related_states(bases.counts),
        other_states(bases.counts),
    )?;
    push_none(&mut picks, bases.counts.inputs)?;
    push_place(&mut picks, bases.counts.states)?;
    push_none(&mut picks, other_scalars(bases.locals))?;
    Ok(picks)
}

/// From the head to the first node of the frame function.
#[tactic(auto, unfolding(crate::specs::Heads::picks_from_head, wm_flow::specs::Calls::from_head, wm_flow::specs::Views::doing_of))]
pub fn from_head(plan: &Plan, instance: u32) -> Result<Action, NoMemory>
    ensures { IfOk result (λ action. doing_of action ≡ calls.from_head (plan_of plan.now) instance) }
{
    let bases = bases_of(plan, scene_of(plan, instance))?;
    let picks = picks_from_head(plan.alloc, bases)?;
    let arrays = entry_arrays(plan, instance)?;
    Ok(Action::Enter {
        picks,
        arrays,
        arguments: List::new(plan.alloc),
    })
}
