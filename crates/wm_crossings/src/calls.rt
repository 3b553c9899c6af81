// The edges on which a call begins and ends.
ghost use Rattle.std.specs.Prelude.{◌≡◌, ◌+◌, IfOk};
ghost use Rattle.wm_flow.specs.Calls as calls;
ghost use Rattle.wm_flow.specs.Places as places;
ghost use Rattle.wm_flow.specs.Views.{doing_of};
ghost use Rattle.wm_places.specs.Seen.{plan_of};

use crate::arguments::arguments_from;
use crate::functions::{addressed_in, result_of, result_size, scene_of, seats_of};
use crate::picks::{push_none, push_places, push_statics, static_count};
use std::alloc::Global;
use wm_flow::{Action, Bases, Kept, Returned, Scene};
use wm_ops::{List, NoMemory};
use wm_places::{
    Plan, above_at, bases_of, function_of, group_size, next, other_scalars, overflow_place, plus,
    related_scalars, related_states, temporary,
};

/// From where the variables of the first node of an instance come, which is entered from a node whose group has this
/// size.
#[tactic(auto, unfolding(wm_flow::specs::Calls::entry_picks), using(crate::proofs::Pieces::joined5))]
fn entry_picks(plan: &Plan, instance: u32, size: u32) -> Result<List<Option<u32>>, NoMemory>
    ensures { IfOk result (λ picks. picks ≡ calls.entry_picks (plan_of plan.now) instance size) }
{
    let scene = scene_of(plan, instance);
    let bases = bases_of(plan, scene)?;
    let addressed = addressed_in(plan, scene.function)?;
    let mut picks = List::new(plan.alloc);
    push_places(&mut picks, 0, related_states(bases.counts))?;
    push_none(&mut picks, related_scalars(bases.locals))?;
    push_statics(&mut picks, bases.counts, size)?;
    push_none(&mut picks, other_scalars(bases.locals))?;
    push_none(&mut picks, addressed)?;
    Ok(picks)
}

/// From where the arrays of the first node of an instance come.
#[tactic(auto, unfolding(wm_places::specs::Seen::plan_of, wm_flow::specs::Calls::entry_arrays), using(crate::proofs::Pieces::joined2))]
pub(crate) fn entry_arrays(plan: &Plan, instance: u32) -> Result<List<Option<u32>>, NoMemory>
    ensures { IfOk result (λ arrays. arrays ≡ calls.entry_arrays (plan_of plan.now) instance) }
{
    let bases = bases_of(plan, scene_of(plan, instance))?;
    let mut arrays = List::new(plan.alloc);
    push_places(&mut arrays, 0, above_at(plan.tables, instance))?;
    push_none(&mut arrays, bases.locals.arrays)?;
    Ok(arrays)
}

/// The call of an instance with these arguments, from a node of the scene.
#[tactic(auto, unfolding(wm_flow::specs::Calls::enter, wm_flow::specs::Views::doing_of))]
pub fn enter(plan: &Plan, scene: Scene, instance: u32, values: &[Kept]) -> Result<Action, NoMemory>
    ensures { IfOk result (λ action. doing_of action ≡ calls.enter (plan_of plan.now) scene instance values.now) }
{
    let bases = bases_of(plan, scene)?;
    let size = group_size(bases)?;
    let picks = entry_picks(plan, instance, size)?;
    let arrays = entry_arrays(plan, instance)?;
    let within = scene_of(plan, instance);
    let own = bases_of(plan, within)?;
    let arguments = arguments_from(plan.alloc, own, seats_of(plan, within.function), values)?;
    Ok(Action::Enter {
        picks,
        arrays,
        arguments,
    })
}

/// How many variables of the group are the caller's own: its scalars there and the counters of its open loops.
fn own_count(bases: Bases) -> Result<u32, NoMemory>
    ensures { IfOk result (λ count. count ≡ places.related_scalars bases.locals + bases.loops + bases.sums) }
{
    let both = plus(related_scalars(bases.locals), bases.loops)?;
    plus(both, bases.sums)
}

/// What comes from the call's node: the caller's own variables, so many of its temporaries among them.
#[tactic(auto, unfolding(wm_flow::specs::Calls::from_call), using(crate::proofs::Pieces::joined5))]
fn from_call(
    alloc: Global,
    bases: Bases,
    temporaries: u32,
    results: u32,
) -> Result<List<Option<u32>>, NoMemory>
    ensures { IfOk result (λ picks. picks ≡ calls.from_call bases temporaries results) }
{
    let own = own_count(bases)?;
    let statics = static_count(bases.counts)?;
    let overflow = overflow_place(bases)?;
    let behind = next(overflow)?;
    let others = plus(other_scalars(bases.locals), temporaries)?;
    let mut picks = List::new(alloc);
    push_none(&mut picks, related_states(bases.counts))?;
    push_places(&mut picks, related_states(bases.counts), own)?;
    push_none(&mut picks, statics)?;
    push_places(&mut picks, behind, others)?;
    push_none(&mut picks, results)?;
    Ok(picks)
}

/// What comes from the exit, whose group has this size: the static variables.
#[tactic(auto, unfolding(wm_flow::specs::Calls::from_exit), using(crate::proofs::Pieces::joined4))]
fn from_exit(
    alloc: Global,
    bases: Bases,
    size: u32,
    temporaries: u32,
    results: u32,
) -> Result<List<Option<u32>>, NoMemory>
    ensures { IfOk result (λ picks. picks ≡ calls.from_exit bases size temporaries results) }
{
    let own = own_count(bases)?;
    let some = plus(other_scalars(bases.locals), temporaries)?;
    let others = plus(some, results)?;
    let mut picks = List::new(alloc);
    push_places(&mut picks, 0, related_states(bases.counts))?;
    push_none(&mut picks, own)?;
    push_statics(&mut picks, bases.counts, size)?;
    push_none(&mut picks, others)?;
    Ok(picks)
}

/// Where the result of an instance stands at its exit, and where it goes.
#[tactic(auto, unfolding(wm_places::specs::Seen::plan_of, wm_flow::specs::Calls::returned))]
fn returned(
    plan: &Plan,
    scene: Scene,
    instance: u32,
    temporaries: u32,
) -> Result<Option<Returned>, NoMemory>
    ensures { IfOk result (λ it. it ≡ calls.returned (plan_of plan.now) scene instance temporaries) }
{
    if result_of(plan, function_of(plan.program, instance)) {
        let own = bases_of(plan, scene_of(plan, instance))?;
        let bases = bases_of(plan, scene)?;
        let at_exit = temporary(own, 0)?;
        let target = temporary(bases, temporaries)?;
        return Ok(Some(Returned { at_exit, target }));
    }
    Ok(None)
}

/// The arrays of an instance, each from its own place.
#[tactic(auto, unfolding(wm_places::specs::Seen::plan_of))]
fn own_arrays(plan: &Plan, instance: u32) -> Result<List<Option<u32>>, NoMemory>
    ensures { IfOk result (λ arrays. arrays ≡ calls.places_from 0 (calls.array_count (plan_of plan.now) instance)) }
{
    let bases = bases_of(plan, scene_of(plan, instance))?;
    let count = plus(above_at(plan.tables, instance), bases.locals.arrays)?;
    let mut arrays = List::new(plan.alloc);
    push_places(&mut arrays, 0, count)?;
    Ok(arrays)
}

/// The return from an instance to a node of the scene, over so many temporaries that stay; `call` is the call's node.
#[tactic(auto, unfolding(wm_places::specs::Seen::plan_of, wm_flow::specs::Calls::leave, wm_flow::specs::Views::doing_of))]
pub fn leave(
    plan: &Plan,
    scene: Scene,
    instance: u32,
    call: u32,
    temporaries: u32,
) -> Result<Action, NoMemory>
    ensures { IfOk result (λ action. doing_of action ≡ calls.leave (plan_of plan.now) scene instance call temporaries) }
{
    let bases = bases_of(plan, scene)?;
    let results = result_size(plan, function_of(plan.program, instance));
    let own = bases_of(plan, scene_of(plan, instance))?;
    let size = group_size(own)?;
    let from_call = from_call(plan.alloc, bases, temporaries, results)?;
    let from_exit = from_exit(plan.alloc, bases, size, temporaries, results)?;
    let arrays = own_arrays(plan, scene.instance)?;
    let result = returned(plan, scene, instance, temporaries)?;
    Ok(Action::Leave {
        call,
        from_call,
        from_exit,
        arrays,
        result,
    })
}
