// What is made of a unit: which functions are called, and the instances of all calls.
ghost use Rattle.std.specs.Prelude.{◌≡◌, IfOk, OnOk};
ghost use Rattle.wm_assemble.specs.Plans.{has_choice, root_of, init_of, first_number, calls_of, plan_of, total_of, laid_of, with_instance};

use std::alloc::Global;
use wm_calls::size_at;
use wm_inputs::{call_places, definitions, entries, entry};
use wm_instances::{grow, root_instance};
use wm_lang::Unit;
use wm_ops::{List, NoMemory};
use wm_program::{FunctionInfo, InstanceInfo, Spec};
use wm_scope::CallPlace;

/// The calls of each function, that of the function that chooses among them, and the functions that are called first.
#[derive(Drop)]
pub(crate) struct Plan {
    pub(crate) calls: List<List<CallPlace>>,
    pub(crate) init: Option<u32>,
    pub(crate) frames: List<u32>,
    /// The frame function, or the one that chooses between several.
    pub(crate) root: u32,
}

/// The instances, and the numbers of those that nobody calls.
#[derive(Drop)]
pub struct Laid {
    pub instances: List<InstanceInfo>,
    pub init: Option<u32>,
    pub frame: u32,
}

/// What a first way through a unit without faults tells.
#[derive(Drop)]
pub struct Started {
    pub laid: Laid,
    /// The numbers of the frame functions.
    pub frames: List<u32>,
    /// How many instances a call of each function leads to.
    pub sizes: List<u32>,
    /// For each call of each function what its instance has more than the number of the caller's.
    pub offsets: List<List<u32>>,
    /// The different numbers in the bodies.
    pub constants: List<i64>,
}

pub(crate) fn has_choice(frames: &[u32]) -> bool
    ensures { result ≡ has_choice frames.now }
{
    1 < frames.len()
}

fn number(k: usize) -> Result<u32, NoMemory>
    ensures { IfOk result (λ number. number ≡ k) }
{
    match u32::try_from(k) {
        Ok(number) => Ok(number),
        Err(_) => Err(NoMemory),
    }
}

/// The frame function; of several the one that chooses, which stands behind so many functions.
fn root_of(frames: &[u32], count: usize) -> Result<u32, NoMemory>
    ensures { IfOk result (λ root. root ≡ root_of frames.now count) }
{
    if has_choice(frames) {
        return number(count);
    }
    match frames.first() {
        Some(frame) => Ok(*frame),
        None => number(count),
    }
}

fn init_of(functions: &[FunctionInfo], spec: &Spec) -> Result<Option<u32>, NoMemory>
    ensures { IfOk result (λ init. init ≡ init_of functions.now spec.now.init) }
{
    match &spec.init {
        None => Ok(None),
        Some(name) => match entry(functions, name.bytes()) {
            None => Ok(None),
            Some(k) => {
                let init = number(k)?;
                Ok(Some(init))
            }
        },
    }
}

/// The calls of each function, and behind them those of the function that chooses.
fn calls_of(
    alloc: Global,
    unit: &Unit,
    frames: &[u32],
    calls: List<List<CallPlace>>,
) -> Result<List<List<CallPlace>>, NoMemory>
    ensures { IfOk result (λ all. all ≡ calls_of unit.now frames.now calls) }
{
    if !has_choice(frames) {
        return Ok(calls);
    }
    let mut all = calls;
    let definitions = definitions(alloc, unit)?;
    let places = call_places(alloc, definitions.items(), frames)?;
    all.push(places)?;
    Ok(all)
}

#[tactic(auto, unfolding(crate::specs::Plans::plan_of))]
pub(crate) fn make_plan(
    alloc: Global,
    unit: &Unit,
    spec: &Spec,
    functions: &[FunctionInfo],
    calls: List<List<CallPlace>>,
) -> Result<Plan, NoMemory>
    ensures { IfOk result (λ plan. plan ≡ plan_of unit.now spec.now functions.now calls) }
{
    let init = init_of(functions, spec)?;
    let frames = entries(alloc, functions, spec.frames.items())?;
    let root = root_of(frames.items(), functions.len())?;
    let calls = calls_of(alloc, unit, frames.items(), calls)?;
    Ok(Plan {
        calls,
        init,
        frames,
        root,
    })
}

/// The number of all instances. A number past 2^32 - 1 counts as that.
pub(crate) fn total_of(sizes: &[u32], plan: &Plan) -> u32
    ensures { result ≡ total_of sizes.now plan.now }
{
    match plan.init {
        None => size_at(sizes, plan.root),
        Some(init) => size_at(sizes, init).saturating_add(size_at(sizes, plan.root)),
    }
}

/// Puts the instances of a function that nobody calls at the end, where there is one.
fn lay_one(
    alloc: Global,
    calls: &[List<CallPlace>],
    function: Option<u32>,
    made: &mut List<InstanceInfo>,
) -> Result<(), NoMemory>
    ensures { OnOk result (made.new ≡ with_instance calls.now function made.old) }
{
    match function {
        None => Ok(()),
        Some(function) => {
            let root = root_instance(alloc, function);
            grow(alloc, calls.len(), calls, root, made)
        }
    }
}

fn first_number(init: Option<u32>) -> Option<u32>
    ensures { result ≡ first_number init }
{
    match init {
        None => None,
        Some(_) => Some(0),
    }
}

#[tactic(auto, unfolding(crate::specs::Plans::laid_of))]
pub(crate) fn lay(alloc: Global, plan: &Plan) -> Result<Laid, NoMemory>
    ensures { IfOk result (λ laid. laid ≡ laid_of plan.now) }
{
    let mut instances = List::new(alloc);
    lay_one(alloc, plan.calls.items(), plan.init, &mut instances)?;
    let frame = number(instances.items().len())?;
    lay_one(alloc, plan.calls.items(), Some(plan.root), &mut instances)?;
    Ok(Laid {
        instances,
        init: first_number(plan.init),
        frame,
    })
}
