// How a call begins: what the views of the called function look into, and the cells of its locals.
ghost use Rattle.std.specs.Prelude.{◌≡◌, [], ◌∷◌, ◌++◌, OnOk, IfOk};
ghost use Rattle.wm_program.specs.Code as codes;
ghost use Rattle.wm_program.specs.Execution as execution;
ghost use Rattle.wm_program.specs.Runs.{fresh_cells};
ghost use Rattle.wm_interp.specs.Doing.{entered_on, back_on};
ghost use Rattle.wm_interp.specs.Parts.{passed_in};
ghost use Rattle.wm_interp.specs.Seen.{held_of, here_of, first_cells};

use crate::access::{cells_in, root_of};
use crate::halt::{Flow, Refusal};
use crate::memory::Memory;
use crate::scene::Scene;
use crate::store::Store;
use std::alloc::Global;
use wm_program::{Expr, LocalInfo, Passed, Root, View};

/// What the view parameters of a called function look into.
#[tactic(auto, using(crate::proofs::Calling::roots_value, crate::proofs::Calling::roots_whole, crate::proofs::Calling::roots_from))]
pub(crate) fn roots_in(at: &Scene, arguments: &[Passed<Expr>]) -> Result<Vec<Root>, Refusal>
    ensures { IfOk result (λ roots. roots.items ≡ execution.roots_in (here_of at.now) (passed_in arguments.now)) }
{
    let mut roots = Vec::new(at.alloc);
    for argument in arguments {
        match argument {
            Passed::Value(_) => {}
            Passed::View(View::Whole(array)) => push_root(&mut roots, root_of(at, *array))?,
            Passed::View(View::From { array, .. }) => push_root(&mut roots, root_of(at, *array))?,
        }
    }
    Ok(roots)
}

fn push_root(roots: &mut Vec<Root>, root: Root) -> Result<(), Refusal>
    ensures { OnOk result (roots.new.items ≡ roots.old.items ++ root ∷ []) }
{
    match roots.push(root) {
        Ok(()) => Ok(()),
        Err(_) => Err(Refusal::NoMemory),
    }
}

/// The cells of the locals as a call begins: each parameter has the number of its argument, all others are unset.
#[tactic(auto, using(crate::proofs::Calling::fresh_next, crate::proofs::Calling::fresh_done))]
fn fresh(alloc: Global, locals: &[LocalInfo], args: &[i64]) -> Result<Store, Refusal>
    ensures { IfOk result (λ store. store ≡ fresh_cells locals.now args.now) }
{
    let mut store = Store::new(alloc);
    for (k, local) in locals.iter().enumerate() {
        push_local(&mut store, alloc, local, args.get(k).copied())?;
    }
    Ok(store)
}

/// One more local, with the number of its argument where it has one.
fn push_local(
    store: &mut Store,
    alloc: Global,
    local: &LocalInfo,
    arg: Option<i64>,
) -> Result<(), Refusal>
    ensures { OnOk result (store.new ≡ store.old ++ first_cells local.now arg ∷ []) }
{
    match arg {
        Some(z) => store.push(alloc, 1, Some(z)),
        None => store.push(alloc, cells_in(local.array), None),
    }
}

/// Gives the locals of the scene's instance their first cells.
#[tactic(auto, using(crate::proofs::Routines::routine_there, crate::proofs::Routines::routine_nowhere), unfolding(crate::specs::Doing::entered_on))]
pub(crate) fn enter(
    memory: &mut Memory,
    at: &Scene,
    function: u32,
    args: &[i64],
) -> Result<(), Refusal>
    ensures { OnOk result (held_of memory.new ≡ entered_on (codes.code_of at.now.program.now) function (here_of at.now) args.now (held_of memory.old)) }
{
    let store = match at.program.functions.items().get(function as usize) {
        Some(info) => fresh(at.alloc, info.locals.items(), args)?,
        None => Store::new(at.alloc),
    };
    if at.instance as usize >= memory.locals.len() {
        return Err(Refusal::Unfit);
    }
    memory.locals[at.instance as usize] = store;
    Ok(())
}

/// The number that a body gives back at its call; 0, which nobody reads, where it has no result.
pub(crate) fn back(flow: Flow) -> i64
    ensures { result ≡ back_on flow }
{
    match flow {
        Flow::Next => 0,
        Flow::Broke => 0,
        Flow::Continued => 0,
        Flow::Returned(z) => z,
    }
}
