// Calls and returns: what they name beside the groups, and their actions between slim nodes.
use crate::apart::Passed;
use crate::lists::{place_of, sorted};
use crate::renaming::{Renaming, Side};
use std::alloc::Global;
use wm_flow::{Action, Argument, Returned};
use wm_ops::{List, NoMemory};

/// How many variables the group of a node has, how many singles and how many arrays.
#[derive(Clone, Copy)]
pub(crate) struct Counts {
    pub group: u32,
    pub singles: u32,
    pub arrays: u32,
}

/// The nodes of a call or of a return.
#[derive(Clone, Copy)]
pub(crate) struct Ends {
    pub source: Counts,
    pub target: Counts,
    /// The node of the call that ends.
    pub call: Counts,
}

/// What a call or a return names: the ranks of singles at the nodes, the arrays, and the singles that are handed on from the call.
#[derive(Drop)]
pub(crate) struct CallNames {
    pub sources: List<u32>,
    pub targets: List<u32>,
    pub calls: List<u32>,
    pub source_arrays: List<u32>,
    pub target_arrays: List<u32>,
    pub passed: List<Passed>,
}

/// The same while it is put together, in any order.
#[derive(Drop)]
struct Found {
    sources: Vec<u32>,
    targets: Vec<u32>,
    calls: Vec<u32>,
}

fn nothing(alloc: Global) -> Found {
    Found {
        sources: Vec::new(alloc),
        targets: Vec::new(alloc),
        calls: Vec::new(alloc),
    }
}

/// Names a variable, if it is one behind the group.
fn name(ranks: &mut Vec<u32>, group: u32, variable: u32) -> Result<(), NoMemory> {
    if variable >= group {
        ranks.push(variable - group)?;
    }
    Ok(())
}

fn name_pick(ranks: &mut Vec<u32>, group: u32, pick: Option<u32>) -> Result<(), NoMemory> {
    match pick {
        None => Ok(()),
        Some(variable) => name(ranks, group, variable),
    }
}

fn pick_at(picks: &[Option<u32>], place: u32) -> Option<u32> {
    match picks.get(place as usize) {
        None => None,
        Some(pick) => *pick,
    }
}

/// The pick of a single.
fn single_at(picks: &[Option<u32>], group: u32, rank: u32) -> Option<u32> {
    pick_at(picks, group.saturating_add(rank))
}

/// Whether the single of a rank is the source's of the same rank, or is new.
fn is_by_place(ends: Ends, pick: Option<u32>, rank: u32) -> bool {
    match pick {
        None => rank >= ends.source.singles,
        Some(variable) => variable >= ends.source.group && variable - ends.source.group == rank,
    }
}

/// The singles that the group picks.
fn name_group(
    ranks: &mut Vec<u32>,
    picks: &[Option<u32>],
    count: u32,
    group: u32,
) -> Result<(), NoMemory> {
    for k in 0..count {
        name_pick(ranks, group, pick_at(picks, k))?;
    }
    Ok(())
}

/// What the named targets pick is named too.
fn name_picked(
    ranks: &mut Vec<u32>,
    targets: &[u32],
    picks: &[Option<u32>],
    at: u32,
    group: u32,
) -> Result<(), NoMemory> {
    for rank in targets {
        name_pick(ranks, group, single_at(picks, at, *rank))?;
    }
    Ok(())
}

/// Where a named single stands at its place behind the edge, it is named there too.
fn name_behind(
    targets: &mut Vec<u32>,
    sources: &[u32],
    ends: Ends,
    picks: &[Option<u32>],
) -> Result<(), NoMemory> {
    for rank in sources {
        let pick = single_at(picks, ends.target.group, *rank);
        if *rank < ends.target.singles && pick == Some(ends.source.group.saturating_add(*rank)) {
            targets.push(*rank)?;
        }
    }
    Ok(())
}

/// The arrays behind the edge that are not those of the same place before it, nor new.
fn moved_arrays(alloc: Global, ends: Ends, picks: &[Option<u32>]) -> Result<List<u32>, NoMemory> {
    let mut list = List::new(alloc);
    for a in 0..ends.target.arrays {
        let stays = match pick_at(picks, a) {
            None => a >= ends.source.arrays,
            Some(from) => from == a,
        };
        if !stays {
            list.push(a)?;
        }
    }
    Ok(list)
}

fn arrays_from(
    alloc: Global,
    targets: &[u32],
    picks: &[Option<u32>],
) -> Result<List<u32>, NoMemory> {
    let mut found = Vec::new(alloc);
    for a in targets {
        match pick_at(picks, *a) {
            None => {}
            Some(from) => found.push(from)?,
        }
    }
    sorted(alloc, found)
}

fn name_arguments(found: &mut Found, ends: Ends, arguments: &[Argument]) -> Result<(), NoMemory> {
    for argument in arguments {
        name(&mut found.targets, ends.target.group, argument.parameter)?;
        for term in argument.form.terms.items() {
            name(&mut found.sources, ends.source.group, term.variable)?;
        }
    }
    Ok(())
}

/// The singles of the target that a call does not find at their places.
fn name_moved(found: &mut Found, ends: Ends, picks: &[Option<u32>]) -> Result<(), NoMemory> {
    for rank in 0..ends.target.singles {
        let pick = single_at(picks, ends.target.group, rank);
        if !is_by_place(ends, pick, rank) {
            found.targets.push(rank)?;
        }
    }
    Ok(())
}

/// What a call names.
pub(crate) fn entered(
    alloc: Global,
    ends: Ends,
    picks: &[Option<u32>],
    arrays: &[Option<u32>],
    arguments: &[Argument],
) -> Result<CallNames, NoMemory> {
    let mut found = nothing(alloc);
    name_arguments(&mut found, ends, arguments)?;
    name_group(
        &mut found.sources,
        picks,
        ends.target.group,
        ends.source.group,
    )?;
    name_moved(&mut found, ends, picks)?;
    let Found {
        mut sources,
        mut targets,
        calls,
    } = found;
    name_picked(
        &mut sources,
        targets.as_slice(),
        picks,
        ends.target.group,
        ends.source.group,
    )?;
    let sources = sorted(alloc, sources)?;
    name_behind(&mut targets, sources.items(), ends, picks)?;
    let target_arrays = moved_arrays(alloc, ends, arrays)?;
    Ok(CallNames {
        sources,
        targets: sorted(alloc, targets)?,
        calls: sorted(alloc, calls)?,
        source_arrays: arrays_from(alloc, target_arrays.items(), arrays)?,
        target_arrays,
        passed: List::new(alloc),
    })
}

fn name_result(found: &mut Found, ends: Ends, given: Option<Returned>) -> Result<(), NoMemory> {
    match given {
        None => Ok(()),
        Some(result) => {
            name(&mut found.sources, ends.source.group, result.at_exit)?;
            name(&mut found.targets, ends.target.group, result.target)
        }
    }
}

/// The single of the call's node that is handed on as it is.
fn handed_on(ends: Ends, from_call: Option<u32>, from_exit: Option<u32>) -> Option<u32> {
    if from_exit != None {
        return None;
    }
    match from_call {
        None => None,
        Some(variable) => {
            if variable < ends.call.group {
                return None;
            }
            Some(variable - ends.call.group)
        }
    }
}

/// The singles that a return does not find at their places, nor at the call.
fn name_returned(
    found: &mut Found,
    ends: Ends,
    from_call: &[Option<u32>],
    from_exit: &[Option<u32>],
) -> Result<(), NoMemory> {
    for rank in 0..ends.target.singles {
        let call = single_at(from_call, ends.target.group, rank);
        let exit = single_at(from_exit, ends.target.group, rank);
        let stays = call == None && is_by_place(ends, exit, rank);
        if !stays && handed_on(ends, call, exit) == None {
            found.targets.push(rank)?;
        }
    }
    Ok(())
}

/// The singles that are handed on from the call and are not named.
fn passed(
    alloc: Global,
    ends: Ends,
    targets: &[u32],
    from_call: &[Option<u32>],
    from_exit: &[Option<u32>],
) -> Result<List<Passed>, NoMemory> {
    let mut list = List::new(alloc);
    for rank in 0..ends.target.singles {
        let call = single_at(from_call, ends.target.group, rank);
        let exit = single_at(from_exit, ends.target.group, rank);
        match handed_on(ends, call, exit) {
            None => {}
            Some(from) => {
                if place_of(targets, rank) == None {
                    list.push(Passed { to: rank, from })?;
                }
            }
        }
    }
    Ok(list)
}

/// What a return names.
pub(crate) fn returned(
    alloc: Global,
    ends: Ends,
    from_call: &[Option<u32>],
    from_exit: &[Option<u32>],
    arrays: &[Option<u32>],
    given: Option<Returned>,
) -> Result<CallNames, NoMemory> {
    let count = ends.target.group;
    let mut found = nothing(alloc);
    name_result(&mut found, ends, given)?;
    name_group(&mut found.sources, from_exit, count, ends.source.group)?;
    name_group(&mut found.calls, from_call, count, ends.call.group)?;
    name_returned(&mut found, ends, from_call, from_exit)?;
    let Found {
        mut sources,
        mut targets,
        mut calls,
    } = found;
    let own = ends.source.group;
    name_picked(&mut sources, targets.as_slice(), from_exit, count, own)?;
    let sources = sorted(alloc, sources)?;
    name_behind(&mut targets, sources.items(), ends, from_exit)?;
    let targets = sorted(alloc, targets)?;
    let group = ends.call.group;
    name_picked(&mut calls, targets.items(), from_call, count, group)?;
    let target_arrays = moved_arrays(alloc, ends, arrays)?;
    Ok(CallNames {
        passed: passed(alloc, ends, targets.items(), from_call, from_exit)?,
        sources,
        targets,
        calls: sorted(alloc, calls)?,
        source_arrays: arrays_from(alloc, target_arrays.items(), arrays)?,
        target_arrays,
    })
}

/// The picks of a slim node: those of the group, and those of its singles.
fn slim_picks(
    alloc: Global,
    to: &Side,
    from: &Side,
    picks: &[Option<u32>],
) -> Result<List<Option<u32>>, NoMemory> {
    let mut list = List::new(alloc);
    for k in 0..to.group {
        list.push(from.picked(pick_at(picks, k)))?;
    }
    for rank in to.singles {
        list.push(from.picked(single_at(picks, to.group, *rank)))?;
    }
    Ok(list)
}

fn slim_array_picks(
    alloc: Global,
    to: &Side,
    from: &Side,
    picks: &[Option<u32>],
) -> Result<List<Option<u32>>, NoMemory> {
    let mut list = List::new(alloc);
    for a in to.arrays {
        list.push(from.picked_array(pick_at(picks, *a)))?;
    }
    Ok(list)
}

/// A call between slim nodes.
pub(crate) fn slim_enter(
    to: &Renaming,
    picks: &[Option<u32>],
    arrays: &[Option<u32>],
    arguments: &[Argument],
) -> Result<Action, NoMemory> {
    let alloc = to.alloc;
    let mut list = List::new(alloc);
    for argument in arguments {
        list.push(Argument {
            parameter: to.target.variable(argument.parameter),
            form: to.source.form(alloc, &argument.form)?,
        })?;
    }
    Ok(Action::Enter {
        picks: slim_picks(alloc, &to.target, &to.source, picks)?,
        arrays: slim_array_picks(alloc, &to.target, &to.source, arrays)?,
        arguments: list,
    })
}

fn slim_result(to: &Renaming, given: Option<Returned>) -> Option<Returned> {
    match given {
        None => None,
        Some(result) => Some(Returned {
            at_exit: to.source.variable(result.at_exit),
            target: to.target.variable(result.target),
        }),
    }
}

/// A return between slim nodes, to which the slim node of the call has this number.
pub(crate) fn slim_leave(
    to: &Renaming,
    call: &Side,
    node: u32,
    from_call: &[Option<u32>],
    from_exit: &[Option<u32>],
    arrays: &[Option<u32>],
    given: Option<Returned>,
) -> Result<Action, NoMemory> {
    let alloc = to.alloc;
    Ok(Action::Leave {
        call: node,
        from_call: slim_picks(alloc, &to.target, call, from_call)?,
        from_exit: slim_picks(alloc, &to.target, &to.source, from_exit)?,
        arrays: slim_array_picks(alloc, &to.target, &to.source, arrays)?,
        result: slim_result(to, given),
    })
}
