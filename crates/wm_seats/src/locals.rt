// The locals of the functions.
ghost use Rattle.std.specs.Prelude.{◌≡◌, IfOk};
ghost use Rattle.wm_flow.specs.Seats as seats;
ghost use Rattle.wm_seats.specs.Locals.{all_seats_in, all_counts_in};

use crate::objects::next;
use std::alloc::Global;
use wm_flow::{LocalCounts, LocalSeat};
use wm_ops::{List, NoMemory};
use wm_program::{FunctionInfo, LocalInfo};

fn is_array(local: &LocalInfo) -> bool
    ensures { result ≡ seats.is_array local.now }
{
    if local.addressed {
        return true;
    }
    match local.array {
        Some(_) => true,
        None => false,
    }
}

#[tactic(auto, unfolding(wm_flow::specs::Seats::local_seat_of))]
fn local_seat_of(before: LocalCounts, local: &LocalInfo) -> LocalSeat
    ensures { result ≡ seats.local_seat_of before local.now }
{
    if is_array(local) {
        return LocalSeat::Array(before.arrays);
    }
    LocalSeat::Scalar(before.scalars)
}

fn counting(before: LocalCounts, seat: LocalSeat) -> Result<LocalCounts, NoMemory>
    ensures { IfOk result (λ counts. counts ≡ seats.counting_local_seat before seat) }
{
    match seat {
        LocalSeat::Scalar(_) => Ok(LocalCounts {
            scalars: next(before.scalars)?,
            ..before
        }),
        LocalSeat::Array(_) => Ok(LocalCounts {
            arrays: next(before.arrays)?,
            ..before
        }),
    }
}

fn no_counts() -> LocalCounts
    ensures { result ≡ seats.no_local_counts }
{
    LocalCounts {
        scalars: 0,
        arrays: 0,
    }
}

/// What each local of a function is in a state.
fn local_seats(alloc: Global, locals: &[LocalInfo]) -> Result<List<LocalSeat>, NoMemory>
    ensures { IfOk result (λ list. list ≡ seats.local_seats_from seats.no_local_counts locals.now) }
{
    let mut list = List::new(alloc);
    let mut counts = no_counts();
    for local in locals {
        let seat = local_seat_of(counts, local);
        list.push(seat)?;
        counts = counting(counts, seat)?;
    }
    Ok(list)
}

fn local_counts(locals: &[LocalInfo]) -> Result<LocalCounts, NoMemory>
    ensures { IfOk result (λ counts. counts ≡ seats.local_counts_from seats.no_local_counts locals.now) }
{
    let mut counts = no_counts();
    for local in locals {
        counts = counting(counts, local_seat_of(counts, local))?;
    }
    Ok(counts)
}

/// What the locals of each function are.
pub(crate) fn all_seats(
    alloc: Global,
    functions: &[FunctionInfo],
) -> Result<List<List<LocalSeat>>, NoMemory>
    ensures { IfOk result (λ list. list ≡ all_seats_in functions.now) }
{
    let mut list = List::new(alloc);
    for function in functions {
        list.push(local_seats(alloc, function.locals.items())?)?;
    }
    Ok(list)
}

/// How many locals of each kind each function has.
pub(crate) fn all_counts(
    alloc: Global,
    functions: &[FunctionInfo],
) -> Result<List<LocalCounts>, NoMemory>
    ensures { IfOk result (λ list. list ≡ all_counts_in functions.now) }
{
    let mut list = List::new(alloc);
    for function in functions {
        list.push(local_counts(function.locals.items())?)?;
    }
    Ok(list)
}
