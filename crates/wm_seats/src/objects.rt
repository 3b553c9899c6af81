// Objects of static storage.
ghost use Rattle.std.specs.Prelude.{◌≡◌, suc, IfOk};
ghost use Rattle.wm_flow.specs.Seats as seats;

use crate::values::{high_of, low_of};
use std::alloc::Global;
use wm_flow::{Counts, Seat};
use wm_ops::{List, NoMemory};
use wm_program::ObjectInfo;

/// One more.
pub(crate) fn next(n: u32) -> Result<u32, NoMemory>
    ensures { IfOk result (λ more. more ≡ suc n) }
{
    match n.checked_add(1) {
        Some(more) => Ok(more),
        None => Err(NoMemory),
    }
}

fn is_stored(object: &ObjectInfo) -> bool
    ensures { result ≡ seats.is_stored object.now }
{
    if object.scalar {
        return object.addressed;
    }
    true
}

#[tactic(auto, unfolding(wm_flow::specs::Seats::seat_of))]
fn seat_of(before: Counts, object: &ObjectInfo) -> Seat
    ensures { result ≡ seats.seat_of before object.now }
{
    if object.constant {
        return Seat::Constant {
            low: low_of(object.length, object.initial.items()),
            high: high_of(object.length, object.initial.items()),
        };
    }
    if is_stored(object) {
        return Seat::Array(before.arrays);
    }
    if object.input {
        return Seat::Input(before.inputs);
    }
    Seat::State(before.states)
}

fn counting(before: Counts, seat: Seat) -> Result<Counts, NoMemory>
    ensures { IfOk result (λ counts. counts ≡ seats.counting_seat before seat) }
{
    match seat {
        Seat::State(_) => Ok(Counts {
            states: next(before.states)?,
            ..before
        }),
        Seat::Input(_) => Ok(Counts {
            inputs: next(before.inputs)?,
            ..before
        }),
        Seat::Array(_) => Ok(Counts {
            arrays: next(before.arrays)?,
            ..before
        }),
        Seat::Constant { .. } => Ok(before),
    }
}

fn no_counts() -> Counts
    ensures { result ≡ seats.no_counts }
{
    Counts {
        states: 0,
        inputs: 0,
        arrays: 0,
    }
}

/// What each object is in a state.
pub(crate) fn object_seats(alloc: Global, objects: &[ObjectInfo]) -> Result<List<Seat>, NoMemory>
    ensures { IfOk result (λ list. list ≡ seats.seats_from seats.no_counts objects.now) }
{
    let mut list = List::new(alloc);
    let mut counts = no_counts();
    for object in objects {
        let seat = seat_of(counts, object);
        list.push(seat)?;
        counts = counting(counts, seat)?;
    }
    Ok(list)
}

/// How many there are of each kind.
pub(crate) fn object_counts(objects: &[ObjectInfo]) -> Result<Counts, NoMemory>
    ensures { IfOk result (λ counts. counts ≡ seats.counts_from seats.no_counts objects.now) }
{
    let mut counts = no_counts();
    for object in objects {
        counts = counting(counts, seat_of(counts, object))?;
    }
    Ok(counts)
}
