// What the objects begin with.
ghost use Rattle.std.specs.Prelude.{◌≡◌, ◌≢◌, ◌<◌, ℕ, pos, slice_index_or, IfOk, OnOk};
ghost use Rattle.wm_domain.specs.Points.{Point};
ghost use Rattle.wm_carry.specs.Following.{IsApart};
ghost use Rattle.wm_flow.specs.Seats as seats;
ghost use Rattle.wm_flow.specs.Places as places;
ghost use Rattle.wm_started.specs.Starting as starting;
ghost use Rattle.wm_started.specs.Starting.{NumberAt, CellBegins, CellsAt, IsOther, AllNumbers, AllCells, IsAutomatic};
ghost use Rattle.wm_started.specs.Filling.{targets_of, AreBelow, AreHeld, AreCells};

use std::alloc::Global;
use wm_flow::{Bases, Given, Seat};
use wm_interval::Interval;
use wm_ops::NoMemory;
use wm_places::{input_place, state_place};
use wm_program::ObjectInfo;
use wm_seats::{high_of, low_of};

/// Where the first node has its variables, and whether inputs are among them.
#[derive(Clone, Copy)]
pub(crate) struct Start {
    pub bases: Bases,
    pub inputs: bool,
}

// the number that a scalar begins with
fn first_number(object: &ObjectInfo) -> i64
    ensures { result ≡ starting.first_number object.now }
{
    match object.initial.items().first() {
        Some(z) => *z,
        None => 0,
    }
}

// the number alone
fn only(z: i64) -> Interval
    ensures low { result.low ≡ z }
    ensures high { result.high ≡ z }
{
    Interval::new(z, z)
}

// the variable of an input, where there is one
fn input_at(start: Start, k: u32) -> Result<Option<u32>, NoMemory>
    ensures { IfOk result (λ v. v ≡ starting.input_variable start.inputs (places.input_place start.bases k)) }
{
    if start.inputs {
        let v = input_place(start.bases, k)?;
        return Ok(Some(v));
    }
    Ok(None)
}

// the variable of an object, where there is one
fn variable_of(start: Start, seat: Seat) -> Result<Option<u32>, NoMemory>
    ensures { IfOk result (λ v. v ≡ starting.variable_of start.bases start.inputs seat) }
{
    match seat {
        Seat::State(k) => {
            let v = state_place(start.bases, k)?;
            Ok(Some(v))
        }
        Seat::Input(k) => input_at(start, k),
        Seat::Array(_) => Ok(None),
        Seat::Constant { .. } => Ok(None),
    }
}

// puts a number to a variable
#[tactic(auto, using(crate::proofs::Putting::held_more, crate::proofs::Putting::below_more))]
fn put_number(given: &mut Vec<Given>, target: u32, z: i64) -> Result<(), NoMemory>
    ensures sound { OnOk result ((p : Point) → p.values target ≡ z → AreHeld given.old.items p → AreHeld given.new.items p) }
    ensures inside { OnOk result ((count : ℕ) → target < count → AreBelow count given.old.items → AreBelow count given.new.items) }
{
    given.push(Given {
        target,
        range: only(z),
    })?;
    Ok(())
}

// the same, where there is such a variable
fn put(given: &mut Vec<Given>, count: usize, v: Option<u32>, z: i64) -> Result<(), NoMemory>
    ensures sound { OnOk result ((p : Point) → NumberAt v z p → AreHeld given.old.items p → AreHeld given.new.items p) }
    ensures inside { OnOk result (AreBelow count given.old.items → AreBelow count given.new.items) }
{
    match v {
        None => Ok(()),
        Some(target) => {
            if target as usize >= count {
                return Ok(());
            }
            put_number(given, target, z)
        }
    }
}

// puts the numbers of the scalars among some objects
#[tactic(auto, using(crate::proofs::Putting::numbers_parts))]
fn put_scalars(
    given: &mut Vec<Given>,
    start: Start,
    count: usize,
    seats: &[Seat],
    objects: &[ObjectInfo],
) -> Result<(), NoMemory>
    ensures sound { OnOk result ((p : Point) → AllNumbers start.bases start.inputs seats.now objects.now p → AreHeld given.old.items p → AreHeld given.new.items p) }
    ensures inside { OnOk result (AreBelow count given.old.items → AreBelow count given.new.items) }
{
    match objects.split_first() {
        None => Ok(()),
        Some((object, more)) => match seats.split_first() {
            None => Ok(()),
            Some((seat, rest)) => {
                let v = variable_of(start, *seat)?;
                put(given, count, v, first_number(object))?;
                put_scalars(given, start, count, rest, more)
            }
        },
    }
}

/// The numbers that the scalars begin with, as far as they are among so many variables. `NoMemory`: memory ran out.
pub(crate) fn scalars_of(
    alloc: Global,
    start: Start,
    count: usize,
    seats: &[Seat],
    objects: &[ObjectInfo],
) -> Result<Vec<Given>, NoMemory>
    ensures sound { IfOk result (λ given. (p : Point) → AllNumbers start.bases start.inputs seats.now objects.now p → AreHeld given.items p) }
    ensures inside { IfOk result (λ given. AreBelow count given.items) }
{
    let mut given = Vec::new(alloc);
    put_scalars(&mut given, start, count, seats, objects)?;
    Ok(given)
}

// the first cells of an array
#[tactic(auto, using(crate::proofs::Bounds::in_order))]
fn cells_range(object: &ObjectInfo) -> Interval
    ensures low { result.low ≡ seats.low_of object.now.length object.now.initial }
    ensures high { result.high ≡ seats.high_of object.now.length object.now.initial }
{
    let low = low_of(object.length, object.initial.items());
    let high = high_of(object.length, object.initial.items());
    Interval::new(low, high)
}

// puts the first cells of an array
#[tactic(auto, using(crate::proofs::Putting::cells_more, crate::proofs::Putting::below_more, crate::proofs::Putting::apart_less))]
fn put_cells(given: &mut Vec<Given>, array: u32, object: &ObjectInfo) -> Result<(), NoMemory>
    ensures sound { OnOk result ((p : Point) → CellBegins object.now (p.cells array) → AreCells given.old.items p → AreCells given.new.items p) }
    ensures inside { OnOk result ((count : ℕ) → array < count → AreBelow count given.old.items → AreBelow count given.new.items) }
    ensures left { OnOk result ((a : ℕ) → IsApart (targets_of given.new.items) a → (a ≢ array) × IsApart (targets_of given.old.items) a) }
{
    given.push(Given {
        target: array,
        range: cells_range(object),
    })?;
    Ok(())
}

// the array of an object
fn array_of(seat: Seat) -> Option<u32>
    ensures { result ≡ starting.array_of seat }
{
    match seat {
        Seat::State(_) => None,
        Seat::Input(_) => None,
        Seat::Array(k) => Some(k),
        Seat::Constant { .. } => None,
    }
}

// puts the first cells of an object, where it is such an array
fn put_object(
    given: &mut Vec<Given>,
    count: usize,
    array: Option<u32>,
    object: &ObjectInfo,
) -> Result<(), NoMemory>
    ensures sound { OnOk result ((p : Point) → CellsAt array object.now p → AreCells given.old.items p → AreCells given.new.items p) }
    ensures inside { OnOk result (AreBelow count given.old.items → AreBelow count given.new.items) }
    ensures left { OnOk result ((a : ℕ) → a < count → IsApart (targets_of given.new.items) a → IsOther a array × IsApart (targets_of given.old.items) a) }
{
    match array {
        None => Ok(()),
        Some(place) => {
            if place as usize >= count {
                return Ok(());
            }
            put_cells(given, place, object)
        }
    }
}

// puts the first cells of the arrays among some objects
#[tactic(auto, using(crate::proofs::Putting::cells_parts, crate::proofs::Putting::automatic_more, crate::proofs::Putting::no_seats, crate::proofs::Putting::no_objects))]
fn put_arrays(
    given: &mut Vec<Given>,
    count: usize,
    seats: &[Seat],
    objects: &[ObjectInfo],
) -> Result<(), NoMemory>
    ensures sound { OnOk result ((p : Point) → AllCells seats.now objects.now p → AreCells given.old.items p → AreCells given.new.items p) }
    ensures inside { OnOk result (AreBelow count given.old.items → AreBelow count given.new.items) }
    ensures left { OnOk result ((a : ℕ) → a < count → IsApart (targets_of given.new.items) a → IsAutomatic a seats.now objects.now × IsApart (targets_of given.old.items) a) }
{
    match objects.split_first() {
        None => Ok(()),
        Some((object, more)) => match seats.split_first() {
            None => Ok(()),
            Some((seat, rest)) => {
                put_object(given, count, array_of(*seat), object)?;
                put_arrays(given, count, rest, more)
            }
        },
    }
}

/// The least and the greatest of the first cells of the arrays, as far as they are among so many. `NoMemory`: memory ran out.
pub(crate) fn arrays_of(
    alloc: Global,
    count: usize,
    seats: &[Seat],
    objects: &[ObjectInfo],
) -> Result<Vec<Given>, NoMemory>
    ensures sound { IfOk result (λ given. (p : Point) → AllCells seats.now objects.now p → AreCells given.items p) }
    ensures inside { IfOk result (λ given. AreBelow count given.items) }
    ensures left { IfOk result (λ given. (a : ℕ) → a < count → IsApart (targets_of given.items) a → IsAutomatic a seats.now objects.now) }
{
    let mut given = Vec::new(alloc);
    put_arrays(&mut given, count, seats, objects)?;
    Ok(given)
}
