// The numbers of variables at a node.
ghost use Rattle.std.specs.Prelude.{◌≡◌, suc, IfOk, slice_index_or, []};
ghost use Rattle.wm_flow.specs.Places as places;
ghost use Rattle.wm_flow.specs.Seats as seats;
ghost use Rattle.wm_places.specs.Seen.{plan_of};

use crate::numbers::{next, plus};
use crate::plan::Plan;
use wm_flow::{Bases, Counts, LocalCounts, Scene, Sum, Tables};
use wm_ops::NoMemory;

fn number_at(numbers: &[u32], k: u32) -> u32
    ensures { result ≡ slice_index_or numbers.now k 0 }
{
    match numbers.get(k as usize) {
        Some(number) => *number,
        None => 0,
    }
}

/// The number of the head of a loop in an instance.
pub fn head_of(tables: &Tables, instance: u32, loop_id: u32) -> Result<u32, NoMemory>
    ensures { IfOk result (λ head. head ≡ places.head_of tables.now instance loop_id) }
{
    plus(
        number_at(tables.first_heads.items(), instance),
        number_at(tables.ranks.items(), loop_id),
    )
}

/// The sum counters of the innermost loop, where there is one.
#[tactic(auto, unfolding(crate::specs::Seen::plan_of))]
pub fn sums_in<'p>(
    plan: &Plan<'p>,
    instance: u32,
    inner: Option<u32>,
) -> Result<&'p [Sum], NoMemory>
    ensures { IfOk result (λ sums. sums.now ≡ places.sums_in (plan_of plan.now) instance inner) }
{
    match inner {
        Some(loop_id) => {
            let head = head_of(plan.tables, instance, loop_id)?;
            match plan.sums.get(head as usize) {
                Some(row) => Ok(row.items()),
                None => Ok(&[]),
            }
        }
        None => Ok(&[]),
    }
}

fn counts_in(counts: &[LocalCounts], function: u32) -> LocalCounts
    ensures { result ≡ seats.counts_in counts.now function }
{
    match counts.get(function as usize) {
        Some(counts) => *counts,
        None => LocalCounts {
            scalars: 0,
            arrays: 0,
        },
    }
}

/// How many state scalars stand in the group: at most 8.
pub fn related_states(counts: Counts) -> u32
    ensures { result ≡ places.related_states counts }
{
    counts.states.min(8)
}

pub fn other_states(counts: Counts) -> u32
    ensures { result ≡ places.other_states counts }
{
    counts.states.saturating_sub(8)
}

/// How many scalars of the function stand in the group: at most 12.
pub fn related_scalars(counts: LocalCounts) -> u32
    ensures { result ≡ places.related_scalars counts }
{
    counts.scalars.min(12)
}

pub fn other_scalars(counts: LocalCounts) -> u32
    ensures { result ≡ places.other_scalars counts }
{
    counts.scalars.saturating_sub(12)
}

/// What the numbers of the variables at a node of a scene rest on.
#[tactic(auto, unfolding(crate::specs::Seen::plan_of, wm_flow::specs::Places::bases_of))]
pub fn bases_of(plan: &Plan, scene: Scene) -> Result<Bases, NoMemory>
    ensures { IfOk result (λ bases. bases ≡ places.bases_of (plan_of plan.now) scene) }
{
    let sums = sums_in(plan, scene.instance, scene.inner)?;
    let Ok(count) = u32::try_from(sums.len()) else {
        return Err(NoMemory);
    };
    Ok(Bases {
        counts: plan.tables.counts,
        locals: counts_in(plan.tables.local_counts.items(), scene.function),
        loops: scene.depth,
        sums: count,
    })
}

/// The first counter of a loop.
pub fn first_counter(bases: Bases) -> u32
    ensures { result ≡ places.first_counter bases }
{
    related_states(bases.counts) + related_scalars(bases.locals)
}

/// The counter of the innermost loop.
pub fn counter(bases: Bases) -> Result<u32, NoMemory>
    ensures { IfOk result (λ v. v ≡ places.counter bases) }
{
    plus(first_counter(bases), bases.loops.saturating_sub(1))
}

pub fn first_sum(bases: Bases) -> Result<u32, NoMemory>
    ensures { IfOk result (λ v. v ≡ places.first_sum bases) }
{
    plus(first_counter(bases), bases.loops)
}

/// How many variables the group has.
pub fn group_size(bases: Bases) -> Result<u32, NoMemory>
    ensures { IfOk result (λ size. size ≡ places.group_size bases) }
{
    let first = first_sum(bases)?;
    plus(first, bases.sums)
}

/// A state scalar, by its number among them.
pub fn state_place(bases: Bases, k: u32) -> Result<u32, NoMemory>
    ensures { IfOk result (λ v. v ≡ places.state_place bases k) }
{
    if k < 8 {
        return Ok(k);
    }
    let size = group_size(bases)?;
    plus(size, k.saturating_sub(8))
}

fn first_input(bases: Bases) -> Result<u32, NoMemory>
    ensures { IfOk result (λ v. v ≡ places.first_input bases) }
{
    let size = group_size(bases)?;
    plus(size, other_states(bases.counts))
}

/// An input scalar, by its number among them.
pub fn input_place(bases: Bases, k: u32) -> Result<u32, NoMemory>
    ensures { IfOk result (λ v. v ≡ places.input_place bases k) }
{
    let first = first_input(bases)?;
    plus(first, k)
}

/// The flag `Overflow`.
pub fn overflow_place(bases: Bases) -> Result<u32, NoMemory>
    ensures { IfOk result (λ v. v ≡ places.overflow_place bases) }
{
    let first = first_input(bases)?;
    plus(first, bases.counts.inputs)
}

fn behind_overflow(bases: Bases) -> Result<u32, NoMemory>
    ensures { IfOk result (λ v. v ≡ suc (places.overflow_place bases)) }
{
    let overflow = overflow_place(bases)?;
    next(overflow)
}

/// A scalar of the function, by its number among them.
pub fn scalar_place(bases: Bases, k: u32) -> Result<u32, NoMemory>
    ensures { IfOk result (λ v. v ≡ places.scalar_place bases k) }
{
    if k < 12 {
        return plus(related_states(bases.counts), k);
    }
    let first = behind_overflow(bases)?;
    plus(first, k.saturating_sub(12))
}

pub fn first_temporary(bases: Bases) -> Result<u32, NoMemory>
    ensures { IfOk result (λ v. v ≡ places.first_temporary bases) }
{
    let first = behind_overflow(bases)?;
    plus(first, other_scalars(bases.locals))
}

/// A temporary, by its number.
pub fn temporary(bases: Bases, k: u32) -> Result<u32, NoMemory>
    ensures { IfOk result (λ v. v ≡ places.temporary bases k) }
{
    let first = first_temporary(bases)?;
    plus(first, k)
}
