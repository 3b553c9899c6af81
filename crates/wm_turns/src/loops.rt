// The turns of loops.
ghost use Rattle.std.specs.Prelude.{◌≡◌, ◌<◌, ℕ, length, slice_index_or, false, Some, None, IfOk};
ghost use Rattle.wm_findings.specs.declared.findings.Turns.{Turns};
ghost use Rattle.wm_findings.specs.declared.findings.Turns.TheVariants.{Never};
ghost use Rattle.wm_turns.specs.Turning.{with_turns, of_loop, of_live, turns_from, turns_of};

use std::alloc::Global;
use wm_findings::Turns;
use wm_flow::{Graph, Head};
use wm_ops::{List, NoMemory};

fn with_turns(turns: Option<u64>, found: Turns) -> Turns
    ensures { result ≡ with_turns turns found }
{
    match turns {
        None => Turns::None,
        Some(more) => match found {
            Turns::Never => Turns::Most(more),
            Turns::None => Turns::None,
            Turns::Most(most) => Turns::Most(most.max(more)),
        },
    }
}

/// One head more of the loop.
fn raise(found: &mut Vec<Turns>, loop_id: u32, turns: Option<u64>)
    ensures same { length found.new.items ≡ length found.old.items }
    ensures each { (k : ℕ) → k < length found.old.items → slice_index_or found.new.items k Never ≡ of_loop (Some loop_id) k turns (slice_index_or found.old.items k Never) }
{
    let place = loop_id as usize;
    if place < found.len() {
        let before = found[place];
        found[place] = with_turns(turns, before);
    }
}

/// One head more, if it is live.
fn raise_at(found: &mut Vec<Turns>, live: bool, loop_id: Option<u32>, turns: Option<u64>)
    ensures same { length found.new.items ≡ length found.old.items }
    ensures each { (k : ℕ) → k < length found.old.items → slice_index_or found.new.items k Never ≡ of_live live loop_id k turns (slice_index_or found.old.items k Never) }
{
    match loop_id {
        None => {}
        Some(loop_id) => {
            if live {
                raise(found, loop_id, turns);
            }
        }
    }
}

/// A mark of a list, or false behind its end.
fn mark_at(marks: &[bool], place: usize) -> bool
    ensures { result ≡ slice_index_or marks.now place false }
{
    if place < marks.len() {
        return marks[place];
    }
    false
}

/// The turns of a head, or none behind the end of the list.
fn turns_at(turns: &[Option<u64>], place: usize) -> Option<u64>
    ensures { result ≡ slice_index_or turns.now place None }
{
    if place < turns.len() {
        return turns[place];
    }
    None
}

fn raise_all(found: &mut Vec<Turns>, turns: &[Option<u64>], live: &[bool], heads: &[Head])
    ensures same { length found.new.items ≡ length found.old.items }
    ensures each { (k : ℕ) → k < length found.old.items → slice_index_or found.new.items k Never ≡ turns_from k turns.now live.now 0 heads.now (slice_index_or found.old.items k Never) }
{
    for number in 0..heads.len() {
        let head = heads[number];
        raise_at(
            found,
            mark_at(live, head.entry as usize),
            head.loop_id,
            turns_at(turns, number),
        );
    }
}

/// So many loops to which no run comes.
fn never(alloc: Global, count: usize) -> Result<Vec<Turns>, NoMemory>
    ensures same { IfOk result (λ found. length found.items ≡ count) }
    ensures each { IfOk result (λ found. (k : ℕ) → k < count → slice_index_or found.items k Never ≡ Never) }
{
    let mut found = Vec::new(alloc);
    for k in 0..count {
        found.push(Turns::Never)?;
    }
    Ok(found)
}

/// The items of a table as a list.
fn listed(alloc: Global, items: &[Turns]) -> Result<List<Turns>, NoMemory>
    ensures { IfOk result (λ list. list ≡ items.now) }
{
    let mut list = List::new(alloc);
    for item in items {
        list.push(*item)?;
    }
    Ok(list)
}

/// For each of so many loops its turns over all heads that are live: `turns` has an entry for each head, `live` for each edge.
pub fn turns_by_loop(
    alloc: Global,
    graph: &Graph,
    loops: usize,
    turns: &[Option<u64>],
    live: &[bool],
) -> Result<List<Turns>, NoMemory>
    ensures one_for_each { IfOk result (λ found. length found ≡ loops) }
    ensures turns { IfOk result (λ found. (k : ℕ) → k < loops → slice_index_or found k Never ≡ turns_of k turns.now live.now graph.now.heads) }
{
    let mut found = never(alloc, loops)?;
    raise_all(&mut found, turns, live, graph.heads.items());
    listed(alloc, found.as_slice())
}
