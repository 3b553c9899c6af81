// Heads that end and begin.
ghost use Rattle.std.specs.Prelude.{◌≡◌, IfOk};
ghost use Rattle.wm_cert_read.specs.Steps.{state_with, heads_of, begun, lacks_sums, may_begin, with_head, after, may_end};

use crate::reading::Reading;
use crate::steps::{is_loop, owes_sum, with_array, with_bound, with_empty, with_pair, with_sum};
use std::alloc::Global;
use wm_cert_lines::Item;
use wm_cert_text::{Cells, Ends, Head, HeadName, Pair, State};
use wm_ops::{List, NoMemory};

fn state_with(
    empty: bool,
    bounds: List<Ends>,
    pairs: List<Pair>,
    arrays: List<Cells>,
) -> Option<State>
    ensures { result ≡ state_with empty bounds pairs arrays }
{
    if empty {
        return None;
    }
    Some(State {
        bounds,
        pairs,
        arrays,
    })
}

/// The heads with the one that has been read.
#[tactic(auto, unfolding(crate::specs::Steps::heads_of))]
pub fn heads_of(reading: Reading) -> Result<List<Head>, NoMemory>
    ensures { IfOk result (λ heads. heads ≡ heads_of reading) }
{
    let mut heads = reading.heads;
    let state = state_with(reading.empty, reading.bounds, reading.pairs, reading.arrays);
    heads.push(Head {
        name: reading.name,
        sums: reading.sums,
        state,
    })?;
    Ok(heads)
}

#[tactic(auto, unfolding(crate::specs::Steps::begun))]
pub fn begun(
    alloc: Global,
    pairs_allowed: bool,
    second: bool,
    last: u32,
    has_sums: bool,
    heads: List<Head>,
    name: HeadName,
) -> Reading
    ensures { result ≡ begun pairs_allowed second last has_sums heads name }
{
    Reading {
        pairs_allowed,
        second,
        last,
        has_sums,
        heads,
        name,
        sums: List::new(alloc),
        empty: false,
        bounds: List::new(alloc),
        pairs: List::new(alloc),
        arrays: List::new(alloc),
    }
}

/// Whether the head is the frame's and the last one of a text that has no sum counter so far and needs one.
#[tactic(auto, unfolding(crate::specs::Steps::lacks_sums))]
pub fn lacks_sums(second: bool, last: u32, has_sums: bool, head: u32, name: HeadName) -> bool
    ensures { result ≡ lacks_sums second last has_sums head name }
{
    if !second {
        return false;
    }
    if has_sums {
        return false;
    }
    if is_loop(name) {
        return false;
    }
    head == last
}

#[tactic(auto, unfolding(crate::specs::Steps::may_begin))]
fn may_begin(r: &Reading, head: u32, name: HeadName) -> bool
    ensures { result ≡ may_begin r.now head name }
{
    if owes_sum(r) {
        return false;
    }
    if head as usize != r.heads.items().len() + 1 {
        return false;
    }
    if r.last < head {
        return false;
    }
    !lacks_sums(r.second, r.last, r.has_sums, head, name)
}

fn begin(alloc: Global, reading: Reading, name: HeadName) -> Result<Reading, NoMemory>
    ensures { IfOk result (λ r. r ≡ begun reading.pairs_allowed reading.second reading.last reading.has_sums (heads_of reading) name) }
{
    let pairs_allowed = reading.pairs_allowed;
    let second = reading.second;
    let last = reading.last;
    let has_sums = reading.has_sums;
    let heads = heads_of(reading)?;
    Ok(begun(alloc, pairs_allowed, second, last, has_sums, heads, name))
}

fn with_head(
    alloc: Global,
    reading: Reading,
    head: u32,
    name: HeadName,
) -> Result<Option<Reading>, NoMemory>
    ensures { IfOk result (λ r. r ≡ with_head reading head name) }
{
    if may_begin(&reading, head, name) {
        return Ok(Some(begin(alloc, reading, name)?));
    }
    Ok(None)
}

/// What has been read after one more line.
pub fn after(alloc: Global, reading: Reading, item: Item) -> Result<Option<Reading>, NoMemory>
    ensures { IfOk result (λ r. r ≡ after reading item) }
{
    match item {
        Item::Version { .. } => Ok(None),
        Item::Heads { .. } => Ok(None),
        Item::Head { head, name } => with_head(alloc, reading, head, name),
        Item::Sum(sum) => with_sum(reading, sum),
        Item::Empty => Ok(with_empty(reading)),
        Item::Bound { variable, ends } => with_bound(reading, variable, ends),
        Item::Pair(pair) => with_pair(reading, pair),
        Item::Array { array, held } => with_array(reading, array, held),
        Item::End => Ok(None),
    }
}

/// Whether the text may end.
#[tactic(auto, unfolding(crate::specs::Steps::may_end))]
pub fn may_end(r: &Reading) -> bool
    ensures { result ≡ may_end r.now }
{
    if owes_sum(r) {
        return false;
    }
    r.heads.items().len() == r.last as usize
}
