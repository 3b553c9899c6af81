// The first gap, when all labels were made.
ghost use Rattle.std.specs.Prelude.{◌≡◌, ◌<◌, ℕ, length, slice_get, Some, IfOk, OnOk, IfNone};
ghost use Rattle.wm_images.specs.Labels.{AreShaped};
ghost use Rattle.wm_labels.specs.Live.{AreNoted};
ghost use Rattle.wm_walk.specs.Graphs.{AreDrawn, AreStates};
ghost use Rattle.wm_accept.specs.Entries.{IsClosed};

use crate::entries::{Entry, head_at, state_at, tried};
use std::alloc::Global;
use wm_cert::Gap;
use wm_domain::Domain;
use wm_flow::{Graph, Head};
use wm_gaps::Passed;
use wm_images::Images;
use wm_kept::Kept;
use wm_ops::NoMemory;

/// The gap of an edge of a head whose image passes a bound.
fn gap_of(head: u32, back: bool, passed: Passed) -> Gap {
    Gap {
        head,
        back,
        line: passed.line,
        end: passed.end,
        have: passed.have,
        allowed: passed.allowed,
    }
}

/// The gap of a head by its back edge, behind its entry edge.
fn back_gap<D: Domain, M: Images<D>>(
    alloc: Global,
    images: &M,
    graph: &Graph,
    states: &[D],
    kept: &Kept<D>,
    number: u32,
    live: &mut [bool],
) -> Result<Option<Gap>, NoMemory>
    requires drawn { AreDrawn M.drawn graph.now }
    requires states { AreStates D.shape_of graph.now states.now }
    requires kept { AreShaped D.shape_of graph.now kept.now.1 }
    ensures same { length live.new ≡ length live.old }
    ensures noted { OnOk result (AreNoted M.allowed D.holds D.shape_of graph.now kept.now.1 live.old live.new) }
    ensures closed { IfOk result (λ gap. IfNone gap (IsClosed M.allowed D.holds D.shape_of graph.now states.now kept.now.1 number)) }
{
    let Some(head) = head_at(graph, number) else {
        return Err(NoMemory);
    };
    let Some(state) = state_at(states, number) else {
        return Err(NoMemory);
    };
    match tried(
        alloc, images, graph, kept, head.back, head.node, state, live,
    )? {
        Entry::Unseen => Err(NoMemory),
        Entry::Passes(passed) => Ok(Some(gap_of(number, true, passed))),
        Entry::Held => Ok(None),
    }
}

/// What is known of the entry edge of a head.
fn entry_at(entries: &[Entry], number: u32) -> Entry
    ensures { result ≡ Entry.Held → slice_get entries.now number ≡ Some Entry.Held }
{
    match entries.get(number as usize) {
        None => Entry::Unseen,
        Some(entry) => *entry,
    }
}

/// The gap of a head by its two edges, entry before back.
#[tactic(auto, using(wm_labels::proofs::Noting::noted_none))]
fn gap_at<D: Domain, M: Images<D>>(
    alloc: Global,
    images: &M,
    graph: &Graph,
    states: &[D],
    kept: &Kept<D>,
    number: u32,
    entries: &[Entry],
    live: &mut [bool],
) -> Result<Option<Gap>, NoMemory>
    requires drawn { AreDrawn M.drawn graph.now }
    requires states { AreStates D.shape_of graph.now states.now }
    requires kept { AreShaped D.shape_of graph.now kept.now.1 }
    ensures same { length live.new ≡ length live.old }
    ensures noted { OnOk result (AreNoted M.allowed D.holds D.shape_of graph.now kept.now.1 live.old live.new) }
    ensures entry { IfOk result (λ gap. IfNone gap (slice_get entries.now number ≡ Some Entry.Held)) }
    ensures closed { IfOk result (λ gap. IfNone gap (IsClosed M.allowed D.holds D.shape_of graph.now states.now kept.now.1 number)) }
{
    match entry_at(entries, number) {
        Entry::Unseen => Err(NoMemory),
        Entry::Passes(passed) => Ok(Some(gap_of(number, false, passed))),
        Entry::Held => back_gap(alloc, images, graph, states, kept, number, live),
    }
}

/// The first gap, in the order of the heads.
#[tactic(auto, using(wm_labels::proofs::Noting::noted_none))]
pub(crate) fn first_gap<D: Domain, M: Images<D>>(
    alloc: Global,
    images: &M,
    graph: &Graph,
    states: &[D],
    kept: &Kept<D>,
    entries: &[Entry],
    live: &mut [bool],
) -> Result<Option<Gap>, NoMemory>
    requires drawn { AreDrawn M.drawn graph.now }
    requires states { AreStates D.shape_of graph.now states.now }
    requires kept { AreShaped D.shape_of graph.now kept.now.1 }
    ensures same { length live.new ≡ length live.old }
    ensures noted { OnOk result (AreNoted M.allowed D.holds D.shape_of graph.now kept.now.1 live.old live.new) }
    ensures entries { IfOk result (λ gap. IfNone gap ((k : ℕ) → k < length entries.now → slice_get entries.now k ≡ Some Entry.Held)) }
    ensures closed { IfOk result (λ gap. IfNone gap ((k : ℕ) → k < length entries.now → IsClosed M.allowed D.holds D.shape_of graph.now states.now kept.now.1 k)) }
{
    for place in 0..entries.len() {
        let Ok(number) = u32::try_from(place) else {
            return Err(NoMemory);
        };
        let gap = gap_at(alloc, images, graph, states, kept, number, entries, live)?;
        if gap.is_some() {
            return Ok(gap);
        }
    }
    Ok(None)
}
