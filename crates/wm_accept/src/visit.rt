// One node of the walk.
ghost use Rattle.std.specs.Prelude.{◌≡◌, ◌<◌, ◌+◌, length, slice_set, All, IfOk, OnOk};
ghost use Rattle.wm_domain.specs.States.{IsShape};
ghost use Rattle.wm_images.specs.Labels.{AreShaped, Receives};
ghost use Rattle.wm_images.specs.Nodes.{node_shape};
ghost use Rattle.wm_labels.specs.Live.{AreNoted};
ghost use Rattle.wm_walk.specs.Graphs.{AreDrawn, AreStates};
ghost use Rattle.wm_walk.specs.Rows.{AreRows};
ghost use Rattle.wm_accept.specs.Entries.{AreTried};
ghost use Rattle.wm_accept.specs.Live.{AreLive};
ghost use Rattle.wm_accept.specs.Watched.{Watched};

use crate::entries::{Entry, head_at, state_at, tried};
use crate::watcher::Watcher;
use std::alloc::Global;
use wm_domain::Domain;
use wm_flow::{Graph, Head};
use wm_images::Images;
use wm_kept::Kept;
use wm_ops::NoMemory;
use wm_program::Program;
use wm_walk::{Rows, ended_at, give_up_all, head_of, into_at, keep, label_of};

fn set_entry(entries: &mut [Entry], place: usize, entry: Entry)
    ensures { entries.new ≡ slice_set entries.old place entry }
{
    if place < entries.len() {
        entries[place] = entry;
    }
}

/// Tries the entry edge of a head, which stands at the node of the number.
fn try_head<D: Domain, M: Images<D>>(
    alloc: Global,
    images: &M,
    graph: &Graph,
    states: &[D],
    kept: &Kept<D>,
    number: u32,
    entries: &mut [Entry],
    live: &mut [bool],
) -> Result<(), NoMemory>
    requires drawn { AreDrawn M.drawn graph.now }
    requires states { AreStates D.shape_of graph.now states.now }
    requires kept { AreShaped D.shape_of graph.now kept.now.1 }
    ensures same { length live.new ≡ length live.old }
    ensures noted { OnOk result (AreNoted M.allowed D.holds D.shape_of graph.now kept.now.1 live.old live.new) }
    ensures tried { OnOk result (AreTried M.allowed D.holds D.shape_of graph.now states.now kept.now.1 entries.old entries.new) }
{
    let Some(head) = head_at(graph, number) else {
        return Err(NoMemory);
    };
    let Some(state) = state_at(states, number) else {
        return Err(NoMemory);
    };
    let entry = tried(
        alloc, images, graph, kept, head.entry, head.node, state, live,
    )?;
    set_entry(entries, number as usize, entry);
    Ok(())
}

/// Tries the entry edge of the head at a node, where there is one.
#[tactic(auto, using(wm_labels::proofs::Noting::noted_none))]
fn try_entry<D: Domain, M: Images<D>>(
    alloc: Global,
    images: &M,
    graph: &Graph,
    states: &[D],
    kept: &Kept<D>,
    head: Option<u32>,
    entries: &mut [Entry],
    live: &mut [bool],
) -> Result<(), NoMemory>
    requires drawn { AreDrawn M.drawn graph.now }
    requires states { AreStates D.shape_of graph.now states.now }
    requires kept { AreShaped D.shape_of graph.now kept.now.1 }
    ensures same { length live.new ≡ length live.old }
    ensures noted { OnOk result (AreNoted M.allowed D.holds D.shape_of graph.now kept.now.1 live.old live.new) }
    ensures tried { OnOk result (AreTried M.allowed D.holds D.shape_of graph.now states.now kept.now.1 entries.old entries.new) }
{
    match head {
        None => Ok(()),
        Some(number) => try_head(alloc, images, graph, states, kept, number, entries, live),
    }
}

/// Makes the label of a node, shows and keeps it, tries the entry edge of the head at the node, and gives up the labels that no
/// node behind this one needs.
pub(crate) fn visit<D: Domain, M: Images<D>, W: Watcher<D>>(
    alloc: Global,
    images: &M,
    program: &Program,
    graph: &Graph,
    states: &[D],
    rows: &Rows,
    kept: &mut Kept<D>,
    entries: &mut [Entry],
    live: &mut [bool],
    watcher: &mut W,
    node: u32,
) -> Result<(), NoMemory>
    requires inside { node < length graph.now.node_shape }
    requires rows { AreRows graph.now rows.now }
    requires drawn { AreDrawn M.drawn graph.now }
    requires shapes { All IsShape graph.now.shapes }
    requires states { AreStates D.shape_of graph.now states.now }
    requires standing { Watched M.allowed M.started D.holds D.shape_of (λ labels. W.saw program.now graph.now watcher.old labels × AreLive M.allowed D.holds D.shape_of graph.now live.old labels) program.now graph.now states.now kept.old.1 entries.old node }
    requires next { W.next watcher.old node }
    ensures same { length live.new ≡ length live.old }
    ensures standing { OnOk result (Watched M.allowed M.started D.holds D.shape_of (λ labels. W.saw program.now graph.now watcher.new labels × AreLive M.allowed D.holds D.shape_of graph.now live.new labels) program.now graph.now states.now kept.new.1 entries.new (node + 1)) }
    ensures next { OnOk result (W.next watcher.new (node + 1)) }
{
    let head = head_of(rows, node);
    let label = label_of(
        alloc,
        images,
        program,
        graph,
        states,
        kept,
        head,
        into_at(rows, node),
        live,
        node,
    )?;
    watcher.see(alloc, program, graph, node, &label)?;
    keep(kept, node, label)?;
    try_entry(alloc, images, graph, states, kept, head, entries, live)?;
    give_up_all(kept, ended_at(rows, node));
    Ok(())
}
