// The walk over all nodes.
ghost use Rattle.std.specs.Prelude.{◌≡◌, ℕ, [], length, slice_get, Some, false, replicate, All, IfOk, IfNone};
ghost use Rattle.wm_domain.specs.States.{IsShape};
ghost use Rattle.wm_labels.specs.Accepted.{IsAccepted};
ghost use Rattle.wm_walk.specs.Graphs.{AreDrawn, AreStates};
ghost use Rattle.wm_accept.specs.Live.{AreLive};
ghost use Rattle.wm_accept.specs.Watched.{IsWatched};

use crate::entries::Entry;
use crate::gaps::first_gap;
use crate::visit::visit;
use crate::watcher::Watcher;
use std::alloc::Global;
use wm_cert::Gap;
use wm_domain::Domain;
use wm_flow::Graph;
use wm_images::Images;
use wm_kept::Kept;
use wm_ops::NoMemory;
use wm_program::Program;
use wm_walk::rows_of;

/// So many edges that were not looked at.
fn unseen(alloc: Global, count: usize) -> Result<Vec<Entry>, NoMemory>
    ensures { IfOk result (λ list. list.items ≡ replicate count Entry.Unseen) }
{
    let mut list = Vec::new(alloc);
    for k in 0..count {
        list.push(Entry::Unseen)?;
    }
    Ok(list)
}

/// Each edge is one along which a run may go on, as long as its image was not seen to be without a point.
fn mark_all(marks: &mut [bool])
    ensures same { length marks.new ≡ length marks.old }
    ensures all { (k : ℕ) → slice_get marks.new k ≡ Some false → ⊥ }
{
    for place in 0..marks.len() {
        marks[place] = true;
    }
}

/// Walks the nodes in their order with the states of the heads, shows the label of each node, and notes of each edge whether its
/// image has a point. None where the states are accepted; else the first gap, in the order of the heads, entry before back edge,
/// lines in the order of a certificate's text.
///
/// `NoMemory`: memory ran out, or the graph is none of a program.
pub fn walk<D: Domain, M: Images<D>, W: Watcher<D>>(
    alloc: Global,
    images: &M,
    program: &Program,
    graph: &Graph,
    states: &[D],
    live: &mut [bool],
    watcher: &mut W,
) -> Result<Option<Gap>, NoMemory>
    requires drawn { AreDrawn M.drawn graph.now }
    requires shapes { All IsShape graph.now.shapes }
    requires states { AreStates D.shape_of graph.now states.now }
    requires next { W.next watcher.old 0 }
    requires saw { W.saw program.now graph.now watcher.old [] }
    ensures same { length live.new ≡ length live.old }
    ensures accepted { IfOk result (λ gap. IfNone gap (IsAccepted M.allowed M.started D.holds D.shape_of program.now graph.now states.now)) }
    ensures live { IfOk result (λ gap. IfNone gap (IsWatched M.allowed M.started D.holds D.shape_of (λ labels. W.saw program.now graph.now watcher.new labels × AreLive M.allowed D.holds D.shape_of graph.now live.new labels) program.now graph.now states.now)) }
    ensures watched { IfOk result (λ gap. IfNone gap (IsWatched M.allowed M.started D.holds D.shape_of (W.saw program.now graph.now watcher.new) program.now graph.now states.now)) }
{
    mark_all(live);
    let rows = rows_of(alloc, graph)?;
    let Ok(count) = u32::try_from(graph.node_shape.items().len()) else {
        return Err(NoMemory);
    };
    let mut kept = Kept::new(alloc, rows.room)?;
    let mut entries = unseen(alloc, graph.heads.items().len())?;
    for node in 0..count {
        visit(
            alloc,
            images,
            program,
            graph,
            states,
            &rows,
            &mut kept,
            entries.as_mut_slice(),
            live,
            watcher,
            node,
        )?;
    }
    first_gap(
        alloc,
        images,
        graph,
        states,
        &kept,
        entries.as_slice(),
        live,
    )
}
