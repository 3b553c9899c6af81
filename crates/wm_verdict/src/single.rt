// The verdict of one site.
ghost use Rattle.std.specs.Prelude.{ℕ, ◌≡◌, Some, slice_get};
ghost use Rattle.wm_verdict.specs.Places.{FitsNode};

use crate::edges::{edge_seen, instance_at};
use std::alloc::Global;
use wm_domain::Domain;
use wm_findings::Verdict;
use wm_flow::{Edge, Graph};
use wm_ops::NoMemory;
use wm_program::Program;
use wm_tally::{Entry, entry_after, first_entry, verdict_of};

/// What is known of a site after one more edge. A node without a state is one without a point.
fn entry_behind<D: Domain>(
    alloc: Global,
    program: &Program,
    graph: &Graph,
    edge: &Edge,
    site: u32,
    labels: &[D],
    entry: Entry,
) -> Result<Entry, NoMemory>
    requires shapes { (k : ℕ) (label : D) → slice_get labels.now k ≡ Some label → FitsNode graph.now k (D.shape_of label) }
{
    match labels.get(edge.source as usize) {
        None => Ok(entry),
        Some(label) => {
            let seen = edge_seen(alloc, program, graph, edge.source, edge, site, label)?;
            Ok(entry_after(entry, instance_at(graph, edge.source), seen))
        }
    }
}

/// The verdict of a site by the states of the nodes, each of the shape of its node: it is safe where no instance fails that a
/// run may come to, never reached where a run comes to none, and else unproved, with the boxes of the operands and the first
/// failing values in the first instance that may fail.
pub fn verdict<D: Domain>(
    alloc: Global,
    program: &Program,
    graph: &Graph,
    site: u32,
    labels: &[D],
) -> Result<Verdict, NoMemory>
    requires shapes { (k : ℕ) (label : D) → slice_get labels.now k ≡ Some label → FitsNode graph.now k (D.shape_of label) }
{
    let mut entry = first_entry();
    for edge in graph.edges.items() {
        if edge.site == Some(site) {
            entry = entry_behind(alloc, program, graph, edge, site, labels, entry)?;
        }
    }
    verdict_of(alloc, entry)
}
