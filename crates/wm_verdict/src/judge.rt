// The judge, to whom the states of the nodes are shown one after another.
ghost use Rattle.std.specs.Prelude.{◌≡◌, ◌+◌, ◌++◌, ◌∷◌, [], List, length, OnOk, OnErr, IfOk};
ghost use Rattle.wm_verdict.specs.Places.{FitsNode};
ghost use Rattle.wm_verdict.specs.Sites.{noted, noted_all, no_entries, verdicts_of, IsJudged};

use crate::found::{Found, found_at};
use std::alloc::Global;
use wm_domain::Domain;
use wm_findings::Verdict;
use wm_flow::Graph;
use wm_ops::{List, NoMemory};
use wm_program::{Program, SiteInfo};
use wm_tally::{Entry, Seen, entry_after, first_entry, verdict_of};

/// What has been seen of each site, by the states of the first nodes.
#[derive(Drop)]
pub struct Judge {
    /// How many nodes were shown.
    nodes: u32,
    /// The number of the first edge that leads from none of them.
    edge: usize,
    /// By site.
    entries: Vec<Entry>,
}

/// Nothing has been seen of the sites.
fn no_entries(alloc: Global, sites: &[SiteInfo]) -> Result<Vec<Entry>, NoMemory>
    ensures { IfOk result (λ entries. entries.items ≡ no_entries (length sites.now)) }
{
    let mut entries = Vec::new(alloc);
    for _site in sites {
        entries.push(first_entry())?;
    }
    Ok(entries)
}

/// Notes what an edge of a site showed.
fn note(entries: &mut Vec<Entry>, site: Option<u32>, instance: u32, seen: Seen)
    ensures { entries.new.items ≡ noted entries.old.items site instance seen }
{
    match site {
        None => {}
        Some(site) => {
            let place = site as usize;
            if place < entries.len() {
                entries[place] = entry_after(entries[place], instance, seen);
            }
        }
    }
}

fn note_all(entries: &mut Vec<Entry>, found: &[Found])
    ensures { entries.new.items ≡ noted_all found.now entries.old.items }
{
    for one in found {
        note(entries, one.site, one.instance, one.seen);
    }
}

fn verdicts_of(alloc: Global, entries: &[Entry]) -> Result<List<Verdict>, NoMemory>
    ensures { IfOk result (λ verdicts. verdicts ≡ verdicts_of entries.now) }
{
    let mut verdicts = List::new(alloc);
    for entry in entries {
        verdicts.push(verdict_of(alloc, *entry)?)?;
    }
    Ok(verdicts)
}

impl Judge {
    /// Nothing has been seen: no site is reached.
    pub fn new(alloc: Global, program: &Program, _graph: &Graph) -> Result<Judge, NoMemory>
        ensures nodes { IfOk result (λ judge. judge.nodes ≡ 0) }
        ensures first { IfOk result (λ judge. judge.edge ≡ 0) }
        ensures entries { IfOk result (λ judge. judge.entries.items ≡ no_entries (length program.now.sites)) }
    {
        Ok(Judge {
            nodes: 0,
            edge: 0,
            entries: no_entries(alloc, program.sites.items())?,
        })
    }

    /// Shows the state of the next node, of which it has the shape. Where memory is refused, all is as before.
    pub fn see<D: Domain>(
        &mut self,
        alloc: Global,
        program: &Program,
        graph: &Graph,
        label: &D,
    ) -> Result<(), NoMemory>
        requires shape { FitsNode graph.now self.old.nodes (D.shape_of label.now) }
        ensures seen { OnOk result (self.new.nodes ≡ self.old.nodes + 1) }
        ensures refused { OnErr result (self.new ≡ self.old) }
        ensures judged { OnOk result ((labels : List D) → IsJudged D.holds program.now graph.now labels self.old → IsJudged D.holds program.now graph.now (labels ++ label.now ∷ []) self.new) }
    {
        if self.nodes == u32::MAX {
            return Err(NoMemory);
        }
        let edges = graph.edges.items();
        if edges.len() < self.edge {
            return Err(NoMemory);
        }
        let found = found_at(
            alloc,
            program,
            graph,
            &edges[self.edge..],
            self.nodes,
            label,
        )?;
        match self.edge.checked_add(found.len()) {
            None => Err(NoMemory),
            Some(edge) => {
                note_all(&mut self.entries, found.as_slice());
                self.edge = edge;
                self.nodes += 1;
                Ok(())
            }
        }
    }

    /// How many edges lead from the nodes that were shown.
    pub fn edges(&self) -> usize
        ensures edges { result ≡ self.now.edge }
    {
        self.edge
    }

    /// The verdicts by site, of the nodes that were shown.
    pub fn finish(self, alloc: Global) -> Result<List<Verdict>, NoMemory>
        ensures verdicts { IfOk result (λ verdicts. verdicts ≡ verdicts_of self.entries.items) }
    {
        verdicts_of(alloc, self.entries.as_slice())
    }
}
