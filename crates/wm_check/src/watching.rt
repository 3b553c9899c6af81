// What the labels tell while they are shown: the verdicts, and where a run may stop.
ghost use Rattle.std.specs.Prelude.{◌≡◌, ◌+◌, ◌++◌, ◌∷◌, [], ℕ, length, All, IfOk, IfNone, OnOk};
ghost use Rattle.wm_domain.specs.States.{IsShape};
ghost use Rattle.wm_labels.specs.Accepted.{IsAccepted};
ghost use Rattle.wm_walk.specs.Graphs.{AreDrawn, AreStates};
ghost use Rattle.wm_verdict.specs.Sites.{no_entries, verdicts_of};
ghost use Rattle.wm_check.specs.Outcomes.{IfAccepted, IfTold, IsTold};

use std::alloc::Global;
use wm_accept::{Watcher, walk};
use wm_cert::Gap;
use wm_domain::Domain;
use wm_findings::Verdict;
use wm_flow::{Edge, Graph};
use wm_images::Images;
use wm_ops::{List, NoMemory};
use wm_program::Program;
use wm_stops::{edges_from, stops_at};
use wm_verdict::Judge;

/// The judge, and whether a run may stop at each node that was shown.
#[derive(Drop)]
pub(crate) struct Watch {
    pub judge: Judge,
    pub stops: Vec<bool>,
    /// How many arrays are those of static storage.
    pub statics: u32,
    /// The number of the first edge that leads from no node that was shown.
    pub start: usize,
}

impl<D: Domain> Watcher<D> for Watch {
    ghost use Rattle.std.specs.Prelude.{◌≡◌};
    ghost use Rattle.wm_verdict.specs.Sites.{IsJudged};

    ghost next = { λ watch node. watch.judge.nodes ≡ node };

    ghost saw = { λ program graph watch labels. IsJudged D.holds program graph labels watch.judge };

    fn see(
        &mut self,
        alloc: Global,
        program: &Program,
        graph: &Graph,
        node: u32,
        label: &D,
    ) -> Result<(), NoMemory> {
        let edges = edges_from(graph.edges.items(), self.start, node);
        let stop = stops_at(graph, self.statics, edges, node, label)?;
        self.stops.push(stop)?;
        self.start = match self.start.checked_add(edges.len()) {
            None => return Err(NoMemory),
            Some(start) => start,
        };
        self.judge.see(alloc, program, graph, label)
    }
}

/// What the labels of an accepted certificate tell: whether the image along each edge has a point, whether a run may stop at each
/// node, and the verdicts by site.
#[derive(Drop)]
pub(crate) struct Told {
    pub live: Vec<bool>,
    pub stops: Vec<bool>,
    pub verdicts: List<Verdict>,
}

/// A certificate is accepted, or has a first gap.
#[derive(Drop)]
pub(crate) enum Outcome {
    Accepted(Told),
    Gap(Gap),
}

fn marks(alloc: Global, count: usize) -> Result<Vec<bool>, NoMemory> {
    let mut list = Vec::new(alloc);
    for _k in 0..count {
        list.push(false)?;
    }
    Ok(list)
}

fn first_watch(
    alloc: Global,
    program: &Program,
    graph: &Graph,
    statics: u32,
) -> Result<Watch, NoMemory>
    ensures next { IfOk result (λ watch. watch.judge.nodes ≡ 0) }
    ensures first { IfOk result (λ watch. watch.judge.edge ≡ 0) }
    ensures entries { IfOk result (λ watch. watch.judge.entries.items ≡ no_entries (length program.now.sites)) }
{
    let judge = Judge::new(alloc, program, graph)?;
    Ok(Watch {
        judge,
        stops: Vec::new(alloc),
        statics,
        start: 0,
    })
}

/// What was told, when all nodes were shown. A graph whose edges do not stand in the order of their nodes, which no graph of a program
/// is, is refused.
fn finished(alloc: Global, graph: &Graph, live: Vec<bool>, watch: Watch) -> Result<Told, NoMemory>
    ensures all { IfOk result (λ told. watch.judge.edge ≡ length graph.now.edges) }
    ensures verdicts { IfOk result (λ told. told.verdicts ≡ verdicts_of watch.judge.entries.items) }
    ensures live { IfOk result (λ told. told.live.items ≡ live.items) }
{
    let Watch { judge, stops, .. } = watch;
    if judge.edges() != graph.edges.items().len() {
        return Err(NoMemory);
    }
    let verdicts = judge.finish(alloc)?;
    Ok(Told {
        live,
        stops,
        verdicts,
    })
}

/// What the labels of the states of the heads tell, where they are accepted; else the first gap.
pub(crate) fn watched<D: Domain, M: Images<D>>(
    alloc: Global,
    images: &M,
    program: &Program,
    graph: &Graph,
    statics: u32,
    states: &[D],
) -> Result<Outcome, NoMemory>
    requires drawn { AreDrawn M.drawn graph.now }
    requires shapes { All IsShape graph.now.shapes }
    requires states { AreStates D.shape_of graph.now states.now }
    ensures accepted { IfOk result (λ outcome. IfAccepted outcome (IsAccepted M.allowed M.started D.holds D.shape_of program.now graph.now states.now)) }
    ensures told { IfOk result (λ outcome. IfTold outcome (IsTold M.allowed M.started D.holds D.shape_of program.now graph.now states.now)) }
{
    let mut live = marks(alloc, graph.edges.items().len())?;
    let mut watch = first_watch(alloc, program, graph, statics)?;
    let gap = walk(
        alloc,
        images,
        program,
        graph,
        states,
        live.as_mut_slice(),
        &mut watch,
    )?;
    match gap {
        Some(gap) => Ok(Outcome::Gap(gap)),
        None => {
            let told = finished(alloc, graph, live, watch)?;
            Ok(Outcome::Accepted(told))
        }
    }
}
