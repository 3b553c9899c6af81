// Graphs with just what a path looks at: edges with the words that they count, heads with their turns, edges that no run takes,
// and nodes at which a run may stop.
ghost use Rattle.std.specs.Prelude.{◌≡◌, []};

use std::alloc::Global;
use std::test::Fail;
use wm_flow::{Action, Edge, Facts, Graph, Head};
use wm_lang::Name;
use wm_ops::{Counted, List};
use wm_program::{Program, Spec};

/// An edge: its source, its target, and the word that it counts.
pub type Line = (u32, u32, Option<Counted>);

/// A head: its node, the numbers of its entry edge and its back edge, and the number of its loop with the turns.
pub type HeadLine = (u32, u32, u32, Option<(u32, Option<u64>)>);

/// A graph and what is known of it.
#[derive(Clone, Copy)]
pub struct Drawing<'d> {
    pub nodes: u32,
    pub edges: &'d [Line],
    pub heads: &'d [HeadLine],
    /// Nodes at which a run may stop.
    pub stops: &'d [u32],
}

fn action(alloc: Global, word: Option<Counted>) -> Action {
    match word {
        Some(word) => Action::Count { word },
        None => Action::Clear {
            variables: List::new(alloc),
        },
    }
}

/// The graph of a drawing; all loops stand in the instance 0.
pub fn graph_of(alloc: Global, drawing: Drawing<'_>) -> Result<Graph, Fail> {
    let mut graph = Graph {
        shapes: List::new(alloc),
        node_shape: List::new(alloc),
        node_instance: List::new(alloc),
        edges: List::new(alloc),
        heads: List::new(alloc),
        sums: List::new(alloc),
    };
    for (source, target, word) in drawing.edges {
        graph.edges.push(Edge {
            source: *source,
            target: *target,
            action: action(alloc, *word),
            site: None,
        })?;
    }
    for (node, entry, back, turning) in drawing.heads {
        graph.heads.push(Head {
            node: *node,
            instance: turning.map(|_turning| 0),
            loop_id: turning.map(|turning| turning.0),
            entry: *entry,
            back: *back,
        })?;
    }
    Ok(graph)
}

/// What is known of the graph of a drawing where these edges are taken by no run.
pub fn facts_of(alloc: Global, drawing: Drawing<'_>, dead: &[usize]) -> Result<Facts, Fail> {
    let mut facts = Facts {
        turns: List::new(alloc),
        live: List::new(alloc),
        stops: List::new(alloc),
    };
    for (_node, _entry, _back, turning) in drawing.heads {
        facts.turns.push(match turning {
            None => None,
            Some((_loop_id, turns)) => *turns,
        })?;
    }
    for (number, _edge) in drawing.edges.iter().enumerate() {
        facts.live.push(!dead.contains(&number))?;
    }
    for node in 0..drawing.nodes {
        facts.stops.push(drawing.stops.contains(&node))?;
    }
    Ok(facts)
}

/// A program without anything in it.
pub fn empty(alloc: Global) -> Program
    ensures sites { result.sites ≡ [] }
{
    Program {
        functions: List::new(alloc),
        objects: List::new(alloc),
        sites: List::new(alloc),
        loops: List::new(alloc),
        instances: List::new(alloc),
        inputs: List::new(alloc),
        constants: List::new(alloc),
        init: None,
        frame: 0,
    }
}

/// A specification of the source `a.c` with these frame functions.
pub fn specification(alloc: Global, names: &[&[u8]]) -> Result<Spec, Fail> {
    let mut sources = List::new(alloc);
    sources.push(Name::new(alloc, b"a.c")?)?;
    let mut frames = List::new(alloc);
    for name in names {
        frames.push(Name::new(alloc, name)?)?;
    }
    Ok(Spec {
        sources,
        weights: None,
        certificate: None,
        init: None,
        frames,
        frame_us: None,
        pack: None,
        steps: 1000000,
        ranges: List::new(alloc),
    })
}
