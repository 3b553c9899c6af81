// The edges of a graph, each between slim nodes of its own.
use crate::actions::renamed;
use crate::calls::{CallNames, Counts, Ends, entered, returned, slim_enter, slim_leave};
use crate::lists::{below, small, sorted};
use crate::named::{Groups, Names, name_action};
use crate::renaming::{Renaming, Side};
use crate::shapes::{Place, core, place_at, slim};
use std::alloc::Global;
use wm_domain::Shape;
use wm_flow::{Action, Edge, Graph, Head};
use wm_interval::Interval;
use wm_ops::{List, NoMemory};
use wm_uses::call_of;

/// A single that a return takes from the node of its call as it is.
#[derive(Clone, Copy, Debug, PartialEq, Eq)]
pub struct Passed {
    pub to: u32,
    pub from: u32,
}

/// What an edge reads or changes beside the group. Singles are named by their ranks behind the group, and all lists go by size. A
/// single or an array behind the edge that is not named is that of the same place before the edge, or it is new.
#[derive(Drop)]
pub struct Part {
    /// Whether the edge changes nothing and both its nodes have the same group.
    pub idle: bool,
    /// Whether the edge names no variable of the group and both its nodes have the same group. Then the slim nodes have none.
    pub aside: bool,
    pub sources: List<u32>,
    pub targets: List<u32>,
    /// At the node of the call that ends.
    pub calls: List<u32>,
    pub source_arrays: List<u32>,
    pub target_arrays: List<u32>,
    pub passed: List<Passed>,
}

/// A graph whose first nodes, as many as those of another graph, have the groups of these alone. Behind them stand three slim nodes
/// for each edge: its source, its target and, for a return, the node of its call. The edges are those of the other graph, each
/// between its slim nodes, and the heads are those of the other graph.
#[derive(Drop)]
pub struct Apart {
    pub graph: Graph,
    /// By edge.
    pub parts: Vec<Part>,
}

fn counts_of(shape: &Shape) -> Counts {
    Counts {
        group: small(shape.group.items().len()),
        singles: small(shape.singles.items().len()),
        arrays: small(shape.arrays.items().len()),
    }
}

fn is_same_group(one: &[Interval], other: &[Interval]) -> bool {
    one == other
}

fn is_count(action: &Action) -> bool {
    match action {
        Action::Count { .. } => true,
        _ => false,
    }
}

/// What an edge names that pairs its nodes by place.
fn placed(
    alloc: Global,
    source: &Shape,
    target: &Shape,
    action: &Action,
) -> Result<Part, NoMemory> {
    let mut names = Names::new(alloc);
    let groups = Groups {
        source: small(source.group.items().len()),
        target: small(target.group.items().len()),
    };
    name_action(&mut names, groups, action)?;
    let Names {
        singles,
        arrays,
        group,
    } = names;
    let singles = sorted(alloc, singles)?;
    let arrays = sorted(alloc, arrays)?;
    let aside = !group && is_same_group(source.group.items(), target.group.items());
    Ok(Part {
        idle: aside && is_count(action),
        aside,
        sources: below(alloc, singles.items(), source.singles.items().len())?,
        targets: below(alloc, singles.items(), target.singles.items().len())?,
        calls: List::new(alloc),
        source_arrays: below(alloc, arrays.items(), source.arrays.items().len())?,
        target_arrays: below(alloc, arrays.items(), target.arrays.items().len())?,
        passed: List::new(alloc),
    })
}

/// What a call or a return names.
fn called(names: CallNames) -> Part {
    let CallNames {
        sources,
        targets,
        calls,
        source_arrays,
        target_arrays,
        passed,
    } = names;
    Part {
        idle: false,
        aside: false,
        sources,
        targets,
        calls,
        source_arrays,
        target_arrays,
        passed,
    }
}

/// The shapes at the nodes of an edge; for one that is no return that of the source stands for the call's.
#[derive(Clone, Copy)]
struct Places<'g> {
    source: Place<'g>,
    target: Place<'g>,
    call: Place<'g>,
}

fn places_of<'g>(graph: &'g Graph, edge: &Edge) -> Result<Places<'g>, NoMemory> {
    let source = place_at(graph, edge.source)?;
    let target = place_at(graph, edge.target)?;
    let call = match call_of(&edge.action) {
        None => source,
        Some(node) => place_at(graph, node)?,
    };
    Ok(Places {
        source,
        target,
        call,
    })
}

/// What an edge names.
fn part_of(alloc: Global, places: Places, action: &Action) -> Result<Part, NoMemory> {
    let ends = Ends {
        source: counts_of(places.source.shape),
        target: counts_of(places.target.shape),
        call: counts_of(places.call.shape),
    };
    match action {
        Action::Enter {
            picks,
            arrays,
            arguments,
        } => Ok(called(entered(
            alloc,
            ends,
            picks.items(),
            arrays.items(),
            arguments.items(),
        )?)),
        Action::Leave {
            from_call,
            from_exit,
            arrays,
            result,
            ..
        } => Ok(called(returned(
            alloc,
            ends,
            from_call.items(),
            from_exit.items(),
            arrays.items(),
            *result,
        )?)),
        _ => placed(alloc, places.source.shape, places.target.shape, action),
    }
}

fn side<'s>(shape: &Shape, aside: bool, singles: &'s [u32], arrays: &'s [u32]) -> Side<'s> {
    let group = small(shape.group.items().len());
    Side {
        group,
        slim_group: if aside { 0 } else { group },
        singles,
        arrays,
    }
}

/// The action of an edge between its slim nodes.
fn slim_action(
    alloc: Global,
    places: Places,
    part: &Part,
    call_node: u32,
    action: &Action,
) -> Result<Action, NoMemory> {
    let to = Renaming {
        alloc,
        source: side(
            places.source.shape,
            part.aside,
            part.sources.items(),
            part.source_arrays.items(),
        ),
        target: side(
            places.target.shape,
            part.aside,
            part.targets.items(),
            part.target_arrays.items(),
        ),
    };
    match action {
        Action::Enter {
            picks,
            arrays,
            arguments,
        } => slim_enter(&to, picks.items(), arrays.items(), arguments.items()),
        Action::Leave {
            from_call,
            from_exit,
            arrays,
            result,
            ..
        } => {
            let call = side(places.call.shape, false, part.calls.items(), &[]);
            slim_leave(
                &to,
                &call,
                call_node,
                from_call.items(),
                from_exit.items(),
                arrays.items(),
                *result,
            )
        }
        _ => match renamed(&to, action)? {
            None => Err(NoMemory),
            Some(action) => Ok(action),
        },
    }
}

/// The graph of the slim nodes while it grows.
#[derive(Drop)]
struct Growing {
    shapes: List<Shape>,
    node_shape: List<u32>,
    node_instance: List<Option<u32>>,
    edges: List<Edge>,
}

fn push_node(growing: &mut Growing, shape: u32) -> Result<(), NoMemory> {
    growing.node_shape.push(shape)?;
    growing.node_instance.push(None)?;
    Ok(())
}

/// A slim node. One that has nothing beside the group has the shape of the group alone, which stands under the number of the whole
/// shape.
fn push_slim(
    alloc: Global,
    growing: &mut Growing,
    place: Place,
    grouped: bool,
    singles: &[u32],
    arrays: &[u32],
) -> Result<(), NoMemory> {
    if grouped && singles.is_empty() && arrays.is_empty() {
        return push_node(growing, place.number);
    }
    let number = small(growing.shapes.items().len());
    growing
        .shapes
        .push(slim(alloc, place.shape, grouped, singles, arrays)?)?;
    push_node(growing, number)
}

/// The slim nodes of an edge, and the edge between them.
fn push_edge(
    alloc: Global,
    growing: &mut Growing,
    graph: &Graph,
    edge: &Edge,
) -> Result<Part, NoMemory> {
    let places = places_of(graph, edge)?;
    let part = part_of(alloc, places, &edge.action)?;
    let first = small(growing.node_shape.items().len());
    let grouped = !part.aside;
    push_slim(
        alloc,
        growing,
        places.source,
        grouped,
        part.sources.items(),
        part.source_arrays.items(),
    )?;
    push_slim(
        alloc,
        growing,
        places.target,
        grouped,
        part.targets.items(),
        part.target_arrays.items(),
    )?;
    push_slim(alloc, growing, places.call, true, part.calls.items(), &[])?;
    let action = slim_action(alloc, places, &part, first.saturating_add(2), &edge.action)?;
    growing.edges.push(Edge {
        source: first,
        target: first.saturating_add(1),
        action,
        site: None,
    })?;
    Ok(part)
}

fn cores(alloc: Global, shapes: &[Shape]) -> Result<List<Shape>, NoMemory> {
    let mut list = List::new(alloc);
    for shape in shapes {
        list.push(core(alloc, shape)?)?;
    }
    Ok(list)
}

/// The nodes of a graph with their groups alone.
fn begun(alloc: Global, graph: &Graph) -> Result<Growing, NoMemory> {
    let mut growing = Growing {
        shapes: cores(alloc, graph.shapes.items())?,
        node_shape: List::new(alloc),
        node_instance: List::new(alloc),
        edges: List::new(alloc),
    };
    for shape in graph.node_shape.items() {
        push_node(&mut growing, *shape)?;
    }
    Ok(growing)
}

fn heads(alloc: Global, graph: &Graph) -> Result<List<Head>, NoMemory> {
    let mut list = List::new(alloc);
    for head in graph.heads.items() {
        list.push(*head)?;
    }
    Ok(list)
}

/// The edges of a graph apart from each other. `NoMemory`: memory ran out, or the graph is none of a program.
pub fn apart_of(alloc: Global, graph: &Graph) -> Result<Apart, NoMemory> {
    let mut growing = begun(alloc, graph)?;
    let mut parts = Vec::new(alloc);
    for edge in graph.edges.items() {
        parts.push(push_edge(alloc, &mut growing, graph, edge)?)?;
    }
    let Growing {
        shapes,
        node_shape,
        node_instance,
        edges,
    } = growing;
    if node_shape.items().len() >= 4_294_967_295 {
        return Err(NoMemory);
    }
    Ok(Apart {
        graph: Graph {
            shapes,
            node_shape,
            node_instance,
            edges,
            heads: heads(alloc, graph)?,
            sums: List::new(alloc),
        },
        parts,
    })
}
