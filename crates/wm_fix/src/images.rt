// Images along edges, made between slim nodes: of the group of the source, and of what the edge names beside it.
ghost use Rattle.std.specs.Prelude.{◌≡◌, All, slice_get, Some, IfOk, IfSome, true};
ghost use Rattle.wm_domain.specs.States.{IsShape};
ghost use Rattle.wm_images.specs.Nodes.{node_shape};
ghost use Rattle.wm_uses.specs.Last as last;
ghost use Rattle.wm_walk.specs.Graphs.{AreDrawn, AreStates};
ghost use Rattle.wm_fix.specs.Cores.{AreCores};

use crate::labels::{Labels, Seen, core_at, is_bare, seen_at, stamp_at, table_at, unseen};
use crate::setting::{Setting, edge_at, part_at};
use crate::slim::{
    all_cells_in, moved, named_cells, named_ranges, ranges_in, set_all_cells, set_ranges,
};
use crate::states::shape_at;
use crate::tables::Table;
use std::alloc::Global;
use wm_apart::Part;
use wm_arrays::Summary;
use wm_domain::{Domain, Shape};
use wm_flow::{Edge, Graph};
use wm_images::Images;
use wm_interval::Interval;
use wm_ops::NoMemory;
use wm_uses::call_of;

/// The image along an edge at its target, of the group alone, and what the edge was seen to do.
#[derive(Drop)]
pub(crate) struct Made<D> {
    /// None where the image has no point, or where the group is still what it was.
    pub core: Option<D>,
    pub seen: Seen,
}

/// What an edge names at its source and at the node of its call.
#[derive(Drop)]
struct Reading {
    ranges: Vec<Interval>,
    /// How many of the ranges are those of the source.
    own: usize,
    cells: Vec<Summary>,
}

/// The node of the call that an edge ends, or else the source.
fn call_node(edge: &Edge) -> u32 {
    match call_of(&edge.action) {
        None => edge.source,
        Some(call) => call,
    }
}

fn table_of<D>(labels: &Labels<D>, node: u32) -> Result<&Table, NoMemory> {
    match table_at(labels.tables.as_slice(), node) {
        None => Err(NoMemory),
        Some(table) => Ok(table),
    }
}

/// What an edge names before it. Both nodes have labels with points.
fn read<D: Domain>(
    alloc: Global,
    labels: &Labels<D>,
    edge: &Edge,
    part: &Part,
) -> Result<Reading, NoMemory> {
    let table = table_of(labels, edge.source)?;
    let mut ranges = Vec::new(alloc);
    named_ranges(&mut ranges, table, part.sources.items())?;
    let own = ranges.len();
    let mut cells = Vec::new(alloc);
    named_cells(&mut cells, table, part.source_arrays.items())?;
    if !part.calls.items().is_empty() {
        let table = table_of(labels, call_node(edge))?;
        named_ranges(&mut ranges, table, part.calls.items())?;
    }
    Ok(Reading { ranges, own, cells })
}

/// Whether the ranges from a first place on are those of these ranks.
fn are_still(ranges: &[Interval], first: usize, table: &Table, ranks: &[u32]) -> bool {
    let now = table.ranges.as_slice();
    for k in 0..ranks.len() {
        if !is_range_still(ranges, first.saturating_add(k), now, ranks[k] as usize) {
            return false;
        }
    }
    true
}

/// Whether two places have one range.
fn is_range_still(ranges: &[Interval], place: usize, now: &[Interval], rank: usize) -> bool {
    match ranges.get(place) {
        None => false,
        Some(was) => match now.get(rank) {
            None => false,
            Some(range) => *range == *was,
        },
    }
}

fn is_still(one: Summary, other: Summary) -> bool {
    one.within(other) && other.within(one)
}

fn are_cells_still(cells: &[Summary], table: &Table, arrays: &[u32]) -> bool {
    if cells.len() < arrays.len() {
        return false;
    }
    for k in 0..arrays.len() {
        match table.cells.as_slice().get(arrays[k] as usize) {
            None => return false,
            Some(summary) => {
                if !is_still(*summary, cells[k]) {
                    return false;
                }
            }
        }
    }
    true
}

/// Whether what an edge names beside the groups is what it was.
fn is_named_still<D: Domain>(labels: &Labels<D>, edge: &Edge, part: &Part, seen: &Seen) -> bool {
    let Some(table) = table_at(labels.tables.as_slice(), edge.source) else {
        return false;
    };
    let sources = part.sources.items();
    let ranges = seen.read.as_slice();
    if !are_still(ranges, 0, table, sources) {
        return false;
    }
    if !are_cells_still(seen.cells.as_slice(), table, part.source_arrays.items()) {
        return false;
    }
    if part.calls.items().is_empty() {
        return true;
    }
    let Some(table) = table_at(labels.tables.as_slice(), call_node(edge)) else {
        return false;
    };
    are_still(ranges, sources.len(), table, part.calls.items())
}

/// Whether the label of a node or of its call has no point.
fn is_dead<D: Domain>(labels: &Labels<D>, edge: &Edge) -> bool {
    let bare = labels.bare.as_slice();
    is_bare(bare, edge.source) || is_bare(bare, call_node(edge))
}

/// Whether the image along an edge was made of what is there now.
pub(crate) fn is_known<D: Domain>(setting: &Setting, labels: &Labels<D>, number: u32) -> bool {
    let Some(edge) = edge_at(setting.graph, number) else {
        return false;
    };
    let Some(part) = part_at(setting.apart, number) else {
        return false;
    };
    let Some(seen) = seen_at(labels.seen.as_slice(), number) else {
        return false;
    };
    let stamps = labels.stamps.as_slice();
    if !seen.known || seen.at != stamp_at(stamps, edge.source) {
        return false;
    }
    if seen.call != stamp_at(stamps, call_node(edge)) {
        return false;
    }
    is_dead(labels, edge) || is_named_still(labels, edge, part, seen)
}

/// A state of a node of the apart graph with any numbers.
fn anywhere<D: Domain>(alloc: Global, shape: &Shape) -> Result<D, NoMemory>
    requires shape { IsShape shape.now }
    ensures shape { IfOk result (λ s. D.shape_of s ≡ shape.now) }
{
    D::full(alloc, shape)
}

/// Whether two nodes of the apart graph have the shape of one number.
fn is_alike(setting: &Setting, one: u32, other: u32) -> bool
    ensures { result ≡ true → node_shape setting.now.apart.now.graph one ≡ node_shape setting.now.apart.now.graph other }
{
    is_same_number(&setting.apart.graph, one, other)
}

fn is_same_number(graph: &Graph, one: u32, other: u32) -> bool
    ensures { result ≡ true → node_shape graph.now one ≡ node_shape graph.now other }
{
    let numbers = graph.node_shape.items();
    match numbers.get(one as usize) {
        None => false,
        Some(first) => match numbers.get(other as usize) {
            None => false,
            Some(second) => *first == *second,
        },
    }
}

/// What holds of a group at one node, at another with the same group and nothing else.
fn handed_on<D: Domain>(setting: &Setting, from: u32, to: u32, core: &D) -> Result<D, NoMemory>
    requires core { D.shape_of core.now ≡ node_shape setting.now.apart.now.graph from }
    ensures shape { IfOk result (λ s. D.shape_of s ≡ node_shape setting.now.apart.now.graph to) }
{
    if is_alike(setting, from, to) {
        return core.copy(setting.alloc);
    }
    let graph = &setting.apart.graph;
    let Some(source) = shape_at(graph, from) else {
        return Err(NoMemory);
    };
    let Some(target) = shape_at(graph, to) else {
        return Err(NoMemory);
    };
    moved(setting.alloc, source, target, core)
}

/// The state of a slim node: with the group, unless the edge is aside, and with what is named.
fn slim_state<D: Domain>(
    setting: &Setting,
    aside: bool,
    from: u32,
    to: u32,
    core: &D,
    ranges: &[Interval],
    cells: &[Summary],
) -> Result<D, NoMemory>
    requires shapes { All IsShape setting.now.apart.now.graph.shapes }
    requires core { D.shape_of core.now ≡ node_shape setting.now.apart.now.graph from }
    ensures shape { IfOk result (λ s. D.shape_of s ≡ node_shape setting.now.apart.now.graph to) }
{
    let Some(shape) = shape_at(&setting.apart.graph, to) else {
        return Err(NoMemory);
    };
    let mut state = if aside {
        let any: D = anywhere(setting.alloc, shape)?;
        any
    } else {
        handed_on(setting, from, to, core)?
    };
    set_ranges(shape, &mut state, ranges)?;
    set_all_cells(shape, &mut state, cells)?;
    Ok(state)
}

/// The image along an edge that is no return, from its slim source.
fn stepped<D: Domain, M: Images<D>>(
    setting: &Setting,
    images: &M,
    number: u32,
    aside: bool,
    from: u32,
    slim: &Edge,
    core: &D,
    it: &Reading,
) -> Result<D, NoMemory>
    requires drawn { AreDrawn M.drawn setting.now.apart.now.graph }
    requires shapes { All IsShape setting.now.apart.now.graph.shapes }
    requires slim { slice_get setting.now.apart.now.graph.edges number ≡ Some slim.now }
    requires core { D.shape_of core.now ≡ node_shape setting.now.apart.now.graph from }
    ensures shape { IfOk result (λ s. D.shape_of s ≡ node_shape setting.now.apart.now.graph slim.now.target) }
{
    if it.ranges.is_empty() && it.cells.is_empty() && is_alike(setting, from, slim.source) {
        return images.step(setting.alloc, &setting.apart.graph, number, core);
    }
    let at = slim_state(
        setting,
        aside,
        from,
        slim.source,
        core,
        it.ranges.as_slice(),
        it.cells.as_slice(),
    )?;
    images.step(setting.alloc, &setting.apart.graph, number, &at)
}

/// The image along a return, from its slim nodes.
fn left<D: Domain, M: Images<D>>(
    setting: &Setting,
    images: &M,
    number: u32,
    from: u32,
    from_call: u32,
    call: u32,
    slim: &Edge,
    core: &D,
    core_at_call: &D,
    it: &Reading,
) -> Result<D, NoMemory>
    requires drawn { AreDrawn M.drawn setting.now.apart.now.graph }
    requires shapes { All IsShape setting.now.apart.now.graph.shapes }
    requires slim { slice_get setting.now.apart.now.graph.edges number ≡ Some slim.now }
    requires call { last.call_of slim.now.action ≡ Some call }
    requires core { D.shape_of core.now ≡ node_shape setting.now.apart.now.graph from }
    requires core_at_call { D.shape_of core_at_call.now ≡ node_shape setting.now.apart.now.graph from_call }
    ensures shape { IfOk result (λ s. D.shape_of s ≡ node_shape setting.now.apart.now.graph slim.now.target) }
{
    let ranges = it.ranges.as_slice();
    if it.own > ranges.len() {
        return Err(NoMemory);
    }
    let at_exit = slim_state(
        setting,
        false,
        from,
        slim.source,
        core,
        &ranges[..it.own],
        it.cells.as_slice(),
    )?;
    let at_call = slim_state(
        setting,
        false,
        from_call,
        call,
        core_at_call,
        &ranges[it.own..],
        &[],
    )?;
    images.leave(
        setting.alloc,
        &setting.apart.graph,
        number,
        &at_call,
        &at_exit,
    )
}

/// The image along an edge at its slim target.
fn image<D: Domain, M: Images<D>>(
    setting: &Setting,
    images: &M,
    labels: &Labels<D>,
    states: &[D],
    number: u32,
    edge: &Edge,
    aside: bool,
    slim: &Edge,
    core: &D,
    it: &Reading,
) -> Result<D, NoMemory>
    requires drawn { AreDrawn M.drawn setting.now.apart.now.graph }
    requires shapes { All IsShape setting.now.apart.now.graph.shapes }
    requires cores { AreCores D.shape_of setting.now.apart.now.graph labels.now.cores.items }
    requires states { AreStates D.shape_of setting.now.apart.now.graph states.now }
    requires slim { slice_get setting.now.apart.now.graph.edges number ≡ Some slim.now }
    requires core { D.shape_of core.now ≡ node_shape setting.now.apart.now.graph edge.now.source }
    ensures shape { IfOk result (λ s. D.shape_of s ≡ node_shape setting.now.apart.now.graph slim.now.target) }
{
    let Some(call) = call_of(&slim.action) else {
        return stepped(setting, images, number, aside, edge.source, slim, core, it);
    };
    let node = call_node(edge);
    let Some(core_at_call) = core_at(setting, labels.cores.as_slice(), states, node) else {
        return Err(NoMemory);
    };
    left(
        setting,
        images,
        number,
        edge.source,
        node,
        call,
        slim,
        core,
        core_at_call,
        it,
    )
}

/// What holds of the group at a node, of a state at a slim node.
fn core_of<D: Domain>(setting: &Setting, from: u32, to: u32, state: D) -> Result<D, NoMemory>
    requires state { D.shape_of state ≡ node_shape setting.now.apart.now.graph from }
    ensures shape { IfOk result (λ s. D.shape_of s ≡ node_shape setting.now.apart.now.graph to) }
{
    if is_alike(setting, from, to) {
        return Ok(state);
    }
    let graph = &setting.apart.graph;
    let Some(source) = shape_at(graph, from) else {
        return Err(NoMemory);
    };
    let Some(target) = shape_at(graph, to) else {
        return Err(NoMemory);
    };
    moved(setting.alloc, source, target, &state)
}

/// What holds of the group behind an edge, from the image at the slim target. An edge that is aside leaves the group as it is.
fn behind<D: Domain>(
    setting: &Setting,
    aside: bool,
    edge: &Edge,
    slim: &Edge,
    core: &D,
    image: D,
) -> Result<D, NoMemory>
    requires core { D.shape_of core.now ≡ node_shape setting.now.apart.now.graph edge.now.source }
    requires image { D.shape_of image ≡ node_shape setting.now.apart.now.graph slim.now.target }
    ensures shape { IfOk result (λ s. D.shape_of s ≡ node_shape setting.now.apart.now.graph edge.now.target) }
{
    if aside {
        return handed_on(setting, edge.source, edge.target, core);
    }
    core_of(setting, slim.target, edge.target, image)
}

/// What was seen of an edge: what it is made of.
fn noted<D: Domain>(alloc: Global, labels: &Labels<D>, edge: &Edge) -> Seen {
    let mut seen = unseen(alloc);
    let stamps = labels.stamps.as_slice();
    seen.known = true;
    seen.at = stamp_at(stamps, edge.source);
    seen.call = stamp_at(stamps, call_node(edge));
    seen
}

/// What an image tells of what is named at the slim target.
fn told<D: Domain>(
    setting: &Setting,
    slim: &Edge,
    image: &D,
    seen: &mut Seen,
) -> Result<(), NoMemory>
    requires image { D.shape_of image.now ≡ node_shape setting.now.apart.now.graph slim.now.target }
{
    let Some(shape) = shape_at(&setting.apart.graph, slim.target) else {
        return Err(NoMemory);
    };
    seen.bare = false;
    seen.made = ranges_in(setting.alloc, shape, image)?;
    seen.made_cells = all_cells_in(setting.alloc, shape, image)?;
    Ok(())
}

/// Whether an edge that was seen leaves the group as it is, which has not changed since.
fn is_group_still<D: Domain>(labels: &Labels<D>, number: u32, edge: &Edge, part: &Part) -> bool {
    let Some(seen) = seen_at(labels.seen.as_slice(), number) else {
        return false;
    };
    part.aside
        && seen.known
        && !seen.bare
        && seen.at == stamp_at(labels.stamps.as_slice(), edge.source)
}

/// The image along an edge whose source and call have labels with points. Where `alone`, no other edge leads to its target: then a
/// group that is still what it was is not made again.
fn alive<D: Domain, M: Images<D>>(
    setting: &Setting,
    images: &M,
    labels: &Labels<D>,
    states: &[D],
    number: u32,
    edge: &Edge,
    part: &Part,
    alone: bool,
    mut seen: Seen,
) -> Result<Made<D>, NoMemory>
    requires drawn { AreDrawn M.drawn setting.now.apart.now.graph }
    requires shapes { All IsShape setting.now.apart.now.graph.shapes }
    requires cores { AreCores D.shape_of setting.now.apart.now.graph labels.now.cores.items }
    requires states { AreStates D.shape_of setting.now.apart.now.graph states.now }
    ensures shape { IfOk result (λ made. IfSome made.core (λ s. D.shape_of s ≡ node_shape setting.now.apart.now.graph edge.now.target)) }
{
    let Some(core) = core_at(setting, labels.cores.as_slice(), states, edge.source) else {
        return Err(NoMemory);
    };
    let Some(slim) = edge_at(&setting.apart.graph, number) else {
        return Err(NoMemory);
    };
    let it = read(setting.alloc, labels, edge, part)?;
    let still = alone && is_group_still(labels, number, edge, part);
    if part.idle {
        seen.bare = false;
        let same = handed_on(setting, edge.source, edge.target, core)?;
        return Ok(Made {
            core: Some(same),
            seen,
        });
    }
    let state = image(
        setting, images, labels, states, number, edge, part.aside, slim, core, &it,
    )?;
    let Reading { ranges, cells, .. } = it;
    seen.read = ranges;
    seen.cells = cells;
    if state.is_empty() {
        return Ok(Made { core: None, seen });
    }
    told(setting, slim, &state, &mut seen)?;
    if still {
        return Ok(Made { core: None, seen });
    }
    let core = behind(setting, part.aside, edge, slim, core, state)?;
    Ok(Made {
        core: Some(core),
        seen,
    })
}

/// The image along an edge to a node, of the group alone.
pub(crate) fn image_to<D: Domain, M: Images<D>>(
    setting: &Setting,
    images: &M,
    labels: &Labels<D>,
    states: &[D],
    number: u32,
    node: u32,
    alone: bool,
) -> Result<Made<D>, NoMemory>
    requires drawn { AreDrawn M.drawn setting.now.apart.now.graph }
    requires shapes { All IsShape setting.now.apart.now.graph.shapes }
    requires cores { AreCores D.shape_of setting.now.apart.now.graph labels.now.cores.items }
    requires states { AreStates D.shape_of setting.now.apart.now.graph states.now }
    ensures shape { IfOk result (λ made. IfSome made.core (λ s. D.shape_of s ≡ node_shape setting.now.apart.now.graph node)) }
{
    let Some(edge) = edge_at(setting.graph, number) else {
        return Err(NoMemory);
    };
    let Some(part) = part_at(setting.apart, number) else {
        return Err(NoMemory);
    };
    if edge.target != node {
        return Err(NoMemory);
    }
    let seen = noted(setting.alloc, labels, edge);
    if is_dead(labels, edge) {
        return Ok(Made { core: None, seen });
    }
    alive(
        setting, images, labels, states, number, edge, part, alone, seen,
    )
}
