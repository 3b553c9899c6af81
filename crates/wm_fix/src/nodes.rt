// The label of one node: what holds of the group, and what holds beside it.
ghost use Rattle.std.specs.Prelude.{◌≡◌, All, IfOk, IfSome, OnOk};
ghost use Rattle.wm_domain.specs.States.{IsShape};
ghost use Rattle.wm_images.specs.Nodes.{node_shape};
ghost use Rattle.wm_walk.specs.Graphs.{AreDrawn, AreStates};
ghost use Rattle.wm_fix.specs.Cores.{AreCores};

use crate::images::{Made, image_to, is_known};
use crate::labels::{Labels, Seen, seen_at, set_core, set_seen, set_table, table_at, take_table};
use crate::plan::is_last_use;
use crate::setting::{Setting, edge_at, part_at, whole_shape};
use crate::tables::{Table, copied, fit, joined, range_at, set_cells, set_range};
use std::alloc::Global;
use wm_apart::{Part, Passed};
use wm_arrays::Summary;
use wm_domain::{Domain, Shape};
use wm_flow::Edge;
use wm_images::Images;
use wm_interval::Interval;
use wm_ops::NoMemory;
use wm_uses::call_of;
use wm_walk::{ended_at, into_at};

/// The image along an edge to a node, which is seen from now on.
pub(crate) fn renew<D: Domain, M: Images<D>>(
    setting: &Setting,
    images: &M,
    labels: &mut Labels<D>,
    states: &[D],
    number: u32,
    node: u32,
) -> Result<Option<D>, NoMemory>
    requires drawn { AreDrawn M.drawn setting.now.apart.now.graph }
    requires shapes { All IsShape setting.now.apart.now.graph.shapes }
    requires cores { AreCores D.shape_of setting.now.apart.now.graph labels.old.cores.items }
    requires states { AreStates D.shape_of setting.now.apart.now.graph states.now }
    ensures cores { OnOk result (AreCores D.shape_of setting.now.apart.now.graph labels.new.cores.items) }
    ensures shape { IfOk result (λ core. IfSome core (λ s. D.shape_of s ≡ node_shape setting.now.apart.now.graph node)) }
{
    let Made { core, seen } = image_to(setting, images, labels, states, number, node, false)?;
    set_seen(&mut labels.seen, number, seen);
    Ok(core)
}

/// The least state that holds two, each of which may have no point.
fn both<D: Domain>(one: Option<D>, other: Option<D>, setting: &Setting, node: u32) -> Option<D>
    requires one { IfSome one (λ s. D.shape_of s ≡ node_shape setting.now.apart.now.graph node) }
    requires other { IfSome other (λ s. D.shape_of s ≡ node_shape setting.now.apart.now.graph node) }
    ensures shape { IfSome result (λ s. D.shape_of s ≡ node_shape setting.now.apart.now.graph node) }
{
    match one {
        None => other,
        Some(mut state) => match other {
            None => Some(state),
            Some(more) => {
                state.join_with(&more);
                Some(state)
            }
        },
    }
}

/// What the images along some edges to a node hold of the group.
fn renewed<D: Domain, M: Images<D>>(
    setting: &Setting,
    images: &M,
    labels: &mut Labels<D>,
    states: &[D],
    into: &[u32],
    node: u32,
) -> Result<Option<D>, NoMemory>
    requires drawn { AreDrawn M.drawn setting.now.apart.now.graph }
    requires shapes { All IsShape setting.now.apart.now.graph.shapes }
    requires cores { AreCores D.shape_of setting.now.apart.now.graph labels.old.cores.items }
    requires states { AreStates D.shape_of setting.now.apart.now.graph states.now }
    ensures cores { OnOk result (AreCores D.shape_of setting.now.apart.now.graph labels.new.cores.items) }
    ensures shape { IfOk result (λ core. IfSome core (λ s. D.shape_of s ≡ node_shape setting.now.apart.now.graph node)) }
{
    match into.split_first() {
        None => Ok(None),
        Some((number, rest)) => {
            let here = renew(setting, images, labels, states, *number, node)?;
            let there = renewed(setting, images, labels, states, rest, node)?;
            Ok(both(here, there, setting, node))
        }
    }
}

fn are_known<D: Domain>(setting: &Setting, labels: &Labels<D>, into: &[u32]) -> bool {
    for number in into {
        if !is_known(setting, labels, *number) {
            return false;
        }
    }
    true
}

/// The table of a node, for an edge to another: taken out where that is the last use.
fn handed_on(
    setting: &Setting,
    tables: &mut Vec<Option<Table>>,
    source: u32,
    node: u32,
) -> Result<Table, NoMemory> {
    if is_last_use(setting.plan, node, source) {
        return match take_table(tables, source) {
            None => Err(NoMemory),
            Some(table) => Ok(table),
        };
    }
    match table_at(tables.as_slice(), source) {
        None => Err(NoMemory),
        Some(table) => copied(setting.alloc, table),
    }
}

/// What a return takes from the node of its call as it is.
fn pass_on(
    tables: &[Option<Table>],
    edge: &Edge,
    passed: &[Passed],
    table: &mut Table,
) -> Result<(), NoMemory> {
    if passed.is_empty() {
        return Ok(());
    }
    let Some(call) = call_of(&edge.action) else {
        return Err(NoMemory);
    };
    let Some(from) = table_at(tables, call) else {
        return Err(NoMemory);
    };
    for it in passed {
        set_range(table, it.to, range_at(from.ranges.as_slice(), it.from)?);
    }
    Ok(())
}

fn put_ranges(table: &mut Table, ranks: &[u32], ranges: &[Interval]) {
    if ranges.len() < ranks.len() {
        return;
    }
    for k in 0..ranks.len() {
        set_range(table, ranks[k], ranges[k]);
    }
}

fn put_cells(table: &mut Table, arrays: &[u32], cells: &[Summary]) {
    if cells.len() < arrays.len() {
        return;
    }
    for k in 0..arrays.len() {
        set_cells(table, arrays[k], cells[k]);
    }
}

/// What stands beside the group behind an edge, from that before it.
fn behind(
    tables: &[Option<Table>],
    shape: &Shape,
    edge: &Edge,
    part: &Part,
    seen: &Seen,
    table: &mut Table,
) -> Result<(), NoMemory> {
    fit(table, shape)?;
    pass_on(tables, edge, part.passed.items(), table)?;
    put_ranges(table, part.targets.items(), seen.made.as_slice());
    put_cells(
        table,
        part.target_arrays.items(),
        seen.made_cells.as_slice(),
    );
    Ok(())
}

/// What stands beside the group behind an edge that was seen. None where its image has no point.
pub(crate) fn table_along<D: Domain>(
    setting: &Setting,
    labels: &mut Labels<D>,
    number: u32,
    node: u32,
) -> Result<Option<Table>, NoMemory>
    requires cores { AreCores D.shape_of setting.now.apart.now.graph labels.old.cores.items }
    ensures cores { OnOk result (AreCores D.shape_of setting.now.apart.now.graph labels.new.cores.items) }
{
    let Some(edge) = edge_at(setting.graph, number) else {
        return Err(NoMemory);
    };
    let Some(part) = part_at(setting.apart, number) else {
        return Err(NoMemory);
    };
    let Some(seen) = seen_at(labels.seen.as_slice(), number) else {
        return Err(NoMemory);
    };
    if seen.bare {
        return Ok(None);
    }
    let shape = whole_shape(setting, node)?;
    let mut table = handed_on(setting, &mut labels.tables, edge.source, node)?;
    behind(
        labels.tables.as_slice(),
        shape,
        edge,
        part,
        seen,
        &mut table,
    )?;
    Ok(Some(table))
}

/// What stands beside the group at a node, by the edges to it.
fn gathered<D: Domain>(
    setting: &Setting,
    labels: &mut Labels<D>,
    into: &[u32],
    node: u32,
) -> Result<Option<Table>, NoMemory>
    requires cores { AreCores D.shape_of setting.now.apart.now.graph labels.old.cores.items }
    ensures cores { OnOk result (AreCores D.shape_of setting.now.apart.now.graph labels.new.cores.items) }
{
    match into.split_first() {
        None => Ok(None),
        Some((number, rest)) => {
            let here = table_along(setting, labels, *number, node)?;
            let there = gathered(setting, labels, rest, node)?;
            Ok(match here {
                None => there,
                Some(table) => Some(joined(there, table)),
            })
        }
    }
}

/// Makes what holds of the group of a node, to which one edge leads.
fn renew_alone<D: Domain, M: Images<D>>(
    setting: &Setting,
    images: &M,
    labels: &mut Labels<D>,
    states: &[D],
    number: u32,
    node: u32,
) -> Result<(), NoMemory>
    requires drawn { AreDrawn M.drawn setting.now.apart.now.graph }
    requires shapes { All IsShape setting.now.apart.now.graph.shapes }
    requires cores { AreCores D.shape_of setting.now.apart.now.graph labels.old.cores.items }
    requires states { AreStates D.shape_of setting.now.apart.now.graph states.now }
    ensures cores { OnOk result (AreCores D.shape_of setting.now.apart.now.graph labels.new.cores.items) }
{
    let Made { core, seen } = image_to(setting, images, labels, states, number, node, true)?;
    let bare = seen.bare;
    set_seen(&mut labels.seen, number, seen);
    if bare || core.is_some() {
        set_core(setting, labels, node, core);
    }
    Ok(())
}

/// Makes what holds of the group of a node, by the edges to it.
fn renew_node<D: Domain, M: Images<D>>(
    setting: &Setting,
    images: &M,
    labels: &mut Labels<D>,
    states: &[D],
    into: &[u32],
    node: u32,
) -> Result<(), NoMemory>
    requires drawn { AreDrawn M.drawn setting.now.apart.now.graph }
    requires shapes { All IsShape setting.now.apart.now.graph.shapes }
    requires cores { AreCores D.shape_of setting.now.apart.now.graph labels.old.cores.items }
    requires states { AreStates D.shape_of setting.now.apart.now.graph states.now }
    ensures cores { OnOk result (AreCores D.shape_of setting.now.apart.now.graph labels.new.cores.items) }
{
    if into.len() == 1 {
        return renew_alone(setting, images, labels, states, into[0], node);
    }
    let core = renewed(setting, images, labels, states, into, node)?;
    set_core(setting, labels, node, core);
    Ok(())
}

/// Makes the label of a node at which no head stands, by the edges to it.
pub(crate) fn make<D: Domain, M: Images<D>>(
    setting: &Setting,
    images: &M,
    labels: &mut Labels<D>,
    states: &[D],
    node: u32,
) -> Result<(), NoMemory>
    requires drawn { AreDrawn M.drawn setting.now.apart.now.graph }
    requires shapes { All IsShape setting.now.apart.now.graph.shapes }
    requires cores { AreCores D.shape_of setting.now.apart.now.graph labels.old.cores.items }
    requires states { AreStates D.shape_of setting.now.apart.now.graph states.now }
    ensures cores { OnOk result (AreCores D.shape_of setting.now.apart.now.graph labels.new.cores.items) }
{
    let into = into_at(&setting.plan.rows, node);
    if !are_known(setting, labels, into) {
        renew_node(setting, images, labels, states, into, node)?;
    }
    let table = gathered(setting, labels, into, node)?;
    set_table(&mut labels.tables, node, table);
    Ok(())
}

/// Gives up what no node behind this one needs.
pub(crate) fn pass<D: Domain>(setting: &Setting, labels: &mut Labels<D>, node: u32)
    requires cores { AreCores D.shape_of setting.now.apart.now.graph labels.old.cores.items }
    ensures cores { AreCores D.shape_of setting.now.apart.now.graph labels.new.cores.items }
{
    for ended in ended_at(&setting.plan.rows, node) {
        set_table(&mut labels.tables, *ended, None);
    }
}

/// Puts a copy of a table at a node, or none.
pub(crate) fn put_copy(
    alloc: Global,
    tables: &mut Vec<Option<Table>>,
    node: u32,
    table: &Option<Table>,
) -> Result<(), NoMemory> {
    let table = match table {
        None => None,
        Some(table) => Some(copied(alloc, table)?),
    };
    set_table(tables, node, table);
    Ok(())
}
