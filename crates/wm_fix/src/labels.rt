// What is known of the nodes and of the edges during a walk.
ghost use Rattle.std.specs.Prelude.{◌≡◌, slice_get, slice_set, Some, None, IfOk, IfSome};
ghost use Rattle.wm_images.specs.Nodes.{node_shape};
ghost use Rattle.wm_walk.specs.Graphs.{AreStates};
ghost use Rattle.wm_fix.specs.Cores.{AreCores};

use crate::setting::Setting;
use crate::states::{head_there, state_at};
use crate::tables::Table;
use std::alloc::Global;
use wm_arrays::Summary;
use wm_domain::Domain;
use wm_flow::Graph;
use wm_interval::Interval;
use wm_ops::NoMemory;
use wm_walk::head_of;

/// What the image along an edge was made of, and what came of it.
#[derive(Drop)]
pub(crate) struct Seen {
    /// Whether the image was made.
    pub known: bool,
    /// When the group changed last at the source, and at the node of the call.
    pub at: u64,
    pub call: u64,
    /// The ranges that are named at the source, and then those at the node of the call.
    pub read: Vec<Interval>,
    pub cells: Vec<Summary>,
    /// Whether the image has no point.
    pub bare: bool,
    /// What is named at the target.
    pub made: Vec<Interval>,
    pub made_cells: Vec<Summary>,
}

/// What is known of the nodes and of the edges of a graph.
#[derive(Drop)]
pub(crate) struct Labels<D> {
    /// By node: what holds of the group, where the label has a point. Of a head that is the head's state.
    pub cores: Vec<Option<D>>,
    /// By node: when the group changed last.
    pub stamps: Vec<u64>,
    /// By node: whether its label has no point.
    pub bare: Vec<bool>,
    /// By node: what holds beside the group, as long as a node needs it.
    pub tables: Vec<Option<Table>>,
    /// By edge.
    pub seen: Vec<Seen>,
    /// How often a group changed.
    pub clock: u64,
}

pub(crate) fn unseen(alloc: Global) -> Seen {
    Seen {
        known: false,
        at: 0,
        call: 0,
        read: Vec::new(alloc),
        cells: Vec::new(alloc),
        bare: true,
        made: Vec::new(alloc),
        made_cells: Vec::new(alloc),
    }
}

fn no_cores<D: Domain>(
    alloc: Global,
    graph: &Graph,
    count: usize,
) -> Result<Vec<Option<D>>, NoMemory>
    ensures cores { IfOk result (λ cores. AreCores D.shape_of graph.now cores.items) }
{
    let mut cores = Vec::new(alloc);
    for _node in 0..count {
        cores.push(None)?;
    }
    Ok(cores)
}

fn no_tables(alloc: Global, count: usize) -> Result<Vec<Option<Table>>, NoMemory> {
    let mut tables = Vec::new(alloc);
    for _node in 0..count {
        tables.push(None)?;
    }
    Ok(tables)
}

fn no_stamps(alloc: Global, count: usize) -> Result<Vec<u64>, NoMemory> {
    let mut stamps = Vec::new(alloc);
    for _node in 0..count {
        stamps.push(0)?;
    }
    Ok(stamps)
}

fn no_marks(alloc: Global, count: usize) -> Result<Vec<bool>, NoMemory> {
    let mut marks = Vec::new(alloc);
    for _node in 0..count {
        marks.push(true)?;
    }
    Ok(marks)
}

fn nothing_seen(alloc: Global, count: usize) -> Result<Vec<Seen>, NoMemory> {
    let mut seen = Vec::new(alloc);
    for _edge in 0..count {
        seen.push(unseen(alloc))?;
    }
    Ok(seen)
}

/// Nothing is known yet: no label has a point.
pub(crate) fn no_labels<D: Domain>(setting: &Setting) -> Result<Labels<D>, NoMemory>
    ensures cores { IfOk result (λ labels. AreCores D.shape_of setting.now.apart.now.graph labels.cores.items) }
{
    let alloc = setting.alloc;
    let count = setting.graph.node_shape.items().len();
    Ok(Labels {
        cores: no_cores(alloc, &setting.apart.graph, count)?,
        stamps: no_stamps(alloc, count)?,
        bare: no_marks(alloc, count)?,
        tables: no_tables(alloc, count)?,
        seen: nothing_seen(alloc, setting.graph.edges.items().len())?,
        clock: 0,
    })
}

pub(crate) fn stamp_at(stamps: &[u64], node: u32) -> u64 {
    match stamps.get(node as usize) {
        None => 0,
        Some(stamp) => *stamp,
    }
}

pub(crate) fn is_bare(bare: &[bool], node: u32) -> bool {
    match bare.get(node as usize) {
        None => true,
        Some(mark) => *mark,
    }
}

pub(crate) fn table_at(tables: &[Option<Table>], node: u32) -> Option<&Table> {
    match tables.get(node as usize) {
        None => None,
        Some(table) => match table {
            None => None,
            Some(table) => Some(table),
        },
    }
}

/// Takes the table of a node out.
pub(crate) fn take_table(tables: &mut Vec<Option<Table>>, node: u32) -> Option<Table> {
    let place = node as usize;
    if place < tables.len() {
        return tables[place].take();
    }
    None
}

pub(crate) fn set_table(tables: &mut Vec<Option<Table>>, node: u32, table: Option<Table>) {
    let place = node as usize;
    if place < tables.len() {
        tables[place] = table;
    }
}

pub(crate) fn seen_at(seen: &[Seen], number: u32) -> Option<&Seen> {
    seen.get(number as usize)
}

pub(crate) fn set_seen(seen: &mut Vec<Seen>, number: u32, new: Seen) {
    let place = number as usize;
    if place < seen.len() {
        seen[place] = new;
    }
}

fn kept_core<D>(cores: &[Option<D>], node: u32) -> Option<&D>
    ensures { IfSome result (λ core. slice_get cores.now node ≡ Some (Some core.now)) }
{
    match cores.get(node as usize) {
        None => None,
        Some(core) => match core {
            None => None,
            Some(core) => Some(core),
        },
    }
}

/// What holds of the group at a node, where it is kept.
pub(crate) fn core_at<'l, D: Domain>(
    setting: &Setting,
    cores: &'l [Option<D>],
    states: &'l [D],
    node: u32,
) -> Option<&'l D>
    requires cores { AreCores D.shape_of setting.now.apart.now.graph cores.now }
    requires states { AreStates D.shape_of setting.now.apart.now.graph states.now }
    ensures shape { IfSome result (λ core. D.shape_of core.now ≡ node_shape setting.now.apart.now.graph node) }
{
    match head_of(&setting.plan.rows, node) {
        None => kept_core(cores, node),
        Some(number) => match head_there(&setting.apart.graph, number, node) {
            None => None,
            Some(_head) => state_at(states, number),
        },
    }
}

/// Notes that the group of a node changed.
pub(crate) fn stamp(
    stamps: &mut Vec<u64>,
    bare: &mut Vec<bool>,
    node: u32,
    time: u64,
    is_bare: bool,
) {
    let place = node as usize;
    if place < stamps.len() {
        stamps[place] = time;
    }
    if place < bare.len() {
        bare[place] = is_bare;
    }
}

/// Notes that the state of the head at a node changed.
pub(crate) fn stamp_head<D: Domain>(
    setting: &Setting,
    labels: &mut Labels<D>,
    node: u32,
    is_bare: bool,
)
    requires cores { AreCores D.shape_of setting.now.apart.now.graph labels.old.cores.items }
    ensures cores { AreCores D.shape_of setting.now.apart.now.graph labels.new.cores.items }
{
    labels.clock = labels.clock.saturating_add(1);
    stamp(
        &mut labels.stamps,
        &mut labels.bare,
        node,
        labels.clock,
        is_bare,
    );
}

fn put_core<D: Drop>(cores: &mut Vec<Option<D>>, node: u32, core: Option<D>)
    ensures { cores.new.items ≡ slice_set cores.old.items node core }
{
    let place = node as usize;
    if place < cores.len() {
        cores[place] = core;
    }
}

/// Whether a node has this group already.
fn is_same<D: Domain>(
    setting: &Setting,
    cores: &[Option<D>],
    bare: bool,
    node: u32,
    core: &Option<D>,
) -> bool
    requires cores { AreCores D.shape_of setting.now.apart.now.graph cores.now }
    requires core { IfSome core.now (λ s. D.shape_of s ≡ node_shape setting.now.apart.now.graph node) }
{
    match core {
        None => bare,
        Some(new) => match kept_core(cores, node) {
            None => false,
            Some(old) => !bare && new.within(old) && old.within(new),
        },
    }
}

/// Gives a node a group, or none where its label has no point. Where nothing changes, no change is noted.
pub(crate) fn set_core<D: Domain>(
    setting: &Setting,
    labels: &mut Labels<D>,
    node: u32,
    core: Option<D>,
)
    requires cores { AreCores D.shape_of setting.now.apart.now.graph labels.old.cores.items }
    requires core { IfSome core (λ s. D.shape_of s ≡ node_shape setting.now.apart.now.graph node) }
    ensures cores { AreCores D.shape_of setting.now.apart.now.graph labels.new.cores.items }
{
    let bare = is_bare(labels.bare.as_slice(), node);
    if is_same(setting, labels.cores.as_slice(), bare, node, &core) {
        return;
    }
    labels.clock = labels.clock.saturating_add(1);
    let none = core.is_none();
    stamp(
        &mut labels.stamps,
        &mut labels.bare,
        node,
        labels.clock,
        none,
    );
    put_core(&mut labels.cores, node, core);
}
