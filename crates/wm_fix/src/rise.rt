// The rise: the nodes are walked in their order, and the state of a head is raised over the grid as often as an image along one of
// its edges asks for it. Where its back edge does, the walk goes back to the head. So a loop is walked until its states hold, before
// what follows it. An image is made again only where something changed that its edge reads or changes.
ghost use Rattle.std.specs.Prelude.{All, IfOk, OnOk};
ghost use Rattle.wm_domain.specs.States.{IsShape};
ghost use Rattle.wm_walk.specs.Graphs.{AreDrawn, AreStates};
ghost use Rattle.wm_fix.specs.Cores.{AreCores};

use crate::images::is_known;
use crate::labels::{Labels, stamp_head};
use crate::nodes::{make, pass, put_copy, renew, table_along};
use crate::plan::back_at;
use crate::setting::{Setting, whole_shape};
use crate::states::{bare_states, head_at, raise};
use crate::tables::{self, Table};
use std::alloc::Global;
use wm_domain::Domain;
use wm_grid::Grid;
use wm_images::Images;
use wm_ops::NoMemory;
use wm_walk::head_of;

/// The states of the heads as they rise, by head: what holds of the groups, and what holds beside them where there is a point.
#[derive(Drop)]
pub(crate) struct Risen<D> {
    pub states: Vec<D>,
    pub held: Vec<Option<Table>>,
}

/// Where the walk stands, and whether a back edge led there.
#[derive(Clone, Copy)]
struct Stand {
    node: u32,
    turned: bool,
}

pub(crate) fn no_held(alloc: Global, count: usize) -> Result<Vec<Option<Table>>, NoMemory> {
    let mut held = Vec::new(alloc);
    for _head in 0..count {
        held.push(None)?;
    }
    Ok(held)
}

/// The next node.
fn after(node: u32) -> Result<u32, NoMemory> {
    match u32::checked_add(node, 1) {
        None => Err(NoMemory),
        Some(next) => Ok(next),
    }
}

/// Raises what stands beside the group of a head. False where it holds the table already.
fn raise_table(
    setting: &Setting,
    grid: &Grid,
    held: &mut Vec<Option<Table>>,
    number: u32,
    node: u32,
    table: Option<Table>,
) -> Result<bool, NoMemory> {
    let shape = whole_shape(setting, node)?;
    let place = number as usize;
    let Some(table) = table else {
        return Ok(false);
    };
    if place >= held.len() {
        return Err(NoMemory);
    }
    Ok(tables::raise(grid, shape, &mut held[place], table))
}

/// Raises what holds of the group of a head to what an edge allows, unless the edge allows what it did. Whether it rose.
fn climb_core<D: Domain, M: Images<D>>(
    setting: &Setting,
    images: &M,
    grid: &Grid,
    risen: &mut Risen<D>,
    labels: &mut Labels<D>,
    number: u32,
    node: u32,
    edge: u32,
) -> Result<bool, NoMemory>
    requires drawn { AreDrawn M.drawn setting.now.apart.now.graph }
    requires shapes { All IsShape setting.now.apart.now.graph.shapes }
    requires states { AreStates D.shape_of setting.now.apart.now.graph risen.old.states.items }
    requires cores { AreCores D.shape_of setting.now.apart.now.graph labels.old.cores.items }
    ensures states { OnOk result (AreStates D.shape_of setting.now.apart.now.graph risen.new.states.items) }
    ensures cores { OnOk result (AreCores D.shape_of setting.now.apart.now.graph labels.new.cores.items) }
{
    if is_known(setting, labels, edge) {
        return Ok(false);
    }
    let Some(image) = renew(setting, images, labels, risen.states.as_slice(), edge, node)? else {
        return Ok(false);
    };
    let alloc = setting.alloc;
    let graph = &setting.apart.graph;
    let rose = raise(alloc, graph, grid, &mut risen.states, number, node, image)?;
    if rose {
        stamp_head(setting, labels, node, false);
    }
    Ok(rose)
}

/// Raises the state of a head to what an edge allows. Whether it rose.
fn climb<D: Domain, M: Images<D>>(
    setting: &Setting,
    images: &M,
    grid: &Grid,
    risen: &mut Risen<D>,
    labels: &mut Labels<D>,
    number: u32,
    node: u32,
    edge: u32,
) -> Result<bool, NoMemory>
    requires drawn { AreDrawn M.drawn setting.now.apart.now.graph }
    requires shapes { All IsShape setting.now.apart.now.graph.shapes }
    requires states { AreStates D.shape_of setting.now.apart.now.graph risen.old.states.items }
    requires cores { AreCores D.shape_of setting.now.apart.now.graph labels.old.cores.items }
    ensures states { OnOk result (AreStates D.shape_of setting.now.apart.now.graph risen.new.states.items) }
    ensures cores { OnOk result (AreCores D.shape_of setting.now.apart.now.graph labels.new.cores.items) }
{
    let rose = climb_core(setting, images, grid, risen, labels, number, node, edge)?;
    let table = table_along(setting, labels, edge, node)?;
    let wider = raise_table(setting, grid, &mut risen.held, number, node, table)?;
    Ok(rose || wider)
}

/// The label of a head is its state.
pub(crate) fn put_head<D: Domain>(
    setting: &Setting,
    held: &[Option<Table>],
    labels: &mut Labels<D>,
    number: u32,
    node: u32,
) -> Result<(), NoMemory>
    requires cores { AreCores D.shape_of setting.now.apart.now.graph labels.old.cores.items }
    ensures cores { OnOk result (AreCores D.shape_of setting.now.apart.now.graph labels.new.cores.items) }
{
    match held.get(number as usize) {
        None => Err(NoMemory),
        Some(table) => put_copy(setting.alloc, &mut labels.tables, node, table),
    }
}

/// Makes the label of a node. Where a head stands there to which no back edge led, its state is raised to its entry edge.
fn come<D: Domain, M: Images<D>>(
    setting: &Setting,
    images: &M,
    grid: &Grid,
    risen: &mut Risen<D>,
    labels: &mut Labels<D>,
    start: &Option<Table>,
    stand: Stand,
) -> Result<(), NoMemory>
    requires drawn { AreDrawn M.drawn setting.now.apart.now.graph }
    requires shapes { All IsShape setting.now.apart.now.graph.shapes }
    requires states { AreStates D.shape_of setting.now.apart.now.graph risen.old.states.items }
    requires cores { AreCores D.shape_of setting.now.apart.now.graph labels.old.cores.items }
    ensures states { OnOk result (AreStates D.shape_of setting.now.apart.now.graph risen.new.states.items) }
    ensures cores { OnOk result (AreCores D.shape_of setting.now.apart.now.graph labels.new.cores.items) }
{
    let node = stand.node;
    if node == 0 {
        return put_copy(setting.alloc, &mut labels.tables, 0, start);
    }
    let Some(number) = head_of(&setting.plan.rows, node) else {
        return make(setting, images, labels, risen.states.as_slice(), node);
    };
    let Some(head) = head_at(setting.graph, number) else {
        return Err(NoMemory);
    };
    if !stand.turned {
        climb(
            setting, images, grid, risen, labels, number, node, head.entry,
        )?;
    }
    put_head(setting, risen.held.as_slice(), labels, number, node)
}

/// Where the walk goes from a node whose label is made.
fn leave<D: Domain, M: Images<D>>(
    setting: &Setting,
    images: &M,
    grid: &Grid,
    risen: &mut Risen<D>,
    labels: &mut Labels<D>,
    node: u32,
) -> Result<Stand, NoMemory>
    requires drawn { AreDrawn M.drawn setting.now.apart.now.graph }
    requires shapes { All IsShape setting.now.apart.now.graph.shapes }
    requires states { AreStates D.shape_of setting.now.apart.now.graph risen.old.states.items }
    requires cores { AreCores D.shape_of setting.now.apart.now.graph labels.old.cores.items }
    ensures states { OnOk result (AreStates D.shape_of setting.now.apart.now.graph risen.new.states.items) }
    ensures cores { OnOk result (AreCores D.shape_of setting.now.apart.now.graph labels.new.cores.items) }
{
    if let Some(number) = back_at(setting.plan, node) {
        let Some(head) = head_at(setting.graph, number) else {
            return Err(NoMemory);
        };
        let at = head.node;
        if climb(setting, images, grid, risen, labels, number, at, head.back)? {
            return Ok(Stand {
                node: at,
                turned: true,
            });
        }
    }
    pass(setting, labels, node);
    Ok(Stand {
        node: after(node)?,
        turned: false,
    })
}

/// The least states on the grid that are accepted, one for each head.
pub(crate) fn rise<D: Domain, M: Images<D>>(
    setting: &Setting,
    images: &M,
    grid: &Grid,
    labels: &mut Labels<D>,
    start: &Option<Table>,
) -> Result<Risen<D>, NoMemory>
    requires drawn { AreDrawn M.drawn setting.now.apart.now.graph }
    requires shapes { All IsShape setting.now.apart.now.graph.shapes }
    requires cores { AreCores D.shape_of setting.now.apart.now.graph labels.old.cores.items }
    ensures states { IfOk result (λ risen. AreStates D.shape_of setting.now.apart.now.graph risen.states.items) }
    ensures cores { OnOk result (AreCores D.shape_of setting.now.apart.now.graph labels.new.cores.items) }
{
    let Ok(count) = u32::try_from(setting.graph.node_shape.items().len()) else {
        return Err(NoMemory);
    };
    let mut risen = Risen {
        states: bare_states(setting.alloc, &setting.apart.graph)?,
        held: no_held(setting.alloc, setting.graph.heads.items().len())?,
    };
    let mut stand = Stand {
        node: 0,
        turned: false,
    };
    for step in 0..u64::MAX {
        if stand.node >= count {
            return Ok(risen);
        }
        come(setting, images, grid, &mut risen, labels, start, stand)?;
        stand = leave(setting, images, grid, &mut risen, labels, stand.node)?;
    }
    Err(NoMemory)
}
