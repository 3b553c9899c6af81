// Whole states: a group and what stands beside it, taken apart at the first node and put together at the heads.
ghost use Rattle.std.specs.Prelude.{◌≡◌, All, IfOk, OnOk};
ghost use Rattle.wm_domain.specs.States.{IsShape};
ghost use Rattle.wm_images.specs.Nodes.{node_shape};
ghost use Rattle.wm_walk.specs.Graphs.{AreStates};
ghost use Rattle.wm_fix.specs.Cores.{AreCores};

use crate::labels::{Labels, set_core};
use crate::rise::Risen;
use crate::setting::Setting;
use crate::slim::{all_cells_in, moved, ranges_in, set_all_cells, set_ranges};
use crate::states::{bare_at, head_at, head_there, shape_at, state_at};
use crate::tables::Table;
use wm_domain::Domain;
use wm_images::Images;
use wm_ops::{List, NoMemory};
use wm_program::Program;

/// Puts the state with which a run starts at the first node. What stands beside its group, where it has a point.
pub(crate) fn begin<D: Domain, M: Images<D>>(
    setting: &Setting,
    images: &M,
    program: &Program,
    labels: &mut Labels<D>,
) -> Result<Option<Table>, NoMemory>
    requires cores { AreCores D.shape_of setting.now.apart.now.graph labels.old.cores.items }
    ensures cores { OnOk result (AreCores D.shape_of setting.now.apart.now.graph labels.new.cores.items) }
{
    let alloc = setting.alloc;
    let Some(source) = shape_at(setting.graph, 0) else {
        return Err(NoMemory);
    };
    let Some(target) = shape_at(&setting.apart.graph, 0) else {
        return Err(NoMemory);
    };
    let first = images.first(alloc, program, setting.graph)?;
    if first.is_empty() {
        return Ok(None);
    }
    let core = moved(alloc, source, target, &first)?;
    let table = Table {
        ranges: ranges_in(alloc, source, &first)?,
        cells: all_cells_in(alloc, source, &first)?,
    };
    set_core(setting, labels, 0, Some(core));
    Ok(Some(table))
}

/// The state of a node of the graph.
fn whole<D: Domain>(setting: &Setting, node: u32, core: &D, table: &Table) -> Result<D, NoMemory>
    requires core { D.shape_of core.now ≡ node_shape setting.now.apart.now.graph node }
    ensures shape { IfOk result (λ s. D.shape_of s ≡ node_shape setting.now.graph.now node) }
{
    let Some(source) = shape_at(&setting.apart.graph, node) else {
        return Err(NoMemory);
    };
    let Some(target) = shape_at(setting.graph, node) else {
        return Err(NoMemory);
    };
    let mut state = moved(setting.alloc, source, target, core)?;
    set_ranges(target, &mut state, table.ranges.as_slice())?;
    set_all_cells(target, &mut state, table.cells.as_slice())?;
    Ok(state)
}

/// The state of a head at a node.
fn state_of<D: Domain>(
    setting: &Setting,
    risen: &Risen<D>,
    number: u32,
    node: u32,
) -> Result<D, NoMemory>
    requires shapes { All IsShape setting.now.graph.now.shapes }
    requires states { AreStates D.shape_of setting.now.apart.now.graph risen.now.states.items }
    ensures shape { IfOk result (λ s. D.shape_of s ≡ node_shape setting.now.graph.now node) }
{
    let Some(_head) = head_there(&setting.apart.graph, number, node) else {
        return Err(NoMemory);
    };
    let Some(core) = state_at(risen.states.as_slice(), number) else {
        return Err(NoMemory);
    };
    match risen.held.as_slice().get(number as usize) {
        None => Err(NoMemory),
        Some(held) => match held {
            None => bare_at(setting.alloc, setting.graph, node),
            Some(table) => whole(setting, node, core, table),
        },
    }
}

/// The states of the heads.
pub(crate) fn states_of<D: Domain>(setting: &Setting, risen: &Risen<D>) -> Result<List<D>, NoMemory>
    requires shapes { All IsShape setting.now.graph.now.shapes }
    requires states { AreStates D.shape_of setting.now.apart.now.graph risen.now.states.items }
    ensures states { IfOk result (λ states. AreStates D.shape_of setting.now.graph.now states) }
{
    let Ok(count) = u32::try_from(setting.graph.heads.items().len()) else {
        return Err(NoMemory);
    };
    let mut states = List::new(setting.alloc);
    for number in 0..count {
        let Some(head) = head_at(setting.graph, number) else {
            return Err(NoMemory);
        };
        states.push(state_of(setting, risen, number, head.node)?)?;
    }
    Ok(states)
}
