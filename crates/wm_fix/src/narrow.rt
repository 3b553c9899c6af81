// Narrowing: each head gets the least state that holds the images along its two edges, by the labels of the states before.
ghost use Rattle.std.specs.Prelude.{All, IfOk, OnOk};
ghost use Rattle.wm_domain.specs.States.{IsShape};
ghost use Rattle.wm_walk.specs.Graphs.{AreDrawn, AreStates};
ghost use Rattle.wm_fix.specs.Cores.{AreCores};

use crate::labels::{Labels, stamp_head};
use crate::nodes::{make, pass, put_copy, renew, table_along};
use crate::plan::back_at;
use crate::rise::{Risen, no_held, put_head};
use crate::setting::Setting;
use crate::states::{are_within, bare_states, head_at, is_within, join, state_at};
use crate::tables::{Table, is_below, joined};
use wm_domain::Domain;
use wm_images::Images;
use wm_ops::NoMemory;
use wm_walk::head_of;

/// Joins a table to that of a head.
fn join_table(held: &mut Vec<Option<Table>>, number: u32, table: Option<Table>) {
    let place = number as usize;
    if place < held.len() {
        if let Some(table) = table {
            let old = held[place].take();
            held[place] = Some(joined(old, table));
        }
    }
}

/// Joins the image along an edge to a head.
fn gather<D: Domain, M: Images<D>>(
    setting: &Setting,
    images: &M,
    states: &[D],
    labels: &mut Labels<D>,
    next: &mut Risen<D>,
    number: u32,
    node: u32,
    edge: u32,
) -> Result<(), NoMemory>
    requires drawn { AreDrawn M.drawn setting.now.apart.now.graph }
    requires shapes { All IsShape setting.now.apart.now.graph.shapes }
    requires states { AreStates D.shape_of setting.now.apart.now.graph states.now }
    requires next { AreStates D.shape_of setting.now.apart.now.graph next.old.states.items }
    requires cores { AreCores D.shape_of setting.now.apart.now.graph labels.old.cores.items }
    ensures next { OnOk result (AreStates D.shape_of setting.now.apart.now.graph next.new.states.items) }
    ensures cores { OnOk result (AreCores D.shape_of setting.now.apart.now.graph labels.new.cores.items) }
{
    let Some(image) = renew(setting, images, labels, states, edge, node)? else {
        return Ok(());
    };
    let table = table_along(setting, labels, edge, node)?;
    join_table(&mut next.held, number, table);
    join(&setting.apart.graph, &mut next.states, number, node, &image)
}

/// Makes the label of a node. What the entry edge of a head allows is joined.
fn come<D: Domain, M: Images<D>>(
    setting: &Setting,
    images: &M,
    risen: &Risen<D>,
    labels: &mut Labels<D>,
    next: &mut Risen<D>,
    start: &Option<Table>,
    node: u32,
) -> Result<(), NoMemory>
    requires drawn { AreDrawn M.drawn setting.now.apart.now.graph }
    requires shapes { All IsShape setting.now.apart.now.graph.shapes }
    requires states { AreStates D.shape_of setting.now.apart.now.graph risen.now.states.items }
    requires next { AreStates D.shape_of setting.now.apart.now.graph next.old.states.items }
    requires cores { AreCores D.shape_of setting.now.apart.now.graph labels.old.cores.items }
    ensures next { OnOk result (AreStates D.shape_of setting.now.apart.now.graph next.new.states.items) }
    ensures cores { OnOk result (AreCores D.shape_of setting.now.apart.now.graph labels.new.cores.items) }
{
    if node == 0 {
        return put_copy(setting.alloc, &mut labels.tables, 0, start);
    }
    let states = risen.states.as_slice();
    let Some(number) = head_of(&setting.plan.rows, node) else {
        return make(setting, images, labels, states, node);
    };
    let Some(head) = head_at(setting.graph, number) else {
        return Err(NoMemory);
    };
    gather(
        setting, images, states, labels, next, number, node, head.entry,
    )?;
    put_head(setting, risen.held.as_slice(), labels, number, node)
}

/// What the back edge from a node allows is joined, if there is one, and what is not needed any more is given up.
fn leave<D: Domain, M: Images<D>>(
    setting: &Setting,
    images: &M,
    risen: &Risen<D>,
    labels: &mut Labels<D>,
    next: &mut Risen<D>,
    node: u32,
) -> Result<(), NoMemory>
    requires drawn { AreDrawn M.drawn setting.now.apart.now.graph }
    requires shapes { All IsShape setting.now.apart.now.graph.shapes }
    requires states { AreStates D.shape_of setting.now.apart.now.graph risen.now.states.items }
    requires next { AreStates D.shape_of setting.now.apart.now.graph next.old.states.items }
    requires cores { AreCores D.shape_of setting.now.apart.now.graph labels.old.cores.items }
    ensures next { OnOk result (AreStates D.shape_of setting.now.apart.now.graph next.new.states.items) }
    ensures cores { OnOk result (AreCores D.shape_of setting.now.apart.now.graph labels.new.cores.items) }
{
    let states = risen.states.as_slice();
    if let Some(number) = back_at(setting.plan, node) {
        let Some(head) = head_at(setting.graph, number) else {
            return Err(NoMemory);
        };
        gather(
            setting, images, states, labels, next, number, head.node, head.back,
        )?;
    }
    pass(setting, labels, node);
    Ok(())
}

/// The least states that hold the images along the edges of the heads, by the labels of the states.
fn once<D: Domain, M: Images<D>>(
    setting: &Setting,
    images: &M,
    risen: &Risen<D>,
    labels: &mut Labels<D>,
    start: &Option<Table>,
) -> Result<Risen<D>, NoMemory>
    requires drawn { AreDrawn M.drawn setting.now.apart.now.graph }
    requires shapes { All IsShape setting.now.apart.now.graph.shapes }
    requires states { AreStates D.shape_of setting.now.apart.now.graph risen.now.states.items }
    requires cores { AreCores D.shape_of setting.now.apart.now.graph labels.old.cores.items }
    ensures states { IfOk result (λ next. AreStates D.shape_of setting.now.apart.now.graph next.states.items) }
    ensures cores { OnOk result (AreCores D.shape_of setting.now.apart.now.graph labels.new.cores.items) }
{
    let Ok(count) = u32::try_from(setting.graph.node_shape.items().len()) else {
        return Err(NoMemory);
    };
    let mut next = Risen {
        states: bare_states(setting.alloc, &setting.apart.graph)?,
        held: no_held(setting.alloc, setting.graph.heads.items().len())?,
    };
    for node in 0..count {
        come(setting, images, risen, labels, &mut next, start, node)?;
        leave(setting, images, risen, labels, &mut next, node)?;
    }
    Ok(next)
}

/// Whether each table lies within the other of the same head.
fn are_below(tables: &[Option<Table>], others: &[Option<Table>]) -> bool {
    if tables.len() != others.len() {
        return false;
    }
    for k in 0..tables.len() {
        if !is_below(&tables[k], &others[k]) {
            return false;
        }
    }
    true
}

/// Notes which heads' groups are not what they were.
fn note_changed<D: Domain>(
    setting: &Setting,
    risen: &Risen<D>,
    next: &Risen<D>,
    labels: &mut Labels<D>,
    count: u32,
)
    requires states { AreStates D.shape_of setting.now.apart.now.graph risen.now.states.items }
    requires next { AreStates D.shape_of setting.now.apart.now.graph next.now.states.items }
    requires cores { AreCores D.shape_of setting.now.apart.now.graph labels.old.cores.items }
    ensures cores { AreCores D.shape_of setting.now.apart.now.graph labels.new.cores.items }
{
    let graph = &setting.apart.graph;
    for number in 0..count {
        let (one, other) = (risen.states.as_slice(), next.states.as_slice());
        if !is_within(graph, one, other, number) || !is_within(graph, other, one, number) {
            note_head(setting, next.states.as_slice(), labels, number);
        }
    }
}

fn note_head<D: Domain>(setting: &Setting, states: &[D], labels: &mut Labels<D>, number: u32)
    requires cores { AreCores D.shape_of setting.now.apart.now.graph labels.old.cores.items }
    ensures cores { AreCores D.shape_of setting.now.apart.now.graph labels.new.cores.items }
{
    if let Some(head) = head_at(setting.graph, number) {
        let bare = match state_at(states, number) {
            None => true,
            Some(state) => state.is_empty(),
        };
        stamp_head(setting, labels, head.node, bare);
    }
}

/// Narrows the states so many times. Where one time changes nothing, those that are left would not either.
pub(crate) fn narrowed<D: Domain, M: Images<D>>(
    setting: &Setting,
    images: &M,
    labels: &mut Labels<D>,
    start: &Option<Table>,
    mut risen: Risen<D>,
    times: u32,
) -> Result<Risen<D>, NoMemory>
    requires drawn { AreDrawn M.drawn setting.now.apart.now.graph }
    requires shapes { All IsShape setting.now.apart.now.graph.shapes }
    requires states { AreStates D.shape_of setting.now.apart.now.graph risen.states.items }
    requires cores { AreCores D.shape_of setting.now.apart.now.graph labels.old.cores.items }
    ensures states { IfOk result (λ risen. AreStates D.shape_of setting.now.apart.now.graph risen.states.items) }
{
    let Ok(count) = u32::try_from(setting.graph.heads.items().len()) else {
        return Err(NoMemory);
    };
    let graph = &setting.apart.graph;
    for time in 0..times {
        let next = once(setting, images, &risen, labels, start)?;
        let still = are_within(
            graph,
            risen.states.as_slice(),
            next.states.as_slice(),
            count,
        );
        if still && are_below(risen.held.as_slice(), next.held.as_slice()) {
            return Ok(risen);
        }
        note_changed(setting, &risen, &next, labels, count);
        risen = next;
    }
    Ok(risen)
}
