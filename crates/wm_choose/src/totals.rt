// What the steps of each accumulator add up to.
ghost use Rattle.std.specs.Prelude.{◌≡◌, IfSome};
ghost use Rattle.wm_images.specs.Nodes.{node_shape};

use std::alloc::Global;
use wm_domain::{Domain, Shape};
use wm_flow::{Action, Edge, Graph, LocalSeat, Seat, Sum, Tables};
use wm_growths::{Step, growth};
use wm_ops::{List, NoMemory};
use wm_places::{function_of, head_of, local_seat_at, related_states, seat_at};
use wm_program::{Program, Scalar};

/// At most so many scalars of a head's group are accumulators: 8 of static storage and 12 of the function.
pub const SCALARS: u32 = 20;

/// By head and in each by variable, what all steps of a variable in the body of the head's loop add up to.
#[derive(Drop)]
pub struct Totals {
    pub sizes: Vec<u64>,
}

pub fn no_totals(alloc: Global, heads: u32) -> Result<Totals, NoMemory> {
    let mut sizes = Vec::new(alloc);
    for _head in 0..heads {
        for _variable in 0..SCALARS {
            sizes.push(0)?;
        }
    }
    Ok(Totals { sizes })
}

fn place(head: u32, variable: u32) -> usize {
    head as usize * SCALARS as usize + variable as usize
}

fn add(totals: &mut Totals, head: u32, variable: u32, size: u64) {
    let place = place(head, variable);
    if place < totals.sizes.len() {
        let before = totals.sizes[place];
        totals.sizes[place] = before.saturating_add(size);
    }
}

fn is_view(program: &Program, function: u32, local: u32) -> bool {
    match program.functions.items().get(function as usize) {
        None => true,
        Some(info) => match info.locals.items().get(local as usize) {
            None => true,
            Some(local) => local.view,
        },
    }
}

/// The variable of a scalar in the group of a loop's head of an instance; none where it is not in the group, or is the offset of a
/// view.
fn variable_of(program: &Program, tables: &Tables, instance: u32, scalar: Scalar) -> Option<u32> {
    match scalar {
        Scalar::Overflow => None,
        Scalar::Object(object) => match seat_at(tables, object) {
            Seat::State(k) => {
                if k < 8 {
                    return Some(k);
                }
                None
            }
            Seat::Input(_k) => None,
            Seat::Array(_k) => None,
            Seat::Constant { .. } => None,
        },
        Scalar::Local(local) => {
            let function = function_of(program, instance);
            if is_view(program, function, local) {
                return None;
            }
            match local_seat_at(tables, function, local) {
                LocalSeat::Scalar(k) => {
                    if k < 12 {
                        return Some(related_states(tables.counts) + k);
                    }
                    None
                }
                LocalSeat::Array(_k) => None,
            }
        }
    }
}

fn step_at(steps: &[Option<Step>], site: Option<u32>) -> Option<Step> {
    match site {
        None => None,
        Some(site) => match steps.get(site as usize) {
            None => None,
            Some(step) => *step,
        },
    }
}

fn instance_at(graph: &Graph, node: u32) -> Option<u32> {
    match graph.node_instance.items().get(node as usize) {
        None => None,
        Some(instance) => *instance,
    }
}

/// The shape of a node.
fn shape_at(graph: &Graph, node: u32) -> Option<&Shape>
    ensures { IfSome result (λ shape. shape.now ≡ node_shape graph.now node) }
{
    match graph.node_shape.items().get(node as usize) {
        None => None,
        Some(number) => graph.shapes.items().get(*number as usize),
    }
}

/// Adds what an operator adds by the label before it, where it is a step of an accumulator.
fn add_operated<D: Domain>(
    program: &Program,
    graph: &Graph,
    tables: &Tables,
    step: Step,
    node: u32,
    edge: &Edge,
    label: &D,
    totals: &mut Totals,
) -> Result<(), NoMemory>
    requires shape { D.shape_of label.now ≡ node_shape graph.now node }
{
    let Some(instance) = instance_at(graph, node) else {
        return Ok(());
    };
    let Some(variable) = variable_of(program, tables, instance, step.scalar) else {
        return Ok(());
    };
    let Some(shape) = shape_at(graph, node) else {
        return Err(NoMemory);
    };
    let head = head_of(tables, instance, step.loop_id)?;
    match &edge.action {
        Action::Operate { op, args, .. } => {
            let size = growth(shape, label, *op, args)?;
            add(totals, head, variable, size);
            Ok(())
        }
        _ => Ok(()),
    }
}

/// Adds what an edge from a node adds.
fn add_edge<D: Domain>(
    program: &Program,
    graph: &Graph,
    tables: &Tables,
    steps: &[Option<Step>],
    node: u32,
    edge: &Edge,
    label: &D,
    totals: &mut Totals,
) -> Result<(), NoMemory>
    requires shape { D.shape_of label.now ≡ node_shape graph.now node }
{
    match step_at(steps, edge.site) {
        None => Ok(()),
        Some(step) => add_operated(program, graph, tables, step, node, edge, label, totals),
    }
}

/// Adds what the edges from a node add, by its label.
pub fn add_edges<D: Domain>(
    program: &Program,
    graph: &Graph,
    tables: &Tables,
    steps: &[Option<Step>],
    node: u32,
    edges: &[Edge],
    label: &D,
    totals: &mut Totals,
) -> Result<(), NoMemory>
    requires shape { D.shape_of label.now ≡ node_shape graph.now node }
{
    for edge in edges {
        add_edge(program, graph, tables, steps, node, edge, label, totals)?;
    }
    Ok(())
}

fn total_at(totals: &Totals, head: u32, variable: u32) -> u64 {
    let place = place(head, variable);
    if place < totals.sizes.len() {
        return totals.sizes[place];
    }
    0
}

/// Puts the sum counter of a variable behind those of its head, which are at most four.
fn push_sum(
    sums: &mut List<Sum>,
    head: u32,
    variable: u32,
    total: u64,
    count: u32,
) -> Result<u32, NoMemory> {
    if total == 0 {
        return Ok(count);
    }
    if count >= 4 {
        return Ok(count);
    }
    if total > 2_147_483_647 {
        return Ok(count);
    }
    sums.push(Sum {
        head,
        variable,
        step: total as u32,
    })?;
    Ok(count + 1)
}

/// The first four accumulators of a head whose total is from 1 to 2147483647.
fn push_sums(sums: &mut List<Sum>, totals: &Totals, head: u32) -> Result<(), NoMemory> {
    let mut count = 0;
    for variable in 0..SCALARS {
        count = push_sum(
            sums,
            head,
            variable,
            total_at(totals, head, variable),
            count,
        )?;
    }
    Ok(())
}

pub fn sums_of(alloc: Global, totals: &Totals, heads: u32) -> Result<List<Sum>, NoMemory> {
    let mut sums = List::new(alloc);
    for head in 0..heads {
        push_sums(&mut sums, totals, head)?;
    }
    Ok(sums)
}
