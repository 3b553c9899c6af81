// Whether a graph can have the sum counters of a text.
ghost use Rattle.std.specs.Prelude.{◌≡◌, ◌<◌, ◌-◌, ◌^◌, Some, length, true, slice_get, slice_index_or};
ghost use Rattle.wm_cert_heads.specs.Matching.{are_loop, is_frame, names_match};
ghost use Rattle.wm_cert_sums.specs.Asked.{has_negative, is_summable, are_summable, shape_at, summable_in, same_instance, is_up_to, is_within, is_loop, is_innermost, sums_fit, fits_head, head_fits};

use wm_cert_text::{Head as Told, HeadName, SumStep};
use wm_flow::{Edge, Graph, Head};
use wm_interval::Interval;

fn are_loop(loop_id: Option<u32>, instance: Option<u32>, told_id: u32, told_instance: u32) -> bool
    ensures { result ≡ are_loop loop_id instance told_id told_instance }
{
    match loop_id {
        None => false,
        Some(loop_id) => match instance {
            None => false,
            Some(instance) => {
                if loop_id == told_id {
                    return instance == told_instance;
                }
                false
            }
        },
    }
}

fn is_frame(loop_id: Option<u32>) -> bool
    ensures { result ≡ is_frame loop_id }
{
    match loop_id {
        None => true,
        Some(_loop_id) => false,
    }
}

fn names_match(loop_id: Option<u32>, instance: Option<u32>, name: HeadName) -> bool
    ensures { result ≡ names_match loop_id instance name }
{
    match name {
        HeadName::Frame => is_frame(loop_id),
        HeadName::Loop {
            loop_id: told_id,
            instance: told_instance,
        } => are_loop(loop_id, instance, told_id, told_instance),
    }
}

/// Whether the variable is a scalar of the group.
fn is_summable(group: &[Interval], sum: SumStep) -> bool
    ensures { result ≡ is_summable group.now sum }
{
    match group.get(sum.variable as usize) {
        None => false,
        Some(full) => full.low < 0,
    }
}

fn are_summable(group: &[Interval], sums: &[SumStep]) -> bool
    ensures { result ≡ are_summable group.now sums.now }
{
    for sum in sums {
        if !is_summable(group, *sum) {
            return false;
        }
    }
    true
}

fn shape_number(shapes: &[u32], node: u32) -> u32
    ensures { result ≡ slice_index_or shapes.now node 0 }
{
    let place = node as usize;
    if place < shapes.len() {
        return shapes[place];
    }
    0
}

fn summable_at(graph: &Graph, node: u32, sums: &[SumStep]) -> bool
    ensures { result ≡ summable_in (shape_at graph.now node) sums.now }
{
    let number = shape_number(graph.node_shape.items(), node);
    match graph.shapes.items().get(number as usize) {
        None => false,
        Some(shape) => are_summable(shape.group.items(), sums),
    }
}

fn same_instance(a: Option<u32>, b: Option<u32>) -> bool
    ensures { result ≡ same_instance a b }
{
    match a {
        None => false,
        Some(a) => match b {
            None => false,
            Some(b) => a == b,
        },
    }
}

fn is_up_to(node: u32, edges: &[Edge], back: u32) -> bool
    ensures { result ≡ is_up_to node (slice_get edges.now back) }
{
    match edges.get(back as usize) {
        None => false,
        Some(edge) => node <= edge.source,
    }
}

fn is_within(graph: &Graph, head: Head, next: Head) -> bool
    ensures { result ≡ is_within graph.now head (Some next) }
{
    if !same_instance(head.instance, next.instance) {
        return false;
    }
    if head.node < next.node {
        return is_up_to(next.node, graph.edges.items(), head.back);
    }
    false
}

fn is_loop(loop_id: Option<u32>) -> bool
    ensures { result ≡ is_loop loop_id }
{
    match loop_id {
        None => false,
        Some(_loop_id) => true,
    }
}

/// Whether the head is that of a loop in which no loop of its instance stands.
fn is_innermost(graph: &Graph, number: usize, head: Head) -> bool
    requires { number < 2 ^ 64 - 1 }
    ensures { result ≡ is_innermost graph.now number head }
{
    if !is_loop(head.loop_id) {
        return false;
    }
    match graph.heads.items().get(number + 1) {
        None => true,
        Some(next) => !is_within(graph, head, *next),
    }
}

fn sums_fit(graph: &Graph, number: usize, head: Head, sums: &[SumStep]) -> bool
    requires { number < 2 ^ 64 - 1 }
    ensures { result ≡ sums_fit graph.now number head sums.now }
{
    match sums.split_first() {
        None => true,
        Some((_first, _rest)) => {
            if is_innermost(graph, number, head) {
                return summable_at(graph, head.node, sums);
            }
            false
        }
    }
}

#[tactic(auto, unfolding(crate::specs::Asked::fits_head))]
fn fits_head(graph: &Graph, number: usize, head: Head, told: &Told) -> bool
    requires { number < 2 ^ 64 - 1 }
    ensures { result ≡ fits_head graph.now number head told.now }
{
    if names_match(head.loop_id, head.instance, told.name) {
        return sums_fit(graph, number, head, told.sums.items());
    }
    false
}

fn head_fits(graph: &Graph, number: usize, head: Head, told: &[Told]) -> bool
    requires { number < 2 ^ 64 - 1 }
    ensures { result ≡ head_fits graph.now number head (slice_get told.now number) }
{
    match told.get(number) {
        None => false,
        Some(told) => fits_head(graph, number, head, told),
    }
}

fn all_fit(graph: &Graph, told: &[Told], heads: &[Head]) -> bool {
    for (number, head) in heads.iter().enumerate() {
        if !head_fits(graph, number, *head, told) {
            return false;
        }
    }
    true
}

/// Whether the heads of a text are those of the graph by their names, and the graph can have their sum counters.
pub fn heads_fit(graph: &Graph, told: &[Told]) -> bool
    ensures count { result ≡ true → length told.now ≡ length graph.now.heads }
{
    if told.len() != graph.heads.items().len() {
        return false;
    }
    all_fit(graph, told, graph.heads.items())
}
