// The whole text.
ghost use Rattle.std.specs.Prelude.{◌≡◌, All, IfOk, Some, length, slice_get, slice_index_or};
ghost use Rattle.wm_domain.specs.States.{IsShape};
ghost use Rattle.wm_domain.specs.declared.shape.Shape as shapes;
ghost use Rattle.wm_cert_write.specs.Heads.{IsHeadText, IsNumbered, HaveShapes, AreHeads, IsTextOf, shape_at};

use crate::heads::head_text;
use std::alloc::Global;
use wm_cert_text::{Head as Told, certificate_text};
use wm_certificate::Certificate;
use wm_domain::Domain;
use wm_flow::{Graph, Head};
use wm_ops::{List, NoMemory};

/// The number of a node's shape.
fn shape_number(shapes: &[u32], node: u32) -> u32
    ensures { result ≡ slice_index_or shapes.now node 0 }
{
    let place = node as usize;
    if place < shapes.len() {
        return shapes[place];
    }
    0
}

/// A head of the text. A head whose node has no shape, which no graph of a program has, is refused.
fn head_at<D: Domain>(
    alloc: Global,
    graph: &Graph,
    number: usize,
    head: Head,
    state: &D,
) -> Result<Told, NoMemory>
    requires shapes { All IsShape graph.now.shapes }
    requires shape { (shape : shapes.Shape) → shape_at graph.now head.node ≡ Some shape → D.shape_of state.now ≡ shape }
    ensures text { IfOk result (λ told. IsHeadText D.PAIRS graph.now number head (D.shape_of state.now) (D.holds state.now) told) }
{
    let place = shape_number(graph.node_shape.items(), head.node);
    match graph.shapes.items().get(place as usize) {
        None => Err(NoMemory),
        Some(shape) => head_text(alloc, graph, number, head, shape, state),
    }
}

/// A head of the text with the state at its number. A head without a state is refused.
fn numbered_head<D: Domain>(
    alloc: Global,
    graph: &Graph,
    number: usize,
    head: Head,
    states: &[D],
) -> Result<Told, NoMemory>
    requires shapes { All IsShape graph.now.shapes }
    requires states { HaveShapes D.shape_of graph.now states.now }
    requires head { slice_get graph.now.heads number ≡ Some head }
    ensures text { IfOk result (λ told. IsNumbered D.shape_of D.holds D.PAIRS graph.now number states.now told) }
{
    match states.get(number) {
        None => Err(NoMemory),
        Some(state) => head_at(alloc, graph, number, head, state),
    }
}

/// The heads of the text.
fn told_heads<D: Domain>(alloc: Global, graph: &Graph, states: &[D]) -> Result<List<Told>, NoMemory>
    requires shapes { All IsShape graph.now.shapes }
    requires states { HaveShapes D.shape_of graph.now states.now }
    ensures heads { IfOk result (λ told. AreHeads D.shape_of D.holds D.PAIRS graph.now states.now (length graph.now.heads) told) }
{
    let mut told = List::new(alloc);
    let mut number = 0;
    for head in graph.heads.items() {
        told.push(numbered_head(alloc, graph, number, *head, states)?)?;
        number += 1;
    }
    Ok(told)
}

/// The text of a certificate, with the attained bounds of each state; of the second version where the graph has sum counters.
/// Each state has the shape of its head's node, and the shapes have full ranges of 32 bits.
pub fn write_text<D: Domain>(
    alloc: Global,
    graph: &Graph,
    certificate: &Certificate<D>,
) -> Result<Vec<u8>, NoMemory>
    requires shapes { All IsShape graph.now.shapes }
    requires states { HaveShapes D.shape_of graph.now certificate.now.heads }
    ensures text { IfOk result (λ text. IsTextOf D.shape_of D.holds D.PAIRS graph.now certificate.now.heads text.items) }
{
    let told = told_heads(alloc, graph, certificate.heads.items())?;
    certificate_text(alloc, told.items())
}
