// What is proved of a program by a certificate that is found.
ghost use Rattle.std.specs.Prelude.{All, IfOk};
ghost use Rattle.wm_domain.specs.States.{IsShape};
ghost use Rattle.wm_drawn.specs.Drawn.{IsDrawn};
ghost use Rattle.wm_walk.specs.Graphs.{AreDrawn, AreStates};
ghost use Rattle.wm_proving.specs.Proofs.{IsDrawnFor, IsGraphOf, IsProved};

use crate::shapes::are_shapes;
use std::alloc::Global;
use wm_apart::{Apart, apart_of};
use wm_certificate::Certificate;
use wm_check::check;
use wm_choose::choose_sums;
use wm_domain::Domain;
use wm_drawn::is_drawn;
use wm_findings::Findings;
use wm_fix::find;
use wm_flow::{Graph, Sum};
use wm_grid::Grid;
use wm_lower::lower;
use wm_ops::NoMemory;
use wm_program::Program;
use wm_stepped::Steps;
use wm_weights::Weights;

/// What is proved of a program.
#[derive(Drop)]
pub struct Proof<D> {
    /// The graph of the program for the sum counters of the certificate.
    pub graph: Graph,
    /// A state for each head of the graph. It is accepted.
    pub certificate: Certificate<D>,
    /// What its labels tell.
    pub findings: Findings,
}

/// A certificate that was found, with its graph.
#[derive(Drop)]
struct Candidate<D> {
    graph: Graph,
    certificate: Certificate<D>,
}

/// The graph of a program for these sum counters. One that is not drawn as states are carried, which no program has, is refused.
pub(crate) fn drawn(alloc: Global, program: &Program, sums: &[Sum]) -> Result<Graph, NoMemory>
    ensures graph { IfOk result (IsDrawnFor program.now sums.now) }
    ensures shapes { IfOk result (λ graph. All IsShape graph.shapes) }
    ensures drawn { IfOk result (λ graph. AreDrawn IsDrawn graph) }
{
    let graph = lower(alloc, program, sums)?;
    if !are_shapes(graph.shapes.items()) {
        return Err(NoMemory);
    }
    if !is_drawn(alloc, &graph) {
        return Err(NoMemory);
    }
    Ok(graph)
}

/// The edges of a graph apart from each other. One that is not drawn as states are carried, which no program has, is refused.
fn parted(alloc: Global, graph: &Graph) -> Result<Apart, NoMemory>
    ensures shapes { IfOk result (λ apart. All IsShape apart.graph.shapes) }
    ensures drawn { IfOk result (λ apart. AreDrawn IsDrawn apart.graph) }
{
    let apart = apart_of(alloc, graph)?;
    if !are_shapes(apart.graph.shapes.items()) {
        return Err(NoMemory);
    }
    if !is_drawn(alloc, &apart.graph) {
        return Err(NoMemory);
    }
    Ok(apart)
}

/// A certificate for these sum counters.
fn found<D: Domain>(
    alloc: Global,
    program: &Program,
    grid: &Grid,
    sums: &[Sum],
) -> Result<Candidate<D>, NoMemory>
    ensures graph { IfOk result (λ found. IsDrawnFor program.now sums.now found.graph) }
    ensures shapes { IfOk result (λ found. All IsShape found.graph.shapes) }
    ensures drawn { IfOk result (λ found. AreDrawn IsDrawn found.graph) }
    ensures states { IfOk result (λ found. AreStates D.shape_of found.graph found.certificate.heads) }
{
    let graph = drawn(alloc, program, sums)?;
    let apart = parted(alloc, &graph)?;
    let certificate = find(alloc, &Steps, program, &graph, &apart, grid)?;
    Ok(Candidate { graph, certificate })
}

/// The certificate with the sum counters that are chosen by the one without them, or the latter where none are chosen.
fn best<D: Domain>(alloc: Global, program: &Program) -> Result<Candidate<D>, NoMemory>
    ensures graph { IfOk result (λ found. IsGraphOf program.now found.graph) }
    ensures shapes { IfOk result (λ found. All IsShape found.graph.shapes) }
    ensures drawn { IfOk result (λ found. AreDrawn IsDrawn found.graph) }
    ensures states { IfOk result (λ found. AreStates D.shape_of found.graph found.certificate.heads) }
{
    let grid = Grid::of(alloc, program)?;
    let plain = found(alloc, program, &grid, &[])?;
    let sums = choose_sums(alloc, &Steps, program, &plain.graph, &plain.certificate)?;
    if sums.items().is_empty() {
        return Ok(plain);
    }
    found(alloc, program, &grid, sums.items())
}

/// A certificate of a program that is found and accepted, with the graph and the findings.
///
/// `NoMemory`: memory ran out. The weights have one for each word that the program uses.
pub fn proved<D: Domain>(
    alloc: Global,
    program: &Program,
    weights: &Weights,
) -> Result<Proof<D>, NoMemory>
    ensures proved { IfOk result (λ proof. IsProved D.holds D.shape_of program.now proof.graph proof.certificate.heads) }
    ensures shapes { IfOk result (λ proof. All IsShape proof.graph.shapes) }
    ensures drawn { IfOk result (λ proof. AreDrawn IsDrawn proof.graph) }
    ensures states { IfOk result (λ proof. AreStates D.shape_of proof.graph proof.certificate.heads) }
{
    let Candidate { graph, certificate } = best(alloc, program)?;
    match check(alloc, &Steps, program, &graph, weights, &certificate) {
        Ok(findings) => Ok(Proof {
            graph,
            certificate,
            findings,
        }),
        Err(_fault) => Err(NoMemory),
    }
}
