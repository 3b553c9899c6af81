// What is proved of a program by a certificate that is read.
ghost use Rattle.std.specs.Prelude.{◌≡◌, All, IfOk};
ghost use Rattle.std.specs.Result.{MatchResult};
ghost use Rattle.wm_cert_states.specs.Answers as states;
ghost use Rattle.wm_cert_states.specs.Told.{AreOfText};
ghost use Rattle.wm_domain.specs.States.{IsShape};
ghost use Rattle.wm_drawn.specs.Drawn.{IsDrawn};
ghost use Rattle.wm_walk.specs.Graphs.{AreDrawn, AreStates};
ghost use Rattle.wm_proving.specs.Proofs.{IsAsked, IsByText, IsChecked};
ghost use Rattle.wm_proving.specs.Refusals.{cert_fault, check_fault, Refuses};

use crate::finding::{Proof, drawn};
use std::alloc::Global;
use wm_cert_states::{CertFault, read_text};
use wm_cert_sums::read_sums;
use wm_certificate::Certificate;
use wm_check::{CheckFault, check};
use wm_domain::Domain;
use wm_flow::{Graph, Sum};
use wm_ops::List;
use wm_program::Program;
use wm_report::RunFault;
use wm_stepped::Steps;
use wm_weights::Weights;

/// Why bytes are no certificate, as a refusal.
fn cert_fault(fault: CertFault) -> RunFault
    ensures { result ≡ cert_fault fault }
{
    match fault {
        CertFault::BadText { line } => RunFault::BadText { line },
        CertFault::WrongHeads => RunFault::WrongHeads,
        CertFault::NoMemory => RunFault::Memory,
    }
}

/// Why a certificate is not accepted, as a refusal.
fn check_fault(fault: CheckFault) -> RunFault
    ensures { result ≡ check_fault fault }
{
    match fault {
        CheckFault::NotInductive { gap } => RunFault::NotInductive { gap },
        CheckFault::NoMemory => RunFault::Memory,
    }
}

/// The sum counters that the bytes of a certificate ask of the program.
fn sums_in(
    alloc: Global,
    pairs: bool,
    program: &Program,
    bytes: &[u8],
) -> Result<List<Sum>, RunFault>
    ensures answer { MatchResult result (IsAsked program.now bytes.now) (Refuses pairs bytes.now) }
{
    match drawn(alloc, program, &[]) {
        Ok(plain) => match read_sums(alloc, bytes, &plain) {
            Ok(sums) => Ok(sums),
            Err(fault) => Err(cert_fault(fault)),
        },
        Err(_refused) => Err(RunFault::Memory),
    }
}

/// The certificate that the bytes are by a graph.
fn told_by<D: Domain>(
    alloc: Global,
    bytes: &[u8],
    graph: &Graph,
) -> Result<Certificate<D>, RunFault>
    requires shapes { All IsShape graph.now.shapes }
    ensures answer { MatchResult result (λ certificate. states.Accepts D.PAIRS graph.now bytes.now) (Refuses D.PAIRS bytes.now) }
    ensures states { IfOk result (λ certificate. AreStates D.shape_of graph.now certificate.heads) }
    ensures text { IfOk result (λ certificate. AreOfText D.shape_of D.holds D.PAIRS bytes.now certificate.heads) }
{
    match read_text(alloc, bytes, graph) {
        Ok(certificate) => Ok(certificate),
        Err(fault) => Err(cert_fault(fault)),
    }
}

/// What a certificate that was read proves by its graph.
fn checked_as<D: Domain>(
    alloc: Global,
    program: &Program,
    weights: &Weights,
    bytes: &[u8],
    graph: Graph,
    certificate: Certificate<D>,
) -> Result<Proof<D>, RunFault>
    requires shapes { All IsShape graph.shapes }
    requires drawn { AreDrawn IsDrawn graph }
    requires states { AreStates D.shape_of graph certificate.heads }
    requires told { states.Accepts D.PAIRS graph bytes.now }
    requires text { AreOfText D.shape_of D.holds D.PAIRS bytes.now certificate.heads }
    ensures answer { MatchResult result (λ proof. IsByText D.holds D.shape_of D.PAIRS program.now bytes.now graph proof.graph proof.certificate.heads) (Refuses D.PAIRS bytes.now) }
    ensures text { IfOk result (λ proof. AreOfText D.shape_of D.holds D.PAIRS bytes.now proof.certificate.heads) }
{
    match check(alloc, &Steps, program, &graph, weights, &certificate) {
        Ok(findings) => Ok(Proof {
            graph,
            certificate,
            findings,
        }),
        Err(fault) => Err(check_fault(fault)),
    }
}

/// What the certificate of these bytes proves by a graph.
fn checked_by<D: Domain>(
    alloc: Global,
    program: &Program,
    weights: &Weights,
    bytes: &[u8],
    graph: Graph,
) -> Result<Proof<D>, RunFault>
    requires shapes { All IsShape graph.shapes }
    requires drawn { AreDrawn IsDrawn graph }
    ensures answer { MatchResult result (λ proof. IsByText D.holds D.shape_of D.PAIRS program.now bytes.now graph proof.graph proof.certificate.heads) (Refuses D.PAIRS bytes.now) }
    ensures text { IfOk result (λ proof. AreOfText D.shape_of D.holds D.PAIRS bytes.now proof.certificate.heads) }
{
    match told_by(alloc, bytes, &graph) {
        Ok(certificate) => checked_as(alloc, program, weights, bytes, graph, certificate),
        Err(fault) => Err(fault),
    }
}

/// What the certificate of these bytes proves with the sum counters that it asks for.
fn checked_with<D: Domain>(
    alloc: Global,
    program: &Program,
    weights: &Weights,
    bytes: &[u8],
    sums: &[Sum],
) -> Result<Proof<D>, RunFault>
    requires asked { IsAsked program.now bytes.now sums.now }
    ensures answer { MatchResult result (λ proof. IsChecked D.holds D.shape_of D.PAIRS program.now bytes.now proof.graph proof.certificate.heads) (Refuses D.PAIRS bytes.now) }
    ensures text { IfOk result (λ proof. AreOfText D.shape_of D.holds D.PAIRS bytes.now proof.certificate.heads) }
{
    match drawn(alloc, program, sums) {
        Ok(graph) => checked_by(alloc, program, weights, bytes, graph),
        Err(_refused) => Err(RunFault::Memory),
    }
}

/// What the certificate of these bytes proves of a program: the graph for its sum counters, its states and its findings.
///
/// `BadText`: the bytes are no certificate, with the first line through which they begin none. `WrongHeads`: they are one of other
/// heads, or with sum counters that the program's loops cannot have. `NotInductive`: it is not accepted, with the first gap.
/// `Memory`: memory ran out. There is no other refusal. The weights have one for each word that the program uses.
pub fn checked<D: Domain>(
    alloc: Global,
    program: &Program,
    weights: &Weights,
    bytes: &[u8],
) -> Result<Proof<D>, RunFault>
    ensures answer { MatchResult result (λ proof. IsChecked D.holds D.shape_of D.PAIRS program.now bytes.now proof.graph proof.certificate.heads) (Refuses D.PAIRS bytes.now) }
    ensures text { IfOk result (λ proof. AreOfText D.shape_of D.holds D.PAIRS bytes.now proof.certificate.heads) }
{
    match sums_in(alloc, D::PAIRS, program, bytes) {
        Ok(sums) => checked_with(alloc, program, weights, bytes, sums.items()),
        Err(fault) => Err(fault),
    }
}
