//! What `prove`, `worst` and `headroom` come to: a certificate is found and accepted, and its findings are told.

ghost use Rattle.std.specs.Prelude.{◌≡◌, ◌≤◌, true, All, IfErr, IfOk};
ghost use Rattle.wm_domain.specs.States.{IsShape};
ghost use Rattle.wm_drawn.specs.Drawn.{IsDrawn};
ghost use Rattle.wm_load.specs.Loaded.{loaded_of};
ghost use Rattle.wm_load.specs.Loading.{load_asked};
ghost use Rattle.wm_program.specs.Settings.{settings_of};
ghost use Rattle.wm_proving.specs.Proofs.{IsProved};
ghost use Rattle.wm_walk.specs.Graphs.{AreDrawn, AreStates};
ghost use Rattle.wm_run.specs.Leads.{From, Reading};
ghost use Rattle.wm_run.specs.Outcome.{IsOwn, decided};
ghost use Rattle.wm_run.specs.Proved.{HeadroomAs, ProvedAs, WorstAs, WrittenBytes, report_of};
ghost use Rattle.wm_run.specs.States.{holds, shape_of};
ghost use Rattle.wm_run.specs.World.{world_of};

use crate::outcome::{Outcome, refused};
use std::alloc::Global;
use wm_cert_write::write_text;
use wm_files::{Files, WriteFault};
use wm_findings::Findings;
use wm_findings_text::{is_safe, report_text};
use wm_groups::Groups;
use wm_headroom_text::headroom_text;
use wm_lang::Name;
use wm_load::{Loaded, load};
use wm_ops::NoMemory;
use wm_program::{Program, Spec};
use wm_proving::{Proof, are_fitting, proved, worst_choices};
use wm_report::RunFault;
use wm_weights::Weights;
use wm_worst_text::worst_text;

/// The report of findings.
pub(crate) fn reported(
    alloc: Global,
    program: &Program,
    spec: &Spec,
    findings: &Findings,
) -> Result<Outcome, NoMemory>
    ensures value { IfOk result (λ o. decided o ≡ report_of program.now (settings_of spec.now) findings.now) }
    ensures own { IfOk result (λ o. IsOwn (decided o)) }
{
    let text = report_text(alloc, program, spec, findings)?;
    Ok(Outcome::Judged {
        is_safe: is_safe(findings),
        text,
    })
}

/// What is proved of a program.
pub(crate) fn proof_of(
    alloc: Global,
    program: &Program,
    weights: &Weights,
) -> Result<Proof<Groups>, NoMemory>
    ensures proved { IfOk result (λ proof. IsProved holds shape_of program.now proof.graph proof.certificate.heads) }
    ensures shapes { IfOk result (λ proof. All IsShape proof.graph.shapes) }
    ensures drawn { IfOk result (λ proof. AreDrawn IsDrawn proof.graph) }
    ensures states { IfOk result (λ proof. AreStates shape_of proof.graph proof.certificate.heads) }
{
    proved(alloc, program, weights)
}

/// Writes a certificate under its name before the outcome.
fn written<F: Files>(
    alloc: Global,
    name: &Name,
    bytes: &[u8],
    outcome: Outcome,
    files: &mut F,
) -> Result<Outcome, NoMemory>
    requires own { IsOwn (decided outcome) }
    ensures ends { IfOk result (λ o. WrittenBytes (world_of (F.held files.old) (F.held files.new) (F.faults files.old) (F.faults files.new)) name.now bytes.now (decided outcome) (decided o)) }
    ensures own { IfOk result (λ o. IsOwn (decided o)) }
    ensures kept { IfErr result (λ e. F.held files.new ≡ F.held files.old) }
    ensures count { F.faults files.old ≤ F.faults files.new }
{
    let failed = Name::new(alloc, name.bytes())?;
    match files.write(name.bytes(), bytes) {
        Ok(()) => Ok(outcome),
        Err(WriteFault::Failed) => Ok(Outcome::Fault {
            fault: RunFault::WriteFailed { name: failed },
        }),
        Err(WriteFault::NoMemory) => Err(NoMemory),
    }
}

/// What `prove` comes to over what was loaded.
fn prove_loaded<F: Files>(
    alloc: Global,
    loaded: &Loaded,
    files: &mut F,
) -> Result<Outcome, NoMemory>
    ensures proved { IfOk result (λ o. ProvedAs (world_of (F.held files.old) (F.held files.new) (F.faults files.old) (F.faults files.new)) (loaded_of loaded.now) (decided o)) }
    ensures own { IfOk result (λ o. IsOwn (decided o)) }
    ensures kept { IfErr result (λ e. F.held files.new ≡ F.held files.old) }
    ensures count { F.faults files.old ≤ F.faults files.new }
{
    let proof = proof_of(alloc, &loaded.program, &loaded.weights)?;
    let outcome = reported(alloc, &loaded.program, &loaded.spec, &proof.findings)?;
    match &loaded.spec.certificate {
        None => Ok(outcome),
        Some(name) => {
            let bytes = write_text(alloc, &proof.graph, &proof.certificate)?;
            written(alloc, name, &bytes, outcome, files)
        }
    }
}

/// What `prove` comes to over the specification of this name.
pub(crate) fn prove<F: Files>(
    alloc: Global,
    name: &[u8],
    files: &mut F,
) -> Result<Outcome, NoMemory>
    ensures leads { IfOk result (λ o. From (world_of (F.held files.old) (F.held files.new) (F.faults files.old) (F.faults files.new)) (ProvedAs (world_of (F.held files.old) (F.held files.new) (F.faults files.old) (F.faults files.new))) (load_asked name.now) (decided o)) }
    ensures own { IfOk result (λ o. IsOwn (decided o)) }
    ensures kept { IfErr result (λ e. F.held files.new ≡ F.held files.old) }
    ensures count { F.faults files.old ≤ F.faults files.new }
{
    match load(alloc, name, files) {
        Ok(loaded) => prove_loaded(alloc, &loaded, files),
        Err(fault) => refused(fault),
    }
}

/// What `worst` comes to over what was loaded.
fn worst_loaded(alloc: Global, loaded: &Loaded) -> Result<Outcome, NoMemory>
    ensures worst { IfOk result (λ o. WorstAs (loaded_of loaded.now) (decided o)) }
    ensures own { IfOk result (λ o. IsOwn (decided o)) }
{
    let proof = proof_of(alloc, &loaded.program, &loaded.weights)?;
    let chosen = worst_choices(alloc, &loaded.program, &loaded.weights, &proof)?;
    let text = worst_text(
        alloc,
        &loaded.program,
        &proof.graph,
        &loaded.weights,
        &loaded.spec,
        &proof.findings,
        &chosen,
    )?;
    Ok(Outcome::Judged {
        is_safe: is_safe(&proof.findings),
        text,
    })
}

/// What `worst` comes to over the specification of this name.
pub(crate) fn worst<F: Files>(
    alloc: Global,
    name: &[u8],
    files: &mut F,
) -> Result<Outcome, NoMemory>
    ensures leads { IfOk result (λ o. From (world_of (F.held files.old) (F.held files.new) (F.faults files.old) (F.faults files.new)) (Reading (world_of (F.held files.old) (F.held files.new) (F.faults files.old) (F.faults files.new)) WorstAs) (load_asked name.now) (decided o)) }
    ensures own { IfOk result (λ o. IsOwn (decided o)) }
    ensures held { F.held files.new ≡ F.held files.old }
    ensures count { F.faults files.old ≤ F.faults files.new }
{
    match load(alloc, name, files) {
        Ok(loaded) => worst_loaded(alloc, &loaded),
        Err(fault) => refused(fault),
    }
}

/// What `headroom` comes to over what was loaded.
fn headroom_loaded(alloc: Global, loaded: &Loaded) -> Result<Outcome, NoMemory>
    ensures headroom { IfOk result (λ o. HeadroomAs (loaded_of loaded.now) (decided o)) }
    ensures own { IfOk result (λ o. IsOwn (decided o)) }
{
    let proof = proof_of(alloc, &loaded.program, &loaded.weights)?;
    if !are_fitting(&loaded.program, &proof.findings) {
        return Err(NoMemory);
    }
    let text = headroom_text(alloc, &loaded.program, &loaded.spec, &proof.findings)?;
    Ok(Outcome::Judged {
        is_safe: is_safe(&proof.findings),
        text,
    })
}

/// What `headroom` comes to over the specification of this name.
pub(crate) fn headroom<F: Files>(
    alloc: Global,
    name: &[u8],
    files: &mut F,
) -> Result<Outcome, NoMemory>
    ensures leads { IfOk result (λ o. From (world_of (F.held files.old) (F.held files.new) (F.faults files.old) (F.faults files.new)) (Reading (world_of (F.held files.old) (F.held files.new) (F.faults files.old) (F.faults files.new)) HeadroomAs) (load_asked name.now) (decided o)) }
    ensures own { IfOk result (λ o. IsOwn (decided o)) }
    ensures held { F.held files.new ≡ F.held files.old }
    ensures count { F.faults files.old ≤ F.faults files.new }
{
    match load(alloc, name, files) {
        Ok(loaded) => headroom_loaded(alloc, &loaded),
        Err(fault) => refused(fault),
    }
}
