//! What `check` comes to.

ghost use Rattle.std.specs.Prelude.{◌≡◌, ◌≤◌, true, IfOk};
ghost use Rattle.std.specs.Result.{MatchResult};
ghost use Rattle.wm_cert_states.specs.Told.{AreOfText};
ghost use Rattle.wm_load.specs.Check.{check_of};
ghost use Rattle.wm_load.specs.Checking.{check_asked};
ghost use Rattle.wm_proving.specs.Proofs.{IsChecked};
ghost use Rattle.wm_proving.specs.Refusals.{Refuses};
ghost use Rattle.wm_run.specs.Leads.{From, Reading};
ghost use Rattle.wm_run.specs.Outcome.{IsOwn, decided};
ghost use Rattle.wm_run.specs.Proved.{CheckedAs};
ghost use Rattle.wm_run.specs.States.{holds, shape_of};
ghost use Rattle.wm_run.specs.World.{world_of};

use crate::outcome::{Outcome, refused};
use crate::proving::reported;
use std::alloc::Global;
use wm_files::Files;
use wm_groups::Groups;
use wm_load::{Check, check_files};
use wm_ops::NoMemory;
use wm_proving::{Proof, checked};
use wm_report::RunFault;

/// What the certificate that was read proves.
fn proof_in(alloc: Global, given: &Check) -> Result<Proof<Groups>, RunFault>
    ensures answer { MatchResult result (λ proof. IsChecked holds shape_of true given.now.program given.now.certificate.items proof.graph proof.certificate.heads) (Refuses true given.now.certificate.items) }
    ensures text { IfOk result (λ proof. AreOfText shape_of holds true given.now.certificate.items proof.certificate.heads) }
{
    checked(alloc, &given.program, &given.weights, &given.certificate)
}

/// What `check` comes to over what was read.
fn check_given(alloc: Global, given: &Check) -> Result<Outcome, NoMemory>
    ensures checked { IfOk result (λ o. CheckedAs (check_of given.now) (decided o)) }
    ensures own { IfOk result (λ o. IsOwn (decided o)) }
{
    match proof_in(alloc, given) {
        Ok(proof) => reported(alloc, &given.program, &given.spec, &proof.findings),
        Err(fault) => refused(fault),
    }
}

/// What `check` comes to over the specification of this name.
pub(crate) fn check<F: Files>(
    alloc: Global,
    name: &[u8],
    files: &mut F,
) -> Result<Outcome, NoMemory>
    ensures leads { IfOk result (λ o. From (world_of (F.held files.old) (F.held files.new) (F.faults files.old) (F.faults files.new)) (Reading (world_of (F.held files.old) (F.held files.new) (F.faults files.old) (F.faults files.new)) CheckedAs) (check_asked name.now) (decided o)) }
    ensures own { IfOk result (λ o. IsOwn (decided o)) }
    ensures held { F.held files.new ≡ F.held files.old }
    ensures count { F.faults files.old ≤ F.faults files.new }
{
    match check_files(alloc, name, files) {
        Ok(given) => check_given(alloc, &given),
        Err(fault) => refused(fault),
    }
}
