// What a check is given.
ghost use Rattle.std.specs.Prelude.{◌≡◌, ◌≤◌};
ghost use Rattle.wm_load.specs.Check.{check_of};
ghost use Rattle.wm_load.specs.Checking.{check_asked, check_behind, check_load_asked};
ghost use Rattle.wm_load.specs.Loaded.{loaded_of};
ghost use Rattle.wm_read.specs.Asking.{Reads};

use crate::loaded::{Loaded, load_texts};
use std::alloc::Global;
use wm_files::Files;
use wm_program::{Program, Spec};
use wm_read::{read_certificate, read_check_texts};
use wm_report::RunFault;
use wm_weights::Weights;

/// What a check is given.
#[derive(Drop)]
pub struct Check {
    /// It names a certificate.
    pub spec: Spec,
    /// One for each word that the program uses.
    pub weights: Weights,
    pub program: Program,
    /// The bytes of the certificate's file, at most 128 MiB.
    pub certificate: Vec<u8>,
}

/// The specification of this name, which must name a certificate, its weights, and the program of its sources.
fn load_certified<F: Files>(alloc: Global, name: &[u8], files: &mut F) -> Result<Loaded, RunFault>
    ensures given { Reads loaded_of (F.held files.old) (F.faults files.old) (F.faults files.new) (check_load_asked name.now) result }
    ensures held { F.held files.new ≡ F.held files.old }
    ensures count { F.faults files.old ≤ F.faults files.new }
{
    match read_check_texts(alloc, name, files) {
        Ok(texts) => load_texts(alloc, texts),
        Err(fault) => Err(fault),
    }
}

/// The certificate that the specification names.
fn with_certificate<F: Files>(
    alloc: Global,
    loaded: Loaded,
    files: &mut F,
) -> Result<Check, RunFault>
    ensures given { Reads check_of (F.held files.old) (F.faults files.old) (F.faults files.new) (check_behind (loaded_of loaded)) result }
    ensures held { F.held files.new ≡ F.held files.old }
    ensures count { F.faults files.old ≤ F.faults files.new }
{
    match read_certificate(alloc, &loaded.spec.certificate, files) {
        Ok(certificate) => Ok(Check {
            spec: loaded.spec,
            weights: loaded.weights,
            program: loaded.program,
            certificate,
        }),
        Err(fault) => Err(fault),
    }
}

/// The specification, weights and program of a call, and the bytes of the certificate that the specification names.
///
/// The refusals of `load` come first, where `MissingKey` of the key `certificate` stands behind all others of the
/// specification; then those of the certificate: `ReadFailed`, `CertificateTooLong` past 128 MiB. `Memory`: memory ran out.
pub fn check_files<F: Files>(alloc: Global, name: &[u8], files: &mut F) -> Result<Check, RunFault>
    ensures given { Reads check_of (F.held files.old) (F.faults files.old) (F.faults files.new) (check_asked name.now) result }
    ensures held { F.held files.new ≡ F.held files.old }
    ensures count { F.faults files.old ≤ F.faults files.new }
{
    match load_certified(alloc, name, files) {
        Ok(loaded) => with_certificate(alloc, loaded, files),
        Err(fault) => Err(fault),
    }
}
