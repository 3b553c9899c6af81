// The certificate of a check.
ghost use Rattle.std.specs.Prelude.{◌≡◌, ◌≤◌, Some};
ghost use Rattle.wm_program.specs.Settings.{settings_of};
ghost use Rattle.wm_read.specs.Asking.{Finds, IsFault, Reads};
ghost use Rattle.wm_read.specs.Certificate.{certificate_asked, certificate_from, certified, certified_asked, certificate_missing};
ghost use Rattle.wm_read.specs.Seen.{bytes_of, read_of};

use crate::fault::read_failed;
use crate::input::{Input, input_of};
use crate::specification::read_specification;
use std::alloc::Global;
use wm_files::Files;
use wm_lang::Name;
use wm_program::Spec;
use wm_report::RunFault;

/// The greatest number of bytes of a certificate.
const LIMIT: u64 = 134_217_728;

/// The specification names no certificate.
fn certificate_missing(alloc: Global) -> RunFault
    ensures { IsFault result certificate_missing }
{
    match Name::new(alloc, b"certificate") {
        Ok(key) => RunFault::MissingKey { key },
        Err(_) => RunFault::Memory,
    }
}

/// A specification that must name a certificate.
#[tactic(auto, unfolding(crate::specs::Certificate::certified))]
fn certified(alloc: Global, spec: Spec) -> Result<Spec, RunFault>
    ensures { Finds settings_of result (certified (settings_of spec)) }
{
    match &spec.certificate {
        Some(_) => Ok(spec),
        None => Err(certificate_missing(alloc)),
    }
}

/// The specification of this name, which must name a certificate.
pub(crate) fn read_certified<F: Files>(
    alloc: Global,
    name: &[u8],
    files: &mut F,
) -> Result<Spec, RunFault>
    ensures given { Reads settings_of (F.held files.old) (F.faults files.old) (F.faults files.new) (certified_asked name.now) result }
    ensures held { F.held files.new ≡ F.held files.old }
    ensures count { F.faults files.old ≤ F.faults files.new }
{
    match read_specification(alloc, name, files) {
        Ok(spec) => certified(alloc, spec),
        Err(fault) => Err(fault),
    }
}

fn certificate_of(alloc: Global, name: &[u8], input: Input) -> Result<Vec<u8>, RunFault>
    ensures { Finds bytes_of result (certificate_from name.now (read_of input)) }
{
    match input {
        Input::Bytes(bytes) => Ok(bytes),
        Input::TooLong => Err(RunFault::CertificateTooLong),
        Input::Failed => Err(read_failed(alloc, name)),
    }
}

/// The bytes of the certificate of this name.
fn read_named<F: Files>(alloc: Global, name: &Name, files: &mut F) -> Result<Vec<u8>, RunFault>
    ensures given { Reads bytes_of (F.held files.old) (F.faults files.old) (F.faults files.new) (certificate_asked (Some name.now)) result }
    ensures held { F.held files.new ≡ F.held files.old }
    ensures count { F.faults files.old ≤ F.faults files.new }
{
    match input_of(alloc, name.bytes(), LIMIT, files) {
        Ok(input) => certificate_of(alloc, name.bytes(), input),
        Err(_) => Err(RunFault::Memory),
    }
}

/// The bytes of the certificate that a specification names.
///
/// `MissingKey` of the key `certificate`: it names none. `ReadFailed`: the file could not be read. `CertificateTooLong`: it
/// has more than 128 MiB. `Memory`: memory ran out.
pub fn read_certificate<F: Files>(
    alloc: Global,
    name: &Option<Name>,
    files: &mut F,
) -> Result<Vec<u8>, RunFault>
    ensures given { Reads bytes_of (F.held files.old) (F.faults files.old) (F.faults files.new) (certificate_asked name.now) result }
    ensures held { F.held files.new ≡ F.held files.old }
    ensures count { F.faults files.old ≤ F.faults files.new }
{
    match name {
        Some(name) => read_named(alloc, name, files),
        None => Err(certificate_missing(alloc)),
    }
}
