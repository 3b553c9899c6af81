//! What a call comes to, with its status and its text.

ghost use Rattle.std.specs.Prelude.{◌≡◌, if◌then◌else◌, IfOk};
ghost use Rattle.wm_run.specs.Outcome.{Fault, IsOwn, decided, status_of, text_of};

use std::alloc::Global;
use wm_ops::NoMemory;
use wm_report::{RunFault, fault_text, status_of};

/// What a call comes to.
#[derive(Drop)]
pub(crate) enum Outcome {
    /// A report, a text of `worst` or a text of `headroom`; and whether each site is safe or never reached, and each bound a number.
    Judged { is_safe: bool, text: Vec<u8> },
    /// A replay, the summary of a demo, or what was observed.
    Told { text: Vec<u8> },
    /// A refusal.
    Fault { fault: RunFault },
}

fn judged_status(is_safe: bool) -> u8
    ensures { result ≡ (if is_safe then 0 else 1) }
{
    if is_safe { 0 } else { 1 }
}

impl Outcome {
    /// The exit status.
    pub(crate) fn status(&self) -> u8
        ensures { result ≡ status_of (decided self.now) }
    {
        match self {
            Outcome::Judged { is_safe, .. } => judged_status(*is_safe),
            Outcome::Told { .. } => 0,
            Outcome::Fault { fault } => status_of(fault),
        }
    }

    /// The text to be printed.
    pub(crate) fn into_text(self, alloc: Global) -> Result<Vec<u8>, NoMemory>
        ensures { IfOk result (λ text. text.items ≡ text_of (decided self)) }
    {
        match self {
            Outcome::Judged { text, .. } => Ok(text),
            Outcome::Told { text } => Ok(text),
            Outcome::Fault { fault } => fault_text(alloc, &fault),
        }
    }
}

/// A refusal as an outcome; want of memory stays what it is.
pub(crate) fn refused(fault: RunFault) -> Result<Outcome, NoMemory>
    ensures value { IfOk result (λ o. decided o ≡ Fault fault) }
    ensures own { IfOk result (λ o. IsOwn (decided o)) }
{
    match fault {
        RunFault::Memory => Err(NoMemory),
        fault => Ok(Outcome::Fault { fault }),
    }
}
