// Why bytes are no certificate of a graph.
ghost use Rattle.std.specs.Prelude.{◌≡◌};
ghost use Rattle.wm_cert_fault.specs.Faults.{of_text};

use wm_cert_read::TextFault;
use wm_ops::NoMemory;

/// Why bytes are not read as a certificate.
#[derive(Clone, Copy, Debug, PartialEq, Eq)]
pub enum CertFault {
    /// The lines through this one, from 1, begin no text; or the text ends before this line does.
    BadText { line: u64 },
    /// A text, but of other heads than those of the graph.
    WrongHeads,
    NoMemory,
}

impl From<NoMemory> for CertFault {
    ghost use Rattle.std.specs.Prelude.{◌≡◌};
    ghost use Rattle.wm_cert_fault.specs.declared.fault.CertFault.TheVariants.{NoMemory};

    ghost from_gives = { λ _ fault. fault ≡ NoMemory };

    fn from(_refused: NoMemory) -> CertFault {
        CertFault::NoMemory
    }
}

/// The fault of a text as one of a certificate.
pub fn of_text(fault: TextFault) -> CertFault
    ensures { result ≡ of_text fault }
{
    match fault {
        TextFault::BadText { line } => CertFault::BadText { line },
        TextFault::NoMemory => CertFault::NoMemory,
    }
}
