// The refusals that name a thing.
ghost use Rattle.wm_read.specs.Asking.{IsFault};
ghost use Rattle.wm_report.specs.declared.fault.RunFault.TheVariants.{FileTooLong, NotToml, ReadFailed};

use std::alloc::Global;
use wm_lang::Name;
use wm_report::RunFault;

/// The file of this name could not be read.
pub(crate) fn read_failed(alloc: Global, name: &[u8]) -> RunFault
    ensures { IsFault result (ReadFailed name.now) }
{
    match Name::new(alloc, name) {
        Ok(name) => RunFault::ReadFailed { name },
        Err(_) => RunFault::Memory,
    }
}

/// The file of this name is longer than it may be.
pub(crate) fn too_long(alloc: Global, name: &[u8]) -> RunFault
    ensures { IsFault result (FileTooLong name.now) }
{
    match Name::new(alloc, name) {
        Ok(name) => RunFault::FileTooLong { name },
        Err(_) => RunFault::Memory,
    }
}

/// The file of this name is no TOML document.
pub(crate) fn not_toml(alloc: Global, name: &[u8]) -> RunFault
    ensures { IsFault result (NotToml name.now) }
{
    match Name::new(alloc, name) {
        Ok(name) => RunFault::NotToml { name },
        Err(_) => RunFault::Memory,
    }
}
