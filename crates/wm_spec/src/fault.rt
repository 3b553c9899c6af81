// What can be wrong with a specification.
ghost use Rattle.wm_spec.specs.Seen.{IsBad};

use std::alloc::Global;
use wm_lang::Name;
use wm_ops::NoMemory;

/// Why a specification was not read.
#[derive(Drop)]
pub enum SpecFault {
    /// The bytes are no TOML document.
    NotToml,
    /// The table has no such key.
    MissingKey { key: Name },
    /// A specification has no such key: the first one in byte order.
    UnknownKey { key: Name },
    /// The value of the key is not what a specification has there.
    BadValue { key: Name },
    /// Memory ran out.
    NoMemory,
}

impl From<NoMemory> for SpecFault {
    ghost use Rattle.std.specs.Prelude.{◌≡◌};
    ghost use Rattle.wm_spec.specs.declared.fault.SpecFault.TheVariants.{NoMemory};

    ghost from_gives = { λ _ fault. fault ≡ NoMemory };

    fn from(_refused: NoMemory) -> SpecFault {
        SpecFault::NoMemory
    }
}

/// The fault of a key with a bad value.
pub(crate) fn bad_value(alloc: Global, key: &str) -> SpecFault
    ensures { IsBad result key.now }
{
    match Name::new(alloc, key.as_bytes()) {
        Ok(key) => SpecFault::BadValue { key },
        Err(NoMemory) => SpecFault::NoMemory,
    }
}
