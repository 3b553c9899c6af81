// What can be wrong with a weights file.
use wm_lang::Name;
use wm_ops::NoMemory;

/// Why a weights file gave no weights.
#[derive(Drop)]
pub enum WeightFault {
    /// The bytes are no TOML document.
    NotToml,
    /// The key is no counted word, or `round_fx` beside `round`.
    BadKey { key: Name },
    /// The value of the key is no whole number from 0 to 10,000.
    BadNumber { key: Name },
    /// Memory ran out.
    NoMemory,
}

impl From<NoMemory> for WeightFault {
    ghost use Rattle.std.specs.Prelude.{◌≡◌};
    ghost use Rattle.wm_weights.specs.declared.fault.WeightFault.TheVariants.{NoMemory};

    ghost from_gives = { λ _ fault. fault ≡ NoMemory };

    fn from(_refused: NoMemory) -> WeightFault {
        WeightFault::NoMemory
    }
}
