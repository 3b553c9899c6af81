// Saturation with the note that it took place.
ghost use Rattle.std.specs.Prelude.{◌≡◌, ◌≢◌, ◌↔◌, IsTrue, ◌||◌};
ghost use Rattle.wm_numbers.specs.Clamp as numbers;
ghost use Rattle.wm_numbers.specs.Within.{IsWord16, IsWord32};
ghost use Rattle.wm_ops.specs.Clamping.{exact, to16, to32};

use wm_numbers::{clamp16, clamp32};

/// A number, and whether some clamp on the way to it changed its number.
#[derive(Clone, Copy, Debug, PartialEq, Eq)]
pub(crate) struct Clamped {
    pub(crate) value: i64,
    pub(crate) changed: bool,
}

impl Clamped {
    /// The number that a later formula gives: a clamp of either counts.
    pub(crate) fn then(self, next: Clamped) -> Clamped
        ensures value { result.value ≡ next.value }
        ensures changed { result.changed ≡ (self.changed || next.changed) }
    {
        Clamped {
            value: next.value,
            changed: self.changed || next.changed,
        }
    }
}

/// The number as it is.
pub(crate) fn exact(z: i64) -> Clamped
    ensures clamped { result ≡ exact z }
{
    Clamped {
        value: z,
        changed: false,
    }
}

/// The nearest number of 16 bits.
#[tactic(auto, unfolding(crate::specs::Clamping::leaves16, wm_numbers::specs::Clamp::clamp))]
pub(crate) fn to16(z: i64) -> Clamped
    ensures clamped { result ≡ to16 z }
    ensures changed { IsTrue result.changed ↔ (numbers.clamp16 z ≢ z) }
    ensures within { IsWord16 result.value }
{
    let value = clamp16(z);
    Clamped {
        value,
        changed: value != z,
    }
}

/// The nearest number of 32 bits.
#[tactic(auto, unfolding(crate::specs::Clamping::leaves32, wm_numbers::specs::Clamp::clamp))]
pub(crate) fn to32(z: i64) -> Clamped
    ensures clamped { result ≡ to32 z }
    ensures changed { IsTrue result.changed ↔ (numbers.clamp32 z ≢ z) }
    ensures within { IsWord32 result.value }
{
    let value = clamp32(z);
    Clamped {
        value,
        changed: value != z,
    }
}
