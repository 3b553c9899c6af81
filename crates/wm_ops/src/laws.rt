// What the formulas mean, in the words of G.191: facts about definitions alone, by which a reader can check them.
ghost use Rattle.std.specs.Prelude.{ℕ, suc, ℤ, ◌≡◌, ◌≢◌, ◌↔◌, ◌+◌, ◌<◌, ◌^◌, IsTrue};
ghost use Rattle.wm_numbers.specs.Clamp.{clamp16, clamp32};
ghost use Rattle.wm_ops.specs.Clamping.{leaves16, leaves32};
ghost use Rattle.wm_ops.specs.Norms.{folded, norm_in, IsLeastShift};
ghost use Rattle.wm_ops.specs.Parts.{low_half, IsLowHalf};
ghost use Rattle.wm_ops.specs.Shifts.{rounded_shift, IsRounded};

/// It does nothing: its contract is a list of laws on the formulas. A clamp is noted exactly where it changes its number;
/// a rounded shift gives the nearest whole number, and the upper one of two; the low half of a number differs from it by
/// a multiple of 65536; and a norm is the least shift that brings the number to the top of its type.
pub fn operator_laws()
    ensures clamped16 { (z : ℤ) → IsTrue (leaves16 z) ↔ (clamp16 z ≢ z) }
    ensures clamped32 { (z : ℤ) → IsTrue (leaves32 z) ↔ (clamp32 z ≢ z) }
    ensures rounded { (z : ℤ) (n : ℕ) → IsRounded z (suc n) (rounded_shift z n) }
    ensures low_half { (z : ℤ) → IsLowHalf z (low_half z) }
    ensures norm { (places : ℕ) (z : ℤ) → 0 < folded z → folded z < 2 ^ (places + 1) → IsLeastShift (2 ^ places) (folded z) (norm_in places z) }
{}
