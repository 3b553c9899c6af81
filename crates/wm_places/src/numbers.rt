// Sums of 32 bits.
ghost use Rattle.std.specs.Prelude.{◌≡◌, ◌+◌, suc, IfOk};

use wm_ops::NoMemory;

/// The sum; `NoMemory` where it is past 32 bits.
pub fn plus(a: u32, b: u32) -> Result<u32, NoMemory>
    ensures { IfOk result (λ both. both ≡ a + b) }
{
    match a.checked_add(b) {
        Some(both) => Ok(both),
        None => Err(NoMemory),
    }
}

/// The number and 1; `NoMemory` where it is past 32 bits.
pub fn next(n: u32) -> Result<u32, NoMemory>
    ensures { IfOk result (λ more. more ≡ suc n) }
{
    match n.checked_add(1) {
        Some(more) => Ok(more),
        None => Err(NoMemory),
    }
}
