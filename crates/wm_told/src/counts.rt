// Numbers of things, in 32 bits.
ghost use Rattle.std.specs.Prelude.{◌≡◌, IfOk};

use wm_ops::NoMemory;

/// The number in 32 bits; a larger one, of which no state has so many things, wants memory.
pub fn small(count: usize) -> Result<u32, NoMemory>
    ensures { IfOk result (λ small. small ≡ count) }
{
    match u32::try_from(count) {
        Ok(small) => Ok(small),
        Err(_large) => Err(NoMemory),
    }
}
