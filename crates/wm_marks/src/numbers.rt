// Numbers of things, which have 32 bits.
ghost use Rattle.std.specs.Prelude.{◌≡◌, IfOk};

use wm_ops::NoMemory;

/// The number of the next thing behind so many. More than 32 bits can tell are more than memory holds.
pub fn number_of(count: usize) -> Result<u32, NoMemory>
    ensures same { IfOk result (λ number. number ≡ count) }
{
    if count < 4294967296 {
        return Ok(count as u32);
    }
    Err(NoMemory)
}
