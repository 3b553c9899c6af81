// Lists of which it is known before how many items they will have.
ghost use Rattle.std.specs.Prelude.{◌≡◌, [], IfOk};

use sqlite_items::Items;
use std::alloc::Global;
use wm_ops::NoMemory;

/// A list without items that takes no more memory while so many are pushed.
pub fn room_for<T>(alloc: Global, count: usize) -> Result<Items<T>, NoMemory>
    ensures empty { IfOk result (λ items. items ≡ []) }
{
    let items = Vec::with_capacity(alloc, count)?;
    Ok(Items::from_vec(items))
}
