//! Copies of lists.

ghost use Rattle.std.specs.Prelude.{◌≡◌, IfOk};

use std::alloc::Global;
use vp_base::{CopyOf, NoMemory};

/// Copies the items to a list of its own. The only error is want of memory.
pub fn copy_all<T: CopyOf>(alloc: Global, items: &[T]) -> Result<Vec<T>, NoMemory>
    ensures { IfOk result (λ copy. copy.items ≡ items.now) }
{
    let mut copy = Vec::new(alloc);
    for item in items {
        copy.push(item.copy_of()?)?;
    }
    Ok(copy)
}
