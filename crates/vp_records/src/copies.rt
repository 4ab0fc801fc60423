//! What a checkpoint does to the copies.

ghost use Rattle.std.specs.Prelude.{◌≡◌, OnOk};
ghost use Rattle.vp_model.specs.Words.{replace_at, for_each};

use vp_base::{NoMemory, RecId, Stored};
use vp_lists::replace_at;

/// Replaces the copies of these records by the saved ones. A record without a copy is passed over.
pub fn restore(copies: &mut [(RecId, Stored)], saved: &[(RecId, Stored)]) -> Result<(), NoMemory>
    ensures { OnOk result (copies.new ≡ for_each saved.now (λ c. replace_at c.0 c.1) copies.old) }
{
    for copy in saved {
        replace_at(copies, copy.0, &copy.1)?;
    }
    Ok(())
}
