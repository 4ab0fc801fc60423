//! The parts of transactions.

ghost use Rattle.std.specs.Prelude.{◌≡◌, OnOk, true};
ghost use Rattle.vp_model.specs.Messages.{put_part};

use vp_base::{NoMemory, Part};
use vp_tables::Table;

/// Notes that the part has voted.
pub fn mark_voted(parts: &mut Table<Part>, part: &Part) -> Result<(), NoMemory>
    ensures { OnOk result (parts.new ≡ put_part (record part.now { voted = true }) parts.old) }
{
    parts.put(Part {
        txn: part.txn,
        view: part.view,
        voted: true,
    })
}
