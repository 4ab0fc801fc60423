//! What a turn keeps in the log.

ghost use Rattle.std.specs.Prelude.{IfSome, IsTrue, OnOk, OnErr};
ghost use Rattle.vp_model.specs.Step.{durable_of};
ghost use Rattle.vp_records.specs.Batches.{IsBatch};
ghost use Rattle.vp_records.specs.Records.{CanBeSaved};
ghost use Rattle.vp_outside.specs.Disk.{log_of, Steps};
ghost use Rattle.vp_stable.specs.Halves.{AreKept, SavesAt, MaySaveAt, IsShort};
ghost use Rattle.vp_stable.specs.Faults.{HasAppendCause};
ghost use Rattle.vp_stable.specs.Moments.{LeavesOnly, LeavesOthers};
ghost use Rattle.vp_node.specs.Keeping.{SavesDueAt, MaySaveDueAt, KeepsAt, MayKeepAt, KeepsShort};

use vp_base::Batch;
use vp_outside::Disk;
use vp_site::Site;
use vp_stable::{AppendFault, Log, a_checkpoint_is_due_of_batches};

/// Makes a checkpoint of the site's durable part.
fn save<D: Disk>(log: &mut Log, disk: &mut D, site: &Site) -> Result<(), AppendFault>
    requires attached { IsTrue (D.state disk.old).attached }
    requires kept { AreKept log.old (D.state disk.old) }
    requires form { CanBeSaved (durable_of site.now) }
    ensures saved { OnOk result
        (Steps (SavesAt (durable_of site.now) log.old log.new) (D.state disk.old) (D.state disk.new)) }
    ensures kept { OnOk result (AreKept log.new (D.state disk.new)) }
    ensures short { OnOk result (IsShort log.new) }
    ensures fault { OnErr result
        (Steps (MaySaveAt (durable_of site.now) log.old) (D.state disk.old) (D.state disk.new)) }
    ensures any_moment { (D.state disk.old).honest → IfSome (log_of (D.state disk.old)) (λ halves.
        LeavesOnly (D.state disk.old) (D.state disk.new) (MaySaveAt (durable_of site.now) log.old halves)) }
    ensures others { LeavesOthers (D.state disk.old) (D.state disk.new) }
    ensures cause { HasAppendCause (D.state disk.old).faults (D.state disk.new).faults result }
{
    let durable = site.durable()?;
    log.checkpoint(disk, &durable)
}

/// Makes a checkpoint if one is due.
fn save_if_due<D: Disk>(log: &mut Log, disk: &mut D, site: &Site) -> Result<(), AppendFault>
    requires attached { IsTrue (D.state disk.old).attached }
    requires kept { AreKept log.old (D.state disk.old) }
    requires form { CanBeSaved (durable_of site.now) }
    ensures saved { OnOk result
        (Steps (SavesDueAt (durable_of site.now) log.old log.new) (D.state disk.old) (D.state disk.new)) }
    ensures kept { OnOk result (AreKept log.new (D.state disk.new)) }
    ensures short { OnOk result (IsShort log.new) }
    ensures fault { OnErr result
        (Steps (MaySaveDueAt (durable_of site.now) log.old) (D.state disk.old) (D.state disk.new)) }
    ensures any_moment { (D.state disk.old).honest → IfSome (log_of (D.state disk.old)) (λ halves.
        LeavesOnly (D.state disk.old) (D.state disk.new) (MaySaveDueAt (durable_of site.now) log.old halves)) }
    ensures others { LeavesOthers (D.state disk.old) (D.state disk.new) }
    ensures cause { HasAppendCause (D.state disk.old).faults (D.state disk.new).faults result }
{
    a_checkpoint_is_due_of_batches();
    if !log.due() {
        return Ok(());
    }
    save(log, disk, site)
}

/// Appends the records of a step that left the site like this, and makes a checkpoint if one is due. Does nothing if there are no
/// records.
pub fn keep<D: Disk>(
    log: &mut Log,
    disk: &mut D,
    site: &Site,
    records: &Batch,
) -> Result<(), AppendFault>
    requires attached { IsTrue (D.state disk.old).attached }
    requires kept { AreKept log.old (D.state disk.old) }
    requires form { CanBeSaved (durable_of site.now) }
    requires batch { IsBatch records.now }
    ensures kept_at { OnOk result
        (Steps (KeepsAt (durable_of site.now) records.now log.old log.new) (D.state disk.old)
        (D.state disk.new)) }
    ensures kept { OnOk result (AreKept log.new (D.state disk.new)) }
    ensures short { OnOk result (KeepsShort records.now log.old log.new) }
    ensures fault { OnErr result
        (Steps (MayKeepAt (durable_of site.now) records.now log.old) (D.state disk.old) (D.state disk.new)) }
    ensures any_moment { (D.state disk.old).honest → IfSome (log_of (D.state disk.old)) (λ halves.
        LeavesOnly (D.state disk.old) (D.state disk.new) (MayKeepAt (durable_of site.now) records.now log.old halves)) }
    ensures others { LeavesOthers (D.state disk.old) (D.state disk.new) }
    ensures cause { HasAppendCause (D.state disk.old).faults (D.state disk.new).faults result }
{
    if records.as_slice().is_empty() {
        return Ok(());
    }
    log.append(disk, records)?;
    save_if_due(log, disk, site)
}
