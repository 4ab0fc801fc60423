//! Writing the halves: what is written is synced before anything is written that relies on it.

ghost use Rattle.std.specs.Prelude.{◌≡◌, ◌+◌, ◌<◌, ◌≤◌, ◌^◌, length, IfSome, IsErrOf, IsTrue, OnOk, OnErr};
ghost use Rattle.vp_outside.specs.Output.{HasOutCause};
ghost use Rattle.vp_outside.specs.Disk.{InHalf, CutTo, MaybeCut, Steps, Elapses};
ghost use Rattle.vp_stable.specs.Moments.{After, LeavesOthers};
ghost use Rattle.vp_stable.specs.Stops.{AppendsToStop, PutsWhere};
ghost use Rattle.vp_stable.specs.Writing.{MayClear, Clears, Puts, MayPut, IsSynced, Tears};

use crate::batches::OPEN;
use crate::half::write_synced;
use vp_outside::{Disk, OutFault};

/// Cuts a half to 0 bytes and syncs.
fn cut_synced<D: Disk>(disk: &mut D, half: u8) -> Result<(), OutFault>
    requires attached { IsTrue (D.state disk.old).attached }
    requires half { half ≤ 1 }
    ensures cut { OnOk result (Steps (InHalf half (CutTo 0)) (D.state disk.old) (D.state disk.new)) }
    ensures not_cut { OnErr result (Steps (InHalf half (MaybeCut 0)) (D.state disk.old) (D.state disk.new)) }
    ensures durable { (D.state disk.old).honest →
        OnOk result (IsSynced (D.state disk.old).asked (D.state disk.new)) }
    ensures time { Elapses (D.state disk.old).asked (D.state disk.old) (D.state disk.new)
        (After (InHalf half (MaybeCut 0)) ((D.state disk.old).may_leave (D.state disk.old).asked)) }
    ensures others { LeavesOthers (D.state disk.old) (D.state disk.new) }
    ensures cause { HasOutCause (D.state disk.old).faults (D.state disk.new).faults result }
{
    disk.cut(half, 0)?;
    disk.sync()
}

/// Makes a half a log without batches.
pub fn clear<D: Disk>(disk: &mut D, half: u8) -> Result<(), OutFault>
    requires attached { IsTrue (D.state disk.old).attached }
    requires half { half ≤ 1 }
    ensures cleared { OnOk result (Steps (InHalf half Clears) (D.state disk.old) (D.state disk.new)) }
    ensures fault { OnErr result (Steps (InHalf half MayClear) (D.state disk.old) (D.state disk.new)) }
    ensures durable { (D.state disk.old).honest →
        OnOk result (IsSynced (D.state disk.old).asked (D.state disk.new)) }
    ensures any_moment { Tears (InHalf half MayClear) (D.state disk.old).asked (D.state disk.old)
        (D.state disk.new) }
    ensures others { LeavesOthers (D.state disk.old) (D.state disk.new) }
    ensures cause { HasOutCause (D.state disk.old).faults (D.state disk.new).faults result }
{
    cut_synced(disk, half)?;
    write_synced(disk, half, 0, &[0])
}

/// Writes the piece of a batch after the closed gate of a half, and then opens that gate. Both writes are synced.
pub fn put<D: Disk>(disk: &mut D, half: u8, gate: u64, piece: &[u8]) -> Result<(), OutFault>
    requires attached { IsTrue (D.state disk.old).attached }
    requires half { half ≤ 1 }
    requires gate { gate < 2 ^ 63 }
    ensures put { OnOk result
        (Steps (InHalf half (Puts piece.now gate)) (D.state disk.old) (D.state disk.new)) }
    ensures fault { OnErr result
        (Steps (InHalf half (MayPut piece.now gate)) (D.state disk.old) (D.state disk.new)) }
    ensures fits { OnOk result (gate + length piece.now < 2 ^ 62) }
    ensures stop { ¬ IsErrOf result OutFault.NoMemory → IfSome (D.state disk.old).until_stop (λ calls.
        AppendsToStop (λ kept. InHalf half (PutsWhere piece.now gate kept)) calls (D.state disk.old) (D.state disk.new)) }
    ensures durable { (D.state disk.old).honest →
        OnOk result (IsSynced (D.state disk.old).asked (D.state disk.new)) }
    ensures any_moment { Tears (InHalf half (MayPut piece.now gate)) (D.state disk.old).asked
        (D.state disk.old) (D.state disk.new) }
    ensures others { LeavesOthers (D.state disk.old) (D.state disk.new) }
    ensures cause { HasOutCause (D.state disk.old).faults (D.state disk.new).faults result }
{
    write_synced(disk, half, gate + 1, piece)?;
    write_synced(disk, half, gate, &[OPEN])
}
