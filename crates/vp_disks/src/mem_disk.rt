//! A disk in memory at which some calls fail.

ghost use Rattle.std.specs.Prelude.{◌≡◌, ◌⊎◌, ◌+◌, ◌<◌, ◌≤◌, ◌^◌, ◌∷◌, [], IfOk, IsErr, IsErrOf, List, ℕ, None, OnErr, OnOk, Some, false, is_ok, length};
ghost use Rattle.vp_outside.specs.Causes.{HasCause};
ghost use Rattle.vp_outside.specs.Disk.{Gives, Torn, Written, half_of};
ghost use Rattle.vp_outside.specs.DiskCalls.{Changes, Syncs};
ghost use Rattle.std.specs.declared.option.Option.{Option};
ghost use Rattle.vp_disks.specs.Changes.{state_before};
ghost use Rattle.vp_disks.specs.DiskLaws.{IsDisk-before};
ghost use Rattle.vp_disks.specs.Images.{IsLeftByCrash, LeavesImages};

use crate::imaged_disk::ImagedDisk;
use crate::log_bytes::fits;
use std::alloc::Global;
use vp_base::{NoMemory, Word};
use vp_outside::{Disk, Failed, FaultPlan, OutFault, give};

/// A disk in memory, with a plan of the calls that fail. Contracts know its logs, and it keeps a record of the calls that changed
/// them. At first no log is attached. It can be stopped, and then be left as a crash may leave it.
pub struct MemDisk {
    disk: ImagedDisk,
    attached: bool,
    /// Which calls fail. A call that lacks memory isn't counted.
    pub plan: FaultPlan,
}

impl Drop for MemDisk {
    fn drop(self) {
        let MemDisk {
            disk: _,
            attached: _,
            plan: _,
        } = self;
    }
}

impl MemDisk {
    ghost use Rattle.vp_disks.specs.MemDisks.{attached_of, is_attached, record_of};
    ghost use Rattle.vp_outside.specs.Plans.{new_plan};
    ghost use Rattle.vp_disks.specs.declared.changes.Change.TheVariants.{Attached, Laid};

    /// Makes an empty disk at which the calls with these numbers fail. The first call has number 1.
    pub fn new(alloc: Global, failing: Vec<u64>) -> MemDisk
        ensures record { record_of result ≡ [] }
        ensures attached { is_attached result ≡ false }
        ensures plan { result.plan ≡ new_plan failing }
    {
        MemDisk {
            disk: ImagedDisk::new(alloc),
            attached: false,
            plan: FaultPlan::new(failing),
        }
    }

    /// Gives the log of a name these halves, as if they had always been there. The plan doesn't count this call, and no log is
    /// attached after it.
    pub fn lay(&mut self, name: &Word, first: Vec<u8>, second: Vec<u8>) -> Result<(), NoMemory>
        ensures laid { OnOk result
            (record_of self.new ≡ Laid first.items second.items ∷ Attached name.now ∷ record_of self.old) }
        ensures not_laid { OnErr result
            ((record_of self.new ≡ record_of self.old) ⊎
            (record_of self.new ≡ Attached name.now ∷ record_of self.old)) }
        ensures attached { is_attached self.new ≡ false }
        ensures plan { self.new.plan ≡ self.old.plan }
    {
        self.attached = false;
        self.disk.attach_log(name)?;
        self.disk.lay(first, second)
    }

    /// The bytes of a half of the log that `attach` was last called with.
    pub fn half(&self, half: u8) -> &[u8]
        ensures { result.now ≡ half_of half (attached_of self.now) }
    {
        self.disk.half(half)
    }

    /// Sets a stop: the next `calls` calls go by the plan, and each one after them fails, until `leave`.
    pub fn stop_after(&mut self, calls: u64)
        ensures same { record_of self.new ≡ record_of self.old }
        ensures attached { is_attached self.new ≡ is_attached self.old }
        ensures plan { self.new.plan ≡ record self.old.plan { until_stop = Some calls } }
    {
        self.plan.until_stop = Some(calls);
    }

    /// Ends the stop, and leaves each log as a crash at this moment may leave it: as it is where `late`, else as it was last
    /// synced. The record starts again from that. Takes no memory.
    pub fn leave(&mut self, late: bool)
        ensures images { LeavesImages late (record_of self.old) (record_of self.new) }
        ensures crash { IsLeftByCrash (⟦<MemDisk as Disk>⟧.state self.old)
            (⟦<MemDisk as Disk>⟧.state self.new) }
        ensures attached { is_attached self.new ≡ is_attached self.old }
        ensures plan { self.new.plan ≡ record self.old.plan { until_stop = None } }
    {
        self.disk.leave(late);
        self.plan.until_stop = None;
    }
}

impl Disk for MemDisk {
    ghost use Rattle.vp_disks.specs.MemDisks.{attached_of, is_attached, record_of};
    ghost use Rattle.vp_outside.specs.Plans.{CountsCall, FailsNext, GoesByPlan, stop_of};
    ghost use Rattle.vp_disks.specs.declared.changes.Change.TheVariants.{Attached, Wrote, Cut, Synced};

    ghost state = { λ d. state_before (stop_of d.plan) d.disk d.attached d.plan.faults };

    ghost is_disk = { λ d. IsDisk-before (stop_of d.plan) d.disk d.attached d.plan.faults };

    fn faults(&self) -> u64 {
        self.plan.faults
    }

    fn attach(&mut self, name: &Word) -> Result<(), OutFault>
        ensures asked { ¬ IsErrOf result OutFault.NoMemory → record_of self.new ≡ Attached name.now ∷
            record_of self.old }
        ensures attached { ¬ IsErrOf result OutFault.NoMemory → is_attached self.new ≡ is_ok result }
        ensures none { IsErrOf result OutFault.NoMemory → (record_of self.new ≡ record_of self.old) ×
            (is_attached self.new ≡ is_attached self.old) }
        ensures plan { GoesByPlan self.old.plan self.new.plan result }
        ensures planned { IsErrOf result OutFault.Failed → FailsNext self.old.plan }
    {
        self.disk.attach_log(name)?;
        self.attached = !self.plan.fails_now();
        if !self.attached {
            return Err(OutFault::Failed);
        }
        Ok(())
    }

    fn length(&mut self, half: u8) -> Result<u64, Failed>
        ensures told { IfOk result (λ n. n ≡ length (half_of half (attached_of self.old))) }
        ensures same { record_of self.new ≡ record_of self.old }
        ensures attached { is_attached self.new ≡ is_attached self.old }
        ensures plan { CountsCall self.old.plan self.new.plan (IsErr result) }
        ensures cause { HasCause self.old.plan.faults self.new.plan.faults result }
    {
        if self.plan.fails_now() {
            return Err(Failed);
        }
        Ok(self.half(half).len() as u64)
    }

    fn read(&mut self, half: u8, at: u64, buf: &mut [u8]) -> Result<usize, Failed>
        ensures told { Gives (half_of half (attached_of self.old)) at buf.old buf.new result }
        ensures room { length buf.new ≡ length buf.old }
        ensures kept { OnErr result (buf.new ≡ buf.old) }
        ensures same { record_of self.new ≡ record_of self.old }
        ensures attached { is_attached self.new ≡ is_attached self.old }
        ensures plan { CountsCall self.old.plan self.new.plan (IsErr result) }
        ensures cause { HasCause self.old.plan.faults self.new.plan.faults result }
    {
        if self.plan.fails_now() {
            return Err(Failed);
        }
        Ok(give(self.half(half), at, buf))
    }

    fn write_at(&mut self, half: u8, at: u64, piece: &[u8]) -> Result<(), OutFault>
        ensures written { Changes half (Written at piece.now) (Torn at (length piece.now))
            (⟦<MemDisk as Disk>⟧.state self.old) (⟦<MemDisk as Disk>⟧.state self.new) result }
        ensures done { OnOk result (record_of self.new ≡ Wrote half at piece.now ∷ record_of self.old) }
        ensures fits { OnOk result (at + length piece.now ≤ 2 ^ 62) }
        ensures not_done { OnErr result (record_of self.new ≡ record_of self.old) }
        ensures attached { is_attached self.new ≡ is_attached self.old }
        ensures plan { GoesByPlan self.old.plan self.new.plan result }
        ensures planned { IsErrOf result OutFault.Failed → FailsNext self.old.plan }
    {
        if self.plan.fails_next() {
            self.plan.fail();
            return Err(OutFault::Failed);
        }
        if !fits(at, piece) {
            return Err(OutFault::NoMemory);
        }
        self.disk.write_piece(half, at, piece)?;
        self.plan.pass();
        Ok(())
    }

    fn cut(&mut self, half: u8, length: u64) -> Result<(), OutFault>
        ensures done { OnOk result (record_of self.new ≡ Cut half length ∷ record_of self.old) }
        ensures not_done { OnErr result (record_of self.new ≡ record_of self.old) }
        ensures attached { is_attached self.new ≡ is_attached self.old }
        ensures plan { GoesByPlan self.old.plan self.new.plan result }
        ensures planned { IsErrOf result OutFault.Failed → FailsNext self.old.plan }
    {
        if self.plan.fails_next() {
            self.plan.fail();
            return Err(OutFault::Failed);
        }
        self.disk.cut_half(half, length)?;
        self.plan.pass();
        Ok(())
    }

    fn sync(&mut self) -> Result<(), OutFault>
        ensures done { OnOk result (record_of self.new ≡ Synced ∷ record_of self.old) }
        ensures not_done { OnErr result (record_of self.new ≡ record_of self.old) }
        ensures syncs { Syncs (⟦<MemDisk as Disk>⟧.state self.old) (⟦<MemDisk as Disk>⟧.state self.new)
            result }
        ensures attached { is_attached self.new ≡ is_attached self.old }
        ensures plan { GoesByPlan self.old.plan self.new.plan result }
        ensures planned { IsErrOf result OutFault.Failed → FailsNext self.old.plan }
    {
        if self.plan.fails_next() {
            self.plan.fail();
            return Err(OutFault::Failed);
        }
        self.disk.mark_synced()?;
        self.plan.pass();
        Ok(())
    }
}
