//! The log on a disk that stops in an append.

ghost use Rattle.std.specs.Prelude.{◌≡◌, IfOk, IsTrue, List, Some};
ghost use Rattle.vp_model.specs.Types.{LogRecord};
ghost use Rattle.vp_records.specs.Batches.{IsBatch};
ghost use Rattle.vp_outside.specs.Disk.{Only, log_of};
ghost use Rattle.vp_stable.specs.Halves.{StandsAt};
ghost use Rattle.vp_stable.specs.Stops.{GainsWhere};
ghost use Rattle.vp_cluster.specs.Hosts.{AreLog, log_on};
ghost use Rattle.vp_cluster.specs.Stops.{is_kept, HasSoMany};

use std::alloc::Global;
use vp_base::{Batch, NoMemory, Word};
use vp_disks::{MemDisk, SureDisk};
use vp_outside::{Disk, OutFault};
use vp_stable::{AppendFault, Log, LogFault, halves_are_one_log};

/// Where a run stops: in the step of this number, counted from 1, after so many device calls of its append. If `late`, what was written
/// and not synced by then is in the log.
#[derive(Clone, Copy, Debug, Drop, PartialEq, Eq)]
pub struct Stop {
    pub step: u32,
    pub calls: u8,
    pub late: bool,
}

/// Makes a disk with the log of this one, which stops after so many calls.
fn stopping_disk(alloc: Global, disk: &SureDisk, calls: u8) -> Result<MemDisk, NoMemory>
    ensures attached { IfOk result (λ it. IsTrue (⟦<MemDisk as Disk>⟧.state it).attached) }
    ensures log { IfOk result (λ it. log_of (⟦<MemDisk as Disk>⟧.state it) ≡ Some (log_on disk.now)) }
    ensures stop { IfOk result (λ it. (⟦<MemDisk as Disk>⟧.state it).until_stop ≡ Some calls) }
    ensures as_synced { IfOk result
        (λ it. (⟦<MemDisk as Disk>⟧.state it).synced (⟦<MemDisk as Disk>⟧.state it).asked ≡
        log_of (⟦<MemDisk as Disk>⟧.state it)) }
    ensures synced { IfOk result
        (λ it. Only (log_on disk.now)
        ((⟦<MemDisk as Disk>⟧.state it).may_leave (⟦<MemDisk as Disk>⟧.state it).asked)) }
{
    let name = Word::from_vec(Vec::new(alloc));
    let mut stopping = MemDisk::new(alloc, Vec::new(alloc));
    stopping.lay(
        &name,
        disk.half(0).to_vec(alloc)?,
        disk.half(1).to_vec(alloc)?,
    )?;
    match stopping.attach(&name) {
        Ok(()) => {
            stopping.stop_after(u64::from(calls));
            Ok(stopping)
        }
        Err(OutFault::NoMemory) => Err(NoMemory),
        // no call is planned to fail
        Err(OutFault::Failed) => unreachable!(),
    }
}

/// Makes a disk with the log of this one, as if that had always been there.
fn copy_of(alloc: Global, disk: &SureDisk) -> Result<SureDisk, NoMemory>
    ensures { IfOk result (λ copy. log_on copy ≡ log_on disk.now) }
{
    SureDisk::holding(
        alloc,
        disk.half(0).to_vec(alloc)?,
        disk.half(1).to_vec(alloc)?,
    )
}

/// Counts the batches that a recovery finds in the log on the disk.
fn batches_on(alloc: Global, disk: &SureDisk) -> Result<usize, NoMemory>
    requires { AreLog (log_on disk.now) }
    ensures { IfOk result (λ count. HasSoMany count (log_on disk.now)) }
{
    halves_are_one_log();
    let mut copy = copy_of(alloc, disk)?;
    match Log::recover(alloc, &mut copy) {
        Ok((_, batches)) => Ok(batches.as_slice().len()),
        Err(LogFault::NoMemory) => Err(NoMemory),
        // this disk never fails, and it has a log
        Err(LogFault::DiskFault) => unreachable!(),
        Err(LogFault::BadLog { .. }) => unreachable!(),
    }
}

/// Appends the batch on a copy of the disk, which stops in that. Returns the copy as the stop leaves it, and whether a recovery finds the
/// batch there.
pub fn append_stopped(
    alloc: Global,
    log: Log,
    batch: &Batch,
    disk: &SureDisk,
    stop: &Stop,
) -> Result<(SureDisk, bool), NoMemory>
    requires stands { (batches : List (List LogRecord)) × StandsAt log batches (log_on disk.now) }
    requires batch { IsBatch batch.now }
    ensures left { IfOk result (λ it. GainsWhere batch.now log it.1 (log_on disk.now) (log_on it.0)) }
    ensures kept { IfOk result (λ it. it.1 ≡ is_kept stop.now) }
{
    let before = batches_on(alloc, disk)?;
    let left = left_by(alloc, log, batch, disk, stop)?;
    let now = batches_on(alloc, &left)?;
    Ok((left, now > before))
}

/// Appends the batch on a copy of the disk, which stops in that. Returns the copy as the stop leaves it, with the batch if the stop
/// keeps it.
fn left_by(
    alloc: Global,
    log: Log,
    batch: &Batch,
    disk: &SureDisk,
    stop: &Stop,
) -> Result<SureDisk, NoMemory>
    requires stands { (batches : List (List LogRecord)) × StandsAt log batches (log_on disk.now) }
    requires batch { IsBatch batch.now }
    ensures { IfOk result
        (λ left. GainsWhere batch.now log (is_kept stop.now) (log_on disk.now) (log_on left)) }
{
    let mut log = log;
    let mut stopping = stopping_disk(alloc, disk, stop.calls)?;
    // the disk fails where it stops; all calls may have been done before that
    if let Err(AppendFault::NoMemory) = log.append(&mut stopping, batch) {
        return Err(NoMemory);
    }
    stopping.leave(stop.late);
    SureDisk::holding(
        alloc,
        stopping.half(0).to_vec(alloc)?,
        stopping.half(1).to_vec(alloc)?,
    )
}
