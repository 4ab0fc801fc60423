//! Reading and writing the halves of a log.

ghost use Rattle.std.specs.Prelude.{◌≡◌, ◌+◌, ◌≤◌, ◌^◌, length, min, take, IfOk, IfSome, IsTrue, OnOk, OnErr};
ghost use Rattle.vp_outside.specs.Causes.{HasCause};
ghost use Rattle.vp_outside.specs.Output.{HasOutCause};
ghost use Rattle.vp_outside.specs.Disk.{half_of, InHalf, Written, Torn, log_of, Steps, Only, Elapses};
ghost use Rattle.vp_stable.specs.Halves.{HasGeneration};
ghost use Rattle.vp_stable.specs.Scans.{IsRead};
ghost use Rattle.vp_stable.specs.Moments.{Quiet, TornFrom, LeavesOthers};
ghost use Rattle.vp_stable.specs.Stops.{WritesToStop};

use crate::batches::generation;
use std::alloc::Global;
use vp_outside::{Disk, Failed, OutFault};

/// Copies the bytes of a half to the front of the buffer, as many as it has room for, and returns how many.
fn fill<D: Disk>(disk: &mut D, half: u8, buf: &mut [u8]) -> Result<usize, Failed>
    requires attached { IsTrue (D.state disk.old).attached }
    requires half { half ≤ 1 }
    ensures told { IfOk result
        (λ n. IfSome (log_of (D.state disk.old))
        (λ log. (n ≡ min (length buf.old) (length (half_of half log))) ×
        (take n buf.new ≡ take n (half_of half log)))) }
    ensures room { length buf.new ≡ length buf.old }
    ensures quiet { Quiet (D.state disk.old) (D.state disk.new) }
    ensures cause { HasCause (D.state disk.old).faults (D.state disk.new).faults result }
{
    let mut at = 0;
    while at < buf.len() {
        let count = disk.read(half, at as u64, &mut buf[at..])?;
        if count == 0 {
            return Ok(at);
        }
        at += count;
    }
    Ok(at)
}

/// Reads all bytes of a half.
fn read_half<D: Disk>(alloc: Global, disk: &mut D, half: u8) -> Result<Vec<u8>, OutFault>
    requires attached { IsTrue (D.state disk.old).attached }
    requires half { half ≤ 1 }
    ensures told { IfOk result
        (λ bytes. IfSome (log_of (D.state disk.old)) (λ log. bytes.items ≡ half_of half log)) }
    ensures quiet { Quiet (D.state disk.old) (D.state disk.new) }
    ensures cause { HasOutCause (D.state disk.old).faults (D.state disk.new).faults result }
{
    let length = disk.length(half)?;
    let mut bytes = vec![in alloc; 0; length as usize]?;
    let count = fill(disk, half, &mut bytes)?;
    bytes.truncate(count);
    Ok(bytes)
}

/// The current half as it was read.
#[derive(Drop)]
pub struct Current {
    pub half: u8,
    pub generation: u64,
    pub bytes: Vec<u8>,
}

/// Reads which half is the current one, and its bytes.
pub fn read_current<D: Disk>(alloc: Global, disk: &mut D) -> Result<Current, OutFault>
    requires attached { IsTrue (D.state disk.old).attached }
    ensures told { IfOk result (λ it. IfSome (log_of (D.state disk.old)) (IsRead it.half it.bytes.items)) }
    ensures generation { IfOk result (λ it. HasGeneration it.generation it.bytes.items) }
    ensures half { IfOk result (λ it. it.half ≤ 1) }
    ensures quiet { Quiet (D.state disk.old) (D.state disk.new) }
    ensures cause { HasOutCause (D.state disk.old).faults (D.state disk.new).faults result }
{
    let first = read_half(alloc, disk, 0)?;
    let second = read_half(alloc, disk, 1)?;
    let generations = (generation(alloc, &first)?, generation(alloc, &second)?);
    Ok(if generations.0 < generations.1 {
        Current {
            half: 1,
            generation: generations.1,
            bytes: second,
        }
    } else {
        Current {
            half: 0,
            generation: generations.0,
            bytes: first,
        }
    })
}

/// Writes the piece into a half from the byte `at` on, and syncs.
pub fn write_synced<D: Disk>(disk: &mut D, half: u8, at: u64, piece: &[u8]) -> Result<(), OutFault>
    requires attached { IsTrue (D.state disk.old).attached }
    requires half { half ≤ 1 }
    ensures written { OnOk result
        (Steps (InHalf half (Written at piece.now)) (D.state disk.old) (D.state disk.new)) }
    ensures torn { OnErr result
        (Steps (InHalf half (Torn at (length piece.now))) (D.state disk.old) (D.state disk.new)) }
    ensures durable { (D.state disk.old).honest →
        OnOk result
        (IfSome ((D.state disk.new).logs (D.state disk.old).asked)
        (λ log. Only log ((D.state disk.new).may_leave (D.state disk.old).asked))) }
    ensures fits { OnOk result (at + length piece.now ≤ 2 ^ 62) }
    ensures stop { IfSome (D.state disk.old).until_stop
        (λ calls. WritesToStop (InHalf half (Written at piece.now)) calls (D.state disk.old)
        (D.state disk.new) result) }
    ensures time { Elapses (D.state disk.old).asked (D.state disk.old) (D.state disk.new)
        (TornFrom half at (length piece.now) ((D.state disk.old).may_leave (D.state disk.old).asked)) }
    ensures others { LeavesOthers (D.state disk.old) (D.state disk.new) }
    ensures cause { HasOutCause (D.state disk.old).faults (D.state disk.new).faults result }
{
    disk.write_at(half, at, piece)?;
    disk.sync()
}
