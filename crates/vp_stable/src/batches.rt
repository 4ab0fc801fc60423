//! Batches as the bytes in a half of a log.

ghost use Rattle.std.specs.Prelude.{◌≡◌, ◌-◌, ◌<◌, ◌≤◌, ◌++◌, ◌∷◌, [], ℕ, List, length, take, IfOk, MatchOption, MatchResult};
ghost use Rattle.byteorder.specs.Endian.{big_bytes};
ghost use Rattle.vp_base.specs.declared.entry.LogRecord.{LogRecord};
ghost use Rattle.vp_records.specs.Batches.{IsBatch};
ghost use Rattle.vp_records.specs.Records.{CanBeSaved};
ghost use Rattle.vp_stable.specs.Log.{sized_batch, CanStand, StandsFirst, IsBadLog};
ghost use Rattle.vp_stable.specs.Scans.{Scanned};
ghost use Rattle.vp_stable.specs.Halves.{HasGeneration};
ghost use Rattle.vp_stable.specs.Halves as halves;

use crate::fault::LogFault;
use byteorder::{BigEndian, ByteOrder};
use std::alloc::Global;
use vp_base::{Batch, Batches, LogRecord, NoMemory};
use vp_records::{BatchFault, Durable, decode_batch, encode_batch};

/// How many bytes the length of a batch takes.
const LENGTH_BYTES: usize = 8;

/// Bytes that hold most batches, with their length and the gate after them; a longer one grows.
const ROOM: usize = 128;

/// The byte of an open gate. Every other byte is a closed one.
pub const OPEN: u8 = 1;

/// Makes what follows a gate that is to be opened: the length of the batch, the batch, and the next gate, which is closed.
pub fn after_gate(alloc: Global, batch: &Batch) -> Result<Vec<u8>, NoMemory>
    requires { IsBatch batch.now }
    ensures bytes { IfOk result (λ piece. piece.items ≡ sized_batch batch.now ++ 0 ∷ []) }
    ensures can { IfOk result (λ _. CanStand batch.now) }
{
    let mut piece = Vec::with_capacity(alloc, ROOM)?;
    piece.extend_from_slice(&[0; LENGTH_BYTES])?;
    encode_batch(batch, &mut piece)?;
    let length = piece.len() - LENGTH_BYTES;
    BigEndian::write_u64(&mut piece, length as u64);
    piece.push(0)?;
    Ok(piece)
}

/// The place that the gate after the first batch must have, by the length of that batch, or `None` where the bytes end before it.
fn next_gate(bytes: &[u8]) -> Option<usize>
    ensures { MatchOption result
        ((batch : List LogRecord) (next : ℕ) → StandsFirst batch next bytes.now → ⊥)
        (λ next. (8 ≤ next) × (next < length bytes.now) × (take 8 bytes.now ≡ big_bytes 8 (next - 8))) }
{
    if bytes.len() <= LENGTH_BYTES {
        return None;
    }
    let length = BigEndian::read_u64(bytes);
    if length >= (bytes.len() - LENGTH_BYTES) as u64 {
        return None;
    }
    Some(LENGTH_BYTES + length as usize)
}

/// Reads the length and the batch at the front of the bytes, with the place of the gate after them; `None` where no batch is there.
fn first_batch(alloc: Global, bytes: &[u8]) -> Result<Option<(Batch, usize)>, NoMemory>
    ensures { IfOk result (λ found. MatchOption found
        ((batch : List LogRecord) (next : ℕ) → StandsFirst batch next bytes.now → ⊥)
        (λ first. StandsFirst first.0 first.1 bytes.now)) }
{
    let Some(next) = next_gate(bytes) else {
        return Ok(None);
    };
    match decode_batch(alloc, &bytes[LENGTH_BYTES..next]) {
        Ok(batch) => Ok(Some((batch, next))),
        Err(BatchFault::BadRecord { .. }) => Ok(None),
        Err(BatchFault::NoMemory) => Err(NoMemory),
    }
}

/// Makes a batch of one checkpoint of the durable part.
pub fn checkpoint_batch(
    alloc: Global,
    generation: u64,
    durable: &Durable,
) -> Result<Batch, NoMemory>
    ensures batch { IfOk result (λ batch. batch ≡ halves.checkpoint_of generation durable.now ∷ []) }
    ensures spelled { CanBeSaved durable.now → IfOk result IsBatch }
{
    let mut batch = Batch::new(alloc);
    batch.push(durable.checkpoint(generation)?)?;
    Ok(batch)
}

/// The generation of the checkpoint, of either version, with which the batch begins; 0 where it begins with none.
pub fn generation_in(batch: &Batch) -> u64
    ensures { result ≡ halves.generation_in batch.now }
{
    match batch.as_slice() {
        [LogRecord::Checkpoint { generation, .. }, ..] => *generation,
        [LogRecord::CheckpointOfValues { generation, .. }, ..] => *generation,
        _ => 0,
    }
}

/// The generation of a half, which is that of its first batch; 0 where it has none.
pub fn generation(alloc: Global, bytes: &[u8]) -> Result<u64, NoMemory>
    ensures { IfOk result (λ generation. HasGeneration generation bytes.now) }
{
    let [OPEN, following @ ..] = bytes else {
        return Ok(0);
    };
    match first_batch(alloc, following)? {
        Some((batch, _)) => Ok(generation_in(&batch)),
        None => Ok(0),
    }
}

/// What was read of a half that is a log.
#[derive(Drop)]
pub struct Scan {
    pub batches: Batches,
    /// The place of the closed gate after the batches.
    pub gate: usize,
    /// The place of the gate after the first batch; 0 where there is no batch.
    pub second: usize,
}

/// Reads the batches of a half, and the places of its gates.
pub fn read_batches(alloc: Global, half: u8, bytes: &[u8]) -> Result<Scan, LogFault>
    ensures scanned { Scanned half bytes.now result }
    ensures within { IfOk result (λ scan. (scan.gate ≤ length bytes.now) × (scan.second ≤ scan.gate)) }
{
    let mut scan = Scan {
        batches: Batches::new(alloc),
        gate: 0,
        second: 0,
    };
    if bytes.len() < 2 {
        return Ok(scan);
    }
    while bytes[scan.gate] == OPEN {
        let Some((batch, next)) = first_batch(alloc, &bytes[scan.gate + 1..])? else {
            return Err(LogFault::BadLog {
                half,
                at: scan.gate as u64,
            });
        };
        scan.batches.push(batch)?;
        scan.gate += 1 + next;
        if scan.second == 0 {
            scan.second = scan.gate;
        }
    }
    Ok(scan)
}
