//! Reading batches.

ghost use Rattle.vp_text.specs.Meaning.{Answers};
ghost use Rattle.vp_text.specs.Reading.{Tries};
ghost use Rattle.vp_base.specs.Faults.{line_left};
ghost use Rattle.vp_records.specs.Batches.{IsBatchBytes};
ghost use Rattle.vp_records.specs.Laws.{batch_place};
ghost use Rattle.vp_records.specs.Reading.{batch_at, record_at};

use crate::fault::BatchFault;
use crate::read_records::read_fields;
use std::alloc::Global;
use vp_base::{Batch, LineFault, LogRecord};
use vp_bytes::read_coded;
use vp_text::Cursor;

/// Decodes a batch of log records, which is empty where there are no bytes. `BadRecord` says how many of the bytes begin a batch.
pub fn decode_batch(alloc: Global, bytes: &[u8]) -> Result<Batch, BatchFault>
    ensures { Answers IsBatchBytes (λ b. b) batch_place bytes.now result }
{
    let mut cursor = Cursor::new(bytes);
    match read_batch(alloc, &mut cursor) {
        Ok(batch) => Ok(batch),
        Err(LineFault::NoMemory) => Err(BatchFault::NoMemory),
        Err(LineFault::Unexpected(e)) => Err(BatchFault::BadRecord {
            at: bytes.len() - e.left,
        }),
    }
}

/// Reads log records up to the end.
fn read_batch(alloc: Global, cursor: &mut Cursor) -> Result<Batch, LineFault>
    ensures { Tries (λ b. b) line_left result cursor.new (batch_at cursor.old) }
{
    let mut records = Vec::new(alloc);
    while cursor.left() > 0 {
        let record = read_record(alloc, cursor)?;
        records.push(record)?;
    }
    Ok(Batch::from_vec(records))
}

#[tactic(auto, unfolding(crate::specs::Reading::record_at))]
fn read_record(alloc: Global, cursor: &mut Cursor) -> Result<LogRecord, LineFault>
    ensures { Tries (λ r. r) line_left result cursor.new (record_at cursor.old) }
{
    let kind = read_coded(cursor)?;
    read_fields(alloc, cursor, kind)
}
