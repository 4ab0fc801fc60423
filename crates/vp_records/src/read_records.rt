//! Reading the fields of log records.

ghost use Rattle.vp_text.specs.Reading.{Tries};
ghost use Rattle.vp_base.specs.Faults.{line_left};
ghost use Rattle.vp_records.specs.declared.kind.RecordKind.TheVariants as kinds;
ghost use Rattle.vp_records.specs.Reading.{fields_at};

use crate::kind::RecordKind;
use std::alloc::Global;
use vp_base::{LineFault, LogRecord};
use vp_bytes::{
    read_decisions, read_outcome, read_rec, read_site, read_sites, read_txn, read_u32, read_u64,
    read_view,
};
use vp_contents::{Version, read_copies, read_doubts, read_stored, read_writes};
use vp_text::Cursor;

/// Reads the fields of a log record of this kind.
#[tactic(auto, unfolding(crate::specs::Reading::fields_at))]
pub fn read_fields(
    alloc: Global,
    cursor: &mut Cursor,
    kind: RecordKind,
) -> Result<LogRecord, LineFault>
    ensures { Tries (λ r. r) line_left result cursor.new (fields_at kind cursor.old) }
{
    match kind {
        RecordKind::Start => read_start(cursor),
        RecordKind::Promise => read_promise(cursor),
        RecordKind::Yes => read_yes(alloc, cursor),
        RecordKind::Outcome => read_end(cursor),
        RecordKind::Commit => read_commit(alloc, cursor),
        RecordKind::Copy => read_copy(alloc, cursor),
        RecordKind::Acked => read_acked(cursor),
        RecordKind::Checkpoint => read_checkpoint(alloc, cursor),
        RecordKind::YesOfValues => read_yes_of_values(alloc, cursor),
        RecordKind::CommitOfValues => read_commit_of_values(alloc, cursor),
        RecordKind::CopyOfValue => read_copy_of_value(alloc, cursor),
        RecordKind::CheckpointOfValues => read_checkpoint_of_values(alloc, cursor),
    }
}

#[tactic(auto, unfolding(crate::specs::Reading::fields_at))]
fn read_start(cursor: &mut Cursor) -> Result<LogRecord, LineFault>
    ensures { Tries (λ r. r) line_left result cursor.new (fields_at kinds.Start cursor.old) }
{
    let life = read_u32(cursor)?;
    Ok(LogRecord::Start { life })
}

#[tactic(auto, unfolding(crate::specs::Reading::fields_at))]
fn read_promise(cursor: &mut Cursor) -> Result<LogRecord, LineFault>
    ensures { Tries (λ r. r) line_left result cursor.new (fields_at kinds.Promise cursor.old) }
{
    let view = read_view(cursor)?;
    Ok(LogRecord::Promise { view })
}

#[tactic(auto, unfolding(crate::specs::Reading::fields_at))]
fn read_yes(alloc: Global, cursor: &mut Cursor) -> Result<LogRecord, LineFault>
    ensures { Tries (λ r. r) line_left result cursor.new (fields_at kinds.Yes cursor.old) }
{
    let txn = read_txn(cursor)?;
    let view = read_view(cursor)?;
    let writes = read_writes(alloc, cursor, Version::Second)?;
    Ok(LogRecord::Yes { txn, view, writes })
}

#[tactic(auto, unfolding(crate::specs::Reading::fields_at))]
fn read_end(cursor: &mut Cursor) -> Result<LogRecord, LineFault>
    ensures { Tries (λ r. r) line_left result cursor.new (fields_at kinds.Outcome cursor.old) }
{
    let txn = read_txn(cursor)?;
    let commit = read_outcome(cursor)?;
    Ok(LogRecord::Outcome { txn, commit })
}

#[tactic(auto, unfolding(crate::specs::Reading::fields_at))]
fn read_commit(alloc: Global, cursor: &mut Cursor) -> Result<LogRecord, LineFault>
    ensures { Tries (λ r. r) line_left result cursor.new (fields_at kinds.Commit cursor.old) }
{
    let txn = read_txn(cursor)?;
    let view = read_view(cursor)?;
    let writes = read_writes(alloc, cursor, Version::Second)?;
    let waiting = read_sites(alloc, cursor, 0)?;
    Ok(LogRecord::Commit {
        txn,
        view,
        writes,
        waiting,
    })
}

#[tactic(auto, unfolding(crate::specs::Reading::fields_at))]
fn read_copy(alloc: Global, cursor: &mut Cursor) -> Result<LogRecord, LineFault>
    ensures { Tries (λ r. r) line_left result cursor.new (fields_at kinds.Copy cursor.old) }
{
    let rec = read_rec(cursor)?;
    let stored = read_stored(alloc, cursor, Version::Second)?;
    Ok(LogRecord::Copy { rec, stored })
}

#[tactic(auto, unfolding(crate::specs::Reading::fields_at))]
fn read_acked(cursor: &mut Cursor) -> Result<LogRecord, LineFault>
    ensures { Tries (λ r. r) line_left result cursor.new (fields_at kinds.Acked cursor.old) }
{
    let txn = read_txn(cursor)?;
    let site = read_site(cursor)?;
    Ok(LogRecord::Acked { txn, site })
}

#[tactic(auto, unfolding(crate::specs::Reading::fields_at))]
fn read_checkpoint(alloc: Global, cursor: &mut Cursor) -> Result<LogRecord, LineFault>
    ensures { Tries (λ r. r) line_left result cursor.new (fields_at kinds.Checkpoint cursor.old) }
{
    let generation = read_u64(cursor)?;
    let life = read_u32(cursor)?;
    let promise = read_view(cursor)?;
    let copies = read_copies(alloc, cursor, Version::Second)?;
    let doubts = read_doubts(alloc, cursor, Version::Second)?;
    let decisions = read_decisions(alloc, cursor)?;
    Ok(LogRecord::Checkpoint {
        generation,
        life,
        promise,
        copies,
        doubts,
        decisions,
    })
}

#[tactic(auto, unfolding(crate::specs::Reading::fields_at))]
fn read_yes_of_values(alloc: Global, cursor: &mut Cursor) -> Result<LogRecord, LineFault>
    ensures { Tries (λ r. r) line_left result cursor.new (fields_at kinds.YesOfValues cursor.old) }
{
    let txn = read_txn(cursor)?;
    let view = read_view(cursor)?;
    let writes = read_writes(alloc, cursor, Version::First)?;
    Ok(LogRecord::YesOfValues { txn, view, writes })
}

#[tactic(auto, unfolding(crate::specs::Reading::fields_at))]
fn read_commit_of_values(alloc: Global, cursor: &mut Cursor) -> Result<LogRecord, LineFault>
    ensures { Tries (λ r. r) line_left result cursor.new (fields_at kinds.CommitOfValues cursor.old) }
{
    let txn = read_txn(cursor)?;
    let view = read_view(cursor)?;
    let writes = read_writes(alloc, cursor, Version::First)?;
    let waiting = read_sites(alloc, cursor, 0)?;
    Ok(LogRecord::CommitOfValues {
        txn,
        view,
        writes,
        waiting,
    })
}

#[tactic(auto, unfolding(crate::specs::Reading::fields_at))]
fn read_copy_of_value(alloc: Global, cursor: &mut Cursor) -> Result<LogRecord, LineFault>
    ensures { Tries (λ r. r) line_left result cursor.new (fields_at kinds.CopyOfValue cursor.old) }
{
    let rec = read_rec(cursor)?;
    let stored = read_stored(alloc, cursor, Version::First)?;
    Ok(LogRecord::CopyOfValue { rec, stored })
}

#[tactic(auto, unfolding(crate::specs::Reading::fields_at))]
fn read_checkpoint_of_values(alloc: Global, cursor: &mut Cursor) -> Result<LogRecord, LineFault>
    ensures { Tries (λ r. r) line_left result cursor.new (fields_at kinds.CheckpointOfValues cursor.old) }
{
    let generation = read_u64(cursor)?;
    let life = read_u32(cursor)?;
    let promise = read_view(cursor)?;
    let copies = read_copies(alloc, cursor, Version::First)?;
    let doubts = read_doubts(alloc, cursor, Version::First)?;
    let decisions = read_decisions(alloc, cursor)?;
    Ok(LogRecord::CheckpointOfValues {
        generation,
        life,
        promise,
        copies,
        doubts,
        decisions,
    })
}
