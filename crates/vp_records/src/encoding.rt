//! Writing batches.

ghost use Rattle.std.specs.Prelude.{◌≡◌, ◌++◌, ◌∷◌, []};
ghost use Rattle.vp_text.specs.Printing.{Appends};
ghost use Rattle.vp_bytes.specs.Fields.{IsSites, txn_bytes};
ghost use Rattle.vp_bytes.specs.Decisions.{IsDecisions};
ghost use Rattle.vp_contents.specs.Changes.{IsWrites};
ghost use Rattle.vp_contents.specs.Copies.{IsCopies};
ghost use Rattle.vp_contents.specs.Doubts.{IsDoubts};
ghost use Rattle.vp_records.specs.Batches.{IsBatch, batch_bytes};
ghost use Rattle.vp_records.specs.Records.{IsLogRecord, checkpoint_bytes, commit_bytes, record_bytes, record_code, record_fields, saved_bytes};

use vp_base::{
    Batch, Decision, Doubt, LogRecord, NoMemory, RecId, SiteId, Stored, TxnId, ViewId, Writes,
};
use vp_bytes::{
    put_byte, put_decisions, put_outcome, put_sites, put_txn, put_u32, put_u64, put_view,
};
use vp_contents::{Version, put_copies, put_copy, put_doubt, put_doubts};

/// Appends the batch in its only encoding. After want of memory a beginning of it has been appended, and nothing else changed.
#[tactic(auto, using(vp_bytes::proofs::Writing::writing))]
pub fn encode_batch(batch: &Batch, out: &mut Vec<u8>) -> Result<(), NoMemory>
    requires { IsBatch batch.now }
    ensures { Appends result out.old.items (batch_bytes batch.now) out.new.items }
{
    for entry in batch.as_slice() {
        put_record(out, entry)?;
    }
    Ok(())
}

#[tactic(auto, using(vp_bytes::proofs::Writing::writing))]
fn put_record(out: &mut Vec<u8>, entry: &LogRecord) -> Result<(), NoMemory>
    requires { IsLogRecord entry.now }
    ensures { Appends result out.old.items (record_bytes entry.now) out.new.items }
{
    put_byte(out, code_of(entry))?;
    put_fields(out, entry)
}

fn code_of(entry: &LogRecord) -> u8
    ensures { result ≡ record_code entry.now }
{
    match entry {
        LogRecord::Start { .. } => 1,
        LogRecord::Promise { .. } => 2,
        LogRecord::Yes { .. } => 9,
        LogRecord::Outcome { .. } => 4,
        LogRecord::Commit { .. } => 10,
        LogRecord::Copy { .. } => 11,
        LogRecord::Acked { .. } => 7,
        LogRecord::Checkpoint { .. } => 12,
        LogRecord::YesOfValues { .. } => 3,
        LogRecord::CommitOfValues { .. } => 5,
        LogRecord::CopyOfValue { .. } => 6,
        LogRecord::CheckpointOfValues { .. } => 8,
    }
}

#[tactic(auto, using(vp_bytes::proofs::Writing::writing))]
fn put_fields(out: &mut Vec<u8>, entry: &LogRecord) -> Result<(), NoMemory>
    requires { IsLogRecord entry.now }
    ensures { Appends result out.old.items (record_fields entry.now) out.new.items }
{
    match entry {
        LogRecord::Start { life } => put_u32(out, *life),
        LogRecord::Promise { view } => put_view(out, view),
        LogRecord::Yes { txn, view, writes } => put_doubt(out, Version::Second, txn, view, writes),
        LogRecord::Outcome { txn, commit } => put_outcome(out, txn, *commit),
        LogRecord::Commit {
            txn,
            view,
            writes,
            waiting,
        } => put_commit(out, Version::Second, txn, view, writes, waiting.as_slice()),
        LogRecord::Copy { rec, stored } => put_copy(out, Version::Second, *rec, stored),
        LogRecord::Acked { txn, site } => put_acked(out, txn, *site),
        LogRecord::Checkpoint {
            generation,
            life,
            promise,
            copies,
            doubts,
            decisions,
        } => put_checkpoint(
            out,
            Version::Second,
            *generation,
            *life,
            promise,
            copies.as_slice(),
            doubts.as_slice(),
            decisions.as_slice(),
        ),
        LogRecord::YesOfValues { txn, view, writes } => {
            put_doubt(out, Version::First, txn, view, writes)
        }
        LogRecord::CommitOfValues {
            txn,
            view,
            writes,
            waiting,
        } => put_commit(out, Version::First, txn, view, writes, waiting.as_slice()),
        LogRecord::CopyOfValue { rec, stored } => put_copy(out, Version::First, *rec, stored),
        LogRecord::CheckpointOfValues {
            generation,
            life,
            promise,
            copies,
            doubts,
            decisions,
        } => put_checkpoint(
            out,
            Version::First,
            *generation,
            *life,
            promise,
            copies.as_slice(),
            doubts.as_slice(),
            decisions.as_slice(),
        ),
    }
}

#[tactic(auto, using(vp_bytes::proofs::Writing::writing))]
fn put_commit(
    out: &mut Vec<u8>,
    version: Version,
    txn: &TxnId,
    view: &ViewId,
    writes: &Writes,
    waiting: &[SiteId],
) -> Result<(), NoMemory>
    requires writes { IsWrites version writes.now }
    requires waiting { IsSites 0 waiting.now }
    ensures { Appends result out.old.items (commit_bytes version txn.now view.now writes.now waiting.now)
        out.new.items }
{
    put_doubt(out, version, txn, view, writes)?;
    put_sites(out, waiting)
}

#[tactic(auto, using(vp_bytes::proofs::Writing::writing))]
fn put_acked(out: &mut Vec<u8>, txn: &TxnId, site: SiteId) -> Result<(), NoMemory>
    ensures { Appends result out.old.items (txn_bytes txn.now ++ site ∷ []) out.new.items }
{
    put_txn(out, txn)?;
    put_byte(out, site.get())
}

/// Appends the fields of a checkpoint.
#[tactic(auto, using(vp_bytes::proofs::Writing::writing))]
fn put_checkpoint(
    out: &mut Vec<u8>,
    version: Version,
    generation: u64,
    life: u32,
    promise: &ViewId,
    copies: &[(RecId, Stored)],
    doubts: &[Doubt],
    decisions: &[Decision],
) -> Result<(), NoMemory>
    requires copies { IsCopies version copies.now }
    requires doubts { IsDoubts version doubts.now }
    requires decisions { IsDecisions decisions.now }
    ensures { Appends result out.old.items
        (checkpoint_bytes version generation life promise.now copies.now doubts.now decisions.now)
        out.new.items }
{
    put_u64(out, generation)?;
    put_u32(out, life)?;
    put_view(out, promise)?;
    put_saved(out, version, copies, doubts, decisions)
}

/// Appends what a checkpoint has after its promise.
#[tactic(auto, using(vp_bytes::proofs::Writing::writing))]
fn put_saved(
    out: &mut Vec<u8>,
    version: Version,
    copies: &[(RecId, Stored)],
    doubts: &[Doubt],
    decisions: &[Decision],
) -> Result<(), NoMemory>
    requires copies { IsCopies version copies.now }
    requires doubts { IsDoubts version doubts.now }
    requires decisions { IsDecisions decisions.now }
    ensures { Appends result out.old.items (saved_bytes version copies.now doubts.now decisions.now)
        out.new.items }
{
    put_copies(out, version, copies)?;
    put_doubts(out, version, doubts)?;
    put_decisions(out, decisions)
}
