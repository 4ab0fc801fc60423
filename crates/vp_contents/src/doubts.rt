//! Transactions in doubt: reading and writing them.

ghost use Rattle.std.specs.Prelude.{◌≡◌, ◌≤◌, ◌+◌, ◌++◌, All, IfOk, IfSome, length};
ghost use Rattle.vp_text.specs.Printing.{Appends};
ghost use Rattle.vp_text.specs.Reading.{Tries};
ghost use Rattle.vp_base.specs.Faults.{line_left};
ghost use Rattle.vp_base.specs.Identifiers.{IsTxn};
ghost use Rattle.vp_contents.specs.Changes.{IsWrites};
ghost use Rattle.vp_contents.specs.Doubts.{doubt_at, doubt_bytes, doubts_at, doubts_bytes};
ghost use Rattle.vp_bytes.specs.Ranges.{last_rank, next_rank, rank};
ghost use Rattle.vp_bytes.specs.Reading.{run_at};

use crate::changes::{put_writes, read_writes};
use crate::version::Version;
use bytes::BufMut;
use std::alloc::Global;
use vp_base::{Doubt, InDoubt, LineFault, NoMemory, TxnId, ViewId, Writes};
use vp_bytes::{put_txn, put_u64, put_view, read_ascending_txn, read_u64, read_view};
use vp_text::Cursor;

/// Reads a count and then as many transactions in doubt, ascending.
#[tactic(auto, unfolding(crate::specs::Doubts::doubts_at))]
pub fn read_doubts(
    alloc: Global,
    cursor: &mut Cursor,
    version: Version,
) -> Result<InDoubt, LineFault>
    ensures { Tries (λ d. d) line_left result cursor.new (doubts_at version cursor.old) }
{
    let count = read_u64(cursor)?;
    read_some_doubts(alloc, cursor, version, count)
}

/// Reads `count` transactions in doubt, ascending.
fn read_some_doubts(
    alloc: Global,
    cursor: &mut Cursor,
    version: Version,
    count: u64,
) -> Result<InDoubt, LineFault>
    ensures { Tries (λ d. d) line_left result cursor.new
        (run_at (λ doubt. rank doubt.txn) (doubt_at version) count 0 cursor.old) }
{
    let mut doubts = InDoubt::new(alloc);
    let mut left = count;
    let mut last = None;
    while left > 0 {
        left -= 1;
        let doubt = read_doubt(alloc, cursor, version, last, left)?;
        last = Some(doubt.txn);
        doubts.push(doubt)?;
    }
    Ok(doubts)
}

/// Reads a transaction in doubt above the last one, if there is one, that leaves room for the others after it.
#[tactic(auto, unfolding(crate::specs::Doubts::doubt_at))]
fn read_doubt(
    alloc: Global,
    cursor: &mut Cursor,
    version: Version,
    last: Option<TxnId>,
    following: u64,
) -> Result<Doubt, LineFault>
    requires last { IfSome last IsTxn }
    requires room { next_rank last + following ≤ last_rank }
    ensures read { Tries (λ d. d) line_left result cursor.new
        (doubt_at version following (next_rank last) cursor.old) }
    ensures txn { IfOk result (λ d. IsTxn d.txn) }
    ensures range { IfOk result (λ d. (next_rank last ≤ rank d.txn) × (rank d.txn + following ≤ last_rank)) }
{
    let txn = read_ascending_txn(cursor, last, following)?;
    let view = read_view(cursor)?;
    let writes = read_writes(alloc, cursor, version)?;
    Ok(Doubt { txn, view, writes })
}

/// Appends the count of the transactions in doubt and then each of them.
#[tactic(auto, using(vp_bytes::proofs::Writing::writing))]
pub fn put_doubts<B: BufMut>(
    out: &mut B,
    version: Version,
    doubts: &[Doubt],
) -> Result<(), NoMemory>
    requires { All (λ doubt. IsWrites version doubt.writes) doubts.now }
    ensures { Appends result (B.written out.old) (doubts_bytes version doubts.now) (B.written out.new) }
{
    put_u64(out, doubts.len() as u64)?;
    for doubt in doubts {
        put_doubt(out, version, &doubt.txn, &doubt.view, &doubt.writes)?;
    }
    Ok(())
}

/// Appends a transaction in doubt, with its view and its changes.
#[tactic(auto, using(vp_bytes::proofs::Writing::writing))]
pub fn put_doubt<B: BufMut>(
    out: &mut B,
    version: Version,
    txn: &TxnId,
    view: &ViewId,
    writes: &Writes,
) -> Result<(), NoMemory>
    requires { IsWrites version writes.now }
    ensures { Appends result (B.written out.old)
        (doubt_bytes version (record { txn = txn.now; view = view.now; writes = writes.now })) (B.written out.new) }
{
    put_txn(out, txn)?;
    put_view(out, view)?;
    put_writes(out, version, writes.as_slice())
}
