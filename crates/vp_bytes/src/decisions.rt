//! Decisions: reading and writing them.

ghost use Rattle.std.specs.Prelude.{◌≡◌, ◌≤◌, ◌+◌, ◌++◌, All, IfOk, IfSome, length};
ghost use Rattle.vp_text.specs.Printing.{Appends};
ghost use Rattle.vp_text.specs.Reading.{Tries};
ghost use Rattle.vp_base.specs.Faults.{line_left};
ghost use Rattle.vp_base.specs.Identifiers.{IsTxn};
ghost use Rattle.vp_bytes.specs.Decisions.{decision_at, decision_bytes, decisions_at, decisions_bytes};
ghost use Rattle.vp_bytes.specs.Ranges.{last_rank, next_rank, rank};
ghost use Rattle.vp_bytes.specs.Reading.{run_at};

use crate::fields::{put_sites, put_txn, put_u64};
use crate::lists::read_sites;
use crate::reading::read_u64;
use crate::txn_ranges::read_ascending_txn;
use bytes::BufMut;
use std::alloc::Global;
use vp_base::{Decision, Decisions, LineFault, NoMemory, TxnId};
use vp_text::Cursor;

/// Reads a count and then as many decisions, ascending by transaction.
#[tactic(auto, unfolding(crate::specs::Decisions::decisions_at))]
pub fn read_decisions(alloc: Global, cursor: &mut Cursor) -> Result<Decisions, LineFault>
    ensures { Tries (λ d. d) line_left result cursor.new (decisions_at cursor.old) }
{
    let count = read_u64(cursor)?;
    read_some_decisions(alloc, cursor, count)
}

/// Reads `count` decisions, ascending by transaction.
fn read_some_decisions(
    alloc: Global,
    cursor: &mut Cursor,
    count: u64,
) -> Result<Decisions, LineFault>
    ensures { Tries (λ d. d) line_left result cursor.new
        (run_at (λ decision. rank decision.txn) decision_at count 0 cursor.old) }
{
    let mut decisions = Decisions::new(alloc);
    let mut left = count;
    let mut last = None;
    while left > 0 {
        left -= 1;
        let decision = read_decision(alloc, cursor, last, left)?;
        last = Some(decision.txn);
        decisions.push(decision)?;
    }
    Ok(decisions)
}

/// Reads a decision on a transaction above the last one, if there is one, that leaves room for the others after it.
#[tactic(auto, unfolding(crate::specs::Decisions::decision_at))]
fn read_decision(
    alloc: Global,
    cursor: &mut Cursor,
    last: Option<TxnId>,
    following: u64,
) -> Result<Decision, LineFault>
    requires last { IfSome last IsTxn }
    requires room { next_rank last + following ≤ last_rank }
    ensures read { Tries (λ d. d) line_left result cursor.new
        (decision_at following (next_rank last) cursor.old) }
    ensures txn { IfOk result (λ d. IsTxn d.txn) }
    ensures range { IfOk result (λ d. (next_rank last ≤ rank d.txn) × (rank d.txn + following ≤ last_rank)) }
{
    let txn = read_ascending_txn(cursor, last, following)?;
    let waiting = read_sites(alloc, cursor, 1)?;
    Ok(Decision { txn, waiting })
}

/// Appends the count of the decisions and then the decisions.
#[tactic(auto, using(vp_text::proofs::Printing::printing))]
pub fn put_decisions<B: BufMut>(out: &mut B, decisions: &[Decision]) -> Result<(), NoMemory>
    requires { All (λ decision. length decision.waiting ≤ 16) decisions.now }
    ensures { Appends result (B.written out.old) (decisions_bytes decisions.now) (B.written out.new) }
{
    put_u64(out, decisions.len() as u64)?;
    for decision in decisions {
        put_decision(out, decision)?;
    }
    Ok(())
}

/// Appends a decision: the transaction and the sites that have not acknowledged it.
#[tactic(auto, using(vp_text::proofs::Printing::printing))]
fn put_decision<B: BufMut>(out: &mut B, decision: &Decision) -> Result<(), NoMemory>
    requires { length decision.now.waiting ≤ 16 }
    ensures { Appends result (B.written out.old) (decision_bytes decision.now) (B.written out.new) }
{
    put_txn(out, &decision.txn)?;
    put_sites(out, decision.waiting.as_slice())
}
