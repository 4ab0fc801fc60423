//! Which datagram has the answer to a call.

ghost use Rattle.std.specs.Prelude.{◌≡◌, IfOk};
ghost use Rattle.vp_laws.specs.Answering.{answers, answers_begin, answers_numbered, answers_regroup, is_of};
ghost use Rattle.vp_runs.specs.Asking.{answer_in, answer_of};

use std::alloc::Global;
use vp_base::{Answer, Call, CallNo, NoMemory, SiteId, TxnId};
use vp_lists::is_same_txn;
use vp_wire::{Body, WireFault, decode};

/// Reads the answer to the call from a datagram that came from the site's port; none where it has another site's reply, another answer
/// or no frame.
#[tactic(auto, using(crate::proofs::Found::found_in, crate::proofs::Found::stray_in, crate::proofs::Found::bad_in))]
pub fn find_answer(
    alloc: Global,
    port: u16,
    site: SiteId,
    call: &Call,
    bytes: &[u8],
) -> Result<Option<Answer>, NoMemory>
    ensures { IfOk result
        (λ found. found ≡ answer_of port site call.now (record { port = port; bytes = bytes.now })) }
{
    let frame = match decode(alloc, bytes) {
        Ok(frame) => frame,
        Err(WireFault::BadFrame { .. }) => return Ok(None),
        Err(WireFault::NoMemory) => return Err(NoMemory),
    };
    if frame.from != site.get() {
        return Ok(None);
    }
    Ok(answer_in(call, frame.body))
}

fn answer_in(call: &Call, body: Body) -> Option<Answer>
    ensures { result ≡ answer_in call.now body }
{
    let Body::Reply(answer) = body else {
        return None;
    };
    if is_answer(call, &answer) {
        Some(answer)
    } else {
        None
    }
}

/// Whether this is an answer to the call.
fn is_answer(call: &Call, answer: &Answer) -> bool
    ensures { result ≡ answers call.now answer.now }
{
    match call {
        Call::Begin => begins(answer),
        Call::Regroup => regroups(answer),
        Call::Read { txn, number, .. } => is_numbered(txn, *number, answer),
        Call::Write { txn, number, .. } => is_numbered(txn, *number, answer),
        Call::Delete { txn, number, .. } => is_numbered(txn, *number, answer),
        Call::Weigh { txn, number, .. } => is_numbered(txn, *number, answer),
        Call::Commit { txn, number } => is_numbered(txn, *number, answer),
        Call::Abort { txn, number } => is_numbered(txn, *number, answer),
    }
}

fn begins(answer: &Answer) -> bool
    ensures { result ≡ answers_begin answer.now }
{
    match answer {
        Answer::Begun { .. } => true,
        Answer::NoView { .. } => true,
        Answer::TooManyLive => true,
        Answer::Spent { .. } => true,
        _ => false,
    }
}

fn regroups(answer: &Answer) -> bool
    ensures { result ≡ answers_regroup answer.now }
{
    match answer {
        Answer::Inviting { .. } => true,
        Answer::Spent { .. } => true,
        _ => false,
    }
}

/// Whether this is an answer to the call with this number on the transaction.
fn is_numbered(txn: &TxnId, number: CallNo, answer: &Answer) -> bool
    ensures { result ≡ answers_numbered txn.now number answer.now }
{
    match answer {
        Answer::Value {
            txn: t,
            number: n,
            ..
        } => is_of(t, *n, txn, number),
        Answer::Written { txn: t, number: n } => is_of(t, *n, txn, number),
        Answer::Absent { txn: t, number: n } => is_of(t, *n, txn, number),
        Answer::Deleted { txn: t, number: n } => is_of(t, *n, txn, number),
        Answer::Weighed { txn: t, number: n } => is_of(t, *n, txn, number),
        Answer::BadTable { txn: t, number: n } => is_of(t, *n, txn, number),
        Answer::Committed { txn: t, number: n } => is_of(t, *n, txn, number),
        Answer::Aborted { txn: t, number: n } => is_of(t, *n, txn, number),
        Answer::Unknown { txn: t } => is_same_txn(t, txn),
        Answer::Skipped { txn: t, .. } => is_same_txn(t, txn),
        Answer::Busy { txn: t, number: n } => is_of(t, *n, txn, number),
        Answer::NoRecord { txn: t, number: n } => is_of(t, *n, txn, number),
        Answer::TooManyOps { txn: t, number: n } => is_of(t, *n, txn, number),
        Answer::Inaccessible {
            txn: t,
            number: n,
            ..
        } => is_of(t, *n, txn, number),
        Answer::LockHeld {
            txn: t,
            number: n,
            ..
        } => is_of(t, *n, txn, number),
        Answer::ViewChanged {
            txn: t,
            number: n,
            ..
        } => is_of(t, *n, txn, number),
        Answer::TimedOut {
            txn: t,
            number: n,
            ..
        } => is_of(t, *n, txn, number),
        _ => false,
    }
}

fn is_of(t: &TxnId, n: CallNo, txn: &TxnId, number: CallNo) -> bool
    ensures { result ≡ is_of txn.now number t.now n }
{
    is_same_txn(t, txn) && n == number
}
