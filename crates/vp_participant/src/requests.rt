//! What other sites' transactions ask of their parts here.

ghost use Rattle.std.specs.Prelude.{◌≡◌};

use vp_base::{CallNo, RecId, Recs, TxnId, ViewId, Writes};

/// A request for a lock on a record: the transaction, the view in which it runs, and the number of the call that asks. The method
/// that takes the request decides whether the lock is shared or exclusive.
#[derive(Clone, Copy, Drop)]
pub struct Request {
    pub txn: TxnId,
    pub view: ViewId,
    pub number: CallNo,
    pub rec: RecId,
}

impl Request {
    /// Makes a request of these.
    pub fn new(txn: TxnId, view: ViewId, number: CallNo, rec: RecId) -> Request
        ensures { result ≡ record { txn = txn; view = view; number = number; rec = rec } }
    {
        Request {
            txn,
            view,
            number,
            rec,
        }
    }
}

/// A request for the vote of a part: the view in which the transaction runs, the number of its commit, the records that it has read
/// here, and the last values that it writes here.
#[derive(Clone, Copy, Drop)]
pub struct Prepare<'a> {
    pub txn: TxnId,
    pub view: ViewId,
    pub number: CallNo,
    pub reads: &'a Recs,
    pub writes: &'a Writes,
}
