//! The transactions in doubt.

ghost use Rattle.std.specs.Prelude.{◌≡◌, OnOk, OnErr};
ghost use Rattle.vp_model.specs.Durable.{put_doubt, without_doubt};

use std::mem;
use vp_base::{CopyOf, Doubt, InDoubt, NoMemory, TxnId, ViewId, Writes};
use vp_lists::{is_same_txn, put};

/// Puts the doubt in its place, where it replaces one of the same transaction. Where memory is lacking, the doubts stay as they
/// are.
pub fn keep_doubt(
    doubts: &mut InDoubt,
    txn: &TxnId,
    view: &ViewId,
    writes: &Writes,
) -> Result<(), NoMemory>
    ensures ok { OnOk result
        (doubts.new ≡ put_doubt (record { txn = txn.now; view = view.now; writes = writes.now }) doubts.old) }
    ensures err { OnErr result (doubts.new ≡ doubts.old) }
{
    let doubt = Doubt {
        txn: *txn,
        view: *view,
        writes: writes.copy_of()?,
    };
    let none = InDoubt::new(doubts.allocator());
    let mut items = mem::replace(doubts, none).into_vec();
    let done = put(&mut items, doubt);
    *doubts = InDoubt::from_vec(items);
    done
}

/// Removes the transaction from those in doubt.
pub fn drop_doubt(doubts: &mut InDoubt, txn: &TxnId)
    ensures { doubts.new ≡ without_doubt txn.now doubts.old }
{
    let none = InDoubt::new(doubts.allocator());
    let mut items = mem::replace(doubts, none).into_vec();
    items.retain(|doubt| !is_same_txn(&doubt.txn, txn));
    *doubts = InDoubt::from_vec(items);
}
