//! Lists whose items are found by a transaction.

ghost use Rattle.std.specs.Prelude.{◌≡◌, ◌<◌, IfSome, find, is_some, if◌then◌else◌, length, option_copied};
ghost use Rattle.std.specs.List.{position};
ghost use Rattle.vp_model.specs.Words.{same_txn, without_first};

use crate::order::is_same_txn;
use vp_base::{Decision, Doubt, Finished, Live, Part, TxnId};

/// An item that belongs to one transaction.
pub trait OfTxn {
    ghost use Rattle.vp_base.specs.declared.ids.TxnId.{TxnId};

    ghost txn: { Self → TxnId };

    /// Whether the item is of the transaction.
    fn is_of(&self, name: &TxnId) -> bool
        ensures { result ≡ same_txn (txn self.now) name.now };
}

fn place_of<T: OfTxn>(items: &[T], name: &TxnId) -> Option<usize>
    ensures place { result ≡ position (λ t. same_txn (T.txn t) name.now) items.now }
    ensures within { IfSome result (λ place. place < length items.now) }
{
    items.iter().position(|t| t.is_of(name))
}

/// Finds the first item of the transaction.
pub fn find_txn<'a, T: OfTxn>(items: &'a [T], name: &TxnId) -> Option<&'a T>
    ensures { option_copied result ≡ find (λ t. same_txn (T.txn t) name.now) items.now }
{
    items.iter().find(|t| t.is_of(name))
}

/// Removes the first item of the transaction and returns it.
#[tactic(auto, using(crate::proofs::Named::taking))]
pub fn take_txn<T: OfTxn + Drop>(items: &mut Vec<T>, name: &TxnId) -> Option<T>
    ensures taken { result ≡ find (λ t. same_txn (T.txn t) name.now) items.old.items }
    ensures named { IfSome result (λ t. T.txn t ≡ name.now) }
    ensures rest { items.new.items ≡
        (if is_some result then without_first (λ t. same_txn (T.txn t) name.now) items.old.items else items.old.items) }
{
    match place_of(items, name) {
        None => None,
        Some(place) => Some(items.remove(place)),
    }
}

impl OfTxn for Live {
    ghost txn = { λ t. t.txn };

    fn is_of(&self, name: &TxnId) -> bool {
        is_same_txn(&self.txn, name)
    }
}

impl OfTxn for Finished {
    ghost txn = { λ t. t.txn };

    fn is_of(&self, name: &TxnId) -> bool {
        is_same_txn(&self.txn, name)
    }
}

impl OfTxn for Part {
    ghost txn = { λ t. t.txn };

    fn is_of(&self, name: &TxnId) -> bool {
        is_same_txn(&self.txn, name)
    }
}

impl OfTxn for Decision {
    ghost txn = { λ t. t.txn };

    fn is_of(&self, name: &TxnId) -> bool {
        is_same_txn(&self.txn, name)
    }
}

impl OfTxn for Doubt {
    ghost txn = { λ t. t.txn };

    fn is_of(&self, name: &TxnId) -> bool {
        is_same_txn(&self.txn, name)
    }
}
