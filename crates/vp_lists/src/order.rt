//! The order of views, of transactions and of the owners of locks.

ghost use Rattle.std.specs.Prelude.{◌≡◌};
ghost use Rattle.vp_base.specs.Order.{view_before, same_txn, txn_before, same_owner, owner_before};

use vp_base::{Owner, TxnId, ViewId};

/// Whether the first view comes before the second: by number, then by site.
pub fn view_comes_before(a: &ViewId, b: &ViewId) -> bool
    ensures { result ≡ view_before a.now b.now }
{
    a.number < b.number || (a.number == b.number && a.site < b.site)
}

/// Whether both are the same transaction. The places are compared first, since most transactions that are compared differ there.
pub fn is_same_txn(a: &TxnId, b: &TxnId) -> bool
    ensures { result ≡ same_txn a.now b.now }
{
    a.seq == b.seq && a.life == b.life && a.site == b.site
}

/// Whether the first transaction comes before the second: by site, then life, then place.
pub fn txn_comes_before(a: &TxnId, b: &TxnId) -> bool
    ensures { result ≡ txn_before a.now b.now }
{
    a.site.get() < b.site.get()
        || (a.site == b.site && (a.life < b.life || (a.life == b.life && a.seq < b.seq)))
}

/// Whether both are the same transaction, or both a refresh.
pub fn is_same_owner(a: &Owner, b: &Owner) -> bool
    ensures { result ≡ same_owner a.now b.now }
{
    match (a, b) {
        (Owner::Txn(t), Owner::Txn(u)) => is_same_txn(t, u),
        (Owner::Refresh, Owner::Refresh) => true,
        _ => false,
    }
}

/// Whether the first owner comes before the second. Transactions are in their own order, and refresh comes after all of them.
pub fn owner_comes_before(a: &Owner, b: &Owner) -> bool
    ensures { result ≡ owner_before a.now b.now }
{
    match (a, b) {
        (Owner::Txn(t), Owner::Txn(u)) => txn_comes_before(t, u),
        (Owner::Txn(_), Owner::Refresh) => true,
        (Owner::Refresh, _) => false,
    }
}
