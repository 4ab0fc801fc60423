//! Locks that are taken, kept and released.

use vp_base::{CopyOf, Owner, RecId, SiteId, TxnId};
use vp_locks::Locks;

fn txn(seq: u32) -> TxnId {
    TxnId {
        site: SiteId::of(1),
        life: 1,
        seq,
    }
}

/// Whether the first transaction's locks on the record keep the second one out.
fn keeps_others_out(locks: &mut Locks, rec: RecId) -> bool {
    locks.take_shared(rec, txn(1)).is_ok()
        && locks.take_exclusive(rec, txn(1)).is_ok()
        && locks.holds(rec, true, txn(1))
        && locks.take_shared(rec, txn(2)).is_err()
        && locks.conflict(rec, false, txn(2)) == Some(Owner::Txn(txn(1)))
}

/// Whether the second transaction and a refresh lock the record, whatever locks others have on it.
fn are_held_beside_others(locks: &mut Locks, rec: RecId) -> bool {
    locks.release_shared(txn(1));
    let held = locks.hold(rec, txn(2)).is_ok();
    locks.release(txn(1));
    held && locks.guard(rec).is_ok() && locks.copy_of().is_ok()
}

#[test]
fn each_call_takes_what_it_names(rt: HostRuntime) {
    let rec = RecId::new(0);
    let mut locks = Locks::new(rt.alloc());
    assert!(rt; keeps_others_out(&mut locks, rec) && are_held_beside_others(&mut locks, rec));
    locks.unguard(rec);
    assert!(rt; locks.conflict(rec, true, txn(2)).is_none());
}

/// Whether the transaction takes both locks, which are then released.
fn come_and_go(locks: &mut Locks, exclusive: RecId, shared: RecId, seq: u32) -> bool {
    let taken = locks.take_exclusive(exclusive, txn(seq)).is_ok()
        && locks.take_shared(shared, txn(seq)).is_ok();
    locks.release(txn(seq));
    taken
}

/// Many more locks are taken and released than the table ever has.
#[test]
fn a_table_outlives_its_locks(rt: HostRuntime) {
    let (often, shared) = (RecId::new(0), RecId::new(1));
    let mut locks = Locks::new(rt.alloc());
    let mut taken = locks.take_shared(shared, txn(0)).is_ok();
    for seq in 1..=500 {
        taken = taken && come_and_go(&mut locks, often, shared, seq);
    }
    assert!(rt; taken && locks.holds(shared, false, txn(0)));
    assert!(rt; locks.conflict(often, true, txn(0)).is_none());
    assert!(rt; locks.conflict(shared, true, txn(501)) == Some(Owner::Txn(txn(0))));
}
