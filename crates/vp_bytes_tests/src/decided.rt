//! Decisions that are found by their transactions, in that order or in any other.

use crate::durable::{decision_count, two_sites, txn};
use std::alloc::Global;
use std::process::Abort;
use vp_base::{CopyOf, Decision, Decisions, SiteId, Sites};
use vp_records::DecisionTable;

/// Orders of decisions; the first one is that of transactions.
const ORDERS: [[u32; 3]; 2] = [[1, 2, 3], [3, 1, 2]];

/// Decisions on these transactions, each of which waits for the sites 2 and 3.
fn given(rt: &impl Abort, alloc: Global, seqs: &[u32]) -> DecisionTable {
    let mut list = Decisions::new(alloc);
    for seq in seqs {
        let decision = Decision {
            txn: txn(*seq),
            waiting: two_sites(rt, alloc),
        };
        list.push(decision).expect(rt, "memory");
    }
    DecisionTable::copied(&list).expect(rt, "memory")
}

#[test]
fn a_decision_is_found_in_any_order(rt: HostRuntime) {
    for seqs in &ORDERS {
        let decided = given(&rt, rt.alloc(), seqs);
        assert!(rt; decided.is_decided(&txn(2)) && !decided.is_decided(&txn(4)));
        assert!(rt; decided.waits_for(&txn(2), SiteId::of(3)));
        assert!(rt; !decided.waits_for(&txn(2), SiteId::of(1)));
    }
}

#[test]
fn it_goes_with_its_last_site_in_any_order(rt: HostRuntime) {
    for seqs in &ORDERS {
        let mut decided = given(&rt, rt.alloc(), seqs);
        decided.acknowledge(&txn(2), SiteId::of(2));
        assert!(rt; decided.waits_for(&txn(2), SiteId::of(3)));
        decided.acknowledge(&txn(2), SiteId::of(3));
        assert!(rt; !decided.is_decided(&txn(2)));
        assert!(rt; decided.is_decided(&txn(1)) && decided.is_decided(&txn(3)));
    }
}

#[test]
fn a_copy_has_the_same_in_any_order(rt: HostRuntime) {
    for seqs in &ORDERS {
        let decided = given(&rt, rt.alloc(), seqs);
        let copy = decided.copy_of().expect(&rt, "memory");
        assert!(rt; decision_count(&rt, &copy) == 3);
    }
}

#[test]
fn a_decision_is_kept_for_sites_alone(rt: HostRuntime) {
    for seqs in &ORDERS {
        let mut decided = given(&rt, rt.alloc(), seqs);
        let none = Sites::new(rt.alloc());
        decided.keep(&txn(4), none).expect(&rt, "memory");
        let some = two_sites(&rt, rt.alloc());
        decided.keep(&txn(5), some).expect(&rt, "memory");
        assert!(rt; !decided.is_decided(&txn(4)) && decided.is_decided(&txn(5)));
    }
}
