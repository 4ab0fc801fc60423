//! A part takes locks, votes, is in doubt and ends; and what is left of it when the site leaves its view or starts again.

use std::alloc::Global;
use std::process::Abort;
use vp_base::{
    Bars, CallNo, Change, Copies, Put, RecId, Recs, SiteId, Sites, TxnId, Value, View, ViewId,
    Writes,
};
use vp_locks::Locks;
use vp_participant::{PartFault, Participant, Prepare, Request, Voted};
use vp_records::Durable;

const ID: ViewId = ViewId { number: 1, site: 1 };

fn txn() -> TxnId {
    TxnId {
        site: SiteId::of(2),
        life: 1,
        seq: 1,
    }
}

/// A write of record 1.
fn write(rt: &impl Abort, alloc: Global) -> Writes {
    let value = Value::read(alloc, b"5").expect(rt, "a value");
    let change = Change {
        put: Put::Value { value },
        table: None,
    };
    let mut writes = Writes::new(alloc);
    writes.push((RecId::new(1), change)).expect(rt, "memory");
    writes
}

/// The participant of a site that never ran.
fn started(rt: &impl Abort, alloc: Global, locks: &mut Locks) -> Participant {
    let durable = Durable::empty(Copies::new(alloc));
    Participant::restore(alloc, &durable, locks).expect(rt, "memory")
}

/// The number of each call, which no participant reads.
fn number(rt: &impl Abort) -> CallNo {
    CallNo::new(1).expect(rt, "a number")
}

/// Whether the part reads record 0, which it locks, and gets the lock of record 1 to write it.
fn takes_locks(
    rt: &impl Abort,
    participant: &mut Participant,
    locks: &mut Locks,
    held: &View,
) -> bool {
    let read = Request::new(txn(), ID, number(rt), RecId::new(0));
    let write = Request::new(txn(), ID, number(rt), RecId::new(1));
    let none = Bars::new(held.members.allocator());
    participant
        .read_request(locks, &none, Some(held), &read)
        .is_ok()
        && participant
            .write_request(locks, &none, Some(held), &write)
            .is_ok()
}

/// Whether a record with a bar is refused by its weights, also where another has its lock.
fn refuses_barred(
    rt: &impl Abort,
    participant: &mut Participant,
    locks: &mut Locks,
    held: &View,
) -> bool {
    let mut bars = Bars::new(held.members.allocator());
    bars.push((RecId::new(1), (2, 5))).expect(rt, "memory");
    let other = TxnId {
        site: SiteId::of(2),
        life: 1,
        seq: 2,
    };
    let write = Request::new(other, ID, number(rt), RecId::new(1));
    matches!(
        participant.write_request(locks, &bars, Some(held), &write),
        Err(PartFault::Barred {
            inside: 2,
            total: 5,
        })
    )
}

/// Whether the part votes yes on its write, and forces that before the vote is sent.
fn votes(rt: &impl Abort, participant: &mut Participant, locks: &Locks, held: &View) -> bool {
    let alloc = held.members.allocator();
    let asked = Prepare {
        txn: txn(),
        view: ID,
        number: number(rt),
        reads: &Recs::new(alloc),
        writes: &write(rt, alloc),
    };
    let vote = participant.prepare(locks, Some(held), &asked);
    matches!(vote, Ok(Voted::Yes { forced: Some(_) }))
}

/// Whether so many transactions are known here, and as many are in doubt.
fn are_in_doubt(rt: &impl Abort, participant: &Participant, count: usize) -> bool {
    let known = participant.known().expect(rt, "memory");
    let doubts = participant.in_doubt().expect(rt, "memory");
    known.as_slice().len() == count && doubts.as_slice().len() == count
}

/// Whether one transaction is in doubt, on record 1 alone.
fn shows_doubt(rt: &impl Abort, participant: &Participant) -> bool {
    participant.doubts(RecId::new(1))
        && !participant.doubts(RecId::new(0))
        && are_in_doubt(rt, participant, 1)
}

/// Whether the transaction in doubt has its exclusive lock and no shared one once the site has left its view.
fn keeps_its_lock(participant: &mut Participant, locks: &mut Locks) -> bool {
    participant.leave(locks);
    locks.holds(RecId::new(1), true, txn()) && !locks.holds(RecId::new(0), false, txn())
}

/// Whether the transaction was in doubt, and ends with its lock.
fn lets_go(rt: &impl Abort, participant: &mut Participant, locks: &mut Locks) -> bool {
    let settled = participant.outcome(locks, None, txn());
    settled.expect(rt, "memory").doubt.is_some()
        && are_in_doubt(rt, participant, 0)
        && !locks.holds(RecId::new(1), true, txn())
}

#[test]
fn a_part_votes_outlasts_its_view_and_ends(rt: HostRuntime) {
    let held = View {
        id: ID,
        members: Sites::new(rt.alloc()),
    };
    let mut locks = Locks::new(rt.alloc());
    let mut participant = started(&rt, rt.alloc(), &mut locks);
    assert!(rt;
        takes_locks(&rt, &mut participant, &mut locks, &held)
            && refuses_barred(&rt, &mut participant, &mut locks, &held)
            && votes(&rt, &mut participant, &locks, &held)
            && shows_doubt(&rt, &participant)
            && keeps_its_lock(&mut participant, &mut locks)
            && lets_go(&rt, &mut participant, &mut locks)
    );
}
