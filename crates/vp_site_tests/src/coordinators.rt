//! A transaction that reads elsewhere, writes at three sites and commits; a call that is late; and a view that is left.

use std::alloc::Global;
use std::process::Abort;
use vp_base::{Boxed, Call, CallNo, CopyOf, Message, Name, SiteId, TxnId, Value, View, ViewId};
use vp_catalog::Catalog;
use vp_coordinator::{Around, Coordinator, Incoming};
use vp_locks::Locks;
use vp_records::Durable;

const ID: ViewId = ViewId { number: 1, site: 1 };

const TEXT: &[u8] =
    b"site 1 7001\nsite 2 7002\nsite 3 7003\nrecord x 5 1:1 2:1 3:1\nrecord y 5 2:1 3:1\n";

fn txn() -> TxnId {
    TxnId {
        site: SiteId::of(1),
        life: 1,
        seq: 1,
    }
}

/// Site 1 in a view of the three sites, with what it lends to its coordinator.
#[derive(Drop)]
struct Bench {
    catalog: Catalog,
    held: View,
    coordinator: Coordinator,
}

/// Each method but the last says whether it is done, and whether there are so many replies and messages by then.
impl Bench {
    fn does(&mut self, call: Call, replies: usize, messages: usize) -> bool {
        let at = Around {
            catalog: &self.catalog,
            held: Some(&self.held),
            id: SiteId::of(1),
            life: 1,
            promise: ID,
        };
        let done = self.coordinator.own_call(&at, 7009, &call);
        done.is_ok() && self.has_given(replies, messages)
    }

    fn hears(&mut self, from: SiteId, message: Message, replies: usize, messages: usize) -> bool {
        let came = Incoming {
            catalog: &self.catalog,
            from,
            id: SiteId::of(1),
        };
        let done = match &message {
            Message::ReadAnswer { txn, number, value } => {
                self.coordinator.on_read_answer(&came, txn, *number, value)
            }
            Message::WriteAnswer { txn, number } => self
                .coordinator
                .on_write_answer(&came, txn, *number),
            Message::Vote { txn } => self.coordinator.on_vote(&came, txn),
            Message::Ack { txn } => self.coordinator.on_ack(from, txn),
            _ => return false,
        };
        done.is_ok() && self.has_given(replies, messages)
    }

    fn ticks(&mut self, replies: usize, messages: usize) -> bool {
        let done = self.coordinator.time_out_calls(SiteId::of(1));
        done.is_ok() && self.has_given(replies, messages)
    }

    fn resends(&mut self, replies: usize, messages: usize) -> bool {
        let done = self.coordinator.resend(SiteId::of(1));
        done.is_ok() && self.has_given(replies, messages)
    }

    fn has_given(&self, replies: usize, messages: usize) -> bool {
        self.coordinator.effects.replies.as_slice().len() == replies
            && self.coordinator.effects.messages.as_slice().len() == messages
    }
}

/// What site 1 lends before anything ran.
fn restored(rt: &impl Abort, alloc: Global, catalog: &Catalog) -> Coordinator {
    let copies = catalog.copies(SiteId::of(1)).expect(rt, "memory");
    let restored = Coordinator::restore(alloc, Durable::empty(copies), Locks::new(alloc));
    restored.expect(rt, "memory")
}

fn first_site(rt: &impl Abort, alloc: Global) -> Bench {
    let catalog = Catalog::read(alloc, TEXT).expect(rt, "a catalogue");
    let members = catalog.sites().copy_of().expect(rt, "memory");
    Bench {
        held: View { id: ID, members },
        coordinator: restored(rt, alloc, &catalog),
        catalog,
    }
}

fn number(rt: &impl Abort, number: u32) -> CallNo {
    CallNo::new(number).expect(rt, "a number")
}

fn value(rt: &impl Abort, alloc: Global, text: &[u8]) -> Value {
    Value::read(alloc, text).expect(rt, "a value")
}

fn name(rt: &impl Abort, alloc: Global, text: &[u8]) -> Name {
    Name::read(alloc, text).expect(rt, "a name")
}

/// The call to read y.
fn read(rt: &impl Abort, alloc: Global) -> Call {
    Call::Read {
        txn: txn(),
        number: number(rt, 1),
        name: name(rt, alloc, b"y"),
    }
}

/// The value of y, from another site.
fn read_answer(rt: &impl Abort, alloc: Global) -> Message {
    Message::ReadAnswer {
        txn: txn(),
        number: number(rt, 1),
        value: Some(Boxed::new(alloc, value(rt, alloc, b"5")).expect(rt, "memory")),
    }
}

/// The call to write x.
fn write(rt: &impl Abort, alloc: Global) -> Call {
    Call::Write {
        txn: txn(),
        number: number(rt, 2),
        name: name(rt, alloc, b"x"),
        value: value(rt, alloc, b"6"),
    }
}

/// The answer of another site that x is locked for the write.
fn write_answer(rt: &impl Abort) -> Message {
    Message::WriteAnswer {
        txn: txn(),
        number: number(rt, 2),
    }
}

fn commit(rt: &impl Abort) -> Call {
    Call::Commit {
        txn: txn(),
        number: number(rt, 3),
    }
}

/// Whether site 2 is asked for the record that has no copy here.
fn asks(rt: &impl Abort, alloc: Global, site: &mut Bench) -> bool {
    site.does(Call::Begin, 1, 0) && site.does(read(rt, alloc), 1, 1)
}

/// Whether the write waits for both other holders.
fn write_runs(rt: &impl Abort, alloc: Global, site: &mut Bench) -> bool {
    site.does(write(rt, alloc), 2, 3)
        && site.hears(SiteId::of(2), write_answer(rt), 2, 3)
        && site.hears(SiteId::of(3), write_answer(rt), 3, 3)
}

/// Whether the commit waits for both votes.
fn commit_runs(rt: &impl Abort, site: &mut Bench) -> bool {
    site.does(commit(rt), 3, 5)
        && site.hears(SiteId::of(2), Message::Vote { txn: txn() }, 3, 5)
        && site.hears(SiteId::of(3), Message::Vote { txn: txn() }, 4, 7)
}

/// Whether the decision is sent again until it is acknowledged.
fn decision_is_told(site: &mut Bench) -> bool {
    site.resends(4, 9)
        && site.hears(SiteId::of(2), Message::Ack { txn: txn() }, 4, 9)
        && site.resends(4, 10)
}

#[test]
fn a_transaction_reads_writes_and_commits(rt: HostRuntime) {
    let mut site = first_site(&rt, rt.alloc());
    assert!(rt;
        asks(&rt, rt.alloc(), &mut site)
            && site.hears(SiteId::of(2), read_answer(&rt, rt.alloc()), 2, 1)
            && write_runs(&rt, rt.alloc(), &mut site)
            && commit_runs(&rt, &mut site)
            && decision_is_told(&mut site)
    );
}

/// Whether a transaction that has begun is gone once the view is left.
fn view_is_left(site: &mut Bench) -> bool {
    let begun = site.does(Call::Begin, 3, 2) && site.coordinator.newest().is_some();
    let left = site.coordinator.abandon(SiteId::of(1));
    begun && left.is_ok() && site.coordinator.newest().is_none()
}

// The second tick ends the transaction whose call waits.
#[test]
fn a_late_call_ends_its_transaction_and_leaving_all(rt: HostRuntime) {
    let mut site = first_site(&rt, rt.alloc());
    assert!(rt;
        asks(&rt, rt.alloc(), &mut site)
            && site.ticks(1, 1)
            && site.ticks(2, 2)
            && view_is_left(&mut site)
    );
}
