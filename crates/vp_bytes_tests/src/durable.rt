//! What each kind of log record does, over a site with copies of the records 0 and 2.

use std::alloc::Global;
use std::process::Abort;
use vp_base::{
    Change, Copies, CopyOf, Decisions, InDoubt, LogRecord, Put, RecId, SiteId, Sites, Stored,
    Table, TxnId, Value, ViewId, Writes,
};
use vp_contents::read_table;
use vp_records::{DecisionTable, Durable};
use vp_text::Cursor;

pub(crate) fn txn(seq: u32) -> TxnId {
    TxnId {
        site: SiteId::of(1),
        life: 1,
        seq,
    }
}

fn view(number: u64) -> ViewId {
    ViewId { number, site: 2 }
}

fn value(rt: &impl Abort, alloc: Global, text: &[u8]) -> Value {
    Value::read(alloc, text).expect(rt, "a value")
}

fn stored(rt: &impl Abort, alloc: Global, text: &[u8], number: u64) -> Stored {
    Stored {
        value: Some(value(rt, alloc, text)),
        table: None,
        date: view(number),
    }
}

fn durable(rt: &impl Abort, alloc: Global) -> Durable {
    let first = stored(rt, alloc, b"10", 0);
    let third = stored(rt, alloc, b"30", 0);
    let mut copies = Copies::new(alloc);
    copies.push((RecId::new(0), first)).expect(rt, "memory");
    copies.push((RecId::new(2), third)).expect(rt, "memory");
    Durable::empty(copies)
}

fn changed(rt: &impl Abort, alloc: Global, rec: u8, put: Put, table: Option<Table>) -> Writes {
    let mut writes = Writes::new(alloc);
    writes
        .push((RecId::new(rec), Change { put, table }))
        .expect(rt, "memory");
    writes
}

fn write(rt: &impl Abort, alloc: Global, rec: u8, text: &[u8]) -> Writes {
    let value = value(rt, alloc, text);
    changed(rt, alloc, rec, Put::Value { value }, None)
}

fn yes(rt: &impl Abort, alloc: Global, seq: u32, number: u64, text: &[u8]) -> LogRecord {
    LogRecord::Yes {
        txn: txn(seq),
        view: view(number),
        writes: write(rt, alloc, 0, text),
    }
}

fn outcome(seq: u32, commit: bool) -> LogRecord {
    LogRecord::Outcome {
        txn: txn(seq),
        commit,
    }
}

fn acked(seq: u32, site: u8) -> LogRecord {
    LogRecord::Acked {
        txn: txn(seq),
        site: if site == 2 {
            SiteId::of(2)
        } else {
            SiteId::of(3)
        },
    }
}

fn is_value(stored: &Stored, text: &[u8]) -> bool {
    match &stored.value {
        Some(value) => value.is(text),
        None => false,
    }
}

/// Whether the copy of the record is this one.
fn has(durable: &Durable, rec: u8, text: &[u8], number: u64) -> bool {
    match durable.stored(RecId::new(rec)) {
        None => false,
        Some(stored) => is_value(stored, text) && stored.date == view(number),
    }
}

/// How many decisions there are.
pub(crate) fn decision_count(rt: &impl Abort, decided: &DecisionTable) -> usize {
    let list = decided.list().expect(rt, "memory");
    list.as_slice().len()
}

/// How many doubts and decisions there are.
fn counts(rt: &impl Abort, durable: &Durable) -> (usize, usize) {
    let doubts = durable.doubts().as_slice().len();
    (doubts, decision_count(rt, durable.decisions()))
}

/// The durable part after one more record. Each test calls it instead of `apply`, since a short function is proved faster.
fn after(rt: &impl Abort, before: Durable, entry: LogRecord) -> Durable {
    let mut durable = before;
    durable.apply(&entry).expect(rt, "memory");
    durable
}

#[test]
fn lives_are_set(rt: HostRuntime) {
    let durable = after(&rt, durable(&rt, rt.alloc()), LogRecord::Start { life: 3 });
    assert_eq!(rt; durable.life(), 3);
}

#[test]
fn promises_are_set(rt: HostRuntime) {
    let promised = LogRecord::Promise { view: view(4) };
    let durable = after(&rt, durable(&rt, rt.alloc()), promised);
    assert!(rt; durable.promise() == view(4));
}

/// The durable part with this copy of the record, if it has one.
fn with_copy(rt: &impl Abort, alloc: Global, rec: u8) -> Durable {
    let entry = LogRecord::Copy {
        rec: RecId::new(rec),
        stored: stored(rt, alloc, b"11", 3),
    };
    after(rt, durable(rt, alloc), entry)
}

#[test]
fn a_copy_is_set_where_one_was(rt: HostRuntime) {
    let durable = with_copy(&rt, rt.alloc(), 0);
    assert!(rt; has(&durable, 0, b"11", 3) && has(&durable, 2, b"30", 0));
}

#[test]
fn no_copy_is_set_where_none_was(rt: HostRuntime) {
    let durable = with_copy(&rt, rt.alloc(), 1);
    assert!(rt; durable.stored(RecId::new(1)).is_none());
}

/// The durable part with transaction 5 in doubt, by two votes of which the second counts.
fn in_doubt(rt: &impl Abort, alloc: Global) -> Durable {
    let voted = after(rt, durable(rt, alloc), yes(rt, alloc, 5, 1, b"11"));
    after(rt, voted, yes(rt, alloc, 5, 2, b"12"))
}

fn after_outcome(rt: &impl Abort, alloc: Global, seq: u32, commit: bool) -> Durable {
    after(rt, in_doubt(rt, alloc), outcome(seq, commit))
}

#[test]
fn an_outcome_of_another_leaves_the_doubt(rt: HostRuntime) {
    let durable = after_outcome(&rt, rt.alloc(), 4, true);
    assert!(rt; counts(&rt, &durable) == (1, 0) && has(&durable, 0, b"10", 0));
}

#[test]
fn an_abort_ends_the_doubt(rt: HostRuntime) {
    let durable = after_outcome(&rt, rt.alloc(), 5, false);
    assert!(rt; counts(&rt, &durable) == (0, 0) && has(&durable, 0, b"10", 0));
}

#[test]
fn a_commit_ends_the_doubt_by_its_writes(rt: HostRuntime) {
    let durable = after_outcome(&rt, rt.alloc(), 5, true);
    assert!(rt; counts(&rt, &durable) == (0, 0) && has(&durable, 0, b"12", 2));
}

fn committed(rt: &impl Abort, alloc: Global, seq: u32, waiting: Sites) -> LogRecord {
    LogRecord::Commit {
        txn: txn(seq),
        view: view(1),
        writes: write(rt, alloc, 2, b"31"),
        waiting,
    }
}

pub(crate) fn two_sites(rt: &impl Abort, alloc: Global) -> Sites {
    let mut sites = Sites::new(alloc);
    sites.push(SiteId::of(2)).expect(rt, "memory");
    sites.push(SiteId::of(3)).expect(rt, "memory");
    sites
}

/// The durable part in which transaction 1 waits for two sites, and transaction 2 for none.
fn decided(rt: &impl Abort, alloc: Global) -> Durable {
    let waiting = committed(rt, alloc, 1, two_sites(rt, alloc));
    let first = after(rt, durable(rt, alloc), waiting);
    after(rt, first, committed(rt, alloc, 2, Sites::new(alloc)))
}

/// How many decisions wait after these sites have acknowledged transaction 1.
fn left_after(rt: &impl Abort, alloc: Global, sites: &[u8]) -> usize {
    let mut durable = decided(rt, alloc);
    for site in sites {
        durable = after(rt, durable, acked(1, *site));
    }
    decision_count(rt, durable.decisions())
}

#[test]
fn a_commit_writes_and_waits_for_sites(rt: HostRuntime) {
    let durable = decided(&rt, rt.alloc());
    assert!(rt; counts(&rt, &durable) == (0, 1) && has(&durable, 2, b"31", 1));
}

#[test]
fn a_decision_goes_with_its_last_site(rt: HostRuntime) {
    assert!(rt; left_after(&rt, rt.alloc(), &[2, 2]) == 1);
    assert!(rt; left_after(&rt, rt.alloc(), &[2, 2, 3]) == 0);
}

/// A checkpoint with a copy of record 2 alone.
fn checkpoint(rt: &impl Abort, alloc: Global) -> LogRecord {
    let third = stored(rt, alloc, b"31", 1);
    let mut copies = Copies::new(alloc);
    copies.push((RecId::new(2), third)).expect(rt, "memory");
    LogRecord::Checkpoint {
        generation: 1,
        life: 2,
        promise: view(2),
        copies,
        doubts: InDoubt::new(alloc),
        decisions: Decisions::new(alloc),
    }
}

#[test]
fn a_checkpoint_sets_all_but_the_other_copies(rt: HostRuntime) {
    let before = in_doubt(&rt, rt.alloc());
    let durable = after(&rt, before, checkpoint(&rt, rt.alloc()));
    assert!(rt; durable.life() == 2 && counts(&rt, &durable) == (0, 0));
    assert!(rt; has(&durable, 0, b"10", 0) && has(&durable, 2, b"31", 1));
}

#[test]
fn a_copy_has_the_doubts_too(rt: HostRuntime) {
    let durable = in_doubt(&rt, rt.alloc());
    let copy = durable.copy_of().expect(&rt, "memory");
    assert!(rt; counts(&rt, &copy) == (1, 0));
}

/// The table that these bytes are.
pub(crate) fn table_of(rt: &impl Abort, alloc: Global, bytes: &[u8]) -> Table {
    let mut cursor = Cursor::new(bytes);
    match read_table(alloc, &mut cursor) {
        Ok(table) => table,
        Err(_fault) => panic!(rt; "these bytes are a table"),
    }
}

/// The durable part after a commit of this change of record 0, in view 4.
fn after_change(rt: &impl Abort, alloc: Global, put: Put, table: Option<Table>) -> Durable {
    let entry = LogRecord::Commit {
        txn: txn(7),
        view: view(4),
        writes: changed(rt, alloc, 0, put, table),
        waiting: Sites::new(alloc),
    };
    after(rt, durable(rt, alloc), entry)
}

#[test]
fn a_delete_leaves_no_value(rt: HostRuntime) {
    let durable = after_change(&rt, rt.alloc(), Put::Absent, None);
    match durable.stored(RecId::new(0)) {
        Some(stored) => {
            assert!(rt; stored.value.is_none() && stored.table.is_none() && stored.date == view(4));
        }
        None => assert!(rt; false),
    }
}

#[test]
fn a_table_is_kept_with_the_content(rt: HostRuntime) {
    let table = table_of(&rt, rt.alloc(), &[1, 1, 0, 2]);
    let weighed = after_change(&rt, rt.alloc(), Put::Keep, Some(table));
    assert!(rt; has(&weighed, 0, b"10", 4));
    let written = after(&rt, weighed, yes(&rt, rt.alloc(), 8, 5, b"11"));
    let written = after(&rt, written, outcome(8, true));
    match written.stored(RecId::new(0)) {
        Some(stored) => assert!(rt; is_value(stored, b"11") && stored.table.is_some()),
        None => assert!(rt; false),
    }
}

/// The durable part after a record of each kind of the first version that has a later one.
fn after_old_kinds(rt: &impl Abort, alloc: Global) -> Durable {
    let voted = LogRecord::YesOfValues {
        txn: txn(5),
        view: view(2),
        writes: write(rt, alloc, 0, b"12"),
    };
    let committed = LogRecord::CommitOfValues {
        txn: txn(6),
        view: view(3),
        writes: write(rt, alloc, 2, b"31"),
        waiting: two_sites(rt, alloc),
    };
    let copied = LogRecord::CopyOfValue {
        rec: RecId::new(0),
        stored: stored(rt, alloc, b"11", 1),
    };
    let voted = after(rt, durable(rt, alloc), voted);
    let committed = after(rt, voted, committed);
    after(rt, committed, copied)
}

#[test]
fn the_old_kinds_do_the_same(rt: HostRuntime) {
    let durable = after_old_kinds(&rt, rt.alloc());
    assert!(rt; counts(&rt, &durable) == (1, 1));
    assert!(rt; has(&durable, 0, b"11", 1) && has(&durable, 2, b"31", 3));
    let ended = after(&rt, durable, outcome(5, true));
    assert!(rt; has(&ended, 0, b"12", 2));
}

#[test]
fn an_old_checkpoint_sets_all_but_the_other_copies(rt: HostRuntime) {
    let third = stored(&rt, rt.alloc(), b"31", 1);
    let mut copies = Copies::new(rt.alloc());
    copies.push((RecId::new(2), third)).expect(&rt, "memory");
    let old = LogRecord::CheckpointOfValues {
        generation: 1,
        life: 2,
        promise: view(2),
        copies,
        doubts: InDoubt::new(rt.alloc()),
        decisions: Decisions::new(rt.alloc()),
    };
    let durable = after(&rt, in_doubt(&rt, rt.alloc()), old);
    assert!(rt; durable.life() == 2 && counts(&rt, &durable) == (0, 0));
    assert!(rt; has(&durable, 0, b"10", 0) && has(&durable, 2, b"31", 1));
}
