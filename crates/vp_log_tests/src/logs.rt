//! The bytes of logs, and what a disk that fails leaves of them.

ghost use Rattle.vp_records.specs.Batches.{IsBatch};

use std::alloc::Global;
use std::process::Abort;
use vp_base::{Batch, Batches, Copies, LogRecord, RecId, Stored, Value, ViewId, Word};
use vp_disks::{MemDisk, SureDisk};
use vp_outside::Disk;
use vp_records::Durable;
use vp_stable::{AppendFault, Log, LogFault};

/// One batch, Start of life 1, after an open gate, and a closed gate.
const ONE: &[u8] = b"\x01\0\0\0\0\0\0\0\x05\x01\0\0\0\x01\0";

// Rows of cases: the count of a row's bytes, a number, and then the bytes of a half. One list of bytes is proved faster than a
// list of lists.

/// Logs, with the count of their batches.
const LOGS: &[u8] = b"\
    \0\0\
    \x01\0\x01\
    \x01\0\x07\
    \x03\0\0\x01\x01\
    \x10\x01\x01\0\0\0\0\0\0\0\x05\x01\0\0\0\x01\x02\xff\
    \x1d\x02\x01\0\0\0\0\0\0\0\x05\x01\0\0\0\x01\x01\0\0\0\0\0\0\0\x05\x01\0\0\0\x02\0";

/// Damaged logs, with the gate at fault.
const BAD_LOGS: &[u8] = b"\
    \x0e\0\x01\0\0\0\0\0\0\0\x05\x01\0\0\0\x01\
    \x0f\x0e\x01\0\0\0\0\0\0\0\x05\x01\0\0\0\x01\x01\
    \x02\0\x01\0\
    \x0b\0\x01\0\0\0\0\0\0\0\x01\x63\0\
    \x0a\0\x01\xff\xff\xff\xff\xff\xff\xff\xff\0";

/// What a crash in the first append may leave, with the count of its batches.
const LEFT: &[u8] = b"\
    \x01\0\0\
    \x04\0\0\xff\x01\x01\
    \x0f\0\0\0\0\0\0\0\0\0\x05\x01\0\0\0\x01\0\
    \x0f\0\x09\0\0\0\0\0\0\0\x05\x01\0\0\0\x01\0\
    \x0f\x01\x01\0\0\0\0\0\0\0\x05\x01\0\0\0\x01\0";

fn start(rt: &impl Abort, alloc: Global, life: u32) -> Batch
    ensures { IsBatch result }
{
    let mut batch = Batch::new(alloc);
    batch.push(LogRecord::Start { life }).expect(rt, "memory");
    batch
}

/// Whether the batch is one Start of this life.
fn is_start(batch: &Batch, life: usize) -> bool {
    match batch.as_slice() {
        [LogRecord::Start { life: it }] => *it as usize == life,
        _ => false,
    }
}

/// Whether there are so many batches, each of them one Start, of the lives 1, 2 and so on.
fn are_starts(batches: &Batches, count: u8) -> bool {
    let batches = batches.as_slice();
    batches.len() == usize::from(count)
        && batches
            .iter()
            .enumerate()
            .all(|(i, batch)| is_start(batch, i.saturating_add(1)))
}

fn holding(rt: &impl Abort, alloc: Global, bytes: &[u8]) -> SureDisk {
    let half = bytes.to_vec(alloc).expect(rt, "memory");
    SureDisk::holding(alloc, half, Vec::new(alloc)).expect(rt, "memory")
}

/// Whether recovery finds so many batches, and leaves the bytes as they are or makes a log of one closed gate.
fn is_log(rt: &impl Abort, alloc: Global, bytes: &[u8], count: u8) -> bool {
    let mut disk = holding(rt, alloc, bytes);
    let (_, batches) = Log::recover(alloc, &mut disk).expect(rt, "a log");
    let after: &[u8] = if bytes.len() < 2 { b"\0" } else { bytes };
    are_starts(&batches, count) && disk.half(0) == after && disk.half(1).is_empty()
}

/// Whether recovery refuses the bytes at this gate, and leaves them.
fn is_bad(rt: &impl Abort, alloc: Global, bytes: &[u8], at: u8) -> bool {
    let mut disk = holding(rt, alloc, bytes);
    let refused = Log::recover(alloc, &mut disk).err();
    let fault = LogFault::BadLog {
        half: 0,
        at: u64::from(at),
    };
    refused == Some(fault) && disk.half(0) == bytes
}

/// Whether the bytes have so many batches, and one more after another append.
fn takes_another(rt: &impl Abort, alloc: Global, bytes: &[u8], count: u8) -> bool {
    let mut disk = holding(rt, alloc, bytes);
    let (mut log, before) = Log::recover(alloc, &mut disk).expect(rt, "a log");
    log.append(&mut disk, &start(rt, alloc, 3))
        .expect(rt, "no fault");
    let (_, after) = Log::recover(alloc, &mut disk).expect(rt, "a log");
    are_starts(&before, count) && after.as_slice().len() == usize::from(count) + 1
}

/// What the rows of a table are about.
#[derive(Clone, Copy, Drop)]
enum Table {
    Logs,
    BadLogs,
    Left,
}

fn is_met(rt: &impl Abort, alloc: Global, table: Table, bytes: &[u8], number: u8) -> bool {
    match table {
        Table::Logs => is_log(rt, alloc, bytes, number),
        Table::BadLogs => is_bad(rt, alloc, bytes, number),
        Table::Left => takes_another(rt, alloc, bytes, number),
    }
}

/// How many rows hold, up to the first that doesn't.
fn rows_met(rt: &impl Abort, alloc: Global, table: Table, rows: &[u8]) -> usize {
    let mut rest = rows;
    for row in 0..rows.len() {
        let [count, number, following @ ..] = rest else {
            return row;
        };
        let (bytes, others) = following.split_at(usize::from(*count).min(following.len()));
        if !is_met(rt, alloc, table, bytes, *number) {
            return row;
        }
        rest = others;
    }
    rows.len()
}

#[test]
fn a_half_stands_for_its_batches(rt: HostRuntime) {
    assert_eq!(rt; rows_met(&rt, rt.alloc(), Table::Logs, LOGS), 6);
}

#[test]
fn a_half_that_is_no_log_is_refused_at_the_gate(rt: HostRuntime) {
    assert_eq!(rt; rows_met(&rt, rt.alloc(), Table::BadLogs, BAD_LOGS), 5);
}

#[test]
fn a_stop_in_an_append_leaves_the_batch_or_nothing_of_it(rt: HostRuntime) {
    assert_eq!(rt; rows_met(&rt, rt.alloc(), Table::Left, LEFT), 5);
}

/// The bytes of `ONE` after a gate that isn't open.
const CLOSED: &[u8] = b"\0\0\0\0\0\0\0\0\x05\x01\0\0\0\x01\0";

/// Whether an append to an empty log that stops after so many of its calls leaves this half, in which there are so many batches.
/// Attaching it and its recovery take 6 calls.
fn leaves(
    rt: &impl Abort,
    alloc: Global,
    (calls, late): (u64, bool),
    half: &[u8],
    count: usize,
) -> bool {
    let name = Word::new(alloc);
    let mut disk = MemDisk::new(alloc, Vec::new(alloc));
    disk.stop_after(calls.saturating_add(6));
    disk.attach(&name).expect(rt, "no fault");
    let (mut log, _) = Log::recover(alloc, &mut disk).expect(rt, "a log");
    let ends = log.append(&mut disk, &start(rt, alloc, 1)).is_ok();
    disk.leave(late);
    let is_left = disk.half(0) == half && disk.half(1).is_empty();
    disk.attach(&name).expect(rt, "no fault");
    let (_, batches) = Log::recover(alloc, &mut disk).expect(rt, "a log");
    ends == (calls == 4) && is_left && batches.as_slice().len() == count
}

// The first call writes the batch, the second one syncs, the third one opens the gate, and the last one syncs.
#[test]
fn a_stop_in_an_append_leaves_the_gate_closed_or_open(rt: HostRuntime) {
    for (stop, half, count) in [
        ((0, true), b"\0".as_slice(), 0),
        ((1, false), b"\0".as_slice(), 0),
        ((1, true), CLOSED, 0),
        ((2, false), CLOSED, 0),
        ((3, false), CLOSED, 0),
        ((3, true), ONE, 1),
        ((4, false), ONE, 1),
    ] {
        assert!(rt;
            leaves(&rt, rt.alloc(), stop, half, count),
            "{} {}",
            stop.0,
            stop.1
        );
    }
}

/// The half after a batch was appended to an empty log.
fn half_of(rt: &impl Abort, alloc: Global, batch: &Batch) -> Vec<u8>
    requires { IsBatch batch.now }
{
    let mut disk = SureDisk::new(alloc);
    let (mut log, _) = Log::recover(alloc, &mut disk).expect(rt, "a log");
    log.append(&mut disk, batch).expect(rt, "no fault");
    disk.half(0).to_vec(alloc).expect(rt, "memory")
}

#[test]
fn a_batch_stands_after_a_gate(rt: HostRuntime) {
    let half = half_of(&rt, rt.alloc(), &start(&rt, rt.alloc(), 1));
    assert_eq!(rt; half.as_slice(), ONE);
}

/// The length of half 0 after two batches were appended to the log, the second of them empty.
fn length_with_two(rt: &impl Abort, alloc: Global, first: &Batch) -> usize
    requires { IsBatch first.now }
{
    let mut disk = SureDisk::new(alloc);
    let (mut log, _) = Log::recover(alloc, &mut disk).expect(rt, "a log");
    log.append(&mut disk, first).expect(rt, "no fault");
    log.append(&mut disk, &Batch::new(alloc))
        .expect(rt, "no fault");
    disk.half(0).len()
}

#[test]
fn batches_are_appended_after_each_other(rt: HostRuntime) {
    assert_eq!(rt;
        length_with_two(&rt, rt.alloc(), &start(&rt, rt.alloc(), 1)),
        24
    );
}

/// An empty log on a disk whose call with this number fails. Call 1 attaches it.
fn failing(rt: &impl Abort, alloc: Global, call: u64) -> MemDisk {
    let calls = vec![in alloc; call].expect(rt, "memory");
    MemDisk::new(alloc, calls)
}

/// How many of recovery and an append are done on a disk whose call with this number fails, or 9 where the result is no fault of the
/// disk or the batch is there twice.
fn done(rt: &impl Abort, alloc: Global, call: u64) -> u8 {
    let mut disk = failing(rt, alloc, call);
    disk.attach(&Word::new(alloc)).expect(rt, "no fault");
    let (mut log, _) = match Log::recover(alloc, &mut disk) {
        Ok(recovered) => recovered,
        Err(fault) => return if fault == LogFault::DiskFault { 0 } else { 9 },
    };
    let appended = log.append(&mut disk, &start(rt, alloc, 1));
    let (_, batches) = Log::recover(alloc, &mut disk).expect(rt, "a log");
    match (appended, batches.as_slice().len()) {
        (Ok(()), 1) => 2,
        (Err(AppendFault::DiskFault), 0 | 1) => 1,
        _ => 9,
    }
}

// Call 1 attaches; recovery syncs, asks for both lengths, writes and syncs; the append writes, syncs, writes and syncs.
#[test]
fn each_call_that_fails_is_answered(rt: HostRuntime) {
    for call in 2..=6 {
        assert!(rt; done(&rt, rt.alloc(), call) == 0, "{call}");
    }
    for call in 7..=10 {
        assert!(rt; done(&rt, rt.alloc(), call) == 1, "{call}");
    }
    assert!(rt; done(&rt, rt.alloc(), 100) == 2);
}

/// A batch with a copy of the first version, of record 0 with the value 11, and one with a copy of the second, of record 1 without a value
/// and with a table.
const OF_BOTH_VERSIONS: &[u8] = b"\x01\0\0\0\0\0\0\0\x0e\x06\0\x02\x31\x31\0\0\0\0\0\0\0\x01\x01\
    \x01\0\0\0\0\0\0\0\x11\x0b\x01\0\x01\x01\x01\0\x07\0\0\0\0\0\0\0\x01\x02\0";

/// Copies of the records 0 and 1 with this value, of the opening view.
fn two_copies(rt: &impl Abort, alloc: Global, value: &[u8]) -> Durable {
    let mut copies = Copies::new(alloc);
    for rec in 0..2u8 {
        let stored = Stored {
            value: Some(Value::read(alloc, value).expect(rt, "a value")),
            table: None,
            date: ViewId { number: 0, site: 0 },
        };
        copies.push((RecId::new(rec), stored)).expect(rt, "memory");
    }
    Durable::empty(copies)
}

/// What the records of a log make of them.
fn folded(rt: &impl Abort, alloc: Global, bytes: &[u8]) -> Durable {
    let mut disk = holding(rt, alloc, bytes);
    let (_, batches) = Log::recover(alloc, &mut disk).expect(rt, "a log");
    let mut durable = two_copies(rt, alloc, b"10");
    for batch in batches.as_slice() {
        for entry in batch.as_slice() {
            durable.apply(entry).expect(rt, "memory");
        }
    }
    durable
}

/// Whether the copy of the record has this value, or none, is of the view 1 of this site, and has a table or not.
fn is_copy(durable: &Durable, rec: u8, value: Option<&[u8]>, site: u8, weighed: bool) -> bool {
    let Some(stored) = durable.stored(RecId::new(rec)) else {
        return false;
    };
    let is_content = match (&stored.value, value) {
        (Some(stored), Some(value)) => stored.is(value),
        (stored, value) => stored.is_none() && value.is_none(),
    };
    is_content && stored.date == ViewId { number: 1, site } && stored.table.is_some() == weighed
}

#[test]
fn a_log_of_both_versions_folds_through_both(rt: HostRuntime) {
    let durable = folded(&rt, rt.alloc(), OF_BOTH_VERSIONS);
    assert!(rt; is_copy(&durable, 0, Some(b"11"), 1, false));
    assert!(rt; is_copy(&durable, 1, None, 2, true));
}
