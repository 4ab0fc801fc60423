//! Logs over both halves, and what checkpoints make of them.

ghost use Rattle.std.specs.Prelude.{IsTrue};
ghost use Rattle.vp_records.specs.Records.{CanBeSaved};

use std::alloc::Global;
use std::process::Abort;
use vp_base::{Batches, Copies, Decisions, InDoubt, LogRecord, RecId, Stored, Value, ViewId, Word};
use vp_disks::{MemDisk, SureDisk};
use vp_outside::Disk;
use vp_records::Durable;
use vp_stable::{AppendFault, Log, LogFault};

/// One batch, Start of life 1, after an open gate, and a closed gate.
const START: &[u8] = b"\x01\0\0\0\0\0\0\0\x05\x01\0\0\0\x01\0";

/// One batch, a Checkpoint of generation 1 and life 1 without copies, and a closed gate.
const CHECKPOINT: &[u8] = b"\x01\0\0\0\0\0\0\0\x28\x0c\0\0\0\0\0\0\0\x01\0\0\0\x01\
    \0\0\0\0\0\0\0\0\0\0\0\0\0\0\0\0\0\0\0\0\0\0\0\0\0\0\0\0";

/// The same with one copy, that of record 0 with the value 10.
const WITH_A_COPY: &[u8] = b"\x01\0\0\0\0\0\0\0\x38\x0c\0\0\0\0\0\0\0\x01\0\0\0\x01\
    \0\0\0\0\0\0\0\0\0\0\x01\0\x01\0\x02\x31\x30\0\0\0\0\0\0\0\0\0\0\0\0\0\0\0\0\0\0\0\0\0\0\0\0\0\0\0";

/// Where the code of the first one, its generation, its life and the gate after it are.
const CODE: usize = 9;

const GENERATION: usize = 17;

const LIFE: usize = 21;

const GATE: usize = 49;

/// A checkpoint of this generation and life.
fn checkpoint(rt: &impl Abort, alloc: Global, generation: u8, life: u8) -> Vec<u8> {
    let other = changed_to(rt, alloc, GENERATION, generation);
    changed(rt, alloc, &other, LIFE, life)
}

/// The checkpoint with another byte at this index.
fn changed_to(rt: &impl Abort, alloc: Global, at: usize, byte: u8) -> Vec<u8> {
    changed(rt, alloc, CHECKPOINT, at, byte)
}

/// The bytes with another one at this index.
fn changed(rt: &impl Abort, alloc: Global, bytes: &[u8], at: usize, byte: u8) -> Vec<u8> {
    let mut half = bytes.to_vec(alloc).expect(rt, "memory");
    if let Some(old) = half.get_mut(at) {
        *old = byte;
    }
    half
}

fn holding(rt: &impl Abort, alloc: Global, first: &[u8], second: &[u8]) -> SureDisk {
    let first = first.to_vec(alloc).expect(rt, "memory");
    let second = second.to_vec(alloc).expect(rt, "memory");
    SureDisk::holding(alloc, first, second).expect(rt, "memory")
}

/// The generation and the life of the only record; none where there are more, or it has none.
fn only_record(batches: &Batches) -> Option<(u64, u32)> {
    let [batch] = batches.as_slice() else {
        return None;
    };
    match batch.as_slice() {
        [LogRecord::Start { life }] => Some((0, *life)),
        [
            LogRecord::Checkpoint {
                generation,
                life,
                ..
            },
        ] => Some((*generation, *life)),
        [
            LogRecord::CheckpointOfValues {
                generation,
                life,
                ..
            },
        ] => Some((*generation, *life)),
        _ => None,
    }
}

/// What recovery finds in these halves: the generation and the life of the only record. It leaves the halves as they are.
fn recovered(rt: &impl Abort, alloc: Global, first: &[u8], second: &[u8]) -> Option<(u64, u32)> {
    let mut disk = holding(rt, alloc, first, second);
    let (_, batches) = Log::recover(alloc, &mut disk).expect(rt, "a log");
    if disk.half(0) == first && disk.half(1) == second {
        only_record(&batches)
    } else {
        None
    }
}

/// Whether `peek` reads so many batches of these halves, with this only record if there is one, and leaves the halves as they are.
fn peeks(
    rt: &impl Abort,
    alloc: Global,
    (first, second): (&[u8], &[u8]),
    count: usize,
    only: Option<(u64, u32)>,
) -> bool {
    let mut disk = holding(rt, alloc, first, second);
    let batches = Log::peek(alloc, &mut disk).expect(rt, "a log");
    batches.as_slice().len() == count
        && only_record(&batches) == only
        && disk.half(0) == first
        && disk.half(1) == second
}

#[test]
fn a_log_is_read_without_a_recovery(rt: HostRuntime) {
    let alloc = rt.alloc();
    let one = checkpoint(&rt, alloc, 1, 1);
    assert!(rt; peeks(&rt, alloc, (b"", b""), 0, None));
    assert!(rt; peeks(&rt, alloc, (b"\0", &CHECKPOINT[..GATE]), 0, None));
    assert!(rt; peeks(&rt, alloc, (START, b""), 1, Some((0, 1))));
    assert!(rt; peeks(&rt, alloc, (START, &one), 1, Some((1, 1))));
    let open = changed_to(&rt, alloc, GATE, 1);
    let mut disk = holding(&rt, alloc, START, &open);
    assert!(rt; Log::peek(alloc, &mut disk).err() == Some(LogFault::BadLog { half: 1, at: 49 }));
}

#[test]
fn the_half_of_the_higher_generation_is_current(rt: HostRuntime) {
    let one = checkpoint(&rt, rt.alloc(), 1, 1);
    let two = checkpoint(&rt, rt.alloc(), 2, 7);
    for (first, second, current) in [
        (START, one.as_slice(), (1, 1)),
        (&two, &one, (2, 7)),
        (&one, &two, (2, 7)),
        (&two, START, (2, 7)),
    ] {
        assert_eq!(rt; recovered(&rt, rt.alloc(), first, second), Some(current));
    }
}

#[test]
fn a_checkpoint_of_the_first_version_has_its_generation(rt: HostRuntime) {
    let two = checkpoint(&rt, rt.alloc(), 2, 7);
    let three = checkpoint(&rt, rt.alloc(), 3, 8);
    let old_two = changed(&rt, rt.alloc(), &two, CODE, 8);
    let old_three = changed(&rt, rt.alloc(), &three, CODE, 8);
    assert!(rt; recovered(&rt, rt.alloc(), START, &old_two) == Some((2, 7)));
    assert!(rt; recovered(&rt, rt.alloc(), &two, &old_three) == Some((3, 8)));
    assert!(rt; recovered(&rt, rt.alloc(), &old_two, &three) == Some((3, 8)));
}

#[test]
fn half_0_is_current_where_both_have_one_generation(rt: HostRuntime) {
    let eight = checkpoint(&rt, rt.alloc(), 3, 8);
    let nine = checkpoint(&rt, rt.alloc(), 3, 9);
    assert!(rt; recovered(&rt, rt.alloc(), &eight, &nine) == Some((3, 8)));
    assert!(rt; recovered(&rt, rt.alloc(), START, START) == Some((0, 1)));
}

/// Whether this half 1 does not count beside the log in half 0.
fn is_passed_over(rt: &impl Abort, alloc: Global, second: &[u8]) -> bool {
    recovered(rt, alloc, START, second) == Some((0, 1))
}

// A stop leaves half 1 without bytes, with a closed gate, or with a batch after it; or its batch is cut short or no list of records.
#[test]
fn a_checkpoint_that_is_not_whole_does_not_count(rt: HostRuntime) {
    let alloc = rt.alloc();
    assert!(rt; is_passed_over(&rt, alloc, b""));
    assert!(rt; is_passed_over(&rt, alloc, b"\0"));
    assert!(rt; is_passed_over(&rt, alloc, &changed_to(&rt, alloc, 0, 0)));
    assert!(rt; is_passed_over(&rt, alloc, &CHECKPOINT[..GATE]));
    assert!(rt; is_passed_over(&rt, alloc, &changed_to(&rt, alloc, CODE, 0x63)));
}

/// The index at which recovery refuses half 1.
fn refused(rt: &impl Abort, alloc: Global, first: &[u8], second: &[u8]) -> Option<u64> {
    let mut disk = holding(rt, alloc, first, second);
    match Log::recover(alloc, &mut disk) {
        Err(LogFault::BadLog { half: 1, at }) => Some(at),
        _ => None,
    }
}

#[test]
fn the_current_half_alone_is_refused(rt: HostRuntime) {
    let open = changed_to(&rt, rt.alloc(), GATE, 1);
    let two = checkpoint(&rt, rt.alloc(), 2, 7);
    assert!(rt; refused(&rt, rt.alloc(), START, &open) == Some(49));
    assert!(rt; recovered(&rt, rt.alloc(), &open, &two) == Some((2, 7)));
}

/// The durable part after Start of life 1, without copies.
fn started(alloc: Global) -> Durable
    ensures { CanBeSaved result }
{
    let promise = ViewId { number: 0, site: 0 };
    Durable::new(
        promise,
        1,
        Copies::new(alloc),
        InDoubt::new(alloc),
        Decisions::new(alloc),
    )
}

/// The same with one copy, that of record 0 with the value 10.
fn with_a_copy(rt: &impl Abort, alloc: Global) -> Durable
    ensures { CanBeSaved result }
{
    let opening = ViewId { number: 0, site: 0 };
    let stored = Stored {
        value: Some(Value::read(alloc, b"10").expect(rt, "a value")),
        table: None,
        date: opening,
    };
    let mut copies = Copies::new(alloc);
    copies.push((RecId::new(0), stored)).expect(rt, "memory");
    Durable::new(
        opening,
        1,
        copies,
        InDoubt::new(alloc),
        Decisions::new(alloc),
    )
}

/// Recovers a log, and returns the result of a checkpoint of this durable part.
fn checkpointed<D: Disk>(
    rt: &impl Abort,
    alloc: Global,
    disk: &mut D,
    durable: &Durable,
) -> Result<(), AppendFault>
    requires attached { IsTrue (D.state disk.old).attached }
    requires durable { CanBeSaved durable.now }
    ensures attached { IsTrue (D.state disk.new).attached }
{
    let (mut log, _) = Log::recover(alloc, disk).expect(rt, "a log");
    log.checkpoint(disk, durable)
}

#[test]
fn a_checkpoint_starts_the_other_half(rt: HostRuntime) {
    let mut disk = holding(&rt, rt.alloc(), START, b"what was there");
    assert!(rt; checkpointed(&rt, rt.alloc(), &mut disk, &started(rt.alloc())).is_ok());
    assert!(rt; disk.half(0) == START && disk.half(1) == CHECKPOINT);
    let (_, batches) = Log::recover(rt.alloc(), &mut disk).expect(&rt, "a log");
    assert!(rt; only_record(&batches) == Some((1, 1)));
}

/// A disk with the log that has one Start, of which these calls fail.
fn laid(rt: &impl Abort, alloc: Global, calls: Vec<u64>) -> MemDisk {
    let half = START.to_vec(alloc).expect(rt, "memory");
    let mut disk = MemDisk::new(alloc, calls);
    disk.lay(&Word::new(alloc), half, Vec::new(alloc))
        .expect(rt, "memory");
    disk
}

/// The generation that is left if a checkpoint with a copy stops after so many of its calls, or is done; none where half 1 doesn't have
/// these bytes. To attach and recover the log takes 5 calls.
fn left_by_stop(
    rt: &impl Abort,
    alloc: Global,
    (calls, late): (u64, bool),
    second: &[u8],
) -> Option<u64> {
    let mut disk = laid(rt, alloc, Vec::new(alloc));
    disk.stop_after(calls.saturating_add(5));
    disk.attach(&Word::new(alloc)).expect(rt, "no fault");
    let is_done = checkpointed(rt, alloc, &mut disk, &with_a_copy(rt, alloc)).is_ok();
    disk.leave(late);
    if disk.half(0) != START || disk.half(1) != second || is_done != (calls == 8) {
        return None;
    }
    disk.attach(&Word::new(alloc)).expect(rt, "no fault");
    let (_, batches) = Log::recover(alloc, &mut disk).expect(rt, "a log");
    only_record(&batches).map(|it| it.0)
}

#[test]
fn a_checkpoint_has_the_copies_and_counts_once_its_gate_is_open(rt: HostRuntime) {
    let alloc = rt.alloc();
    let closed = changed(&rt, alloc, WITH_A_COPY, 0, 0);
    assert!(rt; left_by_stop(&rt, alloc, (6, false), &closed) == Some(0));
    assert!(rt; left_by_stop(&rt, alloc, (6, true), &closed) == Some(0));
    assert!(rt; left_by_stop(&rt, alloc, (8, false), WITH_A_COPY) == Some(1));
}

/// The generation that is left after a checkpoint on a disk whose call with this number fails; none where the result is no fault of the
/// disk.
fn left_after(rt: &impl Abort, alloc: Global, call: u64) -> Option<u64> {
    let calls = vec![in alloc; call].expect(rt, "memory");
    let mut disk = laid(rt, alloc, calls);
    disk.attach(&Word::new(alloc)).expect(rt, "no fault");
    let answer = checkpointed(rt, alloc, &mut disk, &started(alloc));
    let (_, batches) = Log::recover(alloc, &mut disk).expect(rt, "a log");
    match (answer, only_record(&batches)) {
        (Err(AppendFault::DiskFault), Some((generation, 1))) => Some(generation),
        _ => None,
    }
}

// Call 1 attaches; recovery syncs, asks for a length, reads and asks for the other; the checkpoint cuts, syncs, writes and syncs, and
// its append writes, syncs, writes and syncs.
#[test]
fn a_checkpoint_that_fails_leaves_the_log_or_is_there(rt: HostRuntime) {
    for call in 6..=11 {
        assert!(rt; left_after(&rt, rt.alloc(), call) == Some(0), "{call}");
    }
    for call in 12..=13 {
        assert!(rt; left_after(&rt, rt.alloc(), call).is_some(), "{call}");
    }
    assert!(rt; left_after(&rt, rt.alloc(), 100).is_none());
}

/// Whether a checkpoint is due of a log whose batches have so many records of 5 bytes.
fn is_due(rt: &impl Abort, alloc: Global, counts: &[u16]) -> bool {
    let mut half = Vec::new(alloc);
    for count in counts {
        let length = usize::from(*count) * 5;
        let batch = vec![in alloc; 1; length].expect(rt, "memory");
        half.push(1).expect(rt, "memory");
        half.extend_from_slice(&(length as u64).to_be_bytes())
            .expect(rt, "memory");
        half.extend_from_slice(&batch).expect(rt, "memory");
    }
    half.push(0).expect(rt, "memory");
    let mut disk = holding(rt, alloc, &half, b"");
    let (log, _) = Log::recover(alloc, &mut disk).expect(rt, "a log");
    log.due()
}

// Half 0 has 65,536 bytes, 65,537, twice the 65,509 of its first batch, and one more.
#[test]
fn a_checkpoint_is_due_of_a_long_half(rt: HostRuntime) {
    assert!(rt; !is_due(&rt, rt.alloc(), &[]));
    assert!(rt; !is_due(&rt, rt.alloc(), &[0, 0, 0, 0, 13_098]));
    assert!(rt; is_due(&rt, rt.alloc(), &[0, 0, 0, 13_100]));
    assert!(rt; !is_due(&rt, rt.alloc(), &[13_100, 0, 13_098]));
    assert!(rt; is_due(&rt, rt.alloc(), &[13_100, 13_100]));
}
