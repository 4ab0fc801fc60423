ghost use Rattle.std.specs.Prelude.{◌≤◌};

use std::alloc::Global;
use std::process::Abort;
use vp_base::Word;
use vp_disks::MemDisk;
use vp_outside::{Disk, Failed, OutFault};

fn word(rt: &impl Abort, alloc: Global, text: &[u8]) -> Word {
    Word::from_vec(text.to_vec(alloc).expect(rt, "memory"))
}

/// A disk with a log of that name, which is a closed gate and an empty half.
fn laid(rt: &impl Abort, alloc: Global, name: &Word) -> MemDisk {
    let half = b"0".to_vec(alloc).expect(rt, "memory");
    let mut disk = MemDisk::new(alloc, Vec::new(alloc));
    disk.lay(name, half, Vec::new(alloc)).expect(rt, "memory");
    disk
}

/// Appends a batch after the closed gate, and returns which of the four calls were done.
fn append(disk: &mut MemDisk, name: &Word) -> Result<[bool; 4], OutFault> {
    disk.attach(name)?;
    let written = disk.write_at(0, 1, b"batch0").is_ok();
    let batch_synced = disk.sync().is_ok();
    let opened = disk.write_at(0, 0, b"1").is_ok();
    let gate_synced = disk.sync().is_ok();
    Ok([written, batch_synced, opened, gate_synced])
}

/// Whether both halves are these.
fn has(disk: &MemDisk, first: &[u8], second: &[u8]) -> bool {
    disk.half(0) == first && disk.half(1) == second
}

/// What an append that stops after so many of its calls leaves, with and without what wasn't synced.
const APPENDS: [(u64, &[u8], &[u8]); 6] = [
    (0, b"0", b"0"),
    (1, b"0batch0", b"0"),
    (2, b"0batch0", b"0batch0"),
    (3, b"1batch0", b"0batch0"),
    (4, b"1batch0", b"1batch0"),
    (5, b"1batch0", b"1batch0"),
];

/// Whether an append stops after so many calls, and leaves this.
fn leaves(rt: &impl Abort, alloc: Global, calls: u64, late: bool, image: &[u8]) -> bool {
    let name = word(rt, alloc, b"one");
    let mut disk = laid(rt, alloc, &name);
    disk.stop_after(calls.saturating_add(1));
    let done = append(&mut disk, &name);
    let failed = 4_u64.saturating_sub(calls);
    let stopped = done == Ok([0, 1, 2, 3].map(|call| call < calls)) && disk.faults() == failed;
    disk.leave(late);
    stopped && has(&disk, image, b"")
}

#[test]
fn a_stop_within_an_append_leaves_what_was_done_or_what_was_synced(rt: HostRuntime) {
    for (calls, late, synced) in APPENDS {
        assert!(rt; leaves(&rt, rt.alloc(), calls, true, late), "{calls} late");
        assert!(rt; leaves(&rt, rt.alloc(), calls, false, synced), "{calls}");
    }
}

/// Whether each call of the log of that name fails but the first.
fn fails(disk: &mut MemDisk, name: &Word) -> Result<bool, OutFault> {
    disk.attach(name)?;
    let mut buf = [b'-'; 3];
    let told = (disk.length(0), disk.read(0, 0, &mut buf));
    let changed = (disk.write_at(0, 0, b"X"), disk.cut(0, 0), disk.sync());
    let failed = Err(OutFault::Failed);
    Ok(
        told == (Err(Failed), Err(Failed))
            && buf == *b"---"
            && changed == (failed, failed, failed)
            && disk.attach(name) == failed,
    )
}

#[test]
fn each_call_after_a_stop_fails_until_the_disk_is_left(rt: HostRuntime) {
    let name = word(&rt, rt.alloc(), b"one");
    let mut disk = laid(&rt, rt.alloc(), &name);
    disk.stop_after(1);
    assert!(rt; fails(&mut disk, &name) == Ok(true));
    assert!(rt; disk.faults() == 6 && disk.plan.calls == 7);
    disk.leave(true);
    assert!(rt; has(&disk, b"0", b""));
    assert!(rt; append(&mut disk, &name) == Ok([true; 4]));
    assert!(rt; has(&disk, b"1batch0", b"") && disk.faults() == 6);
}

#[test]
fn a_planned_call_that_fails_is_one_of_those_before_a_stop(rt: HostRuntime) {
    let name = word(&rt, rt.alloc(), b"one");
    let calls = Vec::from_slice(rt.alloc(), &[3]).expect(&rt, "memory");
    let mut disk = MemDisk::new(rt.alloc(), calls);
    disk.stop_after(4);
    assert!(rt; append(&mut disk, &name) == Ok([true, false, true, false]));
    assert!(rt; disk.faults() == 2);
    disk.leave(false);
    assert!(rt; has(&disk, b"", b""), "no sync was done");
}

/// Cuts half 0 of the log of that name, and writes half 1.
fn cut_and_write(disk: &mut MemDisk, name: &Word) -> Result<(), OutFault> {
    disk.attach(name)?;
    disk.cut(0, 1)?;
    disk.write_at(1, 0, b"half")
}

/// Whether the log of that name has these halves.
fn keeps(disk: &mut MemDisk, name: &Word, first: &[u8], second: &[u8]) -> Result<bool, OutFault> {
    disk.attach(name)?;
    Ok(has(disk, first, second))
}

/// Two logs: one that was appended to and then cut and written, and one that was only cut and written.
fn two_logs(rt: &impl Abort, alloc: Global, one: &Word, two: &Word) -> MemDisk {
    let half = b"other".to_vec(alloc).expect(rt, "memory");
    let mut disk = laid(rt, alloc, one);
    append(&mut disk, one).expect(rt, "no fault");
    disk.lay(two, half, Vec::new(alloc)).expect(rt, "memory");
    cut_and_write(&mut disk, one).expect(rt, "no fault");
    cut_and_write(&mut disk, two).expect(rt, "no fault");
    disk
}

#[test]
fn each_log_is_left_as_it_was_last_synced(rt: HostRuntime) {
    let one = word(&rt, rt.alloc(), b"one");
    let two = word(&rt, rt.alloc(), b"two");
    let mut disk = two_logs(&rt, rt.alloc(), &one, &two);
    disk.leave(false);
    assert!(rt;
        has(&disk, b"other", b""),
        "it is still the log that was chosen"
    );
    assert!(rt; keeps(&mut disk, &one, b"1batch0", b"") == Ok(true));
    assert!(rt; keeps(&mut disk, &two, b"other", b"") == Ok(true));
}

#[test]
fn a_sync_is_of_the_log_that_is_attached(rt: HostRuntime) {
    let one = word(&rt, rt.alloc(), b"one");
    let two = word(&rt, rt.alloc(), b"two");
    let mut disk = two_logs(&rt, rt.alloc(), &one, &two);
    assert!(rt; append(&mut disk, &two).is_ok());
    disk.leave(false);
    assert!(rt; keeps(&mut disk, &one, b"1batch0", b"") == Ok(true));
    assert!(rt; keeps(&mut disk, &two, b"1batch0", b"half") == Ok(true));
}

#[test]
fn each_log_is_left_as_it_is(rt: HostRuntime) {
    let one = word(&rt, rt.alloc(), b"one");
    let two = word(&rt, rt.alloc(), b"two");
    let mut disk = two_logs(&rt, rt.alloc(), &one, &two);
    disk.leave(true);
    assert!(rt; keeps(&mut disk, &two, b"o", b"half") == Ok(true));
    assert!(rt; keeps(&mut disk, &one, b"1", b"half") == Ok(true));
    disk.leave(false);
    assert!(rt;
        keeps(&mut disk, &two, b"o", b"half") == Ok(true),
        "nothing was done since"
    );
}
