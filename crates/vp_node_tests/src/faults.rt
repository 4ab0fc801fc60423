//! A node that serves one transaction and is stopped, where each call of its link, its disk and its sink fails in turn; and one whose log
//! becomes long, where some calls of its disk do.

use std::alloc::Global;
use std::process::Abort;
use vp_commands_tests::{
    BEGIN, COMMIT, Ended, Failing, NONE, REGROUP, STARTED, STARTED_TWICE, STOP, Setup, WRITE,
    long_half, said,
};
use vp_status::Status;

/// What it prints if no call fails.
const RECORDING: &str = "start 1\n\
in 560220000101\n\
out 560221010001010000000100000001000000000000000000\n\
in 56022000010401000000010000000100000001017800023131\n\
out 56022101000301000000010000000100000001\n\
in 56022000010501000000010000000100000002\n\
out 56022101000401000000010000000100000002\n\
in 5602240001\n\
end\n";

/// Calls of the link, the disk and the sink that fail, and how the run ends then: the status, how many lines of the recording are
/// printed, how many datagrams were handed over, and how long the log is: 15 bytes with the start of its life, 52 with the commit.
const FAULTS: [(u64, u64, u64, Status, usize, usize, usize); 17] = [
    // Call 1 of the link binds; then each turn receives, and each turn but the last sends. What isn't sent is lost. There is no call 9.
    (1, 0, 0, Status::LinkFault, 0, 0, 15),
    (2, 0, 0, Status::LinkFault, 1, 0, 15),
    (3, 0, 0, Status::Done, 9, 3, 52),
    (4, 0, 0, Status::LinkFault, 3, 1, 15),
    (5, 0, 0, Status::Done, 9, 3, 52),
    (6, 0, 0, Status::LinkFault, 5, 2, 15),
    (7, 0, 0, Status::Done, 9, 3, 52),
    (8, 0, 0, Status::LinkFault, 7, 3, 52),
    (9, 0, 0, Status::Done, 9, 3, 52),
    // Each of the first line, the lines of a turn and the last line is put by one call of the sink; the datagrams of a turn are sent
    // after its lines, and its records are kept before them.
    (0, 0, 1, Status::SinkFault, 0, 0, 15),
    (0, 0, 2, Status::SinkFault, 1, 0, 15),
    (0, 0, 3, Status::SinkFault, 3, 1, 15),
    (0, 0, 4, Status::SinkFault, 5, 2, 52),
    (0, 0, 5, Status::SinkFault, 7, 3, 52),
    (0, 0, 6, Status::SinkFault, 8, 3, 52),
    // The line of a fault that is not printed is a fault of the sink.
    (0, 1, 1, Status::SinkFault, 0, 0, 0),
    (2, 0, 2, Status::SinkFault, 1, 0, 15),
];

/// How its log begins once another life has started on it, if it has the commit: the closed gate after the batches ends it.
const COMMIT_BETWEEN: &[u8] = b"\x01\0\0\0\0\0\0\0\x05\x01\0\0\0\x01\
    \x01\0\0\0\0\0\0\0\x1c\x0a\x01\0\0\0\x01\0\0\0\x01\0\0\0\0\0\0\0\0\0\x01\0\x01\0\x02\x31\x31\0\0\
    \x01\0\0\0\0\0\0\0\x05\x01\0\0\0\x02\0";

fn run(rt: &impl Abort, alloc: Global, failing: Failing) -> Ended {
    let setup = Setup {
        failing,
        ..Setup::alone(b"")
    };
    let datagrams = said(alloc, &[BEGIN, WRITE, COMMIT, STOP]).expect(rt, "memory");
    setup.run(alloc, datagrams).expect(rt, "a run")
}

/// The text up to the end of so many lines.
fn first_lines(text: &[u8], count: usize) -> &[u8] {
    let mut left = count;
    for (at, byte) in text.iter().enumerate() {
        if left == 0 {
            return &text[..at];
        }
        if *byte == b'\n' {
            left -= 1;
        }
    }
    text
}

/// What is printed after the recording.
fn last_line(status: Status) -> &'static [u8] {
    match status {
        Status::LinkFault => b"link fault\n",
        Status::DiskFault => b"disk fault\n",
        _ => b"",
    }
}

/// Whether it ended with this status, printed so many lines of the recording and the line of the status, and handed over so many
/// datagrams.
fn ends(ended: &Ended, status: Status, lines: usize, sent: usize) -> bool {
    let recorded = first_lines(RECORDING.as_bytes(), lines);
    ended.status == status
        && ended.sink.bytes().strip_prefix(recorded) == Some(last_line(status))
        && ended.link.handed().len() == sent
}

#[test]
fn a_fault_of_the_link_is_told_unless_it_sends_and_one_of_the_sink_ends_the_recording(
    rt: HostRuntime,
) {
    for (link, disk, sink, status, lines, sent, kept) in FAULTS {
        let ended = run(&rt, rt.alloc(), Failing { link, disk, sink });
        assert!(rt;
            ends(&ended, status, lines, sent) && ended.disk.half(0).len() == kept,
            "at {link} {disk} {sink}"
        );
    }
}

/// Whether the log begins like this once another life has started on it.
fn goes_on(rt: &impl Abort, alloc: Global, ended: &Ended, log: &[u8]) -> bool {
    let next = Setup::alone(ended.disk.half(0))
        .run(alloc, Vec::new(alloc))
        .expect(rt, "a run");
    next.disk.half(0).starts_with(log)
}

/// How the log begins on which the next life starts, if the call of the disk with this number failed.
fn log_after(disk: u64) -> &'static [u8] {
    match disk {
        ..=9 => STARTED,
        ..=13 => STARTED_TWICE,
        _ => COMMIT_BETWEEN,
    }
}

/// Whether the call of the disk with this number ends it as it should.
fn disk_fault_is_told(rt: &impl Abort, alloc: Global, disk: u64) -> bool {
    let ended = run(rt, alloc, Failing { disk, ..NONE });
    let (lines, sent) = if disk <= 10 { (0, 0) } else { (5, 2) };
    ends(&ended, Status::DiskFault, lines, sent) && goes_on(rt, alloc, &ended, log_after(disk))
}

// Call 1 attaches; recovery syncs, asks for both lengths, writes and syncs; the start of the life writes, syncs, writes and syncs, and so
// does the commit. The last sync is after the write that makes a batch count.
#[test]
fn a_call_of_the_disk_that_fails_is_told(rt: HostRuntime) {
    for disk in 1..=14u64 {
        assert!(rt; disk_fault_is_told(&rt, rt.alloc(), disk), "at {disk}");
    }
}

/// Two sites.
const TWO: &[u8] = b"site 1 7001\nsite 2 7002\nrecord x 10 1:1 2:1\n";

/// What the next life prints when it regroups: it starts again in the life that failed to start, starts in the next one, or knows the
/// view that was promised.
const STARTED_AGAIN: &[u8] = b"start 16843010\nin 560220000102\n\
    out 5602010102000000000000000101\nout 560221010006000000000000000101\nlink fault\n";

const STARTED_NEXT: &[u8] = b"start 16843011\nin 560220000102\n\
    out 5602010102000000000000000101\nout 560221010006000000000000000101\nlink fault\n";

const PROMISED: &[u8] = b"start 16843011\nin 560220000102\n\
    out 5602010102000000000000000201\nout 560221010006000000000000000201\nlink fault\n";

/// A node on this log that regroups, whose call of the disk with this number fails.
fn regroup(rt: &impl Abort, alloc: Global, halves: [&[u8]; 2], disk: u64) -> Ended {
    let setup = Setup {
        catalogue: TWO,
        halves,
        failing: Failing { disk, ..NONE },
        ..Setup::alone(b"")
    };
    let datagrams = said(alloc, &[REGROUP]).expect(rt, "memory");
    setup.run(alloc, datagrams).expect(rt, "a run")
}

/// What is printed if the call of the disk with this number fails, and then by the next life.
fn printed(disk: u64) -> (&'static [u8], &'static [u8]) {
    match disk {
        ..=8 => (b"disk fault\n", STARTED_AGAIN),
        9 => (b"disk fault\n", STARTED_NEXT),
        ..=12 => (b"start 16843010\ndisk fault\n", STARTED_NEXT),
        _ => (b"start 16843010\ndisk fault\n", PROMISED),
    }
}

/// Whether the call of the disk with this number ends it before it hands over anything, and the next life goes on with what is kept.
fn long_log_goes_on(rt: &impl Abort, alloc: Global, half: &[u8], disk: u64) -> bool {
    let (last, next) = printed(disk);
    let ended = regroup(rt, alloc, [half, b""], disk);
    let halves = [ended.disk.half(0), ended.disk.half(1)];
    ended.is(Status::DiskFault, last)
        && ended.link.handed().is_empty()
        && regroup(rt, alloc, halves, 0).is(Status::LinkFault, next)
}

// Recovery reads the half by call 4; call 9 is the last sync of the start of the life, call 12 opens the gate of the promise; the
// checkpoint cuts the other half by call 14, and its last sync is call 21.
#[test]
fn a_call_of_the_disk_that_fails_on_a_long_log_is_told(rt: HostRuntime) {
    let half = long_half(rt.alloc()).expect(&rt, "memory");
    for disk in [4, 9, 12, 14, 21] {
        assert!(rt; long_log_goes_on(&rt, rt.alloc(), &half, disk), "at {disk}");
    }
}
