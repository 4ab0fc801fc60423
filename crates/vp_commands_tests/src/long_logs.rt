//! A node whose log becomes long.

use crate::{Ended, REGROUP, STOP, Setup, long_half, said};
use std::alloc::Global;
use std::process::Abort;
use vp_status::Status;

/// A checkpoint of the life 16,843,010, with the promise 1@1 and the copy of x.
const CHECKPOINT: &[u8] = b"\x01\0\0\0\0\0\0\0\x38\x0c\0\0\0\0\0\0\0\x01\x01\x01\x01\x02\
    \0\0\0\0\0\0\0\x01\x01\0\x01\0\x01\0\x02\x31\x30\0\0\0\0\0\0\0\0\0\0\0\0\0\0\0\0\0\0\0\0\0\0\0\0\0\0\0";

/// What is printed if the node regroups.
const REGROUPED: &[u8] =
    b"start 16843010\nin 560220000102\nout 560221010006000000000000000101\nin 5602240001\nend\n";

/// Whether the node of the next life starts on this log, and leaves the halves as long as they are.
fn goes_on(rt: &impl Abort, alloc: Global, ended: &Ended) -> bool {
    let next = Setup {
        halves: [ended.disk.half(0), ended.disk.half(1)],
        ..Setup::alone(b"")
    };
    let ended = next.run(alloc, Vec::new(alloc)).expect(rt, "a run");
    ended.is(Status::LinkFault, b"start 16843011\nlink fault\n")
        && ended.disk.half(0).len() == 65_542
        && ended.disk.half(1).len() == 80
}

#[test]
fn a_log_that_becomes_long_leaves_a_checkpoint(rt: HostRuntime) {
    let alloc = rt.alloc();
    let half = long_half(alloc).expect(&rt, "memory");
    let datagrams = said(alloc, &[REGROUP, STOP]).expect(&rt, "memory");
    let ended = Setup::alone(&half)
        .run(alloc, datagrams)
        .expect(&rt, "a run");
    assert!(rt; ended.is(Status::Done, REGROUPED));
    assert!(rt; ended.disk.half(0).len() == 65_542 && ended.disk.half(1) == CHECKPOINT);
    assert!(rt; goes_on(&rt, alloc, &ended));
}
