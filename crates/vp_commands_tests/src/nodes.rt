//! A node's command: the logs on which it doesn't start, the turns after which it ends, and the datagrams that are no inputs.

use crate::{BEGIN, BEGUN, PORT, STARTED, STARTED_TWICE, Setup, datagram, said};
use std::alloc::{AllocError, Global};
use std::process::Abort;
use vp_outside::{Datagram, Dispatch};
use vp_status::Status;

/// The log's first half with Start of the last life.
const LAST_LIFE: &[u8] = b"\x01\0\0\0\0\0\0\0\x05\x01\xff\xff\xff\xff\0";

/// Whether the node doesn't start on a log with these bytes, which it leaves, but ends with this status and prints this text.
fn is_refused(rt: &impl Abort, alloc: Global, half: &[u8], status: Status, text: &[u8]) -> bool {
    let ended = Setup::alone(half)
        .run(alloc, Vec::new(alloc))
        .expect(rt, "a run");
    ended.is(status, text) && ended.disk.half(0) == half
}

#[test]
fn a_log_that_cannot_be_started_on_is_told(rt: HostRuntime) {
    let alloc = rt.alloc();
    assert!(rt; is_refused(&rt, alloc, b"\x01\0", Status::BadLog, b"bad log 0 at 0\n"));
    assert!(rt; is_refused(&rt, alloc, LAST_LIFE, Status::LivesSpent, b"lives spent\n"));
}

/// Logs, the turns of a node on them to which two calls to begin come, what it prints, and the log that it leaves.
const TURNS: [(&[u8], u64, &[u8], &[u8]); 3] = [
    (
        b"",
        1,
        b"start 1\nin 560220000101\nout 560221010001010000000100000001000000000000000000\nend\n",
        STARTED,
    ),
    (b"", 0, b"start 1\nend\n", STARTED),
    (STARTED, 0, b"start 2\nend\n", STARTED_TWICE),
];

/// Whether each of so many calls to begin, none or one, was answered at the port that it came from.
fn are_begun(handed: &[Dispatch], turns: u64) -> bool {
    match handed {
        [] => turns == 0,
        [it] => turns == 1 && it.datagram.port == 7100 && it.datagram.bytes.as_slice() == BEGUN,
        _ => false,
    }
}

#[test]
fn a_node_ends_after_its_turns(rt: HostRuntime) {
    let alloc = rt.alloc();
    for (half, turns, text, log) in TURNS {
        let setup = Setup {
            turns,
            ..Setup::alone(half)
        };
        let datagrams = said(alloc, &[BEGIN, BEGIN]).expect(&rt, "memory");
        let ended = setup.run(alloc, datagrams).expect(&rt, "a run");
        assert!(rt; ended.is(Status::Done, text) && are_begun(ended.link.handed(), turns));
        assert!(rt; ended.disk.half(0) == log && ended.disk.half(1).is_empty());
    }
}

#[test]
fn each_turn_hands_over_before_the_next_datagram_comes(rt: HostRuntime) {
    let alloc = rt.alloc();
    let datagrams = said(alloc, &[BEGIN, BEGIN]).expect(&rt, "memory");
    let ended = Setup::alone(b"").run(alloc, datagrams).expect(&rt, "a run");
    assert!(rt;
        matches!(ended.link.handed(), [first, last] if first.after == 1 && last.after == 2)
    );
}

/// Bytes that are no inputs, and the call to begin from the port of the site itself.
fn no_inputs(alloc: Global) -> Result<Vec<Datagram>, AllocError> {
    let mut datagrams = said(
        alloc,
        &[
            b"",
            b"\x56",
            b"\x56\x02\x20\0\x01\x01\0",
            b"\x56\x02\x20\x02\x01\x01",
            b"\x56\x02\x20\0\x02\x01",
            BEGUN,
        ],
    )?;
    datagrams.push(datagram(alloc, PORT, BEGIN)?)?;
    Ok(datagrams)
}

/// What is printed for them.
const RECORDED: &str = "start 1\nbad 0\nbad 1\nbad 6\nbad 3\nstray 560220000201\n\
    stray 560221010001010000000100000001000000000000000000\nstray 560220000101\nlink fault\n";

#[test]
fn what_is_no_input_is_recorded_and_changes_nothing(rt: HostRuntime) {
    let datagrams = no_inputs(rt.alloc()).expect(&rt, "memory");
    let ended = Setup::alone(b"")
        .run(rt.alloc(), datagrams)
        .expect(&rt, "a run");
    assert!(rt; ended.is(Status::LinkFault, RECORDED.as_bytes()));
    assert!(rt; ended.link.handed().is_empty() && ended.disk.half(0) == STARTED);
}

/// The vote of site 2 with one more byte, without its last one, and whole; and whole in the first version.
const VOTES: [&[u8]; 4] = [
    b"\x56\x02\x0b\x02\x01\x01\0\0\0\x01\0\0\0\x01\0",
    b"\x56\x02\x0b\x02\x01\x01\0\0\0\x01\0\0\0",
    b"\x56\x02\x0b\x02\x01\x01\0\0\0\x01\0\0\0\x01",
    b"\x56\x01\x0b\x02\x01\x01\0\0\0\x01\0\0\0\x01",
];

/// These votes, from the port of site 2.
fn votes(alloc: Global) -> Result<Vec<Datagram>, AllocError> {
    let mut datagrams = Vec::new(alloc);
    for vote in VOTES {
        datagrams.push(datagram(alloc, 7002, vote)?)?;
    }
    Ok(datagrams)
}

#[test]
fn a_vote_for_an_unknown_transaction_is_taken_if_it_is_whole(rt: HostRuntime) {
    let setup = Setup {
        catalogue: b"site 1 7001\nsite 2 7002\nrecord x 10 1:1 2:1\n",
        turns: 4,
        ..Setup::alone(b"")
    };
    let datagrams = votes(rt.alloc()).expect(&rt, "memory");
    let ended = setup.run(rt.alloc(), datagrams).expect(&rt, "a run");
    assert!(rt;
        ended.is(
            Status::Done,
            b"start 1\nbad 14\nbad 13\nin 56020b0201010000000100000001\nin 56010b0201010000000100000001\nend\n"
        )
    );
    assert!(rt; ended.link.handed().is_empty() && ended.disk.half(0) == STARTED);
}
