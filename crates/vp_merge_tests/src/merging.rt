//! Recordings that are put together, and such that are not.

use std::alloc::Global;
use vp_base::SiteId;
use vp_merge::{MergeFault, merge};
use vp_recording::parse;
use vp_schedule::print;

/// A catalogue of one site, and of two, with the line `recordings`.
const ONE: &[u8] = b"site 1 7001\nrecord x 10 1:1\nrecordings\n";

const TWO: &[u8] = b"site 1 7001\nsite 2 7002\nrecord x 10 1:1 2:1\nrecordings\n";

/// The text of the schedule that is put together of the recordings. What is no text of recordings is answered as want of memory.
fn merged(alloc: Global, head: &[u8], lines: &[u8]) -> Result<Vec<u8>, MergeFault> {
    let mut text = Vec::new(alloc);
    if text.extend_from_slice(head).is_err() || text.extend_from_slice(lines).is_err() {
        return Err(MergeFault::NoMemory);
    }
    let Ok(recorded) = parse(alloc, &text) else {
        return Err(MergeFault::NoMemory);
    };
    let schedule = merge(&recorded.catalog, &recorded.recordings)?;
    let mut out = Vec::new(alloc);
    print(&schedule, &mut out)?;
    Ok(out)
}

/// Whether they are put together to a schedule whose text ends so.
fn gives(alloc: Global, head: &[u8], lines: &[u8], end: &[u8]) -> bool {
    match merged(alloc, head, lines) {
        Ok(text) => text.ends_with(end),
        Err(_) => false,
    }
}

/// Whether they are not put together, for this reason.
fn is_refused(alloc: Global, head: &[u8], lines: &[u8], why: MergeFault) -> bool {
    match merged(alloc, head, lines) {
        Ok(_text) => false,
        Err(fault) => fault == why,
    }
}

#[test]
fn recordings_are_merged(rt: HostRuntime) {
    let begin =
        b"node 1\nstart 1\nin 560220000101\nout 560221010001010000000100000001000000000000000000\nend\n";
    assert!(rt; gives(rt.alloc(), ONE, begin, b"events\ncall 1 begin\n"));
    let cut_short = b"node 1\nstart 1\nin 560220000101\n";
    assert!(rt; gives(rt.alloc(), ONE, cut_short, b"events\ncall 1 begin\n"));
    let third_life = b"node 1\nstart 3\nin 560220000101\n";
    let restarts = b"events\ncrash 1\nrestart 1\ncrash 1\nrestart 1\ncall 1 begin\n";
    assert!(rt; gives(rt.alloc(), ONE, third_life, restarts));
}

#[test]
fn a_message_that_nobody_sent_is_unsent(rt: HostRuntime) {
    let vote = b"node 2\nstart 1\nin 56020b0102010000000100000001\nend\n";
    let why = MergeFault::Unsent {
        site: SiteId::of(2),
        turn: 1,
    };
    assert!(rt; is_refused(rt.alloc(), TWO, vote, why));
}

#[test]
fn a_turn_with_other_datagrams_differs(rt: HostRuntime) {
    let without_answer = b"node 1\nstart 1\nin 560220000101\nend\n";
    let why = MergeFault::Differs {
        site: SiteId::of(1),
        turn: 1,
    };
    assert!(rt; is_refused(rt.alloc(), ONE, without_answer, why));
}

/// The turns of these recordings take frames of version 1, and what they have given is in version 2.
#[test]
fn frames_of_both_versions_are_taken(rt: HostRuntime) {
    let call =
        b"node 1\nstart 1\nin 560120000101\nout 560221010001010000000100000001000000000000000000\nend\n";
    assert!(rt; gives(rt.alloc(), ONE, call, b"events\ncall 1 begin\n"));
    let probe =
        b"node 2\nstart 1\nin 5601110102000000000000000000\nend\nnode 1\nstart 1\nin 5601230001\nout 5602110102000000000000000000\nend\n";
    assert!(rt; gives(rt.alloc(), TWO, probe, b"events\nprobe 1\ndeliver 1\n"));
}

/// A datagram of version 1 is none that a step gives.
#[test]
fn an_answer_of_version_1_differs(rt: HostRuntime) {
    let answered =
        b"node 1\nstart 1\nin 560220000101\nout 560121010001010000000100000001000000000000000000\nend\n";
    let why = MergeFault::Differs {
        site: SiteId::of(1),
        turn: 1,
    };
    assert!(rt; is_refused(rt.alloc(), ONE, answered, why));
}
