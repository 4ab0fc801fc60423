//! Calls and schedules that are read, printed and refused.

use std::alloc::Global;
use std::process::Abort;
use vp_base::{Call, NameFault};
use vp_schedule::{ScheduleFault, print, read, read_call};
use vp_trace::print_call;

/// The byte of the fault, where there is one. These tests never run out of memory.
fn place_of(read: Result<Call, NameFault>) -> Option<usize> {
    match read {
        Ok(_call) => None,
        Err(NameFault::BadName { at }) => Some(at),
        Err(NameFault::NoMemory) => Some(usize::MAX),
    }
}

fn printed(rt: &impl Abort, alloc: Global, text: &[u8]) -> Vec<u8> {
    let call = read_call(alloc, text).expect(rt, "a call");
    let mut out = Vec::new(alloc);
    print_call(&call, &mut out).expect(rt, "memory");
    out
}

#[test]
fn calls_are_printed_as_they_were_read(rt: HostRuntime) {
    let cases: [&[u8]; 8] = [
        b"begin",
        b"regroup",
        b"1.1.1 1 read balance_7",
        b"16.4294967295.2 4294967295 write x ~A!",
        b"2.1.3 7 commit",
        b"2.1.3 7 abort",
        b"2.1.3 7 weigh x 16:65535",
        b"2.1.3 7 weigh x 1:3 2:1 15:7",
    ];
    for text in cases {
        assert_eq!(rt; printed(&rt, rt.alloc(), text).as_slice(), text);
    }
}

#[test]
fn calls_are_refused_at_their_places(rt: HostRuntime) {
    let cases: [(&[u8], usize); 17] = [
        (b"", 0),
        (b"1.1.1 1 rea", 11),
        (b"1.1.1 1 read", 12),
        (b"1.1.1 1 read x ", 14),
        (b"1.1.1 1 write x", 15),
        (b"1.1.1 0 commit", 6),
        (b"1.1.1 4294967296 commit", 15),
        (b"17.1.1 1 abort", 1),
        (b"beginn", 5),
        (b"regrop", 5),
        (b"Begin", 0),
        (b"1.1.1  1 abort", 6),
        (b"1.1.1 1 weigh x", 15),
        (b"1.1.1 1 weigh x 1:3 ", 20),
        (b"1.1.1 1 weigh x 16:1 ", 20),
        (b"1.1.1 1 weigh x 0:1", 16),
        (b"1.1.1 1 weigh x 2:65536", 22),
    ];
    for (text, at) in cases {
        assert_eq!(rt; place_of(read_call(rt.alloc(), text)), Some(at));
    }
}

/// How many events the schedule has, or why there is none.
fn count(alloc: Global, text: &[u8]) -> Result<usize, ScheduleFault> {
    let schedule = read(alloc, text)?;
    Ok(schedule.events.as_slice().len())
}

#[test]
fn schedules_are_read_to_the_end(rt: HostRuntime) {
    let cases: [(&[u8], usize); 5] = [
        (b"site 1 7001\nevents\n", 0),
        (b"site 1 7001\nrecord x 10 1:1\nevents\n", 0),
        (b"site 16 65535\nevents\ntick 16\n", 1),
        (
            b"site 1 1\nsite 12 2\nevents\ncut 1 12\ncut 12 1\nheal 1 12\n",
            3,
        ),
        (
            b"site 2 7002\nsite 3 7003\nrecord x 10 2:1 3:1\nevents\ncall 2 begin\ncall 3 1.1.1 1 read y\nflow 100000\ndeliver 2000000\nprobe 2\ncrash 3\nrestart 3\n",
            7,
        ),
    ];
    for (text, events) in cases {
        assert_eq!(rt; count(rt.alloc(), text), Ok(events));
    }
}

fn again(rt: &impl Abort, alloc: Global, text: &[u8]) -> Vec<u8> {
    let schedule = read(alloc, text).expect(rt, "a schedule");
    let mut out = Vec::new(alloc);
    print(&schedule, &mut out).expect(rt, "memory");
    out
}

#[test]
fn schedules_are_printed_as_they_were_read(rt: HostRuntime) {
    let cases: [&[u8]; 3] = [
        b"site 1 7001\nevents\n",
        b"site 1 7001\nsite 16 7016\nrecord x 10 1:1 16:65535\nrecord y ~ 16:2\nevents\ncall 16 regroup\n",
        b"site 1 1\nsite 2 2\nevents\ncall 1 1.1.1 1 write x ~A!\ncall 2 1.1.1 2 weigh x 1:2 3:4\ndeliver 7\nflow 9\ntick 1\nprobe 2\ncut 1 2\nheal 2 1\ncrash 1\nrestart 1\n",
    ];
    for text in cases {
        assert_eq!(rt; again(&rt, rt.alloc(), text).as_slice(), text);
    }
}

#[test]
fn bad_lines_are_refused_at_their_places(rt: HostRuntime) {
    let cases: [(&[u8], usize, usize); 13] = [
        (b"", 1, 1),
        (b"events\n", 1, 1),
        (b"site 1 7001\nrecord x 10 1:1\n", 3, 1),
        (b"site 1 7001\nevents", 2, 7),
        (b"site 1 7001\nsite 1 7002\nevents\n", 2, 7),
        (b"site 1 7001\nrecord x 10 1:1\nsite 2 7002\nevents\n", 3, 1),
        (b"site 1 7001\nevents\nrecord x 10 1:1\n", 3, 3),
        (b"site 1 7001\nevents\nevents\n", 3, 1),
        (b"site 1 7001\nevents\ntick 1", 3, 7),
        (b"site 1 7001\nevents\ntick 1 \n", 3, 7),
        (b"site 1 7001\nevents\n\n", 3, 1),
        (b"site 1 7001\nevents\ndeliver 2000001\n", 3, 15),
        (b"site 1 7001\nevents\nflow 0\n", 3, 6),
    ];
    for (text, line, at) in cases {
        assert_eq!(rt;
            count(rt.alloc(), text),
            Err(ScheduleFault::BadLine { line, at })
        );
    }
}

fn joined(rt: &impl Abort, alloc: Global, head: &[u8], line: &[u8]) -> Vec<u8> {
    let mut text = Vec::from_slice(alloc, head).expect(rt, "memory");
    text.extend_from_slice(line).expect(rt, "memory");
    text
}

#[test]
fn worked_lines_after_three_sites_are_refused(rt: HostRuntime) {
    let head = b"site 1 7001\nsite 2 7002\nsite 3 7003\nrecord x 10 1:1 2:1 3:1\nevents\n";
    let cases: [(&[u8], usize); 6] = [
        (b"call 9 begin\n", 6),
        (b"call 1 1.1.1 1 read aaaaaaaaaaaaaaaaa\n", 37),
        (b"call 1 beg", 11),
        (b"flew 1\n", 3),
        (b"cut 2 2\n", 7),
        (b"heal 4 1\n", 6),
    ];
    for (line, at) in cases {
        let text = joined(&rt, rt.alloc(), head, line);
        assert_eq!(rt;
            count(rt.alloc(), &text),
            Err(ScheduleFault::BadLine { line: 6, at })
        );
    }
}

#[test]
fn a_pair_is_refused_where_no_other_site_begins_so(rt: HostRuntime) {
    let cases: [(&[u8], usize, usize); 6] = [
        (b"site 1 7001\nevents\ncut 1 1\n", 3, 2),
        (b"site 1 7001\nevents\nheal 1 1\n", 3, 1),
        (b"site 1 7001\nsite 2 7002\nevents\ncut 1 1\n", 4, 7),
        (b"site 1 7001\nsite 12 7002\nevents\ncut 1 1\n", 4, 8),
        (b"site 1 7001\nsite 12 7002\nevents\ncut 12 12\n", 4, 9),
        (b"site 2 7001\nsite 12 7002\nevents\ncut 12 12\n", 4, 8),
    ];
    for (text, line, at) in cases {
        assert_eq!(rt;
            count(rt.alloc(), text),
            Err(ScheduleFault::BadLine { line, at })
        );
    }
}

#[test]
fn a_port_and_a_name_stand_once(rt: HostRuntime) {
    let cases: [(&[u8], usize); 3] = [
        (b"site 1 7001\nrecord x 10 1:1\nrecord x 1 1:1\n", 3),
        (b"site 1 7001\nsite 2 7001\nevents\n", 2),
        (b"site 1 7001\nrecord x 10 1:1\nrecord x 10 1:1\nflew\n", 3),
    ];
    for (text, line) in cases {
        assert_eq!(rt; count(rt.alloc(), text), Err(ScheduleFault::Twice { line }));
    }
}

/// A site, and as many records as there may be.
fn many_records(rt: &impl Abort, alloc: Global) -> Vec<u8> {
    let mut text = Vec::from_slice(alloc, b"site 1 7001\n").expect(rt, "memory");
    for k in 0..256 {
        let line = format!(in alloc; "record r{k} 0 1:1\n").expect(rt, "memory");
        text.extend_from_slice(line.as_bytes()).expect(rt, "memory");
    }
    text
}

#[test]
fn a_record_line_too_many_is_named_before_its_name(rt: HostRuntime) {
    let mut text = many_records(&rt, rt.alloc());
    text.extend_from_slice(b"record r7 0 1:1\nevents\n")
        .expect(&rt, "memory");
    let wanted = ScheduleFault::TooMany {
        line: 258,
        limit: 256,
    };
    assert!(rt; count(rt.alloc(), &text) == Err(wanted));
}

#[test]
fn a_hundred_thousand_events_are_read_and_no_more(rt: HostRuntime) {
    let mut text = Vec::from_slice(rt.alloc(), b"site 1 7001\nevents\n").expect(&rt, "memory");
    for _ in 0..100_000 {
        text.extend_from_slice(b"tick 1\n").expect(&rt, "memory");
    }
    assert!(rt; count(rt.alloc(), &text) == Ok(100_000));
    text.extend_from_slice(b"tick 1\n").expect(&rt, "memory");
    let wanted = ScheduleFault::TooMany {
        line: 100_003,
        limit: 100_000,
    };
    assert!(rt; count(rt.alloc(), &text) == Err(wanted));
}
