//! A node of one of two sites that serves a transaction and is stopped, where each call of its link and of its sink fails in turn.

use crate::words;
use bytes::Bytes;
use std::alloc::Global;
use std::process::Abort;
use vp_disks::MemDisk;
use vp_outside::{Datagram, MemLink, TextSink, TextSource};
use vp_status::Status;
use vp_top::run;

const CATALOGUE: &[u8] = b"site 1 7001\nsite 2 7002\nrecord x 10 1:1 2:1\n";

/// What comes, each from its port: the calls to begin and to write, the vote of site 2 with one more byte and without its last one, its
/// answer to the write, the call to commit, its vote, its acknowledgement of the outcome, and the stop. The first call and the
/// acknowledgement are of the first version.
const COMING: [(u16, &[u8]); 9] = [
    (7100, b"\x56\x01\x20\0\x01\x01"),
    (
        7100,
        b"\x56\x02\x20\0\x01\x04\x01\0\0\0\x01\0\0\0\x01\0\0\0\x01\x01x\0\x0211",
    ),
    (7002, b"\x56\x02\x0b\x02\x01\x01\0\0\0\x01\0\0\0\x01\0"),
    (7002, b"\x56\x02\x0b\x02\x01\x01\0\0\0\x01\0\0\0"),
    (
        7002,
        b"\x56\x02\x08\x02\x01\x01\0\0\0\x01\0\0\0\x01\0\0\0\x01",
    ),
    (
        7100,
        b"\x56\x02\x20\0\x01\x05\x01\0\0\0\x01\0\0\0\x01\0\0\0\x02",
    ),
    (7002, b"\x56\x02\x0b\x02\x01\x01\0\0\0\x01\0\0\0\x01"),
    (7002, b"\x56\x01\x0d\x02\x01\x01\0\0\0\x01\0\0\0\x01"),
    (7100, b"\x56\x02\x24\0\x01"),
];

/// What it prints if no call fails.
const RECORDING: [&str; 17] = [
    "start 1\n",
    "in 560120000101\n",
    "out 560221010001010000000100000001000000000000000000\n",
    "in 56022000010401000000010000000100000001017800023131\n",
    "out 56020701020100000001000000010000000000000000000000000100\n",
    "bad 14\n",
    "bad 13\n",
    "in 560208020101000000010000000100000001\n",
    "out 56022101000301000000010000000100000001\n",
    "in 56022000010501000000010000000100000002\n",
    "out 56020a010201000000010000000100000000000000000000000002000100010002313100\n",
    "in 56020b0201010000000100000001\n",
    "out 56020c010201000000010000000101\n",
    "out 56022101000401000000010000000100000002\n",
    "in 56010d0201010000000100000001\n",
    "in 5602240001\n",
    "end\n",
];

/// The call of the link and that of the sink that fail, where 0 is none, and how the run ends then: the status, how many lines of the
/// recording are printed, how many datagrams were handed over, and how long the log is: 15 bytes with the start of its life, 53 with the
/// commit, 73 with the acknowledgement.
const FAULTS: [(u64, u64, Status, usize, usize, usize); 28] = [
    // Call 1 of the link binds; then each turn receives, and some send. What isn't sent is lost. There is no call 17.
    (1, 0, Status::LinkFault, 0, 0, 15),
    (2, 0, Status::LinkFault, 1, 0, 15),
    (3, 0, Status::Done, 17, 6, 73),
    (4, 0, Status::LinkFault, 3, 1, 15),
    (5, 0, Status::Done, 17, 6, 73),
    (6, 0, Status::LinkFault, 5, 2, 15),
    (7, 0, Status::LinkFault, 6, 2, 15),
    (8, 0, Status::LinkFault, 7, 2, 15),
    (9, 0, Status::Done, 17, 6, 73),
    (10, 0, Status::LinkFault, 9, 3, 15),
    (11, 0, Status::Done, 17, 6, 73),
    (12, 0, Status::LinkFault, 11, 4, 15),
    (13, 0, Status::Done, 17, 6, 73),
    (14, 0, Status::Done, 17, 6, 73),
    (15, 0, Status::LinkFault, 14, 6, 53),
    (16, 0, Status::LinkFault, 15, 6, 73),
    (17, 0, Status::Done, 17, 6, 73),
    // Each of the first line, the lines of a turn and the last line is put by one call of the sink, after the turn's records.
    (0, 1, Status::SinkFault, 0, 0, 15),
    (0, 2, Status::SinkFault, 1, 0, 15),
    (0, 3, Status::SinkFault, 3, 1, 15),
    (0, 4, Status::SinkFault, 5, 2, 15),
    (0, 5, Status::SinkFault, 6, 2, 15),
    (0, 6, Status::SinkFault, 7, 2, 15),
    (0, 7, Status::SinkFault, 9, 3, 15),
    (0, 8, Status::SinkFault, 11, 4, 53),
    (0, 9, Status::SinkFault, 14, 6, 73),
    (0, 10, Status::SinkFault, 15, 6, 73),
    (0, 11, Status::SinkFault, 16, 6, 73),
];

fn coming(rt: &impl Abort, alloc: Global) -> Vec<Datagram> {
    let mut datagrams = Vec::new(alloc);
    for (port, bytes) in COMING {
        let bytes = Bytes::copy_from_slice(alloc, bytes).expect(rt, "memory");
        datagrams
            .push(Datagram { port, bytes })
            .expect(rt, "memory");
    }
    datagrams
}

/// The first lines of the recording, and after them the line of the status.
fn printed(rt: &impl Abort, alloc: Global, lines: usize, status: Status) -> String {
    let mut text = String::new(alloc);
    for line in RECORDING.iter().take(lines) {
        text.push_str(line).expect(rt, "memory");
    }
    if status == Status::LinkFault {
        text.push_str("link fault\n").expect(rt, "memory");
    }
    text
}

/// Whether the node ends like this if the calls with these numbers fail.
fn ends(rt: &impl Abort, alloc: Global, fault: (u64, u64, Status, usize, usize, usize)) -> bool {
    let (link_call, sink_call, status, lines, sent, kept) = fault;
    let source = CATALOGUE.to_vec(alloc).expect(rt, "memory");
    let mut source = TextSource::new(source, Vec::new(alloc));
    let calls = vec![in alloc; link_call].expect(rt, "memory");
    let mut link = MemLink::new(alloc, coming(rt, alloc), calls);
    let mut sink = TextSink::new(alloc, vec![in alloc; sink_call].expect(rt, "memory"));
    let mut disk = MemDisk::new(alloc, Vec::new(alloc));
    let words = words(alloc, "node 1 log 100").expect(rt, "memory");
    let end = run(alloc, &words, &mut source, &mut sink, &mut link, &mut disk);
    end == status
        && sink.bytes() == printed(rt, alloc, lines, status).as_bytes()
        && link.handed().len() == sent
        && disk.half(0).len() == kept
}

#[test]
fn a_call_of_the_link_or_of_the_sink_that_fails_is_told_unless_it_sends(rt: HostRuntime) {
    for fault in FAULTS {
        assert!(rt; ends(&rt, rt.alloc(), fault), "at {} {}", fault.0, fault.1);
    }
}
