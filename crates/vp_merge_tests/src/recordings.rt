//! Recordings that are read, and refused.

use std::alloc::Global;
use vp_recording::{RecordingFault, RecordingSet, parse};

/// A catalogue and the line `recordings`, with more lines after them.
fn parse_after(alloc: Global, lines: &[u8]) -> Result<RecordingSet, RecordingFault> {
    let mut text = Vec::new(alloc);
    let head = b"site 1 7001\nrecord x 10 1:1\nrecordings\n";
    if text.extend_from_slice(head).is_err() || text.extend_from_slice(lines).is_err() {
        return Err(RecordingFault::NoMemory);
    }
    parse(alloc, &text)
}

/// Whether the lines have a bad line of this number, at this place.
fn is_bad_at(alloc: Global, lines: &[u8], line: usize, at: usize) -> bool {
    match parse_after(alloc, lines) {
        Ok(_) => false,
        Err(fault) => fault == RecordingFault::BadLine { line, at },
    }
}

#[test]
fn lines_are_refused_at_their_place(rt: HostRuntime) {
    let cases: [(&[u8], usize, usize); 14] = [
        (b"node 1\n", 5, 1),
        (b"node 2\n", 4, 6),
        (b"node 1\nstart 0\n", 5, 7),
        (b"node 1\nstart 1\nin 5602\nout 56\nbad 0\nout 56\n", 9, 1),
        (b"node 1\nstart 1\nin 5\n", 6, 5),
        (b"node 1\nstart 1\nin \n", 6, 4),
        (b"node 1\nstart 1\nbad 16385\n", 6, 9),
        (b"node 1\nstart 1\nend\nin 56\n", 7, 1),
        (b"node 1\nstart 4294967295\nnode 1\nstart 5\n", 7, 1),
        (b"node 1\nstart 4294967295\nnode 1\n", 7, 1),
        (b"node 1\nstart 1\nnode 1\nstart 1\n", 7, 8),
        (b"node 1\nstart 1\nstray 5G\n", 6, 8),
        (b"node 1\nstart 1\ndisk  fault\n", 6, 6),
        (b"node 1\nstart 1\nout 56\n", 6, 1),
    ];
    for (lines, line, at) in cases {
        assert!(rt; is_bad_at(rt.alloc(), lines, line, at));
    }
}

#[test]
fn a_head_is_refused_at_its_place(rt: HostRuntime) {
    let ends = match parse(rt.alloc(), b"site 1 7001\nrecord x 10 1:1\n") {
        Ok(_) => false,
        Err(fault) => fault == RecordingFault::BadLine { line: 3, at: 1 },
    };
    assert!(rt; ends);
    let twice = match parse(rt.alloc(), b"site 1 7001\nsite 2 7001\n") {
        Ok(_) => false,
        Err(fault) => fault == RecordingFault::Twice { line: 2 },
    };
    assert!(rt; twice);
}

/// The site and the life of the first block, whether it is ended, and how many turns it has; how many datagrams its first turn has.
fn first_block(recorded: &RecordingSet) -> Option<(u8, u32, bool, usize, usize)> {
    let block = recorded.recordings.as_slice().first()?;
    let turns = block.turns.as_slice();
    let outs = turns.first()?.outs.as_slice().len();
    Some((block.site.get(), block.life, block.ended, turns.len(), outs))
}

#[test]
fn blocks_are_read(rt: HostRuntime) {
    let lines =
        b"node 1\nstart 2\nbad 0\nin 560220000101\nout 56\nout 01\nstray 00\nin ff\nlink fault\nnode 1\nstart 3\n";
    let recorded = parse_after(rt.alloc(), lines).expect(&rt, "recordings");
    assert_eq!(rt; recorded.recordings.as_slice().len(), 2);
    assert!(rt; first_block(&recorded) == Some((1, 2, true, 2, 2)));
}
