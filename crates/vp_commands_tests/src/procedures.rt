//! A procedure over a source, a sink and a link in memory: its calls by what they are answered, and its end.

use crate::fixtures::{PORT, datagram};
use std::alloc::Global;
use std::process::Abort;
use vp_base::Word;
use vp_disks::SureDisk;
use vp_outside::{Dispatch, MemLink, TextSink, TextSource};
use vp_status::Status;
use vp_top::run;

/// A catalogue of site 1 and of the record x, and the line after it: the first statement is on line 4.
const HEAD: &[u8] = b"site 1 7001\nrecord x 10 1:1\nprocedure\n";

/// A counter: it reads x, and writes one more.
const COUNTER: &[u8] = b"read a x\nset a a + 1\nwrite x a\nresult a\n";

/// It fails if x is less than 20.
const FLOOR: &[u8] = b"read a x\nif a < 20\nfail 7\nend\nresult a\n";

/// It has no calls, and comes out of the range.
const BELOW: &[u8] = b"set a 0 - 1\nresult a\n";

// Frames to site 1, after the bytes that all of them begin with. Those of 1.1.1 have the number of the call in their last bytes.
const BEGIN: &[u8] = b"\x01";

const READ: &[u8] = b"\x03\x01\0\0\0\x01\0\0\0\x01\0\0\0\x01\x01x";

const WRITE: &[u8] = b"\x04\x01\0\0\0\x01\0\0\0\x01\0\0\0\x02\x01x\0\x0211";

const COMMIT: &[u8] = b"\x05\x01\0\0\0\x01\0\0\0\x01\0\0\0\x03";

const ABORT_1: &[u8] = b"\x06\x01\0\0\0\x01\0\0\0\x01\0\0\0\x01";

const ABORT_2: &[u8] = b"\x06\x01\0\0\0\x01\0\0\0\x01\0\0\0\x02";

const ABORT_3: &[u8] = b"\x06\x01\0\0\0\x01\0\0\0\x01\0\0\0\x03";

// Replies of site 1, after the bytes that all of them begin with.
const BEGUN: &[u8] = b"\x01\x01\0\0\0\x01\0\0\0\x01\0\0\0\0\0\0\0\0\0";

const NO_VIEW: &[u8] = b"\x07\0\0\0\0\0\0\0\0\0";

const TEN: &[u8] = b"\x02\x01\0\0\0\x01\0\0\0\x01\0\0\0\x01\0\x0210";

const SEVEN: &[u8] = b"\x02\x01\0\0\0\x01\0\0\0\x01\0\0\0\x01\0\x03007";

const ABSENT: &[u8] = b"\x13\x01\0\0\0\x01\0\0\0\x01\0\0\0\x01";

const LOCK_HELD: &[u8] = b"\x0e\x01\0\0\0\x01\0\0\0\x01\0\0\0\x01\x01x\x01\0";

const BUSY: &[u8] = b"\x0a\x01\0\0\0\x01\0\0\0\x01\0\0\0\x02";

const WRITTEN: &[u8] = b"\x03\x01\0\0\0\x01\0\0\0\x01\0\0\0\x02";

const COMMITTED: &[u8] = b"\x04\x01\0\0\0\x01\0\0\0\x01\0\0\0\x03";

const TIMED_OUT: &[u8] = b"\x10\x01\0\0\0\x01\0\0\0\x01\0\0\0\x03\x02";

const UNKNOWN: &[u8] = b"\x08\x01\0\0\0\x01\0\0\0\x01";

const ABORTED: &[u8] = b"\x05\x01\0\0\0\x01\0\0\0\x01\0\0\0\x01";

/// The statements of a procedure, what the site replies, which call of the link fails (1 binds, and 0 is none), the frames that come to the
/// site, and the end.
type Row<'a> = (
    &'a [u8],
    &'a [&'a [u8]],
    u64,
    &'a [&'a [u8]],
    Status,
    &'a [u8],
);

const ROWS: &[Row] = &[
    // the ends by itself
    (
        COUNTER,
        &[BEGUN, TEN, WRITTEN, COMMITTED],
        0,
        &[BEGIN, READ, WRITE, COMMIT],
        Status::Done,
        b"done 11\n",
    ),
    (
        FLOOR,
        &[BEGUN, TEN, ABORTED],
        0,
        &[BEGIN, READ, ABORT_2],
        Status::NoResult,
        b"failed 7\n",
    ),
    (
        BELOW,
        &[BEGUN, ABORTED],
        0,
        &[BEGIN, ABORT_1],
        Status::NoResult,
        b"overflow 4\n",
    ),
    (
        COUNTER,
        &[BEGUN, ABSENT],
        0,
        &[BEGIN, READ, ABORT_2],
        Status::NoResult,
        b"notnumber 4\n",
    ),
    (
        COUNTER,
        &[BEGUN, SEVEN],
        0,
        &[BEGIN, READ, ABORT_2],
        Status::NoResult,
        b"notnumber 4\n",
    ),
    // a call that is refused: the first one, a read, a write, the commit
    (
        COUNTER,
        &[NO_VIEW],
        0,
        &[BEGIN],
        Status::NoResult,
        b"noview 0@0\n",
    ),
    (
        COUNTER,
        &[BEGUN, LOCK_HELD],
        0,
        &[BEGIN, READ],
        Status::NoResult,
        b"lockheld 1.1.1 1 x at 1 by refresh\n",
    ),
    (
        COUNTER,
        &[BEGUN, TEN, BUSY],
        0,
        &[BEGIN, READ, WRITE, ABORT_2],
        Status::NoResult,
        b"busy 1.1.1 2\n",
    ),
    (
        COUNTER,
        &[BEGUN, TEN, WRITTEN, TIMED_OUT],
        0,
        &[BEGIN, READ, WRITE, COMMIT],
        Status::NoResult,
        b"timedout 1.1.1 3 at 2\n",
    ),
    (
        COUNTER,
        &[BEGUN, TEN, WRITTEN, UNKNOWN],
        0,
        &[BEGIN, READ, WRITE, COMMIT, ABORT_3],
        Status::NoResult,
        b"unknown 1.1.1\n",
    ),
    // two datagrams without the answer: of the first call, and of the last one
    (
        COUNTER,
        &[ABORTED, ABORTED],
        0,
        &[BEGIN],
        Status::NoAnswer,
        b"no answer\n",
    ),
    (
        COUNTER,
        &[BEGUN, TEN, WRITTEN, BUSY, BUSY],
        0,
        &[BEGIN, READ, WRITE, COMMIT],
        Status::NoAnswer,
        b"no answer\n",
    ),
    // a link that fails: when it binds, sends and receives; in the abort it changes nothing
    (
        COUNTER,
        &[BEGUN],
        1,
        &[],
        Status::LinkFault,
        b"link fault\n",
    ),
    (
        COUNTER,
        &[BEGUN],
        2,
        &[BEGIN],
        Status::LinkFault,
        b"link fault\n",
    ),
    (
        COUNTER,
        &[BEGUN],
        3,
        &[BEGIN],
        Status::LinkFault,
        b"link fault\n",
    ),
    (
        COUNTER,
        &[BEGUN, TEN],
        4,
        &[BEGIN, READ],
        Status::LinkFault,
        b"link fault\n",
    ),
    (
        BELOW,
        &[BEGUN, ABORTED],
        4,
        &[BEGIN, ABORT_1],
        Status::NoResult,
        b"overflow 4\n",
    ),
    (
        BELOW,
        &[BEGUN],
        5,
        &[BEGIN, ABORT_1],
        Status::NoResult,
        b"overflow 4\n",
    ),
];

/// Statements, and the line that refuses them.
const REFUSED: &[(&[u8], &[u8])] = &[
    (b"", b"bad line 4 at 1\n"),
    (b"read A x\n", b"bad line 4 at 6\n"),
    (b"read a y\n", b"bad line 4 at 8\n"),
    (b"read a x \n", b"bad line 4 at 9\n"),
    (b"set a 1 +1\n", b"bad line 4 at 10\n"),
    (b"set a 01\n", b"bad line 4 at 8\n"),
    (b"set a 18446744073709551616\n", b"bad line 4 at 26\n"),
    (b"if a > 1\n", b"bad line 4 at 6\n"),
    (b"if a - b - 1\n", b"bad line 4 at 10\n"),
    (b"fail 256\n", b"bad line 4 at 8\n"),
    (b"else\n", b"bad line 4 at 1\n"),
    (b"end\n", b"bad line 4 at 1\n"),
    (b"if a = 1\nelse\nelse\n", b"bad line 6 at 2\n"),
    (b"if a = 1\nresult a\n", b"bad line 5 at 3\n"),
    (b"result a", b"bad line 4 at 9\n"),
    (b"result a\n\n", b"bad line 5 at 1\n"),
];

/// These bytes one after the other.
fn joined(rt: &impl Abort, alloc: Global, parts: &[&[u8]]) -> Vec<u8> {
    let mut all = Vec::new(alloc);
    for part in parts {
        all.extend_from_slice(part).expect(rt, "memory");
    }
    all
}

fn words_of(rt: &impl Abort, alloc: Global) -> Vec<Word> {
    let mut words = Vec::new(alloc);
    for text in ["proc", "7100", "2", "1"] {
        let bytes = text.as_bytes().to_vec(alloc).expect(rt, "memory");
        words.push(Word::from_vec(bytes)).expect(rt, "memory");
    }
    words
}

/// Runs the statements at port 7100, for site 1: the end, what was printed, and the link.
fn ran(
    rt: &impl Abort,
    alloc: Global,
    statements: &[u8],
    replies: &[&[u8]],
    call: u64,
) -> (Status, TextSink, MemLink) {
    let mut datagrams = Vec::new(alloc);
    for reply in replies {
        let frame = joined(rt, alloc, &[b"\x56\x02\x21\x01\0", reply]);
        datagrams
            .push(datagram(alloc, PORT, &frame).expect(rt, "memory"))
            .expect(rt, "memory");
    }
    let calls = vec![in alloc; call].expect(rt, "memory");
    let mut source = TextSource::new(joined(rt, alloc, &[HEAD, statements]), Vec::new(alloc));
    let mut sink = TextSink::new(alloc, Vec::new(alloc));
    let mut link = MemLink::new(alloc, datagrams, calls);
    let mut disk = SureDisk::new(alloc);
    let words = words_of(rt, alloc);
    let end = run(alloc, &words, &mut source, &mut sink, &mut link, &mut disk);
    (end, sink, link)
}

/// Whether these frames came to the site, and no others.
fn are_frames(handed: &[Dispatch], frames: &[&[u8]]) -> bool {
    if handed.len() != frames.len() {
        return false;
    }
    for (dispatch, frame) in handed.iter().zip(frames) {
        let bytes = dispatch.datagram.bytes.as_slice();
        if dispatch.datagram.port != PORT
            || !bytes.starts_with(b"\x56\x02\x20\0\x01")
            || &bytes[5..] != *frame
        {
            return false;
        }
    }
    true
}

#[test]
fn a_procedure_runs_by_its_answers(rt: HostRuntime) {
    for (place, row) in ROWS.iter().enumerate() {
        let (statements, replies, call, frames, status, text) = *row;
        let (end, sink, link) = ran(&rt, rt.alloc(), statements, replies, call);
        assert!(rt; end == status && sink.bytes() == text, "end of row {place}");
        assert!(rt; are_frames(link.handed(), frames), "frames of row {place}");
    }
}

#[test]
fn what_is_no_procedure_is_refused(rt: HostRuntime) {
    for (place, row) in REFUSED.iter().enumerate() {
        let (end, sink, link) = ran(&rt, rt.alloc(), row.0, &[], 0);
        assert!(rt;
            end == Status::BadLine && sink.bytes() == row.1,
            "end of row {place}"
        );
        assert!(rt; link.handed().is_empty(), "frames of row {place}");
    }
}

/// As many statements before `result`.
fn long(rt: &impl Abort, alloc: Global, count: usize) -> Vec<u8> {
    let mut text = Vec::new(alloc);
    for _ in 0..count {
        text.extend_from_slice(b"set a 1\n").expect(rt, "memory");
    }
    text.extend_from_slice(b"result a\n").expect(rt, "memory");
    text
}

#[test]
fn a_procedure_has_at_most_256_statements(rt: HostRuntime) {
    let whole = long(&rt, rt.alloc(), 255);
    let (end, sink, _) = ran(&rt, rt.alloc(), &whole, &[NO_VIEW], 0);
    assert!(rt; end == Status::NoResult && sink.bytes() == b"noview 0@0\n".as_slice());
    let longer = long(&rt, rt.alloc(), 256);
    let (end, sink, _) = ran(&rt, rt.alloc(), &longer, &[], 0);
    assert!(rt; end == Status::BadLine && sink.bytes() == b"bad line 260 at 1\n".as_slice());
}
