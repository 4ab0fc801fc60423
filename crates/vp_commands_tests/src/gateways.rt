//! A gateway over a source, a sink and a link in memory: how it ends.

use crate::fixtures::{BEGUN, PORT, datagram};
use std::alloc::Global;
use std::process::Abort;
use vp_base::Word;
use vp_disks::SureDisk;
use vp_outside::{MemLink, TextSink, TextSource};
use vp_status::Status;
use vp_top::run;

/// A catalogue of site 1 and of the record x, and the line after it.
pub(crate) const HEAD: &[u8] = b"site 1 7001\nrecord x 10 1:1\nsession\n";

/// Two calls, and a line that is none.
pub(crate) const LINES: &[u8] = b"begin\n1.1.1 1 read x\nfoo\n";

/// What they are answered.
pub(crate) const ANSWERS: &[u8] = b"begun 1.1.1 0@0\nvalue 1.1.1 1 10\nbad at 1\n";

/// The value 10, as the answer to the first call of 1.1.1, from site 1.
const VALUE: &[u8] = b"\x56\x02\x21\x01\0\x02\x01\0\0\0\x01\0\0\0\x01\0\0\0\x01\0\x02\x31\x30";

/// What a gateway is given: its input, which comes in pieces of at most so many bytes, how many datagrams it waits for, and which calls of
/// the source, the sink and the link fail, where 0 is none.
#[derive(Drop)]
pub(crate) struct Given<'a> {
    pub input: &'a [u8],
    pub most: usize,
    pub turns: &'a str,
    pub take: u64,
    pub put: u64,
    pub call: u64,
}

/// What came of it.
#[derive(Drop)]
pub(crate) struct Outcome {
    pub end: Status,
    pub sink: TextSink,
    pub link: MemLink,
}

impl Outcome {
    /// Whether it ended so, with this text printed and so many frames handed over.
    pub(crate) fn is(&self, end: Status, text: &[u8], calls: usize) -> bool {
        self.end == end && self.sink.bytes() == text && self.link.handed().len() == calls
    }
}

/// This input, in which no call fails.
pub(crate) fn calm<'a>(input: &'a [u8]) -> Given<'a> {
    within(input, "2")
}

/// The same, where so many datagrams are awaited.
pub(crate) fn within<'a>(input: &'a [u8], turns: &'static str) -> Given<'a> {
    Given {
        input,
        most: 8192,
        turns,
        take: 0,
        put: 0,
        call: 0,
    }
}

/// These bytes one after the other.
pub(crate) fn joined(rt: &impl Abort, alloc: Global, parts: &[&[u8]]) -> Vec<u8> {
    let mut all = Vec::new(alloc);
    for part in parts {
        all.extend_from_slice(part).expect(rt, "memory");
    }
    all
}

fn words_of(rt: &impl Abort, alloc: Global, turns: &str) -> Vec<Word> {
    let mut words = Vec::new(alloc);
    for text in ["gateway", "7100", turns, "1"] {
        let bytes = text.as_bytes().to_vec(alloc).expect(rt, "memory");
        words.push(Word::from_vec(bytes)).expect(rt, "memory");
    }
    words
}

/// Runs the gateway at port 7100 for site 1, which gives the two answers.
pub(crate) fn served(rt: &impl Abort, alloc: Global, given: &Given) -> Outcome {
    let input = given.input.to_vec(alloc).expect(rt, "memory");
    let takes = vec![in alloc; given.take].expect(rt, "memory");
    let puts = vec![in alloc; given.put].expect(rt, "memory");
    let calls = vec![in alloc; given.call].expect(rt, "memory");
    let begun = datagram(alloc, PORT, BEGUN).expect(rt, "memory");
    let value = datagram(alloc, PORT, VALUE).expect(rt, "memory");
    let mut source = TextSource::new(input, takes);
    if given.most > 0 {
        source.most = given.most;
    }
    let mut sink = TextSink::new(alloc, puts);
    let mut link = MemLink::new(
        alloc,
        vec![in alloc; begun, value].expect(rt, "memory"),
        calls,
    );
    let mut disk = SureDisk::new(alloc);
    let words = words_of(rt, alloc, given.turns);
    let end = run(alloc, &words, &mut source, &mut sink, &mut link, &mut disk);
    Outcome { end, sink, link }
}

const USAGE: &[u8] =
    b"usage: vpdb replay|check|node|client|tick|probe|stop|generate|soak|logs|merge|audit|proc|gateway\n";

#[test]
fn a_head_that_is_none_is_refused(rt: HostRuntime) {
    let rows: &[(&[u8], Status, &[u8])] = &[
        (b"", Status::BadLine, b"bad line 1 at 1\n"),
        (b"session\n", Status::BadLine, b"bad line 1 at 2\n"),
        (
            b"site 1 7001\nevents\n",
            Status::BadLine,
            b"bad line 2 at 1\n",
        ),
        (
            b"site 1 7001\nsessions\n",
            Status::BadLine,
            b"bad line 2 at 8\n",
        ),
        (
            b"site 1 7001\nsession",
            Status::BadLine,
            b"bad line 2 at 8\n",
        ),
        (
            b"site 1 7001\nsite 2 7001\nsession\n",
            Status::BadLine,
            b"twice line 2\n",
        ),
        (
            b"site 1 7001\nrecord x 1 1:1\nrecord x 1 1:1\n",
            Status::BadLine,
            b"twice line 3\n",
        ),
        (b"site 2 7001\nsession\nbegin\n", Status::Usage, USAGE),
    ];
    for (input, end, text) in rows {
        for most in [1, 8192] {
            let mut given = calm(input);
            given.most = most;
            assert!(rt; served(&rt, rt.alloc(), &given).is(*end, text, 0));
        }
    }
}

/// What the whole lines among so many bytes of the lines are answered.
fn answered(count: usize) -> &'static [u8] {
    if count < 6 {
        b""
    } else if count < 21 {
        &ANSWERS[..16]
    } else if count < LINES.len() {
        &ANSWERS[..33]
    } else {
        ANSWERS
    }
}

#[test]
fn where_the_source_fails_each_whole_line_is_answered(rt: HostRuntime) {
    let input = joined(&rt, rt.alloc(), &[HEAD, LINES]);
    for count in 0..=input.len() {
        let mut given = calm(&input);
        given.most = 1;
        given.take = count as u64 + 1;
        let text = answered(count.saturating_sub(HEAD.len()));
        let outcome = served(&rt, rt.alloc(), &given);
        assert!(rt;
            outcome.end == Status::SourceFault && outcome.sink.bytes() == text,
            "after {count}"
        );
    }
}

#[test]
fn where_the_sink_fails_no_more_is_asked(rt: HostRuntime) {
    let input = joined(&rt, rt.alloc(), &[HEAD, LINES]);
    for (put, text, calls) in [(1, 0, 1), (2, 16, 2), (3, 33, 2)] {
        let mut given = calm(&input);
        given.put = put;
        let outcome = served(&rt, rt.alloc(), &given);
        assert!(rt;
            outcome.is(Status::SinkFault, &ANSWERS[..text], calls),
            "at {put}"
        );
    }
}

// Call 1 binds; calls 2 and 4 send, calls 3 and 5 receive.
#[test]
fn where_the_link_fails_the_lines_before_are_answered(rt: HostRuntime) {
    let input = joined(&rt, rt.alloc(), &[HEAD, LINES]);
    for (call, text, calls) in [(1, 0, 0), (2, 0, 1), (3, 0, 1), (4, 16, 2), (5, 16, 2)] {
        let mut given = calm(&input);
        given.call = call;
        let outcome = served(&rt, rt.alloc(), &given);
        let text = joined(&rt, rt.alloc(), &[&ANSWERS[..text], b"link fault\n"]);
        assert!(rt; outcome.is(Status::LinkFault, &text, calls), "at {call}");
    }
}
