//! Sessions that a gateway answers.

use crate::fixtures::BEGIN;
use crate::gateways::{ANSWERS, HEAD, LINES, calm, joined, served, within};
use std::alloc::Global;
use std::process::Abort;
use vp_outside::Dispatch;
use vp_status::Status;

/// The first call of 1.1.1, which reads x, to site 1.
const READ: &[u8] = b"\x56\x02\x20\0\x01\x03\x01\0\0\0\x01\0\0\0\x01\0\0\0\x01\x01\x78";

#[test]
fn each_line_is_answered_in_any_cutting(rt: HostRuntime) {
    let input = joined(&rt, rt.alloc(), &[HEAD, LINES]);
    for most in [1, 2, 7, 8192] {
        let mut given = calm(&input);
        given.most = most;
        let outcome = served(&rt, rt.alloc(), &given);
        assert!(rt; outcome.is(Status::Done, ANSWERS, 2), "in pieces of {most}");
        assert!(rt; are_calls(outcome.link.handed()));
    }
}

/// Whether the two calls were handed over, the second after the answer to the first.
fn are_calls(handed: &[Dispatch]) -> bool {
    match handed {
        [first, second] => {
            first.datagram.port == 7001
                && first.datagram.bytes.as_slice() == BEGIN
                && second.after == 1
                && second.datagram.bytes.as_slice() == READ
        }
        _ => false,
    }
}

/// What is answered of so many bytes of the lines, where the input ends there.
fn answers(rt: &impl Abort, alloc: Global, count: usize) -> Vec<u8> {
    let (whole, rest) = match count {
        0 => (0, 0),
        1..=5 => (0, count + 1),
        6 => (16, 0),
        7..=20 => (16, count - 5),
        21 => (33, 0),
        22..=24 => (33, 1),
        _ => (ANSWERS.len(), 0),
    };
    let mut text = ANSWERS[..whole].to_vec(alloc).expect(rt, "memory");
    if rest > 0 {
        let line = format!(in alloc; "bad at {rest}\n").expect(rt, "memory");
        text.extend_from_slice(line.as_bytes()).expect(rt, "memory");
    }
    text
}

#[test]
fn an_input_that_ends_within_the_lines_is_answered_as_far_as_it_goes(rt: HostRuntime) {
    for count in 0..=LINES.len() {
        let (lines, _) = LINES.split_at(count.min(LINES.len()));
        let input = joined(&rt, rt.alloc(), &[HEAD, lines]);
        let outcome = served(&rt, rt.alloc(), &calm(&input));
        let text = answers(&rt, rt.alloc(), count);
        assert!(rt;
            outcome.end == Status::Done && outcome.sink.bytes() == text.as_slice(),
            "after {count}"
        );
    }
}

#[test]
fn what_is_no_call_is_told_with_its_place(rt: HostRuntime) {
    let rows: &[(&[u8], &[u8])] = &[
        (b"\n", b"bad at 1\n"),
        (b"beg\n", b"bad at 4\n"),
        (b"begin \n", b"bad at 6\n"),
        (b"1.1.1 1 read \n", b"bad at 14\n"),
        (b"1.1.1 1 frob\n", b"bad at 9\n"),
        (b"beg", b"bad at 4\n"),
        (b"", b""),
    ];
    for (lines, answers) in rows {
        let input = joined(&rt, rt.alloc(), &[HEAD, lines]);
        assert!(rt; served(&rt, rt.alloc(), &calm(&input)).is(Status::Done, answers, 0));
    }
}

#[test]
fn a_long_line_is_passed_over(rt: HostRuntime) {
    let most = vec![in rt.alloc(); b'a'; 4096].expect(&rt, "memory");
    let more = vec![in rt.alloc(); b'a'; 4097].expect(&rt, "memory");
    let input = joined(&rt, rt.alloc(), &[HEAD, &most, b"\n", &more, b"\n", &more]);
    for pieces in [100, 8192] {
        let mut given = calm(&input);
        given.most = pieces;
        let outcome = served(&rt, rt.alloc(), &given);
        assert!(rt; outcome.is(Status::Done, b"bad at 1\nlong\nlong\n", 0));
    }
}

#[test]
fn as_many_datagrams_without_the_answer_are_told(rt: HostRuntime) {
    let input = joined(&rt, rt.alloc(), &[HEAD, b"begin\nregroup\n"]);
    let begun = served(&rt, rt.alloc(), &within(&input, "1"));
    assert!(rt; begun.is(Status::Done, b"begun 1.1.1 0@0\nno answer\n", 2));
    let silent = served(&rt, rt.alloc(), &within(&input, "0"));
    assert!(rt; silent.is(Status::Done, b"no answer\nno answer\n", 2));
}

#[test]
fn more_bytes_than_there_may_be_are_not_answered(rt: HostRuntime) {
    let front = joined(&rt, rt.alloc(), &[HEAD, b"foo\n"]);
    let most = 16_777_216_usize.saturating_sub(front.len());
    let line = vec![in rt.alloc(); b'a'; most].expect(&rt, "memory");
    let input = joined(&rt, rt.alloc(), &[&front, &line, b"\n"]);
    let outcome = served(&rt, rt.alloc(), &calm(&input));
    assert!(rt; outcome.is(Status::Limit, b"bad at 1\nlimit bytes 16777216\n", 0));
}
