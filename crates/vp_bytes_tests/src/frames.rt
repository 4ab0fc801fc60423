//! The bytes of frames.

ghost use Rattle.std.specs.Prelude.{◌≡◌, IfOk, None};
ghost use Rattle.vp_base.specs.declared.message.Message.TheVariants as message;
ghost use Rattle.vp_wire.specs.declared.frame.Body.TheVariants as body;

use bytes::BytesMut;
use std::alloc::Global;
use vp_base::{Answer, Boxed, Call, CopyOf, Message, NoMemory, RecId, Stored, Value, ViewId};
use vp_wire::{Body, Frame, WireFault, decode, encode};

#[test]
fn a_tick_has_its_bytes(rt: HostRuntime) {
    let mut out = BytesMut::new(rt.alloc());
    let tick = Frame::of(0, 1, Body::Tick);
    encode(&tick, &mut out).expect(&rt, "memory");
    assert_eq!(rt; out.as_slice(), b"\x56\x02\x22\x00\x01".as_slice());
}

#[test]
fn a_begin_has_its_bytes(rt: HostRuntime) {
    let mut out = BytesMut::new(rt.alloc());
    let begin = Frame::of(0, 1, Body::Call(Call::Begin));
    encode(&begin, &mut out).expect(&rt, "memory");
    assert_eq!(rt; out.as_slice(), b"\x56\x02\x20\x00\x01\x01".as_slice());
}

/// The bytes of the answer that this number is spent.
fn encoded(alloc: Global, number: u64) -> Result<BytesMut, NoMemory> {
    let mut out = BytesMut::new(alloc);
    let spent = Frame::of(16, 0, Body::Reply(Answer::Spent { number }));
    encode(&spent, &mut out)?;
    Ok(out)
}

#[test]
fn numbers_stand_with_their_highest_byte_first(rt: HostRuntime) {
    assert_eq!(rt;
        encoded(rt.alloc(), 258).expect(&rt, "memory").as_slice(),
        b"\x56\x02\x21\x10\x00\x11\x00\x00\x00\x00\x00\x00\x01\x02".as_slice()
    );
}

/// The message with a copy of record 0, which has this content and the opening date.
fn copy_of(alloc: Global, value: Option<Value>) -> Result<Body, NoMemory>
    ensures { IfOk result (λ b. b ≡ body.Message (message.RefreshAnswer
        (record { number = 1; site = 2 }) 0
        (record { value = value; table = None; date = record { number = 0; site = 0 } }))) }
{
    let stored = Stored {
        value,
        table: None,
        date: ViewId { number: 0, site: 0 },
    };
    Ok(Body::Message(Message::RefreshAnswer {
        view: ViewId { number: 1, site: 2 },
        rec: RecId::new(0),
        stored: Boxed::new(alloc, stored)?,
    }))
}

#[test]
fn a_copy_of_the_first_version_has_its_bytes(rt: HostRuntime) {
    let value = Value::read(rt.alloc(), b"11").expect(&rt, "a value");
    let mut out = BytesMut::new(rt.alloc());
    let copy = Frame {
        version: 1,
        from: 3,
        to: 2,
        body: copy_of(rt.alloc(), Some(value)).expect(&rt, "memory"),
    };
    encode(&copy, &mut out).expect(&rt, "memory");
    assert_eq!(rt;
        out.as_slice(),
        b"\x56\x01\x10\x03\x02\x00\x00\x00\x00\x00\x00\x00\x01\x02\x00\x0211\x00\x00\x00\x00\x00\x00\x00\x00\x00".as_slice()
    );
}

#[test]
fn a_copy_has_its_bytes(rt: HostRuntime) {
    let value = Value::read(rt.alloc(), b"11").expect(&rt, "a value");
    let mut out = BytesMut::new(rt.alloc());
    let copy = Frame::of(3, 2, copy_of(rt.alloc(), Some(value)).expect(&rt, "memory"));
    encode(&copy, &mut out).expect(&rt, "memory");
    assert_eq!(rt;
        out.as_slice(),
        b"\x56\x02\x10\x03\x02\x00\x00\x00\x00\x00\x00\x00\x01\x02\x00\x01\x00\x0211\x00\x00\x00\x00\x00\x00\x00\x00\x00\x00".as_slice()
    );
}

#[test]
fn a_copy_without_a_value_has_its_bytes(rt: HostRuntime) {
    let mut out = BytesMut::new(rt.alloc());
    let copy = Frame::of(3, 2, copy_of(rt.alloc(), None).expect(&rt, "memory"));
    encode(&copy, &mut out).expect(&rt, "memory");
    assert_eq!(rt;
        out.as_slice(),
        b"\x56\x02\x10\x03\x02\x00\x00\x00\x00\x00\x00\x00\x01\x02\x00\x00\x00\x00\x00\x00\x00\x00\x00\x00\x00\x00".as_slice()
    );
}

/// How many of the bytes begin a frame, where they are none.
fn place(alloc: Global, bytes: &[u8]) -> Result<Option<usize>, NoMemory> {
    match decode(alloc, bytes) {
        Ok(_frame) => Ok(None),
        Err(WireFault::BadFrame { at }) => Ok(Some(at)),
        Err(WireFault::NoMemory) => Err(NoMemory),
    }
}

// Rows of cases: the count of a row's bytes, then how many of them begin a frame, or 255 where they are one, and then the bytes.
// One list of bytes is proved faster than a list of lists.

const HEADS: &[u8] = b"\
    \x00\x00\
    \x01\x00\x57\
    \x02\x02\x56\x02\
    \x02\x01\x56\x03\
    \x02\x01\x56\0\
    \x05\xff\x56\x02\x22\0\x01\
    \x03\x02\x56\x01\x25\
    \x03\x02\x56\x01\0\
    \x03\x03\x56\x01\x22\
    \x04\x03\x56\x01\x22\x01\
    \x05\x04\x56\x01\x22\0\0\
    \x05\x04\x56\x01\x22\0\x11\
    \x05\xff\x56\x01\x22\0\x01\
    \x06\x05\x56\x01\x22\0\x01\0\
    \x06\xff\x56\x01\x20\0\x01\x01\
    \x04\x03\x56\x01\x01\0\
    \x04\x03\x56\x01\x01\x11\
    \x05\x04\x56\x01\x01\x01\0\
    \x04\x03\x56\x01\x21\0\
    \x05\x04\x56\x01\x21\x10\x01\
    \x05\xff\x56\x01\x23\0\x10\
    \x05\xff\x56\x01\x24\0\x10";

const COPIES: &[u8] = b"\
    \x1b\xff\x56\x01\x10\x03\x02\0\0\0\0\0\0\0\x01\x02\0\x02\x31\x31\0\0\0\0\0\0\0\0\0\
    \x1b\x10\x56\x01\x10\x03\x02\0\0\0\0\0\0\0\x01\x02\0\x02\x20\x31\0\0\0\0\0\0\0\0\0\
    \x1b\x0f\x56\x01\x10\x03\x02\0\0\0\0\0\0\0\x01\x02\0\0\x31\x31\0\0\0\0\0\0\0\0\0\
    \x1b\x0f\x56\x01\x10\x03\x02\0\0\0\0\0\0\0\x01\x02\0\x41\x31\x31\0\0\0\0\0\0\0\0\0\
    \x11\x11\x56\x01\x10\x03\x02\0\0\0\0\0\0\0\x01\x02\0\x02\x31\
    \x1b\x1a\x56\x01\x10\x03\x02\0\0\0\0\0\0\0\x01\x02\0\x02\x31\x31\0\0\0\0\0\0\0\0\x01\
    \x1c\x1b\x56\x01\x10\x03\x02\0\0\0\0\0\0\0\x01\x02\0\x02\x31\x31\0\0\0\0\0\0\0\0\0\xff\
    \x0e\x0d\x56\x01\x10\x03\x02\0\0\0\0\0\0\0\0\x02";

/// Frames of the second version, and frames of the first that are none.
const SECOND: &[u8] = b"\
    \x1a\xff\x56\x02\x10\x03\x02\0\0\0\0\0\0\0\x01\x02\0\0\0\0\0\0\0\0\0\0\0\0\
    \x25\xff\x56\x02\x10\x03\x02\0\0\0\0\0\0\0\x01\x02\0\x01\0\x02\x31\x31\x01\x02\x01\0\x01\x03\xff\xff\0\0\0\0\0\0\0\0\0\
    \x1f\x1e\x56\x02\x10\x03\x02\0\0\0\0\0\0\0\x01\x02\0\x01\0\x02\x31\x31\0\0\0\0\0\0\0\0\0\0\0\
    \x10\x0f\x56\x02\x10\x03\x02\0\0\0\0\0\0\0\x01\x02\0\x02\
    \x11\x10\x56\x02\x10\x03\x02\0\0\0\0\0\0\0\x01\x02\0\0\x02\
    \x11\x10\x56\x02\x10\x03\x02\0\0\0\0\0\0\0\x01\x02\0\x01\x05\
    \x12\x11\x56\x02\x10\x03\x02\0\0\0\0\0\0\0\x01\x02\0\x01\x04\x01\
    \x12\x11\x56\x02\x10\x03\x02\0\0\0\0\0\0\0\x01\x02\0\0\x01\0\
    \x13\x12\x56\x02\x10\x03\x02\0\0\0\0\0\0\0\x01\x02\0\0\x01\x02\x10\
    \x13\xff\x56\x02\x06\x03\x02\x02\0\0\0\x01\0\0\0\x03\0\0\0\x04\0\
    \x16\xff\x56\x02\x06\x03\x02\x02\0\0\0\x01\0\0\0\x03\0\0\0\x04\x01\0\x01\x7a\
    \x13\x12\x56\x02\x06\x03\x02\x02\0\0\0\x01\0\0\0\x03\0\0\0\x04\x02\
    \x13\x12\x56\x01\x06\x03\x02\x02\0\0\0\x01\0\0\0\x03\0\0\0\x04\0\
    \x32\xff\x56\x02\x0a\x03\x02\x02\0\0\0\x01\0\0\0\x03\0\0\0\0\0\0\0\x01\x02\0\0\0\x04\x01\x01\x03\x02\0\0\x03\x02\x01\x01\x01\0\x02\x04\x01\0\x01\x7a\x01\x01\x10\0\x01\
    \x20\x1f\x56\x02\x0a\x03\x02\x02\0\0\0\x01\0\0\0\x03\0\0\0\0\0\0\0\x01\x02\0\0\0\x04\0\x01\x02\x02\0\
    \x1f\x1e\x56\x02\x0a\x03\x02\x02\0\0\0\x01\0\0\0\x03\0\0\0\0\0\0\0\x01\x02\0\0\0\x04\0\x01\x02\x03\
    \x1b\xff\x56\x02\x09\x03\x02\x02\0\0\0\x01\0\0\0\x03\0\0\0\x04\x03\0\0\0\x01\0\0\0\x02\
    \x1b\x12\x56\x01\x09\x03\x02\x02\0\0\0\x01\0\0\0\x03\0\0\0\x04\x03\0\0\0\x01\0\0\0\x02\
    \x13\x12\x56\x02\x09\x03\x02\x02\0\0\0\x01\0\0\0\x03\0\0\0\x04\x04\
    \x15\xff\x56\x02\x20\0\x01\x07\x02\0\0\0\x01\0\0\0\x03\0\0\0\x04\x01\x78\
    \x15\x05\x56\x01\x20\0\x01\x07\x02\0\0\0\x01\0\0\0\x03\0\0\0\x04\x01\x78\
    \x1c\xff\x56\x02\x20\0\x01\x08\x02\0\0\0\x01\0\0\0\x03\0\0\0\x04\x01\x78\x02\x01\0\x01\x09\x01\x02\
    \x1c\x05\x56\x01\x20\0\x01\x08\x02\0\0\0\x01\0\0\0\x03\0\0\0\x04\x01\x78\x02\x01\0\x01\x09\x01\x02\
    \x17\x16\x56\x02\x20\0\x01\x08\x02\0\0\0\x01\0\0\0\x03\0\0\0\x04\x01\x78\x02\0\
    \x06\x05\x56\x02\x20\0\x01\x09\
    \x13\xff\x56\x02\x21\x02\0\x13\x02\0\0\0\x01\0\0\0\x03\0\0\0\x04\
    \x13\xff\x56\x02\x21\x02\0\x14\x02\0\0\0\x01\0\0\0\x03\0\0\0\x04\
    \x13\xff\x56\x02\x21\x02\0\x15\x02\0\0\0\x01\0\0\0\x03\0\0\0\x04\
    \x13\xff\x56\x02\x21\x02\0\x16\x02\0\0\0\x01\0\0\0\x03\0\0\0\x04\
    \x13\x05\x56\x01\x21\x02\0\x13\x02\0\0\0\x01\0\0\0\x03\0\0\0\x04\
    \x06\x05\x56\x02\x21\x02\0\x17\
    \x17\xff\x56\x02\x21\x02\0\x02\x02\0\0\0\x01\0\0\0\x03\0\0\0\x04\0\x02\x31\x31\
    \x16\xff\x56\x01\x21\x02\0\x02\x02\0\0\0\x01\0\0\0\x03\0\0\0\x04\x02\x31\x31\
    \x18\xff\x56\x02\x20\0\x01\x04\x02\0\0\0\x01\0\0\0\x03\0\0\0\x04\x01\x78\0\x01\x35";

const LISTS: &[u8] = b"\
    \x0f\x0e\x56\x01\x04\x01\x02\0\0\0\0\0\0\0\x01\x02\0\
    \x0f\x0e\x56\x01\x04\x01\x02\0\0\0\0\0\0\0\x01\x02\x11\
    \x11\xff\x56\x01\x04\x01\x02\0\0\0\0\0\0\0\x01\x02\x02\x01\x02\
    \x11\x10\x56\x01\x04\x01\x02\0\0\0\0\0\0\0\x01\x02\x02\x02\x01\
    \x10\x0f\x56\x01\x04\x01\x02\0\0\0\0\0\0\0\x01\x02\x02\x10\
    \x11\x10\x56\x01\x04\x01\x02\0\0\0\0\0\0\0\x01\x02\x02\x01\x01\
    \x10\xff\x56\x01\x04\x01\x02\0\0\0\0\0\0\0\x01\x02\x01\x10\
    \x10\x0f\x56\x01\x04\x01\x02\0\0\0\0\0\0\0\x01\x02\x01\x11\
    \x11\x10\x56\x01\x04\x01\x02\0\0\0\0\0\0\0\x01\x02\x01\x03\xff";

/// How many rows have their result, up to the first that has another one.
fn rows_answered(alloc: Global, rows: &[u8]) -> Result<usize, NoMemory> {
    let mut rest = rows;
    for row in 0..rows.len() {
        let [count, answer, following @ ..] = rest else {
            return Ok(row);
        };
        let (bytes, others) = following.split_at(usize::from(*count).min(following.len()));
        if place(alloc, bytes)?.unwrap_or(255) != usize::from(*answer) {
            return Ok(row);
        }
        rest = others;
    }
    Ok(rows.len())
}

#[test]
fn frames_are_refused_at_their_places_in_the_head(rt: HostRuntime) {
    assert!(rt; rows_answered(rt.alloc(), HEADS) == Ok(22));
}

#[test]
fn a_vote_is_fourteen_bytes(rt: HostRuntime) {
    let cases: [(&[u8], Option<usize>); 3] = [
        (b"\x56\x01\x0b\x02\x01\x01\0\0\0\x01\0\0\0\x01", None),
        (
            b"\x56\x01\x0b\x02\x01\x01\0\0\0\x01\0\0\0\x01\xff",
            Some(14),
        ),
        (b"\x56\x01\x0b\x02\x01\x01\0\0\0\x01\0\0\0", Some(13)),
    ];
    for (bytes, at) in cases {
        assert!(rt; place(rt.alloc(), bytes) == Ok(at), "{bytes:?}");
    }
}

#[test]
fn copies_are_refused_at_their_places(rt: HostRuntime) {
    assert!(rt; rows_answered(rt.alloc(), COPIES) == Ok(8));
}

#[test]
fn frames_of_the_second_version_have_their_answers(rt: HostRuntime) {
    assert!(rt; rows_answered(rt.alloc(), SECOND) == Ok(34));
}

#[test]
fn lists_are_refused_where_none_ascends_any_more(rt: HostRuntime) {
    assert!(rt; rows_answered(rt.alloc(), LISTS) == Ok(9));
}

/// The sender, the receiver and the number of a frame that says that a number is spent.
fn spent_in(frame: &Frame) -> Option<(u8, u8, u64)> {
    match &frame.body {
        Body::Reply(Answer::Spent { number }) => Some((frame.from, frame.to, *number)),
        _ => None,
    }
}

/// The same for the frame that has these bytes.
fn spent_again(alloc: Global, bytes: &[u8]) -> Option<(u8, u8, u64)> {
    let frame = decode(alloc, bytes).ok()?;
    spent_in(&frame)
}

#[test]
fn what_was_encoded_is_decoded(rt: HostRuntime) {
    let bytes = encoded(rt.alloc(), 258).expect(&rt, "memory");
    assert!(rt; spent_again(rt.alloc(), bytes.as_slice()) == Some((16, 0, 258)));
}

#[test]
fn a_copy_is_the_same_frame(rt: HostRuntime) {
    let tick = Frame::of(0, 1, Body::Tick);
    let copy = tick.copy_of().expect(&rt, "memory");
    assert!(rt;
        copy.version == 2 && copy.from == 0 && copy.to == 1 && matches!(copy.body, Body::Tick)
    );
}
