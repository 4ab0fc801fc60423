//! Reading frames.

ghost use Rattle.vp_text.specs.Meaning.{Answers};
ghost use Rattle.vp_text.specs.Reading.{Reads, Tries, whole};
ghost use Rattle.vp_base.specs.Faults.{line_left};
ghost use Rattle.vp_wire.specs.Faults.{wire_place};
ghost use Rattle.vp_wire.specs.Frames.{body_at, coded_answer_at, coded_call_at, frame_at, least_from, least_to, most_from, most_to};
ghost use Rattle.vp_wire.specs.Grammar.{IsSpelling};
ghost use Rattle.vp_wire.specs.Kinds.{answer_kind, call_kind};
ghost use Rattle.vp_bytes.specs.Codes.{code_at};
ghost use Rattle.vp_bytes.specs.Reading.{byte_at, within};

use crate::fault::WireFault;
use crate::frame::{Body, Frame};
use crate::kind::{AnswerKind, CallKind, FrameKind};
use crate::read_answers::read_answer;
use crate::read_calls::read_call;
use crate::read_messages::read_message;
use std::alloc::Global;
use vp_base::{LAST_SITE, LineFault};
use vp_bytes::{read_byte, read_coded};
use vp_contents::Version;
use vp_text::{Cursor, Unexpected};

/// Decodes a frame. `BadFrame` says how many of the bytes begin one.
pub fn decode(alloc: Global, bytes: &[u8]) -> Result<Frame, WireFault>
    ensures { Answers IsSpelling (λ f. f) wire_place bytes.now result }
{
    let mut cursor = Cursor::new(bytes);
    match read_whole(alloc, &mut cursor) {
        Ok(frame) => Ok(frame),
        Err(LineFault::NoMemory) => Err(WireFault::NoMemory),
        Err(LineFault::Unexpected(e)) => Err(WireFault::BadFrame {
            at: bytes.len() - e.left,
        }),
    }
}

fn read_whole(alloc: Global, cursor: &mut Cursor) -> Result<Frame, LineFault>
    ensures { Tries (λ f. f) line_left result cursor.new (whole frame_at cursor.old) }
{
    let frame = read_frame(alloc, cursor)?;
    cursor.end()?;
    Ok(frame)
}

#[tactic(auto, unfolding(crate::specs::Frames::frame_at))]
fn read_frame(alloc: Global, cursor: &mut Cursor) -> Result<Frame, LineFault>
    ensures { Tries (λ f. f) line_left result cursor.new (frame_at cursor.old) }
{
    read_byte(cursor, 0x56, 0x56)?;
    let version = read_byte(cursor, 1, 2)?;
    let kind: FrameKind = read_coded(cursor)?;
    let from = read_from(cursor, kind)?;
    let to = read_to(cursor, kind)?;
    let body = read_body(alloc, cursor, Version::of(version), kind)?;
    Ok(Frame {
        version,
        from,
        to,
        body,
    })
}

/// Reads the number of the sender: from 1 to 16, or 0 where frames of the kind come from a client.
fn read_from(cursor: &mut Cursor, kind: FrameKind) -> Result<u8, Unexpected>
    ensures { Reads (λ x. x) (λ e. e.left) result cursor.new
        (byte_at (within (least_from kind) (most_from kind)) cursor.old) }
{
    match kind {
        FrameKind::Message(_) | FrameKind::Reply => read_byte(cursor, 1, LAST_SITE),
        FrameKind::Call | FrameKind::Tick | FrameKind::ProbeNow | FrameKind::Stop => read_byte(
            cursor, 0, 0,
        ),
    }
}

/// Reads the number of the receiver: from 1 to 16, or 0 where frames of the kind go to a client.
fn read_to(cursor: &mut Cursor, kind: FrameKind) -> Result<u8, Unexpected>
    ensures { Reads (λ x. x) (λ e. e.left) result cursor.new
        (byte_at (within (least_to kind) (most_to kind)) cursor.old) }
{
    match kind {
        FrameKind::Reply => read_byte(cursor, 0, 0),
        FrameKind::Message(_)
        | FrameKind::Call
        | FrameKind::Tick
        | FrameKind::ProbeNow
        | FrameKind::Stop => { read_byte(cursor, 1, LAST_SITE) }
    }
}

#[tactic(auto, unfolding(crate::specs::Frames::body_at))]
fn read_body(
    alloc: Global,
    cursor: &mut Cursor,
    version: Version,
    kind: FrameKind,
) -> Result<Body, LineFault>
    ensures { Tries (λ b. b) line_left result cursor.new (body_at version kind cursor.old) }
{
    match kind {
        FrameKind::Message(kind) => {
            let message = read_message(alloc, cursor, version, kind)?;
            Ok(Body::Message(message))
        }
        FrameKind::Call => read_coded_call(alloc, cursor, version),
        FrameKind::Reply => read_coded_answer(alloc, cursor, version),
        FrameKind::Tick => Ok(Body::Tick),
        FrameKind::ProbeNow => Ok(Body::ProbeNow),
        FrameKind::Stop => Ok(Body::Stop),
    }
}

#[tactic(auto, unfolding(crate::specs::Frames::coded_call_at))]
fn read_coded_call(alloc: Global, cursor: &mut Cursor, version: Version) -> Result<Body, LineFault>
    ensures { Tries (λ b. b) line_left result cursor.new (coded_call_at version cursor.old) }
{
    let kind = read_call_kind(cursor, version)?;
    let call = read_call(alloc, cursor, version, kind)?;
    Ok(Body::Call(call))
}

/// Reads the code of a call that the version has.
fn read_call_kind(cursor: &mut Cursor, version: Version) -> Result<CallKind, Unexpected>
    ensures { Reads (λ k. k) (λ e. e.left) result cursor.new (code_at (call_kind version) cursor.old) }
{
    let rest = cursor.rest();
    if rest.is_empty() {
        return Err(Unexpected { left: 0 });
    }
    match CallKind::of(version, rest[0]) {
        Some(kind) => {
            cursor.advance(1);
            Ok(kind)
        }
        None => Err(Unexpected { left: rest.len() }),
    }
}

#[tactic(auto, unfolding(crate::specs::Frames::coded_answer_at))]
fn read_coded_answer(
    alloc: Global,
    cursor: &mut Cursor,
    version: Version,
) -> Result<Body, LineFault>
    ensures { Tries (λ b. b) line_left result cursor.new (coded_answer_at version cursor.old) }
{
    let kind = read_answer_kind(cursor, version)?;
    let answer = read_answer(alloc, cursor, version, kind)?;
    Ok(Body::Reply(answer))
}

/// Reads the code of an answer that the version has.
fn read_answer_kind(cursor: &mut Cursor, version: Version) -> Result<AnswerKind, Unexpected>
    ensures { Reads (λ k. k) (λ e. e.left) result cursor.new (code_at (answer_kind version) cursor.old) }
{
    let rest = cursor.rest();
    if rest.is_empty() {
        return Err(Unexpected { left: 0 });
    }
    match AnswerKind::of(version, rest[0]) {
        Some(kind) => {
            cursor.advance(1);
            Ok(kind)
        }
        None => Err(Unexpected { left: rest.len() }),
    }
}
