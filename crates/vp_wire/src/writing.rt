//! Writing frames.

ghost use Rattle.std.specs.Prelude.{◌≡◌, ◌++◌, ◌∷◌, []};
ghost use Rattle.vp_text.specs.Printing.{Appends};
ghost use Rattle.vp_bytes.specs.Fields.{IsSites, IsRecs, view_bytes, txn_bytes, counted_bytes, number_bytes, numbered_bytes, request_bytes};
ghost use Rattle.vp_contents.specs.Versions.{version_of};
ghost use Rattle.vp_contents.specs.Contents.{IsContent, content_bytes};
ghost use Rattle.vp_contents.specs.Changes.{IsWrites, writes_bytes};
ghost use Rattle.vp_contents.specs.Copies.{IsStored, copy_bytes};
ghost use Rattle.vp_contents.specs.declared.version.Version.TheVariants as versions;
ghost use Rattle.vp_wire.specs.Grammar.{IsMessage, IsFrame, message_fields, fields, frame_of, frame_bytes, obstacle_bytes};
ghost use Rattle.vp_wire.specs.Kinds.{frame_code};
ghost use Rattle.vp_wire.specs.declared.frame.Body.TheVariants as body;

use crate::answers::put_answer;
use crate::calls::put_call;
use crate::frame::{Body, Frame, SENT};
use crate::kind::{FrameKind, MessageKind};
use bytes::{BufMut, BytesMut};
use vp_base::{
    Answer, Boxed, Call, CallNo, Change, Message, NoMemory, Obstacle, RecId, SiteId, Stored, TxnId,
    Value, ViewId,
};
use vp_bytes::{
    put_byte, put_maybe_view, put_numbered, put_outcome, put_owner, put_recs, put_request,
    put_sites, put_txn, put_u32, put_view,
};
use vp_contents::{Version, put_absent, put_copy, put_present, put_writes};

/// Appends the frame in the only encoding that it has in its version. After want of memory a beginning of it has been appended, and nothing else changed.
#[tactic(auto, using(vp_bytes::proofs::Writing::writing))]
pub fn encode(frame: &Frame, out: &mut BytesMut) -> Result<(), NoMemory>
    requires { IsFrame frame.now }
    ensures { Appends result out.old.items (frame_bytes frame.now) out.new.items }
{
    put_head(
        out,
        frame.version,
        FrameKind::of_body(&frame.body),
        frame.from,
        frame.to,
    )?;
    put_fields(out, frame)
}

/// Like `encode`, for the frame of a message from site to site, which is sent in version 2; it takes the message by reference.
#[tactic(auto, using(vp_bytes::proofs::Writing::writing))]
pub fn encode_message(
    from: SiteId,
    to: SiteId,
    message: &Message,
    out: &mut BytesMut,
) -> Result<(), NoMemory>
    requires { IsFrame (frame_of from to (body.Message message.now)) }
    ensures { Appends result out.old.items (frame_bytes (frame_of from to (body.Message message.now)))
        out.new.items }
{
    let kind = FrameKind::Message(MessageKind::of_message(message));
    put_head(out, SENT, kind, from.get(), to.get())?;
    put_message(out, Version::Second, message)
}

/// Like `encode`, for the frame of an answer from a site to its client, which is sent in version 2; it takes the answer by
/// reference.
#[tactic(auto, using(vp_bytes::proofs::Writing::writing))]
pub fn encode_reply(from: SiteId, answer: &Answer, out: &mut BytesMut) -> Result<(), NoMemory>
    requires { IsFrame (frame_of from 0 (body.Reply answer.now)) }
    ensures { Appends result out.old.items (frame_bytes (frame_of from 0 (body.Reply answer.now)))
        out.new.items }
{
    put_head(out, SENT, FrameKind::Reply, from.get(), 0)?;
    put_answer(out, Version::Second, answer)
}

/// Like `encode`, for the frame of a client's call to a site, which is sent in version 2; it takes the call by reference.
#[tactic(auto, using(vp_bytes::proofs::Writing::writing))]
pub fn encode_call(to: SiteId, call: &Call, out: &mut BytesMut) -> Result<(), NoMemory>
    requires { IsFrame (frame_of 0 to (body.Call call.now)) }
    ensures { Appends result out.old.items (frame_bytes (frame_of 0 to (body.Call call.now))) out.new.items }
{
    put_head(out, SENT, FrameKind::Call, 0, to.get())?;
    put_call(out, Version::Second, call)
}

/// Appends what every frame begins with: its version, the byte of its kind, the sender and the receiver.
#[tactic(auto, using(vp_bytes::proofs::Writing::writing))]
fn put_head(
    out: &mut BytesMut,
    version: u8,
    kind: FrameKind,
    from: u8,
    to: u8,
) -> Result<(), NoMemory>
    ensures { Appends result out.old.items (86 ∷ version ∷ frame_code kind ∷ from ∷ to ∷ []) out.new.items }
{
    out.put_slice(&[0x56, version, kind.code(), from, to])?;
    Ok(())
}

#[tactic(auto, using(vp_bytes::proofs::Writing::writing))]
fn put_fields(out: &mut BytesMut, frame: &Frame) -> Result<(), NoMemory>
    requires { IsFrame frame.now }
    ensures { Appends result out.old.items (fields (version_of frame.now.version) frame.now.body) out.new.items }
{
    let version = Version::of(frame.version);
    match &frame.body {
        Body::Message(message) => put_message(out, version, message),
        Body::Call(call) => put_call(out, version, call),
        Body::Reply(answer) => put_answer(out, version, answer),
        Body::Tick | Body::ProbeNow | Body::Stop => Ok(()),
    }
}

#[tactic(auto, using(vp_bytes::proofs::Writing::writing))]
fn put_message(out: &mut BytesMut, version: Version, message: &Message) -> Result<(), NoMemory>
    requires { IsMessage version message.now }
    ensures { Appends result out.old.items (message_fields version message.now) out.new.items }
{
    match message {
        Message::Invite { id } => put_view(out, id),
        Message::Accept { id } => put_view(out, id),
        Message::Stale { id, promise } => put_two_views(out, id, promise),
        Message::ViewCommit { id, members } => put_members(out, id, members.as_slice()),
        Message::ReadRequest {
            txn,
            view,
            number,
            rec,
        } => put_lock_request(out, txn, view, *number, *rec),
        Message::ReadAnswer { txn, number, value } => {
            put_read_answer(out, version, txn, *number, value)
        }
        Message::WriteRequest {
            txn,
            view,
            number,
            rec,
        } => put_lock_request(out, txn, view, *number, *rec),
        Message::WriteAnswer { txn, number } => put_numbered(out, txn, *number),
        Message::Refuse { txn, number, why } => put_refuse(out, txn, *number, why),
        Message::Prepare {
            txn,
            view,
            number,
            reads,
            writes,
        } => put_prepare(
            out,
            version,
            txn,
            view,
            *number,
            reads.as_ref().as_slice(),
            writes.as_ref().as_slice(),
        ),
        Message::Vote { txn } => put_txn(out, txn),
        Message::Outcome { txn, commit } => put_outcome(out, txn, *commit),
        Message::Ack { txn } => put_txn(out, txn),
        Message::Inquire { txn } => put_txn(out, txn),
        Message::RefreshRequest { view, rec } => put_refresh_request(out, view, *rec),
        Message::RefreshAnswer { view, rec, stored } => {
            put_refresh_answer(out, version, view, *rec, stored.as_ref())
        }
        Message::Probe { view } => put_view(out, view),
    }
}

#[tactic(auto, using(vp_bytes::proofs::Writing::writing))]
fn put_two_views(out: &mut BytesMut, a: &ViewId, b: &ViewId) -> Result<(), NoMemory>
    ensures { Appends result out.old.items (view_bytes a.now ++ view_bytes b.now) out.new.items }
{
    put_view(out, a)?;
    put_view(out, b)
}

#[tactic(auto, using(vp_bytes::proofs::Writing::writing))]
fn put_members(out: &mut BytesMut, id: &ViewId, members: &[SiteId]) -> Result<(), NoMemory>
    requires { IsSites 1 members.now }
    ensures { Appends result out.old.items (view_bytes id.now ++ counted_bytes members.now) out.new.items }
{
    put_view(out, id)?;
    put_sites(out, members)
}

#[tactic(auto, using(vp_bytes::proofs::Writing::writing))]
fn put_lock_request(
    out: &mut BytesMut,
    txn: &TxnId,
    view: &ViewId,
    number: CallNo,
    rec: RecId,
) -> Result<(), NoMemory>
    ensures { Appends result out.old.items (request_bytes txn.now view.now number ++ rec ∷ []) out.new.items }
{
    put_request(out, txn, view, number)?;
    put_byte(out, rec.get())
}

#[tactic(auto, using(vp_bytes::proofs::Writing::writing))]
fn put_obstacle(out: &mut BytesMut, why: &Obstacle) -> Result<(), NoMemory>
    ensures { Appends result out.old.items (obstacle_bytes why.now) out.new.items }
{
    match why {
        Obstacle::Held { owner } => {
            put_byte(out, 1)?;
            put_owner(out, owner)
        }
        Obstacle::OtherView { now } => {
            put_byte(out, 2)?;
            put_maybe_view(out, now)
        }
        Obstacle::Barred { inside, total } => put_bar(out, *inside, *total),
    }
}

#[tactic(auto, using(vp_bytes::proofs::Writing::writing))]
fn put_bar(out: &mut BytesMut, inside: u32, total: u32) -> Result<(), NoMemory>
    ensures { Appends result out.old.items (3 ∷ (number_bytes 4 inside ++ number_bytes 4 total)) out.new.items }
{
    put_byte(out, 3)?;
    put_u32(out, inside)?;
    put_u32(out, total)
}

#[tactic(auto, using(vp_bytes::proofs::Writing::writing))]
fn put_refuse(
    out: &mut BytesMut,
    txn: &TxnId,
    number: CallNo,
    why: &Obstacle,
) -> Result<(), NoMemory>
    ensures { Appends result out.old.items (numbered_bytes txn.now number ++ obstacle_bytes why.now)
        out.new.items }
{
    put_numbered(out, txn, number)?;
    put_obstacle(out, why)
}

#[tactic(auto, using(vp_bytes::proofs::Writing::writing))]
fn put_read_answer(
    out: &mut BytesMut,
    version: Version,
    txn: &TxnId,
    number: CallNo,
    content: &Option<Boxed<Value>>,
) -> Result<(), NoMemory>
    requires { IsContent version content.now }
    ensures { Appends result out.old.items (numbered_bytes txn.now number ++ content_bytes version content.now)
        out.new.items }
{
    put_numbered(out, txn, number)?;
    match content {
        None => put_absent(out, version),
        Some(value) => put_present(out, version, value.as_ref()),
    }
}

#[tactic(auto, using(vp_bytes::proofs::Writing::writing))]
fn put_prepare(
    out: &mut BytesMut,
    version: Version,
    txn: &TxnId,
    view: &ViewId,
    number: CallNo,
    reads: &[RecId],
    writes: &[(RecId, Change)],
) -> Result<(), NoMemory>
    requires reads { IsRecs reads.now }
    requires writes { IsWrites version writes.now }
    ensures { Appends result out.old.items
        (request_bytes txn.now view.now number ++ (counted_bytes reads.now ++ writes_bytes version writes.now))
        out.new.items }
{
    put_request(out, txn, view, number)?;
    put_recs(out, reads)?;
    put_writes(out, version, writes)
}

/// Appends the fields of a request for a refresh. Most messages of a large run are such requests, so the fields are appended all at
/// once.
#[tactic(auto, using(vp_bytes::proofs::Writing::writing), unfolding(vp_bytes::specs::Fields::view_bytes, vp_bytes::specs::Fields::number_bytes))]
fn put_refresh_request(out: &mut BytesMut, view: &ViewId, rec: RecId) -> Result<(), NoMemory>
    ensures { Appends result out.old.items (view_bytes view.now ++ rec ∷ []) out.new.items }
{
    let [a, b, c, d, e, f, g, h] = view.number.to_be_bytes();
    out.put_slice(&[a, b, c, d, e, f, g, h, view.site, rec.get()])?;
    Ok(())
}

#[tactic(auto, using(vp_bytes::proofs::Writing::writing))]
fn put_refresh_answer(
    out: &mut BytesMut,
    version: Version,
    view: &ViewId,
    rec: RecId,
    stored: &Stored,
) -> Result<(), NoMemory>
    requires { IsStored version stored.now }
    ensures { Appends result out.old.items (view_bytes view.now ++ copy_bytes version (rec, stored.now))
        out.new.items }
{
    put_view(out, view)?;
    put_copy(out, version, rec, stored)
}
