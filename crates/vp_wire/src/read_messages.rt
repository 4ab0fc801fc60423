//! Reading the fields of messages. Where both versions have the same fields, what is read is said for the second.

ghost use Rattle.std.specs.Prelude.{◌≡◌, IfOk};
ghost use Rattle.vp_text.specs.Reading.{Reads, Tries};
ghost use Rattle.vp_base.specs.Faults.{line_left};
ghost use Rattle.vp_wire.specs.declared.kind.MessageKind.TheVariants as kinds;
ghost use Rattle.vp_wire.specs.Messages.{last_mark, message_at, obstacle_at};
ghost use Rattle.vp_contents.specs.declared.version.Version.TheVariants as versions;

use crate::kind::MessageKind;
use std::alloc::Global;
use vp_base::{Boxed, LineFault, Message, NoMemory, Obstacle, Value};
use vp_bytes::{
    read_byte, read_maybe_view, read_numbered, read_outcome, read_owner, read_rec, read_recs,
    read_request, read_sites, read_txn, read_u32, read_view,
};
use vp_contents::{Version, read_content, read_stored, read_writes};
use vp_text::{Cursor, Unexpected};

/// Reads the fields of a message of this kind.
#[tactic(auto, unfolding(crate::specs::Messages::message_at))]
pub fn read_message(
    alloc: Global,
    cursor: &mut Cursor,
    version: Version,
    kind: MessageKind,
) -> Result<Message, LineFault>
    ensures { Tries (λ m. m) line_left result cursor.new (message_at version kind cursor.old) }
{
    match kind {
        MessageKind::Invite => read_invite(cursor),
        MessageKind::Accept => read_accept(cursor),
        MessageKind::Stale => read_stale(cursor),
        MessageKind::ViewCommit => read_view_commit(alloc, cursor),
        MessageKind::ReadRequest => read_read_request(cursor),
        MessageKind::ReadAnswer => read_read_answer(alloc, cursor, version),
        MessageKind::WriteRequest => read_write_request(cursor),
        MessageKind::WriteAnswer => read_write_answer(cursor),
        MessageKind::Refuse => read_refuse(cursor, version),
        MessageKind::Prepare => read_prepare(alloc, cursor, version),
        MessageKind::Vote => read_vote(cursor),
        MessageKind::Outcome => read_decision(cursor),
        MessageKind::Ack => read_ack(cursor),
        MessageKind::Inquire => read_inquire(cursor),
        MessageKind::RefreshRequest => read_refresh_request(cursor),
        MessageKind::RefreshAnswer => read_refresh_answer(alloc, cursor, version),
        MessageKind::Probe => read_probe(cursor),
    }
}

#[tactic(auto, unfolding(crate::specs::Messages::message_at))]
fn read_invite(cursor: &mut Cursor) -> Result<Message, LineFault>
    ensures { Tries (λ m. m) line_left result cursor.new (message_at versions.Second kinds.Invite cursor.old) }
{
    let id = read_view(cursor)?;
    Ok(Message::Invite { id })
}

#[tactic(auto, unfolding(crate::specs::Messages::message_at))]
fn read_accept(cursor: &mut Cursor) -> Result<Message, LineFault>
    ensures { Tries (λ m. m) line_left result cursor.new (message_at versions.Second kinds.Accept cursor.old) }
{
    let id = read_view(cursor)?;
    Ok(Message::Accept { id })
}

#[tactic(auto, unfolding(crate::specs::Messages::message_at))]
fn read_stale(cursor: &mut Cursor) -> Result<Message, LineFault>
    ensures { Tries (λ m. m) line_left result cursor.new (message_at versions.Second kinds.Stale cursor.old) }
{
    let id = read_view(cursor)?;
    let promise = read_view(cursor)?;
    Ok(Message::Stale { id, promise })
}

#[tactic(auto, unfolding(crate::specs::Messages::message_at))]
fn read_view_commit(alloc: Global, cursor: &mut Cursor) -> Result<Message, LineFault>
    ensures { Tries (λ m. m) line_left result cursor.new (message_at versions.Second kinds.ViewCommit cursor.old) }
{
    let id = read_view(cursor)?;
    let members = read_sites(alloc, cursor, 1)?;
    Ok(Message::ViewCommit { id, members })
}

#[tactic(auto, unfolding(crate::specs::Messages::message_at))]
fn read_read_request(cursor: &mut Cursor) -> Result<Message, LineFault>
    ensures { Tries (λ m. m) line_left result cursor.new (message_at versions.Second kinds.ReadRequest cursor.old) }
{
    let (txn, view, number) = read_request(cursor)?;
    let rec = read_rec(cursor)?;
    Ok(Message::ReadRequest {
        txn,
        view,
        number,
        rec,
    })
}

#[tactic(auto, unfolding(crate::specs::Messages::message_at))]
fn read_read_answer(
    alloc: Global,
    cursor: &mut Cursor,
    version: Version,
) -> Result<Message, LineFault>
    ensures { Tries (λ m. m) line_left result cursor.new (message_at version kinds.ReadAnswer cursor.old) }
{
    let (txn, number) = read_numbered(cursor)?;
    let value = boxed(alloc, read_content(alloc, cursor, version)?)?;
    Ok(Message::ReadAnswer { txn, number, value })
}

#[tactic(auto, unfolding(crate::specs::Messages::message_at))]
fn read_write_request(cursor: &mut Cursor) -> Result<Message, LineFault>
    ensures { Tries (λ m. m) line_left result cursor.new (message_at versions.Second kinds.WriteRequest cursor.old) }
{
    let (txn, view, number) = read_request(cursor)?;
    let rec = read_rec(cursor)?;
    Ok(Message::WriteRequest {
        txn,
        view,
        number,
        rec,
    })
}

#[tactic(auto, unfolding(crate::specs::Messages::message_at))]
fn read_write_answer(cursor: &mut Cursor) -> Result<Message, LineFault>
    ensures { Tries (λ m. m) line_left result cursor.new (message_at versions.Second kinds.WriteAnswer cursor.old) }
{
    let (txn, number) = read_numbered(cursor)?;
    Ok(Message::WriteAnswer { txn, number })
}

/// The content with its value in a box.
fn boxed(alloc: Global, content: Option<Value>) -> Result<Option<Boxed<Value>>, NoMemory>
    ensures { IfOk result (λ boxed. boxed ≡ content) }
{
    match content {
        None => Ok(None),
        Some(value) => Ok(Some(Boxed::new(alloc, value)?)),
    }
}

/// Reads why a site refuses a request.
#[tactic(auto, unfolding(crate::specs::Messages::obstacle_at))]
fn read_obstacle(cursor: &mut Cursor, version: Version) -> Result<Obstacle, Unexpected>
    ensures { Reads (λ o. o) (λ e. e.left) result cursor.new (obstacle_at version cursor.old) }
{
    let mark = read_byte(cursor, 1, last_mark_of(version))?;
    if mark == 1 {
        let owner = read_owner(cursor)?;
        return Ok(Obstacle::Held { owner });
    }
    if mark == 2 {
        let now = read_maybe_view(cursor)?;
        return Ok(Obstacle::OtherView { now });
    }
    let inside = read_u32(cursor)?;
    let total = read_u32(cursor)?;
    Ok(Obstacle::Barred { inside, total })
}

/// The greatest mark of an obstacle.
fn last_mark_of(version: Version) -> u8
    ensures { result ≡ last_mark version }
{
    match version {
        Version::First => 2,
        Version::Second => 3,
    }
}

#[tactic(auto, unfolding(crate::specs::Messages::message_at))]
fn read_refuse(cursor: &mut Cursor, version: Version) -> Result<Message, LineFault>
    ensures { Tries (λ m. m) line_left result cursor.new (message_at version kinds.Refuse cursor.old) }
{
    let (txn, number) = read_numbered(cursor)?;
    let why = read_obstacle(cursor, version)?;
    Ok(Message::Refuse { txn, number, why })
}

#[tactic(auto, unfolding(crate::specs::Messages::message_at))]
fn read_prepare(alloc: Global, cursor: &mut Cursor, version: Version) -> Result<Message, LineFault>
    ensures { Tries (λ m. m) line_left result cursor.new (message_at version kinds.Prepare cursor.old) }
{
    let (txn, view, number) = read_request(cursor)?;
    let reads = Boxed::new(alloc, read_recs(alloc, cursor)?)?;
    let writes = Boxed::new(alloc, read_writes(alloc, cursor, version)?)?;
    Ok(Message::Prepare {
        txn,
        view,
        number,
        reads,
        writes,
    })
}

#[tactic(auto, unfolding(crate::specs::Messages::message_at))]
fn read_vote(cursor: &mut Cursor) -> Result<Message, LineFault>
    ensures { Tries (λ m. m) line_left result cursor.new (message_at versions.Second kinds.Vote cursor.old) }
{
    let txn = read_txn(cursor)?;
    Ok(Message::Vote { txn })
}

#[tactic(auto, unfolding(crate::specs::Messages::message_at))]
fn read_decision(cursor: &mut Cursor) -> Result<Message, LineFault>
    ensures { Tries (λ m. m) line_left result cursor.new (message_at versions.Second kinds.Outcome cursor.old) }
{
    let txn = read_txn(cursor)?;
    let commit = read_outcome(cursor)?;
    Ok(Message::Outcome { txn, commit })
}

#[tactic(auto, unfolding(crate::specs::Messages::message_at))]
fn read_ack(cursor: &mut Cursor) -> Result<Message, LineFault>
    ensures { Tries (λ m. m) line_left result cursor.new (message_at versions.Second kinds.Ack cursor.old) }
{
    let txn = read_txn(cursor)?;
    Ok(Message::Ack { txn })
}

#[tactic(auto, unfolding(crate::specs::Messages::message_at))]
fn read_inquire(cursor: &mut Cursor) -> Result<Message, LineFault>
    ensures { Tries (λ m. m) line_left result cursor.new (message_at versions.Second kinds.Inquire cursor.old) }
{
    let txn = read_txn(cursor)?;
    Ok(Message::Inquire { txn })
}

#[tactic(auto, unfolding(crate::specs::Messages::message_at))]
fn read_refresh_request(cursor: &mut Cursor) -> Result<Message, LineFault>
    ensures { Tries (λ m. m) line_left result cursor.new (message_at versions.Second kinds.RefreshRequest cursor.old) }
{
    let view = read_view(cursor)?;
    let rec = read_rec(cursor)?;
    Ok(Message::RefreshRequest { view, rec })
}

#[tactic(auto, unfolding(crate::specs::Messages::message_at))]
fn read_refresh_answer(
    alloc: Global,
    cursor: &mut Cursor,
    version: Version,
) -> Result<Message, LineFault>
    ensures { Tries (λ m. m) line_left result cursor.new (message_at version kinds.RefreshAnswer cursor.old) }
{
    let view = read_view(cursor)?;
    let rec = read_rec(cursor)?;
    let stored = Boxed::new(alloc, read_stored(alloc, cursor, version)?)?;
    Ok(Message::RefreshAnswer { view, rec, stored })
}

#[tactic(auto, unfolding(crate::specs::Messages::message_at))]
fn read_probe(cursor: &mut Cursor) -> Result<Message, LineFault>
    ensures { Tries (λ m. m) line_left result cursor.new (message_at versions.Second kinds.Probe cursor.old) }
{
    let view = read_view(cursor)?;
    Ok(Message::Probe { view })
}
