//! The datagrams of the effects of a step.

ghost use Rattle.std.specs.Prelude.{◌≡◌, ◌++◌, ◌∷◌, [], IfOk, OnOk, map, flat_map};
ghost use Rattle.std.specs.List.{AllByRecursion};
ghost use Rattle.vp_laws.specs.ShapeLaws.{message_frame, reply_frame};
ghost use Rattle.vp_runs.specs.Turns.{message_datagram, reply_datagram, datagrams_of};
ghost use Rattle.vp_node.specs.Taking.{AreFrames};
ghost use Rattle.vp_wire.specs.Grammar.{IsFrame};

use bytes::BytesMut;
use std::alloc::Global;
use vp_base::{Effects, NoMemory, Reply, Sent, SiteId};
use vp_catalog::Catalog;
use vp_outside::{Datagram, Datagrams};
use vp_wire::{encode_message, encode_reply};

/// Room for a frame of most kinds, in bytes.
const ROOM: usize = 64;

/// Room for one of many frames, most of which are short, in bytes.
const LEAST_ROOM: usize = 16;

/// Makes room for so many frames.
fn room_for(alloc: Global, frames: usize) -> Result<BytesMut, NoMemory>
    ensures { IfOk result (λ room. room.items ≡ []) }
{
    let room = match frames {
        0 => 0,
        _ => frames.saturating_mul(LEAST_ROOM).max(ROOM),
    };
    Ok(BytesMut::with_capacity(alloc, room)?)
}

/// Makes a datagram to the port of what is in the room, which is empty then.
fn datagram_to(port: u16, room: &mut BytesMut) -> Result<Datagram, NoMemory>
    ensures datagram { IfOk result (λ datagram. datagram ≡ record { port = port; bytes = room.old.items }) }
    ensures empty { OnOk result (room.new.items ≡ []) }
{
    Ok(Datagram {
        port,
        bytes: room.freeze_to(room.len())?,
    })
}

/// Adds the message's datagram to the others; a message to a site that the catalogue lacks has none.
fn put_message(
    catalog: &Catalog,
    sent: &Sent,
    room: &mut BytesMut,
    datagrams: &mut Datagrams,
) -> Result<(), NoMemory>
    requires frame { IsFrame (message_frame sent.now) }
    requires empty { room.old.items ≡ [] }
    ensures datagram { OnOk result (datagrams.new ≡ datagrams.old ++ message_datagram catalog.now sent.now) }
    ensures empty { OnOk result (room.new.items ≡ []) }
{
    let Some(port) = catalog.port(sent.to) else {
        return Ok(());
    };
    encode_message(sent.from, sent.to, &sent.message, room)?;
    datagrams.push(datagram_to(port, room)?)
}

/// Adds the datagrams of the messages to the others.
fn put_messages(
    catalog: &Catalog,
    messages: &[Sent],
    room: &mut BytesMut,
    datagrams: &mut Datagrams,
) -> Result<(), NoMemory>
    requires frames { AllByRecursion (λ sent. IsFrame (message_frame sent)) messages.now }
    requires empty { room.old.items ≡ [] }
    ensures datagrams { OnOk result
        (datagrams.new ≡ datagrams.old ++ flat_map (message_datagram catalog.now) messages.now) }
    ensures empty { OnOk result (room.new.items ≡ []) }
{
    for sent in messages {
        put_message(catalog, sent, room, datagrams)?;
    }
    Ok(())
}

/// Adds the reply's datagram to the others.
fn put_reply(
    id: SiteId,
    reply: &Reply,
    room: &mut BytesMut,
    datagrams: &mut Datagrams,
) -> Result<(), NoMemory>
    requires frame { IsFrame (reply_frame id reply.now) }
    requires empty { room.old.items ≡ [] }
    ensures datagram { OnOk result (datagrams.new ≡ datagrams.old ++ reply_datagram id reply.now ∷ []) }
    ensures empty { OnOk result (room.new.items ≡ []) }
{
    encode_reply(id, &reply.answer, room)?;
    datagrams.push(datagram_to(reply.to, room)?)
}

/// Adds the datagrams of the replies to the others.
fn put_replies(
    id: SiteId,
    replies: &[Reply],
    room: &mut BytesMut,
    datagrams: &mut Datagrams,
) -> Result<(), NoMemory>
    requires frames { AllByRecursion (λ reply. IsFrame (reply_frame id reply)) replies.now }
    requires empty { room.old.items ≡ [] }
    ensures datagrams { OnOk result (datagrams.new ≡ datagrams.old ++ map (reply_datagram id) replies.now) }
    ensures empty { OnOk result (room.new.items ≡ []) }
{
    for reply in replies {
        put_reply(id, reply, room, datagrams)?;
    }
    Ok(())
}

/// Encodes the messages of a step, and after them its replies, as datagrams. Their bytes are in one block, as far as there is room.
#[tactic(auto, unfolding(vp_runs::specs::Turns::datagrams_of))]
pub fn datagrams_of(catalog: &Catalog, id: SiteId, effects: &Effects) -> Result<Datagrams, NoMemory>
    requires frames { AreFrames id effects.now }
    ensures { IfOk result (λ it. it ≡ datagrams_of catalog.now id effects.now) }
{
    let alloc = catalog.sites().allocator();
    let messages = effects.messages.as_slice();
    let replies = effects.replies.as_slice();
    let mut datagrams = Datagrams::new(alloc);
    let frames = messages.len().saturating_add(replies.len());
    let mut room = room_for(alloc, frames)?;
    put_messages(catalog, messages, &mut room, &mut datagrams)?;
    put_replies(id, replies, &mut room, &mut datagrams)?;
    Ok(datagrams)
}
