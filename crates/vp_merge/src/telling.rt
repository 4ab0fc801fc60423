//! What a step gives, beside what is recorded of it.

ghost use Rattle.std.specs.Prelude.{◌≡◌, ◌+◌, ◌++◌, ◌<◌, ◌^◌, ℕ, List, OnOk, IfOk, length, map};
ghost use Rattle.std.specs.List.{AllByRecursion};
ghost use Rattle.vp_laws.specs.ShapeLaws.{message_frame, reply_frame};
ghost use Rattle.vp_wire.specs.Grammar.{IsFrame, frame_bytes};
ghost use Rattle.vp_fitting.specs.Fitting.{frames_in};
ghost use Rattle.vp_fitting.specs.Merged.{tells};
ghost use Rattle.vp_merge.specs.Numbers.{Notes};
ghost use Rattle.vp_merge.specs.Telling.{agrees, bytes_of, AreFrames, NotesShown};

use crate::comparison::Comparison;
use crate::numbers::FrameNumbers;
use bytes::BytesMut;
use vp_base::{NoMemory, Reply, Sent, Shown, SiteId};
use vp_outside::Datagram;
use vp_wire::{encode_message, encode_reply};

/// Compares the frames of messages, of which the first has this number, and notes their numbers.
fn compare_messages(
    messages: &[Sent],
    first: u32,
    comparison: &mut Comparison,
    numbers: &mut FrameNumbers,
    room: &mut BytesMut,
) -> Result<(), NoMemory>
    requires frames { AllByRecursion (λ sent. IsFrame (message_frame sent)) messages.now }
    requires fits { first + length messages.now < 2 ^ 32 }
    ensures compared { OnOk result ((made : List (List ℕ)) →
        agrees comparison.old (map (λ sent. frame_bytes (message_frame sent)) messages.now ++ made) ≡ agrees comparison.new made) }
    ensures noted { OnOk result (Notes first messages.now numbers.old numbers.new) }
{
    let mut number = first;
    for sent in messages {
        room.clear();
        encode_message(sent.from, sent.to, &sent.message, room)?;
        comparison.compare(room);
        numbers.note(room, number);
        number += 1;
    }
    Ok(())
}

/// Compares the frames of replies.
fn compare_replies(
    site: SiteId,
    replies: &[Reply],
    comparison: &mut Comparison,
    room: &mut BytesMut,
) -> Result<(), NoMemory>
    requires frames { AllByRecursion (λ reply. IsFrame (reply_frame site reply)) replies.now }
    ensures compared { OnOk result ((made : List (List ℕ)) →
        agrees comparison.old (map (λ reply. frame_bytes (reply_frame site reply)) replies.now ++ made) ≡ agrees comparison.new made) }
{
    for reply in replies {
        room.clear();
        encode_reply(site, &reply.answer, room)?;
        comparison.compare(room);
    }
    Ok(())
}

/// Compares the frames of what is shown of an event, and notes the numbers of its messages. What is no step gives nothing.
fn compare_shown(
    site: SiteId,
    shown: &Shown,
    comparison: &mut Comparison,
    numbers: &mut FrameNumbers,
    room: &mut BytesMut,
) -> Result<(), NoMemory>
    requires { AreFrames site shown.now }
    ensures compared { OnOk result ((made : List (List ℕ)) → agrees comparison.old (frames_in site shown.now ++ made) ≡ agrees comparison.new made) }
    ensures noted { OnOk result (NotesShown shown.now numbers.old numbers.new) }
{
    if let Shown::Step {
        first,
        messages,
        replies,
        ..
    } = shown
    {
        compare_messages(messages.as_slice(), *first, comparison, numbers, room)?;
        compare_replies(site, replies.as_slice(), comparison, room)?;
    }
    Ok(())
}

/// Whether what is recorded of the turn is what its step has given; notes the numbers of its messages.
pub fn tells(
    site: SiteId,
    shown: &Shown,
    outs: &[Datagram],
    short: bool,
    numbers: &mut FrameNumbers,
    room: &mut BytesMut,
) -> Result<bool, NoMemory>
    requires { AreFrames site shown.now }
    ensures told { IfOk result (λ told. told ≡ tells short (bytes_of outs.now) (frames_in site shown.now)) }
    ensures noted { OnOk result (NotesShown shown.now numbers.old numbers.new) }
{
    let mut comparison = Comparison {
        outs,
        short,
        alike: true,
    };
    compare_shown(site, shown, &mut comparison, numbers, room)?;
    Ok(comparison.ends_alike())
}
