//! Reading the lines of recordings.

ghost use Rattle.std.specs.Prelude.{◌≡◌, ◌<◌, ◌^◌, ◌-◌};
ghost use Rattle.vp_text.specs.Reading.{Reads, Tries};
ghost use Rattle.vp_base.specs.Faults.{line_left};
ghost use Rattle.vp_recording.specs.Drafts.{life_before};
ghost use Rattle.vp_recording.specs.LineReading as reading;

use crate::byte_store::ByteStore;
use crate::draft::RecordingDraft;
use crate::hex_reading::parse_bytes;
use crate::line::RecordingLine;
use bytes::Bytes;
use vp_base::{LineFault, SiteId};
use vp_catalog::parse_site;
use vp_heads::parse_head;
use vp_text::{Cursor, Unexpected};

/// The line after the catalogue.
pub const KEY: &[u8] = b"recordings\n";

/// Whether the next byte is this one.
fn begins_with(cursor: &Cursor, byte: u8) -> bool
    ensures { result ≡ reading.begins_with byte cursor.now }
{
    match cursor.rest().first() {
        Some(next) => *next == byte,
        None => false,
    }
}

/// A word, a datagram and the end of the line.
#[tactic(auto, unfolding(crate::specs::LineReading::frame_at))]
fn parse_frame(store: &mut ByteStore, cursor: &mut Cursor, word: &[u8]) -> Result<Bytes, LineFault>
    ensures { Tries (λ frame. frame) line_left result cursor.new (reading.frame_at word.now cursor.old) }
{
    cursor.literal(word)?;
    let frame = parse_bytes(store, cursor)?;
    cursor.literal(b"\n")?;
    Ok(frame)
}

/// A word, a number of the range and the end of the line.
#[tactic(auto, unfolding(crate::specs::LineReading::count_at))]
fn parse_count(cursor: &mut Cursor, word: &[u8], least: u32, most: u32) -> Result<u32, Unexpected>
    ensures { Reads (λ n. n) (λ e. e.left) result cursor.new
        (reading.count_at word.now least most cursor.old) }
{
    cursor.literal(word)?;
    let number = cursor.number_u32(least, most)?;
    cursor.literal(b"\n")?;
    Ok(number)
}

#[tactic(auto, unfolding(crate::specs::LineReading::in_at))]
fn parse_in(store: &mut ByteStore, cursor: &mut Cursor) -> Result<RecordingLine, LineFault>
    ensures { Tries (λ line. line) line_left result cursor.new (reading.in_at cursor.old) }
{
    let frame = parse_frame(store, cursor, b"in ")?;
    Ok(RecordingLine::In { frame })
}

#[tactic(auto, unfolding(crate::specs::LineReading::out_at))]
fn parse_out(store: &mut ByteStore, cursor: &mut Cursor) -> Result<RecordingLine, LineFault>
    ensures { Tries (λ line. line) line_left result cursor.new (reading.out_at cursor.old) }
{
    let frame = parse_frame(store, cursor, b"out ")?;
    Ok(RecordingLine::Out { frame })
}

#[tactic(auto, unfolding(crate::specs::LineReading::stray_at))]
fn parse_stray(store: &mut ByteStore, cursor: &mut Cursor) -> Result<RecordingLine, LineFault>
    ensures { Tries (λ line. line) line_left result cursor.new (reading.stray_at cursor.old) }
{
    parse_frame(store, cursor, b"stray ")?;
    Ok(RecordingLine::Stray)
}

#[tactic(auto, unfolding(crate::specs::LineReading::bad_at))]
fn parse_bad(cursor: &mut Cursor) -> Result<RecordingLine, LineFault>
    ensures { Tries (λ line. line) line_left result cursor.new (reading.bad_at cursor.old) }
{
    parse_count(cursor, b"bad ", 0, 16_384)?;
    Ok(RecordingLine::Bad)
}

#[tactic(auto, unfolding(crate::specs::LineReading::start_at))]
fn parse_start(cursor: &mut Cursor, before: u32) -> Result<RecordingLine, LineFault>
    requires { before < 2 ^ 32 - 1 }
    ensures { Tries (λ line. line) line_left result cursor.new (reading.start_at before cursor.old) }
{
    let life = parse_count(cursor, b"start ", before + 1, u32::MAX)?;
    Ok(RecordingLine::Start { life })
}

#[tactic(auto, unfolding(crate::specs::LineReading::node_at))]
fn parse_node(cursor: &mut Cursor, sites: &[SiteId]) -> Result<RecordingLine, LineFault>
    ensures { Tries (λ line. line) line_left result cursor.new (reading.node_at sites.now cursor.old) }
{
    cursor.literal(b"node ")?;
    let site = parse_site(cursor, sites, 0)?;
    cursor.literal(b"\n")?;
    Ok(RecordingLine::Node { site })
}

#[tactic(auto, unfolding(crate::specs::LineReading::word_at))]
fn parse_word(
    cursor: &mut Cursor,
    word: &[u8],
    line: RecordingLine,
) -> Result<RecordingLine, LineFault>
    ensures { Tries (λ line. line) line_left result cursor.new (reading.word_at word.now line cursor.old) }
{
    cursor.literal(word)?;
    Ok(line)
}

/// The end of a block, or the line `node`.
#[tactic(auto, unfolding(crate::specs::LineReading::ending_at))]
fn parse_ending(cursor: &mut Cursor, sites: &[SiteId]) -> Result<RecordingLine, LineFault>
    ensures { Tries (λ line. line) line_left result cursor.new (reading.ending_at sites.now cursor.old) }
{
    if begins_with(cursor, b'e') {
        return parse_word(cursor, b"end\n", RecordingLine::End);
    }
    if begins_with(cursor, b'l') {
        return parse_word(cursor, b"link fault\n", RecordingLine::LinkFault);
    }
    if begins_with(cursor, b'd') {
        return parse_word(cursor, b"disk fault\n", RecordingLine::DiskFault);
    }
    parse_node(cursor, sites)
}

/// A line of a block that goes on but `out`, or the line `node`.
#[tactic(auto, unfolding(crate::specs::LineReading::within_at))]
fn parse_within(
    store: &mut ByteStore,
    cursor: &mut Cursor,
    sites: &[SiteId],
) -> Result<RecordingLine, LineFault>
    ensures { Tries (λ line. line) line_left result cursor.new (reading.within_at sites.now cursor.old) }
{
    if begins_with(cursor, b'i') {
        return parse_in(store, cursor);
    }
    if begins_with(cursor, b'b') {
        return parse_bad(cursor);
    }
    if begins_with(cursor, b's') {
        return parse_stray(store, cursor);
    }
    parse_ending(cursor, sites)
}

/// A line of a block after a turn's, or the line `node`.
#[tactic(auto, unfolding(crate::specs::LineReading::after_turn_at))]
fn parse_after_turn(
    store: &mut ByteStore,
    cursor: &mut Cursor,
    sites: &[SiteId],
) -> Result<RecordingLine, LineFault>
    ensures { Tries (λ line. line) line_left result cursor.new (reading.after_turn_at sites.now cursor.old) }
{
    if begins_with(cursor, b'o') {
        return parse_out(store, cursor);
    }
    parse_within(store, cursor, sites)
}

/// A line where no `start` has to come.
#[tactic(auto, unfolding(crate::specs::LineReading::free_at))]
fn parse_free(
    store: &mut ByteStore,
    cursor: &mut Cursor,
    draft: &RecordingDraft,
) -> Result<RecordingLine, LineFault>
    ensures { Tries (λ line. line) line_left result cursor.new (reading.free_at draft.now cursor.old) }
{
    let sites = draft.head.catalog.sites().as_slice();
    if draft.block.is_none() {
        return parse_node(cursor, sites);
    }
    if draft.turn.is_some() {
        return parse_after_turn(store, cursor, sites);
    }
    parse_within(store, cursor, sites)
}

#[tactic(auto, unfolding(crate::specs::LineReading::head_line_at))]
fn parse_head_line(
    store: &mut ByteStore,
    cursor: &mut Cursor,
    draft: &RecordingDraft,
) -> Result<RecordingLine, LineFault>
    ensures { Tries (λ line. line) line_left result cursor.new (reading.head_line_at draft.now cursor.old) }
{
    let line = parse_head(store.allocator(), cursor, &draft.head.catalog, KEY)?;
    Ok(RecordingLine::Head(line))
}

/// Takes the next line, after what the lines before it say.
#[tactic(auto, unfolding(crate::specs::LineReading::line_at))]
pub fn parse_line(
    store: &mut ByteStore,
    cursor: &mut Cursor,
    draft: &RecordingDraft,
) -> Result<RecordingLine, LineFault>
    requires { life_before draft.now < 2 ^ 32 - 1 }
    ensures { Tries (λ line. line) line_left result cursor.new (reading.line_at draft.now cursor.old) }
{
    if !draft.head.opened {
        return parse_head_line(store, cursor, draft);
    }
    match draft.named {
        Some(site) => parse_start(cursor, draft.lives[usize::from(site.get()) - 1]),
        None => parse_free(store, cursor, draft),
    }
}
