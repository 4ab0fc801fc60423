//! Reading recordings.

ghost use Rattle.std.specs.Prelude.{◌≡◌, ◌≤◌, ◌<◌, ◌^◌, ◌-◌, ℕ, length, IfOk, Err};
ghost use Rattle.vp_catalog.specs.Document.{IsCatalogue};
ghost use Rattle.vp_recording.specs.Drafts.{life_before};
ghost use Rattle.vp_recording.specs.LineReading.{line_at};
ghost use Rattle.vp_recording.specs.Document.{Answered, IsOnly, NextLine, is_owed};
ghost use Rattle.vp_recording.specs.Recordings.{AreOfNodes};

use crate::byte_store::ByteStore;
use crate::draft::{RecordingDraft, RecordingSet};
use crate::fault::RecordingFault;
use crate::line::RecordingLine;
use crate::line_reading::parse_line;
use std::alloc::Global;
use vp_base::LineFault;
use vp_text::Cursor;

/// The next line, which is allowed after what the lines say so far.
fn next_line(
    store: &mut ByteStore,
    cursor: &mut Cursor,
    draft: &RecordingDraft,
    line: usize,
) -> Result<RecordingLine, RecordingFault>
    requires left { life_before draft.now < 2 ^ 32 - 1 }
    requires room { (left : ℕ) → line_at draft.now cursor.old ≡ Err left → left ≤ length cursor.old }
    requires small { length cursor.old < 2 ^ 63 }
    ensures { NextLine draft.now line cursor.old cursor.new result }
{
    let here = cursor.left();
    match parse_line(store, cursor, draft) {
        Ok(next) => Ok(next),
        Err(LineFault::NoMemory) => Err(RecordingFault::NoMemory),
        Err(LineFault::Unexpected(e)) => Err(RecordingFault::BadLine {
            line,
            at: here - e.left + 1,
        }),
    }
}

/// Whether another line has to come: there are more bytes, or the line `recordings` or a `start` has not come yet.
fn owes_line(cursor: &Cursor, draft: &RecordingDraft) -> bool
    ensures { result ≡ is_owed cursor.now draft.now }
{
    cursor.left() > 0 || !draft.head.opened || draft.named.is_some()
}

/// The recordings that the whole text spells: the lines of a catalogue, the line `recordings`, and blocks to the end. The fault is
/// that of the first line at fault. A text that ends before the line `recordings`, or after a line `node`, has a bad line there.
pub fn parse(alloc: Global, text: &[u8]) -> Result<RecordingSet, RecordingFault>
    ensures answer { Answered text.now result }
    ensures only { IsOnly text.now result }
    ensures nodes { IfOk result (λ it. IsCatalogue it.catalog × AreOfNodes it.catalog it.recordings) }
{
    let mut store = ByteStore::new(alloc);
    let mut draft = RecordingDraft::new(alloc);
    let mut cursor = Cursor::new(text);
    let mut line = 1;
    while owes_line(&cursor, &draft) {
        let next = next_line(&mut store, &mut cursor, &draft, line)?;
        draft.add(alloc, next, line)?;
        line += 1;
    }
    let recorded = draft.into_recorded()?;
    Ok(recorded)
}
