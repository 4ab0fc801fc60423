//! Reading schedules.

ghost use Rattle.std.specs.Prelude.{◌≡◌, ◌≤◌, ◌<◌, ◌^◌, ℕ, length, Err};
ghost use Rattle.vp_schedule.specs.Drafts.{sites_said};
ghost use Rattle.vp_schedule.specs.LineReading.{line_at};
ghost use Rattle.vp_schedule.specs.Document.{Answered, IsOnly, IsTaken, NextLine, is_owed};

use crate::draft::ScheduleDraft;
use crate::fault::ScheduleFault;
use crate::line::ScheduleLine;
use crate::line_reading::parse_line;
use crate::schedule::Schedule;
use std::alloc::Global;
use vp_base::LineFault;
use vp_text::Cursor;

/// Reads the next line, which the lines before it allow.
fn next_line(
    alloc: Global,
    cursor: &mut Cursor,
    draft: &ScheduleDraft,
    line: usize,
) -> Result<ScheduleLine, ScheduleFault>
    requires few { length (sites_said draft.now) ≤ 16 }
    requires room { (left : ℕ) → line_at draft.now cursor.old ≡ Err left → left ≤ length cursor.old }
    requires small { length cursor.old < 2 ^ 63 }
    ensures { NextLine draft.now line cursor.old cursor.new result }
{
    let here = cursor.left();
    match parse_line(alloc, cursor, draft) {
        Ok(next) => Ok(next),
        Err(LineFault::NoMemory) => Err(ScheduleFault::NoMemory),
        Err(LineFault::Unexpected(e)) => Err(ScheduleFault::BadLine {
            line,
            at: here - e.left + 1,
        }),
    }
}

/// Whether another line has to come: more bytes are left, or the line `events` has not come yet.
fn owes_line(cursor: &Cursor, draft: &ScheduleDraft) -> bool
    ensures { result ≡ is_owed cursor.now draft.now }
{
    cursor.left() > 0 || !draft.opened
}

/// Reads the whole text as a schedule: the lines of a catalogue, the line `events`, and event lines to the end. An error names the
/// first faulty line; a text that ends before the line `events` has a bad line at its end.
pub fn read(alloc: Global, text: &[u8]) -> Result<Schedule, ScheduleFault>
    ensures answer { Answered text.now result }
    ensures only { IsOnly text.now result }
    ensures taken { IsTaken text.now result }
{
    let mut draft = ScheduleDraft::new(alloc);
    let mut cursor = Cursor::new(text);
    let mut line = 1;
    while owes_line(&cursor, &draft) {
        let next = next_line(alloc, &mut cursor, &draft, line)?;
        draft.add(next, line)?;
        line += 1;
    }
    Ok(draft.schedule)
}
