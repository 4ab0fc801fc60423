//! Reading procedures.

ghost use Rattle.std.specs.Prelude.{◌≡◌, ◌≤◌, ◌<◌, ◌^◌, ◌-◌, ℕ, length, Err};
ghost use Rattle.vp_procedure.specs.LineReading.{line_at};
ghost use Rattle.vp_procedure.specs.Document.{Answered, Finishes, IsOnly, IsTaken, NextLine};

use crate::draft::{ProcedureDraft, ProcedureInput};
use crate::fault::ProcedureFault;
use crate::line::ProcedureLine;
use crate::line_reading::parse_line;
use std::alloc::Global;
use vp_base::LineFault;
use vp_text::Cursor;

/// Reads the next line, which the lines before it allow.
fn next_line(
    alloc: Global,
    cursor: &mut Cursor,
    draft: &ProcedureDraft,
    line: usize,
) -> Result<ProcedureLine, ProcedureFault>
    requires room { (left : ℕ) → line_at draft.now cursor.old ≡ Err left → left ≤ length cursor.old }
    requires small { length cursor.old < 2 ^ 63 }
    ensures { NextLine draft.now line cursor.old cursor.new result }
{
    let here = cursor.left();
    match parse_line(alloc, cursor, draft) {
        Ok(next) => Ok(next),
        Err(LineFault::NoMemory) => Err(ProcedureFault::NoMemory),
        Err(LineFault::Unexpected(e)) => Err(ProcedureFault::BadLine {
            line,
            at: here - e.left + 1,
        }),
    }
}

/// Checks that nothing follows the line `result`, which is the line of this number.
fn finish(
    draft: ProcedureDraft,
    cursor: &Cursor,
    line: usize,
) -> Result<ProcedureInput, ProcedureFault>
    requires few { length draft.head.catalog.sites ≤ 16 }
    requires room { line < 2 ^ 64 - 1 }
    ensures { Finishes draft line cursor.now result }
{
    if cursor.left() > 0 {
        return Err(ProcedureFault::BadLine {
            line: line + 1,
            at: 1,
        });
    }
    Ok(draft.into_input())
}

/// Reads the whole text as a procedure: the lines of a catalogue, the line `procedure`, and statements up to `result`. An error names
/// the first faulty line; a text that ends before that has a bad line at its end.
pub fn parse(alloc: Global, text: &[u8]) -> Result<ProcedureInput, ProcedureFault>
    ensures answer { Answered text.now result }
    ensures only { IsOnly text.now result }
    ensures taken { IsTaken text.now result }
{
    let mut draft = ProcedureDraft::new(alloc);
    let mut cursor = Cursor::new(text);
    let mut line = 1;
    loop {
        let next = next_line(alloc, &mut cursor, &draft, line)?;
        if !draft.add(next, line)? {
            return finish(draft, &cursor, line);
        }
        line += 1;
    }
}
