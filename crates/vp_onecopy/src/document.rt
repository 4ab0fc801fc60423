//! Reading a history.

ghost use Rattle.std.specs.Prelude.{◌≡◌, ◌≤◌, ◌<◌, ◌+◌, ◌++◌, ℕ, List, length, ◌^◌, Err, IfOk};
ghost use Rattle.vp_model.specs.Words.{opening};
ghost use Rattle.vp_onecopy.specs.Lines.{AllNames};
ghost use Rattle.vp_onecopy.specs.declared.map.History.{History};
ghost use Rattle.vp_onecopy.specs.Reading.{line_at};
ghost use Rattle.vp_onecopy.specs.Passing.{Following, AnsweredAll, IsOnly, IsPrintedIn, IsTaken};
ghost use Rattle.vp_onecopy.specs.Whole.{IsWhole};
ghost use Rattle.vp_onecopy.specs.History.{before, last_from, Answered, NextLine, Adds, Finishes};

use crate::fault::HistoryFault;
use crate::line::HistoryLine;
use crate::map::History;
use crate::passing::pass_over;
use crate::reading::parse_line;
use std::alloc::Global;
use vp_base::{Commit, LineFault, ViewId, place};
use vp_text::Cursor;

/// The view of the last commit; the opening view where there is none.
fn last_view(commits: &[Commit]) -> ViewId
    ensures { result ≡ last_from opening commits.now }
{
    match commits.last() {
        Some(commit) => commit.view,
        None => ViewId { number: 0, site: 0 },
    }
}

/// Reads the next line, which the lines before it allow.
fn next_line(
    alloc: Global,
    cursor: &mut Cursor,
    history: &History,
    line: usize,
) -> Result<HistoryLine, HistoryFault>
    requires names { AllNames history.now.names }
    requires few { length history.now.names ≤ 256 }
    requires room { (left : ℕ) → line_at (before history.now) cursor.old ≡ Err left →
        left ≤ length cursor.old }
    requires small { length cursor.old < 2 ^ 63 }
    ensures { NextLine history.now line cursor.old cursor.new result }
{
    let here = cursor.left();
    let commits = history.commits.as_slice();
    let last = last_view(commits);
    match parse_line(
        alloc,
        cursor,
        history.names.as_slice(),
        last,
        commits.len() as u64,
    ) {
        Ok(next) => Ok(next),
        Err(LineFault::NoMemory) => Err(HistoryFault::NoMemory),
        Err(LineFault::Unexpected(e)) => Err(HistoryFault::BadLine {
            line,
            at: here - e.left + 1,
        }),
    }
}

/// Adds what a line says, unless it is the end line. Returns whether it is.
fn add(history: &mut History, line: HistoryLine, number: usize) -> Result<bool, HistoryFault>
    ensures { Adds history.old line number history.new result }
{
    match line {
        HistoryLine::Start { name, value } => {
            if let Some(_) = place(history.names.as_slice(), name.as_bytes()) {
                return Err(HistoryFault::Twice { line: number });
            }
            history.names.push(name)?;
            history.start.push(value)?;
            Ok(true)
        }
        HistoryLine::Commit(commit) => {
            history.commits.push(commit)?;
            Ok(true)
        }
        HistoryLine::End => Ok(false),
    }
}

/// Checks that nothing follows the end line.
fn finish(history: History, cursor: &Cursor, line: usize) -> Result<History, HistoryFault>
    requires { line + 1 < 2 ^ 64 }
    ensures { Finishes history line cursor.now result }
{
    if cursor.left() > 0 {
        return Err(HistoryFault::BadLine {
            line: line + 1,
            at: 1,
        });
    }
    Ok(history)
}

/// Reads a history from its lines after the line `history`, which are counted from 1.
fn read_lines(alloc: Global, text: &[u8]) -> Result<History, HistoryFault>
    requires { length text.now < 2 ^ 63 }
    ensures { Answered text.now result }
{
    let mut history = History::new(alloc);
    let mut cursor = Cursor::new(text);
    let mut line = 1;
    loop {
        let next = next_line(alloc, &mut cursor, &history, line)?;
        if !add(&mut history, next, line)? {
            return finish(history, &cursor, line);
        }
        line += 1;
    }
}

/// Reads a history from its lines, where `passed` lines and the line `history` came before.
fn read_after(alloc: Global, rest: &[u8], passed: usize) -> Result<History, HistoryFault>
    requires { passed + length rest.now < 2 ^ 63 }
    ensures { Following passed rest.now result }
{
    match read_lines(alloc, rest) {
        Ok(history) => Ok(history),
        Err(HistoryFault::BadLine { line, at }) => Err(HistoryFault::BadLine {
            line: passed + 1 + line,
            at,
        }),
        Err(HistoryFault::Twice { line }) => Err(HistoryFault::Twice {
            line: passed + 1 + line,
        }),
        Err(HistoryFault::NoMemory) => Err(HistoryFault::NoMemory),
    }
}

/// Reads the history in the text, which begins at the first line `history`; the lines before that are passed over.
pub fn read_history(alloc: Global, text: &[u8]) -> Result<History, HistoryFault>
    ensures answer { AnsweredAll text.now result }
    ensures only { IsOnly text.now result }
    ensures printed { IfOk result (IsPrintedIn text.now) }
    ensures taken { IsTaken text.now result }
    ensures whole { IfOk result IsWhole }
{
    let mut cursor = Cursor::new(text);
    match pass_over(&mut cursor) {
        Ok(passed) => read_after(alloc, cursor.rest(), passed),
        Err(passed) => Err(HistoryFault::BadLine {
            line: passed + 1,
            at: cursor.left() + 1,
        }),
    }
}
