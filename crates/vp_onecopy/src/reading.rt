//! Reading the lines of a history.

ghost use Rattle.std.specs.Prelude.{◌∷◌, [], ◌≤◌, length, suc};
ghost use Rattle.vp_text.specs.Reading.{Tries, Reads, next_at};
ghost use Rattle.vp_base.specs.Faults.{line_left};
ghost use Rattle.vp_base.specs.Reading.{among_at};
ghost use Rattle.vp_onecopy.specs.Lines.{AllNames, some_names, Before};
ghost use Rattle.vp_onecopy.specs.Reading.{read_at, write_at, absent_at, delete_at, bare_op_at, later_op_at, op_at, ops_at, start_at, commit_at, ending_at, later_at, line_at};
ghost use Rattle.vp_onecopy.specs.declared.line.HistoryLine.TheVariants as kind;

use crate::line::HistoryLine;
use std::alloc::Global;
use vp_base::{
    Commit, LineFault, MOST_RECORDS, Name, Op, Ops, RecId, Tables, TxnId, Value, ViewId,
    parse_place,
};
use vp_text::{Cursor, Unexpected};

/// Reads the name of a record, and gives its place.
fn parse_record(cursor: &mut Cursor, names: &[Name]) -> Result<RecId, Unexpected>
    requires { length names.now ≤ 256 }
    ensures { Reads (λ rec. rec) (λ e. e.left) result cursor.new (among_at names.now cursor.old) }
{
    let place = parse_place(cursor, names)?;
    Ok(RecId::new(place as u8))
}

#[tactic(auto, unfolding(crate::specs::Reading::read_at))]
fn parse_read(alloc: Global, cursor: &mut Cursor, names: &[Name]) -> Result<Op, LineFault>
    requires { length names.now ≤ 256 }
    ensures { Tries (λ op. op) line_left result cursor.new (read_at names.now cursor.old) }
{
    cursor.literal(b" r ")?;
    let rec = parse_record(cursor, names)?;
    cursor.literal(b" ")?;
    let value = Value::parse(alloc, cursor)?;
    Ok(Op::Read {
        rec,
        value: Some(value),
    })
}

#[tactic(auto, unfolding(crate::specs::Reading::write_at))]
fn parse_write(alloc: Global, cursor: &mut Cursor, names: &[Name]) -> Result<Op, LineFault>
    requires { length names.now ≤ 256 }
    ensures { Tries (λ op. op) line_left result cursor.new (write_at names.now cursor.old) }
{
    cursor.literal(b" w ")?;
    let rec = parse_record(cursor, names)?;
    cursor.literal(b" ")?;
    let value = Value::parse(alloc, cursor)?;
    Ok(Op::Write {
        rec,
        value: Some(value),
    })
}

/// Reads a read of a record that has no value.
#[tactic(auto, unfolding(crate::specs::Reading::absent_at))]
fn parse_absent(cursor: &mut Cursor, names: &[Name]) -> Result<Op, Unexpected>
    requires { length names.now ≤ 256 }
    ensures { Reads (λ op. op) (λ e. e.left) result cursor.new (absent_at names.now cursor.old) }
{
    cursor.literal(b" a ")?;
    let rec = parse_record(cursor, names)?;
    Ok(Op::Read { rec, value: None })
}

/// Reads a delete.
#[tactic(auto, unfolding(crate::specs::Reading::delete_at))]
fn parse_delete(cursor: &mut Cursor, names: &[Name]) -> Result<Op, Unexpected>
    requires { length names.now ≤ 256 }
    ensures { Reads (λ op. op) (λ e. e.left) result cursor.new (delete_at names.now cursor.old) }
{
    cursor.literal(b" d ")?;
    let rec = parse_record(cursor, names)?;
    Ok(Op::Write { rec, value: None })
}

/// Reads an operation without a value.
#[tactic(auto, unfolding(crate::specs::Reading::bare_op_at))]
fn parse_bare_op(cursor: &mut Cursor, names: &[Name]) -> Result<Op, Unexpected>
    requires { length names.now ≤ 256 }
    ensures { Reads (λ op. op) (λ e. e.left) result cursor.new (bare_op_at names.now cursor.old) }
{
    let mut other = cursor.fork();
    match parse_absent(cursor, names) {
        Ok(op) => Ok(op),
        Err(first) => match parse_delete(&mut other, names) {
            Ok(op) => {
                *cursor = other;
                Ok(op)
            }
            Err(second) => Err(first.farther(second)),
        },
    }
}

/// Reads a write, or an operation without a value.
#[tactic(auto, unfolding(crate::specs::Reading::later_op_at))]
fn parse_later_op(alloc: Global, cursor: &mut Cursor, names: &[Name]) -> Result<Op, LineFault>
    requires { length names.now ≤ 256 }
    ensures { Tries (λ op. op) line_left result cursor.new (later_op_at names.now cursor.old) }
{
    let mut other = cursor.fork();
    match parse_write(alloc, cursor, names) {
        Ok(op) => Ok(op),
        Err(LineFault::NoMemory) => Err(LineFault::NoMemory),
        Err(LineFault::Unexpected(first)) => match parse_bare_op(&mut other, names) {
            Ok(op) => {
                *cursor = other;
                Ok(op)
            }
            Err(second) => Err(LineFault::Unexpected(first.farther(second))),
        },
    }
}

#[tactic(auto, unfolding(crate::specs::Reading::op_at))]
fn parse_op(alloc: Global, cursor: &mut Cursor, names: &[Name]) -> Result<Op, LineFault>
    requires { length names.now ≤ 256 }
    ensures { Tries (λ op. op) line_left result cursor.new (op_at names.now cursor.old) }
{
    let mut other = cursor.fork();
    match parse_read(alloc, cursor, names) {
        Ok(op) => Ok(op),
        Err(LineFault::NoMemory) => Err(LineFault::NoMemory),
        Err(LineFault::Unexpected(first)) => match parse_later_op(alloc, &mut other, names) {
            Ok(op) => {
                *cursor = other;
                Ok(op)
            }
            Err(LineFault::NoMemory) => Err(LineFault::NoMemory),
            Err(LineFault::Unexpected(second)) => Err(LineFault::Unexpected(first.farther(second))),
        },
    }
}

/// Reads the next operation, or the end of the line, which is `None`.
#[tactic(auto, unfolding(vp_text::specs::Reading::next_at))]
fn parse_next(alloc: Global, cursor: &mut Cursor, names: &[Name]) -> Result<Option<Op>, LineFault>
    requires { length names.now ≤ 256 }
    ensures { Tries (λ op. op) line_left result cursor.new
        (next_at (some_names names.now) (op_at names.now) (10 ∷ []) cursor.old) }
{
    let mut other = cursor.fork();
    match cursor.literal(b"\n") {
        Ok(()) => Ok(None),
        Err(first) if names.is_empty() => Err(LineFault::Unexpected(first)),
        Err(first) => match parse_op(alloc, &mut other, names) {
            Ok(op) => {
                *cursor = other;
                Ok(Some(op))
            }
            Err(LineFault::NoMemory) => Err(LineFault::NoMemory),
            Err(LineFault::Unexpected(second)) => Err(LineFault::Unexpected(first.farther(second))),
        },
    }
}

/// Reads operations up to the end of the line.
fn parse_ops(alloc: Global, cursor: &mut Cursor, names: &[Name]) -> Result<Ops, LineFault>
    requires few { length names.now ≤ 256 }
    requires names { AllNames names.now }
    ensures { Tries (λ ops. ops) line_left result cursor.new
        (ops_at names.now (suc (length cursor.old)) cursor.old) }
{
    let mut ops = Vec::new(alloc);
    while let Some(op) = parse_next(alloc, cursor, names)? {
        ops.push(op)?;
    }
    Ok(Ops::from_vec(ops))
}

#[tactic(auto, unfolding(crate::specs::Reading::start_at))]
fn parse_start(alloc: Global, cursor: &mut Cursor) -> Result<HistoryLine, LineFault>
    ensures { Tries (λ line. line) line_left result cursor.new (start_at cursor.old) }
{
    cursor.literal(b"start ")?;
    let name = Name::parse(alloc, cursor)?;
    cursor.literal(b" ")?;
    let value = Value::parse(alloc, cursor)?;
    cursor.literal(b"\n")?;
    Ok(HistoryLine::Start { name, value })
}

#[tactic(auto, unfolding(crate::specs::Reading::commit_at))]
fn parse_commit(
    alloc: Global,
    cursor: &mut Cursor,
    names: &[Name],
    last: ViewId,
) -> Result<HistoryLine, LineFault>
    requires few { length names.now ≤ 256 }
    requires names { AllNames names.now }
    ensures { Tries (λ line. line) line_left result cursor.new (commit_at names.now last cursor.old) }
{
    cursor.literal(b"commit ")?;
    let txn = TxnId::parse(cursor)?;
    cursor.literal(b" ")?;
    let view = ViewId::parse_from(cursor, last)?;
    let ops = parse_ops(alloc, cursor, names)?;
    Ok(HistoryLine::Commit(Commit {
        txn,
        view,
        ops,
        tables: Tables::new(alloc),
    }))
}

#[tactic(auto, unfolding(crate::specs::Reading::ending_at))]
fn parse_end(cursor: &mut Cursor, commits: u64) -> Result<(), Unexpected>
    ensures { Reads (λ u. kind.End) (λ e. e.left) result cursor.new (ending_at commits cursor.old) }
{
    cursor.literal(b"end ")?;
    cursor.number(commits, commits)?;
    cursor.literal(b"\n")
}

/// Reads a commit line or the end line.
#[tactic(auto, unfolding(crate::specs::Reading::later_at))]
fn parse_later(
    alloc: Global,
    cursor: &mut Cursor,
    names: &[Name],
    last: ViewId,
    commits: u64,
) -> Result<HistoryLine, LineFault>
    requires few { length names.now ≤ 256 }
    requires names { AllNames names.now }
    ensures { Tries (λ line. line) line_left result cursor.new
        (later_at (record { names = names.now; last = last; commits = commits }) cursor.old) }
{
    let mut other = cursor.fork();
    match parse_commit(alloc, cursor, names, last) {
        Ok(line) => Ok(line),
        Err(LineFault::NoMemory) => Err(LineFault::NoMemory),
        Err(LineFault::Unexpected(first)) => match parse_end(&mut other, commits) {
            Ok(()) => {
                *cursor = other;
                Ok(HistoryLine::End)
            }
            Err(second) => Err(LineFault::Unexpected(first.farther(second))),
        },
    }
}

/// Reads a line that may follow start lines with these names and `commits` commits, the last of which has this view.
#[tactic(auto, unfolding(crate::specs::Reading::line_at))]
pub fn parse_line(
    alloc: Global,
    cursor: &mut Cursor,
    names: &[Name],
    last: ViewId,
    commits: u64,
) -> Result<HistoryLine, LineFault>
    requires few { length names.now ≤ 256 }
    requires names { AllNames names.now }
    ensures { Tries (λ line. line) line_left result cursor.new
        (line_at (record { names = names.now; last = last; commits = commits }) cursor.old) }
{
    if commits > 0 || names.len() >= MOST_RECORDS {
        return parse_later(alloc, cursor, names, last, commits);
    }
    let mut other = cursor.fork();
    match parse_start(alloc, cursor) {
        Ok(line) => Ok(line),
        Err(LineFault::NoMemory) => Err(LineFault::NoMemory),
        Err(LineFault::Unexpected(first)) => match parse_later(
            alloc, &mut other, names, last, commits,
        ) {
            Ok(line) => {
                *cursor = other;
                Ok(line)
            }
            Err(LineFault::NoMemory) => Err(LineFault::NoMemory),
            Err(LineFault::Unexpected(second)) => Err(LineFault::Unexpected(first.farther(second))),
        },
    }
}
