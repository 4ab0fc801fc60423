//! Reading calls, as they follow their sites in a schedule.

ghost use Rattle.std.specs.Prelude.{◌≡◌, ◌^◌, ◌-◌};
ghost use Rattle.vp_text.specs.Meaning.{Answers};
ghost use Rattle.vp_text.specs.Reading.{Reads, Tries, whole, number_at};
ghost use Rattle.vp_base.specs.Faults.{name_place, line_left};
ghost use Rattle.vp_schedule.specs.Grammar.{IsCallText};
ghost use Rattle.vp_schedule.specs.Reading.{begin_at, regroup_at, bare_at, read_at, write_at, delete_at, removal_at, weigh_at, other_change_at, commit_at, abort_at, ending_at, change_at, deed_at, numbered_at, call_at};

use crate::table_reading::parse_table;
use std::alloc::Global;
use vp_base::{Call, CallNo, LineFault, Name, NameFault, TxnId, Value};
use vp_text::{Cursor, Unexpected};

/// Reads the whole text as a call. `BadName` says how many of its bytes begin a call.
pub fn read_call(alloc: Global, text: &[u8]) -> Result<Call, NameFault>
    ensures { Answers IsCallText (λ c. c) name_place text.now result }
{
    let mut cursor = Cursor::new(text);
    match parse_whole(alloc, &mut cursor) {
        Ok(call) => Ok(call),
        Err(LineFault::NoMemory) => Err(NameFault::NoMemory),
        Err(LineFault::Unexpected(e)) => Err(NameFault::BadName {
            at: text.len() - e.left,
        }),
    }
}

fn parse_whole(alloc: Global, cursor: &mut Cursor) -> Result<Call, LineFault>
    ensures { Tries (λ c. c) line_left result cursor.new (whole call_at cursor.old) }
{
    let call = parse_call(alloc, cursor)?;
    cursor.end()?;
    Ok(call)
}

/// Reads a call from the front of what is left.
#[tactic(auto, unfolding(crate::specs::Reading::call_at))]
pub fn parse_call(alloc: Global, cursor: &mut Cursor) -> Result<Call, LineFault>
    ensures { Tries (λ c. c) line_left result cursor.new (call_at cursor.old) }
{
    let mut other = cursor.fork();
    match parse_bare(cursor) {
        Ok(call) => Ok(call),
        Err(first) => match parse_numbered(alloc, &mut other) {
            Ok(call) => {
                *cursor = other;
                Ok(call)
            }
            Err(LineFault::NoMemory) => Err(LineFault::NoMemory),
            Err(LineFault::Unexpected(second)) => Err(LineFault::Unexpected(first.farther(second))),
        },
    }
}

/// Reads a call that names no transaction.
#[tactic(auto, unfolding(crate::specs::Reading::bare_at))]
fn parse_bare(cursor: &mut Cursor) -> Result<Call, Unexpected>
    ensures { Reads (λ c. c) (λ e. e.left) result cursor.new (bare_at cursor.old) }
{
    let mut other = cursor.fork();
    match parse_begin(cursor) {
        Ok(call) => Ok(call),
        Err(first) => match parse_regroup(&mut other) {
            Ok(call) => {
                *cursor = other;
                Ok(call)
            }
            Err(second) => Err(first.farther(second)),
        },
    }
}

#[tactic(auto, unfolding(crate::specs::Reading::begin_at))]
fn parse_begin(cursor: &mut Cursor) -> Result<Call, Unexpected>
    ensures { Reads (λ c. c) (λ e. e.left) result cursor.new (begin_at cursor.old) }
{
    cursor.literal(b"begin")?;
    Ok(Call::Begin)
}

#[tactic(auto, unfolding(crate::specs::Reading::regroup_at))]
fn parse_regroup(cursor: &mut Cursor) -> Result<Call, Unexpected>
    ensures { Reads (λ c. c) (λ e. e.left) result cursor.new (regroup_at cursor.old) }
{
    cursor.literal(b"regroup")?;
    Ok(Call::Regroup)
}

/// Reads a call on a transaction.
#[tactic(auto, unfolding(crate::specs::Reading::numbered_at))]
fn parse_numbered(alloc: Global, cursor: &mut Cursor) -> Result<Call, LineFault>
    ensures { Tries (λ c. c) line_left result cursor.new (numbered_at cursor.old) }
{
    let txn = TxnId::parse(cursor)?;
    cursor.literal(b" ")?;
    let number = parse_number(cursor)?;
    parse_deed(alloc, cursor, &txn, number)
}

fn parse_number(cursor: &mut Cursor) -> Result<CallNo, Unexpected>
    ensures { Reads (λ n. n) (λ e. e.left) result cursor.new (number_at 1 (2 ^ 32 - 1) cursor.old) }
{
    let number = cursor.number_u32(1, u32::MAX)?;
    match CallNo::new(number) {
        Some(number) => Ok(number),
        None => unreachable!(),
    }
}

/// Reads what a call does, after its transaction and its number.
#[tactic(auto, unfolding(crate::specs::Reading::deed_at))]
fn parse_deed(
    alloc: Global,
    cursor: &mut Cursor,
    txn: &TxnId,
    number: CallNo,
) -> Result<Call, LineFault>
    ensures { Tries (λ c. c) line_left result cursor.new (deed_at txn.now number cursor.old) }
{
    let mut other = cursor.fork();
    match parse_read(alloc, cursor, txn, number) {
        Ok(call) => Ok(call),
        Err(LineFault::NoMemory) => Err(LineFault::NoMemory),
        Err(LineFault::Unexpected(first)) => match parse_change(alloc, &mut other, txn, number) {
            Ok(call) => {
                *cursor = other;
                Ok(call)
            }
            Err(LineFault::NoMemory) => Err(LineFault::NoMemory),
            Err(LineFault::Unexpected(second)) => Err(LineFault::Unexpected(first.farther(second))),
        },
    }
}

#[tactic(auto, unfolding(crate::specs::Reading::read_at))]
fn parse_read(
    alloc: Global,
    cursor: &mut Cursor,
    txn: &TxnId,
    number: CallNo,
) -> Result<Call, LineFault>
    ensures { Tries (λ c. c) line_left result cursor.new (read_at txn.now number cursor.old) }
{
    cursor.literal(b" read ")?;
    let name = Name::parse(alloc, cursor)?;
    Ok(Call::Read {
        txn: *txn,
        number,
        name,
    })
}

#[tactic(auto, unfolding(crate::specs::Reading::delete_at))]
fn parse_delete(
    alloc: Global,
    cursor: &mut Cursor,
    txn: &TxnId,
    number: CallNo,
) -> Result<Call, LineFault>
    ensures { Tries (λ c. c) line_left result cursor.new (delete_at txn.now number cursor.old) }
{
    cursor.literal(b" delete ")?;
    let name = Name::parse(alloc, cursor)?;
    Ok(Call::Delete {
        txn: *txn,
        number,
        name,
    })
}

/// Reads a delete, or the end of a transaction.
#[tactic(auto, unfolding(crate::specs::Reading::removal_at))]
fn parse_removal(
    alloc: Global,
    cursor: &mut Cursor,
    txn: &TxnId,
    number: CallNo,
) -> Result<Call, LineFault>
    ensures { Tries (λ c. c) line_left result cursor.new (removal_at txn.now number cursor.old) }
{
    let mut other = cursor.fork();
    match parse_delete(alloc, cursor, txn, number) {
        Ok(call) => Ok(call),
        Err(LineFault::NoMemory) => Err(LineFault::NoMemory),
        Err(LineFault::Unexpected(first)) => match parse_ending(&mut other, txn, number) {
            Ok(call) => {
                *cursor = other;
                Ok(call)
            }
            Err(second) => Err(LineFault::Unexpected(first.farther(second))),
        },
    }
}

#[tactic(auto, unfolding(crate::specs::Reading::weigh_at))]
fn parse_weigh(
    alloc: Global,
    cursor: &mut Cursor,
    txn: &TxnId,
    number: CallNo,
) -> Result<Call, LineFault>
    ensures { Tries (λ c. c) line_left result cursor.new (weigh_at txn.now number cursor.old) }
{
    cursor.literal(b" weigh ")?;
    let name = Name::parse(alloc, cursor)?;
    let table = parse_table(alloc, cursor)?;
    Ok(Call::Weigh {
        txn: *txn,
        number,
        name,
        table,
    })
}

/// Reads a weigh, a delete, or the end of a transaction.
#[tactic(auto, unfolding(crate::specs::Reading::other_change_at))]
fn parse_other_change(
    alloc: Global,
    cursor: &mut Cursor,
    txn: &TxnId,
    number: CallNo,
) -> Result<Call, LineFault>
    ensures { Tries (λ c. c) line_left result cursor.new (other_change_at txn.now number cursor.old) }
{
    let mut other = cursor.fork();
    match parse_weigh(alloc, cursor, txn, number) {
        Ok(call) => Ok(call),
        Err(LineFault::NoMemory) => Err(LineFault::NoMemory),
        Err(LineFault::Unexpected(first)) => match parse_removal(alloc, &mut other, txn, number) {
            Ok(call) => {
                *cursor = other;
                Ok(call)
            }
            Err(LineFault::NoMemory) => Err(LineFault::NoMemory),
            Err(LineFault::Unexpected(second)) => Err(LineFault::Unexpected(first.farther(second))),
        },
    }
}

/// Reads a write, a weigh, a delete, or the end of a transaction.
#[tactic(auto, unfolding(crate::specs::Reading::change_at))]
fn parse_change(
    alloc: Global,
    cursor: &mut Cursor,
    txn: &TxnId,
    number: CallNo,
) -> Result<Call, LineFault>
    ensures { Tries (λ c. c) line_left result cursor.new (change_at txn.now number cursor.old) }
{
    let mut other = cursor.fork();
    match parse_write(alloc, cursor, txn, number) {
        Ok(call) => Ok(call),
        Err(LineFault::NoMemory) => Err(LineFault::NoMemory),
        Err(LineFault::Unexpected(first)) => match parse_other_change(
            alloc, &mut other, txn, number,
        ) {
            Ok(call) => {
                *cursor = other;
                Ok(call)
            }
            Err(LineFault::NoMemory) => Err(LineFault::NoMemory),
            Err(LineFault::Unexpected(second)) => Err(LineFault::Unexpected(first.farther(second))),
        },
    }
}

#[tactic(auto, unfolding(crate::specs::Reading::write_at))]
fn parse_write(
    alloc: Global,
    cursor: &mut Cursor,
    txn: &TxnId,
    number: CallNo,
) -> Result<Call, LineFault>
    ensures { Tries (λ c. c) line_left result cursor.new (write_at txn.now number cursor.old) }
{
    cursor.literal(b" write ")?;
    let name = Name::parse(alloc, cursor)?;
    cursor.literal(b" ")?;
    let value = Value::parse(alloc, cursor)?;
    Ok(Call::Write {
        txn: *txn,
        number,
        name,
        value,
    })
}

/// Reads the end of a transaction.
#[tactic(auto, unfolding(crate::specs::Reading::ending_at))]
fn parse_ending(cursor: &mut Cursor, txn: &TxnId, number: CallNo) -> Result<Call, Unexpected>
    ensures { Reads (λ c. c) (λ e. e.left) result cursor.new (ending_at txn.now number cursor.old) }
{
    let mut other = cursor.fork();
    match parse_commit(cursor, txn, number) {
        Ok(call) => Ok(call),
        Err(first) => match parse_abort(&mut other, txn, number) {
            Ok(call) => {
                *cursor = other;
                Ok(call)
            }
            Err(second) => Err(first.farther(second)),
        },
    }
}

#[tactic(auto, unfolding(crate::specs::Reading::commit_at))]
fn parse_commit(cursor: &mut Cursor, txn: &TxnId, number: CallNo) -> Result<Call, Unexpected>
    ensures { Reads (λ c. c) (λ e. e.left) result cursor.new (commit_at txn.now number cursor.old) }
{
    cursor.literal(b" commit")?;
    Ok(Call::Commit { txn: *txn, number })
}

#[tactic(auto, unfolding(crate::specs::Reading::abort_at))]
fn parse_abort(cursor: &mut Cursor, txn: &TxnId, number: CallNo) -> Result<Call, Unexpected>
    ensures { Reads (λ c. c) (λ e. e.left) result cursor.new (abort_at txn.now number cursor.old) }
{
    cursor.literal(b" abort")?;
    Ok(Call::Abort { txn: *txn, number })
}
