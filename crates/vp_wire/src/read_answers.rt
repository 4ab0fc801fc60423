//! Reading the fields of answers. Where both versions have the same fields, what is read is said for the second.

ghost use Rattle.vp_text.specs.Reading.{Tries};
ghost use Rattle.vp_base.specs.Faults.{line_left};
ghost use Rattle.vp_wire.specs.declared.kind.AnswerKind.TheVariants as kinds;
ghost use Rattle.vp_wire.specs.Answers.{answer_at};
ghost use Rattle.vp_contents.specs.declared.version.Version.TheVariants as versions;

use crate::kind::AnswerKind;
use std::alloc::Global;
use vp_base::{Answer, LineFault};
use vp_bytes::{
    read_maybe_view, read_name, read_numbered, read_owner, read_site, read_txn, read_u32, read_u64,
    read_view,
};
use vp_contents::{Version, read_value};
use vp_text::Cursor;

/// Reads the fields of an answer of this kind.
#[tactic(auto, unfolding(crate::specs::Answers::answer_at))]
pub fn read_answer(
    alloc: Global,
    cursor: &mut Cursor,
    version: Version,
    kind: AnswerKind,
) -> Result<Answer, LineFault>
    ensures { Tries (λ m. m) line_left result cursor.new (answer_at version kind cursor.old) }
{
    match kind {
        AnswerKind::Begun => read_begun(cursor),
        AnswerKind::Value => read_value_read(alloc, cursor, version),
        AnswerKind::Written => read_written(cursor),
        AnswerKind::Committed => read_committed(cursor),
        AnswerKind::Aborted => read_aborted(cursor),
        AnswerKind::Inviting => read_inviting(cursor),
        AnswerKind::NoView => read_no_view(cursor),
        AnswerKind::Unknown => read_unknown(cursor),
        AnswerKind::Skipped => read_skipped(cursor),
        AnswerKind::Busy => read_busy(cursor),
        AnswerKind::NoRecord => read_no_record(cursor),
        AnswerKind::TooManyOps => read_too_many_ops(cursor),
        AnswerKind::Inaccessible => read_inaccessible(alloc, cursor),
        AnswerKind::LockHeld => read_lock_held(alloc, cursor),
        AnswerKind::ViewChanged => read_view_changed(cursor),
        AnswerKind::TimedOut => read_timed_out(cursor),
        AnswerKind::Spent => read_spent(cursor),
        AnswerKind::TooManyLive => Ok(Answer::TooManyLive),
        AnswerKind::Absent => read_absent(cursor),
        AnswerKind::Deleted => read_deleted(cursor),
        AnswerKind::Weighed => read_weighed(cursor),
        AnswerKind::BadTable => read_bad_table(cursor),
    }
}

#[tactic(auto, unfolding(crate::specs::Answers::answer_at))]
fn read_begun(cursor: &mut Cursor) -> Result<Answer, LineFault>
    ensures { Tries (λ m. m) line_left result cursor.new (answer_at versions.Second kinds.Begun cursor.old) }
{
    let txn = read_txn(cursor)?;
    let view = read_view(cursor)?;
    Ok(Answer::Begun { txn, view })
}

#[tactic(auto, unfolding(crate::specs::Answers::answer_at))]
fn read_value_read(
    alloc: Global,
    cursor: &mut Cursor,
    version: Version,
) -> Result<Answer, LineFault>
    ensures { Tries (λ m. m) line_left result cursor.new (answer_at version kinds.Value cursor.old) }
{
    let (txn, number) = read_numbered(cursor)?;
    let value = read_value(alloc, cursor, version)?;
    Ok(Answer::Value { txn, number, value })
}

#[tactic(auto, unfolding(crate::specs::Answers::answer_at))]
fn read_written(cursor: &mut Cursor) -> Result<Answer, LineFault>
    ensures { Tries (λ m. m) line_left result cursor.new (answer_at versions.Second kinds.Written cursor.old) }
{
    let (txn, number) = read_numbered(cursor)?;
    Ok(Answer::Written { txn, number })
}

#[tactic(auto, unfolding(crate::specs::Answers::answer_at))]
fn read_committed(cursor: &mut Cursor) -> Result<Answer, LineFault>
    ensures { Tries (λ m. m) line_left result cursor.new (answer_at versions.Second kinds.Committed cursor.old) }
{
    let (txn, number) = read_numbered(cursor)?;
    Ok(Answer::Committed { txn, number })
}

#[tactic(auto, unfolding(crate::specs::Answers::answer_at))]
fn read_aborted(cursor: &mut Cursor) -> Result<Answer, LineFault>
    ensures { Tries (λ m. m) line_left result cursor.new (answer_at versions.Second kinds.Aborted cursor.old) }
{
    let (txn, number) = read_numbered(cursor)?;
    Ok(Answer::Aborted { txn, number })
}

#[tactic(auto, unfolding(crate::specs::Answers::answer_at))]
fn read_inviting(cursor: &mut Cursor) -> Result<Answer, LineFault>
    ensures { Tries (λ m. m) line_left result cursor.new (answer_at versions.Second kinds.Inviting cursor.old) }
{
    let view = read_view(cursor)?;
    Ok(Answer::Inviting { view })
}

#[tactic(auto, unfolding(crate::specs::Answers::answer_at))]
fn read_no_view(cursor: &mut Cursor) -> Result<Answer, LineFault>
    ensures { Tries (λ m. m) line_left result cursor.new (answer_at versions.Second kinds.NoView cursor.old) }
{
    let promise = read_view(cursor)?;
    Ok(Answer::NoView { promise })
}

#[tactic(auto, unfolding(crate::specs::Answers::answer_at))]
fn read_unknown(cursor: &mut Cursor) -> Result<Answer, LineFault>
    ensures { Tries (λ m. m) line_left result cursor.new (answer_at versions.Second kinds.Unknown cursor.old) }
{
    let txn = read_txn(cursor)?;
    Ok(Answer::Unknown { txn })
}

#[tactic(auto, unfolding(crate::specs::Answers::answer_at))]
fn read_skipped(cursor: &mut Cursor) -> Result<Answer, LineFault>
    ensures { Tries (λ m. m) line_left result cursor.new (answer_at versions.Second kinds.Skipped cursor.old) }
{
    let (txn, expected) = read_numbered(cursor)?;
    Ok(Answer::Skipped { txn, expected })
}

#[tactic(auto, unfolding(crate::specs::Answers::answer_at))]
fn read_busy(cursor: &mut Cursor) -> Result<Answer, LineFault>
    ensures { Tries (λ m. m) line_left result cursor.new (answer_at versions.Second kinds.Busy cursor.old) }
{
    let (txn, number) = read_numbered(cursor)?;
    Ok(Answer::Busy { txn, number })
}

#[tactic(auto, unfolding(crate::specs::Answers::answer_at))]
fn read_no_record(cursor: &mut Cursor) -> Result<Answer, LineFault>
    ensures { Tries (λ m. m) line_left result cursor.new (answer_at versions.Second kinds.NoRecord cursor.old) }
{
    let (txn, number) = read_numbered(cursor)?;
    Ok(Answer::NoRecord { txn, number })
}

#[tactic(auto, unfolding(crate::specs::Answers::answer_at))]
fn read_too_many_ops(cursor: &mut Cursor) -> Result<Answer, LineFault>
    ensures { Tries (λ m. m) line_left result cursor.new (answer_at versions.Second kinds.TooManyOps cursor.old) }
{
    let (txn, number) = read_numbered(cursor)?;
    Ok(Answer::TooManyOps { txn, number })
}

#[tactic(auto, unfolding(crate::specs::Answers::answer_at))]
fn read_inaccessible(alloc: Global, cursor: &mut Cursor) -> Result<Answer, LineFault>
    ensures { Tries (λ m. m) line_left result cursor.new (answer_at versions.Second kinds.Inaccessible cursor.old) }
{
    let (txn, number) = read_numbered(cursor)?;
    let name = read_name(alloc, cursor)?;
    let inside = read_u32(cursor)?;
    let total = read_u32(cursor)?;
    Ok(Answer::Inaccessible {
        txn,
        number,
        name,
        inside,
        total,
    })
}

#[tactic(auto, unfolding(crate::specs::Answers::answer_at))]
fn read_lock_held(alloc: Global, cursor: &mut Cursor) -> Result<Answer, LineFault>
    ensures { Tries (λ m. m) line_left result cursor.new (answer_at versions.Second kinds.LockHeld cursor.old) }
{
    let (txn, number) = read_numbered(cursor)?;
    let name = read_name(alloc, cursor)?;
    let at = read_site(cursor)?;
    let owner = read_owner(cursor)?;
    Ok(Answer::LockHeld {
        txn,
        number,
        name,
        at,
        owner,
    })
}

#[tactic(auto, unfolding(crate::specs::Answers::answer_at))]
fn read_view_changed(cursor: &mut Cursor) -> Result<Answer, LineFault>
    ensures { Tries (λ m. m) line_left result cursor.new (answer_at versions.Second kinds.ViewChanged cursor.old) }
{
    let (txn, number) = read_numbered(cursor)?;
    let at = read_site(cursor)?;
    let held = read_view(cursor)?;
    let now = read_maybe_view(cursor)?;
    Ok(Answer::ViewChanged {
        txn,
        number,
        at,
        held,
        now,
    })
}

#[tactic(auto, unfolding(crate::specs::Answers::answer_at))]
fn read_timed_out(cursor: &mut Cursor) -> Result<Answer, LineFault>
    ensures { Tries (λ m. m) line_left result cursor.new (answer_at versions.Second kinds.TimedOut cursor.old) }
{
    let (txn, number) = read_numbered(cursor)?;
    let at = read_site(cursor)?;
    Ok(Answer::TimedOut { txn, number, at })
}

#[tactic(auto, unfolding(crate::specs::Answers::answer_at))]
fn read_spent(cursor: &mut Cursor) -> Result<Answer, LineFault>
    ensures { Tries (λ m. m) line_left result cursor.new (answer_at versions.Second kinds.Spent cursor.old) }
{
    let number = read_u64(cursor)?;
    Ok(Answer::Spent { number })
}

#[tactic(auto, unfolding(crate::specs::Answers::answer_at))]
fn read_absent(cursor: &mut Cursor) -> Result<Answer, LineFault>
    ensures { Tries (λ m. m) line_left result cursor.new (answer_at versions.Second kinds.Absent cursor.old) }
{
    let (txn, number) = read_numbered(cursor)?;
    Ok(Answer::Absent { txn, number })
}

#[tactic(auto, unfolding(crate::specs::Answers::answer_at))]
fn read_deleted(cursor: &mut Cursor) -> Result<Answer, LineFault>
    ensures { Tries (λ m. m) line_left result cursor.new (answer_at versions.Second kinds.Deleted cursor.old) }
{
    let (txn, number) = read_numbered(cursor)?;
    Ok(Answer::Deleted { txn, number })
}

#[tactic(auto, unfolding(crate::specs::Answers::answer_at))]
fn read_weighed(cursor: &mut Cursor) -> Result<Answer, LineFault>
    ensures { Tries (λ m. m) line_left result cursor.new (answer_at versions.Second kinds.Weighed cursor.old) }
{
    let (txn, number) = read_numbered(cursor)?;
    Ok(Answer::Weighed { txn, number })
}

#[tactic(auto, unfolding(crate::specs::Answers::answer_at))]
fn read_bad_table(cursor: &mut Cursor) -> Result<Answer, LineFault>
    ensures { Tries (λ m. m) line_left result cursor.new (answer_at versions.Second kinds.BadTable cursor.old) }
{
    let (txn, number) = read_numbered(cursor)?;
    Ok(Answer::BadTable { txn, number })
}
