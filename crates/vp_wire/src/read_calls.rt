//! Reading the fields of calls. Where both versions have the same fields, what is read is said for the second.

ghost use Rattle.vp_text.specs.Reading.{Tries};
ghost use Rattle.vp_base.specs.Faults.{line_left};
ghost use Rattle.vp_wire.specs.declared.kind.CallKind.TheVariants as kinds;
ghost use Rattle.vp_wire.specs.Calls.{call_at};
ghost use Rattle.vp_contents.specs.declared.version.Version.TheVariants as versions;

use crate::kind::CallKind;
use std::alloc::Global;
use vp_base::{Call, LineFault};
use vp_bytes::{read_name, read_numbered};
use vp_contents::{Version, read_table, read_value};
use vp_text::Cursor;

/// Reads the fields of a call of this kind.
#[tactic(auto, unfolding(crate::specs::Calls::call_at))]
pub fn read_call(
    alloc: Global,
    cursor: &mut Cursor,
    version: Version,
    kind: CallKind,
) -> Result<Call, LineFault>
    ensures { Tries (λ m. m) line_left result cursor.new (call_at version kind cursor.old) }
{
    match kind {
        CallKind::Begin => Ok(Call::Begin),
        CallKind::Regroup => Ok(Call::Regroup),
        CallKind::Read => read_read_call(alloc, cursor),
        CallKind::Write => read_write(alloc, cursor, version),
        CallKind::Commit => read_commit(cursor),
        CallKind::Abort => read_abort(cursor),
        CallKind::Delete => read_delete(alloc, cursor),
        CallKind::Weigh => read_weigh(alloc, cursor),
    }
}

#[tactic(auto, unfolding(crate::specs::Calls::call_at))]
fn read_read_call(alloc: Global, cursor: &mut Cursor) -> Result<Call, LineFault>
    ensures { Tries (λ m. m) line_left result cursor.new (call_at versions.Second kinds.Read cursor.old) }
{
    let (txn, number) = read_numbered(cursor)?;
    let name = read_name(alloc, cursor)?;
    Ok(Call::Read { txn, number, name })
}

#[tactic(auto, unfolding(crate::specs::Calls::call_at))]
fn read_write(alloc: Global, cursor: &mut Cursor, version: Version) -> Result<Call, LineFault>
    ensures { Tries (λ m. m) line_left result cursor.new (call_at version kinds.Write cursor.old) }
{
    let (txn, number) = read_numbered(cursor)?;
    let name = read_name(alloc, cursor)?;
    let value = read_value(alloc, cursor, version)?;
    Ok(Call::Write {
        txn,
        number,
        name,
        value,
    })
}

#[tactic(auto, unfolding(crate::specs::Calls::call_at))]
fn read_commit(cursor: &mut Cursor) -> Result<Call, LineFault>
    ensures { Tries (λ m. m) line_left result cursor.new (call_at versions.Second kinds.Commit cursor.old) }
{
    let (txn, number) = read_numbered(cursor)?;
    Ok(Call::Commit { txn, number })
}

#[tactic(auto, unfolding(crate::specs::Calls::call_at))]
fn read_abort(cursor: &mut Cursor) -> Result<Call, LineFault>
    ensures { Tries (λ m. m) line_left result cursor.new (call_at versions.Second kinds.Abort cursor.old) }
{
    let (txn, number) = read_numbered(cursor)?;
    Ok(Call::Abort { txn, number })
}

#[tactic(auto, unfolding(crate::specs::Calls::call_at))]
fn read_delete(alloc: Global, cursor: &mut Cursor) -> Result<Call, LineFault>
    ensures { Tries (λ m. m) line_left result cursor.new (call_at versions.Second kinds.Delete cursor.old) }
{
    let (txn, number) = read_numbered(cursor)?;
    let name = read_name(alloc, cursor)?;
    Ok(Call::Delete { txn, number, name })
}

#[tactic(auto, unfolding(crate::specs::Calls::call_at))]
fn read_weigh(alloc: Global, cursor: &mut Cursor) -> Result<Call, LineFault>
    ensures { Tries (λ m. m) line_left result cursor.new (call_at versions.Second kinds.Weigh cursor.old) }
{
    let (txn, number) = read_numbered(cursor)?;
    let name = read_name(alloc, cursor)?;
    let table = read_table(alloc, cursor)?;
    Ok(Call::Weigh {
        txn,
        number,
        name,
        table,
    })
}
