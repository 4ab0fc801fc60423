//! How large the prepare messages of a transaction may get.

ghost use Rattle.std.specs.Prelude.{◌≡◌, ◌++◌, ◌∷◌, [], ◌+◌, ◌*◌, ◌≤◌, IfOk, nat_lt, sum_by};
ghost use Rattle.vp_model.specs.Words.{put_at};
ghost use Rattle.vp_model.specs.Calls.{content_size, size_of, is_too_large};
ghost use Rattle.vp_coordinator.specs.Deeds.{as_deed};

use crate::deeds::Deed;
use crate::final_writes::{add_op, last_writes};
use vp_base::{CopyOf, Live, NoMemory, Op, RecId, Table, Value};
use vp_lists::put_in;

/// The most bytes of values that a transaction may last write, with 50 for each table.
const MOST_SIZE: usize = 15360;

/// The most tables that fit alone.
const MOST_TABLES: usize = 307;

/// The length of a value; 0 of none.
fn content_size(content: &Option<Value>) -> usize
    ensures size { result ≡ content_size content.now }
    ensures most { result ≤ 1024 }
{
    match content {
        None => 0,
        Some(value) => value.as_bytes().len(),
    }
}

/// Whether these contents and so many tables are more than a transaction may have.
fn exceeds(contents: &[(RecId, Option<Value>)], tables: usize) -> bool
    ensures { result ≡ nat_lt 15360 (sum_by (λ w. content_size w.1) contents.now + 50 * tables) }
{
    if tables > MOST_TABLES {
        return true;
    }
    let mut size = 50 * tables;
    for write in contents {
        size += content_size(&write.1);
        if size > MOST_SIZE {
            return true;
        }
    }
    false
}

/// Whether the transaction would have more than it may have, if it did this operation too.
#[tactic(auto, using(crate::proofs::LastWrites::written_next))]
fn exceeds_with_op(t: &Live, operation: &Op) -> Result<bool, NoMemory>
    ensures { IfOk result (λ over. over ≡
        nat_lt 15360 (size_of (record t.now { ops = t.now.ops ++ operation.now ∷ [] }))) }
{
    let mut contents = last_writes(t.ops.allocator(), t.ops.as_slice())?;
    add_op(&mut contents, operation)?;
    Ok(exceeds(&contents, t.tables.as_slice().len()))
}

/// Whether the transaction would have more than it may have, if it gave this table too.
fn exceeds_with_table(t: &Live, rec: RecId, table: &Table) -> Result<bool, NoMemory>
    ensures { IfOk result (λ over. over ≡
        nat_lt 15360 (size_of (record t.now { tables = put_at rec table.now t.now.tables }))) }
{
    let contents = last_writes(t.ops.allocator(), t.ops.as_slice())?;
    let mut tables = t.tables.copy_of()?;
    put_in(&mut tables, (rec, table.copy_of()?))?;
    Ok(exceeds(&contents, tables.as_slice().len()))
}

/// Whether a value or a table would make the transaction too large.
pub fn is_too_large(t: &Live, deed: &Deed) -> Result<bool, NoMemory>
    ensures { IfOk result (λ over. over ≡ is_too_large t.now (as_deed deed.now)) }
{
    match deed {
        Deed::Weighs { rec, table } => exceeds_with_table(t, *rec, table),
        Deed::Operates { operation } => match operation {
            Op::Read { .. } => Ok(false),
            Op::Write { value: None, .. } => Ok(false),
            Op::Write { value: Some(_), .. } => exceeds_with_op(t, operation),
        },
    }
}
