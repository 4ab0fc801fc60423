//! The last changes that a transaction makes, and the parts that hold their records.

ghost use Rattle.std.specs.Prelude.{◌≡◌, not, OnOk, IfOk, map, option_copied};
ghost use Rattle.vp_model.specs.Words.{is_empty, put_at};
ghost use Rattle.vp_model.specs.Transactions.{with_op, last_writes, last_put, change_of, entry_of, last_changes, writes_held, writing_parts};

use std::alloc::Global;
use vp_base::{
    Change, CopyOf, Live, NoMemory, Op, Put, RecId, SiteId, Sites, Table, Value, Writes,
};
use vp_catalog::Catalog;
use vp_lists::{put, value_at};

/// Adds what the operation wrote, if it wrote.
pub fn add_op(writes: &mut Vec<(RecId, Option<Value>)>, op: &Op) -> Result<(), NoMemory>
    ensures { OnOk result (writes.new.items ≡ with_op writes.old.items op.now) }
{
    match op {
        Op::Read { .. } => Ok(()),
        Op::Write { rec, value } => {
            let value = value.copy_of()?;
            put(writes, (*rec, value))
        }
    }
}

/// The last content that the operations wrote to each record, ascending by record.
pub fn last_writes(alloc: Global, ops: &[Op]) -> Result<Vec<(RecId, Option<Value>)>, NoMemory>
    ensures { IfOk result (λ writes. writes.items ≡ last_writes ops.now) }
{
    let mut writes = Vec::new(alloc);
    for op in ops {
        add_op(&mut writes, op)?;
    }
    Ok(writes)
}

/// What the last content that was written makes of the record's content.
fn last_put(written: Option<&Option<Value>>) -> Result<Put, NoMemory>
    ensures { IfOk result (λ it. it ≡ last_put (option_copied written.entry)) }
{
    Ok(match written {
        None => Put::Keep,
        Some(None) => Put::Absent,
        Some(Some(value)) => Put::Value {
            value: value.copy_of()?,
        },
    })
}

fn copy_of_table(table: Option<&Table>) -> Result<Option<Table>, NoMemory>
    ensures { IfOk result (λ copy. copy ≡ option_copied table.entry) }
{
    match table {
        None => Ok(None),
        Some(table) => Ok(Some(table.copy_of()?)),
    }
}

/// What the transaction, which last wrote these contents, last made of the record.
fn change_of(t: &Live, contents: &[(RecId, Option<Value>)], rec: RecId) -> Result<Change, NoMemory>
    requires { contents.now ≡ last_writes t.now.ops }
    ensures { IfOk result (λ change. change ≡ change_of rec t.now.ops t.now.tables) }
{
    Ok(Change {
        put: last_put(value_at(contents, rec))?,
        table: copy_of_table(value_at(t.tables.as_slice(), rec))?,
    })
}

/// The last changes of the records whose contents the transaction wrote.
fn written_changes(
    alloc: Global,
    t: &Live,
    contents: &[(RecId, Option<Value>)],
) -> Result<Vec<(RecId, Change)>, NoMemory>
    requires { contents.now ≡ last_writes t.now.ops }
    ensures { IfOk result (λ changes. changes.items ≡
        map (λ w. (w.0, change_of w.0 t.now.ops t.now.tables)) contents.now) }
{
    let mut changes = Vec::new(alloc);
    for write in contents {
        changes.push((write.0, change_of(t, contents, write.0)?))?;
    }
    Ok(changes)
}

/// Puts the last change of the record in its place.
fn put_change(
    changes: &mut Vec<(RecId, Change)>,
    t: &Live,
    contents: &[(RecId, Option<Value>)],
    rec: RecId,
) -> Result<(), NoMemory>
    requires { contents.now ≡ last_writes t.now.ops }
    ensures { OnOk result (changes.new.items ≡
        put_at rec (change_of rec t.now.ops t.now.tables) changes.old.items) }
{
    let change = change_of(t, contents, rec)?;
    put(changes, (rec, change))
}

/// The last change of each record that the transaction changed, ascending by record.
pub fn last_changes(alloc: Global, t: &Live) -> Result<Writes, NoMemory>
    ensures { IfOk result (λ changes. changes ≡ last_changes (entry_of t.now)) }
{
    let contents = last_writes(alloc, t.ops.as_slice())?;
    let mut changes = written_changes(alloc, t, &contents)?;
    for given in t.tables.as_slice() {
        put_change(&mut changes, t, &contents, given.0)?;
    }
    Ok(Writes::from_vec(changes))
}

fn copy_of_write(write: &(RecId, Change)) -> Result<(RecId, Change), NoMemory>
    ensures { IfOk result (λ copy. copy ≡ write.now) }
{
    Ok((write.0, write.1.copy_of()?))
}

/// Copies those changes whose records the site holds.
pub fn writes_held(
    alloc: Global,
    catalog: &Catalog,
    site: SiteId,
    writes: &[(RecId, Change)],
) -> Result<Writes, NoMemory>
    ensures { IfOk result (λ held. held ≡ writes_held catalog.now site writes.now) }
{
    let mut held = Vec::new(alloc);
    for write in writes {
        if catalog.is_holder(write.0, site) {
            held.push(copy_of_write(write)?)?;
        }
    }
    Ok(Writes::from_vec(held))
}

/// Whether the site holds one of the changed records.
fn holds_some(catalog: &Catalog, site: SiteId, writes: &[(RecId, Change)]) -> bool
    ensures { result ≡ not (is_empty (writes_held catalog.now site writes.now)) }
{
    writes.iter().any(|write| catalog.is_holder(write.0, site))
}

/// The parts that hold at least one of the changed records.
pub fn writing_parts(
    alloc: Global,
    catalog: &Catalog,
    t: &Live,
    writes: &[(RecId, Change)],
) -> Result<Sites, NoMemory>
    requires { writes.now ≡ last_changes (entry_of t.now) }
    ensures { IfOk result (λ parts. parts ≡ writing_parts catalog.now t.now) }
{
    let parts = t
        .parts
        .as_slice()
        .iter()
        .copied()
        .filter(|site| holds_some(catalog, *site, writes))
        .collect(alloc)?;
    Ok(Sites::from_vec(parts))
}
