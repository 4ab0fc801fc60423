//! Lists of pairs of a record and a value.

ghost use Rattle.std.specs.Prelude.{◌≡◌, OnOk, option_copied, if◌then◌else◌, ◌==◌};
ghost use Rattle.vp_model.specs.Words.{change_at, value_at, replace_at};
ghost use Rattle.vp_model.specs.Durable.{changed, with_new_table, with_put, with_writes};

use vp_base::{Change, CopyOf, NoMemory, Put, RecId, Stored, Table, Value, ViewId};

/// Finds the first value of the record.
pub fn value_at<'a, V>(pairs: &'a [(RecId, V)], rec: RecId) -> Option<&'a V>
    ensures { option_copied result ≡ value_at rec pairs.now }
{
    pairs.iter().find(|pair| pair.0 == rec).map(|pair| &pair.1)
}

fn replace_one(copy: &mut (RecId, Stored), rec: RecId, stored: &Stored) -> Result<(), NoMemory>
    ensures { OnOk result (copy.new ≡ (if copy.old.0 == rec then (rec, stored.now) else copy.old)) }
{
    if copy.0 == rec {
        copy.1 = stored.copy_of()?;
    }
    Ok(())
}

/// Puts this copy where the record has one.
pub fn replace_at(
    copies: &mut [(RecId, Stored)],
    rec: RecId,
    stored: &Stored,
) -> Result<(), NoMemory>
    ensures { OnOk result (copies.new ≡ replace_at rec stored.now copies.old) }
{
    for copy in copies.iter_mut() {
        replace_one(copy, rec, stored)?;
    }
    Ok(())
}

/// Makes of the content what the put says.
fn put_content(content: &mut Option<Value>, put: &Put) -> Result<(), NoMemory>
    ensures { OnOk result (content.new ≡ with_put put.now content.old) }
{
    match put {
        Put::Keep => {}
        Put::Absent => *content = None,
        Put::Value { value } => *content = Some(value.copy_of()?),
    }
    Ok(())
}

/// Puts the table where one is given.
fn put_table(table: &mut Option<Table>, given: &Option<Table>) -> Result<(), NoMemory>
    ensures { OnOk result (table.new ≡ with_new_table given.now table.old) }
{
    match given {
        None => {}
        Some(given) => *table = Some(given.copy_of()?),
    }
    Ok(())
}

/// Makes of the copy what a transaction of the view changed. After want of memory some of it may be changed.
pub fn change_copy(stored: &mut Stored, date: &ViewId, change: &Change) -> Result<(), NoMemory>
    ensures { OnOk result (stored.new ≡ changed date.now change.now stored.old) }
{
    put_content(&mut stored.value, &change.put)?;
    put_table(&mut stored.table, &change.table)?;
    stored.date = *date;
    Ok(())
}

fn change_one(
    copy: &mut (RecId, Stored),
    rec: RecId,
    date: &ViewId,
    change: &Change,
) -> Result<(), NoMemory>
    ensures { OnOk result
        (copy.new ≡ (if copy.old.0 == rec then (rec, changed date.now change.now copy.old.1) else copy.old)) }
{
    if copy.0 == rec {
        change_copy(&mut copy.1, date, change)?;
    }
    Ok(())
}

/// Changes the copy where the record has one. After want of memory some of it may be changed.
pub fn change_at(
    copies: &mut [(RecId, Stored)],
    rec: RecId,
    date: &ViewId,
    change: &Change,
) -> Result<(), NoMemory>
    ensures { OnOk result (copies.new ≡ change_at rec (changed date.now change.now) copies.old) }
{
    for copy in copies.iter_mut() {
        change_one(copy, rec, date, change)?;
    }
    Ok(())
}

/// Makes of the copies what a transaction of the view changed: a record without a copy is passed over.
pub fn write_copies(
    copies: &mut [(RecId, Stored)],
    date: &ViewId,
    writes: &[(RecId, Change)],
) -> Result<(), NoMemory>
    ensures { OnOk result (copies.new ≡ with_writes date.now writes.now copies.old) }
{
    for write in writes {
        change_at(copies, write.0, date, &write.1)?;
    }
    Ok(())
}
