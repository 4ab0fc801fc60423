//! The record of a call: whether it may be used as the call asks, and what its transaction and its site have for it.

ghost use Rattle.std.specs.Prelude.{◌≡◌, ◌≤◌, ◌||◌, IfOk, Some, None, false, is_some, nat_le, if◌then◌else◌, length, option_copied};
ghost use Rattle.vp_base.specs.declared.answer.Answer.TheVariants as answer;
ghost use Rattle.vp_model.specs.Words.{first_some, value_at};
ghost use Rattle.vp_model.specs.Catalogue.{accessible_by, weight_inside, weight_total};
ghost use Rattle.vp_model.specs.Transactions.{entry_of, last_writes, last_changes};
ghost use Rattle.vp_model.specs.Calls.{is_bad_table, is_too_large, short_by, short_of_holders, short};
ghost use Rattle.vp_coordinator.specs.Deeds.{as_deed, deed_asked};
ghost use Rattle.vp_coordinator.specs.Records.{usable_as, usable_record, writes};

use crate::around::Around;
use crate::deeds::{Deed, deed_asked};
use crate::here::Here;
use crate::sizes::is_too_large;
use vp_base::{
    Answer, Bars, Call, CopyOf, Live, MOST_OPS, Name, NoMemory, Op, RecId, Sites, Stored, Table,
    Value,
};
use vp_catalog::{Catalog, members_of};
use vp_lists::value_at;
use vp_transactions::Handled;

/// Whether the table that is asked for has other sites than the record's holders.
fn is_bad_table(catalog: &Catalog, deed: &Deed) -> Result<bool, NoMemory>
    ensures { IfOk result (λ bad. bad ≡ is_bad_table catalog.now (as_deed deed.now)) }
{
    match deed {
        Deed::Operates { .. } => Ok(false),
        Deed::Weighs { rec, table } => Ok(!catalog.has_holders(*rec, table)?),
    }
}

/// The weight inside and the whole weight by the table that is asked for, where no more than half is at the members.
fn short_by(deed: &Deed, members: &Sites) -> Option<(u32, u32)>
    ensures { result ≡ short_by (as_deed deed.now) members.now }
{
    match deed {
        Deed::Operates { .. } => None,
        Deed::Weighs { table, .. } => short_table(table, members),
    }
}

/// Both weights by a table, where no more than half is at the members.
fn short_table(table: &Table, members: &Sites) -> Option<(u32, u32)>
    ensures { result ≡
        (if accessible_by table.now members.now then None else Some (weight_inside members.now table.now, weight_total table.now)) }
{
    let inside = table.inside(members);
    let total = table.total();
    if u64::from(total) < 2 * u64::from(inside) {
        None
    } else {
        Some((inside, total))
    }
}

/// No weight inside and the whole weight by the catalogue, where no member holds the record.
fn short_of_holders(catalog: &Catalog, rec: RecId, members: &Sites) -> Option<(u32, u32)>
    ensures { result ≡ short_of_holders catalog.now rec members.now }
{
    if catalog.is_held_by_some(rec, members) {
        None
    } else {
        Some((0, catalog.total(rec)))
    }
}

/// Why the record may not be used, whatever is asked of it: the bar on the copy here, or that no member holds it.
fn short_here(catalog: &Catalog, bars: &Bars, rec: RecId, members: &Sites) -> Option<(u32, u32)>
    ensures { result ≡ first_some (value_at rec bars.now) (short_of_holders catalog.now rec members.now) }
{
    match bars.find(rec) {
        None => short_of_holders(catalog, rec, members),
        Some(weights) => Some(weights),
    }
}

/// Why the record may not be used so in the held view, as two weights.
fn short(at: &Around<'_, '_>, bars: &Bars, rec: RecId, deed: &Deed) -> Option<(u32, u32)>
    ensures { result ≡ short at.now.catalog.now (option_copied at.now.held) bars.now rec (as_deed deed.now) }
{
    let none = Sites::new(bars.allocator());
    let members = members_of(at.held, &none);
    match short_by(deed, members) {
        None => short_here(at.catalog, bars, rec, members),
        Some(weights) => Some(weights),
    }
}

/// The answer that the record isn't accessible in the view, for these weights.
fn inaccessible(handled: &Handled, name: &Name, weights: (u32, u32)) -> Result<Answer, NoMemory>
    ensures { IfOk result (λ told. told ≡
        answer.Inaccessible handled.now.live.txn handled.now.pending.number name.now weights.0 weights.1) }
{
    Ok(Answer::Inaccessible {
        txn: handled.txn(),
        number: handled.number(),
        name: name.copy_of()?,
        inside: weights.0,
        total: weights.1,
    })
}

/// Whether the transaction has had as many answers as it may have, or would get too large by this.
fn is_over(t: &Live, deed: &Deed) -> Result<bool, NoMemory>
    ensures { IfOk result (λ over. over ≡
        (nat_le 64 (length t.now.answers) || is_too_large t.now (as_deed deed.now))) }
{
    Ok(t.answers.as_slice().len() >= usize::from(MOST_OPS) || is_too_large(t, deed)?)
}

fn usable_as(
    at: &Around<'_, '_>,
    bars: &Bars,
    handled: &Handled,
    name: &Name,
    rec: RecId,
    deed: &Deed,
) -> Result<Result<RecId, Answer>, NoMemory>
    ensures { IfOk result (λ found. found ≡
        usable_as at.now.catalog.now (option_copied at.now.held) bars.now handled.now.live handled.now.pending name.now rec (as_deed deed.now)) }
{
    let txn = handled.txn();
    let number = handled.number();
    if is_bad_table(at.catalog, deed)? {
        return Ok(Err(Answer::BadTable { txn, number }));
    }
    if is_over(&handled.live, deed)? {
        return Ok(Err(Answer::TooManyOps { txn, number }));
    }
    match short(at, bars, rec, deed) {
        None => Ok(Ok(rec)),
        Some(weights) => Ok(Err(inaccessible(handled, name, weights)?)),
    }
}

/// Finds the record that the call names, or else gives the answer that refuses its use.
pub fn usable_record(
    at: &Around<'_, '_>,
    bars: &Bars,
    handled: &Handled,
    name: &Name,
    call: &Call,
) -> Result<Result<RecId, Answer>, NoMemory>
    ensures { IfOk result (λ found. found ≡
        usable_record at.now.catalog.now (option_copied at.now.held) bars.now handled.now.live handled.now.pending name.now (deed_asked call.now)) }
{
    match at.catalog.find(name) {
        None => Ok(Err(Answer::NoRecord {
            txn: handled.txn(),
            number: handled.number(),
        })),
        Some(rec) => {
            let deed = deed_asked(call, rec)?;
            usable_as(at, bars, handled, name, rec, &deed)
        }
    }
}

fn writes(op: &Op, rec: RecId) -> bool
    ensures { result ≡ writes rec op.now }
{
    match op {
        Op::Read { .. } => false,
        Op::Write { rec: written, .. } => *written == rec,
    }
}

/// The content that the operations last wrote to the record.
fn last_write<'a>(ops: &'a [Op], rec: RecId) -> Option<&'a Option<Value>>
    ensures { option_copied result ≡ value_at rec (last_writes ops.now) }
{
    match ops.iter().rev().find(|op| writes(op, rec)) {
        None => None,
        Some(Op::Read { .. }) => None,
        Some(Op::Write { value, .. }) => Some(value),
    }
}

fn has_written(t: &Live, rec: RecId) -> bool
    ensures { result ≡ is_some (value_at rec (last_writes t.now.ops)) }
{
    last_write(t.ops.as_slice(), rec).is_some()
}

fn has_weighed(t: &Live, rec: RecId) -> bool
    ensures { result ≡ is_some (value_at rec t.now.tables) }
{
    value_at(t.tables.as_slice(), rec).is_some()
}

/// Whether the transaction has changed the record.
#[tactic(auto, using(crate::proofs::HasChanged::by_write, crate::proofs::HasChanged::by_table))]
pub fn has_changed(t: &Live, rec: RecId) -> bool
    ensures { result ≡ is_some (value_at rec (last_changes (entry_of t.now))) }
{
    has_written(t, rec) || has_weighed(t, rec)
}

/// Copies the content that the transaction last wrote to the record.
pub fn own_write(t: &Live, rec: RecId) -> Result<Option<Option<Value>>, NoMemory>
    ensures { IfOk result (λ content. content ≡ value_at rec (last_writes t.now.ops)) }
{
    match last_write(t.ops.as_slice(), rec) {
        None => Ok(None),
        Some(content) => Ok(Some(content.copy_of()?)),
    }
}

/// The copy of the record here, if there is one.
pub fn copy_here(here: &Here, rec: RecId) -> Result<Option<Stored>, NoMemory>
    ensures { IfOk result (λ stored. stored ≡ value_at rec here.now.copies) }
{
    match here.copies.get(rec) {
        None => Ok(None),
        Some(stored) => Ok(Some(stored.copy_of()?)),
    }
}
