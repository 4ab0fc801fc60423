//! Printing messages, as a trace has them.

ghost use Rattle.std.specs.Prelude.{◌++◌, ◌∷◌, ℕ, codes, flat_map};
ghost use Rattle.vp_base.specs.declared.message.Message.TheVariants as message;
ghost use Rattle.vp_model.specs.Types.{Change as ChangeState};
ghost use Rattle.vp_text.specs.Printing.{Appends};
ghost use Rattle.std.specs.Fmt.{decimal};
ghost use Rattle.vp_model.specs.Catalogue.{name_of};
ghost use Rattle.vp_model.specs.Texts.Fields.{view_text, txn_text, call_name_text, sites_text, table_text};
ghost use Rattle.vp_model.specs.Texts.Messages.{message_text, request_text, read_text, put_text, write_text, given_text, own_table_text, copy_text, obstacle_text, outcome_text};
ghost use Rattle.vp_trace.specs.Copies.{begun_copy};

use crate::fields::{
    print_count, print_counted, print_held, print_numbered, print_owner, print_record,
    print_record_after, print_sites, print_txn, print_value, print_view, print_word,
};
use vp_base::{
    Boxed, CallNo, Change, Message, NoMemory, Obstacle, Put, RecId, SiteId, Stored, Table, TxnId,
    Value, ViewId,
};
use vp_catalog::{Catalog, print_weights};

fn print_stale(out: &mut Vec<u8>, id: &ViewId, promise: &ViewId) -> Result<(), NoMemory>
    ensures { Appends result out.old.items
        (codes "stale " ++ (view_text id.now ++ 32 ∷ view_text promise.now)) out.new.items }
{
    print_view(out, b"stale ", id)?;
    print_view(out, b" ", promise)
}

fn print_members(out: &mut Vec<u8>, id: &ViewId, members: &[SiteId]) -> Result<(), NoMemory>
    ensures { Appends result out.old.items
        (codes "view " ++ (view_text id.now ++ 32 ∷ sites_text members.now)) out.new.items }
{
    print_view(out, b"view ", id)?;
    out.push(b' ')?;
    print_sites(out, members)
}

fn print_request(
    out: &mut Vec<u8>,
    word: &[u8],
    txn: &TxnId,
    view: &ViewId,
    number: CallNo,
) -> Result<(), NoMemory>
    ensures { Appends result out.old.items (request_text word.now txn.now view.now number) out.new.items }
{
    print_word(out, word)?;
    txn.print(out)?;
    out.push(b' ')?;
    view.print(out)?;
    out.push(b' ')?;
    print_count(out, number.get())
}

fn print_lock_request(
    out: &mut Vec<u8>,
    catalog: &Catalog,
    word: &[u8],
    txn: &TxnId,
    view: &ViewId,
    number: CallNo,
    rec: RecId,
) -> Result<(), NoMemory>
    ensures { Appends result out.old.items
        (request_text word.now txn.now view.now number ++ 32 ∷ name_of catalog.now rec) out.new.items }
{
    print_request(out, word, txn, view, number)?;
    print_record_after(out, catalog, rec)
}

fn print_read_value(
    out: &mut Vec<u8>,
    txn: &TxnId,
    number: CallNo,
    value: &Value,
) -> Result<(), NoMemory>
    ensures { Appends result out.old.items
        (codes "read-answer " ++ (call_name_text txn.now number ++ 32 ∷ value.now)) out.new.items }
{
    print_numbered(out, b"read-answer ", txn, number)?;
    print_value(out, value)
}

fn print_read_answer(
    out: &mut Vec<u8>,
    catalog: &Catalog,
    txn: &TxnId,
    number: CallNo,
    value: &Option<Boxed<Value>>,
) -> Result<(), NoMemory>
    ensures { Appends result out.old.items
        (message_text catalog.now (message.ReadAnswer txn.now number value.now)) out.new.items }
{
    match value {
        None => print_numbered(out, b"read-absent ", txn, number),
        Some(value) => print_read_value(out, txn, number, value.as_ref()),
    }
}

fn print_barred(out: &mut Vec<u8>, inside: u32, total: u32) -> Result<(), NoMemory>
    ensures { Appends result out.old.items
        (codes "barred " ++ (decimal inside ++ (codes " of " ++ decimal total))) out.new.items }
{
    print_counted(out, b"barred ", inside)?;
    print_counted(out, b" of ", total)
}

fn print_obstacle(out: &mut Vec<u8>, why: &Obstacle) -> Result<(), NoMemory>
    ensures { Appends result out.old.items (obstacle_text why.now) out.new.items }
{
    match why {
        Obstacle::Held { owner } => {
            print_word(out, b"held ")?;
            print_owner(out, owner)
        }
        Obstacle::OtherView { now } => {
            print_word(out, b"view ")?;
            print_held(out, now)
        }
        Obstacle::Barred { inside, total } => print_barred(out, *inside, *total),
    }
}

fn print_refuse(
    out: &mut Vec<u8>,
    txn: &TxnId,
    number: CallNo,
    why: &Obstacle,
) -> Result<(), NoMemory>
    ensures { Appends result out.old.items
        (codes "refuse " ++ (call_name_text txn.now number ++ 32 ∷ obstacle_text why.now)) out.new.items }
{
    print_numbered(out, b"refuse ", txn, number)?;
    out.push(b' ')?;
    print_obstacle(out, why)
}

fn print_reads(out: &mut Vec<u8>, catalog: &Catalog, reads: &[RecId]) -> Result<(), NoMemory>
    ensures { Appends result out.old.items (flat_map (read_text catalog.now) reads.now) out.new.items }
{
    for rec in reads {
        print_word(out, b" r ")?;
        print_record(out, catalog, *rec)?;
    }
    Ok(())
}

fn print_put_value(
    out: &mut Vec<u8>,
    catalog: &Catalog,
    rec: RecId,
    value: &Value,
) -> Result<(), NoMemory>
    ensures { Appends result out.old.items (codes " w " ++ (name_of catalog.now rec ++ 32 ∷ value.now))
        out.new.items }
{
    print_word(out, b" w ")?;
    print_record(out, catalog, rec)?;
    print_value(out, value)
}

fn print_put_absent(out: &mut Vec<u8>, catalog: &Catalog, rec: RecId) -> Result<(), NoMemory>
    ensures { Appends result out.old.items (codes " d " ++ name_of catalog.now rec) out.new.items }
{
    print_word(out, b" d ")?;
    print_record(out, catalog, rec)
}

/// Appends what a change makes of the content of the record: nothing where it keeps it.
#[tactic(auto, using(vp_text::proofs::Printing::printing))]
fn print_put(out: &mut Vec<u8>, catalog: &Catalog, rec: RecId, put: &Put) -> Result<(), NoMemory>
    ensures { Appends result out.old.items (put_text catalog.now rec put.now) out.new.items }
{
    match put {
        Put::Keep => Ok(()),
        Put::Absent => print_put_absent(out, catalog, rec),
        Put::Value { value } => print_put_value(out, catalog, rec, value),
    }
}

fn print_writes(
    out: &mut Vec<u8>,
    catalog: &Catalog,
    writes: &[(RecId, Change)],
) -> Result<(), NoMemory>
    ensures { Appends result out.old.items (flat_map (write_text catalog.now) writes.now) out.new.items }
{
    for write in writes {
        print_put(out, catalog, write.0, &write.1.put)?;
    }
    Ok(())
}

fn print_table(
    out: &mut Vec<u8>,
    catalog: &Catalog,
    rec: RecId,
    table: &[(SiteId, u16)],
) -> Result<(), NoMemory>
    ensures { Appends result out.old.items (codes " t " ++ (name_of catalog.now rec ++ table_text table.now))
        out.new.items }
{
    print_word(out, b" t ")?;
    print_record(out, catalog, rec)?;
    print_weights(out, table)
}

/// Appends the table that a change gives the record, if there is one.
#[tactic(auto, using(vp_text::proofs::Printing::printing))]
fn print_given(
    out: &mut Vec<u8>,
    catalog: &Catalog,
    rec: RecId,
    table: &Option<Table>,
) -> Result<(), NoMemory>
    ensures { Appends result out.old.items (given_text catalog.now rec table.now) out.new.items }
{
    match table {
        None => Ok(()),
        Some(table) => print_table(out, catalog, rec, table.as_slice()),
    }
}

fn print_tables(
    out: &mut Vec<u8>,
    catalog: &Catalog,
    writes: &[(RecId, Change)],
) -> Result<(), NoMemory>
    ensures { Appends result out.old.items (flat_map (λ (w : ℕ × ChangeState). given_text catalog.now w.0 w.1.table) writes.now)
        out.new.items }
{
    for write in writes {
        print_given(out, catalog, write.0, &write.1.table)?;
    }
    Ok(())
}

fn print_outcome(out: &mut Vec<u8>, txn: &TxnId, commit: bool) -> Result<(), NoMemory>
    ensures { Appends result out.old.items (codes "outcome " ++ (txn_text txn.now ++ outcome_text commit))
        out.new.items }
{
    print_txn(out, b"outcome ", txn)?;
    print_decided(out, commit)
}

#[tactic(auto, using(vp_text::proofs::Printing::printing))]
fn print_decided(out: &mut Vec<u8>, commit: bool) -> Result<(), NoMemory>
    ensures { Appends result out.old.items (outcome_text commit) out.new.items }
{
    if commit {
        print_word(out, b" commit")
    } else {
        print_word(out, b" abort")
    }
}

fn print_refresh_request(
    out: &mut Vec<u8>,
    catalog: &Catalog,
    view: &ViewId,
    rec: RecId,
) -> Result<(), NoMemory>
    ensures { Appends result out.old.items
        (codes "refresh-request " ++ (view_text view.now ++ 32 ∷ name_of catalog.now rec)) out.new.items }
{
    print_view(out, b"refresh-request ", view)?;
    print_record_after(out, catalog, rec)
}

/// Appends a space, the date of a copy, and its own table if it has one.
fn print_dated(out: &mut Vec<u8>, stored: &Stored) -> Result<(), NoMemory>
    ensures { Appends result out.old.items
        (32 ∷ (view_text stored.now.date ++ own_table_text stored.now.table)) out.new.items }
{
    print_view(out, b" ", &stored.date)?;
    print_own_table(out, &stored.table)
}

#[tactic(auto, using(vp_text::proofs::Printing::printing))]
fn print_own_table(out: &mut Vec<u8>, table: &Option<Table>) -> Result<(), NoMemory>
    ensures { Appends result out.old.items (own_table_text table.now) out.new.items }
{
    match table {
        None => Ok(()),
        Some(table) => print_weights(out, table.as_slice()),
    }
}

/// Appends the bytes, a view and the name of a record.
fn print_refreshed(
    out: &mut Vec<u8>,
    catalog: &Catalog,
    word: &[u8],
    view: &ViewId,
    rec: RecId,
) -> Result<(), NoMemory>
    ensures { Appends result out.old.items
        (word.now ++ (view_text view.now ++ 32 ∷ name_of catalog.now rec)) out.new.items }
{
    print_word(out, word)?;
    view.print(out)?;
    print_record_after(out, catalog, rec)
}

fn print_copy_value(
    out: &mut Vec<u8>,
    catalog: &Catalog,
    view: &ViewId,
    rec: RecId,
    value: &Value,
) -> Result<(), NoMemory>
    ensures { Appends result out.old.items
        ((codes "refresh-answer " ++ (view_text view.now ++ 32 ∷ name_of catalog.now rec)) ++ 32 ∷ value.now)
        out.new.items }
{
    print_refreshed(out, catalog, b"refresh-answer ", view, rec)?;
    print_value(out, value)
}

/// Appends the beginning of an answer to a refresh, up to the content.
fn print_content(
    out: &mut Vec<u8>,
    catalog: &Catalog,
    view: &ViewId,
    rec: RecId,
    content: &Option<Value>,
) -> Result<(), NoMemory>
    ensures { Appends result out.old.items (begun_copy catalog.now view.now rec content.now) out.new.items }
{
    match content {
        None => print_refreshed(out, catalog, b"refresh-absent ", view, rec),
        Some(value) => print_copy_value(out, catalog, view, rec, value),
    }
}

fn print_refresh_answer(
    out: &mut Vec<u8>,
    catalog: &Catalog,
    view: &ViewId,
    rec: RecId,
    stored: &Stored,
) -> Result<(), NoMemory>
    ensures { Appends result out.old.items
        (copy_text (view_text view.now ++ 32 ∷ name_of catalog.now rec) stored.now.value stored.now)
        out.new.items }
{
    print_content(out, catalog, view, rec, &stored.value)?;
    print_dated(out, stored)
}

fn print_prepare(
    out: &mut Vec<u8>,
    catalog: &Catalog,
    txn: &TxnId,
    view: &ViewId,
    number: CallNo,
    reads: &[RecId],
    writes: &[(RecId, Change)],
) -> Result<(), NoMemory>
    ensures { Appends result out.old.items
        (request_text (codes "prepare ") txn.now view.now number ++
        (flat_map (read_text catalog.now) reads.now ++
        (flat_map (write_text catalog.now) writes.now ++
        flat_map (λ (w : ℕ × ChangeState). given_text catalog.now w.0 w.1.table) writes.now)))
        out.new.items }
{
    print_request(out, b"prepare ", txn, view, number)?;
    print_reads(out, catalog, reads)?;
    print_writes(out, catalog, writes)?;
    print_tables(out, catalog, writes)
}

/// Appends a message as a trace has it, with its records by name. After an error a beginning of it may have been appended.
pub fn print_message(
    catalog: &Catalog,
    message: &Message,
    out: &mut Vec<u8>,
) -> Result<(), NoMemory>
    ensures { Appends result out.old.items (message_text catalog.now message.now) out.new.items }
{
    match message {
        Message::Invite { id } => print_view(out, b"invite ", id),
        Message::Accept { id } => print_view(out, b"accept ", id),
        Message::Stale { id, promise } => print_stale(out, id, promise),
        Message::ViewCommit { id, members } => print_members(out, id, members.as_slice()),
        Message::ReadRequest {
            txn,
            view,
            number,
            rec,
        } => print_lock_request(out, catalog, b"read-request ", txn, view, *number, *rec),
        Message::ReadAnswer { txn, number, value } => {
            print_read_answer(out, catalog, txn, *number, value)
        }
        Message::WriteRequest {
            txn,
            view,
            number,
            rec,
        } => print_lock_request(out, catalog, b"write-request ", txn, view, *number, *rec),
        Message::WriteAnswer { txn, number } => print_numbered(out, b"write-answer ", txn, *number),
        Message::Refuse { txn, number, why } => print_refuse(out, txn, *number, why),
        Message::Prepare {
            txn,
            view,
            number,
            reads,
            writes,
        } => print_prepare(
            out,
            catalog,
            txn,
            view,
            *number,
            reads.as_ref().as_slice(),
            writes.as_ref().as_slice(),
        ),
        Message::Vote { txn } => print_txn(out, b"vote ", txn),
        Message::Outcome { txn, commit } => print_outcome(out, txn, *commit),
        Message::Ack { txn } => print_txn(out, b"ack ", txn),
        Message::Inquire { txn } => print_txn(out, b"inquire ", txn),
        Message::RefreshRequest { view, rec } => print_refresh_request(out, catalog, view, *rec),
        Message::RefreshAnswer { view, rec, stored } => {
            print_refresh_answer(out, catalog, view, *rec, stored.as_ref())
        }
        Message::Probe { view } => print_view(out, b"probe ", view),
    }
}
