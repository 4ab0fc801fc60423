//! What a call of a transaction does, and what it asks for.

ghost use Rattle.std.specs.Prelude.{◌≡◌, OnOk, IfOk, option_map, option_copied};
ghost use Rattle.vp_model.specs.Transactions.{with_deed, deed_answer, with_done};
ghost use Rattle.vp_model.specs.Calls.{change_asked};
ghost use Rattle.vp_model.specs.Answers.{record_name};
ghost use Rattle.vp_coordinator.specs.Deeds.{as_deed, deed_asked};

use vp_base::{Answer, Call, CallNo, CopyOf, Live, Name, NoMemory, Op, RecId, Table, TxnId};
use vp_catalog::Catalog;
use vp_lists::put_in;

/// What a call of a transaction does: an operation, or a new table of a record.
#[derive(Drop)]
pub enum Deed {
    Operates { operation: Op },
    Weighs { rec: RecId, table: Table },
}

/// The record that the call names.
pub fn record_name(call: &Call) -> Option<&Name>
    ensures { option_copied result ≡ record_name call.now }
{
    match call {
        Call::Read { name, .. }
        | Call::Write { name, .. }
        | Call::Delete { name, .. }
        | Call::Weigh { name, .. } => Some(name),
        Call::Begin | Call::Commit { .. } | Call::Abort { .. } | Call::Regroup => None,
    }
}

/// What the call does to this record; of a read the content is not known yet.
pub fn deed_asked(call: &Call, rec: RecId) -> Result<Deed, NoMemory>
    ensures { IfOk result (λ deed. as_deed deed ≡ deed_asked call.now rec) }
{
    Ok(match call {
        Call::Write { value, .. } => Deed::Operates {
            operation: Op::Write {
                rec,
                value: Some(value.copy_of()?),
            },
        },
        Call::Delete { .. } => Deed::Operates {
            operation: Op::Write { rec, value: None },
        },
        Call::Weigh { table, .. } => Deed::Weighs {
            rec,
            table: table.copy_of()?,
        },
        Call::Begin
        | Call::Read { .. }
        | Call::Commit { .. }
        | Call::Abort { .. }
        | Call::Regroup => Deed::Operates {
            operation: Op::Read { rec, value: None },
        },
    })
}

/// What the call asks to change, where it asks for a change of a record of the catalogue.
pub fn change_asked(catalog: &Catalog, call: &Call) -> Result<Option<Deed>, NoMemory>
    ensures { IfOk result (λ asked. option_map as_deed asked ≡ change_asked catalog.now call.now) }
{
    match call {
        Call::Write { name, .. } | Call::Delete { name, .. } | Call::Weigh { name, .. } => {
            match catalog.find(name) {
                None => Ok(None),
                Some(rec) => Ok(Some(deed_asked(call, rec)?)),
            }
        }
        Call::Begin
        | Call::Read { .. }
        | Call::Commit { .. }
        | Call::Abort { .. }
        | Call::Regroup => Ok(None),
    }
}

/// The answer that says that it is done.
pub fn deed_answer(txn: TxnId, number: CallNo, deed: &Deed) -> Result<Answer, NoMemory>
    ensures { IfOk result (λ answer. answer ≡ deed_answer txn number (as_deed deed.now)) }
{
    Ok(match deed {
        Deed::Weighs { .. } => Answer::Weighed { txn, number },
        Deed::Operates { operation } => match operation {
            Op::Read { value: None, .. } => Answer::Absent { txn, number },
            Op::Read {
                value: Some(value),
                ..
            } => Answer::Value {
                txn,
                number,
                value: value.copy_of()?,
            },
            Op::Write { value: None, .. } => Answer::Deleted { txn, number },
            Op::Write { value: Some(_), .. } => Answer::Written { txn, number },
        },
    })
}

/// Adds it to what the transaction has done.
fn add_deed(t: &mut Live, deed: Deed) -> Result<(), NoMemory>
    ensures { OnOk result (t.new ≡ with_deed (as_deed deed) t.old) }
{
    match deed {
        Deed::Operates { operation } => t.ops.push(operation),
        Deed::Weighs { rec, table } => put_in(&mut t.tables, (rec, table)),
    }
}

/// Ends the pending call: the transaction has done this, and its answer is kept.
pub fn add_answer(t: &mut Live, deed: Deed, answer: Answer) -> Result<(), NoMemory>
    ensures { OnOk result (t.new ≡ with_done (as_deed deed) answer t.old) }
{
    t.pending = None;
    add_deed(t, deed)?;
    t.answers.push(answer)
}
