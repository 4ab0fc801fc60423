//! Writing calls.

ghost use Rattle.std.specs.Prelude.{◌≡◌, ◌++◌};
ghost use Rattle.vp_text.specs.Printing.{Appends};
ghost use Rattle.vp_wire.specs.Grammar.{IsCallIn, call_bytes, call_fields};
ghost use Rattle.vp_contents.specs.Tables.{table_bytes};
ghost use Rattle.vp_contents.specs.Values.{IsValueIn, value_bytes};
ghost use Rattle.vp_bytes.specs.Fields.{counted_bytes, numbered_bytes};

use crate::kind::CallKind;
use bytes::BytesMut;
use vp_base::{Call, CallNo, Name, NoMemory, Table, TxnId, Value};
use vp_bytes::{put_byte, put_name, put_numbered};
use vp_contents::{Version, put_table, put_value};

/// Appends a call: the byte of its kind and its fields. After an error a beginning of it may have been appended.
#[tactic(auto, using(vp_bytes::proofs::Writing::writing))]
pub fn put_call(out: &mut BytesMut, version: Version, call: &Call) -> Result<(), NoMemory>
    requires { IsCallIn version call.now }
    ensures { Appends result out.old.items (call_bytes version call.now) out.new.items }
{
    put_byte(out, CallKind::of_call(call).code())?;
    put_call_fields(out, version, call)
}

#[tactic(auto, using(vp_bytes::proofs::Writing::writing))]
fn put_call_fields(out: &mut BytesMut, version: Version, call: &Call) -> Result<(), NoMemory>
    requires { IsCallIn version call.now }
    ensures { Appends result out.old.items (call_fields version call.now) out.new.items }
{
    match call {
        Call::Begin | Call::Regroup => Ok(()),
        Call::Read { txn, number, name } => put_numbered_name(out, txn, *number, name),
        Call::Write {
            txn,
            number,
            name,
            value,
        } => put_write(out, version, txn, *number, name, value),
        Call::Commit { txn, number } => put_numbered(out, txn, *number),
        Call::Abort { txn, number } => put_numbered(out, txn, *number),
        Call::Delete { txn, number, name } => put_numbered_name(out, txn, *number, name),
        Call::Weigh {
            txn,
            number,
            name,
            table,
        } => put_weigh(out, txn, *number, name, table),
    }
}

/// Appends the transaction and the number of a call or of an answer, and a name.
#[tactic(auto, using(vp_bytes::proofs::Writing::writing))]
pub fn put_numbered_name(
    out: &mut BytesMut,
    txn: &TxnId,
    number: CallNo,
    name: &Name,
) -> Result<(), NoMemory>
    ensures { Appends result out.old.items (numbered_bytes txn.now number ++ counted_bytes name.now)
        out.new.items }
{
    put_numbered(out, txn, number)?;
    put_name(out, name)
}

#[tactic(auto, using(vp_bytes::proofs::Writing::writing))]
fn put_write(
    out: &mut BytesMut,
    version: Version,
    txn: &TxnId,
    number: CallNo,
    name: &Name,
    value: &Value,
) -> Result<(), NoMemory>
    requires { IsValueIn version value.now }
    ensures { Appends result out.old.items
        (numbered_bytes txn.now number ++ (counted_bytes name.now ++ value_bytes version value.now))
        out.new.items }
{
    put_numbered(out, txn, number)?;
    put_name(out, name)?;
    put_value(out, version, value)
}

#[tactic(auto, using(vp_bytes::proofs::Writing::writing))]
fn put_weigh(
    out: &mut BytesMut,
    txn: &TxnId,
    number: CallNo,
    name: &Name,
    table: &Table,
) -> Result<(), NoMemory>
    ensures { Appends result out.old.items
        (numbered_bytes txn.now number ++ (counted_bytes name.now ++ table_bytes table.now)) out.new.items }
{
    put_numbered(out, txn, number)?;
    put_name(out, name)?;
    put_table(out, table)
}
