//! Writing answers.

ghost use Rattle.std.specs.Prelude.{◌≡◌, ◌++◌, ◌∷◌, []};
ghost use Rattle.vp_text.specs.Printing.{Appends};
ghost use Rattle.vp_wire.specs.Grammar.{IsAnswer, answer_bytes, answer_fields};
ghost use Rattle.vp_contents.specs.Values.{IsValueIn, value_bytes};
ghost use Rattle.vp_bytes.specs.Fields.{number_bytes, counted_bytes, numbered_bytes, txn_bytes, view_bytes, owner_bytes, maybe_view_bytes};

use crate::calls::put_numbered_name;
use crate::kind::AnswerKind;
use bytes::BytesMut;
use vp_base::{Answer, CallNo, Name, NoMemory, Owner, SiteId, TxnId, Value, ViewId};
use vp_bytes::{
    put_byte, put_maybe_view, put_numbered, put_owner, put_txn, put_u32, put_u64, put_view,
};
use vp_contents::{Version, put_value};

/// Appends an answer: the byte of its kind and its fields. After an error a beginning of it may have been appended.
#[tactic(auto, using(vp_bytes::proofs::Writing::writing))]
pub fn put_answer(out: &mut BytesMut, version: Version, answer: &Answer) -> Result<(), NoMemory>
    requires { IsAnswer version answer.now }
    ensures { Appends result out.old.items (answer_bytes version answer.now) out.new.items }
{
    put_byte(out, AnswerKind::of_answer(answer).code())?;
    put_answer_fields(out, version, answer)
}

#[tactic(auto, using(vp_bytes::proofs::Writing::writing))]
fn put_answer_fields(out: &mut BytesMut, version: Version, answer: &Answer) -> Result<(), NoMemory>
    requires { IsAnswer version answer.now }
    ensures { Appends result out.old.items (answer_fields version answer.now) out.new.items }
{
    match answer {
        Answer::Begun { txn, view } => put_begun(out, txn, view),
        Answer::Value { txn, number, value } => put_numbered_value(
            out, version, txn, *number, value,
        ),
        Answer::Written { txn, number } => put_numbered(out, txn, *number),
        Answer::Committed { txn, number } => put_numbered(out, txn, *number),
        Answer::Aborted { txn, number } => put_numbered(out, txn, *number),
        Answer::Inviting { view } => put_view(out, view),
        Answer::NoView { promise } => put_view(out, promise),
        Answer::Unknown { txn } => put_txn(out, txn),
        Answer::Skipped { txn, expected } => put_numbered(out, txn, *expected),
        Answer::Busy { txn, number } => put_numbered(out, txn, *number),
        Answer::NoRecord { txn, number } => put_numbered(out, txn, *number),
        Answer::TooManyOps { txn, number } => put_numbered(out, txn, *number),
        Answer::Inaccessible {
            txn,
            number,
            name,
            inside,
            total,
        } => put_inaccessible(out, txn, *number, name, *inside, *total),
        Answer::LockHeld {
            txn,
            number,
            name,
            at,
            owner,
        } => put_lock_held(out, txn, *number, name, *at, owner),
        Answer::ViewChanged {
            txn,
            number,
            at,
            held,
            now,
        } => put_view_changed(out, txn, *number, *at, held, now),
        Answer::TimedOut { txn, number, at } => put_numbered_site(out, txn, *number, *at),
        Answer::Spent { number } => put_u64(out, *number),
        Answer::TooManyLive => Ok(()),
        Answer::Absent { txn, number } => put_numbered(out, txn, *number),
        Answer::Deleted { txn, number } => put_numbered(out, txn, *number),
        Answer::Weighed { txn, number } => put_numbered(out, txn, *number),
        Answer::BadTable { txn, number } => put_numbered(out, txn, *number),
    }
}

#[tactic(auto, using(vp_bytes::proofs::Writing::writing))]
fn put_begun(out: &mut BytesMut, txn: &TxnId, view: &ViewId) -> Result<(), NoMemory>
    ensures { Appends result out.old.items (txn_bytes txn.now ++ view_bytes view.now) out.new.items }
{
    put_txn(out, txn)?;
    put_view(out, view)
}

/// Appends the transaction and the number of an answer, and a value.
#[tactic(auto, using(vp_bytes::proofs::Writing::writing))]
fn put_numbered_value(
    out: &mut BytesMut,
    version: Version,
    txn: &TxnId,
    number: CallNo,
    value: &Value,
) -> Result<(), NoMemory>
    requires { IsValueIn version value.now }
    ensures { Appends result out.old.items (numbered_bytes txn.now number ++ value_bytes version value.now)
        out.new.items }
{
    put_numbered(out, txn, number)?;
    put_value(out, version, value)
}

#[tactic(auto, using(vp_bytes::proofs::Writing::writing))]
fn put_numbered_site(
    out: &mut BytesMut,
    txn: &TxnId,
    number: CallNo,
    at: SiteId,
) -> Result<(), NoMemory>
    ensures { Appends result out.old.items (numbered_bytes txn.now number ++ at ∷ []) out.new.items }
{
    put_numbered(out, txn, number)?;
    put_byte(out, at.get())
}

#[tactic(auto, using(vp_bytes::proofs::Writing::writing))]
fn put_inaccessible(
    out: &mut BytesMut,
    txn: &TxnId,
    number: CallNo,
    name: &Name,
    inside: u32,
    total: u32,
) -> Result<(), NoMemory>
    ensures { Appends result out.old.items
        (numbered_bytes txn.now number ++
        (counted_bytes name.now ++ (number_bytes 4 inside ++ number_bytes 4 total))) out.new.items }
{
    put_numbered_name(out, txn, number, name)?;
    put_u32(out, inside)?;
    put_u32(out, total)
}

#[tactic(auto, using(vp_bytes::proofs::Writing::writing))]
fn put_lock_held(
    out: &mut BytesMut,
    txn: &TxnId,
    number: CallNo,
    name: &Name,
    at: SiteId,
    owner: &Owner,
) -> Result<(), NoMemory>
    ensures { Appends result out.old.items
        (numbered_bytes txn.now number ++ (counted_bytes name.now ++ at ∷ owner_bytes owner.now))
        out.new.items }
{
    put_numbered_name(out, txn, number, name)?;
    put_byte(out, at.get())?;
    put_owner(out, owner)
}

#[tactic(auto, using(vp_bytes::proofs::Writing::writing))]
fn put_view_changed(
    out: &mut BytesMut,
    txn: &TxnId,
    number: CallNo,
    at: SiteId,
    held: &ViewId,
    now: &Option<ViewId>,
) -> Result<(), NoMemory>
    ensures { Appends result out.old.items
        (numbered_bytes txn.now number ++ at ∷ (view_bytes held.now ++ maybe_view_bytes now.now))
        out.new.items }
{
    put_numbered_site(out, txn, number, at)?;
    put_view(out, held)?;
    put_maybe_view(out, now)
}
