//! Printing answers to clients.

ghost use Rattle.std.specs.Prelude.{◌++◌, ◌∷◌, [], codes};
ghost use Rattle.vp_text.specs.Printing.{Appends};
ghost use Rattle.std.specs.Fmt.{decimal};
ghost use Rattle.vp_model.specs.Texts.Answers.{answer_text, numbered_text};
ghost use Rattle.vp_model.specs.Texts.Fields.{view_text, held_text, txn_text, owner_text};

use crate::fields::{
    print_counted, print_held, print_numbered, print_owner, print_site, print_txn, print_value,
    print_view, print_word,
};
use vp_base::{Answer, CallNo, Name, NoMemory, Owner, SiteId, TxnId, Value, ViewId};
use vp_text::print_number;

fn print_begun(out: &mut Vec<u8>, txn: &TxnId, view: &ViewId) -> Result<(), NoMemory>
    ensures { Appends result out.old.items (codes "begun " ++ (txn_text txn.now ++ 32 ∷ view_text view.now))
        out.new.items }
{
    print_txn(out, b"begun ", txn)?;
    print_view(out, b" ", view)
}

fn print_weights(out: &mut Vec<u8>, name: &Name, inside: u32, total: u32) -> Result<(), NoMemory>
    ensures { Appends result out.old.items
        (32 ∷ (name.now ++ 32 ∷ (decimal inside ++ (codes " of " ++ decimal total)))) out.new.items }
{
    out.push(b' ')?;
    name.print(out)?;
    print_counted(out, b" ", inside)?;
    print_counted(out, b" of ", total)
}

/// Appends the weights of a record that isn't accessible.
fn print_inaccessible(
    out: &mut Vec<u8>,
    txn: &TxnId,
    number: CallNo,
    name: &Name,
    inside: u32,
    total: u32,
) -> Result<(), NoMemory>
    ensures { Appends result out.old.items
        (numbered_text (codes "inaccessible ") txn.now number ++ 32 ∷
        (name.now ++ 32 ∷ (decimal inside ++ (codes " of " ++ decimal total)))) out.new.items }
{
    print_numbered(out, b"inaccessible ", txn, number)?;
    print_weights(out, name, inside, total)
}

/// Appends who holds the lock, and at which site.
fn print_lock_held(
    out: &mut Vec<u8>,
    txn: &TxnId,
    number: CallNo,
    name: &Name,
    at: SiteId,
    owner: &Owner,
) -> Result<(), NoMemory>
    ensures { Appends result out.old.items
        (numbered_text (codes "lockheld ") txn.now number ++ 32 ∷
        (name.now ++ (codes " at " ++ (decimal at ++ (codes " by " ++ owner_text owner.now)))))
        out.new.items }
{
    print_numbered(out, b"lockheld ", txn, number)?;
    out.push(b' ')?;
    name.print(out)?;
    print_site(out, b" at ", at)?;
    print_word(out, b" by ")?;
    print_owner(out, owner)
}

fn print_change(
    out: &mut Vec<u8>,
    at: SiteId,
    held: &ViewId,
    now: &Option<ViewId>,
) -> Result<(), NoMemory>
    ensures { Appends result out.old.items
        (codes " at " ++
        (decimal at ++ (codes " held " ++ (view_text held.now ++ (codes " now " ++ held_text now.now)))))
        out.new.items }
{
    print_site(out, b" at ", at)?;
    print_view(out, b" held ", held)?;
    print_word(out, b" now ")?;
    print_held(out, now)
}

/// Appends which view a site holds instead of the transaction's.
fn print_view_changed(
    out: &mut Vec<u8>,
    txn: &TxnId,
    number: CallNo,
    at: SiteId,
    held: &ViewId,
    now: &Option<ViewId>,
) -> Result<(), NoMemory>
    ensures { Appends result out.old.items
        (numbered_text (codes "viewchanged ") txn.now number ++
        (codes " at " ++
        (decimal at ++ (codes " held " ++ (view_text held.now ++ (codes " now " ++ held_text now.now))))))
        out.new.items }
{
    print_numbered(out, b"viewchanged ", txn, number)?;
    print_change(out, at, held, now)
}

fn print_timed_out(
    out: &mut Vec<u8>,
    txn: &TxnId,
    number: CallNo,
    at: SiteId,
) -> Result<(), NoMemory>
    ensures { Appends result out.old.items
        (numbered_text (codes "timedout ") txn.now number ++ (codes " at " ++ decimal at)) out.new.items }
{
    print_numbered(out, b"timedout ", txn, number)?;
    print_site(out, b" at ", at)
}

fn print_read(out: &mut Vec<u8>, txn: &TxnId, number: CallNo, value: &Value) -> Result<(), NoMemory>
    ensures { Appends result out.old.items (numbered_text (codes "value ") txn.now number ++ 32 ∷ value.now)
        out.new.items }
{
    print_numbered(out, b"value ", txn, number)?;
    print_value(out, value)
}

fn print_spent(out: &mut Vec<u8>, number: u64) -> Result<(), NoMemory>
    ensures { Appends result out.old.items (codes "spent " ++ decimal number) out.new.items }
{
    print_word(out, b"spent ")?;
    print_number(out, number)?;
    Ok(())
}

fn print_skipped(out: &mut Vec<u8>, txn: &TxnId, expected: CallNo) -> Result<(), NoMemory>
    ensures { Appends result out.old.items
        (codes "skipped " ++ (txn_text txn.now ++ (codes " expected " ++ decimal expected))) out.new.items }
{
    print_txn(out, b"skipped ", txn)?;
    print_counted(out, b" expected ", expected.get())
}

/// Appends the text of an answer. After an error a beginning of it may have been appended.
pub fn print_answer(answer: &Answer, out: &mut Vec<u8>) -> Result<(), NoMemory>
    ensures { Appends result out.old.items (answer_text answer.now) out.new.items }
{
    match answer {
        Answer::Begun { txn, view } => print_begun(out, txn, view),
        Answer::Value { txn, number, value } => print_read(out, txn, *number, value),
        Answer::Written { txn, number } => print_numbered(out, b"written ", txn, *number),
        Answer::Absent { txn, number } => print_numbered(out, b"absent ", txn, *number),
        Answer::Deleted { txn, number } => print_numbered(out, b"deleted ", txn, *number),
        Answer::Weighed { txn, number } => print_numbered(out, b"weighed ", txn, *number),
        Answer::BadTable { txn, number } => print_numbered(out, b"badtable ", txn, *number),
        Answer::Committed { txn, number } => print_numbered(out, b"committed ", txn, *number),
        Answer::Aborted { txn, number } => print_numbered(out, b"aborted ", txn, *number),
        Answer::Inviting { view } => print_view(out, b"inviting ", view),
        Answer::NoView { promise } => print_view(out, b"noview ", promise),
        Answer::Unknown { txn } => print_txn(out, b"unknown ", txn),
        Answer::Skipped { txn, expected } => print_skipped(out, txn, *expected),
        Answer::Busy { txn, number } => print_numbered(out, b"busy ", txn, *number),
        Answer::NoRecord { txn, number } => print_numbered(out, b"norecord ", txn, *number),
        Answer::TooManyOps { txn, number } => print_numbered(out, b"toomanyops ", txn, *number),
        Answer::Inaccessible {
            txn,
            number,
            name,
            inside,
            total,
        } => print_inaccessible(out, txn, *number, name, *inside, *total),
        Answer::LockHeld {
            txn,
            number,
            name,
            at,
            owner,
        } => print_lock_held(out, txn, *number, name, *at, owner),
        Answer::ViewChanged {
            txn,
            number,
            at,
            held,
            now,
        } => print_view_changed(out, txn, *number, *at, held, now),
        Answer::TimedOut { txn, number, at } => print_timed_out(out, txn, *number, *at),
        Answer::Spent { number } => print_spent(out, *number),
        Answer::TooManyLive => print_word(out, b"toomanylive 1024"),
    }
}
