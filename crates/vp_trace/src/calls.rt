//! Printing calls and events, as a schedule has them.

ghost use Rattle.std.specs.Prelude.{◌++◌, ◌∷◌, [], codes};
ghost use Rattle.vp_text.specs.Printing.{Appends};
ghost use Rattle.std.specs.Fmt.{decimal};
ghost use Rattle.vp_model.specs.Texts.Calls.{call_text, event_text, pair_text};
ghost use Rattle.vp_model.specs.Texts.Fields.{call_name_text, table_text};

use crate::fields::{print_call_name, print_counted, print_site, print_value, print_word};
use vp_base::{Call, CallNo, Event, Name, NoMemory, SiteId, TxnId, Value};
use vp_catalog::print_weights;

/// Appends a call as it follows its site in a schedule. After an error a beginning of it may have been appended.
pub fn print_call(call: &Call, out: &mut Vec<u8>) -> Result<(), NoMemory>
    ensures { Appends result out.old.items (call_text call.now) out.new.items }
{
    match call {
        Call::Begin => print_word(out, b"begin"),
        Call::Regroup => print_word(out, b"regroup"),
        Call::Read { txn, number, name } => print_named(out, txn, *number, b" read ", name),
        Call::Write {
            txn,
            number,
            name,
            value,
        } => print_write(out, txn, *number, name, value),
        Call::Delete { txn, number, name } => print_named(out, txn, *number, b" delete ", name),
        Call::Weigh {
            txn,
            number,
            name,
            table,
        } => print_weigh(out, txn, *number, name, table.as_slice()),
        Call::Commit { txn, number } => print_end(out, txn, *number, b" commit"),
        Call::Abort { txn, number } => print_end(out, txn, *number, b" abort"),
    }
}

fn print_named(
    out: &mut Vec<u8>,
    txn: &TxnId,
    number: CallNo,
    word: &[u8],
    name: &Name,
) -> Result<(), NoMemory>
    ensures { Appends result out.old.items (call_name_text txn.now number ++ (word.now ++ name.now))
        out.new.items }
{
    print_call_name(out, txn, number)?;
    print_word(out, word)?;
    name.print(out)
}

fn print_weigh(
    out: &mut Vec<u8>,
    txn: &TxnId,
    number: CallNo,
    name: &Name,
    table: &[(SiteId, u16)],
) -> Result<(), NoMemory>
    ensures { Appends result out.old.items
        (call_name_text txn.now number ++ (codes " weigh " ++ (name.now ++ table_text table.now))) out.new.items }
{
    print_call_name(out, txn, number)?;
    print_word(out, b" weigh ")?;
    name.print(out)?;
    print_weights(out, table)
}

fn print_write(
    out: &mut Vec<u8>,
    txn: &TxnId,
    number: CallNo,
    name: &Name,
    value: &Value,
) -> Result<(), NoMemory>
    ensures { Appends result out.old.items
        (call_name_text txn.now number ++ (codes " write " ++ (name.now ++ 32 ∷ value.now))) out.new.items }
{
    print_call_name(out, txn, number)?;
    print_word(out, b" write ")?;
    name.print(out)?;
    print_value(out, value)
}

fn print_end(out: &mut Vec<u8>, txn: &TxnId, number: CallNo, word: &[u8]) -> Result<(), NoMemory>
    ensures { Appends result out.old.items (call_name_text txn.now number ++ word.now) out.new.items }
{
    print_call_name(out, txn, number)?;
    print_word(out, word)
}

fn print_pair(out: &mut Vec<u8>, word: &[u8], a: SiteId, b: SiteId) -> Result<(), NoMemory>
    ensures { Appends result out.old.items (pair_text word.now a b) out.new.items }
{
    print_word(out, word)?;
    a.print(out)?;
    out.push(b' ')?;
    b.print(out)
}

fn print_called(out: &mut Vec<u8>, site: SiteId, call: &Call) -> Result<(), NoMemory>
    ensures { Appends result out.old.items (codes "call " ++ (decimal site ++ 32 ∷ call_text call.now))
        out.new.items }
{
    print_site(out, b"call ", site)?;
    out.push(b' ')?;
    print_call(call, out)
}

/// Appends an event as a schedule has it, without the end of its line. After an error a beginning of it may have been appended.
pub fn print_event(event: &Event, out: &mut Vec<u8>) -> Result<(), NoMemory>
    ensures { Appends result out.old.items (event_text event.now) out.new.items }
{
    match event {
        Event::Call { site, call } => print_called(out, *site, call),
        Event::Deliver { k } => print_counted(out, b"deliver ", *k),
        Event::Flow { count } => print_counted(out, b"flow ", *count),
        Event::Tick { site } => print_site(out, b"tick ", *site),
        Event::Probe { site } => print_site(out, b"probe ", *site),
        Event::Cut { a, b } => print_pair(out, b"cut ", *a, *b),
        Event::Heal { a, b } => print_pair(out, b"heal ", *a, *b),
        Event::Crash { site } => print_site(out, b"crash ", *site),
        Event::Restart { site } => print_site(out, b"restart ", *site),
    }
}
