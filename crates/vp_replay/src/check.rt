//! Checking a history.

ghost use Rattle.std.specs.Prelude.{◌≡◌, ◌++◌, ◌∷◌, [], IfOk, OnOk, codes, slice_index_or};
ghost use Rattle.std.specs.Fmt.{decimal};
ghost use Rattle.vp_base.specs.Identifiers.{txn_text};
ghost use Rattle.vp_onecopy.specs.Passing.{IsWhole};
ghost use Rattle.vp_replay.specs.Checked.{IsCheckAnswer, content_text, value_text, values_text, serial_text, difference_text, IsVerdict, Finds};

use std::alloc::Global;
use vp_base::{Name, NoMemory, RecId, TxnId, Value};
use vp_onecopy::{History, HistoryFault, Map, Verdict, check, print_name, read_history};
use vp_status::{RunOutput, Status, print_bad_line, print_twice};
use vp_text::print_number;

/// Checks the history that ends the input: the status and the text that `check` prints for it.
pub fn checked(alloc: Global, input: &[u8]) -> Result<RunOutput, NoMemory>
    ensures { IfOk result (λ defined. IsCheckAnswer input.now defined.status defined.text.items) }
{
    match read_history(alloc, input) {
        Ok(history) => judge(alloc, &history),
        Err(fault) => refuse(alloc, fault),
    }
}

/// Makes the status and the line for an input that has no history.
fn refuse(alloc: Global, fault: HistoryFault) -> Result<RunOutput, NoMemory>
    ensures { IfOk result (λ defined. Finds fault defined.status defined.text.items) }
{
    let mut text = Vec::new(alloc);
    match fault {
        HistoryFault::BadLine { line, at } => {
            print_bad_line(line, at, &mut text)?;
            Ok(RunOutput {
                status: Status::BadLine,
                text,
            })
        }
        HistoryFault::Twice { line } => {
            print_twice(line, &mut text)?;
            Ok(RunOutput {
                status: Status::BadLine,
                text,
            })
        }
        HistoryFault::NoMemory => Err(NoMemory),
    }
}

/// Checks a history, and makes the text of the verdict: serial with the values that are left, or its first read of another value
/// (Bernstein, Hadzilacos and Goodman 1987, chapter 8).
fn judge(alloc: Global, history: &History) -> Result<RunOutput, NoMemory>
    requires { IsWhole history.now }
    ensures { IfOk result (λ defined. IsVerdict history.now defined.status defined.text.items) }
{
    let names = history.names.as_slice();
    let commits = history.commits.as_slice();
    let mut text = Vec::new(alloc);
    let start = Map::starting(alloc, history.start.as_slice())?;
    match check(&start, commits)? {
        Verdict::Serial { map } => {
            print_serial(commits.len(), names, map.as_slice(), &mut text)?;
            Ok(RunOutput {
                status: Status::Done,
                text,
            })
        }
        Verdict::Differs {
            txn,
            op,
            rec,
            kept,
            read,
        } => {
            print_difference(&txn, op, names, rec, &kept, &read, &mut text)?;
            Ok(RunOutput {
                status: Status::Differs,
                text,
            })
        }
    }
}

fn print_serial(
    count: usize,
    names: &[Name],
    values: &[Option<Value>],
    out: &mut Vec<u8>,
) -> Result<(), NoMemory>
    ensures { OnOk result (out.new.items ≡ out.old.items ++ serial_text count names.now values.now) }
{
    out.extend_from_slice(b"serial ")?;
    print_number(out, count as u64)?;
    out.push(b'\n')?;
    print_values(names, values, out)
}

fn print_values(names: &[Name], values: &[Option<Value>], out: &mut Vec<u8>) -> Result<(), NoMemory>
    ensures { OnOk result (out.new.items ≡ out.old.items ++ values_text names.now values.now) }
{
    for (name, value) in names.iter().zip(values.iter()) {
        print_value(name, value, out)?;
    }
    Ok(())
}

fn print_value(name: &Name, value: &Option<Value>, out: &mut Vec<u8>) -> Result<(), NoMemory>
    ensures { OnOk result (out.new.items ≡ out.old.items ++ value_text name.now value.now) }
{
    name.print(out)?;
    print_content(b" ", b"", value, out)?;
    out.push(b'\n')?;
    Ok(())
}

/// Appends `word` and the value, or `absent` where there is none.
fn print_content(
    word: &[u8],
    absent: &[u8],
    content: &Option<Value>,
    out: &mut Vec<u8>,
) -> Result<(), NoMemory>
    ensures { OnOk result (out.new.items ≡ out.old.items ++ content_text word.now absent.now content.now) }
{
    match content {
        None => {
            out.extend_from_slice(absent)?;
            Ok(())
        }
        Some(value) => {
            out.extend_from_slice(word)?;
            value.print(out)
        }
    }
}

fn print_difference(
    txn: &TxnId,
    place: usize,
    names: &[Name],
    rec: RecId,
    kept: &Option<Value>,
    read: &Option<Value>,
    out: &mut Vec<u8>,
) -> Result<(), NoMemory>
    ensures { OnOk result (out.new.items ≡ out.old.items
        ++ difference_text txn.now place (slice_index_or names.now rec []) kept.now read.now) }
{
    print_place(txn, place, out)?;
    print_name(names, rec, out)?;
    print_kept(kept, read, out)
}

fn print_place(txn: &TxnId, place: usize, out: &mut Vec<u8>) -> Result<(), NoMemory>
    ensures { OnOk result
        (out.new.items ≡ out.old.items ++
        (codes "differs " ++ (txn_text txn.now ++ 32 ∷ (decimal place ++ 32 ∷ [])))) }
{
    out.extend_from_slice(b"differs ")?;
    txn.print(out)?;
    out.push(b' ')?;
    print_number(out, place as u64)?;
    out.push(b' ')?;
    Ok(())
}

fn print_kept(kept: &Option<Value>, read: &Option<Value>, out: &mut Vec<u8>) -> Result<(), NoMemory>
    ensures { OnOk result
        (out.new.items ≡ out.old.items ++
        (content_text (codes " kept ") (codes " absent") kept.now ++
        (content_text (codes " read ") (codes " absent") read.now ++ 10 ∷ []))) }
{
    print_content(b" kept ", b" absent", kept, out)?;
    print_content(b" read ", b" absent", read, out)?;
    out.push(b'\n')?;
    Ok(())
}
