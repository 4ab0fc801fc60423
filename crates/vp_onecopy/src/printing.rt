//! Printing a history.

ghost use Rattle.std.specs.Prelude.{◌++◌, ◌∷◌, codes, flat_map, slice_index_or, []};
ghost use Rattle.std.specs.Fmt.{decimal};
ghost use Rattle.vp_text.specs.Printing.{Appends};
ghost use Rattle.vp_model.specs.Texts.History.{op_text, commit_text, start_text, starts_text, history_lines};
ghost use Rattle.vp_onecopy.specs.Passing.{IsReadBack};
ghost use Rattle.vp_onecopy.specs.Whole.{IsWhole};

use crate::map::History;
use vp_base::{Commit, Name, NoMemory, Op, RecId, Value};
use vp_text::print_number;

#[tactic(auto, using(vp_text::proofs::Printing::printing))]
fn print_start(name: &Name, value: &Value, out: &mut Vec<u8>) -> Result<(), NoMemory>
    ensures { Appends result out.old.items (start_text name.now value.now) out.new.items }
{
    out.extend_from_slice(b"start ")?;
    name.print(out)?;
    out.push(b' ')?;
    value.print(out)?;
    out.push(b'\n')?;
    Ok(())
}

#[tactic(auto, using(vp_text::proofs::Printing::printing))]
fn print_starts(names: &[Name], values: &[Value], out: &mut Vec<u8>) -> Result<(), NoMemory>
    ensures { Appends result out.old.items (starts_text names.now values.now) out.new.items }
{
    for (name, value) in names.iter().zip(values.iter()) {
        print_start(name, value, out)?;
    }
    Ok(())
}

/// Appends the name of a record; nothing where there is no name at its place.
#[tactic(auto, using(vp_text::proofs::Printing::printing))]
pub fn print_name(names: &[Name], rec: RecId, out: &mut Vec<u8>) -> Result<(), NoMemory>
    ensures { Appends result out.old.items (slice_index_or names.now rec []) out.new.items }
{
    match names.get(usize::from(rec.get())) {
        Some(name) => name.print(out),
        None => Ok(()),
    }
}

#[tactic(auto, using(vp_text::proofs::Printing::printing))]
fn print_access(
    key: &[u8],
    names: &[Name],
    rec: RecId,
    value: &Value,
    out: &mut Vec<u8>,
) -> Result<(), NoMemory>
    ensures { Appends result out.old.items (key.now ++ (slice_index_or names.now rec [] ++ 32 ∷ value.now))
        out.new.items }
{
    out.extend_from_slice(key)?;
    print_name(names, rec, out)?;
    out.push(b' ')?;
    value.print(out)?;
    Ok(())
}

#[tactic(auto, using(vp_text::proofs::Printing::printing))]
fn print_absent(key: &[u8], names: &[Name], rec: RecId, out: &mut Vec<u8>) -> Result<(), NoMemory>
    ensures { Appends result out.old.items (key.now ++ slice_index_or names.now rec []) out.new.items }
{
    out.extend_from_slice(key)?;
    print_name(names, rec, out)
}

#[tactic(auto, using(vp_text::proofs::Printing::printing))]
fn print_op(names: &[Name], op: &Op, out: &mut Vec<u8>) -> Result<(), NoMemory>
    ensures { Appends result out.old.items (op_text names.now op.now) out.new.items }
{
    match op {
        Op::Read { rec, value: None } => print_absent(b" a ", names, *rec, out),
        Op::Read {
            rec,
            value: Some(value),
        } => print_access(b" r ", names, *rec, value, out),
        Op::Write { rec, value: None } => print_absent(b" d ", names, *rec, out),
        Op::Write {
            rec,
            value: Some(value),
        } => print_access(b" w ", names, *rec, value, out),
    }
}

#[tactic(auto, using(vp_text::proofs::Printing::printing))]
fn print_ops(names: &[Name], ops: &[Op], out: &mut Vec<u8>) -> Result<(), NoMemory>
    ensures { Appends result out.old.items (flat_map (op_text names.now) ops.now) out.new.items }
{
    for op in ops {
        print_op(names, op, out)?;
    }
    Ok(())
}

#[tactic(auto, using(vp_text::proofs::Printing::printing))]
fn print_commit(names: &[Name], commit: &Commit, out: &mut Vec<u8>) -> Result<(), NoMemory>
    ensures { Appends result out.old.items (commit_text names.now commit.now) out.new.items }
{
    out.extend_from_slice(b"commit ")?;
    commit.txn.print(out)?;
    out.push(b' ')?;
    commit.view.print(out)?;
    print_ops(names, commit.ops.as_slice(), out)?;
    out.push(b'\n')?;
    Ok(())
}

#[tactic(auto, using(vp_text::proofs::Printing::printing))]
fn print_commits(names: &[Name], commits: &[Commit], out: &mut Vec<u8>) -> Result<(), NoMemory>
    ensures { Appends result out.old.items (flat_map (commit_text names.now) commits.now) out.new.items }
{
    for commit in commits {
        print_commit(names, commit, out)?;
    }
    Ok(())
}

#[tactic(auto, using(vp_text::proofs::Printing::printing))]
fn print_end(commits: u64, out: &mut Vec<u8>) -> Result<(), NoMemory>
    ensures { Appends result out.old.items (codes "end " ++ (decimal commits ++ 10 ∷ [])) out.new.items }
{
    out.extend_from_slice(b"end ")?;
    print_number(out, commits)?;
    out.push(b'\n')?;
    Ok(())
}

/// Appends the line `history` and the lines of the history. After an error a beginning of them may have been appended.
#[tactic(auto, using(crate::proofs::Whole::read_back, vp_text::proofs::Printing::printing))]
pub fn print_history(history: &History, out: &mut Vec<u8>) -> Result<(), NoMemory>
    ensures read_back { IsWhole history.now → IsReadBack history.now }
    ensures text { Appends result out.old.items
        (history_lines history.now.names history.now.start history.now.commits) out.new.items }
{
    let names = history.names.as_slice();
    let commits = history.commits.as_slice();
    out.extend_from_slice(b"history\n")?;
    print_starts(names, history.start.as_slice(), out)?;
    print_commits(names, commits, out)?;
    print_end(commits.len() as u64, out)?;
    Ok(())
}
