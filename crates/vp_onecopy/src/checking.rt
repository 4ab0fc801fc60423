//! The check whether a list of transactions is a serial run on one copy.

ghost use Rattle.std.specs.Prelude.{◌≡◌, length, IfOk};
ghost use Rattle.vp_onecopy.specs.Playing.{op_record, CommitsWithin};
ghost use Rattle.vp_onecopy.specs.Checking.{Decides, IsWithin, Tells};

use crate::map::Map;
use crate::playing::{PlayFault, play};
use vp_base::{Commit, CopyOf, NoMemory, Op, RecId, TxnId, Value};

/// Whether the list is a serial run on one copy. (One-copy serializability: Bernstein, Hadzilacos and Goodman 1987, chapter 8.)
#[derive(Drop)]
pub enum Verdict {
    /// It is, and leaves this copy.
    Serial {
        map: Map,
    },
    /// It isn't: this operation of the transaction, counted from 1, is the first read of a content that the copy doesn't have.
    Differs {
        txn: TxnId,
        op: usize,
        rec: RecId,
        kept: Option<Value>,
        read: Option<Value>,
    },
}

/// Plays the transactions one after the other on a copy of `start`.
pub fn check(start: &Map, list: &[Commit]) -> Result<Verdict, NoMemory>
    requires { CommitsWithin (length start.now) list.now }
    ensures { IfOk result (Decides start.now list.now) }
{
    let mut map = start.copy_of()?;
    for commit in list {
        match play(&mut map, &commit.ops) {
            Ok(()) => {}
            Err(fault) => return tell(commit, fault),
        }
    }
    Ok(Verdict::Serial { map })
}

/// What a fault in playing this transaction says of the list.
fn tell(commit: &Commit, fault: PlayFault) -> Result<Verdict, NoMemory>
    requires { IsWithin commit.now.ops fault }
    ensures { IfOk result (Tells commit.now fault) }
{
    match fault {
        PlayFault::NoMemory => Err(NoMemory),
        PlayFault::Differs { op, kept, read } => {
            let rec = record_of(&commit.ops.as_slice()[op - 1]);
            Ok(Verdict::Differs {
                txn: commit.txn,
                op,
                rec,
                kept,
                read,
            })
        }
    }
}

fn record_of(operation: &Op) -> RecId
    ensures { result ≡ op_record operation.now }
{
    match operation {
        Op::Read { rec, value: _ } | Op::Write { rec, value: _ } => *rec,
    }
}
