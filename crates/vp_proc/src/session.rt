//! The transaction of a procedure, and its calls.

ghost use Rattle.std.specs.Prelude.{◌≡◌, ◌+◌, ◌<◌, ◌≤◌, ◌^◌, [], length, IsTrue, IfOk, OnErr, List, Option, Some, ℕ};
ghost use Rattle.vp_base.specs.Identifiers.{IsTxn};
ghost use Rattle.vp_base.specs.Words.{IsName, IsValue};
ghost use Rattle.vp_outside.specs.Links.{LinkState, StaysBound};
ghost use Rattle.vp_procedure.specs.Procedures.{IsLetter, IsProcedure};
ghost use Rattle.vp_procedure.specs.declared.procedure.Procedure.{Procedure as Program};
ghost use Rattle.vp_procedure.specs.declared.procedure.Statement.{Statement};
ghost use Rattle.vp_proc.specs.declared.ended.End.{End as Ending};
ghost use Rattle.vp_proc.specs.Scripts.{Script, script, script_from};
ghost use Rattle.vp_proc.specs.Walking.{IsStep, after_read, comes_to};
ghost use Rattle.vp_proc.specs.Telling as telling;
ghost use Rattle.vp_proc.specs.Stepping.{IsAt, IsRefused, IsToAbort, Aborts, Finishes, GoesOn, Grows};

use crate::content::number_in;
use crate::ended::End;
use crate::walk::{Step, Walk};
use std::alloc::Global;
use vp_base::{Answer, Call, CallNo, CopyOf, Name, NoMemory, Op, Ops, RecId, SiteId, TxnId, Value};
use vp_client::{AskFault, ask};
use vp_outside::Link;
use vp_procedure::Procedure;

/// A transaction at a site, and what it was told. Each answer is waited for among `turns` datagrams.
#[derive(Drop)]
pub struct Session {
    port: u16,
    site: SiteId,
    turns: u64,
    txn: TxnId,
    ops: Ops,
}

/// The transaction that the answer says was begun.
pub fn begun_in(answer: &Answer) -> Option<TxnId>
    ensures { result ≡ telling.begun_in answer.now }
{
    match answer {
        Answer::Begun { txn, .. } => Some(*txn),
        _ => None,
    }
}

/// The content that a read is told by the answer; none if it tells none.
fn content_in(answer: &Answer) -> Result<Option<Option<Value>>, NoMemory>
    ensures content { IfOk result (λ content. content ≡ telling.content_in answer.now) }
    ensures no_memory { OnErr result
        ((content : Option (List ℕ)) × (telling.content_in answer.now ≡ Some content)) }
{
    match answer {
        Answer::Value { value, .. } => Ok(Some(Some(value.copy_of()?))),
        Answer::Absent { .. } => Ok(Some(None)),
        _ => Ok(None),
    }
}

fn is_written(answer: &Answer) -> bool
    ensures { result ≡ telling.is_written answer.now }
{
    matches!(answer, Answer::Written { .. })
}

fn is_committed(answer: &Answer) -> bool
    ensures { result ≡ telling.is_committed answer.now }
{
    matches!(answer, Answer::Committed { .. })
}

/// Whether the answer ended the transaction.
fn is_end(answer: &Answer) -> bool
    ensures { result ≡ telling.is_end answer.now }
{
    matches!(
        answer,
        Answer::LockHeld { .. } | Answer::ViewChanged { .. } | Answer::TimedOut { .. }
    )
}

impl Session {
    /// The session of a transaction that was just begun. Takes no memory.
    pub fn new(alloc: Global, port: u16, site: SiteId, turns: u64, txn: TxnId) -> Session
        ensures { result ≡ record { port = port; site = site; turns = turns; txn = txn; ops = [] } }
    {
        Session {
            port,
            site,
            turns,
            txn,
            ops: Ops::new(alloc),
        }
    }

    /// The operations that were told.
    pub fn into_ops(self) -> Ops
        ensures { result ≡ self.ops }
    {
        self.ops
    }

    /// Asks the calls of the procedure, to its end.
    pub fn play<L: Link>(
        &mut self,
        alloc: Global,
        link: &mut L,
        procedure: &Procedure,
    ) -> Result<End, AskFault>
        requires bound { IsTrue (L.state link.old).bound }
        requires txn { IsTxn self.old.txn }
        requires fresh { self.old.ops ≡ [] }
        requires procedure { IsProcedure procedure.now }
        ensures finishes { (old : LinkState) → IsAt self.old procedure.now old (script procedure.now) (L.state link.old)
            → Finishes self.new procedure.now old (L.state link.new) result }
        ensures same { self.new ≡ record self.old { ops = self.new.ops } }
        ensures stays { StaysBound (L.state link.old) (L.state link.new) }
    {
        let mut walk = Walk::new(procedure.first);
        for statement in procedure.statements.as_slice() {
            let step = walk.step(alloc, statement)?;
            if let Some(end) = self.take(alloc, link, &mut walk, step)? {
                return Ok(end);
            }
            walk.line += 1;
        }
        self.stop(alloc, link, End::Failed { code: 0 })
    }

    /// Does a step: asks its call, if it has one.
    fn take<L: Link>(
        &mut self,
        alloc: Global,
        link: &mut L,
        walk: &mut Walk,
        step: Step,
    ) -> Result<Option<End>, AskFault>
        requires bound { IsTrue (L.state link.old).bound }
        requires txn { IsTxn self.old.txn }
        requires room { length self.old.ops < 2 ^ 16 }
        requires step { IsStep step }
        requires vars { length walk.old.vars ≡ 26 }
        ensures goes { (p : Program) (old : LinkState) (rest : List Statement) →
            IsAt self.old p old (comes_to walk.old.line walk.old.vars walk.old.mode rest step) (L.state link.old)
            → GoesOn self.new p old (script_from (walk.old.line + 1) rest walk.new.vars walk.new.mode) (L.state link.new) result }
        ensures walk { (walk.new ≡ record walk.old { vars = walk.new.vars }) × (length walk.new.vars ≡ 26) }
        ensures grows { Grows self.old self.new }
        ensures stays { StaysBound (L.state link.old) (L.state link.new) }
    {
        match step {
            Step::Next => Ok(None),
            Step::Read { var, name, rec } => self.read(alloc, link, walk, var, name, rec),
            Step::Write { name, rec, value } => self.write(alloc, link, name, rec, value),
            Step::Give { number } => Ok(Some(self.commit(alloc, link, number)?)),
            Step::Stop(end) => Ok(Some(self.stop(alloc, link, end)?)),
        }
    }

    /// Reads a record into a variable.
    fn read<L: Link>(
        &mut self,
        alloc: Global,
        link: &mut L,
        walk: &mut Walk,
        var: u8,
        name: Name,
        rec: RecId,
    ) -> Result<Option<End>, AskFault>
        requires bound { IsTrue (L.state link.old).bound }
        requires txn { IsTxn self.old.txn }
        requires room { length self.old.ops < 2 ^ 16 }
        requires letter { IsLetter var }
        requires name { IsName name name }
        requires vars { length walk.old.vars ≡ 26 }
        ensures goes { (p : Program) (old : LinkState) (rest : List Statement) →
            IsAt self.old p old (Script.reads rec name (after_read walk.old.line walk.old.vars walk.old.mode rest var)) (L.state link.old)
            → GoesOn self.new p old (script_from (walk.old.line + 1) rest walk.new.vars walk.new.mode) (L.state link.new) result }
        ensures walk { (walk.new ≡ record walk.old { vars = walk.new.vars }) × (length walk.new.vars ≡ 26) }
        ensures grows { Grows self.old self.new }
        ensures stays { StaysBound (L.state link.old) (L.state link.new) }
    {
        let call = Call::Read {
            txn: self.txn,
            number: self.next_number(),
            name,
        };
        let answer = ask(alloc, link, self.port, self.site, &call, self.turns)?;
        let Some(content) = content_in(&answer)? else {
            return Ok(Some(self.refuse(alloc, link, answer)?));
        };
        let number = number_in(&content);
        self.ops.push(Op::Read {
            rec,
            value: content,
        })?;
        match number {
            Some(number) => {
                walk.set(var, number);
                Ok(None)
            }
            None => {
                let line = walk.line;
                Ok(Some(self.stop(alloc, link, End::NotNumber { line })?))
            }
        }
    }

    /// Writes a value to a record.
    fn write<L: Link>(
        &mut self,
        alloc: Global,
        link: &mut L,
        name: Name,
        rec: RecId,
        value: Value,
    ) -> Result<Option<End>, AskFault>
        requires bound { IsTrue (L.state link.old).bound }
        requires txn { IsTxn self.old.txn }
        requires room { length self.old.ops < 2 ^ 16 }
        requires name { IsName name name }
        requires value { IsValue value value }
        ensures goes { (p : Program) (old : LinkState) (more : Script) →
            IsAt self.old p old (Script.writes rec name value more) (L.state link.old)
            → GoesOn self.new p old more (L.state link.new) result }
        ensures grows { Grows self.old self.new }
        ensures stays { StaysBound (L.state link.old) (L.state link.new) }
    {
        let call = Call::Write {
            txn: self.txn,
            number: self.next_number(),
            name,
            value: value.copy_of()?,
        };
        let answer = ask(alloc, link, self.port, self.site, &call, self.turns)?;
        if !is_written(&answer) {
            return Ok(Some(self.refuse(alloc, link, answer)?));
        }
        self.ops.push(Op::Write {
            rec,
            value: Some(value),
        })?;
        Ok(None)
    }

    /// Commits, with this result.
    fn commit<L: Link>(&self, alloc: Global, link: &mut L, number: u64) -> Result<End, AskFault>
        requires bound { IsTrue (L.state link.old).bound }
        requires txn { IsTxn self.now.txn }
        requires room { length self.now.ops ≤ 2 ^ 16 }
        ensures finishes { (p : Program) (old : LinkState) → IsAt self.now p old (Script.gives number) (L.state link.old)
            → Finishes self.now p old (L.state link.new) result }
        ensures stays { StaysBound (L.state link.old) (L.state link.new) }
    {
        let call = Call::Commit {
            txn: self.txn,
            number: self.next_number(),
        };
        let answer = ask(alloc, link, self.port, self.site, &call, self.turns)?;
        if is_committed(&answer) {
            Ok(End::Done { number })
        } else {
            self.refuse(alloc, link, answer)
        }
    }

    /// Ends with a refusal. The transaction is aborted, unless that ended it.
    fn refuse<L: Link>(&self, alloc: Global, link: &mut L, answer: Answer) -> Result<End, AskFault>
        requires bound { IsTrue (L.state link.old).bound }
        requires txn { IsTxn self.now.txn }
        requires room { length self.now.ops ≤ 2 ^ 16 }
        ensures finishes { (p : Program) (old : LinkState) → IsRefused self.now p old answer (L.state link.old)
            → Finishes self.now p old (L.state link.new) result }
        ensures stays { StaysBound (L.state link.old) (L.state link.new) }
    {
        if !is_end(&answer) {
            self.abort(alloc, link)?;
        }
        Ok(End::Refused { answer })
    }

    /// Aborts the transaction, and ends so.
    fn stop<L: Link>(&self, alloc: Global, link: &mut L, end: End) -> Result<End, AskFault>
        requires bound { IsTrue (L.state link.old).bound }
        requires txn { IsTxn self.now.txn }
        requires room { length self.now.ops ≤ 2 ^ 16 }
        ensures finishes { (p : Program) (old : LinkState) → IsToAbort self.now p old end (L.state link.old)
            → Finishes self.now p old (L.state link.new) result }
        ensures stays { StaysBound (L.state link.old) (L.state link.new) }
    {
        self.abort(alloc, link)?;
        Ok(end)
    }

    /// Aborts the transaction. Whatever the site answers, or if it doesn't, nothing more is to be done.
    fn abort<L: Link>(&self, alloc: Global, link: &mut L) -> Result<(), NoMemory>
        requires bound { IsTrue (L.state link.old).bound }
        requires txn { IsTxn self.now.txn }
        requires room { length self.now.ops ≤ 2 ^ 16 }
        ensures aborts { (p : Program) (old : LinkState) (end : Ending) → IsToAbort self.now p old end (L.state link.old)
            → Aborts self.now p old end (L.state link.new) result }
        ensures stays { StaysBound (L.state link.old) (L.state link.new) }
    {
        let call = Call::Abort {
            txn: self.txn,
            number: self.next_number(),
        };
        match ask(alloc, link, self.port, self.site, &call, self.turns) {
            Err(AskFault::NoMemory) => Err(NoMemory),
            _ => Ok(()),
        }
    }

    /// The number of the next call.
    fn next_number(&self) -> CallNo
        requires { length self.now.ops ≤ 2 ^ 16 }
        ensures { result ≡ length self.now.ops + 1 }
    {
        match CallNo::new(self.ops.as_slice().len() as u32 + 1) {
            Some(number) => number,
            None => unreachable!(),
        }
    }
}
