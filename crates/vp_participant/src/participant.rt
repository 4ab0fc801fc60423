//! The participant of a site.

ghost use Rattle.std.specs.Prelude.{◌≡◌, ◌++◌, [], flat_map, OnOk, IfOk, IfSome, is_some, option_copied, filter, true, false};
ghost use Rattle.std.specs.List.{list_all};
ghost use Rattle.vp_base.specs.declared.entry.Owner.TheVariants as owner;
ghost use Rattle.vp_model.specs.Words.{keys, has_txn};
ghost use Rattle.vp_base.specs.declared.entry.LogRecord.TheVariants as log_record;
ghost use Rattle.vp_model.specs.Locks.{holds, with_lock, without_owner};
ghost use Rattle.vp_model.specs.Views.{without_parts, outlasts};
ghost use Rattle.vp_model.specs.Messages.{with_part, has_all_locks, with_new_doubt, with_ended};
ghost use Rattle.vp_model.specs.Step.{known, locks_in_doubt};
ghost use Rattle.vp_participant.specs.Refusals.{lock_refusal, lock_refused, obstacle, vote_refusal, vote_refused};
ghost use Rattle.vp_participant.specs.Doubts.{doubt_ended, is_written};
ghost use Rattle.vp_participant.specs.Ballots.{ballot, ballot_of, first_ballot};

use crate::doubts::{DoubtList, lock_doubts};
use crate::fault::{PartFault, PrepareFault};
use crate::held::{id_of, is_held};
use crate::parts::mark_voted;
use crate::requests::{Prepare, Request};
use std::alloc::Global;
use std::marker::Model;
use vp_base::{
    Bars, Change, CopyOf, InDoubt, Lock, LogRecord, NoMemory, Owner, Part, RecId, TxnId, Txns,
    View, ViewId, Writes,
};
use vp_locks::{Keeps, Locks};
use vp_records::Durable;
use vp_tables::{Table, TxnSet};

/// How a part votes.
#[derive(Drop)]
pub enum Voted {
    /// Yes. Where the part writes, `forced` is to be forced to the log before the vote is sent.
    Yes { forced: Option<LogRecord> },
    /// Not at all: nothing is sent.
    Silent,
}

/// What is left of a transaction that ended here: the view and the writes of its doubt, where it was in doubt.
#[derive(Drop)]
pub struct Settled {
    pub doubt: Option<(ViewId, Writes)>,
}

/// The parts here of other sites' transactions, those in doubt, and those that ended here in the held view. After want of memory
/// this and the lock table that was lent may be changed in part: drop both.
pub struct Participant {
    parts: Table<Part>,
    doubts: DoubtList,
    ended: TxnSet,
}

impl Drop for Participant {
    fn drop(self) {
        let Participant {
            parts: _,
            doubts: _,
            ended: _,
        } = self;
    }
}

impl Model for Participant {
    ghost use Rattle.vp_model.specs.Site.{ParticipantState};

    ghost Value = { ParticipantState };

    ghost view = { λ p. record { parts = p.parts; doubts = p.doubts; ended = p.ended } };
}

impl Participant {
    /// The participant of a site that starts. The exclusive locks of the transactions in doubt are added to the table, even where
    /// two of them write the same record, as a log from elsewhere may have it.
    pub fn restore(
        alloc: Global,
        durable: &Durable,
        locks: &mut Locks,
    ) -> Result<Participant, NoMemory>
        ensures participant { IfOk result
            (λ p. p ≡ record { parts = []; doubts = durable.now.doubts; ended = [] }) }
        ensures locks { OnOk result (locks.new ≡ locks.old ++ flat_map locks_in_doubt durable.now.doubts) }
    {
        let doubts = durable.doubts();
        lock_doubts(locks, doubts.as_slice())?;
        Ok(Participant {
            parts: Table::new(alloc),
            doubts: DoubtList::copied(alloc, doubts)?,
            ended: TxnSet::new(alloc),
        })
    }

    /// Gives the transaction a part, which has not voted, unless it has one or is in doubt.
    fn join(&mut self, txn: &TxnId, view: ViewId) -> Result<(), NoMemory>
        ensures { OnOk result (self.new ≡ with_part txn.now view self.old) }
    {
        if self.parts.has(txn) || self.doubts.has(txn) {
            return Ok(());
        }
        self.parts.put(Part {
            txn: *txn,
            view,
            voted: false,
        })
    }

    /// Why the transaction is refused, whatever it asks for; `None` where it isn't.
    fn refusal(&self, held: Option<&View>, txn: &TxnId, view: ViewId) -> Option<PrepareFault>
        ensures { result ≡ vote_refusal (option_copied held.entry) txn.now view self.now }
    {
        if !is_held(held, view) {
            Some(PrepareFault::OtherView { now: id_of(held) })
        } else if self.ended.has(txn) {
            Some(PrepareFault::Ended)
        } else {
            None
        }
    }

    /// Why the request is refused, whatever locks there are; `None` where it isn't.
    fn obstacle(&self, bars: &Bars, held: Option<&View>, request: &Request) -> Option<PartFault>
        ensures { result ≡ obstacle (option_copied held.entry) request.now self.now bars.now }
    {
        if let Some(why) = self.refusal(held, &request.txn, request.view) {
            return Some(why.into());
        }
        match bars.find(request.rec) {
            None => None,
            Some((inside, total)) => Some(PartFault::Barred { inside, total }),
        }
    }

    /// Takes a shared lock for the transaction, which gets a part here where it has none. A bar on the record is tested before locks.
    pub fn read_request(
        &mut self,
        locks: &mut Locks,
        bars: &Bars,
        held: Option<&View>,
        request: &Request,
    ) -> Result<(), PartFault>
        ensures told { lock_refused result ≡
            lock_refusal (option_copied held.entry) request.now false self.old bars.now locks.old }
        ensures part { OnOk result (self.new ≡ with_part request.now.txn request.now.view self.old) }
        ensures lock { OnOk result
            (locks.new ≡ with_lock request.now.rec false (owner.Txn request.now.txn) locks.old) }
        ensures refused { IfSome (lock_refused result)
            (λ why. (self.new ≡ self.old) × (locks.new ≡ locks.old)) }
    {
        if let Some(fault) = self.obstacle(bars, held, request) {
            return Err(fault);
        }
        locks.take_shared(request.rec, request.txn)?;
        self.join(&request.txn, request.view)?;
        Ok(())
    }

    /// Takes an exclusive lock for the transaction, which gets a part here where it has none. A bar on the record is tested before locks.
    pub fn write_request(
        &mut self,
        locks: &mut Locks,
        bars: &Bars,
        held: Option<&View>,
        request: &Request,
    ) -> Result<(), PartFault>
        ensures told { lock_refused result ≡
            lock_refusal (option_copied held.entry) request.now true self.old bars.now locks.old }
        ensures part { OnOk result (self.new ≡ with_part request.now.txn request.now.view self.old) }
        ensures lock { OnOk result
            (locks.new ≡ with_lock request.now.rec true (owner.Txn request.now.txn) locks.old) }
        ensures refused { IfSome (lock_refused result)
            (λ why. (self.new ≡ self.old) × (locks.new ≡ locks.old)) }
    {
        if let Some(fault) = self.obstacle(bars, held, request) {
            return Err(fault);
        }
        locks.take_exclusive(request.rec, request.txn)?;
        self.join(&request.txn, request.view)?;
        Ok(())
    }

    /// Puts the transaction in doubt, until its outcome comes, and removes its part. Returns the log record of the vote.
    fn put_in_doubt(&mut self, part: &Part, writes: &Writes) -> Result<LogRecord, NoMemory>
        ensures forced { IfOk result
            (λ forced. forced ≡ log_record.Yes part.now.txn part.now.view writes.now) }
        ensures doubt { OnOk result (self.new ≡ with_new_doubt part.now writes.now self.old) }
    {
        self.parts.remove(&part.txn);
        self.doubts.add(part, writes)?;
        Ok(LogRecord::Yes {
            txn: part.txn,
            view: part.view,
            writes: writes.copy_of()?,
        })
    }

    #[tactic(auto, unfolding(crate::specs::Ballots::first_ballot))]
    fn first_vote(
        &mut self,
        locks: &Locks,
        part: &Part,
        asked: &Prepare<'_>,
    ) -> Result<Voted, NoMemory>
        ensures { IfOk result
            (λ voted. (voted, self.new) ≡
            first_ballot part.now asked.now.reads.now asked.now.writes.now locks.now self.old) }
    {
        let (reads, writes) = (asked.reads.as_slice(), asked.writes.as_slice());
        if !has_all_locks(locks, &part.txn, reads, writes) {
            return Ok(Voted::Silent);
        }
        if writes.is_empty() {
            mark_voted(&mut self.parts, part)?;
            return Ok(Voted::Yes { forced: None });
        }
        let forced = self.put_in_doubt(part, asked.writes)?;
        Ok(Voted::Yes {
            forced: Some(forced),
        })
    }

    fn vote(&mut self, locks: &Locks, part: &Part, asked: &Prepare<'_>) -> Result<Voted, NoMemory>
        ensures { IfOk result
            (λ voted. (voted, self.new) ≡
            ballot_of part.now asked.now.reads.now asked.now.writes.now locks.now self.old) }
    {
        if part.voted {
            Ok(Voted::Yes { forced: None })
        } else {
            self.first_vote(locks, part, asked)
        }
    }

    /// Votes on the transaction. A yes is given only in the held view, and the first yes of a part only where the transaction has
    /// all its locks: exclusive ones on what it writes, and any on what it has read.
    #[tactic(auto, unfolding(crate::specs::Ballots::ballot))]
    pub fn prepare(
        &mut self,
        locks: &Locks,
        held: Option<&View>,
        asked: &Prepare<'_>,
    ) -> Result<Voted, PrepareFault>
        ensures told { vote_refused result ≡
            vote_refusal (option_copied held.entry) asked.now.txn asked.now.view self.old }
        ensures voted { IfOk result
            (λ voted. (voted, self.new) ≡
            ballot asked.now.txn asked.now.reads.now asked.now.writes.now locks.now self.old) }
        ensures refused { IfSome (vote_refused result) (λ why. self.new ≡ self.old) }
    {
        if let Some(why) = self.refusal(held, &asked.txn, asked.view) {
            return Err(why);
        }
        if self.doubts.has(&asked.txn) {
            return Ok(Voted::Yes { forced: None });
        }
        match self.parts.get(&asked.txn).copied() {
            None => Ok(Voted::Silent),
            Some(part) => Ok(self.vote(locks, &part, asked)?),
        }
    }

    /// Ends the transaction here and releases all its locks; where a view is held, the end is noted. What it was in doubt about is
    /// returned: after a commit the caller writes that to the copies, and nothing waits for the doubt any more.
    pub fn outcome(
        &mut self,
        locks: &mut Locks,
        held: Option<&View>,
        txn: TxnId,
    ) -> Result<Settled, NoMemory>
        ensures doubt { IfOk result (λ settled. settled.doubt ≡ doubt_ended txn self.old.doubts) }
        ensures ended { OnOk result (self.new ≡ with_ended (is_some held.entry) txn self.old) }
        ensures locks { OnOk result (locks.new ≡ without_owner (owner.Txn txn) locks.old) }
    {
        if held.is_some() {
            self.ended.note(&txn)?;
        }
        self.parts.remove(&txn);
        locks.release(txn);
        Ok(Settled {
            doubt: self
                .doubts
                .take(&txn)
                .map(|doubt| (doubt.view, doubt.into_writes())),
        })
    }

    /// Whether a transaction in doubt writes the record.
    pub fn doubts(&self, rec: RecId) -> bool
        ensures { result ≡ is_written self.now.doubts rec }
    {
        self.doubts.writes(rec)
    }

    /// Copies the transactions in doubt, with their views and writes.
    pub fn in_doubt(&self) -> Result<InDoubt, NoMemory>
        ensures { IfOk result (λ doubts. doubts ≡ self.now.doubts) }
    {
        self.doubts.list()
    }

    /// The transactions with a part here or in doubt here, whose outcomes are not known, ascending.
    pub fn known(&self) -> Result<Txns, NoMemory>
        ensures { IfOk result (λ txns. txns ≡ known self.now) }
    {
        let mut txns = self.parts.names()?;
        self.doubts.add_names(&mut txns)?;
        Ok(Txns::from_vec(txns))
    }

    /// Leaves the view: the transactions in doubt stay, with their exclusive locks, and the other parts end. The locks of refreshes
    /// are released too, so the site only has to end its list of refreshes.
    pub fn leave(&mut self, locks: &mut Locks)
        ensures parts { self.new ≡ without_parts self.old }
        ensures locks { locks.new ≡ filter (outlasts self.old) locks.old }
    {
        locks.retain(self);
        self.parts.clear();
        self.ended.clear();
    }
}

impl Keeps for Participant {
    ghost use Rattle.vp_model.specs.Views.{outlasts};

    ghost keeps = { outlasts };

    fn keeps(&self, lock: &Lock) -> bool {
        match &lock.owner {
            Owner::Refresh => false,
            Owner::Txn(txn) if self.doubts.has(txn) => lock.exclusive,
            Owner::Txn(txn) => !self.parts.has(txn),
        }
    }
}

fn has_writes(locks: &Locks, txn: &TxnId, writes: &[(RecId, Change)]) -> bool
    ensures { result ≡ list_all (λ rec. holds rec true (owner.Txn txn.now) locks.now) (keys writes.now) }
{
    writes
        .iter()
        .map(|write| write.0)
        .all(|rec| locks.holds(rec, true, *txn))
}

fn has_reads(locks: &Locks, txn: &TxnId, reads: &[RecId]) -> bool
    ensures { result ≡ list_all (λ rec. holds rec false (owner.Txn txn.now) locks.now) reads.now }
{
    reads.iter().all(|rec| locks.holds(*rec, false, *txn))
}

/// Whether the transaction has exclusive locks on all writes, and any locks on all reads.
fn has_all_locks(locks: &Locks, txn: &TxnId, reads: &[RecId], writes: &[(RecId, Change)]) -> bool
    ensures { result ≡ has_all_locks locks.now txn.now reads.now writes.now }
{
    has_writes(locks, txn, writes) && has_reads(locks, txn, reads)
}
