//! The durable part, and what each kind of log record does to it.

ghost use Rattle.std.specs.Prelude.{◌≡◌, OnOk, OnErr, IfOk, is_some, true, option_copied};
ghost use Rattle.vp_base.specs.declared.entry.LogRecord.TheVariants as log_record;
ghost use Rattle.vp_model.specs.Words.{has, keys, value_at, for_each, replace_at};
ghost use Rattle.vp_model.specs.Durable.{empty_durable, apply, apply_all, doubt_of, with_outcome, put_doubt, with_writes, with_decision};
ghost use Rattle.vp_records.specs.Applying.{AppliesSome};
ghost use Rattle.vp_records.specs.Records.{CanBeSaved, IsLogRecord};

use crate::copies::restore;
use crate::decided::DecisionTable;
use crate::doubts::{drop_doubt, keep_doubt};
use crate::site_copies::SiteCopies;
use std::marker::Model;
use vp_base::{
    Copies, CopyOf, Decisions, InDoubt, LogRecord, NoMemory, RecId, SiteId, Sites, Stored, TxnId,
    ViewId, Writes,
};
use vp_lists::find_txn;

/// What a site still has after a crash: its promise, its life, its copies, the transactions in doubt, and the decisions that some
/// site has not acknowledged.
pub struct Durable {
    promise: ViewId,
    life: u32,
    copies: SiteCopies,
    doubts: InDoubt,
    decisions: DecisionTable,
}

impl Drop for Durable {
    fn drop(self) {
        let Durable {
            promise: _,
            life: _,
            copies: _,
            doubts: _,
            decisions: _,
        } = self;
    }
}

impl Model for Durable {
    ghost use Rattle.vp_model.specs.Durable.{DurableState};

    ghost Value = { DurableState };

    ghost view = { λ d. record { promise = d.promise; life = d.life; copies = d.copies; doubts = d.doubts; decisions = d.decisions } };
}

impl CopyOf for Durable {
    fn copy_of(&self) -> Result<Durable, NoMemory> {
        Ok(Durable {
            promise: self.promise,
            life: self.life,
            copies: self.copies.copy_of()?,
            doubts: self.doubts.copy_of()?,
            decisions: self.decisions.copy_of()?,
        })
    }
}

impl Durable {
    /// The durable part of a site that never ran, with these copies. Takes no memory.
    pub fn empty(copies: Copies) -> Durable
        ensures { result ≡ empty_durable copies }
    {
        let alloc = copies.allocator();
        Durable {
            promise: ViewId { number: 0, site: 0 },
            life: 0,
            copies: SiteCopies::new(copies),
            doubts: InDoubt::new(alloc),
            decisions: DecisionTable::new(alloc),
        }
    }

    /// Makes a durable part of these. Takes no memory.
    pub fn new(
        promise: ViewId,
        life: u32,
        copies: Copies,
        doubts: InDoubt,
        decisions: Decisions,
    ) -> Durable
        ensures { result ≡
            record {
              promise = promise;
              life = life;
              copies = copies;
              doubts = doubts;
              decisions = decisions;
            } }
    {
        Durable {
            promise,
            life,
            copies: SiteCopies::new(copies),
            doubts,
            decisions: DecisionTable::listed(decisions),
        }
    }

    /// Gives the copies, and drops the rest.
    pub fn into_copies(self) -> SiteCopies
        ensures { result ≡ self.copies }
    {
        let Durable {
            promise: _,
            life: _,
            copies,
            doubts: _,
            decisions: _,
        } = self;
        copies
    }

    /// The highest identifier of a view that the site has accepted or made.
    pub fn promise(&self) -> ViewId
        ensures { result ≡ self.now.promise }
    {
        self.promise
    }

    /// The number of the site's latest life; 0 where it never ran.
    pub fn life(&self) -> u32
        ensures { result ≡ self.now.life }
    {
        self.life
    }

    /// Its copy of the record, or `None` where it has no copy.
    #[tactic(auto, using(crate::proofs::Held::found_there))]
    pub fn stored(&self, rec: RecId) -> Option<&Stored>
        ensures copy { option_copied result ≡ value_at rec self.now.copies }
        ensures there { is_some result ≡ has (keys self.now.copies) rec }
    {
        self.copies.get(rec)
    }

    /// The transactions that the site voted yes on and whose outcome it doesn't know, ascending.
    pub fn doubts(&self) -> &InDoubt
        ensures { result.now ≡ self.now.doubts }
    {
        &self.doubts
    }

    /// The transactions that the site committed and that some site has not acknowledged.
    pub fn decisions(&self) -> &DecisionTable
        ensures { result.now ≡ self.now.decisions }
    {
        &self.decisions
    }

    /// Makes the log record that saves all of it. `generation` is the number of the checkpoint, from 1.
    pub fn checkpoint(&self, generation: u64) -> Result<LogRecord, NoMemory>
        ensures record { IfOk result
            (λ r. r ≡ log_record.Checkpoint generation self.now.life self.now.promise self.now.copies
            self.now.doubts self.now.decisions) }
        ensures spelled { CanBeSaved self.now → IfOk result IsLogRecord }
    {
        let copies = self.copies.to_list()?;
        let doubts = self.doubts.copy_of()?;
        let decisions = self.decisions.list()?;
        Ok(LogRecord::Checkpoint {
            generation,
            life: self.life,
            promise: self.promise,
            copies,
            doubts,
            decisions,
        })
    }

    #[tactic(auto, unfolding(vp_model::specs::Durable::apply))]
    fn start(&mut self, life: u32)
        ensures { self.new ≡ apply (log_record.Start life) self.old }
    {
        self.life = life;
    }

    #[tactic(auto, unfolding(vp_model::specs::Durable::apply))]
    fn promise_to(&mut self, view: ViewId)
        ensures { self.new ≡ apply (log_record.Promise view) self.old }
    {
        self.promise = view;
    }

    /// Adds the transaction to those in doubt.
    #[tactic(auto, unfolding(vp_model::specs::Durable::apply))]
    fn vote(&mut self, txn: &TxnId, view: &ViewId, writes: &Writes) -> Result<(), NoMemory>
        ensures ok { OnOk result (self.new ≡ apply (log_record.Yes txn.now view.now writes.now) self.old) }
        ensures err { OnErr result (self.new ≡ self.old) }
    {
        keep_doubt(&mut self.doubts, txn, view, writes)
    }

    /// Makes the writes of the transaction in doubt the copies, with its view as their date.
    fn write_doubt(&mut self, txn: &TxnId) -> Result<(), NoMemory>
        ensures ok { OnOk result
            (self.new ≡
            record self.old
            { copies = with_outcome (doubt_of txn.now self.old.doubts) true self.old.copies }) }
        ensures err { OnErr result (self.new ≡ self.old) }
    {
        match find_txn(self.doubts.as_slice(), txn) {
            None => Ok(()),
            Some(doubt) => self.copies.write(&doubt.view, doubt.writes.as_slice()),
        }
    }

    /// Ends the doubt; where the outcome is commit, the writes become the copies.
    #[tactic(auto, unfolding(vp_model::specs::Durable::apply))]
    fn end_doubt(&mut self, txn: &TxnId, commit: bool) -> Result<(), NoMemory>
        ensures ok { OnOk result (self.new ≡ apply (log_record.Outcome txn.now commit) self.old) }
        ensures err { OnErr result (self.new ≡ self.old) }
    {
        if commit {
            self.write_doubt(txn)?;
        }
        drop_doubt(&mut self.doubts, txn);
        Ok(())
    }

    /// Keeps the decision on the transaction until each of the sites has acknowledged it.
    fn keep(&mut self, txn: &TxnId, waiting: &Sites) -> Result<(), NoMemory>
        ensures ok { OnOk result
            (self.new ≡
            record self.old { decisions = with_decision txn.now waiting.now self.old.decisions }) }
        ensures err { OnErr result (self.new ≡ self.old) }
    {
        self.decisions.keep(txn, waiting.copy_of()?)
    }

    /// Makes the writes of a transaction that the site committed its copies, and keeps the decision.
    #[tactic(auto, unfolding(vp_model::specs::Durable::apply))]
    fn commit(
        &mut self,
        txn: &TxnId,
        view: &ViewId,
        writes: &Writes,
        waiting: &Sites,
    ) -> Result<(), NoMemory>
        ensures ok { OnOk result
            (self.new ≡ apply (log_record.Commit txn.now view.now writes.now waiting.now) self.old) }
        ensures err { OnErr result (self.new ≡ self.old) }
    {
        let ready = self.copies.prepare(view, writes.as_slice())?;
        self.keep(txn, waiting)?;
        self.copies.settle(view, ready);
        Ok(())
    }

    #[tactic(auto, unfolding(vp_model::specs::Durable::apply))]
    fn set_copy(&mut self, rec: RecId, stored: &Stored) -> Result<(), NoMemory>
        ensures ok { OnOk result (self.new ≡ apply (log_record.Copy rec stored.now) self.old) }
        ensures err { OnErr result (self.new ≡ self.old) }
    {
        self.copies.replace(rec, stored.copy_of()?)
    }

    #[tactic(auto, unfolding(vp_model::specs::Durable::apply))]
    fn acknowledge(&mut self, txn: &TxnId, site: SiteId)
        ensures { self.new ≡ apply (log_record.Acked txn.now site) self.old }
    {
        self.decisions.acknowledge(txn, site);
    }

    /// Restores everything as it was saved, except copies that were not saved.
    fn restore(
        &mut self,
        life: u32,
        promise: &ViewId,
        copies: &Copies,
        doubts: &InDoubt,
        decisions: &Decisions,
    ) -> Result<(), NoMemory>
        ensures ok { OnOk result (self.new ≡ record {
          promise = promise.now;
          life = life;
          copies = for_each copies.now (λ c. replace_at c.0 c.1) self.old.copies;
          doubts = doubts.now;
          decisions = decisions.now;
        }) }
        ensures err { OnErr result (self.new ≡ self.old) }
    {
        let mut restored = self.copies.to_list()?.into_vec();
        restore(&mut restored, copies.as_slice())?;
        let doubts = doubts.copy_of()?;
        self.decisions = DecisionTable::copied(decisions)?;
        self.copies = SiteCopies::new(Copies::from_vec(restored));
        self.doubts = doubts;
        self.promise = *promise;
        self.life = life;
        Ok(())
    }

    /// Does what one log record says. Where memory is lacking, nothing changes.
    #[tactic(auto, unfolding(vp_model::specs::Durable::apply))]
    pub fn apply(&mut self, entry: &LogRecord) -> Result<(), NoMemory>
        ensures applied { OnOk result (self.new ≡ apply entry.now self.old) }
        ensures unchanged { OnErr result (self.new ≡ self.old) }
        ensures held { keys self.new.copies ≡ keys self.old.copies }
    {
        match entry {
            LogRecord::Start { life } => {
                self.start(*life);
                Ok(())
            }
            LogRecord::Promise { view } => {
                self.promise_to(*view);
                Ok(())
            }
            LogRecord::Yes { txn, view, writes } => self.vote(txn, view, writes),
            LogRecord::Outcome { txn, commit } => self.end_doubt(txn, *commit),
            LogRecord::Commit {
                txn,
                view,
                writes,
                waiting,
            } => self.commit(txn, view, writes, waiting),
            LogRecord::Copy { rec, stored } => self.set_copy(*rec, stored),
            LogRecord::Acked { txn, site } => {
                self.acknowledge(txn, *site);
                Ok(())
            }
            LogRecord::Checkpoint {
                generation: _,
                life,
                promise,
                copies,
                doubts,
                decisions,
            } => self.restore(*life, promise, copies, doubts, decisions),
            LogRecord::YesOfValues { txn, view, writes } => self.vote(txn, view, writes),
            LogRecord::CommitOfValues {
                txn,
                view,
                writes,
                waiting,
            } => self.commit(txn, view, writes, waiting),
            LogRecord::CopyOfValue { rec, stored } => self.set_copy(*rec, stored),
            LogRecord::CheckpointOfValues {
                generation: _,
                life,
                promise,
                copies,
                doubts,
                decisions,
            } => self.restore(*life, promise, copies, doubts, decisions),
        }
    }

    /// Does what the log records say, in their order. After want of memory the first ones are done, and no other.
    pub fn apply_all(&mut self, records: &[LogRecord]) -> Result<(), NoMemory>
        ensures applied { OnOk result (self.new ≡ apply_all records.now self.old) }
        ensures some { OnErr result (AppliesSome records.now self.old self.new) }
    {
        for entry in records {
            self.apply(entry)?;
        }
        Ok(())
    }
}
