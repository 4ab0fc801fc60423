//! How a transaction goes on after a call is done, and how it ends.

ghost use Rattle.std.specs.Prelude.{◌≡◌, ◌++◌, ◌∷◌, [], OnOk, Some, None, true, false, if◌then◌else◌};
ghost use Rattle.vp_base.specs.declared.message.Message.TheVariants as message;
ghost use Rattle.vp_base.specs.declared.site.Ending.TheVariants as ending;
ghost use Rattle.vp_model.specs.Words.{is_empty};
ghost use Rattle.vp_model.specs.Site.{lent_reply, with_reply, with_commit, with_messages};
ghost use Rattle.vp_model.specs.Transactions.{entry_of, last_changes, complete, wait_for, close, keep_writes, decided, decide};
ghost use Rattle.vp_model.specs.Calls.{handling, answer_read};
ghost use Rattle.vp_transactions.specs.Waiting.{waits, standing_for};
ghost use Rattle.vp_coordinator.specs.InPlace.{in_place};
ghost use Rattle.vp_coordinator.specs.Deeds.{as_deed};

use crate::coordinator::Coordinator;
use crate::deeds::{Deed, add_answer, deed_answer};
use crate::final_writes::{last_changes, writes_held, writing_parts};
use std::mem;
use vp_base::{
    Answer, Commit, CopyOf, Effects, Ending, Live, LogRecord, Name, NoMemory, Op, Ops, Owner,
    RecId, SiteId, Sites, Tables, Value, Writes,
};
use vp_catalog::Catalog;
use vp_transactions::{Handled, send_outcome};

impl Coordinator {
    /// Puts the transaction back as it was, and leaves in `handled` what was in its place.
    pub fn put_back(&mut self, handled: &mut Handled)
        requires { waits handled.old.live ≡ true }
        ensures row { self.new ≡ in_place handled.old.live self.old }
        ensures left { handled.new ≡
            record handled.old { live = standing_for handled.old.live self.old.live } }
    {
        self.transactions.put_live(&mut handled.live)
    }

    /// Gives the call this answer, which is not kept.
    pub fn refuse(&mut self, handled: &mut Handled, answer: Answer) -> Result<(), NoMemory>
        requires { waits handled.old.live ≡ true }
        ensures { OnOk result (self.new ≡
            lent_reply answer handled.old.pending.port (in_place handled.old.live self.old)) }
    {
        let port = handled.pending.port;
        self.put_back(handled);
        self.effects.reply(port, answer)
    }

    /// Answers the call: what it did is done, and the answer is kept.
    #[tactic(auto, unfolding(vp_model::specs::Transactions::complete), using(crate::proofs::Rows::in_places))]
    pub fn complete(&mut self, handled: &mut Handled, deed: Deed) -> Result<(), NoMemory>
        ensures { OnOk result (self.new ≡
            complete handled.old.live handled.old.pending (as_deed deed) (in_place handled.old.live self.old)) }
    {
        let answer = deed_answer(handled.txn(), handled.number(), &deed)?;
        reply_with(handled.pending.port, &answer, &mut self.effects)?;
        add_answer(&mut handled.live, deed, answer)?;
        self.put_back(handled);
        Ok(())
    }

    /// Answers the read with this content.
    pub fn answer_read(
        &mut self,
        handled: &mut Handled,
        rec: RecId,
        value: Option<Value>,
    ) -> Result<(), NoMemory>
        ensures { OnOk result (self.new ≡
            answer_read handled.old.live handled.old.pending rec value (in_place handled.old.live self.old)) }
    {
        let operation = Op::Read { rec, value };
        self.complete(handled, Deed::Operates { operation })
    }

    /// Lets the call wait for these sites.
    pub fn wait_for(&mut self, handled: &mut Handled, sites: Sites) -> Result<(), NoMemory>
        requires { is_empty sites ≡ false }
        ensures { OnOk result (self.new ≡ wait_for handled.old.live handled.old.pending sites self.old) }
    {
        handled.pending.missing = sites;
        handled.attach_call()?;
        self.transactions.put_live(&mut handled.live);
        Ok(())
    }

    /// Aborts the transaction. Its answers are kept with its end.
    #[tactic(auto, unfolding(vp_model::specs::Transactions::close, vp_model::specs::Transactions::finish))]
    pub fn close(&mut self, id: SiteId, t: &mut Live, why: Ending) -> Result<(), NoMemory>
        ensures row { OnOk result (self.new ≡ close id t.old why self.old) }
        ensures left { OnOk result (t.new ≡ record t.old { answers = [] }) }
    {
        send_outcome(id, &t.txn, false, t.parts.as_slice(), &mut self.effects)?;
        self.here.locks.release(t.txn);
        self.transactions.finish(t, why, &mut self.effects)
    }

    /// Aborts the transaction, since another owner has a lock on the record of this name.
    #[tactic(auto, using(crate::proofs::Rows::in_places))]
    pub fn close_blocked(
        &mut self,
        id: SiteId,
        handled: &mut Handled,
        name: &Name,
        holder: Owner,
    ) -> Result<(), NoMemory>
        ensures { OnOk result (self.new ≡
            close id (handling handled.old.live handled.old.pending) (ending.LockHeld name.now id holder)
            (in_place handled.old.live self.old)) }
    {
        let why = Ending::LockHeld {
            name: name.copy_of()?,
            at: id,
            owner: holder,
        };
        handled.attach_call()?;
        self.close(id, &mut handled.live, why)
    }

    #[tactic(auto, unfolding(vp_model::specs::Transactions::keep_writes))]
    fn keep_writes(
        &mut self,
        catalog: &Catalog,
        id: SiteId,
        t: &Live,
        writes: &Writes,
    ) -> Result<(), NoMemory>
        requires { writes.now ≡ last_changes (entry_of t.now) }
        ensures { OnOk result (self.new ≡ keep_writes catalog.now id t.now self.old) }
    {
        let alloc = t.ops.allocator();
        let own = writes_held(alloc, catalog, id, writes.as_slice())?;
        self.here.copies.write(&t.view, own.as_slice())?;
        let waiting = writing_parts(alloc, catalog, t, writes.as_slice())?;
        self.transactions.keep_decision(&t.txn, waiting.copy_of()?)?;
        self.effects.force(LogRecord::Commit {
            txn: t.txn,
            view: t.view,
            writes: own,
            waiting,
        })
    }

    /// Forces the decision to the log where the transaction changed something.
    fn keep_changed(&mut self, catalog: &Catalog, id: SiteId, t: &Live) -> Result<(), NoMemory>
        ensures { OnOk result (self.new ≡
            (if is_empty (last_changes (entry_of t.now)) then self.old else keep_writes catalog.now id t.now self.old)) }
    {
        let writes = last_changes(t.ops.allocator(), t)?;
        if writes.as_slice().is_empty() {
            return Ok(());
        }
        self.keep_writes(catalog, id, t, &writes)
    }

    #[tactic(auto, unfolding(vp_model::specs::Transactions::decided, vp_model::specs::Transactions::finish))]
    fn decided(&mut self, id: SiteId, t: &mut Live) -> Result<(), NoMemory>
        ensures row { OnOk result (self.new ≡ decided id t.old self.old) }
        ensures left { OnOk result (t.new ≡ record t.old { ops = []; tables = []; answers = [] }) }
    {
        send_commit(id, t, &mut self.effects)?;
        self.here.locks.release(t.txn);
        self.transactions
            .finish(t, Ending::Committed, &mut self.effects)
    }

    /// Commits the transaction: where it changed something, the decision is forced to the log before any message of it is sent. Its operations
    /// and tables go to the journal, and its answers are kept with its end. (Two-phase commit: Bernstein, Hadzilacos and Goodman 1987, chapter
    /// 7.)
    #[tactic(auto, unfolding(vp_model::specs::Transactions::decide))]
    pub fn decide(&mut self, catalog: &Catalog, id: SiteId, t: &mut Live) -> Result<(), NoMemory>
        ensures row { OnOk result (self.new ≡ decide catalog.now id t.old self.old) }
        ensures left { OnOk result (t.new ≡ record t.old { ops = []; tables = []; answers = [] }) }
    {
        self.keep_changed(catalog, id, t)?;
        self.decided(id, t)
    }
}

/// Gives the call a copy of this answer.
fn reply_with(port: u16, answer: &Answer, effects: &mut Effects) -> Result<(), NoMemory>
    ensures { OnOk result (effects.new ≡ with_reply answer.now port effects.old) }
{
    effects.reply(port, answer.copy_of()?)
}

/// Gives the transaction to the journal, with its operations and tables, and sends its commit to its parts.
fn send_commit(id: SiteId, t: &mut Live, effects: &mut Effects) -> Result<(), NoMemory>
    ensures live { OnOk result (t.new ≡ record t.old { ops = []; tables = [] }) }
    ensures effects { OnOk result (effects.new ≡
        with_messages id (message.Outcome t.old.txn true) t.old.parts (with_commit (entry_of t.old) effects.old)) }
{
    let no_ops = Ops::new(t.ops.allocator());
    let no_tables = Tables::new(t.tables.allocator());
    effects.commit(Commit {
        txn: t.txn,
        view: t.view,
        ops: mem::replace(&mut t.ops, no_ops),
        tables: mem::replace(&mut t.tables, no_tables),
    })?;
    send_outcome(id, &t.txn, true, t.parts.as_slice(), effects)
}
