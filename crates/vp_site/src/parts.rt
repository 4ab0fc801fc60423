//! What a site does for the transactions of other sites: locks, votes and outcomes (Bernstein, Hadzilacos and Goodman 1987, chapters 3
//! and 7).

ghost use Rattle.std.specs.Prelude.{◌≡◌, OnOk, IfOk, IfSome, is_some, if◌then◌else◌};
ghost use Rattle.vp_base.specs.declared.entry.Owner.TheVariants as owner;
ghost use Rattle.vp_base.specs.declared.message.Message.TheVariants as message;
ghost use Rattle.vp_model.specs.Words.{◌|>◌};
ghost use Rattle.vp_model.specs.Durable.{doubt_of};
ghost use Rattle.vp_model.specs.Locks.{with_lock, without_owner};
ghost use Rattle.vp_model.specs.Site.{send, change_locks, change_participant};
ghost use Rattle.vp_model.specs.Messages.{holds_view, with_part, refuse_view, on_read_request, on_write_request, on_prepare, end_doubt, with_ended, acknowledge, on_outcome};
ghost use Rattle.vp_participant.specs.Doubts.{doubt_ended};
ghost use Rattle.vp_participant.specs.Refusals.{lock_refusal, lock_refused};
ghost use Rattle.vp_site.specs.Requests.{answer_request};
ghost use Rattle.vp_site.specs.Ballots.{with_ballot};

use crate::stepped::Stepped;
use std::alloc::Global;
use vp_base::{
    Boxed, CallNo, LogRecord, Message, NoMemory, Obstacle, SiteId, TxnId, Value, ViewId, Writes,
};
use vp_catalog::Catalog;
use vp_participant::{PartFault, Prepare, PrepareFault, Request, Settled, Voted};

impl Stepped {
    fn refuse(
        &mut self,
        txn: TxnId,
        number: CallNo,
        why: Obstacle,
        to: SiteId,
    ) -> Result<(), NoMemory>
        ensures { OnOk result (self.new ≡ send (message.Refuse txn number why) to self.old) }
    {
        self.send(to, Message::Refuse { txn, number, why })
    }

    /// Locks the record for the transaction, which gets a part here if it has none.
    fn lock(&mut self, request: &Request, exclusive: bool) -> Result<(), PartFault>
        ensures told { lock_refused result ≡
            lock_refusal self.old.site.held request.now exclusive self.old.site.participant self.old.site.bars self.old.site.locks }
        ensures granted { OnOk result (self.new ≡
            self.old |> change_locks (with_lock request.now.rec exclusive (owner.Txn request.now.txn)) |> change_participant (with_part request.now.txn request.now.view)) }
        ensures refused { IfSome (lock_refused result) (λ why. self.new ≡ self.old) }
    {
        let here = &mut self.coordinator.here;
        let held = self.views.held();
        if exclusive {
            self.participant
                .write_request(&mut here.locks, &here.bars, held, request)
        } else {
            self.participant
                .read_request(&mut here.locks, &here.bars, held, request)
        }
    }

    /// Locks the record and sends the answer to the site that asks, or a refusal that says what is in the way.
    #[tactic(auto, unfolding(vp_model::specs::Messages::grant))]
    fn grant(
        &mut self,
        request: &Request,
        exclusive: bool,
        answer: Message,
        from: SiteId,
    ) -> Result<(), NoMemory>
        ensures { OnOk result (self.new ≡ answer_request request.now exclusive answer from self.old) }
    {
        let why = match self.lock(request, exclusive) {
            Ok(()) => return self.send(from, answer),
            Err(PartFault::Ended) => return Ok(()),
            Err(PartFault::NoMemory) => return Err(NoMemory),
            Err(PartFault::OtherView { now }) => Obstacle::OtherView { now },
            Err(PartFault::Barred { inside, total }) => Obstacle::Barred { inside, total },
            Err(PartFault::Held { owner }) => Obstacle::Held { owner },
        };
        self.refuse(request.txn, request.number, why, from)
    }

    /// Refuses the request if the site holds another view, and else ignores it: there is no copy of the record here.
    fn pass_over(&mut self, request: &Request, from: SiteId) -> Result<(), NoMemory>
        ensures { OnOk result (self.new ≡
            (if holds_view self.old.site request.now.view then self.old else refuse_view request.now.txn request.now.number from self.old)) }
    {
        if self.holds_view(request.view) {
            return Ok(());
        }
        let now = self.held_id();
        self.refuse(
            request.txn,
            request.number,
            Obstacle::OtherView { now },
            from,
        )
    }

    /// Takes a shared lock on the copy of the record here, and answers with its content.
    #[tactic(auto, unfolding(vp_model::specs::Messages::on_read_request, vp_model::specs::Messages::on_request, vp_model::specs::Messages::lock_copy))]
    pub fn on_read_request(&mut self, from: SiteId, request: &Request) -> Result<(), NoMemory>
        ensures { OnOk result (self.new ≡
            on_read_request from request.now.txn request.now.view request.now.number request.now.rec self.old) }
    {
        let Request { txn, number, .. } = *request;
        match self.copy_here(request.rec)? {
            None => self.pass_over(request, from),
            Some(stored) => {
                let value = in_box(self.allocator(), stored.into_value())?;
                self.grant(
                    request,
                    false,
                    Message::ReadAnswer { txn, number, value },
                    from,
                )
            }
        }
    }

    /// Takes an exclusive lock on the copy of the record here. What it becomes comes later, with the transaction's prepare message.
    #[tactic(auto, unfolding(vp_model::specs::Messages::on_write_request, vp_model::specs::Messages::on_request, vp_model::specs::Messages::lock_copy))]
    pub fn on_write_request(&mut self, from: SiteId, request: &Request) -> Result<(), NoMemory>
        ensures { OnOk result (self.new ≡
            on_write_request from request.now.txn request.now.view request.now.number request.now.rec self.old) }
    {
        let Request { txn, number, .. } = *request;
        if self.coordinator.here.copies.has(request.rec) {
            self.grant(request, true, Message::WriteAnswer { txn, number }, from)
        } else {
            self.pass_over(request, from)
        }
    }

    /// Forces and sends the vote that the part has given, if it gives one.
    fn cast(&mut self, txn: TxnId, voted: Voted, from: SiteId) -> Result<(), NoMemory>
        ensures { OnOk result (self.new ≡ with_ballot txn from voted self.old) }
    {
        match voted {
            Voted::Silent => Ok(()),
            Voted::Yes { forced } => {
                if let Some(entry) = forced {
                    self.force(entry)?;
                }
                self.send(from, Message::Vote { txn })
            }
        }
    }

    /// Votes for the part of the transaction here, as in the first phase of two-phase commit (Bernstein, Hadzilacos and Goodman 1987,
    /// chapter 7). A part that lacks one of its locks, or has ended, sends nothing.
    #[tactic(auto, unfolding(vp_model::specs::Messages::on_prepare), using(crate::proofs::Voting::prepare_row))]
    pub fn on_prepare(&mut self, from: SiteId, asked: &Prepare<'_>) -> Result<(), NoMemory>
        ensures { OnOk result (self.new ≡
            on_prepare from asked.now.txn asked.now.view asked.now.number asked.now.reads.now asked.now.writes.now self.old) }
    {
        let locks = &self.coordinator.here.locks;
        match self.participant.prepare(locks, self.views.held(), asked) {
            Ok(voted) => self.cast(asked.txn, voted, from),
            Err(PrepareFault::Ended) => Ok(()),
            Err(PrepareFault::NoMemory) => Err(NoMemory),
            Err(PrepareFault::OtherView { now }) => self.refuse(
                asked.txn,
                asked.number,
                Obstacle::OtherView { now },
                from,
            ),
        }
    }

    /// Ends the part of the transaction, and frees its locks.
    fn end_here(&mut self, txn: TxnId) -> Result<Settled, NoMemory>
        ensures part { OnOk result (self.new ≡
            self.old |> change_participant (with_ended (is_some self.old.site.held) txn) |> change_locks (without_owner (owner.Txn txn))) }
        ensures doubt { IfOk result (λ settled. settled.doubt ≡ doubt_ended txn self.old.site.doubts) }
    {
        let locks = &mut self.coordinator.here.locks;
        self.participant.outcome(locks, self.views.held(), txn)
    }

    /// Ends the doubt about the transaction: a commit makes its writes copies.
    fn end_doubt(
        &mut self,
        txn: TxnId,
        commit: bool,
        doubt: &(ViewId, Writes),
    ) -> Result<(), NoMemory>
        ensures { OnOk result (self.new ≡
            end_doubt txn commit (record { txn = txn; view = doubt.now.0; writes = doubt.now.1 }) self.old) }
    {
        if commit {
            self.coordinator
                .here
                .copies
                .write(&doubt.0, doubt.1.as_slice())?;
        }
        self.force(LogRecord::Outcome { txn, commit })
    }

    /// Acknowledges a commit to the site that decided it. An abort needs no acknowledgement, since it is presumed.
    fn acknowledge(&mut self, from: SiteId, txn: TxnId, commit: bool) -> Result<(), NoMemory>
        ensures { OnOk result (self.new ≡ acknowledge from txn commit self.old) }
    {
        if commit {
            self.send(from, Message::Ack { txn })
        } else {
            Ok(())
        }
    }

    /// Ends the part of the transaction as the site that decided it says, and frees its locks. If the part was in doubt, the refreshes
    /// that waited for nothing else end.
    #[tactic(auto, unfolding(vp_model::specs::Messages::on_outcome, vp_model::specs::Messages::end_part, vp_model::specs::Messages::end_here))]
    pub fn on_outcome(
        &mut self,
        catalog: &Catalog,
        from: SiteId,
        txn: TxnId,
        commit: bool,
    ) -> Result<(), NoMemory>
        ensures { OnOk result (self.new ≡ on_outcome catalog.now from txn commit self.old) }
    {
        match self.end_here(txn)?.doubt {
            None => self.acknowledge(from, txn, commit),
            Some(doubt) => {
                self.end_doubt(txn, commit, &doubt)?;
                self.acknowledge(from, txn, commit)?;
                self.settle_written(catalog, doubt.1.as_slice())
            }
        }
    }
}

/// Puts the value of a content in a box.
fn in_box(alloc: Global, content: Option<Value>) -> Result<Option<Boxed<Value>>, NoMemory>
    ensures { IfOk result (λ boxed. boxed ≡ content) }
{
    match content {
        None => Ok(None),
        Some(value) => Ok(Some(Boxed::new(alloc, value)?)),
    }
}
