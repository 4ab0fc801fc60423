//! What the answers of other sites do to a call that waits for them, and what the inquiries of other sites do.

ghost use Rattle.std.specs.Prelude.{◌≡◌, [], OnOk, IfOk, option_map, option_copied, true, false};
ghost use Rattle.vp_model.specs.Calls.{answer_read};
ghost use Rattle.vp_model.specs.Answers.{count_in, read_answered, write_answered, voted, on_read_answer, on_write_answer, on_refuse, on_vote, on_ack, on_inquire};
ghost use Rattle.vp_model.specs.Transactions.{complete, decide};
ghost use Rattle.vp_transactions.specs.Waiting.{waits};
ghost use Rattle.vp_coordinator.specs.InPlace.{in_place};
ghost use Rattle.vp_coordinator.specs.Deeds.{as_deed};
ghost use Rattle.vp_coordinator.specs.Answered.{wanted_read, wanted_change, is_commit, refused_end, refusal, refusal_at};

use crate::coordinator::Coordinator;
use crate::deeds::{Deed, change_asked, record_name};
use vp_base::{
    Boxed, Call, CallNo, CopyOf, Ending, LogRecord, Message, NoMemory, Obstacle, Pending, RecId,
    SiteId, TxnId, Value, ViewId,
};
use vp_catalog::{Catalog, others_of};
use vp_transactions::Handled;

/// What the row of a message reads beside it: the catalogue, the sender, and the site that has received it.
#[derive(Clone, Copy)]
pub struct Incoming<'a> {
    pub catalog: &'a Catalog,
    pub from: SiteId,
    pub id: SiteId,
}

/// The record that the pending call reads, where it is a read with this number.
fn wanted_read(catalog: &Catalog, number: CallNo, p: &Pending) -> Option<RecId>
    ensures { result ≡ wanted_read catalog.now number p.now p.now.call }
{
    match &p.call {
        Call::Read { name, .. } if p.number == number => catalog.find(name),
        _ => None,
    }
}

/// What the pending call asks to change, where it has this number.
fn wanted_change(catalog: &Catalog, number: CallNo, p: &Pending) -> Result<Option<Deed>, NoMemory>
    ensures { IfOk result (λ wanted. option_map as_deed wanted ≡ wanted_change catalog.now number p.now) }
{
    if p.number == number {
        change_asked(catalog, &p.call)
    } else {
        Ok(None)
    }
}

fn is_commit(call: &Call) -> bool
    ensures { result ≡ is_commit call.now }
{
    matches!(call, Call::Commit { .. })
}

/// How a transaction of this view ends where a site has refused its call.
fn refused_end(
    from: SiteId,
    why: &Obstacle,
    view: ViewId,
    call: &Call,
) -> Result<Option<Ending>, NoMemory>
    ensures { IfOk result (λ end. end ≡ refused_end from why.now view call.now) }
{
    match why {
        Obstacle::OtherView { now } => Ok(Some(Ending::ViewChanged {
            at: from,
            held: view,
            now: *now,
        })),
        Obstacle::Held { owner } => match record_name(call) {
            None => Ok(None),
            Some(name) => Ok(Some(Ending::LockHeld {
                name: name.copy_of()?,
                at: from,
                owner: *owner,
            })),
        },
        Obstacle::Barred { inside, total } => match record_name(call) {
            None => Ok(None),
            Some(name) => Ok(Some(Ending::Inaccessible {
                name: name.copy_of()?,
                inside: *inside,
                total: *total,
            })),
        },
    }
}

fn refusal(
    from: SiteId,
    number: CallNo,
    why: &Obstacle,
    handled: &Handled,
) -> Result<Option<Ending>, NoMemory>
    ensures { IfOk result (λ end. end ≡
        refusal from number why.now handled.now.live.view handled.now.pending) }
{
    if handled.pending.number == number {
        refused_end(from, why, handled.live.view, &handled.pending.call)
    } else {
        Ok(None)
    }
}

/// Copies the content.
fn content_of(value: &Option<Boxed<Value>>) -> Result<Option<Value>, NoMemory>
    ensures { IfOk result (λ content. content ≡ value.now) }
{
    match value {
        None => Ok(None),
        Some(value) => Ok(Some(value.as_ref().copy_of()?)),
    }
}

/// Counts the site's answer to a read; where no other is missing, the read is answered.
#[tactic(auto, using(crate::proofs::Rows::wait_in_place))]
fn count_read(
    lent: &mut Coordinator,
    from: SiteId,
    handled: &mut Handled,
    rec: RecId,
    value: Option<Value>,
) -> Result<(), NoMemory>
    ensures { OnOk result (lent.new ≡
        count_in from handled.old.live handled.old.pending (answer_read handled.old.live handled.old.pending rec value)
        (in_place handled.old.live lent.old)) }
{
    let missing = others_of(&handled.pending.missing, from)?;
    if missing.as_slice().is_empty() {
        lent.answer_read(handled, rec, value)
    } else {
        lent.wait_for(handled, missing)
    }
}

#[tactic(auto, using(crate::proofs::Answered::questions))]
fn read_answered(
    lent: &mut Coordinator,
    came: &Incoming<'_>,
    handled: &mut Handled,
    number: CallNo,
    value: &Option<Boxed<Value>>,
) -> Result<(), NoMemory>
    requires { waits handled.old.live ≡ true }
    ensures { OnOk result (lent.new ≡
        read_answered came.now.catalog.now came.now.from number value.now handled.old.live handled.old.pending handled.old.pending.call
        (in_place handled.old.live lent.old)) }
{
    match wanted_read(came.catalog, number, &handled.pending) {
        None => {
            lent.put_back(handled);
            Ok(())
        }
        Some(rec) => {
            let value = content_of(value)?;
            count_read(lent, came.from, handled, rec, value)
        }
    }
}

/// Counts the site's lock for a change; where no other is missing, the change is answered.
#[tactic(auto, using(crate::proofs::Rows::wait_in_place))]
fn count_change(
    lent: &mut Coordinator,
    from: SiteId,
    handled: &mut Handled,
    deed: Deed,
) -> Result<(), NoMemory>
    ensures { OnOk result (lent.new ≡
        count_in from handled.old.live handled.old.pending (complete handled.old.live handled.old.pending (as_deed deed))
        (in_place handled.old.live lent.old)) }
{
    let missing = others_of(&handled.pending.missing, from)?;
    if missing.as_slice().is_empty() {
        lent.complete(handled, deed)
    } else {
        lent.wait_for(handled, missing)
    }
}

#[tactic(auto, using(crate::proofs::Answered::questions))]
fn write_answered(
    lent: &mut Coordinator,
    came: &Incoming<'_>,
    handled: &mut Handled,
    number: CallNo,
) -> Result<(), NoMemory>
    requires { waits handled.old.live ≡ true }
    ensures { OnOk result (lent.new ≡
        write_answered came.now.catalog.now came.now.from number handled.old.live handled.old.pending
        (in_place handled.old.live lent.old)) }
{
    match wanted_change(came.catalog, number, &handled.pending)? {
        None => {
            lent.put_back(handled);
            Ok(())
        }
        Some(deed) => count_change(lent, came.from, handled, deed),
    }
}

#[tactic(auto, using(crate::proofs::Rows::close_own))]
fn refused(
    lent: &mut Coordinator,
    came: &Incoming<'_>,
    handled: &mut Handled,
    number: CallNo,
    why: &Obstacle,
) -> Result<(), NoMemory>
    requires { waits handled.old.live ≡ true }
    ensures { OnOk result (lent.new ≡
        refusal_at came.now.id came.now.from number why.now handled.old.live handled.old.pending
        (in_place handled.old.live lent.old)) }
{
    match refusal(came.from, number, why, handled)? {
        None => {
            lent.put_back(handled);
            Ok(())
        }
        Some(end) => lent.close(came.id, &mut handled.live, end),
    }
}

/// Counts the site's yes vote; where no other is missing, the transaction commits. (Two-phase commit: Bernstein, Hadzilacos and
/// Goodman 1987, chapter 7.)
#[tactic(auto, using(crate::proofs::Rows::wait_in_place))]
fn count_vote(
    lent: &mut Coordinator,
    came: &Incoming<'_>,
    handled: &mut Handled,
) -> Result<(), NoMemory>
    ensures { OnOk result (lent.new ≡
        count_in came.now.from handled.old.live handled.old.pending (decide came.now.catalog.now came.now.id handled.old.live)
        (in_place handled.old.live lent.old)) }
{
    let missing_votes = others_of(&handled.pending.missing, came.from)?;
    if missing_votes.as_slice().is_empty() {
        lent.decide(came.catalog, came.id, &mut handled.live)
    } else {
        lent.wait_for(handled, missing_votes)
    }
}

#[tactic(auto, using(crate::proofs::Answered::questions))]
fn voted(lent: &mut Coordinator, came: &Incoming<'_>, handled: &mut Handled) -> Result<(), NoMemory>
    requires { waits handled.old.live ≡ true }
    ensures { OnOk result (lent.new ≡
        voted came.now.catalog.now came.now.id came.now.from handled.old.live handled.old.pending handled.old.pending.call
        (in_place handled.old.live lent.old)) }
{
    if is_commit(&handled.pending.call) {
        return count_vote(lent, came, handled);
    }
    lent.put_back(handled);
    Ok(())
}

/// The messages of other sites for the transactions that this site began. After want of memory what is lent may be changed in part:
/// drop it.
impl Coordinator {
    /// Takes the content that another site sends for the read that waits for it.
    #[tactic(auto, using(crate::proofs::Answered::awaited))]
    pub fn on_read_answer(
        &mut self,
        came: &Incoming<'_>,
        txn: &TxnId,
        number: CallNo,
        value: &Option<Boxed<Value>>,
    ) -> Result<(), NoMemory>
        ensures { OnOk result (self.new ≡
            on_read_answer came.now.catalog.now came.now.from txn.now number value.now self.old) }
    {
        match self.transactions.take_waiting(txn, came.from)? {
            None => Ok(()),
            Some(mut handled) => read_answered(self, came, &mut handled, number, value),
        }
    }

    /// Takes the lock of another site for the change that waits for it.
    #[tactic(auto, using(crate::proofs::Answered::awaited))]
    pub fn on_write_answer(
        &mut self,
        came: &Incoming<'_>,
        txn: &TxnId,
        number: CallNo,
    ) -> Result<(), NoMemory>
        ensures { OnOk result (self.new ≡
            on_write_answer came.now.catalog.now came.now.from txn.now number self.old) }
    {
        match self.transactions.take_waiting(txn, came.from)? {
            None => Ok(()),
            Some(mut handled) => write_answered(self, came, &mut handled, number),
        }
    }

    /// Aborts the transaction whose call waits for the site, which has refused it.
    #[tactic(auto, using(crate::proofs::Answered::awaited))]
    pub fn on_refuse(
        &mut self,
        came: &Incoming<'_>,
        txn: &TxnId,
        number: CallNo,
        why: &Obstacle,
    ) -> Result<(), NoMemory>
        ensures { OnOk result (self.new ≡
            on_refuse came.now.id came.now.from txn.now number why.now self.old) }
    {
        match self.transactions.take_waiting(txn, came.from)? {
            None => Ok(()),
            Some(mut handled) => refused(self, came, &mut handled, number, why),
        }
    }

    /// Takes the yes vote of the site for the commit that waits for it.
    #[tactic(auto, using(crate::proofs::Answered::awaited))]
    pub fn on_vote(&mut self, came: &Incoming<'_>, txn: &TxnId) -> Result<(), NoMemory>
        ensures { OnOk result (self.new ≡
            on_vote came.now.catalog.now came.now.id came.now.from txn.now self.old) }
    {
        match self.transactions.take_waiting(txn, came.from)? {
            None => Ok(()),
            Some(mut handled) => voted(self, came, &mut handled),
        }
    }

    /// Notes that the site knows the decision.
    #[tactic(auto, unfolding(vp_model::specs::Answers::on_ack))]
    pub fn on_ack(&mut self, from: SiteId, txn: &TxnId) -> Result<(), NoMemory>
        ensures { OnOk result (self.new ≡ on_ack from txn.now self.old) }
    {
        if !self.transactions.waits_for(txn, from) {
            return Ok(());
        }
        self.transactions.acknowledge(txn, from);
        self.effects.force(LogRecord::Acked {
            txn: *txn,
            site: from,
        })
    }

    /// Answers an inquiry. A coordinator without a decision answers abort, which is presumed abort; it is silent while the transaction
    /// is live.
    #[tactic(auto, unfolding(vp_model::specs::Answers::on_inquire))]
    pub fn on_inquire(&mut self, id: SiteId, from: SiteId, txn: &TxnId) -> Result<(), NoMemory>
        ensures { OnOk result (self.new ≡ on_inquire id from txn.now self.old) }
    {
        if txn.site == id && !self.transactions.is_live(txn) {
            let commit = self.transactions.is_decided(txn);
            return self
                .effects
                .send(id, from, Message::Outcome { txn: *txn, commit });
        }
        Ok(())
    }
}
