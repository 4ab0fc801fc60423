//! The transactions that a site began, and how they end.

ghost use Rattle.std.specs.Prelude.{◌≡◌, ◌<◌, ◌-◌, ◌^◌, ◌++◌, ◌∷◌, ◌+◌, [], OnOk, OnErr, IfOk, IfSome, true, filter, Some, None, nat_le, if◌then◌else◌, length, option_copied};
ghost use Rattle.std.specs.Option.{option_map_or};
ghost use Rattle.vp_base.specs.declared.answer.Answer.TheVariants as answer;
ghost use Rattle.vp_model.specs.Words.{opening, has, at_most};
ghost use Rattle.vp_base.specs.declared.message.Message.TheVariants as message;
ghost use Rattle.vp_model.specs.Site.{with_reply, with_messages};
ghost use Rattle.vp_model.specs.Transactions.{live_of, finished_of, put_live, answer_of, answers_after, with_pending_reply, with_end, with_finished, with_kept};
ghost use Rattle.vp_model.specs.Calls.{kept_answer, begun, with_begun};
ghost use Rattle.vp_model.specs.Answers.{waits_for, with_acknowledged, is_live, is_decided};
ghost use Rattle.vp_model.specs.Step.{is_marked_call, with_marks};
ghost use Rattle.vp_transactions.specs.Ended.{answer_of_finished, answer_after};
ghost use Rattle.vp_transactions.specs.Waiting.{waits, all_wait, standing_for, pending_for, waiting_call, with_outcomes};

use crate::handled::Handled;
use crate::live::LiveTxns;
use std::alloc::Global;
use std::collections::VecDeque;
use std::marker::Model;
use std::mem;
use vp_base::{
    Answer, CallNo, CopyOf, Decision, Effects, Ending, Finished, Live, MOST_FINISHED, Message,
    NoMemory, Pending, Seq, SiteId, Sites, TxnId, ViewId, has_site,
};
use vp_lists::OfTxn;
use vp_records::DecisionTable;

/// The live transactions, the ends of those that have ended, and the decisions that some site has not acknowledged. `seq` is the
/// number of the transaction that began last, so no live one has a higher number.
#[derive(Drop)]
pub struct Transactions {
    pub seq: u32,
    pub live: LiveTxns,
    pub finished: VecDeque<Finished>,
    pub decisions: DecisionTable,
}

impl Model for Transactions {
    ghost use Rattle.std.specs.Prelude.{◌+◌};
    ghost use Rattle.vp_model.specs.Site.{CoordinatorState};
    ghost use Rattle.vp_transactions.specs.Order.{AreBelow};

    ghost Value = { CoordinatorState };

    ghost view = { λ c. record { seq = c.seq; live = c.live; finished = c.finished.items; decisions = c.decisions } };

    ghost invariant = { λ c. AreBelow (c.seq + 1) c.live };
}

/// The answer to a call of a transaction that has ended so.
fn answer_to(txn: &TxnId, number: CallNo, why: &Ending) -> Result<Answer, NoMemory>
    ensures { IfOk result (λ answer. answer ≡ answer_of txn.now number why.now) }
{
    let txn = *txn;
    match why {
        Ending::Committed => Ok(Answer::Committed { txn, number }),
        Ending::Aborted => Ok(Answer::Aborted { txn, number }),
        Ending::LockHeld { name, at, owner } => Ok(Answer::LockHeld {
            txn,
            number,
            name: name.copy_of()?,
            at: *at,
            owner: *owner,
        }),
        Ending::ViewChanged { at, held, now } => Ok(Answer::ViewChanged {
            txn,
            number,
            at: *at,
            held: *held,
            now: *now,
        }),
        Ending::TimedOut { at } => Ok(Answer::TimedOut {
            txn,
            number,
            at: *at,
        }),
        Ending::Inaccessible {
            name,
            inside,
            total,
        } => Ok(Answer::Inaccessible {
            txn,
            number,
            name: name.copy_of()?,
            inside: *inside,
            total: *total,
        }),
    }
}

/// Answers the pending call, if there is one, by how the transaction has ended.
fn answer_pending(t: &mut Live, why: &Ending, effects: &mut Effects) -> Result<(), NoMemory>
    ensures answers { OnOk result (t.new ≡ record t.old { answers = answers_after t.old why.now }) }
    ensures effects { OnOk result
        (effects.new ≡ with_pending_reply t.old.txn why.now t.old.pending effects.old) }
{
    if let Some(pending) = &t.pending {
        let number = pending.as_ref().number;
        let to = pending.as_ref().port;
        effects.reply(to, answer_to(&t.txn, number, why)?)?;
        t.answers.push(answer_to(&t.txn, number, why)?)?;
    }
    Ok(())
}

fn kept_answer(answers: &[Answer], number: CallNo) -> Option<&Answer>
    ensures { option_copied result ≡ kept_answer number answers.now }
{
    answers.get(number.get() as usize - 1)
}

/// Copies the answer that was given to the call of this number.
pub fn answered_again(answers: &[Answer], number: CallNo) -> Result<Option<Answer>, NoMemory>
    ensures { IfOk result (λ told. told ≡ kept_answer number answers.now) }
{
    match kept_answer(answers, number) {
        None => Ok(None),
        Some(answer) => Ok(Some(answer.copy_of()?)),
    }
}

impl Transactions {
    /// Makes empty tables, before the first transaction of a life. Takes no memory.
    pub fn new(alloc: Global) -> Transactions
        ensures { result ≡ record { seq = 0; live = []; finished = []; decisions = [] } }
    {
        Transactions {
            seq: 0,
            live: LiveTxns::new(alloc),
            finished: VecDeque::new(alloc),
            decisions: DecisionTable::new(alloc),
        }
    }

    /// The allocator from which the tables take their memory.
    pub fn allocator(&self) -> Global {
        self.live.allocator()
    }

    /// Begins the next transaction. Where memory is lacking, nothing changes.
    #[tactic(auto, using(crate::proofs::Order::below_more))]
    pub fn begin(&mut self, txn: &TxnId, view: ViewId) -> Result<(), NoMemory>
        requires left { self.old.seq < 2 ^ 32 - 1 }
        requires next { txn.now.seq ≡ self.old.seq + 1 }
        ensures ok { OnOk result (self.new ≡ with_begun (begun txn.now view) self.old) }
        ensures err { OnErr result (self.new ≡ self.old) }
    {
        self.live.begin(txn, view)?;
        self.seq += 1;
        Ok(())
    }

    /// Takes the transaction out, if it is live, and leaves an empty one of its name in its place.
    pub fn take_up(&mut self, txn: &TxnId) -> Option<Live>
        ensures lifted { result ≡ live_of txn.now self.old.live }
        ensures back { option_map_or (λ t. put_live t self.new) result self.new ≡ self.old }
        ensures waiting { IfSome result (λ t. waits t ≡ true) }
        ensures emptied { self.new ≡ put_live (begun txn.now opening) self.old }
    {
        self.live.take_up(txn)
    }

    /// Takes out the transaction and its pending call, where that call waits for the site.
    pub fn take_waiting(&mut self, txn: &TxnId, from: SiteId) -> Result<Option<Handled>, NoMemory>
        ensures taken { IfOk result (λ taken. taken ≡ waiting_call txn.now from self.old.live) }
        ensures back { IfOk result
            (λ taken. option_map_or (λ h. put_live h.live self.new) taken self.new ≡ self.old) }
        ensures waiting { IfOk result (λ taken. IfSome taken (λ h. waits h.live ≡ true)) }
        ensures emptied { IfOk result
            (λ taken. IfSome taken (λ h. self.new ≡ put_live (begun txn.now opening) self.old)) }
    {
        match self.take_up(txn) {
            None => Ok(None),
            Some(mut live) => match pending_for(&live, from)? {
                None => {
                    self.put_live(&mut live);
                    Ok(None)
                }
                Some(pending) => Ok(Some(Handled { live, pending })),
            },
        }
    }

    /// Whether a decision on the transaction waits for the site.
    pub fn waits_for(&self, txn: &TxnId, site: SiteId) -> bool
        ensures { result ≡ waits_for txn.now site self.now.decisions }
    {
        self.decisions.waits_for(txn, site)
    }

    /// Notes that the site has acknowledged the decision.
    pub fn acknowledge(&mut self, txn: &TxnId, from: SiteId)
        ensures { self.new ≡ with_acknowledged txn.now from self.old }
    {
        self.decisions.acknowledge(txn, from)
    }

    /// Whether the transaction is live.
    pub fn is_live(&self, txn: &TxnId) -> bool
        ensures { result ≡ is_live txn.now self.now.live }
    {
        self.live.has(txn)
    }

    /// Whether there is a decision on the transaction that some site has not acknowledged.
    pub fn is_decided(&self, txn: &TxnId) -> bool
        ensures { result ≡ is_decided txn.now self.now.decisions }
    {
        self.decisions.is_decided(txn)
    }

    /// Puts the transaction back in its place, and leaves in `t` what was there.
    pub fn put_live(&mut self, t: &mut Live)
        requires { waits t.old ≡ true }
        ensures live { self.new ≡ put_live t.old self.old }
        ensures left { t.new ≡ standing_for t.old self.old.live }
    {
        self.live.put(t)
    }

    /// Removes all live transactions and returns them.
    pub fn take_all(&mut self) -> LiveTxns
        ensures taken { result ≡ self.old.live }
        ensures rest { self.new ≡ record self.old { live = [] } }
    {
        let none = LiveTxns::new(self.live.allocator());
        mem::replace(&mut self.live, none)
    }

    /// Copies the live transactions whose calls were pending at the tick before.
    pub fn late(&self) -> Result<Vec<Live>, NoMemory>
        ensures late { IfOk result
            (λ late. late.items ≡ filter (λ t. is_marked_call t.pending) self.now.live) }
        ensures waiting { all_wait self.now.live ≡ true }
    {
        self.live.late()
    }

    /// Marks the pending calls, so that the next tick finds them late.
    pub fn mark(&mut self)
        ensures { self.new ≡ with_marks self.old }
    {
        self.live.mark()
    }

    /// Sends each decision again to the sites that have not acknowledged it.
    pub fn resend(&self, id: SiteId, effects: &mut Effects) -> Result<(), NoMemory>
        ensures { OnOk result (effects.new ≡ with_outcomes id self.now.decisions effects.old) }
    {
        let decisions = self.decisions.list()?;
        resend(id, decisions.as_slice(), effects)
    }

    /// Ends the transaction and answers its pending call. Its end and its answers are kept, with those of the 1,023 that ended last
    /// before it.
    pub fn finish(
        &mut self,
        t: &mut Live,
        why: Ending,
        effects: &mut Effects,
    ) -> Result<(), NoMemory>
        ensures kept { OnOk result (self.new ≡ with_finished t.old why self.old) }
        ensures effects { OnOk result
            (effects.new ≡ with_pending_reply t.old.txn why t.old.pending effects.old) }
        ensures left { OnOk result (t.new ≡ record t.old { answers = [] }) }
    {
        answer_pending(t, &why, effects)?;
        self.live.remove(&t.txn);
        let none = Seq::new(t.answers.allocator());
        let end = Finished {
            txn: t.txn,
            answers: mem::replace(&mut t.answers, none),
            ending: why,
        };
        keep_end(&mut self.finished, end)
    }

    /// Keeps the decision until each of the sites has acknowledged it; where there are none, keeps nothing.
    pub fn keep_decision(&mut self, txn: &TxnId, waiting: Sites) -> Result<(), NoMemory>
        ensures { OnOk result (self.new ≡ with_kept txn.now waiting self.old) }
    {
        self.decisions.keep(txn, waiting)
    }

    /// The answer to a call of a transaction that is not live: the one given before, the end of the transaction, or that it is
    /// unknown.
    pub fn answer_after(&self, txn: &TxnId, number: CallNo) -> Result<Option<Answer>, NoMemory>
        ensures { IfOk result
            (λ told. told ≡ answer_after txn.now number (finished_of txn.now self.now.finished)) }
    {
        answer_in(&self.finished, txn, number)
    }
}

/// Sends the outcome of the transaction to each of its parts.
pub fn send_outcome(
    id: SiteId,
    txn: &TxnId,
    commit: bool,
    parts: &[SiteId],
    effects: &mut Effects,
) -> Result<(), NoMemory>
    ensures { OnOk result
        (effects.new ≡ with_messages id (message.Outcome txn.now commit) parts.now effects.old) }
{
    let outcome = Message::Outcome { txn: *txn, commit };
    effects.send_all(id, parts, &outcome)
}

fn resend(id: SiteId, decisions: &[Decision], effects: &mut Effects) -> Result<(), NoMemory>
    ensures { OnOk result (effects.new ≡ with_outcomes id decisions.now effects.old) }
{
    for decision in decisions {
        send_outcome(
            id,
            &decision.txn,
            true,
            decision.waiting.as_slice(),
            effects,
        )?;
    }
    Ok(())
}

/// Copies the pending call of the transaction, where it waits for the site.
fn pending_for(t: &Live, from: SiteId) -> Result<Option<Pending>, NoMemory>
    ensures { IfOk result (λ p. p ≡ pending_for from t.now) }
{
    match &t.pending {
        None => Ok(None),
        Some(p) => copy_if_missing(p.as_ref(), from),
    }
}

/// Copies the call, where it waits for the site.
fn copy_if_missing(p: &Pending, from: SiteId) -> Result<Option<Pending>, NoMemory>
    ensures { IfOk result (λ copy. copy ≡ (if has p.now.missing from then Some p.now else None)) }
{
    if has_site(p.missing.as_slice(), from) {
        Ok(Some(p.copy_of()?))
    } else {
        Ok(None)
    }
}

fn keep_end(finished: &mut VecDeque<Finished>, end: Finished) -> Result<(), NoMemory>
    ensures { OnOk result (finished.new.items ≡ at_most 1024 (finished.old.items ++ end ∷ [])) }
{
    finished.push_back(end)?;
    if finished.len() > MOST_FINISHED {
        let _ = finished.pop_front();
    }
    Ok(())
}

fn find_finished<'a>(finished: &'a VecDeque<Finished>, txn: &TxnId) -> Option<&'a Finished>
    ensures { option_copied result ≡ finished_of txn.now finished.now.items }
{
    finished.iter().find(|f| f.is_of(txn))
}

fn answer_in(
    finished: &VecDeque<Finished>,
    txn: &TxnId,
    number: CallNo,
) -> Result<Option<Answer>, NoMemory>
    ensures { IfOk result
        (λ told. told ≡ answer_after txn.now number (finished_of txn.now finished.now.items)) }
{
    match find_finished(finished, txn) {
        None => Ok(Some(Answer::Unknown { txn: *txn })),
        Some(f) => answer_of_finished(f, number),
    }
}

fn answer_of_finished(f: &Finished, number: CallNo) -> Result<Option<Answer>, NoMemory>
    ensures { IfOk result (λ told. told ≡ answer_of_finished number f.now) }
{
    let answers = f.answers.as_slice();
    if number.get() as usize > answers.len() {
        return Ok(Some(answer_to(&f.txn, number, &f.ending)?));
    }
    answered_again(answers, number)
}
