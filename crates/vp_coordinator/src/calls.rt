//! What a client's call does: the tests before an operation, and answers that were given before.

ghost use Rattle.std.specs.Prelude.{◌≡◌, ◌+◌, ◌<◌, ◌^◌, ◌-◌, OnOk, IfOk, Some, None, true, option_copied};
ghost use Rattle.vp_base.specs.declared.answer.Answer.TheVariants as answer;
ghost use Rattle.vp_model.specs.Site.{lent_reply};
ghost use Rattle.std.specs.Option.{option_map_or};
ghost use Rattle.vp_model.specs.Words.{for_some};
ghost use Rattle.vp_model.specs.Transactions.{finished_of};
ghost use Rattle.vp_model.specs.Calls.{handled, next_txn, start_txn, begin_in, on_begin, new_call, kept_answer, live_call, finished_call, on_txn_call, own_call};
ghost use Rattle.vp_transactions.specs.Waiting.{waits};
ghost use Rattle.vp_coordinator.specs.InPlace.{in_place};
ghost use Rattle.vp_coordinator.specs.Lent.{around};

use crate::around::Around;
use crate::changes::change_named;
use crate::commits::commit;
use crate::coordinator::Coordinator;
use crate::reads::read_named;
use std::alloc::Global;
use vp_base::{
    Answer, Call, CallNo, CopyOf, Ending, MOST_LIVE, NoMemory, Pending, Sites, TxnId, View, ViewId,
};
use vp_transactions::{Handled, Transactions, answered_again};

/// A call of a transaction: its number, and the port of the client.
#[derive(Clone, Copy)]
struct TxnCall<'a> {
    port: u16,
    txn: &'a TxnId,
    number: CallNo,
    call: &'a Call,
}

/// The call in the form in which it waits.
fn pending_call(alloc: Global, asked: &TxnCall<'_>) -> Result<Pending, NoMemory>
    ensures { IfOk result (λ p. p ≡ handled asked.now.port asked.now.number asked.now.call.now) }
{
    Ok(Pending {
        number: asked.number,
        port: asked.port,
        call: asked.call.copy_of()?,
        missing: Sites::new(alloc),
        marked: false,
    })
}

/// The number of the next call after `count` answers, where the given number is higher.
fn next_number(count: usize, number: CallNo) -> CallNo
    requires { count + 1 < number }
    ensures { result ≡ count + 1 }
{
    match CallNo::new((count + 1) as u32) {
        None => number,
        Some(next) => next,
    }
}

fn next_txn(transactions: &Transactions, at: &Around<'_, '_>) -> TxnId
    requires { transactions.now.seq < 2 ^ 32 - 1 }
    ensures { result ≡
        next_txn (around at.now.id at.now.life at.now.promise (option_copied at.now.held)) transactions.now }
{
    TxnId {
        site: at.id,
        life: at.life,
        seq: transactions.seq + 1,
    }
}

#[tactic(auto, unfolding(vp_model::specs::Calls::start_txn))]
fn start_txn(lent: &mut Coordinator, txn: &TxnId, port: u16, view: ViewId) -> Result<(), NoMemory>
    requires left { lent.old.seq < 2 ^ 32 - 1 }
    requires next { txn.now.seq ≡ lent.old.seq + 1 }
    ensures { OnOk result (lent.new ≡ start_txn txn.now port view lent.old) }
{
    lent.transactions.begin(txn, view)?;
    lent.effects.reply(port, Answer::Begun { txn: *txn, view })
}

#[tactic(auto, unfolding(vp_model::specs::Calls::begin_in))]
fn begin_in(
    lent: &mut Coordinator,
    at: &Around<'_, '_>,
    port: u16,
    view: &View,
) -> Result<(), NoMemory>
    ensures { OnOk result (lent.new ≡
        begin_in (around at.now.id at.now.life at.now.promise (option_copied at.now.held)) port view.now lent.old) }
{
    if lent.transactions.live.len() >= MOST_LIVE {
        return lent.effects.reply(port, Answer::TooManyLive);
    }
    if lent.transactions.seq == u32::MAX {
        return lent
            .effects
            .reply(port, Answer::Spent { number: 4294967295 });
    }
    let txn = next_txn(&lent.transactions, at);
    start_txn(lent, &txn, port, view.id)
}

#[tactic(auto, unfolding(vp_model::specs::Calls::on_begin))]
fn on_begin(lent: &mut Coordinator, at: &Around<'_, '_>, port: u16) -> Result<(), NoMemory>
    ensures { OnOk result (lent.new ≡
        on_begin (around at.now.id at.now.life at.now.promise (option_copied at.now.held)) port lent.old) }
{
    match at.held {
        None => lent.effects.reply(
            port,
            Answer::NoView {
                promise: at.promise,
            },
        ),
        Some(view) => begin_in(lent, at, port, view),
    }
}

#[tactic(auto, unfolding(vp_model::specs::Calls::new_call), using(crate::proofs::Rows::in_places))]
fn new_call(
    lent: &mut Coordinator,
    at: &Around<'_, '_>,
    handled: &mut Handled,
    call: &Call,
) -> Result<(), NoMemory>
    requires { waits handled.old.live ≡ true }
    ensures { OnOk result (lent.new ≡
        new_call at.now.catalog.now at.now.id (option_copied at.now.held) handled.old.live handled.old.pending call.now
        (in_place handled.old.live lent.old)) }
{
    match call {
        Call::Read { name, .. } => read_named(lent, at, handled, name, call),
        Call::Write { name, .. } | Call::Delete { name, .. } | Call::Weigh { name, .. } => {
            change_named(lent, at, handled, name, call)
        }
        Call::Commit { .. } => commit(lent, at, handled),
        Call::Abort { .. } => {
            handled.attach_call()?;
            lent.close(at.id, &mut handled.live, Ending::Aborted)
        },
        Call::Begin | Call::Regroup => {
            lent.put_back(handled);
            Ok(())
        }
    }
}

/// Gives a call that was answered its answer again.
fn repeat(lent: &mut Coordinator, handled: &mut Handled) -> Result<(), NoMemory>
    requires { waits handled.old.live ≡ true }
    ensures { OnOk result (lent.new ≡
        for_some (kept_answer handled.old.pending.number handled.old.live.answers) (λ answer. lent_reply answer handled.old.pending.port)
        (in_place handled.old.live lent.old)) }
{
    match answered_again(handled.live.answers.as_slice(), handled.number())? {
        None => {
            lent.put_back(handled);
            Ok(())
        }
        Some(answer) => lent.refuse(handled, answer),
    }
}

#[tactic(auto, unfolding(vp_model::specs::Calls::live_call))]
fn live_call(
    lent: &mut Coordinator,
    at: &Around<'_, '_>,
    handled: &mut Handled,
    call: &Call,
) -> Result<(), NoMemory>
    requires call { call.now ≡ handled.old.pending.call }
    requires waiting { waits handled.old.live ≡ true }
    ensures { OnOk result (lent.new ≡
        live_call at.now.catalog.now at.now.id (option_copied at.now.held) handled.old.live handled.old.pending
        (in_place handled.old.live lent.old)) }
{
    let txn = handled.txn();
    let number = handled.number();
    let count = handled.live.answers.as_slice().len();
    if number.get() as usize <= count {
        return repeat(lent, handled);
    }
    if number.get() as usize > count + 1 {
        let expected = next_number(count, number);
        return lent.refuse(handled, Answer::Skipped { txn, expected });
    }
    if handled.live.pending.is_some() {
        return lent.refuse(handled, Answer::Busy { txn, number });
    }
    new_call(lent, at, handled, call)
}

#[tactic(auto, unfolding(vp_model::specs::Calls::on_txn_call))]
fn on_txn_call(
    lent: &mut Coordinator,
    at: &Around<'_, '_>,
    asked: &TxnCall<'_>,
) -> Result<(), NoMemory>
    ensures { OnOk result (lent.new ≡
        on_txn_call at.now.catalog.now at.now.id (option_copied at.now.held) asked.now.port asked.now.txn.now asked.now.number asked.now.call.now lent.old) }
{
    let pending = pending_call(lent.transactions.allocator(), asked)?;
    match lent.transactions.take_up(asked.txn) {
        None => ended_call(lent, asked),
        Some(live) => {
            let mut handled = Handled { live, pending };
            live_call(lent, at, &mut handled, asked.call)
        }
    }
}

/// Answers a call of a transaction that is not live.
#[tactic(auto, unfolding(vp_model::specs::Calls::finished_call))]
fn ended_call(lent: &mut Coordinator, asked: &TxnCall<'_>) -> Result<(), NoMemory>
    ensures { OnOk result (lent.new ≡
        option_map_or (λ f. finished_call asked.now.port asked.now.number f lent.old) (finished_of asked.now.txn.now lent.old.finished)
        (lent_reply (answer.Unknown asked.now.txn.now) asked.now.port lent.old)) }
{
    match lent.transactions.answer_after(asked.txn, asked.number)? {
        None => Ok(()),
        Some(answer) => lent.effects.reply(asked.port, answer),
    }
}

impl Coordinator {
    /// Does what the call of the client at this port asks; a call to regroup does nothing here. After want of memory what is lent may
    /// be changed in part: drop it.
    #[tactic(auto, unfolding(vp_model::specs::Calls::own_call))]
    pub fn own_call(&mut self, at: &Around<'_, '_>, port: u16, call: &Call) -> Result<(), NoMemory>
        ensures { OnOk result (self.new ≡
            own_call at.now.catalog.now port call.now (around at.now.id at.now.life at.now.promise (option_copied at.now.held)) self.old) }
    {
        match call {
            Call::Begin => on_begin(self, at, port),
            Call::Regroup => Ok(()),
            Call::Read { txn, number, .. }
            | Call::Write { txn, number, .. }
            | Call::Delete { txn, number, .. }
            | Call::Weigh { txn, number, .. }
            | Call::Commit { txn, number }
            | Call::Abort { txn, number } => {
                let asked = TxnCall {
                    port,
                    txn,
                    number: *number,
                    call,
                };
                on_txn_call(self, at, &asked)
            }
        }
    }
}
