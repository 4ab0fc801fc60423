//! Decisions in any list, in which one is sought by a walk.

ghost use Rattle.std.specs.Prelude.{◌≡◌, ◌==◌, ◌&&◌, OnOk, OnErr, filter, map, not, if◌then◌else◌};
ghost use Rattle.vp_base.specs.declared.entry.Decision.{Decision};
ghost use Rattle.vp_model.specs.Answers.{is_decided, waits_for};
ghost use Rattle.vp_model.specs.Durable.{acknowledged, put_decision};
ghost use Rattle.vp_model.specs.Words.{has, is_empty, same_txn};

use crate::decision::{drop_site, is_awaited, waits_for_site};
use std::mem;
use vp_base::{Decision, Decisions, NoMemory, SiteId, TxnId};
use vp_lists::{OfTxn, put};

/// Puts the decision in its place, where it replaces one of the same transaction. Where memory is lacking, the decisions stay as
/// they are.
pub(crate) fn put_among(decisions: &mut Decisions, decision: Decision) -> Result<(), NoMemory>
    ensures ok { OnOk result (decisions.new ≡ put_decision decision decisions.old) }
    ensures err { OnErr result (decisions.new ≡ decisions.old) }
{
    let none = Decisions::new(decisions.allocator());
    let mut items = mem::replace(decisions, none).into_vec();
    let done = put(&mut items, decision);
    *decisions = Decisions::from_vec(items);
    done
}

fn is_waiting(decision: &Decision, txn: &TxnId, site: SiteId) -> bool
    ensures { result ≡ (same_txn decision.now.txn txn.now && has decision.now.waiting site) }
{
    decision.is_of(txn) && waits_for_site(decision, site)
}

/// Whether a decision on the transaction waits for the site.
pub(crate) fn waits_for(decisions: &[Decision], txn: &TxnId, site: SiteId) -> bool
    ensures { result ≡ waits_for txn.now site decisions.now }
{
    decisions.iter().any(|d| is_waiting(d, txn, site))
}

pub(crate) fn is_decided(decisions: &[Decision], txn: &TxnId) -> bool
    ensures { result ≡ is_decided txn.now decisions.now }
{
    decisions.iter().any(|d| d.is_of(txn))
}

fn acknowledge_one(decision: &mut Decision, txn: &TxnId, site: SiteId)
    ensures { decision.new ≡ (if same_txn decision.old.txn txn.now
        then record decision.old { waiting = filter (λ q. not (q == site)) decision.old.waiting }
        else decision.old) }
{
    if decision.is_of(txn) {
        drop_site(&mut decision.waiting, site);
    }
}

fn acknowledge_all(decisions: &mut [Decision], txn: &TxnId, site: SiteId)
    ensures { decisions.new ≡
        map (λ (d : Decision).
        if same_txn d.txn txn.now then record d { waiting = filter (λ q. not (q == site)) d.waiting } else d)
        decisions.old }
{
    for decision in decisions.iter_mut() {
        acknowledge_one(decision, txn, site);
    }
}

fn drop_ended(decisions: &mut Vec<Decision>)
    ensures { decisions.new.items ≡ filter (λ d. not (is_empty d.waiting)) decisions.old.items }
{
    decisions.retain(|decision| is_awaited(decision));
}

/// Notes that the site has acknowledged the decision on the transaction. Decisions that wait for no site any more are removed.
pub(crate) fn acknowledge(decisions: &mut Decisions, txn: &TxnId, site: SiteId)
    ensures { decisions.new ≡ acknowledged txn.now site decisions.old }
{
    let none = Decisions::new(decisions.allocator());
    let mut items = mem::replace(decisions, none).into_vec();
    acknowledge_all(&mut items, txn, site);
    drop_ended(&mut items);
    *decisions = Decisions::from_vec(items);
}
