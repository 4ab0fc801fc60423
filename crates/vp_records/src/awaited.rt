//! Decisions in a table, each of which waits for at least one site.

ghost use Rattle.std.specs.Prelude.{◌≡◌, ◌&&◌, IfOk, IfSome, not};
ghost use Rattle.vp_model.specs.Answers.{waits_for};
ghost use Rattle.vp_model.specs.Durable.{acknowledged};
ghost use Rattle.vp_model.specs.Words.{is_empty, txn_before};
ghost use Rattle.vp_records.specs.Decided.{with_changed, AreAwaited};

use crate::decision::{drop_site, is_awaited, waits_for_site};
use std::alloc::Global;
use vp_base::{CopyOf, Decision, NoMemory, SiteId, Sites, TxnId};
use vp_lists::txn_comes_before;
use vp_tables::Table;

/// A transaction that comes before all others.
fn lowest() -> TxnId {
    TxnId {
        site: SiteId::of(1),
        life: 0,
        seq: 0,
    }
}

/// Whether the decision waits for some site and its transaction comes after `highest`.
fn follows(highest: &TxnId, decision: &Decision) -> bool
    ensures { result ≡ (not (is_empty decision.now.waiting) && txn_before highest.now decision.now.txn) }
{
    is_awaited(decision) && txn_comes_before(highest, &decision.txn)
}

/// Copies the decisions to a table; `None` unless each waits for some site and comes after the ones before it.
pub(crate) fn table_of(
    alloc: Global,
    decisions: &[Decision],
) -> Result<Option<Table<Decision>>, NoMemory>
    ensures same { IfOk result (λ made. IfSome made (λ table. table ≡ decisions.now)) }
    ensures awaited { IfOk result (λ made. IfSome made AreAwaited) }
{
    let mut table = Table::new(alloc);
    let mut highest = lowest();
    for decision in decisions {
        if !follows(&highest, decision) {
            return Ok(None);
        }
        table.put(decision.copy_of()?)?;
        highest = decision.txn;
    }
    Ok(Some(table))
}

/// Whether a decision on the transaction waits for the site.
pub(crate) fn waits_for(table: &Table<Decision>, txn: &TxnId, site: SiteId) -> bool
    ensures { result ≡ waits_for txn.now site table.now }
{
    match table.get(txn) {
        None => false,
        Some(decision) => waits_for_site(decision, site),
    }
}

/// Replaces the decision on the same transaction by this one, or removes that one where this one waits for no site.
fn put_back(table: &mut Table<Decision>, decision: Decision)
    ensures { table.new ≡ with_changed decision table.old }
{
    if is_awaited(&decision) {
        let _ = table.replace(decision);
    } else {
        table.remove(&decision.txn);
    }
}

/// Notes that the site has acknowledged the decision on the transaction. A decision that waits for no site any more is removed.
pub(crate) fn acknowledge(table: &mut Table<Decision>, txn: &TxnId, site: SiteId)
    requires { AreAwaited table.old }
    ensures { table.new ≡ acknowledged txn.now site table.old }
{
    let empty = Decision {
        txn: *txn,
        waiting: Sites::new(table.allocator()),
    };
    if let Some(mut decision) = table.replace(empty) {
        drop_site(&mut decision.waiting, site);
        put_back(table, decision);
    }
}
