//! Committing: each part is asked for its vote, on the records that were read there and on the last changes of those that it holds.

ghost use Rattle.std.specs.Prelude.{◌≡◌, OnOk, IfOk, false};
ghost use Rattle.vp_model.specs.Words.{is_empty};
ghost use Rattle.vp_model.specs.Site.{with_each_message};
ghost use Rattle.vp_model.specs.Transactions.{entry_of, last_changes};
ghost use Rattle.vp_model.specs.Calls.{records_read_at, prepare_for, prepare_parts, commit};
ghost use Rattle.vp_coordinator.specs.InPlace.{in_place};

use crate::around::Around;
use crate::coordinator::Coordinator;
use crate::final_writes::{last_changes, writes_held};
use std::alloc::Global;
use vp_base::{
    Boxed, Change, CopyOf, Effects, Live, Message, NoMemory, Pending, RecId, Recs, SiteId, Sites,
};
use vp_catalog::Catalog;
use vp_lists::put;
use vp_transactions::Handled;

#[tactic(auto, unfolding(vp_model::specs::Calls::prepare_parts), using(crate::proofs::Operations::waits_in_place))]
fn prepare_parts(
    lent: &mut Coordinator,
    at: &Around<'_, '_>,
    handled: &mut Handled,
) -> Result<(), NoMemory>
    requires { is_empty handled.old.live.parts ≡ false }
    ensures { OnOk result (lent.new ≡
        prepare_parts at.now.catalog.now at.now.id handled.old.live handled.old.pending
        (in_place handled.old.live lent.old)) }
{
    let asked = ask_parts(at, handled, &mut lent.effects)?;
    lent.wait_for(handled, asked)
}

/// Commits the transaction where it has no part at another site; else asks its parts for their votes.
#[tactic(auto, unfolding(vp_model::specs::Calls::commit), using(crate::proofs::Rows::in_places))]
pub fn commit(
    lent: &mut Coordinator,
    at: &Around<'_, '_>,
    handled: &mut Handled,
) -> Result<(), NoMemory>
    ensures { OnOk result (lent.new ≡
        commit at.now.catalog.now at.now.id handled.old.live handled.old.pending
        (in_place handled.old.live lent.old)) }
{
    if handled.live.parts.as_slice().is_empty() {
        handled.attach_call()?;
        lent.decide(at.catalog, at.id, &mut handled.live)
    } else {
        prepare_parts(lent, at, handled)
    }
}

/// Asks each part for its vote, and returns the parts.
fn ask_parts(
    at: &Around<'_, '_>,
    handled: &Handled,
    effects: &mut Effects,
) -> Result<Sites, NoMemory>
    ensures asked { IfOk result (λ asked. asked ≡ handled.now.live.parts) }
    ensures effects { OnOk result (effects.new ≡
        with_each_message at.now.id (prepare_for at.now.catalog.now handled.now.live handled.now.pending) handled.now.live.parts effects.old) }
{
    let t = &handled.live;
    let writes = last_changes(t.ops.allocator(), t)?;
    for site in t.parts.as_slice() {
        let request = prepare_for(at.catalog, t, &handled.pending, writes.as_slice(), *site)?;
        effects.send(at.id, *site, request)?;
    }
    t.parts.copy_of()
}

/// The records that the transaction read at the site, ascending.
fn records_read_at(
    alloc: Global,
    site: SiteId,
    remote: &[(SiteId, RecId)],
) -> Result<Recs, NoMemory>
    ensures { IfOk result (λ recs. recs ≡ records_read_at site remote.now) }
{
    let mut recs = Vec::new(alloc);
    for asked in remote {
        if asked.0 == site {
            put(&mut recs, asked.1)?;
        }
    }
    Ok(Recs::from_vec(recs))
}

/// Makes the message that asks a part for its vote.
fn prepare_for(
    catalog: &Catalog,
    t: &Live,
    p: &Pending,
    writes: &[(RecId, Change)],
    site: SiteId,
) -> Result<Message, NoMemory>
    requires { writes.now ≡ last_changes (entry_of t.now) }
    ensures { IfOk result (λ message. message ≡ prepare_for catalog.now t.now p.now site) }
{
    let alloc = t.ops.allocator();
    Ok(Message::Prepare {
        txn: t.txn,
        view: t.view,
        number: p.number,
        reads: Boxed::new(alloc, records_read_at(alloc, site, t.remote.as_slice())?)?,
        writes: Boxed::new(alloc, writes_held(alloc, catalog, site, writes)?)?,
    })
}
