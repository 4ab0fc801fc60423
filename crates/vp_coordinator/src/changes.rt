//! Writing, deleting and weighing: a record that the transaction has changed before needs no more locks; else the copy here is
//! locked, and the other holders in the view are asked for their locks.

ghost use Rattle.std.specs.Prelude.{◌≡◌, OnOk, option_copied, true, false};
ghost use Rattle.vp_base.specs.declared.message.Message.TheVariants as message;
ghost use Rattle.vp_model.specs.Words.{put_number, is_empty, for_each};
ghost use Rattle.vp_model.specs.Site.{with_messages};
ghost use Rattle.vp_model.specs.Transactions.{complete};
ghost use Rattle.vp_model.specs.Calls.{new_change, lock_here, write_at, change_elsewhere, change};
ghost use Rattle.vp_transactions.specs.Waiting.{waits};
ghost use Rattle.vp_coordinator.specs.InPlace.{in_place};
ghost use Rattle.vp_coordinator.specs.Deeds.{as_deed, deed_asked};

use crate::around::Around;
use crate::coordinator::Coordinator;
use crate::deeds::deed_asked;
use crate::records::{has_changed, usable_record};
use vp_base::{Call, Effects, Message, Name, NoMemory, RecId, SiteId, Sites};
use vp_lists::put_in;
use vp_locks::LockFault;
use vp_transactions::Handled;

/// What a call asks to change: a record, by name and by place.
#[derive(Clone, Copy)]
struct Wanted<'a> {
    name: &'a Name,
    rec: RecId,
    call: &'a Call,
}

#[tactic(auto, unfolding(vp_model::specs::Calls::write_at), using(crate::proofs::Operations::waits_in_place))]
fn write_at(
    lent: &mut Coordinator,
    id: SiteId,
    handled: &mut Handled,
    rec: RecId,
    sites: Sites,
) -> Result<(), NoMemory>
    requires { is_empty sites ≡ false }
    ensures { OnOk result (lent.new ≡
        write_at id handled.old.live handled.old.pending rec sites (in_place handled.old.live lent.old)) }
{
    ask_to_write(id, handled, rec, sites.as_slice(), &mut lent.effects)?;
    put_all(&mut handled.live.parts, sites.as_slice())?;
    lent.wait_for(handled, sites)
}

/// Answers the call, which needs no more locks.
fn complete_change(
    lent: &mut Coordinator,
    handled: &mut Handled,
    wanted: &Wanted<'_>,
) -> Result<(), NoMemory>
    ensures { OnOk result (lent.new ≡
        complete handled.old.live handled.old.pending (deed_asked wanted.now.call.now wanted.now.rec) (in_place handled.old.live lent.old)) }
{
    let deed = deed_asked(wanted.call, wanted.rec)?;
    lent.complete(handled, deed)
}

#[tactic(auto, unfolding(vp_model::specs::Calls::change_elsewhere))]
fn change_elsewhere(
    lent: &mut Coordinator,
    at: &Around<'_, '_>,
    handled: &mut Handled,
    wanted: &Wanted<'_>,
) -> Result<(), NoMemory>
    ensures { OnOk result (lent.new ≡
        change_elsewhere at.now.catalog.now at.now.id (option_copied at.now.held) handled.old.live handled.old.pending wanted.now.rec (deed_asked wanted.now.call.now wanted.now.rec)
        (in_place handled.old.live lent.old)) }
{
    let asked = at.catalog.other_holders(at.id, at.held, wanted.rec)?;
    if asked.as_slice().is_empty() {
        complete_change(lent, handled, wanted)
    } else {
        write_at(lent, at.id, handled, wanted.rec, asked)
    }
}

/// Locks the copy here, and then changes the record.
#[tactic(auto, unfolding(vp_model::specs::Calls::lock_here, vp_model::specs::Calls::take_lock))]
fn change_here(
    lent: &mut Coordinator,
    at: &Around<'_, '_>,
    handled: &mut Handled,
    wanted: &Wanted<'_>,
) -> Result<(), NoMemory>
    ensures { OnOk result (lent.new ≡
        lock_here at.now.id handled.old.live handled.old.pending wanted.now.name.now wanted.now.rec true
        (change_elsewhere at.now.catalog.now at.now.id (option_copied at.now.held) handled.old.live handled.old.pending wanted.now.rec (deed_asked wanted.now.call.now wanted.now.rec))
        (in_place handled.old.live lent.old)) }
{
    match lent.here.locks.take_exclusive(wanted.rec, handled.txn()) {
        Ok(()) => change_elsewhere(lent, at, handled, wanted),
        Err(LockFault::Held { owner }) => lent.close_blocked(at.id, handled, wanted.name, owner),
        Err(LockFault::NoMemory) => Err(NoMemory),
    }
}

#[tactic(auto, unfolding(vp_model::specs::Calls::change), using(crate::proofs::Presence::by_presence))]
fn change(
    lent: &mut Coordinator,
    at: &Around<'_, '_>,
    handled: &mut Handled,
    wanted: &Wanted<'_>,
) -> Result<(), NoMemory>
    ensures { OnOk result (lent.new ≡
        change at.now.catalog.now at.now.id (option_copied at.now.held) handled.old.live handled.old.pending wanted.now.name.now (deed_asked wanted.now.call.now) wanted.now.rec
        (in_place handled.old.live lent.old)) }
{
    if has_changed(&handled.live, wanted.rec) {
        complete_change(lent, handled, wanted)
    } else if lent.here.copies.has(wanted.rec) {
        change_here(lent, at, handled, wanted)
    } else {
        change_elsewhere(lent, at, handled, wanted)
    }
}

/// Changes the record of this name as the call asks.
#[tactic(auto, unfolding(vp_model::specs::Calls::new_change), using(crate::proofs::Operations::record_first))]
pub fn change_named(
    lent: &mut Coordinator,
    at: &Around<'_, '_>,
    handled: &mut Handled,
    name: &Name,
    call: &Call,
) -> Result<(), NoMemory>
    requires { waits handled.old.live ≡ true }
    ensures { OnOk result (lent.new ≡
        new_change at.now.catalog.now at.now.id (option_copied at.now.held) handled.old.live handled.old.pending name.now (deed_asked call.now)
        (in_place handled.old.live lent.old)) }
{
    match usable_record(at, &lent.here.bars, handled, name, call)? {
        Ok(rec) => change(lent, at, handled, &Wanted { name, rec, call }),
        Err(answer) => lent.refuse(handled, answer),
    }
}

/// Asks the sites to lock the record for the change.
fn ask_to_write(
    id: SiteId,
    handled: &Handled,
    rec: RecId,
    sites: &[SiteId],
    effects: &mut Effects,
) -> Result<(), NoMemory>
    ensures { OnOk result (effects.new ≡
        with_messages id (message.WriteRequest handled.now.live.txn handled.now.live.view handled.now.pending.number rec) sites.now effects.old) }
{
    let request = Message::WriteRequest {
        txn: handled.live.txn,
        view: handled.live.view,
        number: handled.pending.number,
        rec,
    };
    effects.send_all(id, sites, &request)
}

/// Adds the sites to the list, which stays in order.
fn put_all(list: &mut Sites, sites: &[SiteId]) -> Result<(), NoMemory>
    ensures { OnOk result (list.new ≡ for_each sites.now put_number list.old) }
{
    for site in sites {
        put_in(list, *site)?;
    }
    Ok(())
}
