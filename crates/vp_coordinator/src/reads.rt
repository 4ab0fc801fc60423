//! Reading: what the transaction itself wrote, else the copy here, else the lowest holder in the view is asked. (Reads use one copy and
//! writes use all in the view: Bernstein, Hadzilacos and Goodman 1987, chapter 8.)

ghost use Rattle.std.specs.Prelude.{◌≡◌, ◌++◌, ◌∷◌, [], OnOk, option_copied, true, false};
ghost use Rattle.vp_model.specs.Words.{first, for_some, put_number, value_at};
ghost use Rattle.vp_model.specs.Refresh.{other_holders_in};
ghost use Rattle.vp_model.specs.Calls.{with_record, lock_here, answer_read, read_at, read};
ghost use Rattle.vp_transactions.specs.Waiting.{waits};
ghost use Rattle.vp_coordinator.specs.InPlace.{in_place};
ghost use Rattle.vp_coordinator.specs.Deeds.{deed_asked};

use crate::around::Around;
use crate::coordinator::Coordinator;
use crate::records::{copy_here, own_write, usable_record};
use vp_base::{Call, Live, Message, Name, NoMemory, RecId, SiteId, Value};
use vp_catalog::alone;
use vp_lists::put_in;
use vp_locks::LockFault;
use vp_transactions::Handled;

#[tactic(auto, unfolding(vp_model::specs::Calls::read_at), using(crate::proofs::Operations::waits_in_place))]
fn read_at(
    lent: &mut Coordinator,
    id: SiteId,
    handled: &mut Handled,
    rec: RecId,
    site: SiteId,
) -> Result<(), NoMemory>
    ensures { OnOk result (lent.new ≡
        read_at id handled.old.live handled.old.pending rec site (in_place handled.old.live lent.old)) }
{
    add_reader(&mut handled.live, rec, site)?;
    let asked = alone(handled.live.parts.allocator(), site)?;
    let request = Message::ReadRequest {
        txn: handled.txn(),
        view: handled.live.view,
        number: handled.number(),
        rec,
    };
    lent.wait_for(handled, asked)?;
    lent.effects.send(id, site, request)
}

/// Asks the lowest holder in the view.
fn read_there(
    lent: &mut Coordinator,
    at: &Around<'_, '_>,
    handled: &mut Handled,
    rec: RecId,
) -> Result<(), NoMemory>
    requires { waits handled.old.live ≡ true }
    ensures { OnOk result (lent.new ≡
        for_some (first (other_holders_in at.now.catalog.now at.now.id (option_copied at.now.held) rec)) (read_at at.now.id handled.old.live handled.old.pending rec)
        (in_place handled.old.live lent.old)) }
{
    match at.catalog.least_other_holder(at.id, at.held, rec) {
        None => {
            lent.put_back(handled);
            Ok(())
        }
        Some(site) => read_at(lent, at.id, handled, rec, site),
    }
}

/// Locks the copy here and reads it.
#[tactic(auto, unfolding(vp_model::specs::Calls::lock_here, vp_model::specs::Calls::take_lock))]
fn read_here(
    lent: &mut Coordinator,
    id: SiteId,
    handled: &mut Handled,
    name: &Name,
    rec: RecId,
    content: Option<Value>,
) -> Result<(), NoMemory>
    ensures { OnOk result (lent.new ≡
        lock_here id handled.old.live handled.old.pending name.now rec false (answer_read handled.old.live handled.old.pending rec content)
        (in_place handled.old.live lent.old)) }
{
    match lent.here.locks.take_shared(rec, handled.txn()) {
        Ok(()) => lent.answer_read(handled, rec, content),
        Err(LockFault::Held { owner }) => lent.close_blocked(id, handled, name, owner),
        Err(LockFault::NoMemory) => Err(NoMemory),
    }
}

#[tactic(auto, unfolding(vp_model::specs::Calls::read))]
fn read(
    lent: &mut Coordinator,
    at: &Around<'_, '_>,
    handled: &mut Handled,
    name: &Name,
    rec: RecId,
) -> Result<(), NoMemory>
    requires { waits handled.old.live ≡ true }
    ensures { OnOk result (lent.new ≡
        read at.now.catalog.now at.now.id (option_copied at.now.held) handled.old.live handled.old.pending name.now rec
        (in_place handled.old.live lent.old)) }
{
    match own_write(&handled.live, rec)? {
        Some(content) => lent.answer_read(handled, rec, content),
        None => match copy_here(&lent.here, rec)? {
            Some(stored) => read_here(lent, at.id, handled, name, rec, stored.into_value()),
            None => read_there(lent, at, handled, rec),
        },
    }
}

/// Reads the record of this name.
#[tactic(auto, using(crate::proofs::Operations::record_first))]
pub fn read_named(
    lent: &mut Coordinator,
    at: &Around<'_, '_>,
    handled: &mut Handled,
    name: &Name,
    call: &Call,
) -> Result<(), NoMemory>
    requires { waits handled.old.live ≡ true }
    ensures { OnOk result (lent.new ≡
        with_record at.now.catalog.now (option_copied at.now.held) handled.old.live handled.old.pending name.now (deed_asked call.now)
        (read at.now.catalog.now at.now.id (option_copied at.now.held) handled.old.live handled.old.pending name.now)
        (in_place handled.old.live lent.old)) }
{
    match usable_record(at, &lent.here.bars, handled, name, call)? {
        Ok(rec) => read(lent, at, handled, name, rec),
        Err(answer) => lent.refuse(handled, answer),
    }
}

/// Makes the site, which is to read the record, a part of the transaction.
fn add_reader(t: &mut Live, rec: RecId, site: SiteId) -> Result<(), NoMemory>
    ensures { OnOk result (t.new ≡
        record t.old { remote = t.old.remote ++ (site, rec) ∷ []; parts = put_number site t.old.parts }) }
{
    t.remote.push((site, rec))?;
    put_in(&mut t.parts, site)
}
