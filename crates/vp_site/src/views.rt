//! How a site leaves its view, invites to a new one and joins one (El Abbadi, Skeen and Cristian 1985).

ghost use Rattle.std.specs.Prelude.{◌≡◌, OnOk};
ghost use Rattle.vp_model.specs.Views.{leave, invite};
ghost use Rattle.vp_model.specs.Messages.{on_invite, on_view_commit};
ghost use Rattle.vp_views.specs.Viewing.{IsApart};

use crate::stepped::Stepped;
use vp_base::{Bars, CopyOf, NoMemory, SiteId, Sites, View, ViewId};
use vp_catalog::Catalog;
use vp_lists::view_comes_before;
use vp_views::InviteFault;

/// Leaves the view that the site holds, waits for or invites to. The undecided transactions that began here are aborted, and nothing
/// of the view is left but the transactions in doubt, with their exclusive locks.
#[tactic(auto, unfolding(vp_model::specs::Views::leave, vp_model::specs::Views::drop_view))]
pub fn leave(stepped: &mut Stepped) -> Result<(), NoMemory>
    ensures row { OnOk result (stepped.new ≡ leave stepped.old) }
    ensures apart { OnOk result (IsApart stepped.new.site.views) }
{
    let id = stepped.id;
    stepped.coordinator.abandon(id)?;
    stepped
        .participant
        .leave(&mut stepped.coordinator.here.locks);
    stepped.refresh.clear();
    stepped.coordinator.here.bars = Bars::new(stepped.allocator());
    stepped.views.leave();
    Ok(())
}

/// Leaves the view and invites to the next one, unless the numbers of views are spent: then nothing changes.
#[tactic(auto, unfolding(vp_model::specs::Views::invite, vp_model::specs::Views::leave, vp_model::specs::Views::drop_view, vp_model::specs::Views::start_inviting))]
pub fn invite(stepped: &mut Stepped, catalog: &Catalog) -> Result<(), NoMemory>
    ensures { OnOk result (stepped.new ≡ invite catalog.now stepped.old) }
{
    if stepped.views.invitable().is_err() {
        return Ok(());
    }
    leave(stepped)?;
    match stepped
        .views
        .invite(catalog, &mut stepped.coordinator.effects)
    {
        Err(InviteFault::NoMemory) => Err(NoMemory),
        _ => Ok(()),
    }
}

/// Accepts an invitation above the promise, for which the site first leaves its view. A lower one is answered by the promise.
#[tactic(auto, unfolding(vp_model::specs::Messages::on_invite, vp_model::specs::Messages::accept, vp_model::specs::Views::leave, vp_model::specs::Views::drop_view))]
pub fn on_invite(stepped: &mut Stepped, from: SiteId, id: ViewId) -> Result<(), NoMemory>
    ensures { OnOk result (stepped.new ≡ on_invite from id stepped.old) }
{
    if view_comes_before(&stepped.views.promise(), &id) {
        leave(stepped)?;
    }
    stepped
        .views
        .on_invite(from, id, &mut stepped.coordinator.effects)?;
    Ok(())
}

/// Joins the view if the site waits for it and is a member of it, and begins to refresh its copies there.
#[tactic(auto, unfolding(vp_model::specs::Messages::on_view_commit, vp_model::specs::Views::join, vp_model::specs::Views::hold))]
pub fn on_view_commit(
    stepped: &mut Stepped,
    catalog: &Catalog,
    id: ViewId,
    members: &Sites,
) -> Result<(), NoMemory>
    ensures { OnOk result (stepped.new ≡ on_view_commit catalog.now id members.now stepped.old) }
{
    let members = members.copy_of()?;
    let view = View { id, members };
    if stepped.views.on_commit(&view)? {
        stepped.refresh_here(catalog, &view)
    } else {
        Ok(())
    }
}
