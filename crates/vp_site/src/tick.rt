//! What a site does as time passes: it ends invitations and pending calls, and asks and answers again what may have been lost.

ghost use Rattle.std.specs.Prelude.{◌≡◌, OnOk, option_copied};
ghost use Rattle.std.specs.Option.{option_map_or};
ghost use Rattle.vp_site.specs.Asking.{ask, ask_each};
ghost use Rattle.vp_model.specs.Step.{fix_view, ask_again_all, time_out, tick_view, inquire_all, on_tick, on_probe};

use crate::stepped::Stepped;
use crate::views::invite;
use vp_base::{Effects, Message, NoMemory, SiteId, View, ViewId};
use vp_catalog::Catalog;
use vp_refresh::RefreshEntry;

/// Ends the invitation: the sites that have accepted are the members of the view, which this site then holds.
#[tactic(auto, unfolding(vp_model::specs::Step::fix_view, vp_model::specs::Step::fix, vp_model::specs::Views::hold))]
fn fix_view(stepped: &mut Stepped, catalog: &Catalog) -> Result<(), NoMemory>
    ensures { OnOk result (stepped.new ≡
        option_map_or (λ inviting. fix_view catalog.now inviting stepped.old) stepped.old.site.inviting stepped.old) }
{
    if !stepped.views.fix(&mut stepped.coordinator.effects)? {
        return Ok(());
    }
    match stepped.held_view()? {
        None => Ok(()),
        Some(view) => stepped.refresh_here(catalog, &view),
    }
}

/// Closes the transactions whose call was already pending at the tick before, marks the other pending calls, and asks again for copies.
#[tactic(auto, unfolding(vp_model::specs::Step::time_out))]
fn time_out(stepped: &mut Stepped, catalog: &Catalog, view: &View) -> Result<(), NoMemory>
    ensures { OnOk result (stepped.new ≡ time_out catalog.now view.now stepped.old) }
{
    stepped.coordinator.time_out_calls(stepped.id)?;
    ask_again_all(stepped, catalog, view.id)
}

/// Does the part of a tick that depends on whether the site holds a view, waits for one or invites to one.
#[tactic(auto, unfolding(vp_model::specs::Step::tick_view))]
fn tick_view(stepped: &mut Stepped, catalog: &Catalog) -> Result<(), NoMemory>
    ensures { OnOk result (stepped.new ≡ tick_view catalog.now stepped.old) }
{
    if stepped.views.inviting().is_some() {
        return fix_view(stepped, catalog);
    }
    if stepped.views.waiting().is_some() {
        stepped.views.stop_waiting();
        return Ok(());
    }
    match stepped.held_view()? {
        None => invite(stepped, catalog),
        Some(view) => time_out(stepped, catalog, &view),
    }
}

/// Asks the coordinators of the transactions that have a part here, or are in doubt here, how they ended.
#[tactic(auto, unfolding(vp_model::specs::Step::inquire))]
fn inquire_all(stepped: &mut Stepped) -> Result<(), NoMemory>
    ensures { OnOk result (stepped.new ≡ inquire_all stepped.old) }
{
    let txns = stepped.participant.known()?;
    for txn in txns.as_slice() {
        stepped.send(txn.site, Message::Inquire { txn: *txn })?;
    }
    Ok(())
}

/// Does what a tick asks for in the view; then sends each decision again to the sites that have not acknowledged it, and asks for
/// the outcomes that are not known here.
#[tactic(auto, unfolding(vp_model::specs::Step::on_tick))]
pub fn on_tick(stepped: &mut Stepped, catalog: &Catalog) -> Result<(), NoMemory>
    ensures { OnOk result (stepped.new ≡ on_tick catalog.now stepped.old) }
{
    tick_view(stepped, catalog)?;
    stepped.coordinator.resend(stepped.id)?;
    inquire_all(stepped)
}

/// Probes the other sites. If since the last probes too few sites, or others than the members, were heard, it invites to a new view
/// instead.
#[tactic(auto, unfolding(vp_model::specs::Step::on_probe, vp_model::specs::Step::probe_in))]
pub fn on_probe(stepped: &mut Stepped, catalog: &Catalog) -> Result<(), NoMemory>
    ensures { OnOk result (stepped.new ≡ on_probe catalog.now stepped.old) }
{
    if stepped.views.wants_view() {
        invite(stepped, catalog)
    } else {
        stepped
            .views
            .probe(catalog, &mut stepped.coordinator.effects)
    }
}

/// What is said again of each copy under refresh to the other holders that have not answered for it.
#[derive(Clone, Copy)]
struct Asking<'c, 'v> {
    catalog: &'c Catalog,
    held: Option<&'v View>,
    id: SiteId,
    view: ViewId,
}

impl Asking<'_, '_> {
    fn ask(&self, asked: &RefreshEntry, effects: &mut Effects) -> Result<(), NoMemory>
        ensures { OnOk result (effects.new ≡
            ask self.now.catalog.now self.now.id (option_copied self.now.held) self.now.view asked.now effects.old) }
    {
        let missing = asked.missing(self.catalog, self.id, self.held)?;
        let request = Message::RefreshRequest {
            view: self.view,
            rec: asked.rec(),
        };
        effects.send_all(self.id, missing.as_slice(), &request)
    }

    fn ask_each(&self, refresh: &[RefreshEntry], effects: &mut Effects) -> Result<(), NoMemory>
        ensures { OnOk result (effects.new ≡
            ask_each self.now.catalog.now self.now.id (option_copied self.now.held) self.now.view refresh.now effects.old) }
    {
        for asked in refresh {
            self.ask(asked, effects)?;
        }
        Ok(())
    }
}

/// Asks again for the copies of the other holders that have not answered.
fn ask_again_all(stepped: &mut Stepped, catalog: &Catalog, view: ViewId) -> Result<(), NoMemory>
    ensures { OnOk result (stepped.new ≡
        ask_again_all catalog.now view stepped.old.site.refresh stepped.old) }
{
    let asking = Asking {
        catalog,
        held: stepped.views.held(),
        id: stepped.id,
        view,
    };
    asking.ask_each(stepped.refresh.as_slice(), &mut stepped.coordinator.effects)?;
    Ok(())
}
