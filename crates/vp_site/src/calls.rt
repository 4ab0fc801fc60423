//! What a site does for a client's call.

ghost use Rattle.std.specs.Prelude.{◌≡◌, OnOk};
ghost use Rattle.vp_model.specs.Calls.{on_regroup, on_call};

use crate::stepped::Stepped;
use crate::views::invite;
use vp_base::{Answer, Call, NoMemory};
use vp_catalog::Catalog;
use vp_coordinator::Around;

/// Invites to a new view, or replies that the numbers of views are spent.
#[tactic(auto, unfolding(vp_model::specs::Calls::on_regroup))]
fn on_regroup(stepped: &mut Stepped, catalog: &Catalog, port: u16) -> Result<(), NoMemory>
    ensures { OnOk result (stepped.new ≡ on_regroup catalog.now port stepped.old) }
{
    match stepped.views.invitable() {
        Err(spent) => stepped.reply(
            port,
            Answer::Spent {
                number: spent.number,
            },
        ),
        Ok(id) => {
            invite(stepped, catalog)?;
            stepped.reply(port, Answer::Inviting { view: id })
        }
    }
}

/// Does what the call of the client at this port asks, or replies why it can't.
#[tactic(auto, unfolding(vp_model::specs::Calls::on_call))]
pub fn on_call(
    stepped: &mut Stepped,
    catalog: &Catalog,
    port: u16,
    call: &Call,
) -> Result<(), NoMemory>
    ensures { OnOk result (stepped.new ≡ on_call catalog.now port call.now stepped.old) }
{
    match call {
        Call::Regroup => on_regroup(stepped, catalog, port),
        _ => {
            let at = Around {
                catalog,
                held: stepped.views.held(),
                id: stepped.id,
                life: stepped.life,
                promise: stepped.views.promise(),
            };
            stepped.coordinator.own_call(&at, port, call)
        }
    }
}
