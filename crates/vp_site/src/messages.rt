//! What a site does for each input: the rows, by the kind of the call or message. Those for other sites are methods of `Stepped`.

ghost use Rattle.std.specs.Prelude.{◌≡◌, OnOk};
ghost use Rattle.vp_model.specs.Messages.{on_message};
ghost use Rattle.vp_model.specs.Step.{on_input};

use crate::calls::on_call;
use crate::refresh::RefreshAnswer;
use crate::stepped::Stepped;
use crate::tick::{on_probe, on_tick};
use crate::views::{on_invite, on_view_commit};
use vp_base::{Input, Message, NoMemory, SiteId};
use vp_catalog::Catalog;
use vp_coordinator::Incoming;
use vp_participant::{Prepare, Request};

/// Does what the definitions say for a message of this kind.
#[tactic(auto, unfolding(vp_model::specs::Messages::on_message, vp_model::specs::Messages::on_accept, vp_model::specs::Messages::on_stale, vp_model::specs::Messages::on_probe_message, vp_model::specs::Answers::on_answer))]
pub fn on_message(
    stepped: &mut Stepped,
    catalog: &Catalog,
    from: SiteId,
    message: &Message,
) -> Result<(), NoMemory>
    ensures { OnOk result (stepped.new ≡ on_message catalog.now from message.now stepped.old) }
{
    let came = Incoming {
        catalog,
        from,
        id: stepped.id,
    };
    match message {
        Message::Invite { id } => on_invite(stepped, from, *id),
        Message::Accept { id } => stepped.views.on_accept(from, *id),
        Message::Stale { promise, .. } => {
            stepped.views.on_stale(*promise);
            Ok(())
        }
        Message::ViewCommit { id, members } => on_view_commit(stepped, catalog, *id, members),
        Message::ReadRequest {
            txn,
            view,
            number,
            rec,
        } => stepped.on_read_request(from, &Request::new(*txn, *view, *number, *rec)),
        Message::WriteRequest {
            txn,
            view,
            number,
            rec,
        } => stepped.on_write_request(from, &Request::new(*txn, *view, *number, *rec)),
        Message::Prepare {
            txn,
            view,
            number,
            reads,
            writes,
        } => {
            let asked = Prepare {
                txn: *txn,
                view: *view,
                number: *number,
                reads: reads.as_ref(),
                writes: writes.as_ref(),
            };
            stepped.on_prepare(from, &asked)
        }
        Message::Outcome { txn, commit } => stepped.on_outcome(catalog, from, *txn, *commit),
        Message::RefreshRequest { view, rec } => stepped.on_refresh_request(from, *view, *rec),
        Message::RefreshAnswer { view, rec, stored } => {
            let answer = RefreshAnswer {
                view: *view,
                rec: *rec,
                stored: stored.as_ref(),
            };
            stepped.on_refresh_answer(catalog, from, &answer)
        }
        // the row `on_probe_message`
        Message::Probe { .. } => stepped.views.heard(from),
        Message::ReadAnswer { txn, number, value } => {
            stepped
                .coordinator
                .on_read_answer(&came, txn, *number, value)
        }
        Message::WriteAnswer { txn, number } => stepped
            .coordinator
            .on_write_answer(&came, txn, *number),
        Message::Refuse { txn, number, why } => stepped
            .coordinator
            .on_refuse(&came, txn, *number, why),
        Message::Vote { txn } => stepped.coordinator.on_vote(&came, txn),
        Message::Ack { txn } => stepped.coordinator.on_ack(from, txn),
        Message::Inquire { txn } => stepped.coordinator.on_inquire(stepped.id, from, txn),
    }
}

/// Does what the input asks. After an error the site may only be dropped.
#[tactic(auto, unfolding(vp_model::specs::Step::on_input))]
pub fn on_input(stepped: &mut Stepped, catalog: &Catalog, input: &Input) -> Result<(), NoMemory>
    ensures { OnOk result (stepped.new ≡ on_input catalog.now input.now stepped.old) }
{
    match input {
        Input::Call { from, call } => on_call(stepped, catalog, *from, call),
        Input::Message { from, message } => on_message(stepped, catalog, *from, message),
        Input::Tick => on_tick(stepped, catalog),
        Input::Probe => on_probe(stepped, catalog),
    }
}
