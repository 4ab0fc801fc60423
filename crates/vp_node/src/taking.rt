//! What a site does with what comes.

ghost use Rattle.std.specs.Prelude.{◌≡◌, [], IfOk};
ghost use Rattle.vp_catalog.specs.Document.{IsCatalogue};
ghost use Rattle.vp_laws.specs.Shapes.{IsInput, IsShaped};
ghost use Rattle.vp_model.specs.Step.{step};
ghost use Rattle.vp_runs.specs.Arrivals.{IsArrival};
ghost use Rattle.vp_runs.specs.Turns.{step_turn, turn_on};
ghost use Rattle.vp_node.specs.Taking.{AreFrames, Does, IsStepOf};

use crate::turned::TurnEffects;
use std::alloc::Global;
use vp_base::{Input, NoMemory};
use vp_catalog::Catalog;
use vp_laws::shaped::{given_are_frames, steps_are_shaped};
use vp_runs::Arrival;
use vp_site::Site;

/// Does the step of an input.
fn step(site: Site, catalog: &Catalog, input: Input) -> Result<(Site, TurnEffects), NoMemory>
    requires catalogue { IsCatalogue catalog.now }
    requires site { IsShaped catalog.now site }
    requires input { IsInput input }
    ensures does { IfOk result
        (λ it. Does catalog.now site.id (step_turn catalog.now site.id (step catalog.now site input)) it.0
        it.1) }
    ensures frames { IfOk result (λ it. AreFrames site.id it.1.effects) }
    ensures stepped { IfOk result
        (λ it. record { site = it.0; effects = it.1.effects } ≡ step catalog.now site input) }
{
    steps_are_shaped();
    given_are_frames();
    let (site, effects) = site.step(catalog, &input)?;
    Ok((
        site,
        TurnEffects {
            effects,
            stop: false,
        },
    ))
}

/// Does a turn without a step.
fn pass(site: Site, alloc: Global, stop: bool) -> (Site, TurnEffects)
    ensures { result ≡ (
      site,
      record {
        effects = record { records = []; commits = []; messages = []; replies = [] };
        stop = stop;
      },
    ) }
{
    (site, TurnEffects::quiet(alloc, stop))
}

/// Does the turn of what came, without a disk. The records of its step must be synced before its messages and replies are sent.
#[tactic(auto, unfolding(vp_runs::specs::Turns::turn_on, vp_runs::specs::Turns::datagrams_of))]
pub fn turn_on(
    site: Site,
    catalog: &Catalog,
    what: Arrival,
) -> Result<(Site, TurnEffects), NoMemory>
    requires catalogue { IsCatalogue catalog.now }
    requires site { IsShaped catalog.now site }
    requires what { IsArrival what }
    ensures does { IfOk result
        (λ it. Does catalog.now site.id (turn_on catalog.now site what) it.0 it.1) }
    ensures frames { IfOk result (λ it. AreFrames site.id it.1.effects) }
    ensures stepped { IfOk result (λ it. IsStepOf catalog.now site what it.0 it.1.effects) }
{
    let alloc = catalog.sites().allocator();
    match what {
        Arrival::Gives { input } => step(site, catalog, input),
        Arrival::Stops => Ok(pass(site, alloc, true)),
        Arrival::Bad { .. } => Ok(pass(site, alloc, false)),
        Arrival::Stray => Ok(pass(site, alloc, false)),
    }
}
