//! Playing the events of a schedule in a world.

ghost use Rattle.std.specs.Prelude.{◌≤◌, [], OnErr, OnOk, length};
ghost use Rattle.vp_model.specs.World.{one_step, flow, one_event, moments_of};
ghost use Rattle.vp_model.specs.Texts.Trace.{own_line};
ghost use Rattle.vp_playing.specs.Played.{SeesAll, SeesSome, Sees, Plays, StepsAll, IsReadyFor, run_in, schedule_of};
ghost use Rattle.vp_world.specs.Steps.{IsReady};

use crate::observer::Observer;
use vp_base::{Event, NoMemory, Shown};
use vp_catalog::Catalog;
use vp_trace::LentLine;
use vp_world::{Stepper, World, WorldEnd};

/// Does one step, and shows its line.
fn play_step<S: Stepper, O: Observer>(
    number: u32,
    event: &Event,
    world: World,
    stepper: &mut S,
    observer: &mut O,
) -> Result<World, WorldEnd>
    requires { IsReady S.may world.catalogue event.now world.world stepper.old }
    ensures seen { Sees O.sees O.begins world.catalogue []
        (one_step world.catalogue number event.now (run_in world.world)) result observer.old observer.new }
    ensures stepped { OnOk result
        (StepsAll S.did world.catalogue
        (one_step world.catalogue number event.now (run_in world.world)).moments stepper.old stepper.new) }
{
    match world.next_by(event, stepper) {
        Err(end) => Err(end),
        Ok(happened) => {
            let line = LentLine {
                event,
                shown: happened.shown(),
            };
            observer.see(number, &line, happened.catalog())?;
            Ok(happened.into_world()?)
        }
    }
}

/// Delivers up to `count` messages, each time the lowest one that may be delivered and never was, and shows the lines.
fn play_flow<S: Stepper, O: Observer>(
    number: u32,
    count: u32,
    world: World,
    stepper: &mut S,
    observer: &mut O,
) -> Result<World, WorldEnd>
    requires { IsReadyFor S.may S.did world.catalogue
        (flow world.catalogue number count (run_in world.world)).moments stepper.old }
    ensures stepped { OnOk result
        (StepsAll S.did world.catalogue (flow world.catalogue number count (run_in world.world)).moments
        stepper.old stepper.new) }
    ensures seen { Sees O.sees O.begins world.catalogue []
        (flow world.catalogue number count (run_in world.world)) result observer.old observer.new }
{
    let mut world = world;
    for _ in 0..count {
        match world.flowing() {
            None => return Ok(world),
            Some(k) => world = play_step(number, &Event::Deliver { k }, world, stepper, observer)?,
        }
    }
    Ok(world)
}

/// Shows the line of a flow itself, which comes before those of its deliveries.
fn show_own_line<O: Observer>(
    number: u32,
    event: &Event,
    catalog: &Catalog,
    observer: &mut O,
) -> Result<(), NoMemory>
    ensures seen { OnOk result
        (SeesAll (O.sees catalog.now) (own_line number event.now) observer.old observer.new) }
    ensures begun { OnErr result
        (SeesSome (O.sees catalog.now) (O.begins catalog.now) (own_line number event.now) observer.old
        observer.new) }
{
    let Event::Flow { .. } = event else {
        return Ok(());
    };
    let line = LentLine {
        event,
        shown: &Shown::Nothing,
    };
    observer.see(number, &line, catalog)
}

/// Does the steps of the event, and shows their lines.
#[tactic(auto, unfolding(vp_model::specs::World::one_event))]
pub fn play_event<S: Stepper, O: Observer>(
    number: u32,
    event: &Event,
    world: World,
    stepper: &mut S,
    observer: &mut O,
) -> Result<World, WorldEnd>
    requires ready { IsReadyFor S.may S.did world.catalogue
        (one_event world.catalogue number event.now (run_in world.world)).moments stepper.old }
    ensures stepped { OnOk result
        (StepsAll S.did world.catalogue
        (one_event world.catalogue number event.now (run_in world.world)).moments stepper.old stepper.new) }
    ensures seen { Sees O.sees O.begins world.catalogue (own_line number event.now) (one_event world.catalogue number event.now (run_in world.world)) result
        observer.old observer.new }
{
    show_own_line(number, event, world.catalog(), observer)?;
    match event {
        Event::Flow { count } => play_flow(number, *count, world, stepper, observer),
        _ => play_step(number, event, world, stepper, observer),
    }
}

/// Plays the events one after the other in a new world. If a limit ends them, the observer has seen the lines of the steps before; if
/// memory runs out, some of these.
pub fn play<S: Stepper, O: Observer>(
    catalog: Catalog,
    events: &[Event],
    stepper: &mut S,
    observer: &mut O,
) -> Result<World, WorldEnd>
    requires few { length events.now ≤ 100000 }
    requires ready { IsReadyFor S.may S.did catalog (moments_of (schedule_of catalog events.now))
        stepper.old }
    ensures stepped { OnOk result
        (StepsAll S.did catalog (moments_of (schedule_of catalog events.now)) stepper.old stepper.new) }
    ensures played { Plays O.sees O.begins (schedule_of catalog events.now) result observer.old observer.new }
{
    let mut world = World::new(catalog)?;
    let mut number = 0;
    for event in events {
        number += 1;
        world = play_event(number, event, world, stepper, observer)?;
    }
    Ok(world)
}
