//! The generator: schedules that are drawn from a seed, each event by the world that those before it have left.

ghost use Rattle.std.specs.Prelude.{◌≡◌, ◌≤◌, [], IfOk, Some, None};
ghost use Rattle.vp_text.specs.Printing.{Appends};
ghost use Rattle.vp_model.specs.Generated.{generated_catalogue};
ghost use Rattle.vp_model.specs.Texts.Schedule.{schedule_text};
ghost use Rattle.vp_playing.specs.Played.{schedule_of};
ghost use Rattle.vp_replay.specs.Generated.{Makes, Generates, IsGenerated};

use crate::drawing::Draws;
use crate::generated_catalogue::generated_catalogue;
use std::alloc::Global;
use vp_base::{Events, NoMemory, Replies};
use vp_playing::play_event;
use vp_schedule::{Schedule, print};
use vp_status::{RunOutput, Status, print_limit};
use vp_world::{PlainStepper, World, WorldEnd};

/// A schedule that was made: its events, and the replies to its steps.
#[derive(Drop)]
pub struct GeneratedRun {
    pub events: Events,
    pub replies: Replies,
}

impl GeneratedRun {
    /// Begins with no events and no replies.
    pub fn nothing(alloc: Global) -> GeneratedRun
        ensures { result ≡ record { events = []; replies = [] } }
    {
        GeneratedRun {
            events: Events::new(alloc),
            replies: Replies::new(alloc),
        }
    }

    /// Makes `count` events from the seed, which is below 2^31, and plays each at once. If a limit ends them, the events before the one
    /// that was refused are there.
    pub fn make(&mut self, alloc: Global, seed: u32, count: u32) -> Result<World, WorldEnd>
        requires few { count ≤ 2400 }
        requires fresh { self.old ≡ record { events = []; replies = [] } }
        ensures { Makes seed count result self.new }
    {
        let mut world = World::new(generated_catalogue(alloc)?)?;
        let mut draws = Draws::from_seed(seed);
        let mut number = 0;
        for _ in 0..count {
            number += 1;
            let event = draws.event(alloc, &world)?;
            world = play_event(number, &event, world, &mut PlainStepper, &mut self.replies)?;
            self.events.push(event)?;
        }
        Ok(world)
    }
}

/// Appends the text of the schedule that the generator makes from the seed, which is below 2^31, with `count` events. If a limit of the
/// world ends it, that is returned, and the text has the events before the one that was refused; if memory runs out, a beginning of
/// that.
pub fn generate(seed: u32, count: u32, out: &mut Vec<u8>) -> Result<Option<WorldEnd>, NoMemory>
    requires seed { seed ≤ 2147483647 }
    requires few { count ≤ 2400 }
    ensures { Generates seed count result out.old.items out.new.items }
{
    let alloc = *out.allocator();
    let mut made = GeneratedRun::nothing(alloc);
    match made.make(alloc, seed, count) {
        Ok(_) => {
            print_events(made.events, out)?;
            Ok(None)
        }
        Err(WorldEnd::Limit { what, limit }) => {
            print_events(made.events, out)?;
            Ok(Some(WorldEnd::Limit { what, limit }))
        }
        Err(WorldEnd::NoMemory) => Err(NoMemory),
    }
}

/// Appends the schedule of the generator's catalogue with these events.
#[tactic(auto, using(vp_text::proofs::Printing::printing))]
fn print_events(events: Events, out: &mut Vec<u8>) -> Result<(), NoMemory>
    ensures { Appends result out.old.items (schedule_text (schedule_of generated_catalogue events))
        out.new.items }
{
    let catalog = generated_catalogue(*out.allocator())?;
    print(&Schedule { catalog, events }, out)
}

/// Generates a schedule: the status and the text that `generate` prints.
pub fn generated(alloc: Global, seed: u32, count: u32) -> Result<RunOutput, NoMemory>
    requires seed { seed ≤ 2147483647 }
    requires few { count ≤ 2400 }
    ensures { IfOk result (λ defined. IsGenerated seed count defined.status defined.text.items) }
{
    let mut text = Vec::new(alloc);
    let status = match generate(seed, count, &mut text)? {
        None => Status::Done,
        Some(WorldEnd::Limit { limit, .. }) => {
            print_limit(limit, &mut text)?;
            Status::Limit
        }
        Some(WorldEnd::NoMemory) => unreachable!(),
    };
    Ok(RunOutput { status, text })
}
