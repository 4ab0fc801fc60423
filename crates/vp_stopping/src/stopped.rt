//! The run of a schedule through nodes, one of which stops within a step.

ghost use Rattle.std.specs.Prelude.{◌≡◌, ◌≤◌, ◌+◌, ◌-◌, ◌++◌, ◌∷◌, ℕ, [], IfOk, IsSome, OnOk, Some, length, IfSome, option_to_list};
ghost use Rattle.std.specs.List.{AllByRecursion, range_with_len};
ghost use Rattle.vp_laws.specs.ShapeLaws.{IsEvent};
ghost use Rattle.vp_model.specs.Limits.{world_limits, limit_in, refused};
ghost use Rattle.vp_model.specs.World.{next, message_at, run_from};
ghost use Rattle.vp_schedule.specs.Document.{IsSchedule};
ghost use Rattle.vp_runs.specs.Stopped.{appender, message_taken, pass_over, run_in, singles, stop_at, stopped_world};
ghost use Rattle.vp_world.specs.Limits.{Ends};
ghost use Rattle.vp_world.specs.Steps.{taker, DoesEvent, IsReady};
ghost use Rattle.vp_stopping.specs.AfterStop.{IsAfterStop};
ghost use Rattle.vp_stopping.specs.Left.{CanRise, left_then, next_single};
ghost use Rattle.vp_cluster.specs.Nodes.{MayDo, Does};
ghost use Rattle.vp_cluster.specs.Stops.{is_kept};
ghost use Rattle.vp_stopping.specs.RanStopped.{RunsStopped};
ghost use Rattle.vp_stopping.specs.Singles.{AreBefore, ComesTo, GoesOn, HaveDone, IsBegun, MayStop, StopsIn, moment_in, run_in_place};

use crate::after_stop::AfterStop;
use crate::left::Left;
use vp_base::{Commits, CopyOf, Event, Events, NoMemory, SiteId};
use vp_catalog::Catalog;
use vp_cluster::{Nodes, SiteLog, Stop, StoppedLog};
use vp_schedule::Schedule;
use vp_world::{PlainStepper, Stepper, World, WorldEnd};

/// What a run becomes that stops within a step: a schedule, with its commits in the order of the steps; and the log of the site that
/// stopped, as the stop left it.
#[derive(Drop)]
pub struct Stopped {
    pub schedule: Schedule,
    pub commits: Commits,
    pub log: SiteLog,
}

/// A site that stopped within a step, its log, and the nodes, one of whose disks has that log.
#[derive(Drop)]
struct StoppedSite {
    site: SiteId,
    left: StoppedLog,
    nodes: Nodes,
}

/// The number of the message that the event delivers.
fn message_taken(event: &Event) -> Option<u32>
    ensures { option_to_list result ≡ message_taken event.now }
{
    match event {
        Event::Deliver { k } => Some(*k),
        _ => None,
    }
}

/// A run of single steps: its world, and what was done.
#[derive(Drop)]
struct Steps {
    world: World,
    done: Events,
}

impl Steps {
    /// Does one step by the sites themselves.
    fn step(self, event: Event) -> Result<Steps, WorldEnd>
        ensures done { IfOk result
            (HaveDone self.world.catalogue (self.done ++ event ∷ [])
            (next self.world.catalogue event self.world.world).world) }
        ensures end { Ends (refused world_limits self.world.catalogue event self.world.world) result }
    {
        self.step_by(event, &mut PlainStepper)
    }

    /// Does one step, for which the site is lent to the stepper.
    fn step_by<S: Stepper>(self, event: Event, stepper: &mut S) -> Result<Steps, WorldEnd>
        requires { IsReady S.may self.world.catalogue event self.world.world stepper.old }
        ensures done { IfOk result
            (HaveDone self.world.catalogue (self.done ++ event ∷ [])
            (next self.world.catalogue event self.world.world).world) }
        ensures end { Ends (refused world_limits self.world.catalogue event self.world.world) result }
        ensures did { OnOk result
            (DoesEvent S.did self.world.catalogue event self.world.world stepper.old stepper.new) }
    {
        let Steps { world, mut done } = self;
        let world = world.next_by(&event, stepper)?.into_world()?;
        done.push(event)?;
        Ok(Steps { world, done })
    }

    /// Marks the message as delivered.
    fn pass(&mut self, taken: Option<u32>) -> Result<(), NoMemory>
        requires { IfSome taken (λ k. IsSome (message_at self.old.world.world k)) }
        ensures { OnOk result
            (HaveDone self.old.world.catalogue self.old.done
            (pass_over (option_to_list taken) self.old.world.world) self.new) }
    {
        match taken {
            None => Ok(()),
            Some(k) => self.world.pass_over(k),
        }
    }

    /// Marks the messages after the first so many as delivered, without giving them to a site.
    fn lose(&mut self, before: u32) -> Result<(), NoMemory>
        requires { before ≤ length self.old.world.world.sent }
        ensures { OnOk result (HaveDone self.old.world.catalogue self.old.done
            (pass_over (range_with_len (before + 1) (length self.old.world.world.sent - before)) self.old.world.world) self.new) }
    {
        for sent in before..self.world.messages() as u32 {
            self.world.pass_over(sent + 1)?;
        }
        Ok(())
    }

    /// Crashes the site instead of the step of the event, or after it if the step is kept.
    fn crash(self, site: SiteId, event: Event, kept: bool) -> Result<Steps, WorldEnd>
        requires taken { taker self.world.catalogue event self.world.world ≡ Some site }
        ensures done { IfOk result (HaveDone self.world.catalogue (self.done ++ stop_at kept site event)
            (run_in_place self.world.catalogue kept site event self.world.world).world) }
        ensures end { Ends
            (limit_in world_limits
            (run_in_place self.world.catalogue kept site event self.world.world).moments) result }
    {
        if !kept {
            return self.step(Event::Crash { site });
        }
        let steps = self.step(event)?;
        steps.step(Event::Crash { site })
    }

    /// Stops the site in the step of the event, with or without its batch in the log, and leaves it down. The messages of that step are
    /// given to nobody, and the one that it took counts as delivered.
    fn stop(self, site: SiteId, event: Event, kept: bool) -> Result<Steps, WorldEnd>
        requires taken { taker self.world.catalogue event self.world.world ≡ Some site }
        ensures done { IfOk result (HaveDone self.world.catalogue (self.done ++ stop_at kept site event)
            (stopped_world self.world.catalogue kept site (moment_in self.world.catalogue event self.world.world))) }
        ensures end { Ends
            (limit_in world_limits
            (run_in_place self.world.catalogue kept site event self.world.world).moments) result }
    {
        let taken = message_taken(&event);
        let before = self.world.messages() as u32;
        let mut steps = self.crash(site, event, kept)?;
        steps.pass(taken)?;
        steps.lose(before)?;
        Ok(steps)
    }

    /// Does all that is left after a stop.
    fn go_on(self, left: Left, following: AfterStop) -> Result<Steps, WorldEnd>
        requires { IsAfterStop self.world.catalogue self.world.world following }
        ensures done { IfOk result (HaveDone self.world.catalogue (self.done ++ singles (run_from self.world.catalogue 1 left (run_in self.world.world)).moments)
            (run_from self.world.catalogue 1 left (run_in self.world.world)).world) }
        ensures end { Ends
            (limit_in world_limits (run_from self.world.catalogue 1 left (run_in self.world.world)).moments)
            result }
    {
        let mut left = left;
        let mut following = following;
        let mut steps = self;
        while let Some(event) = left.next(&steps.world)? {
            steps = steps.step_by(event, &mut following)?;
        }
        Ok(steps)
    }
}

impl Steps {
    /// What the run has become, in which a site left this log.
    fn stopped(self, catalog: &Catalog, log: SiteLog) -> Result<Stopped, NoMemory>
        ensures { IfOk result
            (λ it. it ≡
            record {
              schedule = record { catalogue = catalog.now; events = self.done };
              commits = self.world.world.journal;
              log = log;
            }) }
    {
        let Steps { world, done } = self;
        Ok(Stopped {
            schedule: Schedule {
                catalog: catalog.copy_of()?,
                events: done,
            },
            commits: world.journal().copy_of()?,
            log,
        })
    }
}

/// A run through nodes, until some step.
#[derive(Drop)]
struct Front {
    nodes: Nodes,
    steps: Steps,
    left: Left,
}

impl Front {
    fn begin(schedule: &Schedule) -> Result<Front, NoMemory>
        ensures { IfOk result (IsBegun schedule.now) }
    {
        let catalog = &schedule.catalog;
        let alloc = catalog.sites().allocator();
        Ok(Front {
            nodes: Nodes::begin(catalog.copy_of()?)?,
            steps: Steps {
                world: World::new(catalog.copy_of()?)?,
                done: Events::new(alloc),
            },
            left: Left::of(alloc, schedule.events.as_slice())?,
        })
    }

    /// Does the step, in which the nodes do that of its site.
    fn step(self, event: Event) -> Result<Front, WorldEnd>
        requires { IsReady MayDo self.steps.world.catalogue event self.steps.world.world self.nodes }
        ensures done { IfOk result (λ new. HaveDone self.steps.world.catalogue (self.steps.done ++ event ∷ [])
            (next self.steps.world.catalogue event self.steps.world.world).world new.steps) }
        ensures left { IfOk result (λ new. new.left ≡ self.left) }
        ensures nodes { IfOk result
            (λ new. DoesEvent Does self.steps.world.catalogue event self.steps.world.world self.nodes
            new.nodes) }
        ensures end { Ends (refused world_limits self.steps.world.catalogue event self.steps.world.world)
            result }
    {
        let Front {
            mut nodes,
            steps,
            left,
        } = self;
        let steps = steps.step_by(event, &mut nodes)?;
        Ok(Front { nodes, steps, left })
    }

    /// Stops the site that does the event's step within it; none where that appends no batch. All else is dropped.
    fn stop(self, event: &Event, stop: &Stop) -> Result<Option<StoppedSite>, NoMemory>
        requires event { IsEvent event.now }
        requires lent { MayStop event.now self }
        ensures stops { IfOk result (StopsIn event.now self) }
        ensures kept { IfOk result (λ at. IfSome at (λ it. it.left.kept ≡ is_kept stop.now)) }
    {
        let Front {
            mut nodes,
            steps,
            left: _,
        } = self;
        let Some(id) = steps.world.taker(event)? else {
            return Ok(None);
        };
        let Some(site) = steps.world.into_site(id) else {
            return Ok(None);
        };
        match nodes.stop(event, site, stop)? {
            None => Ok(None),
            Some(left) => Ok(Some(StoppedSite {
                site: id,
                left,
                nodes,
            })),
        }
    }
}

/// Runs the schedule until this step, and returns the event of that step; none where there are fewer steps.
fn come_to(schedule: &Schedule, step: u32) -> Result<Option<(Front, Event)>, WorldEnd>
    requires schedule { IsSchedule schedule.now }
    requires step { 1 ≤ step }
    ensures { ComesTo schedule.now step result }
{
    let mut front = Front::begin(schedule)?;
    for _ in 1..step {
        match front.left.next(&front.steps.world)? {
            None => return Ok(None),
            Some(event) => front = front.step(event)?,
        }
    }
    match front.left.next(&front.steps.world)? {
        None => Ok(None),
        Some(event) => Ok(Some((front, event))),
    }
}

/// Stops the site in the step of the event, and does the rest of the run; the site starts from the log that it has left.
fn go_on(
    schedule: &Schedule,
    front: Front,
    event: Event,
    at: StoppedSite,
) -> Result<Stopped, WorldEnd>
    requires taken { taker front.steps.world.catalogue event front.steps.world.world ≡ Some at.site }
    requires rise { AllByRecursion CanRise front.left }
    requires waits { IsAfterStop front.steps.world.catalogue
        (stopped_world front.steps.world.catalogue at.left.kept at.site (moment_in front.steps.world.catalogue event front.steps.world.world))
        (record { nodes = at.nodes; stopped = Some at.site }) }
    ensures { (step : ℕ) (h : AreBefore schedule.now step event front.steps front.left) →
        appender schedule.now.catalogue h.m ≡ Some at.site → GoesOn schedule.now step at.left result }
{
    let Front {
        nodes: _,
        steps,
        mut left,
    } = front;
    let StoppedSite {
        site,
        left: StoppedLog { log, kept },
        nodes,
    } = at;
    let before = steps.world.messages() as u32;
    let steps = steps.stop(site, event, kept)?;
    left.raise(before + 1, steps.world.messages() as u32 - before)?;
    let following = AfterStop {
        nodes,
        stopped: Some(site),
    };
    let ended = steps.go_on(left, following)?;
    Ok(ended.stopped(&schedule.catalog, log)?)
}

/// Runs the schedule through nodes until a step, and stops the site that does it within the append of its batch. The site is down then,
/// and nothing that the step sends is handed over; the run goes on after that, and the site starts from the log that it has left, which
/// is returned. None where there is no such step, or it appends no batch.
pub fn run_stopped(schedule: &Schedule, stop: &Stop) -> Result<Option<Stopped>, WorldEnd>
    requires schedule { IsSchedule schedule.now }
    requires calls { stop.now.calls ≤ 4 }
    ensures { RunsStopped schedule.now stop.now.step (is_kept stop.now) result }
{
    if stop.step == 0 {
        return Ok(None);
    }
    let Some((front, event)) = come_to(schedule, stop.step)? else {
        return Ok(None);
    };
    let stopped = front.stop(&event, stop)?;
    // the stop consumed the site; the steps before are done once more
    let Some((front, event)) = come_to(schedule, stop.step)? else {
        return Ok(None);
    };
    match stopped {
        None => {
            front.steps.step(event)?;
            Ok(None)
        }
        Some(at) => Ok(Some(go_on(schedule, front, event, at)?)),
    }
}
