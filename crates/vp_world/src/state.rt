//! What the world keeps, and what an event does to it.

ghost use Rattle.std.specs.Prelude.{◌≡◌, ◌≤◌, ◌<◌, ◌+◌, ◌++◌, ◌∷◌, OnOk, OnErr, IfOk, IfSome, IsSome, Some, None, if◌then◌else◌, length, option_map, option_and_then, option_to_list};
ghost use Rattle.vp_base.specs.declared.event.Event.TheVariants as event;
ghost use Rattle.vp_base.specs.declared.event.Shown.TheVariants as shown;
ghost use Rattle.vp_model.specs.World.{start_world, place_of, site_of, flowing, message_at, shows, at_site, crash, cut, heal, restart, happens, next};
ghost use Rattle.vp_model.specs.Limits.{world_limits, refused};
ghost use Rattle.vp_world.specs.Limits.{Ends, Does, too_many_steps, with_line};
ghost use Rattle.vp_mail.specs.Queues.{AreSited};
ghost use Rattle.vp_world.specs.Known.{IsWithinLimits};
ghost use Rattle.vp_world.specs.Steps.{takes_in, line_of, if_up, receiver, taker_now, passed_over, step_at, IsReady, DoesEvent};
ghost use Rattle.vp_world.specs.Asked.{Asked, restart_asked};
ghost use Rattle.vp_world.specs.Places.{Did};
ghost use Rattle.vp_world.specs.Heads.{is_open, head_of, lesser};

use crate::end::WorldEnd;
use crate::lent::LentInput;
use crate::place::PlaceEffects;
use crate::places::Places;
use crate::stepper::Stepper;
use std::alloc::Global;
use std::marker::Model;
use vp_base::{
    Commits, CopyOf, Counted, Effects, Event, MOST_MESSAGES, MOST_STEPS, NoMemory, OPENING, Shown,
    SiteId, View,
};
use vp_catalog::Catalog;
use vp_mail::{Cuts, Mail, PAIRS, SITES};

/// The sites with their messages, the views that they have agreed on, and what they have committed.
pub struct State {
    pub places: Places,
    agreed: Vec<View>,
    pub mail: Mail,
    pub cuts: Cuts,
    pub journal: Commits,
    steps: u32,
}

impl Drop for State {
    fn drop(self) {
        let State {
            places: _,
            agreed: _,
            mail: _,
            cuts: _,
            journal: _,
            steps: _,
        } = self;
    }
}

impl Model for State {
    ghost use Rattle.vp_model.specs.World.{WorldState};

    ghost Value = { WorldState };

    ghost view = { λ s. record {
      places = s.places;
      agreed = s.agreed.items;
      sent = s.mail.sent;
      delivered = s.mail.delivered;
      cuts = s.cuts;
      journal = s.journal;
      steps = s.steps;
    } };
}

/// Lists the opening view of all sites, which is agreed from the start.
#[tactic(auto, unfolding(vp_model::specs::World::start_world))]
fn opening_views(alloc: Global, catalog: &Catalog) -> Result<Vec<View>, NoMemory>
    ensures { IfOk result (λ views. views.items ≡ (start_world catalog.now).agreed) }
{
    let mut views = Vec::new(alloc);
    views.push(View {
        id: OPENING,
        members: catalog.sites().copy_of()?,
    })?;
    Ok(views)
}

fn put_view(agreed: &mut Vec<View>, view: Option<View>) -> Result<(), NoMemory>
    ensures { OnOk result (agreed.new.items ≡ agreed.old.items ++ option_to_list view) }
{
    match view {
        None => Ok(()),
        Some(view) => {
            agreed.push(view)?;
            Ok(())
        }
    }
}

fn put_commits(journal: &mut Commits, commits: Commits) -> Result<(), NoMemory>
    ensures { OnOk result (journal.new ≡ journal.old ++ commits) }
{
    for commit in commits.into_vec() {
        journal.push(commit)?;
    }
    Ok(())
}

/// Makes the line of a step whose first message has this number.
fn step_line(effects: Effects, first: u32) -> Shown
    ensures { result ≡ shown.Step effects.commits first effects.messages effects.replies }
{
    let Effects {
        records: _,
        commits,
        messages,
        replies,
    } = effects;
    Shown::Step {
        commits,
        first,
        messages,
        replies,
    }
}

impl State {
    /// Starts each site in its first life.
    #[tactic(auto, unfolding(vp_model::specs::World::start_world))]
    pub fn start(alloc: Global, catalog: &Catalog) -> Result<State, NoMemory>
        ensures { IfOk result (λ state. state ≡ start_world catalog.now) }
    {
        Ok(State {
            places: Places::start(alloc, catalog)?,
            agreed: opening_views(alloc, catalog)?,
            mail: Mail::none(alloc)?,
            cuts: Cuts::none(alloc),
            journal: Commits::new(alloc),
            steps: 0,
        })
    }

    /// Whether the receiver of the pair is up and the pair is not cut.
    fn is_open(&self, pair: usize) -> bool
        requires { pair < 256 }
        ensures { result ≡ is_open self.now pair }
    {
        let from = SiteId::of((pair / SITES) as u8 + 1);
        let to = SiteId::of((pair % SITES) as u8 + 1);
        self.places.is_up(to) && !self.cuts.has(from, to)
    }

    /// The lesser of the least number so far and the pair's lowest message that may be delivered now and never was.
    fn lower(&self, least: Option<u32>, pair: usize) -> Option<u32>
        requires { pair < 256 }
        ensures lesser { result ≡ lesser least (head_of self.now pair) }
        ensures sited { AreSited self.now.sent }
    {
        match (self.mail.first_waiting(pair), least) {
            (None, _) => least,
            (Some(first), Some(found)) if found <= first => least,
            (first, _) => { if self.is_open(pair) { first } else { least } }
        }
    }

    /// The lowest message that may be delivered now and never was.
    pub fn flowing(&self) -> Option<u32>
        ensures { result ≡ flowing self.now }
    {
        let mut least = self.lower(None, 0);
        for pair in 1..PAIRS {
            least = self.lower(least, pair);
        }
        least
    }

    /// Counts one more step. Fails, and counts nothing, if there would be more than 100,000.
    pub fn count_step(&mut self) -> Result<(), WorldEnd>
        requires { self.old.steps ≤ 100000 }
        ensures counted { OnOk result (self.new ≡ record self.old { steps = self.old.steps + 1 }) }
        ensures end { Ends (too_many_steps (self.old.steps + 1)) result }
    {
        if self.steps == MOST_STEPS {
            return Err(WorldEnd::Limit {
                what: Counted::Steps,
                limit: MOST_STEPS,
            });
        }
        self.steps += 1;
        Ok(())
    }

    /// Adds the messages and the commits of a line to those of the steps before. If memory runs out, the state may only be dropped.
    pub fn keep(&mut self, shown: Shown) -> Result<(), NoMemory>
        requires { length (with_line shown self.old).sent ≤ 2000000 }
        ensures { OnOk result (self.new ≡ with_line shown self.old) }
    {
        let Shown::Step {
            commits,
            messages,
            ..
        } = shown
        else {
            return Ok(());
        };
        self.mail.send(messages)?;
        put_commits(&mut self.journal, commits)
    }

    /// Takes what a step of a site gives. Its messages and commits are only in the line until `keep`, as after each function below. If
    /// the messages are too many, or memory runs out, the state may only be dropped.
    fn take_in(&mut self, taken: PlaceEffects) -> Result<Shown, WorldEnd>
        ensures { Does (takes_in taken self.old) self.new result }
    {
        let PlaceEffects { effects, agreed } = taken;
        let Some(first) = self.mail.first_number(effects.messages.as_slice()) else {
            return Err(WorldEnd::Limit {
                what: Counted::Messages,
                limit: MOST_MESSAGES,
            });
        };
        put_view(&mut self.agreed, agreed)?;
        Ok(step_line(effects, first))
    }

    /// Takes what a step of the site gives; it gives nothing where the site is down.
    fn line_of(&mut self, id: SiteId, taken: Option<PlaceEffects>) -> Result<Shown, WorldEnd>
        requires { length self.old.sent ≤ 2000000 }
        ensures { Does (line_of id taken self.old) self.new result }
    {
        match taken {
            None => Ok(Shown::Down { site: id }),
            Some(taken) => self.take_in(taken),
        }
    }

    /// Does the step of the input, which the event brings, at a site, if it is up. If the messages are too many, or memory runs out, the
    /// state may only be dropped, as after each function below.
    fn at_site<S: Stepper>(
        &mut self,
        catalog: &Catalog,
        event: &Event,
        id: SiteId,
        input: &LentInput,
        stepper: &mut S,
    ) -> Result<Shown, WorldEnd>
        requires few { length self.old.sent ≤ 2000000 }
        requires may { IfSome (step_at self.old event.now id input.now)
            (λ a. S.may catalog.now a stepper.old) }
        ensures does { Does (at_site catalog.now id input.now self.old) self.new result }
        ensures did { OnOk result
            (Did S.did (step_at self.old event.now id input.now) stepper.old stepper.new) }
    {
        let taken = self.places.step(catalog, id, event, input, stepper)?;
        self.line_of(id, taken)
    }

    /// Delivers message `k`, if there is one, its receiver is up, and its pair is not cut.
    fn deliver<S: Stepper>(
        &mut self,
        catalog: &Catalog,
        k: u32,
        stepper: &mut S,
    ) -> Result<Shown, WorldEnd>
        requires few { length self.old.sent ≤ 2000000 }
        requires may { IsReady S.may catalog.now (event.Deliver k) self.old stepper.old }
        ensures does { Does (happens catalog.now (event.Deliver k) self.old) self.new result }
        ensures did { OnOk result
            (DoesEvent S.did catalog.now (event.Deliver k) self.old stepper.old stepper.new) }
    {
        let Some(sent) = self.mail.message(k) else {
            return Ok(Shown::NoMessage);
        };
        let (from, to) = (sent.from(), sent.to());
        if !self.places.is_up(to) {
            return Ok(Shown::Down { site: to });
        }
        if self.cuts.has(from, to) {
            return Ok(Shown::Parted { from, to });
        }
        self.mail.deliver(k)?;
        let Some(sent) = self.mail.message(k) else {
            unreachable!()
        };
        let input = LentInput::message(sent);
        let event = Event::Deliver { k };
        let taken = self.places.step(catalog, to, &event, &input, stepper)?;
        self.line_of(to, taken)
    }

    /// This site, if it is up.
    fn if_up(&self, id: SiteId) -> Option<SiteId>
        ensures { result ≡ if_up self.now id }
    {
        if self.places.is_up(id) {
            Some(id)
        } else {
            None
        }
    }

    /// The receiver of message `k`, if it may be delivered now.
    fn receiver(&self, k: u32) -> Option<SiteId>
        ensures { result ≡ receiver self.now k }
    {
        let sent = self.mail.message(k)?;
        if self.cuts.has(sent.from(), sent.to()) {
            None
        } else {
            self.if_up(sent.to())
        }
    }

    /// The site whose step the event is now, if there is one.
    pub fn taker(&self, event: &Event) -> Result<Option<SiteId>, NoMemory>
        ensures { IfOk result (λ site. site ≡ taker_now event.now self.now) }
    {
        match event {
            Event::Call { site, .. } => Ok(self.if_up(*site)),
            Event::Deliver { k } => Ok(self.receiver(*k)),
            Event::Tick { site } => Ok(self.if_up(*site)),
            Event::Probe { site } => Ok(self.if_up(*site)),
            _ => Ok(None),
        }
    }

    /// Marks message `k` as delivered, without giving it to a site. If memory runs out, the state stays as it is.
    pub fn pass_over(&mut self, k: u32) -> Result<(), NoMemory>
        requires { IsSome (message_at self.old k) }
        ensures passed { OnOk result (self.new ≡ passed_over k self.old) }
        ensures err { OnErr result (self.new ≡ self.old) }
    {
        self.mail.deliver(k)
    }

    fn crash<S: Stepper>(&mut self, id: SiteId, stepper: &mut S) -> Shown
        ensures shown { shows (with_line result self.new) result ≡ crash id self.old }
        ensures sent { (with_line result self.new).sent ≡ self.old.sent }
        ensures did { Did S.did (option_map (λ _. Asked.crashes id) (site_of self.old id)) stepper.old
            stepper.new }
    {
        if self.places.is_up(id) {
            self.places.take_site(id);
            stepper.crash(id);
            Shown::Nothing
        } else {
            Shown::Down { site: id }
        }
    }

    fn restart<S: Stepper>(
        &mut self,
        catalog: &Catalog,
        id: SiteId,
        stepper: &mut S,
    ) -> Result<Shown, NoMemory>
        requires may { IfSome (option_and_then (restart_asked catalog.now) (place_of id self.old.places))
            (λ a. S.may catalog.now a stepper.old) }
        ensures shown { IfOk result
            (λ line. shows (with_line line self.new) line ≡ restart catalog.now id self.old) }
        ensures sent { IfOk result (λ line. (with_line line self.new).sent ≡ self.old.sent) }
        ensures did { OnOk result
            (Did S.did (option_and_then (restart_asked catalog.now) (place_of id self.old.places)) stepper.old
            stepper.new) }
    {
        self.places.restart(catalog, id, stepper)
    }

    #[tactic(auto, unfolding(vp_model::specs::World::happens))]
    fn happen<S: Stepper>(
        &mut self,
        catalog: &Catalog,
        event: &Event,
        stepper: &mut S,
    ) -> Result<Shown, WorldEnd>
        requires few { length self.old.sent ≤ 2000000 }
        requires may { IsReady S.may catalog.now event.now self.old stepper.old }
        ensures does { Does (happens catalog.now event.now self.old) self.new result }
        ensures did { OnOk result (DoesEvent S.did catalog.now event.now self.old stepper.old stepper.new) }
    {
        match event {
            Event::Call { site, call } => {
                let input = LentInput::call(call);
                self.at_site(catalog, event, *site, &input, stepper)
            }
            Event::Deliver { k } => self.deliver(catalog, *k, stepper),
            Event::Flow { .. } => Ok(Shown::Nothing),
            Event::Tick { site } => {
                let input = LentInput::tick();
                self.at_site(catalog, event, *site, &input, stepper)
            }
            Event::Probe { site } => {
                let input = LentInput::probe();
                self.at_site(catalog, event, *site, &input, stepper)
            }
            Event::Cut { a, b } => {
                self.cuts.cut(*a, *b)?;
                Ok(Shown::Nothing)
            }
            Event::Heal { a, b } => {
                self.cuts.heal(*a, *b);
                Ok(Shown::Nothing)
            }
            Event::Crash { site } => Ok(self.crash(*site, stepper)),
            Event::Restart { site } => Ok(self.restart(catalog, *site, stepper)?),
        }
    }

    /// Does the event as one more step; the stepper does what it asks of a site. After an error the state may only be dropped.
    pub fn next<S: Stepper>(
        &mut self,
        catalog: &Catalog,
        event: &Event,
        stepper: &mut S,
    ) -> Result<Shown, WorldEnd>
        requires within { IsWithinLimits self.old }
        requires may { IsReady S.may catalog.now event.now self.old stepper.old }
        ensures shown { IfOk result
            (λ line. shows (with_line line self.new) line ≡ next catalog.now event.now self.old) }
        ensures within { IfOk result (λ line. IsWithinLimits (with_line line self.new)) }
        ensures end { Ends (refused world_limits catalog.now event.now self.old) result }
        ensures did { OnOk result (DoesEvent S.did catalog.now event.now self.old stepper.old stepper.new) }
    {
        self.count_step()?;
        self.happen(catalog, event, stepper)
    }
}
