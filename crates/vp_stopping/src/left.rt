//! The events of a schedule that are left, done as one single step after the other.

ghost use Rattle.std.specs.Prelude.{◌≡◌, ◌+◌, ◌≤◌, IfOk, OnOk, map};
ghost use Rattle.std.specs.List.{AllByRecursion};
ghost use Rattle.vp_stopping.specs.Left.{next_single, left_then, CanRise};
ghost use Rattle.vp_runs.specs.Stopped.{raise_number};

use std::alloc::Global;
use std::collections::VecDeque;
use std::marker::Model;
use vp_base::{CopyOf, Event, NoMemory};
use vp_world::World;

/// The events that are left; of a flow in progress, the deliveries that are.
#[derive(Drop)]
pub struct Left {
    events: VecDeque<Event>,
}

impl Model for Left {
    ghost use Rattle.std.specs.Prelude.{List};
    ghost use Rattle.vp_model.specs.Types.{Event};

    ghost Value = { List Event };

    ghost view = { λ l. l.events.items };
}

/// Raises the number of the message in a delivery, if it is not below the first, by `count`.
fn raise_number(event: Event, first: u32, count: u32) -> Event
    requires rises { CanRise event }
    requires few { count ≤ 2000000 }
    ensures { result ≡ raise_number first count event }
{
    match event {
        Event::Deliver { k } if first <= k => Event::Deliver { k: k + count },
        other => other,
    }
}

impl Left {
    /// Begins with all of these events left.
    pub fn of(alloc: Global, events: &[Event]) -> Result<Left, NoMemory>
        ensures { IfOk result (λ left. left ≡ events.now) }
    {
        let mut left = VecDeque::new(alloc);
        for event in events {
            left.push_back(event.copy_of()?)?;
        }
        Ok(Left { events: left })
    }

    /// Takes the next single step in this world; none where no event is left that has one.
    pub fn next(&mut self, world: &World) -> Result<Option<Event>, NoMemory>
        ensures next { IfOk result (λ event. event ≡ next_single world.now.world self.old) }
        ensures left { OnOk result (self.new ≡ left_then world.now.world self.old) }
    {
        while let Some(event) = self.events.pop_front() {
            match event {
                Event::Flow { count } => {
                    if count > 0
                        && let Some(k) = world.flowing()
                    {
                        self.events.push_front(Event::Flow { count: count - 1 })?;
                        return Ok(Some(Event::Deliver { k }));
                    }
                }
                single => return Ok(Some(single)),
            }
        }
        Ok(None)
    }

    /// Raises the numbers of messages in the deliveries that are left, from the first number on, by `count`: so they keep their messages.
    pub fn raise(&mut self, first: u32, count: u32) -> Result<(), NoMemory>
        requires rise { AllByRecursion CanRise self.old }
        requires few { count ≤ 2000000 }
        ensures { OnOk result (self.new ≡ map (raise_number first count) self.old) }
    {
        let mut events = VecDeque::new(*self.events.allocator());
        while let Some(event) = self.events.pop_front() {
            events.push_back(raise_number(event, first, count))?;
        }
        self.events = events;
        Ok(())
    }
}
