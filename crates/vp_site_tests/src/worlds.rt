//! A site that crashes and starts again, a message between two sites that are cut, and a number that no message can have.

use std::alloc::Global;
use std::process::Abort;
use vp_base::{Call, Event, Line, Shown, SiteId};
use vp_catalog::Catalog;
use vp_world::World;

/// Two sites.
fn new_world(rt: &impl Abort, alloc: Global) -> World {
    let text = b"site 1 7001\nsite 2 7002\n";
    let catalog = Catalog::read(alloc, text).expect(rt, "a catalogue");
    World::new(catalog).expect(rt, "memory")
}

fn next(rt: &impl Abort, world: World, event: Event) -> (World, Line) {
    world.next(&event).ok().expect(rt, "a world that goes on")
}

/// The world after the event.
fn following(rt: &impl Abort, world: World, event: Event) -> World {
    let (world, _) = next(rt, world, event);
    world
}

/// The line of the event.
fn line_of(rt: &impl Abort, world: World, event: Event) -> Line {
    let (_, line) = next(rt, world, event);
    line
}

#[test]
fn a_site_starts_in_its_second_life(rt: HostRuntime) {
    let site = SiteId::of(2);
    let down = following(&rt, new_world(&rt, rt.alloc()), Event::Crash { site });
    let line = line_of(&rt, down, Event::Restart { site });
    assert!(rt; matches!(line.shown, Shown::Life { life: 2 }));
}

// Site 1 has sent site 2 an invitation.
#[test]
fn a_cut_pair_waits(rt: HostRuntime) {
    let (a, b) = (SiteId::of(2), SiteId::of(1));
    let invite = Event::Call {
        site: b,
        call: Call::Regroup,
    };
    let inviting = following(&rt, new_world(&rt, rt.alloc()), invite);
    let parted = following(&rt, inviting, Event::Cut { a, b });
    let line = line_of(&rt, parted, Event::Deliver { k: 1 });
    assert!(rt; matches!(line.shown, Shown::Parted { .. }));
}

// A world has at most 2,000,000 messages.
#[test]
fn no_message_has_a_number_above_the_limit(rt: HostRuntime) {
    let line = line_of(
        &rt,
        new_world(&rt, rt.alloc()),
        Event::Deliver { k: 2_000_001 },
    );
    assert!(rt; matches!(line.shown, Shown::NoMessage));
}
