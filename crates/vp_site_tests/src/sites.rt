//! A site that starts, and starts again.

use std::alloc::Global;
use std::process::Abort;
use vp_base::{Answer, Call, Effects, Input, SiteId};
use vp_catalog::Catalog;
use vp_records::Durable;
use vp_site::Site;

/// A catalogue of two sites.
fn catalog(rt: &impl Abort, alloc: Global) -> Catalog {
    let text = b"site 1 7001\nsite 2 7002\nrecord x 10 1:1 2:1\n";
    Catalog::read(alloc, text).expect(rt, "a catalogue")
}

/// The durable part of the site before its first life.
fn before_lives(rt: &impl Abort, catalog: &Catalog) -> Durable {
    let copies = catalog.copies(SiteId::of(1)).expect(rt, "memory");
    Durable::empty(copies)
}

fn started(rt: &impl Abort, catalog: &Catalog, durable: Durable) -> Site {
    let start = Site::start(catalog, SiteId::of(1), durable);
    let (site, _) = start.ok().expect(rt, "a life");
    site
}

/// The durable part of the site after the start of its first life, if nothing comes to it.
fn first_life(rt: &impl Abort, catalog: &Catalog) -> Durable {
    let site = started(rt, catalog, before_lives(rt, catalog));
    site.durable().expect(rt, "memory")
}

fn is_begun(effects: &Effects) -> bool {
    match effects.replies.as_slice() {
        [reply] => matches!(reply.answer, Answer::Begun { .. }),
        _ => false,
    }
}

/// Whether a client begins a transaction at a site that starts with the durable part.
fn begins(rt: &impl Abort, catalog: &Catalog, durable: Durable) -> bool {
    let begin = Input::Call {
        from: 9,
        call: Call::Begin,
    };
    let site = started(rt, catalog, durable);
    let (_, effects) = site.step(catalog, &begin).expect(rt, "memory");
    is_begun(&effects)
}

#[test]
fn a_site_is_in_the_opening_view_in_its_first_life_and_not_in_its_second(rt: HostRuntime) {
    let catalog = catalog(&rt, rt.alloc());
    let durable = before_lives(&rt, &catalog);
    assert!(rt; begins(&rt, &catalog, durable));
    let durable = first_life(&rt, &catalog);
    assert_eq!(rt; durable.life(), 1);
    assert!(rt; !begins(&rt, &catalog, durable));
}
