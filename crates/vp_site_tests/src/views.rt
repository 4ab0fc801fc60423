//! Two sites that agree on a view, and a site that hears too few others.

use std::alloc::Global;
use std::process::Abort;
use vp_base::{CopyOf, Effects, OPENING, SiteId, Sites, View, ViewId};
use vp_catalog::Catalog;
use vp_views::Views;

const FIRST: ViewId = ViewId { number: 1, site: 1 };

const HIGH: ViewId = ViewId { number: 7, site: 3 };

/// A catalogue of three sites.
fn catalog(rt: &impl Abort, alloc: Global) -> Catalog {
    let text = b"site 1 7001\nsite 2 7002\nsite 3 7003\nrecord x 10 1:1 2:1 3:1\n";
    Catalog::read(alloc, text).expect(rt, "a catalogue")
}

/// A site of three in the opening view.
fn opening(rt: &impl Abort, catalog: &Catalog, site: SiteId) -> Views {
    Views::start(catalog, site, OPENING, true).expect(rt, "memory")
}

/// Site 1 invites the others to the view 1@1, which is fixed when site 2 has accepted.
fn agree(rt: &impl Abort, catalog: &Catalog, site: &mut Views, effects: &mut Effects) {
    site.leave();
    site.invite(catalog, effects).expect(rt, "memory");
    site.on_accept(SiteId::of(2), FIRST).expect(rt, "memory");
    site.fix(effects).expect(rt, "memory");
}

/// Whether a site that has left its view is invited to the view 1@1 with these members, and joins it.
fn joins(rt: &impl Abort, site: &mut Views, members: Sites, effects: &mut Effects) -> bool {
    site.leave();
    site.on_invite(SiteId::of(1), FIRST, effects)
        .expect(rt, "memory");
    site.on_commit(&View { id: FIRST, members })
        .expect(rt, "memory")
}

/// The sites 1 and 2.
fn both(rt: &impl Abort, alloc: Global) -> Sites {
    let mut sites = Sites::new(alloc);
    sites.push(SiteId::of(1)).expect(rt, "memory");
    sites.push(SiteId::of(2)).expect(rt, "memory");
    sites
}

#[test]
fn a_view_is_agreed(rt: HostRuntime) {
    let catalog = catalog(&rt, rt.alloc());
    let mut effects = Effects::none(rt.alloc());
    let mut first = opening(&rt, &catalog, SiteId::of(1));
    agree(&rt, &catalog, &mut first, &mut effects);
    assert_eq!(rt; effects.messages.as_slice().len(), 3);
    let mut second = opening(&rt, &catalog, SiteId::of(2));
    assert!(rt; joins(&rt, &mut second, both(&rt, rt.alloc()), &mut effects));
}

/// Whether site 1 wants another view after probes, if it has heard these sites.
fn wants_view(rt: &impl Abort, alloc: Global, heard: &[u8]) -> bool {
    let catalog = catalog(rt, alloc);
    let mut site = opening(rt, &catalog, SiteId::of(1));
    site.probe(&catalog, &mut Effects::none(alloc))
        .expect(rt, "memory");
    for number in heard {
        let other = SiteId::new(*number).expect(rt, "a site");
        site.heard(other).expect(rt, "memory");
    }
    site.wants_view()
}

#[test]
fn a_site_that_hears_too_little_wants_a_view(rt: HostRuntime) {
    assert!(rt; wants_view(&rt, rt.alloc(), &[2]));
    assert!(rt; !wants_view(&rt, rt.alloc(), &[2, 3]));
    assert!(rt; wants_view(&rt, rt.alloc(), &[2, 3, 4]));
}

/// Whether the site holds the view with so many members.
fn holds(site: &Views, id: ViewId, count: usize) -> bool {
    match site.held() {
        None => false,
        Some(view) => view.id == id && view.members.as_slice().len() == count,
    }
}

/// What a copy of a site hears, the site itself doesn't.
#[test]
fn a_copy_of_a_site_that_listens_listens_for_itself(rt: HostRuntime) {
    let catalog = catalog(&rt, rt.alloc());
    let mut site = opening(&rt, &catalog, SiteId::of(1));
    site.probe(&catalog, &mut Effects::none(rt.alloc()))
        .expect(&rt, "memory");
    site.heard(SiteId::of(2)).expect(&rt, "memory");
    let mut copy = site.copy_of().expect(&rt, "memory");
    assert!(rt; holds(&copy, OPENING, 3) && copy.wants_view());
    copy.heard(SiteId::of(3)).expect(&rt, "memory");
    assert!(rt; !copy.wants_view() && site.wants_view());
}

#[test]
fn a_copy_of_a_site_that_invites_has_who_accepted(rt: HostRuntime) {
    let catalog = catalog(&rt, rt.alloc());
    let mut effects = Effects::none(rt.alloc());
    let mut site = opening(&rt, &catalog, SiteId::of(1));
    site.leave();
    site.invite(&catalog, &mut effects).expect(&rt, "memory");
    site.on_accept(SiteId::of(2), FIRST).expect(&rt, "memory");
    let mut copy = site.copy_of().expect(&rt, "memory");
    assert!(rt; copy.inviting() == Some(FIRST) && copy.promise() == FIRST);
    assert!(rt; copy.fix(&mut effects).expect(&rt, "memory"));
    assert!(rt; holds(&copy, FIRST, 2));
    assert!(rt; site.inviting() == Some(FIRST) && site.held().is_none());
}

#[test]
fn a_site_stops_waiting(rt: HostRuntime) {
    let mut site = opening(&rt, &catalog(&rt, rt.alloc()), SiteId::of(2));
    site.leave();
    site.on_invite(SiteId::of(3), HIGH, &mut Effects::none(rt.alloc()))
        .expect(&rt, "memory");
    site.stop_waiting();
    assert!(rt; site.waiting().is_none() && site.promise() == HIGH);
}
