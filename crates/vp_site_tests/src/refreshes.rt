//! Which sites are asked, and which copy is taken, at site 1 of three sites in the view.

use std::alloc::Global;
use std::process::Abort;
use vp_base::{CopyOf, RecId, SiteId, Sites, Stored, Value, View, ViewId};
use vp_catalog::Catalog;
use vp_refresh::{Done, Refresh};

/// The index of x.
const X: u8 = 0;

fn catalog(rt: &impl Abort, alloc: Global) -> Catalog {
    let text = b"site 1 7001\nsite 2 7002\nsite 3 7003\nsite 4 7004\nrecord x 10 1:1 2:1 3:1 4:1\n";
    Catalog::read(alloc, text).expect(rt, "a catalogue")
}

/// The view 9@2 of the sites 1, 2 and 3.
fn view(rt: &impl Abort, alloc: Global) -> View {
    let mut members = Sites::new(alloc);
    for number in [1, 2, 3] {
        members.push(SiteId::of(number)).expect(rt, "memory");
    }
    let id = ViewId { number: 9, site: 2 };
    View { id, members }
}

fn stored(rt: &impl Abort, alloc: Global, text: &[u8], number: u64) -> Stored {
    Stored {
        value: Some(Value::read(alloc, text).expect(rt, "a value")),
        table: None,
        date: ViewId { number, site: 1 },
    }
}

/// How many sites have not answered for x.
fn missing(rt: &impl Abort, alloc: Global, refresh: &Refresh) -> Option<usize> {
    let catalog = catalog(rt, alloc);
    let view = view(rt, alloc);
    let sites = refresh
        .missing(&catalog, SiteId::of(1), Some(&view), RecId::new(X))
        .expect(rt, "memory");
    match sites {
        Some(sites) => Some(sites.as_slice().len()),
        None => None,
    }
}

/// Keeps the copy of x that the site answers with.
fn keep_answer(rt: &impl Abort, refresh: &mut Refresh, from: SiteId, copy: Stored) {
    refresh
        .on_answer(from, RecId::new(X), &copy)
        .expect(rt, "memory");
}

#[test]
fn other_holders_in_the_view_are_missing_until_they_answer(rt: HostRuntime) {
    let alloc = rt.alloc();
    let mut refresh = Refresh::none(alloc);
    assert!(rt; missing(&rt, alloc, &refresh).is_none());
    refresh.begin(RecId::new(X)).expect(&rt, "memory");
    assert!(rt; missing(&rt, alloc, &refresh) == Some(2));
    let copy = stored(&rt, alloc, b"11", 3);
    keep_answer(&rt, &mut refresh, SiteId::of(2), copy);
    let copied = refresh.copy_of().expect(&rt, "memory");
    assert!(rt; missing(&rt, alloc, &copied) == Some(1));
    refresh.unlist(RecId::new(X));
    assert!(rt; refresh.as_slice().is_empty());
}

/// What comes out of the refresh of x, of which the sites of the view have three of the four copies.
fn done(rt: &impl Abort, alloc: Global, refresh: &Refresh, own: &Stored) -> Done {
    refresh
        .done(
            &catalog(rt, alloc),
            &view(rt, alloc).members,
            RecId::new(X),
            own,
        )
        .expect(rt, "memory")
        .expect(rt, "a copy")
}

/// Whether this value is taken if the own copy and those of the sites 3 and 2 have these dates.
fn is_taken(rt: &impl Abort, alloc: Global, own: u64, three: u64, two: u64, wanted: &[u8]) -> bool {
    let mut refresh = Refresh::none(alloc);
    refresh.begin(RecId::new(X)).expect(rt, "memory");
    let copy = stored(rt, alloc, b"three", three);
    keep_answer(rt, &mut refresh, SiteId::of(3), copy);
    let copy = stored(rt, alloc, b"two", two);
    keep_answer(rt, &mut refresh, SiteId::of(2), copy);
    let own = stored(rt, alloc, b"own", own);
    let done = done(rt, alloc, &refresh, &own);
    (done.inside, done.total) == (3, 4)
        && matches!(done.into_stored().into_value(), Some(value) if value.is(wanted))
}

#[test]
fn the_newest_copy_is_taken(rt: HostRuntime) {
    let alloc = rt.alloc();
    assert!(rt; is_taken(&rt, alloc, 5, 5, 5, b"own"));
    assert!(rt; is_taken(&rt, alloc, 4, 5, 5, b"two"));
    assert!(rt; is_taken(&rt, alloc, 4, 6, 5, b"three"));
}
