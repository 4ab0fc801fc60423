//! Catalogues that are read, printed and refused.

use std::alloc::Global;
use vp_base::{NoMemory, RecId, SiteId, Sites};
use vp_catalog::{Catalog, CatalogFault, parse_site};
use vp_text::{Cursor, print_number};

/// The weight inside these members, and whether the record is accessible there.
fn weighed(catalog: &Catalog, rec: RecId, members: &Sites) -> (u32, bool) {
    (
        catalog.inside(rec, members),
        catalog.accessible(rec, members),
    )
}

#[test]
fn half_of_the_weight_is_not_enough(rt: HostRuntime) {
    let text = b"site 1 7001\nsite 2 7002\nsite 3 7003\nrecord y 5 1:2 2:1 3:1\n";
    let catalog = Catalog::read(rt.alloc(), text).expect(&rt, "a catalogue");
    let mut members = Sites::new(rt.alloc());
    members.push(SiteId::of(1)).expect(&rt, "memory");
    assert!(rt; weighed(&catalog, RecId::new(0), &members) == (2, false));
    members.push(SiteId::of(2)).expect(&rt, "memory");
    assert!(rt; weighed(&catalog, RecId::new(0), &members) == (3, true));
}

#[test]
fn weights_are_those_of_the_text(rt: HostRuntime) {
    let catalog = three_records(rt.alloc()).expect(&rt, "memory");
    assert_eq!(rt; catalog.weight(RecId::new(2), SiteId::of(1)), 3);
    assert_eq!(rt; catalog.total(RecId::new(0)), 2);
}

/// The site that is read of these two, which must be above a number, and how many bytes are left: 0 where none is read.
fn taken(first: u8, second: u8, above: u8, text: &[u8]) -> Option<(u8, usize)> {
    let mut cursor = Cursor::new(text);
    let sites = [SiteId::new(first)?, SiteId::new(second)?];
    Some(match parse_site(&mut cursor, &sites, above) {
        Ok(site) => (site.get(), cursor.left()),
        Err(fault) => (0, fault.left),
    })
}

#[test]
fn the_number_of_a_site_is_taken_as_far_as_it_goes(rt: HostRuntime) {
    assert!(rt; taken(1, 12, 0, b"12:") == Some((12, 1)));
    assert!(rt; taken(1, 12, 0, b"13:") == Some((1, 2)));
    assert!(rt; taken(1, 12, 0, b"1") == Some((1, 0)));
}

#[test]
fn the_number_of_a_site_is_at_fault_where_no_site_goes_on(rt: HostRuntime) {
    assert!(rt; taken(1, 12, 0, b"2:") == Some((0, 2)));
    assert!(rt; taken(2, 12, 0, b"13:") == Some((0, 2)));
    assert!(rt; taken(1, 12, 1, b"1:") == Some((0, 1)));
    assert!(rt; taken(1, 12, 0, b"01:") == Some((0, 3)));
    assert!(rt; taken(3, 5, 3, b"3:") == Some((0, 2)));
}

/// Appends what the text is read as.
fn tell(alloc: Global, text: &[u8], out: &mut Vec<u8>) -> Result<(), NoMemory> {
    let (word, line, at) = match Catalog::read(alloc, text) {
        Ok(_) => (b'a', 0, 0),
        Err(CatalogFault::BadLine { line, at }) => (b'b', line, at),
        Err(CatalogFault::Twice { line }) => (b't', line, 0),
        Err(CatalogFault::TooMany { line, .. }) => (b'm', line, 0),
        Err(CatalogFault::NoMemory) => (b'n', 0, 0),
    };
    out.push(word)?;
    print_number(out, line as u64)?;
    out.push(b'.')?;
    print_number(out, at as u64)?;
    Ok(out.push(b' ')?)
}

/// What each of the texts, which end with a bar, is read as after these lines: a catalogue (a), a bad line (b), a repeated line (t), a
/// line too many (m), with the line and the byte.
fn told(alloc: Global, lines: &[u8], texts: &[u8]) -> Result<Vec<u8>, NoMemory> {
    let mut out = Vec::new(alloc);
    let mut text = Vec::from_slice(alloc, lines)?;
    for byte in texts {
        if *byte == b'|' {
            tell(alloc, &text, &mut out)?;
            text = Vec::from_slice(alloc, lines)?;
        } else {
            text.push(*byte)?;
        }
    }
    Ok(out)
}

const SITES: &[u8] = b"|\
    site 1 7001|\
    site 1 7001\n|\
    site 17 7001\n|\
    site 0 7001\n|\
    site 1 0\n|\
    site 1 65536\n|\
    site 2 7002\nsite 1 7001\n|\
    site 7 7002\nsite 5 7001\n|\
    site 16 1\nsite 16 2\n|\
    record x 1 1:1\n|\
    site 1 7001\nsite 2 7001\n|\
    site 1 7001\n\n|";

#[test]
fn sites_are_refused_at_their_places(rt: HostRuntime) {
    let wanted = b"b1.1 b1.12 a0.0 b1.7 b1.6 b1.8 b1.12 b2.7 b2.6 b2.1 b1.1 t2.0 b2.1 ";
    assert_eq!(rt;
        told(rt.alloc(), b"", SITES)
            .expect(&rt, "memory")
            .as_slice(),
        wanted.as_slice()
    );
}

const RECORDS: &[u8] = b"\
    record x 1 1:1 12:65535\n|\
    record x 1\n|\
    record x 1 2:1\n|\
    record x 1 12:1 1:1\n|\
    record x 1 1:1 1:1\n|\
    record x 1 1:0\n|\
    record x 1 1:1|\
    record X 1 1:1\n|\
    record aaaaaaaaaaaaaaaaa 1 1:1\n|\
    record x 1 1:1\nsite 13 7003\n|\
    record x 1 1:1\nrecord x 2 1:1\n|\
    record x 1 1:1\nrecord x 2 1:1|\
    record x 1 1:1\nevents\n|";

#[test]
fn records_are_refused_at_their_places(rt: HostRuntime) {
    let sites = b"site 1 7001\nsite 12 7012\n";
    let wanted = b"a0.0 b3.11 b3.12 b3.16 b3.17 b3.14 b3.15 b3.8 b3.24 b4.1 t4.0 b4.15 b4.1 ";
    assert_eq!(rt;
        told(rt.alloc(), sites, RECORDS)
            .expect(&rt, "memory")
            .as_slice(),
        wanted.as_slice()
    );
}

/// A site and so many records of different names.
fn many(alloc: Global, count: u64) -> Result<Vec<u8>, NoMemory> {
    let mut text = Vec::from_slice(alloc, b"site 1 7001\n")?;
    for number in 0..count {
        text.extend_from_slice(b"record r")?;
        print_number(&mut text, number)?;
        text.extend_from_slice(b" 1 1:1\n")?;
    }
    Ok(text)
}

#[test]
fn the_record_after_256_is_too_many(rt: HostRuntime) {
    let most = many(rt.alloc(), 256).expect(&rt, "memory");
    let told = told(
        rt.alloc(),
        &most,
        b"|record r256 1 1:1\n|record r0 1 1:1\n|",
    )
    .expect(&rt, "memory");
    assert_eq!(rt; told.as_slice(), b"a0.0 m258.0 m258.0 ".as_slice());
}

#[test]
fn what_was_read_is_printed(rt: HostRuntime) {
    let text =
        b"site 1 7001\nsite 2 7002\nsite 16 65535\nrecord x 10 1:1 2:1 16:65535\nrecord y_2 ~! 2:7\n";
    let catalog = Catalog::read(rt.alloc(), text).expect(&rt, "a catalogue");
    let mut out = Vec::new(rt.alloc());
    catalog.print(&mut out).expect(&rt, "memory");
    assert!(rt; catalog.port(SiteId::of(16)) == Some(65535));
    assert_eq!(rt; out.as_slice(), text.as_slice());
}

/// Two sites and three records; site 1 has a copy of the first and the last.
fn three_records(alloc: Global) -> Result<Catalog, CatalogFault> {
    Catalog::read(
        alloc,
        b"site 1 7001\nsite 2 7002\nrecord x 10 1:1 2:1\nrecord y 5 2:1\nrecord z 7 1:3\n",
    )
}

/// The records of which the site has a copy, and 255 for each copy whose date isn't the opening view.
fn starting(alloc: Global, catalog: &Catalog, site: SiteId) -> Result<Vec<u8>, NoMemory> {
    let mut recs = Vec::new(alloc);
    for (rec, stored) in catalog.copies(site)?.as_slice() {
        recs.push(if stored.date.number == 0 {
            rec.get()
        } else {
            255
        })?;
    }
    Ok(recs)
}

#[test]
fn copies_start_in_the_opening_view(rt: HostRuntime) {
    let catalog = three_records(rt.alloc()).expect(&rt, "memory");
    let recs = starting(rt.alloc(), &catalog, SiteId::of(1)).expect(&rt, "memory");
    assert_eq!(rt; recs.as_slice(), [0u8, 2].as_slice());
}

#[test]
fn each_record_has_a_name_and_a_value(rt: HostRuntime) {
    let catalog = three_records(rt.alloc()).expect(&rt, "memory");
    assert_eq!(rt; catalog.names().expect(&rt, "memory").as_slice().len(), 3);
    assert_eq!(rt; catalog.starts().expect(&rt, "memory").len(), 3);
}

#[test]
fn without_a_view_there_are_no_other_holders(rt: HostRuntime) {
    let catalog = three_records(rt.alloc()).expect(&rt, "memory");
    assert!(rt; !catalog.is_holder(RecId::new(1), SiteId::of(1)));
    let others = catalog
        .other_holders(SiteId::of(1), None, RecId::new(0))
        .expect(&rt, "memory");
    assert_eq!(rt; others.as_slice().len(), 0);
}
