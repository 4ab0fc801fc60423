ghost use Rattle.std.specs.Prelude.{◌≡◌, ◌≤◌, None, length};

use bytes::Bytes;
use std::alloc::{AllocError, Global};
use std::test::Fail;
use vp_outside::{Datagram, Failed, Link, MOST_GIVEN, MemLink, OutFault, SureLink};

fn datagram(alloc: Global, port: u16, bytes: &[u8]) -> Result<Datagram, AllocError> {
    Ok(Datagram {
        port,
        bytes: Bytes::copy_from_slice(alloc, bytes)?,
    })
}

/// What the link gives: the port, the length and the first three bytes.
fn given(link: &mut MemLink) -> Result<(u16, usize, [u8; 3]), Failed> {
    let mut buf = [b'-'; MOST_GIVEN];
    let (port, count) = link.receive(&mut buf)?;
    Ok((port, count, [buf[0], buf[1], buf[2]]))
}

#[test]
fn a_link_gives_its_datagrams_in_order(rt: HostRuntime) {
    let alloc = rt.alloc();
    let datagrams = vec![in alloc;
        datagram(alloc, 7100, b"ab").expect(&rt, "no fault"),
        datagram(alloc, 7002, b"").expect(&rt, "no fault"),
    ]
    .expect(&rt, "no fault");
    let mut link = MemLink::new(alloc, datagrams, vec![in alloc; 2].expect(&rt, "no fault"));
    assert!(rt; given(&mut link) == Ok((7100, 2, *b"ab-")));
    assert!(rt; given(&mut link) == Err(Failed));
    assert!(rt; given(&mut link) == Ok((7002, 0, *b"---")));
    assert!(rt; given(&mut link) == Err(Failed), "all were given");
    assert!(rt; link.faults() == 2 && link.losses() == 0);
}

/// Whether the last datagram that was handed over is this one, the second of two.
fn keeps(link: &MemLink, port: u16, bytes: &[u8]) -> bool {
    match link.handed() {
        [_, last] => last.datagram.port == port && last.datagram.bytes.as_slice() == bytes,
        _ => false,
    }
}

#[test]
fn a_planned_call_of_a_link_fails_and_what_was_handed_over_is_kept(rt: HostRuntime) {
    let alloc = rt.alloc();
    let mut link = MemLink::new(
        alloc,
        Vec::new(alloc),
        vec![in alloc; 1, 3].expect(&rt, "no fault"),
    );
    assert!(rt; link.bind(7001) == Err(Failed));
    assert!(rt; link.send(7100, b"x") == Ok(()));
    assert!(rt; link.send(7002, b"yz") == Err(OutFault::Failed));
    assert!(rt; keeps(&link, 7002, b"yz"));
    assert!(rt; link.faults() == 1 && link.losses() == 1);
}

/// What a link that is bound to any port gives, through the trait alone.
fn first_two<L: Link>(link: &mut L, buf: &mut [u8]) -> Result<[(u16, usize); 2], Failed>
    requires fresh { (L.state link.old).asked ≡ None }
    requires room { 16384 ≤ length buf.old }
{
    link.bind(0)?;
    let first = link.receive(buf)?;
    Ok([first, link.receive(buf)?])
}

#[test]
fn a_long_datagram_is_cut_and_a_link_that_is_sure_goes_on_with_empty_ones(rt: HostRuntime) {
    let alloc = rt.alloc();
    let long = vec![in alloc; 7; MOST_GIVEN + 1].expect(&rt, "no fault");
    let mut link = SureLink::new(
        alloc,
        vec![in alloc; datagram(alloc, 7100, &long).expect(&rt, "no fault")].expect(
            &rt, "no fault",
        ),
    );
    let mut buf = [0; MOST_GIVEN + 1];
    assert!(rt; first_two(&mut link, &mut buf) == Ok([(7100, MOST_GIVEN), (0, 0)]));
    assert!(rt; buf[MOST_GIVEN - 1] == 7 && buf[MOST_GIVEN] == 0);
    assert_eq!(rt; link.faults(), 0);
}

#[test]
fn what_is_handed_over_has_the_count_of_what_was_given(rt: HostRuntime) {
    let alloc = rt.alloc();
    let one = datagram(alloc, 7100, b"abc").expect(&rt, "no fault");
    let datagrams = vec![in alloc; one].expect(&rt, "no fault");
    let mut link = MemLink::new(alloc, datagrams, Vec::new(alloc));
    assert!(rt; link.send(7100, b"x") == Ok(()));
    assert!(rt; given(&mut link) == Ok((7100, 3, *b"abc")));
    assert!(rt; link.send(7100, b"y") == Ok(()));
    assert!(rt; matches!(link.handed(), [first, last] if first.after == 0 && last.after == 1));
}
