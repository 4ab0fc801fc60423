//! A client's call over a link in memory.

ghost use Rattle.std.specs.Prelude.{◌≡◌, None};

use crate::outcomes::{is_all, is_defined};
use crate::{BEGIN, BEGUN, PORT, datagram};
use std::alloc::{AllocError, Global};
use std::process::Abort;
use vp_base::{Call, NoMemory, SiteId};
use vp_outside::{Datagram, Link, MemLink};
use vp_status::{RunOutput, Status};
use vp_top::call_site;

/// What is defined for a begin at site 1, from port 7100.
fn begin<L: Link>(alloc: Global, link: &mut L, turns: u64) -> Result<RunOutput, NoMemory>
    requires fresh { (L.state link.old).asked ≡ None }
{
    call_site(alloc, link, 7100, PORT, SiteId::of(1), &Call::Begin, turns)
}

/// The answer from another port, and then from that of site 1.
fn two_answers(alloc: Global) -> Result<Vec<Datagram>, AllocError> {
    let mut datagrams = Vec::new(alloc);
    for port in [7002, PORT] {
        datagrams.push(datagram(alloc, port, BEGUN)?)?;
    }
    Ok(datagrams)
}

#[test]
fn the_answer_is_told(rt: HostRuntime) {
    let datagrams = two_answers(rt.alloc()).expect(&rt, "memory");
    let mut link = MemLink::new(rt.alloc(), datagrams, Vec::new(rt.alloc()));
    let defined = begin(rt.alloc(), &mut link, 2).expect(&rt, "memory");
    assert!(rt; is_defined(&defined, Status::Done, b"begun 1.1.1 0@0\n"));
    assert!(rt; is_all(link.handed(), BEGIN));
}

#[test]
fn as_many_datagrams_without_the_answer_are_told(rt: HostRuntime) {
    for turns in [0, 1] {
        let datagrams = two_answers(rt.alloc()).expect(&rt, "memory");
        let mut link = MemLink::new(rt.alloc(), datagrams, Vec::new(rt.alloc()));
        let defined = begin(rt.alloc(), &mut link, turns).expect(&rt, "memory");
        assert!(rt;
            is_defined(&defined, Status::NoAnswer, b"no answer\n") && is_all(link.handed(), BEGIN),
            "after {turns}"
        );
    }
}

/// Whether the link's fault is reported if its call with this number fails. The frame was handed over, unless the port wasn't bound.
fn tells_fault(rt: &impl Abort, alloc: Global, call: u64) -> bool {
    let calls = vec![in alloc; call].expect(rt, "memory");
    let mut link = MemLink::new(alloc, Vec::new(alloc), calls);
    let defined = begin(alloc, &mut link, 1).expect(rt, "memory");
    let is_handed = if call == 1 {
        link.handed().is_empty()
    } else {
        is_all(link.handed(), BEGIN)
    };
    is_handed && is_defined(&defined, Status::LinkFault, b"link fault\n")
}

// Call 1 binds, call 2 sends, call 3 receives.
#[test]
fn a_call_of_the_link_that_fails_is_told(rt: HostRuntime) {
    for call in 1..=3u64 {
        assert!(rt; tells_fault(&rt, rt.alloc(), call), "at {call}");
    }
}
