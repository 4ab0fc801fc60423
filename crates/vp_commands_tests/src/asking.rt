//! Asking over a link in memory.

ghost use Rattle.std.specs.Prelude.{◌≡◌, None};

use bytes::Bytes;
use std::alloc::{AllocError, Global};
use std::process::Abort;
use vp_base::{Answer, Call, SiteId};
use vp_client::{AskFault, ask};
use vp_outside::{Datagram, Dispatch, Link, MemLink, SureLink};

/// The port of site 1.
const PORT: u16 = 7001;

/// The call to begin, to site 1.
const BEGIN: &[u8] = b"\x56\x02\x20\0\x01\x01";

/// Begun 1.1.1 in the opening view, from site 1.
const BEGUN: &[u8] = b"\x56\x02\x21\x01\0\x01\x01\0\0\0\x01\0\0\0\x01\0\0\0\0\0\0\0\0\0";

/// The same in the first version.
const BEGUN_OF_OLD: &[u8] = b"\x56\x01\x21\x01\0\x01\x01\0\0\0\x01\0\0\0\x01\0\0\0\0\0\0\0\0\0";

/// The answer with a byte after it.
const LONGER: &[u8] = b"\x56\x02\x21\x01\0\x01\x01\0\0\0\x01\0\0\0\x01\0\0\0\0\0\0\0\0\0\0";

/// Inviting to 1@1, from site 1: no answer to a begin.
const INVITING: &[u8] = b"\x56\x02\x21\x01\0\x06\0\0\0\0\0\0\0\x01\x01";

fn datagram(alloc: Global, port: u16, bytes: &[u8]) -> Result<Datagram, AllocError> {
    Ok(Datagram {
        port,
        bytes: Bytes::copy_from_slice(alloc, bytes)?,
    })
}

/// The result of a begin at site 1 over this link, which is bound to a port of its own.
fn begin<L: Link>(alloc: Global, link: &mut L, turns: u64) -> Result<Answer, AskFault>
    requires fresh { (L.state link.old).asked ≡ None }
{
    link.bind(7100)?;
    ask(alloc, link, PORT, SiteId::of(1), &Call::Begin, turns)
}

/// Whether the frame of the begin was handed over to the site's port, before any datagram was given, and nothing else.
fn is_begin(handed: &[Dispatch]) -> bool {
    match handed {
        [call] => {
            call.after == 0 && call.datagram.port == PORT && call.datagram.bytes.as_slice() == BEGIN
        }
        _ => false,
    }
}

#[test]
fn the_call_is_sent_and_as_many_datagrams_are_taken_as_are_asked_for(rt: HostRuntime) {
    let alloc = rt.alloc();
    let mut link = SureLink::new(alloc, Vec::new(alloc));
    let answer = begin(alloc, &mut link, 2);
    assert!(rt; matches!(answer, Err(AskFault::NoAnswer { turns: 2 })));
    assert!(rt; is_begin(link.handed()));
}

/// These come one after the other: a reply from another port, bytes that are no frame, an answer to another call, a frame with a byte
/// after it, and the answer, in this version.
fn among_others(alloc: Global, answer: &[u8]) -> Result<Vec<Datagram>, AllocError> {
    let mut datagrams = Vec::new(alloc);
    for (port, bytes) in [
        (7002, BEGUN),
        (PORT, b"\x56".as_slice()),
        (PORT, INVITING),
        (PORT, LONGER),
        (PORT, answer),
    ] {
        datagrams.push(datagram(alloc, port, bytes)?)?;
    }
    Ok(datagrams)
}

/// The result of a begin if they come.
fn answered(rt: &impl Abort, alloc: Global, begun: &[u8], turns: u64) -> Result<Answer, AskFault> {
    let datagrams = among_others(alloc, begun).expect(rt, "memory");
    let mut link = SureLink::new(alloc, datagrams);
    begin(alloc, &mut link, turns)
}

#[test]
fn the_first_answer_from_the_port_of_the_site_is_taken(rt: HostRuntime) {
    for begun in [BEGUN, BEGUN_OF_OLD] {
        let answer = answered(&rt, rt.alloc(), begun, 5);
        assert!(rt; matches!(answer, Ok(Answer::Begun { .. })));
    }
    let answer = answered(&rt, rt.alloc(), BEGUN, 4);
    assert!(rt; matches!(answer, Err(AskFault::NoAnswer { turns: 4 })));
}

/// Whether the link's fault is returned if its call with this number fails, with the call handed over.
fn tells_fault(rt: &impl Abort, alloc: Global, call: u64) -> bool {
    let calls = vec![in alloc; call].expect(rt, "memory");
    let mut link = MemLink::new(alloc, Vec::new(alloc), calls);
    let answer = begin(alloc, &mut link, 1);
    matches!(answer, Err(AskFault::LinkFault)) && is_begin(link.handed())
}

// Call 1 binds, call 2 sends, call 3 receives.
#[test]
fn a_call_of_the_link_that_fails_is_told(rt: HostRuntime) {
    assert!(rt; tells_fault(&rt, rt.alloc(), 2));
    assert!(rt; tells_fault(&rt, rt.alloc(), 3));
    assert!(rt;
        !tells_fault(&rt, rt.alloc(), 1),
        "no frame was handed over"
    );
}
