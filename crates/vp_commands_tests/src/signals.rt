//! Signals over a link in memory.

use crate::outcomes::{is_all, is_defined};
use crate::{PORT, STOP};
use std::alloc::Global;
use std::process::Abort;
use vp_base::SiteId;
use vp_outside::MemLink;
use vp_status::Status;
use vp_top::signal_site;
use vp_words::Signal;

/// Whether the signal to site 3 is this frame.
fn has_frame(rt: &impl Abort, alloc: Global, signal: Signal, frame: &[u8]) -> bool {
    let mut link = MemLink::new(alloc, Vec::new(alloc), Vec::new(alloc));
    let defined = signal_site(alloc, &mut link, PORT, SiteId::of(3), signal).expect(rt, "memory");
    is_defined(&defined, Status::Done, b"") && is_all(link.handed(), frame)
}

#[test]
fn each_signal_has_its_frame(rt: HostRuntime) {
    for (signal, frame) in [
        (Signal::Tick, b"\x56\x02\x22\0\x03"),
        (Signal::Probe, b"\x56\x02\x23\0\x03"),
        (Signal::Stop, b"\x56\x02\x24\0\x03"),
    ] {
        assert!(rt; has_frame(&rt, rt.alloc(), signal, frame), "at {signal:?}");
    }
}

/// Whether the link's fault is reported if its call with this number fails. The frame was handed over, unless the port wasn't bound.
fn tells_fault(rt: &impl Abort, alloc: Global, call: u64) -> bool {
    let calls = vec![in alloc; call].expect(rt, "memory");
    let mut link = MemLink::new(alloc, Vec::new(alloc), calls);
    let defined = signal_site(alloc, &mut link, PORT, SiteId::of(1), Signal::Stop).expect(
        rt, "memory",
    );
    let is_handed = if call == 1 {
        link.handed().is_empty()
    } else {
        is_all(link.handed(), STOP)
    };
    is_handed && is_defined(&defined, Status::LinkFault, b"link fault\n")
}

// Call 1 binds, call 2 sends.
#[test]
fn a_call_of_the_link_that_fails_is_told(rt: HostRuntime) {
    for call in 1..=2u64 {
        assert!(rt; tells_fault(&rt, rt.alloc(), call), "at {call}");
    }
}
