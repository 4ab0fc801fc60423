//! A frame that comes to a node cut short.

use std::alloc::{AllocError, Global};
use vp_base::SiteId;
use vp_commands_tests::{Setup, datagram};
use vp_outside::Datagram;
use vp_status::Status;

const CATALOGUE: &[u8] = b"site 1 7001\nsite 2 7002\nsite 3 7003\nrecord x 10 1:1 2:1 3:1\n";

/// The copy 11 of x, of the opening view, which site 3 sends site 2 in view 1@2.
const COPY: &[u8] =
    b"\x56\x02\x10\x03\x02\0\0\0\0\0\0\0\x01\x02\0\x01\0\x02\x31\x31\0\0\0\0\0\0\0\0\0\0";

/// The same in the first version.
const COPY_OF_OLD: &[u8] =
    b"\x56\x01\x10\x03\x02\0\0\0\0\0\0\0\x01\x02\0\x02\x31\x31\0\0\0\0\0\0\0\0\0";

/// What site 2 prints of each beginning of it, and of the whole, which it doesn't wait for.
const RECORDING: &str = "start 1\n\
bad 0\nbad 1\nbad 2\nbad 3\nbad 4\nbad 5\nbad 6\nbad 7\nbad 8\n\
bad 9\nbad 10\nbad 11\nbad 12\nbad 13\nbad 14\nbad 15\nbad 16\nbad 17\n\
bad 18\nbad 19\nbad 20\nbad 21\nbad 22\nbad 23\nbad 24\nbad 25\nbad 26\n\
bad 27\nbad 28\nbad 29\n\
in 560210030200000000000000010200010002313100000000000000000000\n\
link fault\n";

const RECORDING_OF_OLD: &str = "start 1\n\
bad 0\nbad 1\nbad 2\nbad 3\nbad 4\nbad 5\nbad 6\nbad 7\nbad 8\n\
bad 9\nbad 10\nbad 11\nbad 12\nbad 13\nbad 14\nbad 15\nbad 16\nbad 17\n\
bad 18\nbad 19\nbad 20\nbad 21\nbad 22\nbad 23\nbad 24\nbad 25\nbad 26\n\
in 560110030200000000000000010200023131000000000000000000\n\
link fault\n";

/// The beginnings of the bytes, from site 3.
fn beginnings(alloc: Global, bytes: &[u8]) -> Result<Vec<Datagram>, AllocError> {
    let mut datagrams = Vec::new(alloc);
    for count in 0..=bytes.len() {
        datagrams.push(datagram(alloc, 7003, &bytes[..count])?)?;
    }
    Ok(datagrams)
}

#[test]
fn each_beginning_of_a_frame_is_bad_where_it_ends(rt: HostRuntime) {
    let setup = Setup {
        catalogue: CATALOGUE,
        site: SiteId::of(2),
        ..Setup::alone(b"")
    };
    for (copy, recording) in [(COPY, RECORDING), (COPY_OF_OLD, RECORDING_OF_OLD)] {
        let datagrams = beginnings(rt.alloc(), copy).expect(&rt, "memory");
        let ended = setup.run(rt.alloc(), datagrams).expect(&rt, "a run");
        assert!(rt; ended.is(Status::LinkFault, recording.as_bytes()));
        assert!(rt; ended.link.handed().is_empty());
    }
}
