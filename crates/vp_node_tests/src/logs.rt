//! A log of three batches, one of whose bytes was changed.

use std::alloc::{AllocError, Global};
use std::process::Abort;
use vp_disks::SureDisk;
use vp_stable::{Log, LogFault};

/// Three batches, Start of the lives 1, 2 and 3, each after an open gate, and a closed gate.
const THREE: &[u8] = b"\
    \x01\0\0\0\0\0\0\0\x05\x01\0\0\0\x01\
    \x01\0\0\0\0\0\0\0\x05\x01\0\0\0\x02\
    \x01\0\0\0\0\0\0\0\x05\x01\0\0\0\x03\0";

/// The bytes of a batch and the gate before it: the gate, eight of the length, the record's code, four of the life.
const PIECE: usize = 14;

/// What a recovery finds: so many batches, or the gate at fault.
#[derive(Clone, Copy, Drop, PartialEq, Eq)]
enum Recovered {
    Batches(usize),
    BadLog(u64),
}

fn changed(alloc: Global, place: usize, mask: u8) -> Result<Vec<u8>, AllocError> {
    let mut out = Vec::new(alloc);
    for (i, byte) in THREE.iter().enumerate() {
        out.push(if i == place { *byte ^ mask } else { *byte })?;
    }
    Ok(out)
}

/// What is recovered if the byte was changed; none where it is another fault.
fn recover_changed(rt: &impl Abort, alloc: Global, place: usize, mask: u8) -> Option<Recovered> {
    let bytes = changed(alloc, place, mask).expect(rt, "memory");
    let mut disk = SureDisk::holding(alloc, bytes, Vec::new(alloc)).expect(rt, "memory");
    match Log::recover(alloc, &mut disk) {
        Ok((_, batches)) => Some(Recovered::Batches(batches.as_slice().len())),
        Err(LogFault::BadLog { at, .. }) => Some(Recovered::BadLog(at)),
        Err(_) => None,
    }
}

/// What is to be found: a gate that is no longer open ends the log; after another length or code there is no batch; a life may be any
/// number.
fn wanted(batch: usize, byte: usize) -> Recovered {
    match byte {
        0 => Recovered::Batches(batch),
        1..=9 => Recovered::BadLog(batch.saturating_mul(PIECE) as u64),
        _ => Recovered::Batches(3),
    }
}

#[test]
fn a_changed_byte_ends_the_log_or_is_refused_at_its_gate_or_is_a_life(rt: HostRuntime) {
    for mask in [1, 2, 4, 8, 16, 32, 64, 128, 255] {
        for batch in 0..3 {
            for byte in 0..PIECE {
                let given = recover_changed(&rt, rt.alloc(), batch * PIECE + byte, mask);
                assert!(rt; given == Some(wanted(batch, byte)), "{mask} {batch} {byte}");
            }
        }
    }
}

// A gate is open if it is 1.
#[test]
fn the_last_gate_is_refused_where_it_is_opened(rt: HostRuntime) {
    for mask in [1, 2, 4, 8, 16, 32, 64, 128, 255] {
        let wanted = if mask == 1 {
            Recovered::BadLog(42)
        } else {
            Recovered::Batches(3)
        };
        let given = recover_changed(&rt, rt.alloc(), 42, mask);
        assert!(rt; given == Some(wanted), "{mask}");
    }
}
