//! What the tests share.

use bytes::Bytes;
use std::alloc::{AllocError, Global};
use vp_outside::Datagram;

/// The port of site 1.
pub const PORT: u16 = 7001;

/// The call to begin, to site 1.
pub const BEGIN: &[u8] = b"\x56\x02\x20\0\x01\x01";

/// The call to regroup, to site 1.
pub const REGROUP: &[u8] = b"\x56\x02\x20\0\x01\x02";

/// Begun 1.1.1 in the opening view, from site 1.
pub const BEGUN: &[u8] = b"\x56\x02\x21\x01\0\x01\x01\0\0\0\x01\0\0\0\x01\0\0\0\0\0\0\0\0\0";

/// The call to write 11 to x in 1.1.1, to site 1.
pub const WRITE: &[u8] =
    b"\x56\x02\x20\0\x01\x04\x01\0\0\0\x01\0\0\0\x01\0\0\0\x01\x01\x78\0\x02\x31\x31";

/// The call to commit 1.1.1 after it, to site 1.
pub const COMMIT: &[u8] = b"\x56\x02\x20\0\x01\x05\x01\0\0\0\x01\0\0\0\x01\0\0\0\x02";

/// The stop, to site 1.
pub const STOP: &[u8] = b"\x56\x02\x24\0\x01";

/// A log's first half after Start of life 1.
pub const STARTED: &[u8] = b"\x01\0\0\0\0\0\0\0\x05\x01\0\0\0\x01\0";

/// The same after Start of the lives 1 and 2.
pub const STARTED_TWICE: &[u8] =
    b"\x01\0\0\0\0\0\0\0\x05\x01\0\0\0\x01\x01\0\0\0\0\0\0\0\x05\x01\0\0\0\x02\0";

/// A batch of no record, and where a batch of 65,490 bytes begins.
const HEAD: &[u8] = b"\x01\0\0\0\0\0\0\0\0\x01\0\0\0\0\0\0\xff\xd2";

/// A log's first half of 65,509 bytes: no record, and then 13,098 times Start of life 16,843,009. Start of the next life makes it 65,523
/// bytes long, and a promise after it 65,542: then a checkpoint is due.
pub fn long_half(alloc: Global) -> Result<Vec<u8>, AllocError> {
    let mut half = HEAD.to_vec(alloc)?;
    half.extend_from_slice(&vec![in alloc; 1; 65_490]?)?;
    half.push(0)?;
    Ok(half)
}

/// The datagram with these bytes, from or to this port.
pub fn datagram(alloc: Global, port: u16, bytes: &[u8]) -> Result<Datagram, AllocError> {
    Ok(Datagram {
        port,
        bytes: Bytes::copy_from_slice(alloc, bytes)?,
    })
}
