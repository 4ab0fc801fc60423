//! The result of a call or a signal.

use crate::PORT;
use vp_outside::Dispatch;
use vp_status::{RunOutput, Status};

/// Whether these bytes were handed over to the port of site 1, before any datagram was given, and nothing else.
pub fn is_all(handed: &[Dispatch], bytes: &[u8]) -> bool {
    match handed {
        [it] => it.after == 0 && it.datagram.port == PORT && it.datagram.bytes.as_slice() == bytes,
        _ => false,
    }
}

/// Whether this status and this text are defined.
pub fn is_defined(defined: &RunOutput, status: Status, text: &[u8]) -> bool {
    defined.status == status && defined.text.as_slice() == text
}
