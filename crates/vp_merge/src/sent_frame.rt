//! The frame of a turn as a node sends it.

ghost use Rattle.std.specs.Prelude.{◌≡◌, ℕ, List, IfOk};
ghost use Rattle.vp_merge.specs.Numbers.{as_sent};
ghost use Rattle.vp_merge.specs.SentFrames.{bytes_in, is_read_only};

use bytes::BytesMut;
use std::alloc::Global;
use vp_base::NoMemory;
use vp_wire::{Frame, WireFault, decode, encode, frames_are_read};

/// The number of the version that nodes read and don't send.
const READ_ONLY: u8 = 1;

/// A recorded frame as a node sends it.
#[derive(Drop)]
pub enum SentFrame<'a> {
    /// The recorded bytes: a frame of the second version, or no frame.
    Recorded { bytes: &'a [u8] },
    /// A frame that was recorded in the first version, spelled in the second.
    Later { bytes: BytesMut },
}

/// Whether the bytes have that version.
fn is_read_only(recorded: &[u8]) -> bool
    ensures { result ≡ is_read_only recorded.now }
{
    match recorded.get(1) {
        Some(version) => *version == READ_ONLY,
        None => false,
    }
}

impl<'a> SentFrame<'a> {
    /// Takes memory for a frame of the first version alone.
    pub fn of(alloc: Global, recorded: &'a [u8]) -> Result<SentFrame<'a>, NoMemory>
        ensures { IfOk result (λ it. bytes_in it ≡ as_sent recorded.now) }
    {
        if !is_read_only(recorded) {
            return Ok(SentFrame::Recorded { bytes: recorded });
        }
        frames_are_read();
        match decode(alloc, recorded) {
            Ok(frame) => {
                let mut bytes = BytesMut::new(alloc);
                encode(&Frame::of(frame.from, frame.to, frame.body), &mut bytes)?;
                Ok(SentFrame::Later { bytes })
            }
            Err(WireFault::BadFrame { .. }) => Ok(SentFrame::Recorded { bytes: recorded }),
            Err(WireFault::NoMemory) => Err(NoMemory),
        }
    }

    /// Its bytes.
    pub fn as_slice(&self) -> &[u8]
        ensures { result.now ≡ bytes_in self.now }
    {
        match self {
            SentFrame::Recorded { bytes } => bytes,
            SentFrame::Later { bytes } => bytes,
        }
    }
}
