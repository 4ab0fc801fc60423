//! A line of recordings.

use bytes::Bytes;
use vp_base::SiteId;
use vp_heads::HeadLine;

#[derive(Drop)]
pub enum RecordingLine {
    /// A line of the catalogue, or the line `recordings`.
    Head(HeadLine),
    Node { site: SiteId },
    Start { life: u32 },
    /// A datagram that was taken.
    In { frame: Bytes },
    /// One that was handed over.
    Out { frame: Bytes },
    /// Bytes that were no frame.
    Bad,
    /// A frame that was passed over.
    Stray,
    End,
    LinkFault,
    DiskFault,
}
