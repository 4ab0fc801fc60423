//! Numbers in a fixed count of bytes, the highest byte first.

ghost use Rattle.vp_base.specs.Numbers.{OnlyItsOwnBytesReadAsANumber};

/// Of the byte strings of one length, only the one that `byteorder` writes for a number is read as that number.
#[tactic(auto, using(crate::proofs::OwnBytes::own_bytes))]
pub fn only_its_own_bytes_read_as_a_number()
    ensures { OnlyItsOwnBytesReadAsANumber }
{}
