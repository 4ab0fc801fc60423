//! Frames, the content of the datagrams of sites and clients. Each has only one encoding in bytes. They are written here, and read
//! with the exact place of a fault.
#![tactic(auto)]

mod answers;
mod calls;
mod decoding;
mod fault;
mod frame;
mod kind;
mod laws;
mod read_answers;
mod read_calls;
mod read_messages;
mod writing;

pub use decoding::decode;
pub use fault::WireFault;
pub use frame::{Body, Frame};
pub use kind::{AnswerKind, CallKind, FrameKind, MessageKind};
pub use laws::{encoded_is_decoded, frames_are_read, spellings_are_of_one_frame};
pub use writing::{encode, encode_call, encode_message, encode_reply};
