//! One call of a client: the call is sent, and the first datagram that answers it is its answer.
#![tactic(auto)]

mod answering;
mod asking;
mod claims;

pub use asking::{AskFault, ask};
pub use claims::{answers_are_given, answers_are_shaped, conversations_hand_over};
