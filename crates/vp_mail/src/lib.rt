//! The messages between the sites of a world: those that were sent, those that wait for their first delivery, and the pairs of
//! sites that are cut.
//!
//! A contract sees the messages and the numbers of those that were delivered. Besides, the mail keeps queues, by which the next
//! message of a pair is found at once, however many were sent before it.
#![tactic(auto)]

mod cuts;
mod kept;
mod mail;
mod queue;

pub use cuts::Cuts;
pub use kept::PackedMessage;
pub use mail::{Mail, PAIRS, SITES};
