//! What a site does as a participant of other sites' transactions: the locks that they ask for, its votes, and how the transactions
//! end here. Locking and commit are strict two-phase locking and two-phase commit (Bernstein, Hadzilacos and Goodman 1987, chapters
//! 3 and 7).
//!
//! A contract sees the parts, the transactions in doubt and the ended ones as the definitions' state of a participant. Each call
//! does what a row of the definitions does to that state; the site sends, forces and writes.
#![tactic(auto)]

mod doubts;
mod fault;
mod held;
mod participant;
mod parts;
mod requests;

pub use fault::{PartFault, PrepareFault};
pub use participant::{Participant, Settled, Voted};
pub use requests::{Prepare, Request};
