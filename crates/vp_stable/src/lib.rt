//! A log of batches of log records that no crash can tear: before each batch there is a gate of one byte, which is opened by a
//! write of its own, once the batch and the next, closed gate are synced. It has two halves, and a checkpoint begins the other half
//! with one batch.
#![tactic(auto)]

mod batches;
mod fault;
mod half;
mod laws;
mod log;
mod writing;

pub use fault::{AppendFault, LogFault};
pub use laws::{
    a_checkpoint_is_due_of_batches, bytes_are_bad_at_one_gate, bytes_are_one_log,
    halves_are_one_log,
};
pub use log::Log;
