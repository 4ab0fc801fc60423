//! One schedule from the recordings of several nodes.
#![tactic(auto)]

mod asking;
mod comparison;
mod dues;
mod fault;
mod lives;
mod merging;
mod numbers;
mod played;
mod putting;
mod sent_frame;
mod telling;
mod track;

pub use fault::MergeFault;
pub use putting::merge;
