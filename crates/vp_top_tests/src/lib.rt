//! The tests of the program as one call, outside its crate: a crate with tests is proved twice.
#![tactic(auto)]

#[cfg(test)]
mod audits;
#[cfg(test)]
mod merges;
#[cfg(test)]
mod nodes;
#[cfg(test)]
mod processes;
mod running;
#[cfg(test)]
mod runs;

pub use running::{answers, is_printed, run_alone, run_on, words};
