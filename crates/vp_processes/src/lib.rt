//! Nodes and clients as processes, for tests of a program.
#![tactic(auto)]

mod cluster;
mod examples;
mod ports;
mod program;
mod streams;

pub use cluster::{Cluster, started};
pub use program::say_status;
pub use streams::first_unheld;
