//! The tests of a client's call and of the commands that use a network, outside their crates: a crate with tests is proved twice.
#![tactic(auto)]

#[cfg(test)]
mod asking;
#[cfg(test)]
mod calls;
mod fixtures;
#[cfg(test)]
mod gateways;
#[cfg(test)]
mod long_logs;
#[cfg(test)]
mod nodes;
#[cfg(test)]
mod outcomes;
#[cfg(test)]
mod procedures;
mod running;
#[cfg(test)]
mod sessions;
#[cfg(test)]
mod signals;

pub use fixtures::{
    BEGIN, BEGUN, COMMIT, PORT, REGROUP, STARTED, STARTED_TWICE, STOP, WRITE, datagram, long_half,
};
pub use running::{Ended, Failing, NONE, Setup, said};
