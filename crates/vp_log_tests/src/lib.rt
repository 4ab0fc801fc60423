//! The tests of sources, sinks, links and disks, and of the log's recoveries, appends and checkpoints, outside their crates: a crate with
//! tests is proved twice.
#![tactic(auto)]

#[cfg(test)]
mod checkpoints;
#[cfg(test)]
mod disks;
#[cfg(test)]
mod links;
#[cfg(test)]
mod logs;
#[cfg(test)]
mod stops;
#[cfg(test)]
mod streams;
