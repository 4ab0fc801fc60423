//! The tests of nodes over links, disks and sinks in memory: nodes whose link, disk or sink fails; damage, which is a log with a byte
//! that was changed, and a frame that was cut short; and three nodes that keep copies of one record. They are outside the crates of all
//! that: a crate with tests is proved twice.
#![tactic(auto)]

#[cfg(test)]
mod clusters;
#[cfg(test)]
mod faults;
#[cfg(test)]
mod frames;
#[cfg(test)]
mod logs;
