//! The tests of byte fields, of batches of log records and of frames, outside their crates: a crate with tests is proved twice.
#![tactic(auto)]

#[cfg(test)]
mod batches;
#[cfg(test)]
mod decided;
#[cfg(test)]
mod durable;
#[cfg(test)]
mod fields;
#[cfg(test)]
mod frames;
#[cfg(test)]
mod ranges;
