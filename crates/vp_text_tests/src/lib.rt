//! The tests of words, catalogues, command lines, schedules, traces and histories, outside their crates: a crate with tests is proved
//! twice.
#![tactic(auto)]

#[cfg(test)]
mod catalogues;
#[cfg(test)]
mod command_lines;
#[cfg(test)]
mod histories;
#[cfg(test)]
mod network;
#[cfg(test)]
mod schedules;
#[cfg(test)]
mod traces;
#[cfg(test)]
mod words;
