//! The words of the command line: which command they ask for.
#![tactic(auto)]

mod words;

pub use words::{Command, Logs, Signal};
