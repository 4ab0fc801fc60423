//! How a run of the program ends, and the lines that several of its commands print last.
#![tactic(auto)]

mod refusal;
mod status;

pub use refusal::{print_bad_line, print_limit, print_twice};
pub use status::{RunOutput, Status};
