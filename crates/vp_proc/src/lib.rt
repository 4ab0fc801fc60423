//! Procedures, run: one transaction at a site, whose calls a small program makes.
#![tactic(auto)]

mod claims;
mod content;
mod ended;
mod running;
mod session;
mod walk;
mod worked;

pub use claims::runs_are_evaluations;
pub use ended::{End, Ended};
pub use running::run;
