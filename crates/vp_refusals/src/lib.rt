//! What is printed of an input that is no schedule, by each command that plays schedules.
#![tactic(auto)]

mod refusal;

pub use refusal::refuse;
