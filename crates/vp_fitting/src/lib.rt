//! Schedules that fit the recordings of nodes, and the one that is put together of them, as definitions over plain values.
#![tactic(auto)]

mod laws;
mod worked;

pub use laws::{fitting_recordings_merge, merged_schedules_fit, what_is_unsent_is_never_sent};
pub use worked::{a_begin, a_begin_without_its_answer, a_start_again, a_vote_that_nobody_sent};
