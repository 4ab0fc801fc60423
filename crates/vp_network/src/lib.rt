//! A cluster of processes on a network, whatever the network loses, repeats and delays and whichever of them are killed, as definitions
//! over plain values; and the laws that what they do together is a schedule.
#![tactic(auto)]

mod laws;
mod worked;

pub use laws::{
    clusters_are_schedules, clusters_are_serial, clusters_are_sound, clusters_come_in_time,
    handed_replies_answer, lives_follow, processes_are_apart, processes_are_nodes,
    processes_make_clusters, replies_answer_calls, runs_break, runs_end, runs_happen,
};
pub use worked::{a_commit_across_a_kill, a_log_that_forgets, forged_messages};
