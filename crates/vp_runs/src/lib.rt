//! What nodes and clients do, as definitions over plain values: the run of a node over the datagrams that come, its recording and its
//! log, and the answer to a client's call; what a schedule leaves in the logs of its sites; and which schedule it becomes where a site
//! stops within one of its steps. Each with its laws.
#![tactic(auto)]

mod arrival;
mod laws;
mod log_laws;
mod stop_laws;
mod worked;
mod worked_logs;
mod worked_stops;

pub use arrival::Arrival;
pub use laws::{frames_arrive, logs_fold, runs_are_shaped, runs_go_on};
pub use log_laws::{logs_are_kept, logs_are_of_nodes};
pub use stop_laws::stopped_runs_are_schedules;
pub use worked::{a_begin, a_commit_of_two_sites, an_answer_among_others, what_is_passed_over};
pub use worked_logs::{
    a_checkpoint_after_a_restart, a_decision_of_two_sites, lives_begin, nothing_is_forced,
};
pub use worked_stops::{
    a_step_that_appends_nothing, a_stop_after_the_decision, a_stop_before_the_decision,
};
