//! What stopped sites hold of each record, by their durable parts, and which values are sure.
#![tactic(auto)]

mod found;
mod laws;
mod report;
mod worked;

pub use found::{Can, DoubtAt, Doubts, Found, Parts, Report};
pub use laws::reports_are_true;
pub use report::audit;
pub use worked::{
    a_deleted_record, a_log_that_is_missing, a_site_in_doubt, a_site_that_has_applied,
    one_of_two_sites, two_unused_sites,
};
