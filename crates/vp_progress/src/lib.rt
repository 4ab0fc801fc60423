//! No schedule is stuck: what has happened can be mended, and what is mended serves each client.
#![tactic(auto)]

mod laws;
mod worked;

pub use laws::{
    anyone_can_lead, clients_are_served, clients_can_be_served, doubts_stay, majorities_go_on,
    schedules_can_mend, sites_can_meet,
};
pub use worked::{a_doubt_is_mended, three_recover};
