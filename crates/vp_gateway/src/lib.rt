//! A gateway: calls that come as lines are asked of a site, and answered line by line.
#![tactic(auto)]

mod answering;
mod asked;
mod end;
mod head;
mod serving;
mod worked;

pub use end::GateEnd;
pub use serving::serve;
