//! The text of schedules: reading and printing it.
#![tactic(auto)]

mod document;
mod draft;
mod event_reading;
mod fault;
mod kind;
mod line;
mod line_reading;
mod printing;
mod reading;
mod schedule;
mod table_reading;

pub use document::read;
pub use fault::ScheduleFault;
pub use printing::print;
pub use reading::read_call;
pub use schedule::Schedule;
