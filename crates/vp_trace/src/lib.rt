//! Printing traces: calls, events, messages and answers, and the lines that show what each event gave.
#![tactic(auto)]

mod answers;
mod calls;
mod fields;
mod line;
mod messages;
mod trace;

pub use answers::print_answer;
pub use calls::{print_call, print_event};
pub use fields::print_sites;
pub use line::LentLine;
pub use messages::print_message;
pub use trace::print_line;
