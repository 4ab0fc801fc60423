//! Heads: the lines of a catalogue and then one line, the key line, after which something else follows.
#![tactic(auto)]

mod head;
mod line;
mod reading;

pub use head::Head;
pub use line::HeadLine;
pub use reading::parse_head;
