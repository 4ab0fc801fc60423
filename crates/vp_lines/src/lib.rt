//! The lines of a source, one by one. No more is taken than a line needs, and no more of a line is kept than was asked for.
#![tactic(auto)]

mod unread;
mod worked;

pub use unread::{LineFound, MOST_TAKEN, ReadBuffer};
