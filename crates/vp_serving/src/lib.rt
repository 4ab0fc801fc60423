//! Serving: a node does a turn for each datagram that comes over a link. The lines of a turn are printed, in one piece, before its
//! datagrams are handed over.
#![tactic(auto)]

mod end;
mod laws;
mod serving;
mod telling;

pub use end::End;
pub use laws::{a_commit_is_handed_over, runs_are_handed_over};
pub use serving::serve;
