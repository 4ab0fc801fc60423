//! How a site refreshes its copies in a view that it has joined.
//!
//! A contract sees the list of the copies under refresh, as the definitions have it. The catalogue and the held view are given with
//! each call that asks who has not answered. What is done to a record is done to the first item of the record, as in the
//! definitions.
#![tactic(auto)]

mod asked;
mod done;
mod newest;
mod refresh;

pub use asked::RefreshEntry;
pub use done::Done;
pub use refresh::Refresh;
