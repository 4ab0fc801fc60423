//! What a site knows of views: the one that it holds, waits for or invites to, and its promise.
//!
//! At most one of the three is there, and its identifier is the promise: `Standing` allows nothing else. A contract sees what the
//! definitions keep of views, with the site's own number. Nothing of a catalogue is kept here. Such views are those of El Abbadi,
//! Skeen and Cristian (1985); the rules in detail are this project's own.
#![tactic(auto)]

mod fault;
mod sites;
mod standing;
mod views;

pub use fault::{InviteFault, Spent};
pub use views::Views;
