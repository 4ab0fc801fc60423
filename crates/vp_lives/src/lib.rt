//! What happens to a process that serves, and the answer that a client gets: from the contracts of `serve` and `ask` to clusters and
//! schedules.
#![tactic(auto)]

mod laws;

pub use laws::{clients_are_answered, kills_happen};

mod lives;

pub use lives::serve_a_life;
