//! The commands on schedules and histories, `replay`, `logs`, `check`, `generate` and `soak`: each makes a status and a text from its
//! input or its numbers.
#![tactic(auto)]

mod check;
mod drawing;
mod generated_catalogue;
mod generating;
mod logs;
mod replay;
mod soaking;

pub use check::checked;
pub use generating::{generate, generated};
pub use logs::logged;
pub use replay::replayed;
pub use soaking::soaked;
