//! A node: a site with its log. It takes one datagram after the other, each as a step of its site; what a step forces is synced to the
//! log before any of its messages and replies leaves the node.
//!
//! A turn has two halves: what the site does with what comes, without a disk (`arrivals`, `taking` and `turned`), and what the log keeps
//! of it (`keeping`).
#![tactic(auto)]

mod arrivals;
mod end;
mod keeping;
mod node;
mod recording;
mod sending;
mod starting;
mod taking;
mod turned;

pub use arrivals::arrival;
pub use end::NodeEnd;
pub use node::Node;
pub use recording::number_line;
pub use starting::fold_batches;
pub use taking::turn_on;
pub use turned::{Lines, TurnEffects, Turned};
