//! The coordinator of a site: the transactions that the site began, what a client's call does to them, and each other rule that
//! changes them, as one call.
//!
//! Each rule is a method of what it changes (`lent`), which the site keeps and lends. In the order of the calls: `calls` has what a
//! client's call does, and `answers` what the messages of other sites do; `reads`, `changes` and `commits` have what a
//! live transaction does; `endings` and `closing` have how it goes on after one, and how it ends. Locking and commit are strict two-phase
//! locking and two-phase commit (Bernstein, Hadzilacos and Goodman 1987, chapters 3 and 7).
#![tactic(auto)]

mod answers;
mod around;
mod calls;
mod changes;
mod closing;
mod commits;
mod coordinator;
mod deeds;
mod endings;
mod final_writes;
mod here;
mod reads;
mod records;
mod sizes;

pub use answers::Incoming;
pub use around::Around;
pub use coordinator::Coordinator;
pub use here::Here;
