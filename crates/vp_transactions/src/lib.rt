//! The tables of the transactions that a site began: the live ones, the ends of others, and the decisions that some site has not
//! acknowledged.
#![tactic(auto)]

mod handled;
mod live;
mod slots;
mod transactions;

pub use handled::Handled;
pub use live::LiveTxns;
pub use transactions::{Transactions, answered_again, send_outcome};
