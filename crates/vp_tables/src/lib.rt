//! Lists of transactions, or of items that each belong to one, in which one is found without a walk over the others.
//!
//! A contract sees each of them as a list: the keys are the type's own affair.
#![tactic(auto)]

mod key;
mod noted;
mod table;

pub use noted::TxnSet;
pub use table::{HasTxn, Table};
