//! Lists that are kept in order, lists of pairs of a record and a value, and lists whose items are found by a transaction.
//!
//! What is done to such a list is done to its first item with the key, as the definitions do it: no contract here needs a list to
//! be in order, or its keys to be distinct.
#![tactic(auto)]

mod ascending;
mod by_rec;
mod by_txn;
mod copies;
mod keyed;
mod order;

pub use ascending::{OfRec, place_among, put_among, remove_among};
pub use by_rec::{change_at, change_copy, replace_at, value_at, write_copies};
pub use by_txn::{OfTxn, find_txn, take_txn};
pub use copies::copy_all;
pub use keyed::{HasKey, put, put_in};
pub use order::{
    is_same_owner, is_same_txn, owner_comes_before, txn_comes_before, view_comes_before,
};
