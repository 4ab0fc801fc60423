//! The durable part of a site: what its log records make of the copies that the catalogue starts with.
//!
//! A call applies one log record: it does all that the record says, or lacks memory and does nothing. Whatever needs memory is made
//! before anything changes, and then goes to its place in the lists, which grow in place.
#![tactic(auto)]

mod awaited;
mod copies;
mod decided;
mod decision;
mod decoding;
mod doubts;
mod durable;
mod encoding;
mod fault;
mod kind;
mod laws;
mod listed;
mod read_records;
mod site_copies;

pub use decided::DecisionTable;
pub use decoding::decode_batch;
pub use durable::Durable;
pub use encoding::encode_batch;
pub use fault::BatchFault;
pub use laws::{encoded_is_decoded, spellings_are_of_one_batch};
pub use site_copies::SiteCopies;
