//! The fields that frames and log records share: numbers, identifiers, names and lists, each with only one form in bytes.
//!
//! A reader reads its field at a cursor, or fails with the number of bytes that are left at the fault: the bytes before the fault
//! begin a field, and no field goes on with the next byte. A writer appends the field to a buffer; after want of memory it has
//! appended a beginning of it, and changed nothing else.
#![tactic(auto)]

mod code;
mod decisions;
mod fields;
mod lists;
mod ranges;
mod reading;
mod txn_ranges;
mod words;

pub use code::{HasCode, read_coded};
pub use decisions::{put_decisions, read_decisions};
pub use fields::{
    put_byte, put_counted, put_maybe_view, put_name, put_numbered, put_outcome, put_owner,
    put_recs, put_request, put_sites, put_txn, put_u32, put_u64, put_view,
};
pub use lists::{read_recs, read_sites};
pub use ranges::{read_u16_within, read_u32_within};
pub use reading::{
    read_byte, read_maybe_view, read_number, read_numbered, read_outcome, read_owner, read_rec,
    read_request, read_site, read_some_u32, read_txn, read_u32, read_u64, read_view,
};
pub use txn_ranges::{read_ascending_txn, read_txn_between};
pub use words::{read_name, read_word_bytes};
