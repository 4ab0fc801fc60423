//! What frames and log records say of the contents of records, in each of two versions: values, contents, tables of weights,
//! changes, copies and transactions in doubt. Each has only one form in bytes in its version.
//!
//! A reader reads its field at a cursor, or fails with the number of bytes that are left at the fault: the bytes before the fault
//! begin a field, and no field goes on with the next byte. A writer appends the field to a buffer; after want of memory it has
//! appended a beginning of it, and changed nothing else.
#![tactic(auto)]

mod changes;
mod contents;
mod copies;
mod doubts;
mod tables;
mod values;
mod version;

pub use changes::{put_writes, read_writes};
pub use contents::{put_absent, put_content, put_present, read_content};
pub use copies::{put_copies, put_copy, read_copies, read_stored};
pub use doubts::{put_doubt, put_doubts, read_doubts};
pub use tables::{put_table, read_table};
pub use values::{put_value, read_value};
pub use version::Version;
