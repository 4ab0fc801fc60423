//! Reading text from left to right, with the exact place of its first fault, and printing numbers.
//!
//! What a text means is a relation between values and lists of bytes, such as `IsNumber least most`. A reader takes the longest
//! prefix of the bytes that begins a text of some value; where that prefix is no such text itself, the fault is right after it.
//! `specs/Meaning.antt` defines that once, for every such relation.
//!
//! The contract of a reading step names a function on lists, such as `number_at`, which gives the value and the bytes after it, or
//! the number of bytes that are left at the fault. So steps joined by `?` are the same steps joined in that function. The laws in
//! `proofs/` lead from there to the meaning: of single fields, of fields in a row, of alternatives, repeated items, whole texts,
//! and lists of lines.
#![tactic(auto)]

mod class;
mod cursor;
mod digits;
mod print;
#[cfg(test)]
mod tests;

pub use class::Class;
pub use cursor::{Cursor, Unexpected};
pub use print::print_number;
