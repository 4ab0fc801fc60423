//! One copy of the records, and the serial run of committed transactions on it. (One-copy serializability: Bernstein, Hadzilacos
//! and Goodman 1987, chapter 8.)
//!
//! A contract sees the copy as the list of its values, in catalogue order, and says of a run what `play` of `vp_model` gives. The
//! committed transactions of a run are put in order and printed as a history. A history is read from text with the exact place of a
//! fault, and what was read is printed as the text had it.
#![tactic(auto)]

mod checking;
mod document;
mod fault;
mod line;
mod map;
mod ordering;
mod passing;
mod playing;
mod printing;
mod reading;

pub use checking::{Verdict, check};
pub use document::read_history;
pub use fault::HistoryFault;
pub use map::{History, Map};
pub use ordering::order;
pub use playing::{PlayFault, play};
pub use printing::{print_history, print_name};
