//! The recordings of nodes, and their text.
#![tactic(auto)]

mod byte_store;
mod document;
mod draft;
mod fault;
mod hex_reading;
mod line;
mod line_reading;
mod recording;

pub use document::parse;
pub use draft::RecordingSet;
pub use fault::RecordingFault;
pub use recording::{Recording, Recordings, Turn, Turns};
