//! The real world outside: a UDP socket as a link, two files as a disk, the words of the command line, and standard streams that are
//! closed.
#![tactic(auto)]

mod log_files;
mod socket;
mod streams;
mod words;

pub use log_files::LogFiles;
pub use socket::Socket;
pub use streams::ClosedStreams;
pub use words::words_after;
