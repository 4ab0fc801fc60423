//! The world outside as traits, whose objects count their failures, and implementations of them in memory.
#![tactic(auto)]

mod adapters;
mod buffer;
mod datagram;
mod disk;
mod fault_plan;
mod link;
mod links;
mod sink;
mod sinks;
mod source;
mod sources;

pub use adapters::{Reading, Writing};
pub use buffer::give;
pub use datagram::{Datagram, Datagrams, Dispatch, MOST_GIVEN};
pub use disk::Disk;
pub use fault_plan::FaultPlan;
pub use link::Link;
pub use links::{MemLink, SureLink};
pub use sink::{OutFault, Sink, write_all};
pub use sinks::{SureSink, TextSink};
pub use source::{Failed, InputFault, Source, read_to_end};
pub use sources::{SureSource, TextSource};
