//! Playing the events of a schedule in a world, and showing each line to an observer.
#![tactic(auto)]

mod observer;
mod playing;

pub use observer::{Observer, TraceText};
pub use playing::{play, play_event};
