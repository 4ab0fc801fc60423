//! Tests of the recordings of nodes, as text, and of what is put together of them.
#![tactic(auto)]

#[cfg(test)]
mod merging;
#[cfg(test)]
mod recordings;
