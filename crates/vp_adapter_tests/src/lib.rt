//! The tests of a socket as a link and of files as a disk, outside their crate: a crate with tests is proved twice.
#![tactic(auto)]

#[cfg(test)]
mod files;
#[cfg(test)]
mod sockets;
