//! Disks in memory, which keep a record of the calls that changed them.
#![tactic(auto)]

mod change_list;
mod changes;
mod imaged_disk;
mod log_bytes;
mod mem_disk;
mod sure_disk;

pub use mem_disk::MemDisk;
pub use sure_disk::SureDisk;
