//! One file of bytes as a disk: what its calls show of it, and what a stop of the machine may leave
//! of it at each moment; in memory and over a file of the system.
#![tactic(auto)]

mod disk;
mod disk_log;
mod disk_record;
mod file_room;
pub mod laws;
mod memory_disk;
mod real_disk;
mod turns;

pub use disk::{Disk, DiskFault};
pub use memory_disk::MemoryDisk;
pub use real_disk::RealDisk;
