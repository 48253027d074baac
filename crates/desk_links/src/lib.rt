//! Connections of clients: links that bytes come from and go to, and doors that hand links out, in
//! memory and over the sockets of the system. Each says what it holds, where that is told, counts
//! its faults, and a link keeps a log in proofs alone of what passed over it.
#![tactic(auto)]

mod door;
pub mod laws;
mod link;
mod link_record;
mod memory_door;
mod memory_link;
mod pieces;
mod real_door;
mod real_link;
mod script;

pub use door::{Door, DoorFault};
pub use link::{Link, LinkFault};
pub use link_record::LinkRecord;
pub use memory_door::MemoryDoor;
pub use memory_link::MemoryLink;
pub use real_door::RealDoor;
pub use real_link::RealLink;
