//! The outside of the desk: a cabinet of files and a sink of bytes, in memory and over the real
//! system. Each says what it holds, where that is told, counts its faults, and keeps a log in
//! proofs alone of what passed through it. Links, doors and disks stand on the same parts: the
//! log, the buffer whose room is taken when it is made, and the calls that are to fail.
#![tactic(auto)]

mod buffer;
mod cabinet;
mod call_log;
mod failures;
pub mod laws;
mod log;
mod memory_cabinet;
mod memory_sink;
mod real_cabinet;
mod real_sink;
mod sink;
mod slots;

pub use buffer::Buffer;
pub use cabinet::{Cabinet, CabinetFault};
pub use call_log::CallLog;
pub use failures::{Calls, Failure, sent};
pub use log::Note;
pub use memory_cabinet::MemoryCabinet;
pub use memory_sink::MemorySink;
pub use real_cabinet::RealCabinet;
pub use real_sink::RealSink;
pub use sink::{Sink, SinkFault};
