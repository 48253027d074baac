//! What each resource has left, and a mark of one bit that says whether it is full.
//!
//! A search of times asks of many resources whether they are full. It reads the marks, which are a
//! 32nd of the counts, so that they stay in the cache of a processor, and a word of them answers
//! for up to 64 neighbours at once. The marks follow the counts at every change; contracts see the
//! counts alone.
#![tactic(auto)]

mod left;
mod marks;
mod words;

pub use left::LeftCounts;
