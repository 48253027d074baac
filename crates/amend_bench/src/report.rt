//! What benchmarks print: counts, and at full size times.

use anyhow::ensure;
use holding_book::Book;
use std::io::Print;
use std::time::{Clock, Instant};

/// How much a benchmark does, and whether it prints times and memory.
#[derive(Clone, Copy)]
pub enum Size {
    /// A small size that prints the same on each run.
    Short,
    /// The size that a season has.
    Full,
}

/// How many calls there were, how long all of them took together, and the longest, or 0 where that
/// is not known, in nanoseconds. A time that the clock does not tell is the greatest number.
#[derive(Clone, Copy)]
pub struct Tally {
    pub calls: u64,
    pub nanos: u64,
    pub longest: u64,
}

/// No calls.
pub const NO_CALLS: Tally = Tally {
    calls: 0,
    nanos: 0,
    longest: 0,
};

impl Tally {
    /// Adds calls that took so long.
    pub fn add(&mut self, other: Tally) {
        self.calls = self.calls.saturating_add(other.calls);
        self.nanos = self.nanos.saturating_add(other.nanos);
        self.longest = self.longest.max(other.longest);
    }
}

/// The median of some rounds by how long they took, or no calls where there are none.
pub fn median(rounds: &mut [Tally]) -> Tally {
    rounds.sort_unstable_by_key(|round| round.nanos);
    *rounds.get(rounds.len() / 2).unwrap_or(&NO_CALLS)
}

/// The time now, if the clock tells it.
pub fn now<R: Clock>(rt: &R) -> Option<Instant> {
    Instant::now(rt).ok()
}

/// One call that began at a time and ends now.
pub fn call_since<R: Clock>(rt: &R, start: Option<Instant>) -> Tally {
    let nanos = nanos_since(rt, start);
    Tally {
        calls: 1,
        nanos,
        longest: nanos,
    }
}

/// So many calls that began together at a time, the last of which ends now.
pub fn calls_since<R: Clock>(rt: &R, start: Option<Instant>, calls: u64) -> Tally {
    Tally {
        calls,
        nanos: nanos_since(rt, start),
        longest: 0,
    }
}

fn nanos_since<R: Clock>(rt: &R, start: Option<Instant>) -> u64 {
    match (start, now(rt)) {
        (Some(start), Some(end)) => {
            u64::try_from(end.duration_since(start).as_nanos()).unwrap_or(u64::MAX)
        }
        _ => u64::MAX,
    }
}

/// Prints the first line of a benchmark.
pub fn print_title<R: Print>(rt: &R, about: &str, book: &Book) -> anyhow::Result<()> {
    println!(rt; "{about} of {} holdings", book.count())?;
    Ok(())
}

/// Prints a name and a number, before more of the same line.
pub fn print_part<R: Print>(rt: &R, name: &str, number: u64) -> anyhow::Result<()> {
    print!(rt; "{name} {number}, ")?;
    Ok(())
}

/// Prints how many calls there were, and at full size how many they are in a second, and how many
/// microseconds one takes and the longest took.
pub fn print_tally<R: Print>(rt: &R, size: Size, about: &str, tally: Tally) -> anyhow::Result<()> {
    match size {
        Size::Short => {
            println!(rt; "{about} {}", tally.calls)?;
            Ok(())
        }
        Size::Full => print_times(rt, about, tally),
    }
}

fn print_times<R: Print>(rt: &R, about: &str, tally: Tally) -> anyhow::Result<()> {
    ensure!(tally.nanos < u64::MAX, "the clock does not tell the time");
    let calls = tally.calls;
    let all = u128::from(calls) * 1_000_000_000;
    let rate = all.checked_div(u128::from(tally.nanos)).unwrap_or(0);
    let mean = tally.nanos.checked_div(calls).unwrap_or(0) / 1000;
    let longest = tally.longest / 1000;
    if tally.longest > 0 {
        println!(rt; "{about} {calls}: {rate} a second, one {mean} us, the longest {longest} us")?;
    } else {
        println!(rt; "{about} {calls}: {rate} a second, one {mean} us")?;
    }
    Ok(())
}
