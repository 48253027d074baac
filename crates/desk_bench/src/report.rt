//! What benchmarks print: counts, and at full size times and memory.

use anyhow::anyhow;
use std::fs;
use std::io::Print;
use std::time::{Clock, Instant};

/// How much a benchmark does, and whether it prints times and memory.
#[derive(Clone, Copy)]
pub enum Size {
    /// A small size that prints the same on each run.
    Short,
    /// The size that a season has.
    Full,
}

/// Prints a line: what it is about, and numbers, each behind what it counts.
pub fn print_row<R: Print>(rt: &R, about: &str, numbers: &[(&str, u64)]) -> anyhow::Result<()> {
    print!(rt; "{about}")?;
    for (what, number) in numbers {
        print!(rt; ", {what} {number}")?;
    }
    println!(rt; "")?;
    Ok(())
}

/// The time now, if the clock tells it.
pub fn now<R: Clock>(rt: &R) -> Option<Instant> {
    Instant::now(rt).ok()
}

/// The nanoseconds since a time, if the clock tells them.
fn nanos_since<R: Clock>(rt: &R, start: Option<Instant>) -> Option<u128> {
    match (start, now(rt)) {
        (Some(start), Some(end)) => Some(end.duration_since(start).as_nanos()),
        _ => None,
    }
}

/// The milliseconds since a time; 0 where the clock does not tell them.
pub fn millis_since<R: Clock>(rt: &R, start: Option<Instant>) -> u64 {
    match nanos_since(rt, start) {
        Some(nanos) => u64::try_from(nanos / 1_000_000).unwrap_or(u64::MAX),
        None => 0,
    }
}

/// Prints, at full size, how long a step took.
pub fn step<R: Print + Clock>(
    rt: &R,
    size: Size,
    name: &str,
    start: Option<Instant>,
) -> anyhow::Result<()> {
    match size {
        Size::Short => Ok(()),
        Size::Full => print_millis(rt, name, nanos_since(rt, start)),
    }
}

fn print_millis<R: Print>(rt: &R, name: &str, nanos: Option<u128>) -> anyhow::Result<()> {
    let millis = told(nanos)? / 1_000_000;
    println!(rt; "  {name}: {millis} ms")?;
    Ok(())
}

/// Prints, at full size, how many of a count were done in a second.
pub fn rate<R: Print + Clock>(
    rt: &R,
    size: Size,
    name: &str,
    count: u64,
    start: Option<Instant>,
) -> anyhow::Result<()> {
    match size {
        Size::Short => Ok(()),
        Size::Full => print_rate(rt, name, count, nanos_since(rt, start)),
    }
}

fn print_rate<R: Print>(rt: &R, name: &str, count: u64, nanos: Option<u128>) -> anyhow::Result<()> {
    let all = u128::from(count) * 1_000_000_000;
    let rate = all.checked_div(told(nanos)?).unwrap_or(0);
    println!(rt; "  {name}: {rate} a second")?;
    Ok(())
}

fn told(nanos: Option<u128>) -> anyhow::Result<u128> {
    match nanos {
        Some(nanos) => Ok(nanos),
        None => Err(anyhow!("the clock does not tell the time")),
    }
}

/// Prints how much memory the program held at most, as Linux tells it.
pub fn memory(rt: &HostRuntime) -> anyhow::Result<()> {
    match fs::read_to_string(rt, "/proc/self/status") {
        Ok(status) => print_memory(rt, &status),
        Err(_unread) => Ok(()),
    }
}

fn print_memory<R: Print>(rt: &R, status: &str) -> anyhow::Result<()> {
    for line in status.lines() {
        if line.starts_with("VmHWM") {
            println!(rt; "{line}")?;
        }
    }
    Ok(())
}
