//! Drawn cases of the desk. `desk_fuzz FIRST COUNT` runs the cases with these numbers, and without
//! words the first 3,000; it prints how often each command ended with each status, the cases that
//! break a law, and how many these are. The same number is the same case each time.
//!
//! A case is a season, with what one command reads of it, in memory; half of them are damaged by a
//! byte, a field or a line. The desk runs twice on it: where no call fails, and where one may. What
//! is then looked at is said in `general`, `compared`, `works` and `answers`, by plain code that
//! reads the texts itself and calls no reader, count or book of the desk. Where a law speaks of two
//! commands it runs the desk again: a certificate that was written is checked, and the asks of a
//! record are asked anew.
#![tactic(auto)]

mod answers;
mod cases;
mod compared;
mod general;
mod laws;
mod made;
mod next_season;
mod places;
mod plain;
mod printed;
mod records;
mod refusals;
mod seen;
mod sent;
mod told;
mod works;

use cases::{STATUSES, broken_case};
use drawn_worlds::{COMMANDS, Command, word};
use std::alloc::Global;
use std::env;
use std::io::Print;
use std::sync::Wait;
use std::thread::Threads;

/// How many cases are run where no words say it.
const SHORT: u64 = 3_000;

fn main(rt: HostRuntime) -> anyhow::Result<()> {
    let mut numbers = [0, SHORT];
    let mut place = 0_usize;
    for word in env::args(&rt)?.skip(1) {
        let number = word.as_str().parse::<u64>()?;
        if place < 2 {
            numbers[place] = number;
            place += 1;
        }
    }
    run(&rt, rt.alloc(), numbers[0], numbers[1])
}

/// Runs so many cases from a number on, and prints what they are.
fn run<R: Threads + Wait + Sync + Print>(
    rt: &R,
    alloc: Global,
    first: u64,
    count: u64,
) -> anyhow::Result<()> {
    let mut counts = [0_u64; 192];
    let broken = run_cases(rt, alloc, first, count, &mut counts)?;
    print_commands(rt, &counts)?;
    println!(rt; "cases {count}, broken {broken}")?;
    Ok(())
}

/// Runs cases one after the other, and tells of those that break a law: how many.
fn run_cases<R: Threads + Wait + Sync + Print>(
    rt: &R,
    alloc: Global,
    first: u64,
    count: u64,
    counts: &mut [u64],
) -> anyhow::Result<u64> {
    let mut broken = 0_u64;
    for place in 0..count {
        let number = first.wrapping_add(place);
        let law = broken_case(rt, alloc, number, counts)?;
        broken = broken.saturating_add(u64::from(!law.is_empty()));
        print_law(rt, number, law)?;
    }
    Ok(broken)
}

/// Tells of a case that breaks a law.
fn print_law<R: Print>(rt: &R, number: u64, law: &str) -> anyhow::Result<()> {
    if !law.is_empty() {
        println!(rt; "case {number}: {law}")?;
    }
    Ok(())
}

/// How often each command ended with each status.
fn print_commands<R: Print>(rt: &R, counts: &[u64]) -> anyhow::Result<()> {
    for command in COMMANDS {
        print_counts(rt, command, counts)?;
    }
    Ok(())
}

/// How often a command ended with each status.
fn print_counts<R: Print>(rt: &R, command: Command, counts: &[u64]) -> anyhow::Result<()> {
    let name = word(command.words(), 0);
    let begin = command.place().saturating_mul(STATUSES);
    print!(rt; "{name}")?;
    for status in 0..STATUSES {
        let count = counts.get(begin.saturating_add(status)).copied();
        print_count(rt, status, count.unwrap_or(0))?;
    }
    println!(rt; "")?;
    Ok(())
}

fn print_count<R: Print>(rt: &R, status: usize, count: u64) -> anyhow::Result<()> {
    if count > 0 {
        print!(rt; " {status}:{count}")?;
    }
    Ok(())
}
