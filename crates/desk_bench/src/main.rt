//! Benchmarks of the desk's slow steps. `desk_bench WORD` runs the one that the word names at full
//! size, and prints counts, times and memory; `desk_bench short` runs all of them at a small size
//! and prints counts alone.
#![tactic(auto)]

mod board;
mod bounds;
mod checks;
mod reductions;
mod report;
mod searches;
mod seasons;
mod stages;
mod texts;
mod turn;
mod turnarounds;

use report::{Size, memory};
use std::alloc::Global;
use std::env;
use std::io::Print;
use std::rt::Files;
use std::sync::Wait;
use std::thread::Threads;
use std::time::Clock;

// The words of benchmarks without threads, in the order in which `short` runs them.
const WORDS: [&str; 4] = ["stages", "reductions", "bounds", "checks"];

// The words of those with threads, in this order after the others.
const THREAD_WORDS: [&str; 5] = ["board", "turn", "searches", "seasons", "mixed"];

fn main(rt: HostRuntime) -> anyhow::Result<()> {
    let alloc = rt.alloc();
    let mut names = Vec::new(alloc);
    for word in env::args(&rt)?.skip(1) {
        names.push(word)?;
    }
    let word = if names.is_empty() {
        ""
    } else {
        names[0].as_str()
    };
    run_alone(&rt, word)?;
    run_together(&rt, alloc, word, &names)?;
    if word == "short" { Ok(()) } else { memory(&rt) }
}

// Runs the benchmark without threads that a word names, or all of them at a small size.
fn run_alone(rt: &HostRuntime, word: &str) -> anyhow::Result<()> {
    match word {
        "short" => run_all(rt),
        "board" | "turn" | "searches" | "seasons" | "mixed" => Ok(()),
        _ => run_one(rt, word, Size::Full),
    }
}

// Runs the benchmark with threads that a word names, or all of them at a small size.
fn run_together<R: Threads + Wait + Sync + Print + Clock + Files>(
    rt: &R,
    alloc: Global,
    word: &str,
    words: &[String],
) -> anyhow::Result<()> {
    match word {
        "short" => run_all_threads(rt, alloc, words),
        _ => run_threads(rt, alloc, word, words, Size::Full),
    }
}

// Runs each benchmark without threads at a small size.
fn run_all(rt: &HostRuntime) -> anyhow::Result<()> {
    for word in WORDS {
        run_one(rt, word, Size::Short)?;
    }
    Ok(())
}

// Runs each benchmark with threads at a small size.
fn run_all_threads<R: Threads + Wait + Sync + Print + Clock + Files>(
    rt: &R,
    alloc: Global,
    words: &[String],
) -> anyhow::Result<()> {
    for word in THREAD_WORDS {
        run_threads(rt, alloc, word, words, Size::Short)?;
    }
    Ok(())
}

// Runs the benchmark without threads that a word names. Where it names none, prints the words that
// do.
fn run_one(rt: &HostRuntime, word: &str, size: Size) -> anyhow::Result<()> {
    let alloc = rt.alloc();
    match word {
        "stages" => stages::run(rt, alloc, size),
        "reductions" => reductions::run(rt, alloc, size),
        "bounds" => bounds::run(rt, alloc, size),
        "checks" => checks::run(rt, alloc, size),
        _ => usage(rt),
    }
}

// Prints the words that name benchmarks.
fn usage(rt: &HostRuntime) -> anyhow::Result<()> {
    println!(rt;
        "desk_bench WORD: stages, reductions, bounds, checks, board, turn, searches,\n  \
        seasons [NUMBER UNITS], mixed CAP SCR [CAP SCR ..]; short runs all at a small size"
    )?;
    Ok(())
}

// Runs the benchmark with threads that a word names, if it names one. The first of the words of the
// command line is its own; those after it are numbers or files.
fn run_threads<R: Threads + Wait + Sync + Print + Clock + Files>(
    rt: &R,
    alloc: Global,
    word: &str,
    words: &[String],
    size: Size,
) -> anyhow::Result<()> {
    match word {
        "board" => board::run(rt, alloc, size),
        "turn" => turn::run(rt, alloc, size),
        "searches" => searches::run(rt, alloc, size),
        "seasons" => seasons::generated(rt, alloc, size, words),
        "mixed" => seasons::mixed(rt, alloc, size, words),
        _ => Ok(()),
    }
}
