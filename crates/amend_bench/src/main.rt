//! Benchmarks of amendments. `amend_bench WORD` runs the one that the word names at full size, and
//! prints counts and times; `amend_bench short` runs all at a small size and prints counts alone.
#![tactic(auto)]

mod asks;
mod books;
mod callers;
mod draws;
mod journal;
mod report;
mod sessions;
mod usage;

use books::book_of;
use holding_book::Book;
use report::Size;
use std::alloc::Global;
use std::env;
use std::io::Print;
use std::rt::Files;
use std::sync::Wait;
use std::thread::Threads;
use std::time::Clock;

fn main(rt: HostRuntime) -> anyhow::Result<()> {
    let alloc = rt.alloc();
    let mut names = Vec::new(alloc);
    for word in env::args(&rt)?.skip(1) {
        names.push(word)?;
    }
    start(&rt, alloc, &names)
}

// Makes the book that the words of the command line name, and runs the benchmark that the first of
// them names.
fn start<R: Threads + Wait + Sync + Print + Clock + Files>(
    rt: &R,
    alloc: Global,
    names: &[String],
) -> anyhow::Result<()> {
    let word = if names.is_empty() {
        ""
    } else {
        names[0].as_str()
    };
    let size = if word == "short" {
        Size::Short
    } else {
        Size::Full
    };
    let book = book_of(rt, alloc, size, word, names)?;
    match &book {
        Some(book) => run(rt, alloc, size, word, book),
        None => print_line(rt, "no book"),
    }
}

fn print_line<R: Print>(rt: &R, line: &str) -> anyhow::Result<()> {
    println!(rt; "{line}")?;
    Ok(())
}

// Runs the benchmark that a word names, or all. Where it names none, prints the words that do.
fn run<R: Threads + Wait + Sync + Print + Clock>(
    rt: &R,
    alloc: Global,
    size: Size,
    word: &str,
    book: &Book,
) -> anyhow::Result<()> {
    match word {
        "asks" => asks::run(rt, alloc, size, book),
        "ledger" => callers::run(rt, alloc, size, book),
        "sessions" => sessions::run(rt, alloc, size, book),
        "usage" => usage::run(rt, alloc, size, book),
        "journal" => journal::run(rt, alloc, size, book),
        "short" => {
            asks::run(rt, alloc, size, book)?;
            callers::run(rt, alloc, size, book)?;
            sessions::run(rt, alloc, size, book)?;
            usage::run(rt, alloc, size, book)?;
            journal::run(rt, alloc, size, book)
        }
        _ => print_line(
            rt,
            "amend_bench WORD [CAP SCR]: asks, ledger, sessions, usage, journal, short",
        ),
    }
}
