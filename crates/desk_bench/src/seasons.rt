//! Whole runs of seasons: of files, and of generated seasons.

ghost use Rattle.cert_format.specs.Printable.{IsPrintable};
ghost use Rattle.wasg_stages.specs.Valid.{IsValid};

use crate::report::{Size, now, print_row, step};
use crate::texts::{MOST_BYTES, submission_of};
use cert_checker::{Verdict, check};
use cert_format::{Certificate, StageCert};
use choice_problem::Node;
use desk_outside::{Cabinet, RealCabinet};
use season_maker::make_season;
use season_report::report_text;
use season_run::run_season;
use series_model::Submission;
use slot_text::Memory;
use std::alloc::Global;
use std::io::Print;
use std::rt::Files;
use std::thread::Threads;
use std::time::{Clock, Instant};
use worker_gate::RealGate;

/// Runs the seasons of files, which the words after the first one name: a capacity file and a file
/// of requests each.
pub fn mixed<R: Threads + Sync + Print + Clock + Files>(
    rt: &R,
    alloc: Global,
    size: Size,
    words: &[String],
) -> anyhow::Result<()> {
    for place in 1..words.len() {
        if place % 2 == 1 && place + 1 < words.len() {
            run_files(rt, alloc, size, &words[place], &words[place + 1])?;
        }
    }
    Ok(())
}

// Runs the season of two files.
fn run_files<R: Threads + Sync + Print + Clock + Files>(
    rt: &R,
    alloc: Global,
    size: Size,
    capacity: &str,
    requests: &str,
) -> anyhow::Result<()> {
    match season_of_files(rt, alloc, capacity, requests) {
        Some(season) => run_and_check(rt, alloc, size, capacity, &season),
        None => print_row(rt, "no season", &[]),
    }
}

// The season of two files, unless one of them cannot be read or has a fault.
fn season_of_files<R: Files>(
    rt: &R,
    alloc: Global,
    capacity: &str,
    requests: &str,
) -> Option<Submission> {
    let mut cabinet = RealCabinet::new(rt);
    let capacity = cabinet.read(alloc, capacity, MOST_BYTES).ok()?;
    let requests = cabinet.read(alloc, requests, MOST_BYTES).ok()?;
    submission_of(alloc, &capacity, &requests)
}

// The number and the units of a generated season, where the words do not say them.
const USUAL: (u32, u32) = (7, 200);

// The most units of a season.
const MOST_UNITS: u32 = 4_096;

/// Runs a generated season. The two words after the first one are its number and its units.
pub fn generated<R: Threads + Sync + Print + Clock>(
    rt: &R,
    alloc: Global,
    size: Size,
    words: &[String],
) -> anyhow::Result<()> {
    let (number, units) = match size {
        Size::Short => (7, 12),
        Size::Full => (number_at(words, 1, USUAL.0), number_at(words, 2, USUAL.1)),
    };
    match made_season(alloc, number, units)? {
        Some(season) => run_and_check(rt, alloc, size, "generated", &season),
        None => print_row(rt, "no season", &[]),
    }
}

/// The generated season of this number, with so many units, or the most that a season has.
pub fn made_season(alloc: Global, number: u32, units: u32) -> Result<Option<Submission>, Memory> {
    let (capacity, requests) = make_season(alloc, number, units.min(MOST_UNITS))?;
    Ok(submission_of(alloc, &capacity, &requests))
}

// The number that a word is, or the usual one.
fn number_at(words: &[String], place: usize, usual: u32) -> u32 {
    if place < words.len() {
        words[place].parse::<u32>().unwrap_or(usual)
    } else {
        usual
    }
}

// Runs a season with the budget and the workers that the desk takes where its words name none; at
// the small size with fewer. Prints its stages and the verdict on its certificate.
fn run_and_check<R: Threads + Sync + Print + Clock>(
    rt: &R,
    alloc: Global,
    size: Size,
    name: &str,
    season: &Submission,
) -> anyhow::Result<()> {
    let (budget, workers) = match size {
        Size::Short => (10_000, 1),
        Size::Full => (100_000, 4),
    };
    println!(rt; "{name}: {} units", season.units().len())?;
    let start = now(rt);
    let cert = run_season(rt, alloc, season, budget, workers, &RealGate)?;
    judge(rt, alloc, size, name, season, &cert, start)
}

// Prints the stages of a season, and the verdict on its certificate; of a valid one the bytes of
// its report.
fn judge<R: Print + Clock>(
    rt: &R,
    alloc: Global,
    size: Size,
    name: &str,
    season: &Submission,
    cert: &Certificate,
    start: Option<Instant>,
) -> anyhow::Result<()>
    requires { IsPrintable cert.now }
{
    step(rt, size, "run", start)?;
    print_stages(rt, cert.stages.items())?;
    let start = now(rt);
    let verdict = check(alloc, season, cert)?;
    step(rt, size, "check", start)?;
    println!(rt; "{name}: valid {}", verdict == Verdict::Yes)?;
    match verdict {
        Verdict::Yes => time_report(rt, alloc, size, name, season, cert),
        Verdict::No { .. } => Ok(()),
    }
}

// Prints how many bytes the report on a valid certificate has.
fn time_report<R: Print + Clock>(
    rt: &R,
    alloc: Global,
    size: Size,
    name: &str,
    season: &Submission,
    cert: &Certificate,
) -> anyhow::Result<()>
    requires { IsValid season.now cert.now }
{
    let start = now(rt);
    let text = report_text(alloc, season, cert)?;
    print_report(rt, size, name, text.len(), start)
}

fn print_report<R: Print + Clock>(
    rt: &R,
    size: Size,
    name: &str,
    bytes: usize,
    start: Option<Instant>,
) -> anyhow::Result<()> {
    step(rt, size, "report", start)?;
    println!(rt; "{name}: report of {bytes} bytes")?;
    Ok(())
}

// Prints the mark of each stage, its cost, how many nodes its tree has, and how many vectors there
// are.
fn print_stages<R: Print>(rt: &R, stages: &[StageCert]) -> anyhow::Result<()> {
    for (place, stage) in stages.iter().enumerate() {
        let mark = stage.mark;
        let cost = stage.cost.unwrap_or(0);
        let nodes = count_visited(stage.tree.items());
        let vectors = stage.vectors.items().len();
        println!(rt;
            "  stage {}: {mark:?}, cost {cost}, nodes {nodes}, vectors {vectors}",
            place + 1
        )?;
    }
    Ok(())
}

/// How many nodes are not undone.
pub fn count_visited(nodes: &[Node]) -> u64 {
    let mut count = 0_u64;
    for node in nodes {
        if *node != Node::Undone {
            count = count.saturating_add(1);
        }
    }
    count
}
