//! Searches by workers: of a ring of units that exclude each other, by one and by four workers, and
//! of three seasons, for the time of a visit.

ghost use Rattle.std.specs.Prelude.{◌≤◌};

use crate::report::{Size, millis_since, now, print_row, rate, step};
use crate::seasons::{count_visited, made_season};
use crate::stages::{last_of, last_problem};
use choice_problem::{Alt, Chooser, Node, Part, Problem, Strip};
use dual_bound::root_vector;
use search_workers::{Outcome, search};
use slot_text::Memory;
use std::alloc::Global;
use std::io::Print;
use std::thread::Threads;
use std::time::{Clock, Instant};
use worker_gate::RealGate;

/// Searches a ring of 100 units with a budget of 120,000 visits by one and by four workers; and
/// seasons of 138 and of 1,000 daily turnarounds, and the 138 units of stage 4 of a generated one,
/// with a budget of 20,000 by one. Prints how many nodes were visited, and at full size the times,
/// the visits a second, and the time of the root vector, which each search makes.
pub fn run<R: Threads + Sync + Print + Clock>(
    rt: &R,
    alloc: Global,
    size: Size,
) -> anyhow::Result<()> {
    search_ring(rt, alloc, size)?;
    search_daily(rt, alloc, size)?;
    search_large(rt, alloc, size)?;
    search_generated(rt, alloc, size)
}

fn search_ring<R: Threads + Sync + Print + Clock>(
    rt: &R,
    alloc: Global,
    size: Size,
) -> anyhow::Result<()> {
    let (places, budget) = match size {
        Size::Short => (12, 50),
        Size::Full => (100, 120_000),
    };
    let ring = ring(alloc, places)?;
    compare_workers(rt, alloc, size, &ring, budget)
}

// Searches a problem by one and by four workers.
fn compare_workers<R: Threads + Sync + Print + Clock>(
    rt: &R,
    alloc: Global,
    size: Size,
    problem: &Problem,
    budget: u32,
) -> anyhow::Result<()> {
    let alone = search_by(rt, alloc, size, problem, budget, 1)?;
    let together = search_by(rt, alloc, size, problem, budget, 4)?;
    match size {
        Size::Short => Ok(()),
        Size::Full => {
            let share = together.saturating_mul(100) / alone.max(1);
            print_row(rt, "searches: four workers", &[("per cent of one", share)])
        }
    }
}

fn search_daily<R: Threads + Sync + Print + Clock>(
    rt: &R,
    alloc: Global,
    size: Size,
) -> anyhow::Result<()> {
    let (units, window) = match size {
        Size::Short => (8, b"CAP TOT 60 0000 2355 1234567 1\n".as_slice()),
        Size::Full => (138, b"CAP TOT 60 0000 2355 1234567 17\n".as_slice()),
    };
    search_due(rt, alloc, size, units, window)
}

// The same of a season whose turnarounds are all due in one stage.
fn search_large<R: Threads + Sync + Print + Clock>(
    rt: &R,
    alloc: Global,
    size: Size,
) -> anyhow::Result<()> {
    let (units, window) = match size {
        Size::Short => (24, b"CAP TOT 60 0000 2355 1234567 3\n".as_slice()),
        Size::Full => (1_000, b"CAP TOT 60 0000 2355 1234567 123\n".as_slice()),
    };
    search_due(rt, alloc, size, units, window)
}

// Searches the season of so many daily turnarounds under five of these capacity lines.
fn search_due<R: Threads + Sync + Print + Clock>(
    rt: &R,
    alloc: Global,
    size: Size,
    units: u32,
    window: &[u8],
) -> anyhow::Result<()> {
    let problem = last_problem(alloc, units, *b"NNNN", 5, window)?;
    search_season(rt, alloc, size, &problem)
}

fn search_generated<R: Threads + Sync + Print + Clock>(
    rt: &R,
    alloc: Global,
    size: Size,
) -> anyhow::Result<()> {
    let requests = match size {
        Size::Short => 40,
        Size::Full => 184,
    };
    let generated = generated_problem(alloc, requests)?;
    search_season(rt, alloc, size, &generated)
}

// The problem of stage 4 of a generated season, where no unit got anything before: it has three
// quarters of the units.
fn generated_problem(alloc: Global, units: u32) -> Result<Problem, Memory> {
    match made_season(alloc, 7, units)? {
        Some(made) => last_of(alloc, &made),
        None => Err(Memory),
    }
}

// Makes the root vector of a problem, and searches it by one worker.
fn search_season<R: Threads + Sync + Print + Clock>(
    rt: &R,
    alloc: Global,
    size: Size,
    problem: &Problem,
) -> anyhow::Result<()> {
    time_root(rt, alloc, size, problem)?;
    let budget = match size {
        Size::Short => 20,
        Size::Full => 20_000,
    };
    search_by(rt, alloc, size, problem, budget, 1)?;
    Ok(())
}

// Makes the root vector of a problem.
fn time_root<R: Print + Clock>(
    rt: &R,
    alloc: Global,
    size: Size,
    problem: &Problem,
) -> anyhow::Result<()> {
    let start = now(rt);
    let vector = root_vector(alloc, problem)?;
    print_root(rt, size, vector.items().len() as u64, start)
}

fn print_root<R: Print + Clock>(
    rt: &R,
    size: Size,
    prices: u64,
    start: Option<Instant>,
) -> anyhow::Result<()> {
    step(rt, size, "root_vector", start)?;
    print_row(rt, "searches", &[("prices", prices)])
}

// Searches a problem, and answers how many milliseconds that took.
fn search_by<R: Threads + Sync + Print + Clock>(
    rt: &R,
    alloc: Global,
    size: Size,
    problem: &Problem,
    budget: u32,
    workers: u32,
) -> anyhow::Result<u64>
    requires { (1 ≤ workers) × (workers ≤ 16) }
{
    let (millis, visited) = searched(rt, alloc, size, problem, budget, workers)?;
    let numbers = [
        ("units", u64::from(problem.units())),
        ("workers", u64::from(workers)),
        ("visits", visited),
    ];
    print_row(rt, "searches", &numbers)?;
    Ok(millis)
}

// Searches a problem: how many milliseconds that took, and how many nodes were visited.
fn searched<R: Threads + Sync + Print + Clock>(
    rt: &R,
    alloc: Global,
    size: Size,
    problem: &Problem,
    budget: u32,
    workers: u32,
) -> anyhow::Result<(u64, u64)>
    requires { (1 ≤ workers) × (workers ≤ 16) }
{
    let start = now(rt);
    let visited = visits_of(rt, alloc, problem, budget, workers)?;
    let millis = millis_since(rt, start);
    step(rt, size, "search", start)?;
    rate(rt, size, "visits", visited, start)?;
    Ok((millis, visited))
}

// Searches a problem: how many nodes were visited.
fn visits_of<R: Threads + Sync>(
    rt: &R,
    alloc: Global,
    problem: &Problem,
    budget: u32,
    workers: u32,
) -> Result<u64, Memory>
    requires { (1 ≤ workers) × (workers ≤ 16) }
{
    let outcome = search(rt, alloc, problem, budget, workers, &RealGate)?;
    Ok(count_visited(nodes_of(&outcome)))
}

// The nodes of the tree of a search.
fn nodes_of(outcome: &Outcome) -> &[Node] {
    match outcome {
        Outcome::Optimal { tree, .. } => tree.items(),
        Outcome::Infeasible { tree, .. } => tree.items(),
        Outcome::Spent { tree, .. } => tree.items(),
    }
}

// So many units in a ring, each of which excludes the next one and the one after it, or pays a
// price of its own.
fn ring(alloc: Global, count: u32) -> Result<Problem, Memory> {
    let mut units = Vec::new(alloc);
    for place in 0..count {
        units.push(ring_unit(alloc, place, count)?)?;
    }
    within_one(alloc, units, count)
}

// The problem of units under so many limits of one.
fn within_one(alloc: Global, units: Vec<Chooser>, count: u32) -> Result<Problem, Memory> {
    let limits = vec![in alloc; 1; count as usize]?;
    if Problem::allows(&units, &limits) {
        Ok(Problem::new(units, limits))
    } else {
        Err(Memory)
    }
}

// The unit of a place.
fn ring_unit(alloc: Global, place: u32, count: u32) -> Result<Chooser, Memory> {
    let parts = vec![in alloc; ring_part(alloc, place, count)?]?;
    priced(alloc, parts, u64::from(place % 7))
}

// The part of a place: the place, the next one and the one after it.
fn ring_part(alloc: Global, place: u32, count: u32) -> Result<Part, Memory> {
    let mut strips = Vec::new(alloc);
    for next in 0..3 {
        strips.push(Strip {
            first: place.wrapping_add(next) % count.max(1),
            width: 1,
            gap: 1,
            times: 1,
        })?;
    }
    Ok(Part::new(strips))
}

// A unit that takes its part, or pays a price.
fn priced(alloc: Global, parts: Vec<Part>, number: u64) -> Result<Chooser, Memory> {
    let price = number.wrapping_mul(number) % 7;
    let alts = vec![in alloc;
        Alt {
            cost: 0,
            one: Some(0),
            two: None,
        },
        Alt {
            cost: price.saturating_add(20),
            one: None,
            two: None,
        },
    ]?;
    if Chooser::allows(&parts, &alts) {
        Ok(Chooser::new(parts, alts))
    } else {
        Err(Memory)
    }
}
