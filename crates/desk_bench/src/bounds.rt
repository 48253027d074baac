//! Whether a choice fits, and Lagrangian bounds: leaves, price tables and the root vector.

ghost use Rattle.std.specs.Prelude.{All};
ghost use Rattle.choice_problem.specs.Bounds.{AreRanges, IsVector};
ghost use Rattle.price_table.specs.Tables.{IsTableFor};

use crate::report::{Size, now, print_row, step};
use crate::stages::{first_alternatives, new_requests};
use choice_problem::{Choice, Price, Problem, Ranges, Vector, cost_of, fits, leaf_closes};
use dual_bound::{floor_of, root_vector};
use price_table::{PriceTable, bound, price_table};
use slot_text::Memory;
use std::alloc::Global;
use std::time::Instant;

/// Prints for the problem of a season of new requests whether the choice of first alternatives
/// fits, whether a leaf closes at 16 prices, and the bounds and floors of these prices and of the
/// root vector.
pub fn run(rt: &HostRuntime, alloc: Global, size: Size) -> anyhow::Result<()> {
    let problem = new_requests(alloc, size)?;
    choose_and_price(rt, alloc, size, &problem)
}

fn choose_and_price(
    rt: &HostRuntime,
    alloc: Global,
    size: Size,
    problem: &Problem,
) -> anyhow::Result<()> {
    choose(rt, alloc, size, problem)?;
    let ranges = Ranges::whole(alloc, problem)?;
    price(rt, alloc, size, problem, &ranges)
}

fn price(
    rt: &HostRuntime,
    alloc: Global,
    size: Size,
    problem: &Problem,
    ranges: &Ranges,
) -> anyhow::Result<()>
    requires { AreRanges problem.now ranges.now }
{
    let spread = spread_prices(alloc, problem, 16)?;
    if !spread.is_for(problem) {
        return print_row(rt, "bounds: no vector", &[]);
    }
    judge_both(rt, alloc, size, problem, ranges, &spread)
}

fn judge_both(
    rt: &HostRuntime,
    alloc: Global,
    size: Size,
    problem: &Problem,
    ranges: &Ranges,
    spread: &Vector,
) -> anyhow::Result<()>
    requires ranges { AreRanges problem.now ranges.now }
    requires vector { IsVector problem.now spread.now }
{
    let start = now(rt);
    let closes = leaf_closes(problem, ranges, spread, 1, Some(1));
    step(rt, size, "leaf_closes", start)?;
    print_row(rt, "bounds: a leaf", &[("closes", u64::from(closes))])?;
    judge(rt, alloc, size, problem, ranges, spread)?;
    judge_root(rt, alloc, size, problem, ranges)
}

fn judge_root(
    rt: &HostRuntime,
    alloc: Global,
    size: Size,
    problem: &Problem,
    ranges: &Ranges,
) -> anyhow::Result<()>
    requires { AreRanges problem.now ranges.now }
{
    let start = now(rt);
    let root = root_vector(alloc, problem)?;
    judge_after(rt, alloc, size, problem, ranges, &root, start)
}

fn judge_after(
    rt: &HostRuntime,
    alloc: Global,
    size: Size,
    problem: &Problem,
    ranges: &Ranges,
    root: &Vector,
    start: Option<Instant>,
) -> anyhow::Result<()>
    requires ranges { AreRanges problem.now ranges.now }
    requires vector { IsVector problem.now root.now }
{
    step(rt, size, "root_vector", start)?;
    judge(rt, alloc, size, problem, ranges, root)
}

// Whether the choice of first alternatives fits.
fn choose(rt: &HostRuntime, alloc: Global, size: Size, problem: &Problem) -> anyhow::Result<()> {
    let choice = first_alternatives(alloc, problem)?;
    judge_choice(rt, alloc, size, problem, &choice)
}

fn judge_choice(
    rt: &HostRuntime,
    alloc: Global,
    size: Size,
    problem: &Problem,
    choice: &Choice,
) -> anyhow::Result<()> {
    if !choice.is_for(problem) {
        return print_row(rt, "bounds: no choice", &[]);
    }
    let start = now(rt);
    let yes = fits(alloc, problem, choice)?;
    step(rt, size, "fits", start)?;
    let cost = cost_of(problem, choice);
    let numbers = [("cost", cost), ("fits", u64::from(yes))];
    print_row(rt, "bounds: first alternatives", &numbers)
}

// A price of 100 on so many resources, spread over all.
fn spread_prices(alloc: Global, problem: &Problem, count: u32) -> Result<Vector, Memory> {
    let gap = (problem.resources() / count.max(1)).max(1);
    let mut prices = Vec::new(alloc);
    for number in 0..count {
        prices.push(Price {
            resource: number.wrapping_mul(gap),
            price: 100,
        })?;
    }
    Ok(Vector::new(prices))
}

// Makes a vector's table, and prints how many prices it has, and the bound, from 0 on, and the
// floor that it gives.
fn judge(
    rt: &HostRuntime,
    alloc: Global,
    size: Size,
    problem: &Problem,
    ranges: &Ranges,
    vector: &Vector,
) -> anyhow::Result<()>
    requires ranges { AreRanges problem.now ranges.now }
    requires vector { IsVector problem.now vector.now }
{
    let start = now(rt);
    let tables = [price_table(alloc, problem, vector)?];
    let prices = vector.items().len() as u64;
    judge_tables(rt, size, problem, ranges, prices, &tables, start)
}

fn judge_tables(
    rt: &HostRuntime,
    size: Size,
    problem: &Problem,
    ranges: &Ranges,
    prices: u64,
    tables: &[PriceTable; 1],
    start: Option<Instant>,
) -> anyhow::Result<()>
    requires ranges { AreRanges problem.now ranges.now }
    requires tables { All (IsTableFor problem.now) tables.now }
{
    step(rt, size, "price_table", start)?;
    let start = now(rt);
    let scaled = bound(problem, ranges, &tables[0], 1024);
    step(rt, size, "bound", start)?;
    let start = now(rt);
    let floor = floor_of(problem, ranges, tables).cost;
    step(rt, size, "floor_of", start)?;
    let least = u64::try_from(scaled).unwrap_or(0);
    let numbers = [("prices", prices), ("bound", least), ("floor", floor)];
    print_row(rt, "bounds", &numbers)
}
