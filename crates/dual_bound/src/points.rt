//! Points of subgradient runs: prices of all resources, or of classes of equal ones, and the bound
//! there.

ghost use Rattle.std.specs.Prelude.{◌≡◌, ℕ, ◌+◌, ◌*◌, ◌^◌, ◌<◌, ◌≤◌, IfOk, List, length, slice_index, pos, ◌-ℤ◌};
ghost use Rattle.choice_problem.specs.declared.closing.TheConstants.{PRICED_SCALE, SCALE_BOUND};
ghost use Rattle.choice_problem.specs.declared.problems.TheConstants.{MOST_UNITS, MOST_USES};
ghost use Rattle.choice_problem.specs.declared.vectors.Price.{Price};
ghost use Rattle.choice_problem.specs.Problems.{ProblemView, unit_count, resource_count, alt_uses, limit_of};
ghost use Rattle.choice_problem.specs.declared.vectors.TheConstants.{ROOT_STEPS};
ghost use Rattle.choice_problem.specs.Bounds.{AreRanges, IsVector, priced, least_total};
ghost use Rattle.choice_problem.specs.Roots.{step_length};
ghost use Rattle.price_table.specs.Strips.{ArePrices, IsPricedBy, least_alt, unit_least};
ghost use Rattle.dual_bound.specs.Ends.{AreEnds, AddEnds};
ghost use Rattle.dual_bound.specs.Same.{AreSameTo, AreCosts, AreCostsTo};
ghost use Rattle.dual_bound.specs.Loops.{IsPoint, AreMoved, IsAfter, IsGreatestUpTo, vector_in, least_alt_load};

use crate::loads::{add_alt, loads_of};
use crate::same::{PartCosts, SameParts, part_costs};
use choice_problem::{HIGHEST_PRICE, Price, Problem, ROOT_STEPS, Ranges, Vector, price_vectors};
use price_table::StripPrices;
use slot_text::Memory;
use std::alloc::Global;

// The highest price, as a number.
pub(crate) const HIGHEST: u64 = HIGHEST_PRICE as u64;

// Prices of all resources, or of classes of equal ones; how often each unit's first least
// alternative at these prices uses one, all units together; and the bound, where the price of a
// class counts as often as it has resources.
#[derive(Drop)]
pub(crate) struct Point {
    pub(crate) prices: Vec<u64>,
    pub(crate) loads: Vec<u32>,
    pub(crate) bound: i128,
}

// Prices of all resources, or of classes, and the bound there.
#[derive(Drop)]
pub(crate) struct Best {
    pub(crate) prices: Vec<u64>,
    pub(crate) bound: i128,
}

// The prices of a point, as the first best ones.
pub(crate) fn first_best(alloc: Global, here: &Point) -> Result<Best, Memory>
    ensures { IfOk result (λ best.
        (best.prices.items ≡ here.now.prices.items) × (best.bound ≡ here.now.bound)) }
{
    Ok(Best {
        prices: Vec::from_slice(alloc, &here.prices)?,
        bound: here.bound,
    })
}

// The best prices, or those of a point whose bound is greater.
pub(crate) fn better(alloc: Global, best: Best, here: &Point) -> Result<Best, Memory>
    ensures greatest { IfOk result (λ better. (p : ProblemView) (ranges : List (ℕ × ℕ)) (n : ℕ)
        (spread : List ℕ → List ℕ) → IsPoint p ranges PRICED_SCALE
        (spread here.now.prices.items) (spread here.now.loads.items) here.now.bound →
        IsAfter p ranges (n + 1) (spread here.now.prices.items) →
        IsGreatestUpTo p ranges n (spread best.prices.items) best.bound →
        IsGreatestUpTo p ranges (n + 1) (spread better.prices.items) better.bound) }
    ensures prices { IfOk result (λ better. (p : ProblemView) → ArePrices p best.prices.items →
        ArePrices p here.now.prices.items →
        ArePrices p better.prices.items) }
{
    if here.bound > best.bound {
        first_best(alloc, here)
    } else {
        Ok(best)
    }
}

// The point of no prices.
pub(crate) fn start(
    alloc: Global,
    problem: &Problem,
    same: &[SameParts],
    ranges: &Ranges,
    scale: u64,
) -> Result<Point, Memory>
    requires same { AreSameTo problem.now (unit_count problem.now) same.now }
    requires ranges { AreRanges problem.now ranges.now }
    requires scale { scale < SCALE_BOUND }
    ensures point { IfOk result (λ point. IsPoint problem.now ranges.now scale point.prices.items
        point.loads.items point.bound) }
    ensures free { IfOk result (λ point. (r : ℕ) → r < resource_count problem.now →
        slice_index point.prices.items r ≡ 0) }
{
    let prices = vec![in alloc; 0; problem.resources() as usize]?;
    evaluate(alloc, problem, same, ranges, prices, scale)
}

// The point of these prices.
pub(crate) fn evaluate(
    alloc: Global,
    problem: &Problem,
    same: &[SameParts],
    ranges: &Ranges,
    prices: Vec<u64>,
    scale: u64,
) -> Result<Point, Memory>
    requires same { AreSameTo problem.now (unit_count problem.now) same.now }
    requires ranges { AreRanges problem.now ranges.now }
    requires prices { ArePrices problem.now prices.items }
    requires scale { scale < SCALE_BOUND }
    ensures point { IfOk result (λ point. IsPoint problem.now ranges.now scale point.prices.items
        point.loads.items point.bound) }
    ensures same { IfOk result (λ point. point.prices.items ≡ prices.items) }
{
    price_vectors();
    let mut strips = StripPrices::new(alloc, problem, &prices)?;
    let costs = part_costs(alloc, problem, same, &mut strips)?;
    let (total, loads) = least_loads(alloc, problem, ranges, &costs, &strips, scale)?;
    let bound = difference(total, priced_limits(problem, &prices));
    Ok(Point {
        prices,
        loads,
        bound,
    })
}

// The sum of the least priced costs, and how often the units' first least alternatives use each
// resource.
fn least_loads(
    alloc: Global,
    problem: &Problem,
    ranges: &Ranges,
    costs: &[PartCosts],
    strips: &StripPrices,
    scale: u64,
) -> Result<(u128, Vec<u32>), Memory>
    requires ranges { AreRanges problem.now ranges.now }
    requires costs { AreCostsTo problem.now strips.now (unit_count problem.now) costs.now }
    requires priced { (prices : List Price) × IsPricedBy problem.now prices strips.now }
    requires scale { scale < SCALE_BOUND }
    ensures total { IfOk result (λ x. (prices : List Price) →
        IsPricedBy problem.now prices strips.now →
        x.0 ≡ least_total problem.now ranges.now prices scale) }
    ensures count { IfOk result (λ x. length x.1.items ≡ resource_count problem.now) }
    ensures loads { IfOk result (λ x. (prices : List Price) →
        IsPricedBy problem.now prices strips.now → (r : ℕ) → r < resource_count problem.now →
        slice_index x.1.items r
        ≡ least_alt_load problem.now ranges.now prices scale (unit_count problem.now) r) }
    ensures few { IfOk result (λ _. (prices : List Price) →
        IsPricedBy problem.now prices strips.now → (r : ℕ) →
        least_alt_load problem.now ranges.now prices scale (unit_count problem.now) r
        ≤ MOST_UNITS * MOST_USES) }
    ensures small { IfOk result (λ x. x.0 < 2 ^ 126) }
{
    let places = problem.resources() as usize + 1;
    let mut begins = vec![in alloc; 0; places]?;
    let mut ends = vec![in alloc; 0; places]?;
    let total = take_least(
        problem,
        ranges,
        costs,
        strips,
        scale,
        &mut begins,
        &mut ends,
    );
    let loads = loads_of(alloc, problem.resources(), &begins, &ends)?;
    Ok((total, loads))
}

// The difference of two numbers that fit.
fn difference(one: u128, other: u128) -> i128
    requires one { one < 2 ^ 126 }
    requires other { other < 2 ^ 126 }
    ensures { result ≡ pos one -ℤ pos other }
{
    one as i128 - other as i128
}

// The limits at their prices.
fn priced_limits(problem: &Problem, prices: &[u64]) -> u128
    requires { ArePrices problem.now prices.now }
    ensures value { result ≡ priced (vector_in problem.now prices.now)
        (λ r. limit_of problem.now r) }
    ensures small { result < 2 ^ 126 }
{
    let mut total = 0;
    for resource in 0..problem.resources() {
        let limit = problem.limit(resource) as u64;
        total += u128::from(prices[resource as usize]) * u128::from(limit);
    }
    total
}

// Adds the runs of each unit's first least alternative, and answers the sum of the least priced
// costs.
fn take_least(
    problem: &Problem,
    ranges: &Ranges,
    costs: &[PartCosts],
    strips: &StripPrices,
    scale: u64,
    begins: &mut [u32],
    ends: &mut [u32],
) -> u128
    requires ranges { AreRanges problem.now ranges.now }
    requires costs { AreCostsTo problem.now strips.now (unit_count problem.now) costs.now }
    requires priced { (prices : List Price) × IsPricedBy problem.now prices strips.now }
    requires scale { scale < SCALE_BOUND }
    requires begins { length begins.old ≡ resource_count problem.now + 1 }
    requires ends { length ends.old ≡ resource_count problem.now + 1 }
    requires empty { (k : ℕ) → k < length begins.old → slice_index begins.old k ≡ 0 }
    requires none { (k : ℕ) → k < length ends.old → slice_index ends.old k ≡ 0 }
    ensures total { (prices : List Price) → IsPricedBy problem.now prices strips.now →
        result ≡ least_total problem.now ranges.now prices scale }
    ensures runs { (prices : List Price) → IsPricedBy problem.now prices strips.now →
        AreEnds (resource_count problem.now)
        (λ r. least_alt_load problem.now ranges.now prices scale (unit_count problem.now) r)
        begins.new ends.new }
    ensures few { (prices : List Price) → IsPricedBy problem.now prices strips.now → (r : ℕ) →
        least_alt_load problem.now ranges.now prices scale (unit_count problem.now) r
        ≤ MOST_UNITS * MOST_USES }
    ensures small { result < 2 ^ 126 }
{
    let mut total = 0;
    for unit in 0..problem.units() {
        let parts = costs[unit as usize].items();
        total += take_unit(problem, ranges, unit, parts, strips, scale, begins, ends);
    }
    total
}

// Adds the runs of a unit's first least alternative, and answers its priced cost.
fn take_unit(
    problem: &Problem,
    ranges: &Ranges,
    unit: u32,
    parts: &[u128],
    strips: &StripPrices,
    scale: u64,
    begins: &mut [u32],
    ends: &mut [u32],
) -> u128
    requires ranges { AreRanges problem.now ranges.now }
    requires unit { unit < unit_count problem.now }
    requires parts { AreCosts problem.now strips.now unit parts.now }
    requires priced { (prices : List Price) × IsPricedBy problem.now prices strips.now }
    requires scale { scale < SCALE_BOUND }
    requires begins { length begins.old ≡ resource_count problem.now + 1 }
    requires ends { length ends.old ≡ resource_count problem.now + 1 }
    ensures cost { (prices : List Price) → IsPricedBy problem.now prices strips.now →
        result ≡ unit_least problem.now ranges.now prices scale unit }
    ensures runs { (prices : List Price) → IsPricedBy problem.now prices strips.now →
        AddEnds begins.old ends.old begins.new ends.new (λ r. alt_uses problem.now unit
        (least_alt problem.now ranges.now prices scale unit) r) }
    ensures few { (prices : List Price) → IsPricedBy problem.now prices strips.now → (r : ℕ) →
        alt_uses problem.now unit (least_alt problem.now ranges.now prices scale unit) r
        ≤ MOST_USES }
    ensures small { result < 2 ^ 101 }
{
    let least = strips.first_least(problem, ranges, unit, parts, scale);
    let _alts = problem.unit_alts(unit);
    add_alt(problem, unit, least.alt, begins, ends);
    least.cost
}

// How far a step moves a price for each use above or below the limit.
pub(crate) fn step_length(step: u32) -> u64
    requires { step < ROOT_STEPS }
    ensures { result ≡ step_length step }
{
    16384 >> (step / 8)
}

// The prices after a step of this length: each rises or falls by so much for each use above or
// below the limit, and stays a price.
pub(crate) fn move_prices(
    alloc: Global,
    problem: &Problem,
    prices: &[u64],
    loads: &[u32],
    step: u64,
) -> Result<Vec<u64>, Memory>
    requires prices { ArePrices problem.now prices.now }
    requires count { length loads.now ≡ resource_count problem.now }
    requires step { step ≤ 16384 }
    ensures moved { IfOk result (λ moved. AreMoved problem.now prices.now loads.now step
        moved.items) }
    ensures prices { IfOk result (λ moved. ArePrices problem.now moved.items) }
{
    let mut moved = Vec::with_capacity(alloc, prices.len())?;
    for resource in 0..problem.resources() {
        let at = resource as usize;
        let raised = prices[at] + step * u64::from(loads[at]);
        let lowered = raised.saturating_sub(step * problem.limit(resource) as u64);
        moved.push(lowered.min(HIGHEST))?;
    }
    Ok(moved)
}

// The vector of these prices.
pub(crate) fn vector_in(alloc: Global, problem: &Problem, prices: &[u64]) -> Result<Vector, Memory>
    requires { ArePrices problem.now prices.now }
    ensures value { IfOk result (λ vector. vector ≡ vector_in problem.now prices.now) }
    ensures valid { IfOk result (λ vector. IsVector problem.now vector) }
{
    price_vectors();
    let mut entries = Vec::new(alloc);
    for resource in 0..problem.resources() {
        let price = prices[resource as usize];
        if price > 0 {
            entries.push(Price {
                resource,
                price: price as i64,
            })?;
        }
    }
    Ok(Vector::new(entries))
}
