//! What closes a leaf: the Lagrangian bound, or a resource whose least load passes its limit.

ghost use Rattle.std.specs.Prelude.{◌≡◌, ◌↔◌, ◌<◌, ◌≤◌, ◌^◌, IsTrue, pos, ◌-ℤ◌, ◌*ℤ◌, ◌<ℤ◌};
ghost use Rattle.finite_sums.specs.Sums.{least_within};
ghost use Rattle.choice_problem.specs.declared.problems.TheConstants.{MOST_USES};
ghost use Rattle.choice_problem.specs.declared.closing.TheConstants.{SCALE_BOUND};
ghost use Rattle.choice_problem.specs.Problems.{unit_count, alt_count, resource_count, alt_uses, limit_of};
ghost use Rattle.choice_problem.specs.Bounds.{
  AreRanges,
  IsVector,
  IsOver,
  Closes,
  least_load,
  bound_of,
  priced,
  priced_cost,
  least_total,
};

use crate::problems::Problem;
use crate::spans::Ranges;
use crate::vectors::Vector;

/// What the scale of a bound stays below.
pub const SCALE_BOUND: u64 = 1 << 20;

/// The scale at which a search takes its bounds with prices, so that a price is given to 1/1024 of
/// a cost.
pub const PRICED_SCALE: u64 = 1_024;

/// Whether even the least load of a resource passes its limit.
pub fn over_closes(problem: &Problem, ranges: &Ranges, resource: u32) -> bool
    requires ranges { AreRanges problem.now ranges.now }
    requires resource { resource < resource_count problem.now }
    ensures { IsTrue result ↔ IsOver problem.now ranges.now resource }
{
    let mut load = 0;
    for unit in 0..problem.units() {
        load += i64::from(least_uses(problem, unit, ranges.low(unit), ranges.high(unit), resource));
    }
    load > problem.limit(resource)
}

/// The least number of a unit's uses of a resource from one alternative to another. It stops at the
/// first that does not use it.
#[tactic(auto, using(finite_sums::proofs::SumLemmas::least_within_steps))]
pub fn least_uses(problem: &Problem, unit: u32, low: u32, high: u32, resource: u32) -> u32
    requires unit { unit < unit_count problem.now }
    requires ordered { low ≤ high }
    requires there { high < alt_count problem.now unit }
    ensures value { result ≡ least_within low high (λ a. alt_uses problem.now unit a resource) }
    ensures few { result ≤ MOST_USES }
{
    let mut least = problem.uses(unit, low, resource);
    for alt in low..high {
        if least == 0 {
            return 0;
        }
        least = least.min(problem.uses(unit, alt + 1, resource));
    }
    least
}

/// Whether the bound closes ranges for a cost, or where no cost is known.
pub fn leaf_closes(
    problem: &Problem,
    ranges: &Ranges,
    vector: &Vector,
    scale: u64,
    seen: Option<u64>,
) -> bool
    requires ranges { AreRanges problem.now ranges.now }
    requires vector { IsVector problem.now vector.now }
    requires scale { scale < SCALE_BOUND }
    ensures { IsTrue result ↔ Closes problem.now ranges.now vector.now scale seen }
{
    let bound = bound(problem, ranges, vector, scale);
    match seen {
        Some(cost) => bound_passes(bound, scale, cost),
        None => scale == 0 && bound > 0,
    }
}

/// Whether a bound at a scale shows that every cost is at least this one.
pub fn bound_passes(bound: i128, scale: u64, cost: u64) -> bool
    requires { scale < SCALE_BOUND }
    ensures { IsTrue result ↔ ((pos scale *ℤ (pos cost -ℤ pos 1)) <ℤ bound) }
{
    bound > i128::from(scale) * (i128::from(cost) - 1)
}

// The Lagrangian bound of ranges, scaled.
fn bound(problem: &Problem, ranges: &Ranges, vector: &Vector, scale: u64) -> i128
    requires ranges { AreRanges problem.now ranges.now }
    requires vector { IsVector problem.now vector.now }
    requires scale { scale < SCALE_BOUND }
    ensures { result ≡ bound_of problem.now ranges.now vector.now scale }
{
    least_total(problem, ranges, vector, scale) as i128 - priced_limits(problem, vector) as i128
}

// The sum over units of the least priced cost in range.
fn least_total(problem: &Problem, ranges: &Ranges, vector: &Vector, scale: u64) -> u128
    requires ranges { AreRanges problem.now ranges.now }
    requires vector { IsVector problem.now vector.now }
    requires scale { scale < SCALE_BOUND }
    ensures value { result ≡ least_total problem.now ranges.now vector.now scale }
    ensures small { result ≤ 2 ^ 126 }
{
    let mut total = 0;
    for unit in 0..problem.units() {
        total += least_cost(
            problem,
            unit,
            ranges.low(unit),
            ranges.high(unit),
            vector,
            scale,
        );
    }
    total
}

// The least priced cost of a unit from one alternative to another.
#[tactic(auto, using(finite_sums::proofs::SumLemmas::least_within_steps))]
fn least_cost(
    problem: &Problem,
    unit: u32,
    low: u32,
    high: u32,
    vector: &Vector,
    scale: u64,
) -> u128
    requires unit { unit < unit_count problem.now }
    requires ordered { low ≤ high }
    requires there { high < alt_count problem.now unit }
    requires vector { IsVector problem.now vector.now }
    requires scale { scale < SCALE_BOUND }
    ensures value { result
        ≡ least_within low high (λ a. priced_cost problem.now vector.now scale unit a) }
    ensures small { result < 2 ^ 114 }
{
    let mut least = alt_price(problem, unit, low, vector, scale);
    for alt in low..high {
        least = least.min(alt_price(problem, unit, alt + 1, vector, scale));
    }
    least
}

// An alternative's scaled cost, with its uses at their prices.
fn alt_price(problem: &Problem, unit: u32, alt: u32, vector: &Vector, scale: u64) -> u128
    requires unit { unit < unit_count problem.now }
    requires alt { alt < alt_count problem.now unit }
    requires vector { IsVector problem.now vector.now }
    requires scale { scale < SCALE_BOUND }
    ensures value { result ≡ priced_cost problem.now vector.now scale unit alt }
    ensures small { result < 2 ^ 114 }
{
    let cost = u128::from(scale * problem.alt_cost(unit, alt));
    cost + priced_uses(problem, unit, alt, vector)
}

// An alternative's uses at their prices.
fn priced_uses(problem: &Problem, unit: u32, alt: u32, vector: &Vector) -> u128
    requires unit { unit < unit_count problem.now }
    requires alt { alt < alt_count problem.now unit }
    requires vector { IsVector problem.now vector.now }
    ensures value { result ≡ priced vector.now (λ r. alt_uses problem.now unit alt r) }
    ensures small { result < 2 ^ 113 }
{
    let mut total = 0;
    for entry in vector.items() {
        let uses = problem.uses(unit, alt, entry.resource);
        total += u128::from(entry.amount()) * u128::from(uses);
    }
    total
}

/// The limits at the vector's prices: what the bound takes off. One step a price.
pub fn priced_limits(problem: &Problem, vector: &Vector) -> u128
    requires vector { IsVector problem.now vector.now }
    ensures value { result ≡ priced vector.now (λ r. limit_of problem.now r) }
    ensures small { result < 2 ^ 124 }
{
    let mut total = 0;
    for entry in vector.items() {
        let limit = problem.limit(entry.resource) as u64;
        total += u128::from(entry.amount()) * u128::from(limit);
    }
    total
}
