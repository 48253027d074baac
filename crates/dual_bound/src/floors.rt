//! The floor of ranges: a cost below which they have no feasible choice.

ghost use Rattle.std.specs.Prelude.{◌+◌, ◌≡◌, ◌^◌, ◌<◌, ◌≤◌, length, All, Some, []};
ghost use Rattle.choice_problem.specs.declared.closing.TheConstants.{PRICED_SCALE};
ghost use Rattle.choice_problem.specs.declared.vectors.TheConstants.{MOST_VECTORS};
ghost use Rattle.finite_sums.specs.Sums.{least_within};
ghost use Rattle.choice_problem.specs.Problems.{unit_count, alt_count};
ghost use Rattle.choice_problem.specs.Bounds.{AreRanges, Closes, priced_cost};
ghost use Rattle.choice_problem.specs.Trees.{LeafHolds};
ghost use Rattle.price_table.specs.Tables.{IsTableFor, vectors_of};
ghost use Rattle.dual_bound.specs.Stated.{IsStatedFloor, scale_at, zero_floor, rounded_up, priced_floor};

use choice_problem::{PRICED_SCALE, Problem, Ranges};
use price_table::{PriceTable, bound};

/// A cost, and the number of the vector whose bound shows that no feasible choice costs less: 0 is
/// the vector without prices, at scale 1, and others are meant at scale 1024.
#[derive(Clone, Copy, Debug, PartialEq, Eq)]
pub struct StatedFloor {
    pub cost: u64,
    pub vector: u32,
}

/// The floor of ranges by the vector without prices and those of these tables, which have the
/// numbers from 1 on: the greatest of the sum of the least costs, which is the bound of vector 0 at
/// scale 1, and of each other bound at scale 1024, divided by 1024 and rounded up. It names the
/// lowest vector that gives it; that vector closes the ranges for the cost. One step an alternative
/// in range for each vector.
pub fn floor_of(problem: &Problem, ranges: &Ranges, tables: &[PriceTable]) -> StatedFloor
    requires ranges { AreRanges problem.now ranges.now }
    requires tables { All (IsTableFor problem.now) tables.now }
    requires few { length tables.now ≤ MOST_VECTORS }
    ensures floor { IsStatedFloor problem.now ranges.now (vectors_of tables.now) result.cost
        result.vector }
    ensures closes { LeafHolds problem.now (vectors_of tables.now) (Some result.cost) ranges.now
        result.vector (scale_at result.vector) }
{
    let mut floor = StatedFloor {
        cost: least_costs(problem, ranges),
        vector: 0,
    };
    for place in 0..tables.len() {
        let cost = priced_floor(problem, ranges, &tables[place]);
        if floor.cost < cost {
            let vector = place as u32 + 1;
            floor = StatedFloor { cost, vector };
        }
    }
    floor
}

// The floor by a table's vector.
fn priced_floor(problem: &Problem, ranges: &Ranges, table: &PriceTable) -> u64
    requires ranges { AreRanges problem.now ranges.now }
    requires table { IsTableFor problem.now table.now }
    ensures value { result ≡ priced_floor problem.now ranges.now table.now.prices }
    ensures closes { 0 < result →
        Closes problem.now ranges.now table.now.prices PRICED_SCALE (Some result) }
{
    rounded_up(bound(problem, ranges, table, PRICED_SCALE))
}

// The least whole number that is at least a bound at scale 1024 divided by 1024, within 64 bits, or
// 0 below 0.
pub(crate) fn rounded_up(bound: i128) -> u64
    ensures { result ≡ rounded_up bound }
{
    if bound <= 0 {
        return 0;
    }
    let whole = (bound as u128 + 1023) / u128::from(PRICED_SCALE);
    whole.min(u128::from(u64::MAX)) as u64
}

// The sum over units of the least cost in range.
fn least_costs(problem: &Problem, ranges: &Ranges) -> u64
    requires { AreRanges problem.now ranges.now }
    ensures value { result ≡ zero_floor problem.now ranges.now }
    ensures closes { Closes problem.now ranges.now [] 1 (Some result) }
{
    let mut total = 0;
    for unit in 0..problem.units() {
        total += least_cost(problem, unit, ranges.low(unit), ranges.high(unit));
    }
    total
}

// The least cost of a unit's alternatives from one to another.
#[tactic(auto, using(crate::proofs::FloorLemmas::least_steps))]
pub(crate) fn least_cost(problem: &Problem, unit: u32, low: u32, high: u32) -> u64
    requires unit { unit < unit_count problem.now }
    requires ordered { low ≤ high }
    requires there { high < alt_count problem.now unit }
    ensures value { result ≡ least_within low high (λ a. priced_cost problem.now [] 1 unit a) }
    ensures small { result < 2 ^ 24 }
{
    let mut least = problem.alt_cost(unit, low);
    for alt in low..high {
        least = least.min(problem.alt_cost(unit, alt + 1));
    }
    least
}
