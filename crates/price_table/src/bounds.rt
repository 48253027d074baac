//! The bound of ranges, from a price table.

ghost use Rattle.std.specs.Prelude.{◌≡◌, ℕ, ◌+◌, ◌*◌, ◌^◌, ◌<◌, ◌≤◌, length};
ghost use Rattle.choice_problem.specs.declared.closing.TheConstants.{SCALE_BOUND};
ghost use Rattle.std.specs.Option.{ForSome};
ghost use Rattle.finite_sums.specs.Sums.{least_within, first_least};
ghost use Rattle.choice_problem.specs.Problems.{unit_count};
ghost use Rattle.choice_problem.specs.Bounds.{AreRanges, least_total, bound_of};
ghost use Rattle.price_table.specs.Tables.{IsTableFor, named_price};
ghost use Rattle.price_table.specs.Strips.{unit_least};
ghost use Rattle.price_table.specs.Loops.{unit_cost, ArePriceable};

use crate::tables::PriceTable;
use choice_problem::{Alt, Problem, Ranges};

/// The Lagrangian bound of ranges at the table's vector, scaled: the sum over units of the least of
/// `scale` times an alternative's cost and its uses at their prices, less the limits at their
/// prices. One step an alternative in range.
pub fn bound(problem: &Problem, ranges: &Ranges, table: &PriceTable, scale: u64) -> i128
    requires ranges { AreRanges problem.now ranges.now }
    requires table { IsTableFor problem.now table.now }
    requires scale { scale < SCALE_BOUND }
    ensures { result ≡ bound_of problem.now ranges.now table.now.prices scale }
{
    least_total(problem, ranges, table, scale) as i128 - table.limits() as i128
}

// The sum over units of the least priced cost in range.
fn least_total(problem: &Problem, ranges: &Ranges, table: &PriceTable, scale: u64) -> u128
    requires ranges { AreRanges problem.now ranges.now }
    requires table { IsTableFor problem.now table.now }
    requires scale { scale < SCALE_BOUND }
    ensures value { result ≡ least_total problem.now ranges.now table.now.prices scale }
    ensures small { result ≤ 2 ^ 113 }
{
    let mut total = 0;
    for unit in 0..problem.units() {
        total += unit_least(problem, ranges, table, unit, scale);
    }
    total
}

// A unit's least priced cost in its range.
pub(crate) fn unit_least(
    problem: &Problem,
    ranges: &Ranges,
    table: &PriceTable,
    unit: u32,
    scale: u64,
) -> u128
    requires ranges { AreRanges problem.now ranges.now }
    requires table { IsTableFor problem.now table.now }
    requires unit { unit < unit_count problem.now }
    requires scale { scale < SCALE_BOUND }
    ensures value { result ≡ unit_least problem.now ranges.now table.now.prices scale unit }
    ensures small { result < 2 ^ 101 }
{
    let alts = problem.unit_alts(unit);
    first_least(
        alts,
        ranges.low(unit),
        ranges.high(unit),
        table.unit(unit),
        scale,
    )
    .cost
}

/// An alternative, and its priced cost: the scaled cost and the uses at their prices.
#[derive(Clone, Copy)]
pub struct Least {
    pub alt: u32,
    pub cost: u128,
}

// The first alternative from one to another that is least by `scale` times its cost and the prices
// of its parts.
#[tactic(auto, using(crate::proofs::BoundLemmas::least_steps))]
pub(crate) fn first_least(alts: &[Alt], low: u32, high: u32, prices: &[u128], scale: u64) -> Least
    requires ordered { low ≤ high }
    requires there { high < length alts.now }
    requires priceable { ArePriceable alts.now prices.now }
    requires scale { scale < SCALE_BOUND }
    ensures alt { result.alt ≡ first_least low high (λ a. unit_cost alts.now prices.now scale a) }
    ensures cost { result.cost ≡ least_within low high
        (λ a. unit_cost alts.now prices.now scale a) }
    ensures there { result.alt ≤ high }
    ensures small { result.cost < 2 ^ 101 }
{
    let mut least = Least {
        alt: low,
        cost: priced_cost(&alts[low as usize], prices, scale),
    };
    for alt in low..high {
        let cost = priced_cost(&alts[alt as usize + 1], prices, scale);
        if cost < least.cost {
            least = Least { alt: alt + 1, cost };
        }
    }
    least
}

// An alternative's scaled cost, with the prices of the parts that it names.
fn priced_cost(alt: &Alt, prices: &[u128], scale: u64) -> u128
    requires cost { alt.now.cost < 2 ^ 24 }
    requires one { ForSome alt.now.one (λ k. k < length prices.now) }
    requires two { ForSome alt.now.two (λ k. k < length prices.now) }
    requires uses { named_price prices.now alt.now.one
        + named_price prices.now alt.now.two < 2 ^ 100 }
    requires scale { scale < SCALE_BOUND }
    ensures value { result
        ≡ scale * alt.now.cost
        + (named_price prices.now alt.now.one + named_price prices.now alt.now.two) }
    ensures small { result < 2 ^ 101 }
{
    u128::from(scale * alt.cost) + named_prices(alt, prices)
}

// The prices of the parts that an alternative names, together.
fn named_prices(alt: &Alt, prices: &[u128]) -> u128
    requires one { ForSome alt.now.one (λ k. k < length prices.now) }
    requires two { ForSome alt.now.two (λ k. k < length prices.now) }
    requires uses { named_price prices.now alt.now.one
        + named_price prices.now alt.now.two < 2 ^ 100 }
    ensures value { result
        ≡ named_price prices.now alt.now.one + named_price prices.now alt.now.two }
    ensures small { result < 2 ^ 100 }
{
    named_price(prices, alt.one) + named_price(prices, alt.two)
}

// The price of the part that an alternative may name.
fn named_price(prices: &[u128], part: Option<u32>) -> u128
    requires { ForSome part (λ k. k < length prices.now) }
    ensures { result ≡ named_price prices.now part }
{
    match part {
        Some(n) => prices[n as usize],
        None => 0,
    }
}
