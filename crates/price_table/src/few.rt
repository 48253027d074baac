//! Prices of strips and parts by few prices, each looked up: without a number for each resource.

ghost use Rattle.std.specs.Prelude.{◌≡◌, ◌<◌, ◌≤◌, ℕ, IsTrue, IfOk, AllPairs, length};
ghost use Rattle.choice_problem.specs.declared.problems.TheConstants.{MOST_RESOURCES};
ghost use Rattle.choice_problem.specs.Strips.{strip_uses};
ghost use Rattle.choice_problem.specs.Problems.{unit_count, resource_count};
ghost use Rattle.choice_problem.specs.Bounds.{IsVector, price_at};
ghost use Rattle.std.specs.Option.{ForSome};
ghost use Rattle.price_table.specs.Tables.{PricesUnit, alt_in};
ghost use Rattle.price_table.specs.Private.Named.{NamedAreMarked, IsMarked};
ghost use Rattle.price_table.specs.Private.Few.{AreFewPrices, strip_priced, capped_priced};
ghost use Rattle.price_table.specs.Private.Folded.{IsFolded};

use crate::folded::{Folded, strip_price};
use crate::strips::UnitPrices;
use choice_problem::{Alt, Part, Price, Problem, Strip, Vector};
use slot_text::Memory;
use std::alloc::Global;

// The most prices that are looked up.
const MOST_FEW: usize = 4096;

// So many prices that strips meet for each resource, and for as many places more, are looked up.
// Where most prices lie outside a strip, as in seasons, that takes less time than sums over all
// resources; where all lie between the strip's first resource and its end, up to four times as
// much.
const LOOKED_UP: u64 = 16;

const PLACES: u64 = 65_536;

// A price at a strip's own places takes as long as so many prices that are passed over.
const AT_PLACES: u32 = 4;

// Whether the vector has so few prices that they are looked up for each strip.
pub(crate) fn are_few(problem: &Problem, vector: &Vector, period: u32) -> bool
    ensures few { IsTrue result → length vector.now ≤ MOST_FEW }
    ensures resources { resource_count problem.now ≤ MOST_RESOURCES }
{
    let places = u64::from(problem.resources()) + PLACES;
    let prices = vector.items().len();
    if prices > MOST_FEW {
        return false;
    }
    let period = period.max(1);
    let met = places_met(problem, period).saturating_mul(prices as u64);
    met <= (LOOKED_UP * places).saturating_mul(u64::from(period))
}

// How many places of a period the strips of all units meet, weighed by the time of a price there.
fn places_met(problem: &Problem, period: u32) -> u64 {
    let mut count: u64 = 0;
    for unit in 0..problem.units() {
        count = count.saturating_add(parts_meet(problem.unit_parts(unit), period));
    }
    count
}

// How many places the strips of parts meet, weighed.
fn parts_meet(parts: &[Part], period: u32) -> u64 {
    let mut count: u64 = 0;
    for part in parts {
        count = count.saturating_add(strips_meet(part.strips(), period));
    }
    count
}

// How many places strips meet, weighed: those of a run where the runs are a period apart, else all.
fn strips_meet(strips: &[Strip], period: u32) -> u64 {
    let mut count: u64 = 0;
    for strip in strips {
        let met = if strip.times <= 1 || strip.gap == period {
            strip.width.saturating_mul(AT_PLACES).min(period)
        } else {
            period
        };
        count = count.saturating_add(u64::from(met));
    }
    count
}

// What each part of a unit costs that an alternative names, and 0 for the others.
pub(crate) fn looked_up(
    alloc: Global,
    problem: &Problem,
    prices: &[Price],
    folded: &Folded,
    unit: u32,
) -> Result<UnitPrices, Memory>
    requires unit { unit < unit_count problem.now }
    requires vector { IsVector problem.now prices.now }
    requires few { AreFewPrices prices.now }
    requires folded { IsFolded prices.now folded.now.period folded.now.prices.items
        folded.now.starts.items }
    requires resources { resource_count problem.now ≤ MOST_RESOURCES }
    ensures { IfOk result (λ parts. PricesUnit problem.now prices.now unit parts) }
{
    let items = problem.unit_parts(unit);
    let named = named_parts(alloc, problem.unit_alts(unit), items.len())?;
    let mut parts = Vec::with_capacity(alloc, items.len())?;
    for (place, part) in items.iter().enumerate() {
        parts.push(named_price(prices, folded, part, named[place]))?;
    }
    Ok(UnitPrices { parts })
}

// Which parts alternatives name.
fn named_parts(alloc: Global, alts: &[Alt], parts: usize) -> Result<Vec<bool>, Memory>
    requires one { (a : ℕ) → a < length alts.now →
        ForSome (alt_in alts.now a).one (λ k. k < parts) }
    requires two { (a : ℕ) → a < length alts.now →
        ForSome (alt_in alts.now a).two (λ k. k < parts) }
    ensures { IfOk result (λ named. NamedAreMarked alts.now parts named.items) }
{
    let mut named = vec![in alloc; false; parts]?;
    for alt in alts {
        mark(&mut named, alt.one);
        mark(&mut named, alt.two);
    }
    Ok(named)
}

// Marks a part that an alternative may name.
fn mark(named: &mut [bool], part: Option<u32>)
    requires { ForSome part (λ k. k < length named.old) }
    ensures { IsMarked part named.old named.new }
{
    if let Some(n) = part {
        named[n as usize] = true;
    }
}

// What a part costs, if it is named.
fn named_price(prices: &[Price], folded: &Folded, part: &Part, is_named: bool) -> u128
    requires few { AreFewPrices prices.now }
    requires folded { IsFolded prices.now folded.now.period folded.now.prices.items
        folded.now.starts.items }
    ensures { IsTrue is_named → result ≡ capped_priced prices.now part.now }
{
    if is_named {
        part_price(prices, folded, part)
    } else {
        0
    }
}

// What a part costs, within 128 bits. Parts that an alternative names stay far below.
fn part_price(prices: &[Price], folded: &Folded, part: &Part) -> u128
    requires few { AreFewPrices prices.now }
    requires folded { IsFolded prices.now folded.now.period folded.now.prices.items
        folded.now.starts.items }
    ensures { result ≡ capped_priced prices.now part.now }
{
    let mut total: u128 = 0;
    if prices.is_empty() {
        return total;
    }
    for strip in part.strips() {
        total = total.saturating_add(strip_price(prices, folded, strip));
    }
    total
}

// What a strip costs: of the prices of resources from its first one on, those before its end.
pub(crate) fn looked_up_price(prices: &[Price], strip: &Strip) -> u128
    requires { AreFewPrices prices.now }
    ensures { result ≡ strip_priced prices.now strip.now }
{
    let (_, end) = strip.run(strip.times.saturating_sub(1));
    let mut total = 0;
    for place in first_from(prices, strip.first)..prices.len() {
        let entry = prices[place];
        if u64::from(entry.resource) >= end {
            return total;
        }
        total += u128::from(entry.amount()) * u128::from(uses_of(strip, entry.resource));
    }
    total
}

// How often a strip uses a resource. Most lie between its runs, and cost one division.
pub(crate) fn uses_of(strip: &Strip, resource: u32) -> u32
    ensures { result ≡ strip_uses strip.now resource }
{
    if strip.gap > 0 && resource.saturating_sub(strip.first) % strip.gap >= strip.width {
        return 0;
    }
    strip.uses(resource)
}

// How many prices are of resources before this one.
fn first_from(prices: &[Price], resource: u32) -> usize
    requires { AllPairs (λ e f. e.resource < f.resource) prices.now }
    ensures there { result ≤ length prices.now }
    ensures before { (k : ℕ) → k < result → (price_at prices.now k).resource < resource }
{
    prices.partition_point(|entry| entry.resource < resource)
}
