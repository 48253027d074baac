//! The problem on some of the resources of a problem: those that its units can pass, or the first
//! of each class of equal ones.

ghost use Rattle.std.specs.Prelude.{◌≡◌, ◌+◌, ◌^◌, ◌<◌, ◌≤◌, ℕ, IfOk, [], length, slice_index, slice_index_or, pos, ◌≤ℤ◌, All};
ghost use Rattle.choice_problem.specs.declared.problems.TheConstants.{HIGHEST_LIMIT, MOST_RESOURCES, MOST_UNITS};
ghost use Rattle.choice_problem.specs.Strips.{strip_uses, part_uses, IsStripInRange, IsPartInRange};
ghost use Rattle.choice_problem.specs.Loops.{run_uses};
ghost use Rattle.choice_problem.specs.Problems.{ArePartsInRange, unit_count, resource_count, chooser_at, limit_of};
ghost use Rattle.price_table.specs.Strips.{ArePrices};
ghost use Rattle.dual_bound.specs.Kept.{AreRanks, IsKept, KeepPassed, UseKept, IsUnitOnKept, IsOnKept, AreSpread, kept_count, price_in};

use crate::counts::greatest_uses;
use choice_problem::{Chooser, Part, Problem, Strip, strip_list};
use slot_text::Memory;
use std::alloc::Global;

// For each resource, and for the end, how many lower ones are kept: those that the units can use
// above their limit, as far as their greatest uses tell.
pub(crate) fn kept_ranks(alloc: Global, problem: &Problem) -> Result<Vec<u32>, Memory>
    ensures { IfOk result (λ ranks. KeepPassed problem.now ranks.items) }
{
    let counts = greatest_uses(alloc, problem)?;
    let ranks = ranks_above(alloc, problem, &counts)?;
    Ok(ranks)
}

// The ranks of the resources whose counts are above their limits.
fn ranks_above(alloc: Global, problem: &Problem, counts: &[u32]) -> Result<Vec<u32>, Memory>
    requires { length counts.now ≡ resource_count problem.now }
    ensures ranks { IfOk result (λ ranks. AreRanks (resource_count problem.now) ranks.items) }
    ensures rest { IfOk result (λ ranks. (r : ℕ) → r < resource_count problem.now →
        slice_index ranks.items (r + 1) ≤ slice_index ranks.items r →
        slice_index counts.now r ≤ limit_of problem.now r) }
    ensures small { IfOk result (λ _. (r : ℕ) → r < resource_count problem.now →
        limit_of problem.now r < 2 ^ 20) }
{
    let mut ranks = Vec::with_capacity(alloc, counts.len() + 1)?;
    let mut rank = 0;
    ranks.push(rank)?;
    for resource in 0..problem.resources() {
        rank = rank_after(rank, counts[resource as usize], problem.limit(resource));
        ranks.push(rank)?;
    }
    Ok(ranks)
}

// The rank after a resource with this count and limit.
fn rank_after(rank: u32, count: u32, limit: i64) -> u32
    requires { rank < 2 ^ 31 }
    ensures from { rank ≤ result }
    ensures to { result ≤ rank + 1 }
    ensures rest { result ≤ rank → pos count ≤ℤ limit }
{
    if i64::from(count) > limit {
        rank + 1
    } else {
        rank
    }
}

// The problem on the kept resources, which are numbered by their ranks.
pub(crate) fn kept_problem(
    alloc: Global,
    problem: &Problem,
    ranks: &[u32],
) -> Result<Problem, Memory>
    requires { AreRanks (resource_count problem.now) ranks.now }
    ensures { IfOk result (λ kept. IsOnKept problem.now ranks.now kept) }
{
    let units = kept_units(alloc, problem, ranks)?;
    let limits = kept_limits(alloc, problem, ranks)?;
    Ok(Problem::new(units, limits))
}

// The limits of the kept resources.
fn kept_limits(alloc: Global, problem: &Problem, ranks: &[u32]) -> Result<Vec<i64>, Memory>
    requires { AreRanks (resource_count problem.now) ranks.now }
    ensures count { IfOk result (λ limits. length limits.items
        ≡ kept_count problem.now ranks.now) }
    ensures few { IfOk result (λ limits. length limits.items ≤ MOST_RESOURCES) }
    ensures each { IfOk result (λ limits. (r : ℕ) → r < resource_count problem.now →
        IsKept ranks.now r →
        slice_index_or limits.items (slice_index ranks.now r) (pos 0)
        ≡ pos (limit_of problem.now r)) }
    ensures limits_from { IfOk result (λ limits. All (λ z. pos 0 ≤ℤ z) limits.items) }
    ensures limits_to { IfOk result (λ limits. All (λ z. z ≤ℤ HIGHEST_LIMIT) limits.items) }
{
    let mut limits = Vec::new(alloc);
    for resource in 0..problem.resources() {
        let at = resource as usize;
        if ranks[at] < ranks[at + 1] {
            limits.push(problem.limit(resource))?;
        }
    }
    Ok(limits)
}

// The units, with the uses of the kept resources.
fn kept_units(alloc: Global, problem: &Problem, ranks: &[u32]) -> Result<Vec<Chooser>, Memory>
    requires { AreRanks (resource_count problem.now) ranks.now }
    ensures count { IfOk result (λ units. length units.items ≡ unit_count problem.now) }
    ensures few { IfOk result (λ units. length units.items ≤ MOST_UNITS) }
    ensures each { IfOk result (λ units. (u : ℕ) → u < unit_count problem.now →
        IsUnitOnKept problem.now ranks.now (chooser_at problem.now u)
        (slice_index_or units.items u (record { parts = []; alts = [] }))) }
    ensures there { IfOk result (λ units. All (ArePartsInRange (kept_count problem.now ranks.now))
        units.items) }
{
    let mut units = Vec::new(alloc);
    for unit in 0..problem.units() {
        units.push(kept_unit(alloc, problem, unit, ranks)?)?;
    }
    Ok(units)
}

// A unit, with the uses of the kept resources.
fn kept_unit(alloc: Global, problem: &Problem, unit: u32, ranks: &[u32]) -> Result<Chooser, Memory>
    requires unit { unit < unit_count problem.now }
    requires ranks { AreRanks (resource_count problem.now) ranks.now }
    ensures unit { IfOk result (λ kept. IsUnitOnKept problem.now ranks.now
        (chooser_at problem.now unit) kept) }
    ensures there { IfOk result (λ kept. ArePartsInRange (kept_count problem.now ranks.now) kept) }
{
    let parts = kept_parts(alloc, problem, problem.unit_parts(unit), ranks)?;
    let alts = Vec::from_slice(alloc, problem.unit_alts(unit))?;
    strip_list();
    Ok(Chooser::new(parts, alts))
}

// The parts, with the uses of the kept resources.
fn kept_parts(
    alloc: Global,
    problem: &Problem,
    parts: &[Part],
    ranks: &[u32],
) -> Result<Vec<Part>, Memory>
    requires ranks { AreRanks (resource_count problem.now) ranks.now }
    requires there { All (λ strips. IsPartInRange (resource_count problem.now) strips) parts.now }
    ensures count { IfOk result (λ kept. length kept.items ≡ length parts.now) }
    ensures uses { IfOk result (λ kept. (n : ℕ) → n < length parts.now →
        UseKept problem.now ranks.now (slice_index_or kept.items n [])
        (slice_index_or parts.now n [])) }
    ensures there { IfOk result (λ kept. All
        (λ strips. IsPartInRange (kept_count problem.now ranks.now) strips) kept.items) }
{
    let mut kept = Vec::new(alloc);
    for part in parts {
        kept.push(kept_part(alloc, problem, part, ranks)?)?;
    }
    Ok(kept)
}

// The part, with the uses of the kept resources.
fn kept_part(alloc: Global, problem: &Problem, part: &Part, ranks: &[u32]) -> Result<Part, Memory>
    requires ranks { AreRanks (resource_count problem.now) ranks.now }
    requires there { IsPartInRange (resource_count problem.now) part.now }
    ensures uses { IfOk result (λ kept. UseKept problem.now ranks.now kept part.now) }
    ensures there { IfOk result (λ kept. IsPartInRange (kept_count problem.now ranks.now) kept) }
{
    let mut strips = Vec::new(alloc);
    for strip in part.strips() {
        keep_strip(problem, &mut strips, strip, ranks)?;
    }
    Ok(Part::new(strips))
}

// Adds a strip's uses of the kept resources, a strip for each run that has some.
fn keep_strip(
    problem: &Problem,
    strips: &mut Vec<Strip>,
    strip: &Strip,
    ranks: &[u32],
) -> Result<(), Memory>
    requires ranks { AreRanks (resource_count problem.now) ranks.now }
    requires strip { IsStripInRange (resource_count problem.now) strip.now }
    requires there { IsPartInRange (kept_count problem.now ranks.now) strips.old.items }
    ensures uses { IfOk result (λ _. (r : ℕ) → r < resource_count problem.now →
        IsKept ranks.now r →
        part_uses strips.new.items (slice_index ranks.now r)
        ≡ part_uses strips.old.items (slice_index ranks.now r) + strip_uses strip.now r) }
    ensures there { IfOk result (λ _. IsPartInRange (kept_count problem.now ranks.now)
        strips.new.items) }
{
    for run in 0..strip.times {
        let (start, end) = strip.run(run);
        keep_run(strips, ranks[start as usize], ranks[end as usize])?;
    }
    Ok(())
}

// Adds one run, if it is not empty.
fn keep_run(strips: &mut Vec<Strip>, start: u32, end: u32) -> Result<(), Memory>
    ensures uses { IfOk result (λ _. (r : ℕ) → part_uses strips.new.items r
        ≡ part_uses strips.old.items r + run_uses start end r) }
    ensures there { IfOk result (λ _. (n : ℕ) → end ≤ n → IsPartInRange n strips.old.items →
        IsPartInRange n strips.new.items) }
{
    if start < end {
        strips.push(Strip {
            first: start,
            width: end - start,
            gap: 0,
            times: 1,
        })?;
    }
    Ok(())
}

// The prices of all resources: those of the kept ones, and 0.
pub(crate) fn spread_prices(
    alloc: Global,
    problem: &Problem,
    ranks: &[u32],
    prices: &[u64],
) -> Result<Vec<u64>, Memory>
    requires ranks { AreRanks (resource_count problem.now) ranks.now }
    requires count { length prices.now ≡ kept_count problem.now ranks.now }
    requires small { (r : ℕ) → r < length prices.now → slice_index prices.now r < 2 ^ 40 }
    ensures spread { IfOk result (λ spread. AreSpread (resource_count problem.now) ranks.now
        prices.now spread.items) }
    ensures prices { IfOk result (λ spread. ArePrices problem.now spread.items) }
{
    let mut spread = Vec::with_capacity(alloc, problem.resources() as usize)?;
    for resource in 0..problem.resources() {
        spread.push(price_in(ranks, prices, resource as usize))?;
    }
    Ok(spread)
}

// The price of a resource: that of its rank, if it is kept.
fn price_in(ranks: &[u32], prices: &[u64], resource: usize) -> u64
    requires there { resource + 1 < length ranks.now }
    requires rank { IsKept ranks.now resource → slice_index ranks.now resource < length prices.now }
    requires small { (r : ℕ) → r < length prices.now → slice_index prices.now r < 2 ^ 40 }
    ensures value { result ≡ price_in ranks.now prices.now resource }
    ensures small { result < 2 ^ 40 }
{
    let rank = ranks[resource];
    if rank < ranks[resource + 1] {
        prices[rank as usize]
    } else {
        0
    }
}
