//! The problem on classes of equal resources: each class is one resource of it, which stands for as
//! many as the class has.

ghost use Rattle.std.specs.Prelude.{◌≡◌, ℕ, ◌+◌, ◌<◌, ◌≤◌, IfOk, IfSome, List, length, slice_index, nat_eq};
ghost use Rattle.choice_problem.specs.declared.closing.TheConstants.{PRICED_SCALE};
ghost use Rattle.choice_problem.specs.declared.vectors.TheConstants.{ROOT_STEPS};
ghost use Rattle.choice_problem.specs.declared.problems.TheConstants.{MOST_RESOURCES};
ghost use Rattle.finite_sums.specs.Sums.{count_below};
ghost use Rattle.choice_problem.specs.Problems.{ProblemView, unit_count, resource_count};
ghost use Rattle.choice_problem.specs.Bounds.{AreRanges};
ghost use Rattle.price_table.specs.Strips.{ArePrices};
ghost use Rattle.dual_bound.specs.Kept.{AreRanks, IsKept};
ghost use Rattle.dual_bound.specs.Same.{AreSameTo};
ghost use Rattle.dual_bound.specs.Loops.{IsPoint, IsGreatestUpTo};
ghost use Rattle.dual_bound.specs.Classes.{AreGrouped, AreWeighted, by_classes};

use crate::points::{Best, HIGHEST, Point, better, evaluate, first_best, move_prices, step_length};
use crate::same::{SameParts, same_parts};
use choice_problem::{PRICED_SCALE, Problem, ROOT_STEPS, Ranges, price_vectors};
use slot_text::Memory;
use std::alloc::Global;

// For each resource, and for the end, how many lower ones are the first of their class.
pub(crate) fn first_ranks(
    alloc: Global,
    problem: &Problem,
    firsts: &[u32],
) -> Result<Vec<u32>, Memory>
    requires { length firsts.now ≡ resource_count problem.now }
    ensures ranks { IfOk result (λ ranks. AreRanks (resource_count problem.now) ranks.items) }
    ensures kept { IfOk result (λ ranks. (r : ℕ) → r < resource_count problem.now →
        slice_index firsts.now r ≡ r → IsKept ranks.items r) }
    ensures few { IfOk result (λ _. resource_count problem.now ≤ MOST_RESOURCES) }
{
    let mut ranks = Vec::with_capacity(alloc, firsts.len() + 1)?;
    let mut rank = 0;
    ranks.push(rank)?;
    for resource in 0..problem.resources() {
        rank = rank_after(rank, firsts[resource as usize], resource);
        ranks.push(rank)?;
    }
    Ok(ranks)
}

fn rank_after(rank: u32, first: u32, resource: u32) -> u32
    requires { rank ≤ MOST_RESOURCES }
    ensures from { rank ≤ result }
    ensures to { result ≤ rank + 1 }
    ensures kept { first ≡ resource → result ≡ rank + 1 }
{
    if first == resource { rank + 1 } else { rank }
}

// The class of each resource.
pub(crate) fn classes_of(alloc: Global, firsts: &[u32], ranks: &[u32]) -> Result<Vec<u32>, Memory>
    requires { (r : ℕ) → r < length firsts.now → slice_index firsts.now r < length ranks.now }
    ensures count { IfOk result (λ classes. length classes.items ≡ length firsts.now) }
    ensures each { IfOk result (λ classes. (r : ℕ) → r < length firsts.now →
        slice_index classes.items r ≡ slice_index ranks.now (slice_index firsts.now r)) }
{
    let mut classes = Vec::with_capacity(alloc, firsts.len())?;
    for first in firsts {
        classes.push(ranks[*first as usize])?;
    }
    Ok(classes)
}

// How many resources each class has.
pub(crate) fn sizes_of(alloc: Global, classes: &[u32], count: u32) -> Result<Vec<u32>, Memory>
    requires there { (r : ℕ) → r < length classes.now → slice_index classes.now r < count }
    requires few { length classes.now ≤ MOST_RESOURCES }
    ensures count { IfOk result (λ sizes. length sizes.items ≡ count) }
    ensures each { IfOk result (λ sizes. (c : ℕ) → c < count → slice_index sizes.items c
        ≡ count_below (length classes.now) (λ r. nat_eq (slice_index classes.now r) c)) }
{
    let mut sizes = vec![in alloc; 0; count as usize]?;
    for class in classes {
        sizes[*class as usize] += 1;
    }
    Ok(sizes)
}

// The prices of classes times their sizes; none where one comes to 2^40.
fn weighted(alloc: Global, prices: &[u64], sizes: &[u32]) -> Result<Option<Vec<u64>>, Memory>
    requires { length sizes.now ≡ length prices.now }
    ensures { IfOk result (λ found. IfSome found (λ weighted.
        AreWeighted prices.now sizes.now weighted.items)) }
{
    let mut weighted = Vec::with_capacity(alloc, prices.len())?;
    for class in 0..prices.len() {
        let price = prices[class].saturating_mul(u64::from(sizes[class]));
        if price > HIGHEST {
            return Ok(None);
        }
        weighted.push(price)?;
    }
    Ok(Some(weighted))
}

// Of the prices of classes after 0 to 64 steps, the first with the greatest bound; none where the
// prices of all resources of a class together come to 2^40.
pub(crate) fn best_class_prices(
    alloc: Global,
    grouped: &Problem,
    sizes: &[u32],
    ranges: &Ranges,
) -> Result<Option<Best>, Memory>
    requires sizes { length sizes.now ≡ resource_count grouped.now }
    requires ranges { AreRanges grouped.now ranges.now }
    ensures count { IfOk result (λ found. IfSome found (λ best.
        length best.prices.items ≡ resource_count grouped.now)) }
    ensures greatest { IfOk result (λ found. IfSome found (λ best.
        (p : ProblemView) (classes : List ℕ) → AreGrouped p grouped.now classes sizes.now →
        IsGreatestUpTo p ranges.now ROOT_STEPS (by_classes classes best.prices.items)
        best.bound)) }
{
    price_vectors();
    let same = same_parts(alloc, grouped)?;
    let zeros = vec![in alloc; 0; grouped.resources() as usize]?;
    let Some(mut here) = class_point(alloc, grouped, sizes, &same, ranges, zeros)? else {
        return Ok(None);
    };
    let mut best = first_best(alloc, &here)?;
    for step in 0..ROOT_STEPS {
        let length = step_length(step);
        let prices = move_prices(alloc, grouped, &here.prices, &here.loads, length)?;
        let Some(point) = class_point(alloc, grouped, sizes, &same, ranges, prices)? else {
            return Ok(None);
        };
        here = point;
        best = better(alloc, best, &here)?;
    }
    Ok(Some(best))
}

// The point of prices of classes, with the loads and the bound at the prices times the sizes; none
// where such a product comes to 2^40.
fn class_point(
    alloc: Global,
    grouped: &Problem,
    sizes: &[u32],
    same: &[SameParts],
    ranges: &Ranges,
    prices: Vec<u64>,
) -> Result<Option<Point>, Memory>
    requires sizes { length sizes.now ≡ resource_count grouped.now }
    requires same { AreSameTo grouped.now (unit_count grouped.now) same.now }
    requires ranges { AreRanges grouped.now ranges.now }
    requires prices { ArePrices grouped.now prices.items }
    ensures point { IfOk result (λ found. IfSome found (λ point.
        (p : ProblemView) (classes : List ℕ) → AreGrouped p grouped.now classes sizes.now →
        IsPoint p ranges.now PRICED_SCALE (by_classes classes point.prices.items)
        (by_classes classes point.loads.items) point.bound)) }
    ensures same { IfOk result (λ found. IfSome found (λ point.
        point.prices.items ≡ prices.items)) }
    ensures loads { IfOk result (λ found. IfSome found (λ point.
        length point.loads.items ≡ resource_count grouped.now)) }
{
    let Some(weighted) = weighted(alloc, &prices, sizes)? else {
        return Ok(None);
    };
    let mut point = evaluate(alloc, grouped, same, ranges, weighted, PRICED_SCALE)?;
    point.prices = prices;
    Ok(Some(point))
}

// The prices of resources by those of their classes.
pub(crate) fn spread_classes(
    alloc: Global,
    classes: &[u32],
    prices: &[u64],
) -> Result<Vec<u64>, Memory>
    requires { (r : ℕ) → r < length classes.now → slice_index classes.now r < length prices.now }
    ensures { IfOk result (λ spread. spread.items ≡ by_classes classes.now prices.now) }
{
    let mut spread = Vec::with_capacity(alloc, classes.len())?;
    for class in classes {
        spread.push(prices[*class as usize])?;
    }
    Ok(spread)
}
