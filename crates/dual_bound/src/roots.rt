//! The vectors that a problem determines: subgradient runs of 64 steps.

ghost use Rattle.std.specs.Prelude.{◌≡◌, ◌/◌, IfOk, IfSome};
ghost use Rattle.choice_problem.specs.declared.vectors.TheConstants.{ROOT_STEPS};
ghost use Rattle.choice_problem.specs.Bounds.{AreRanges, IsVector};
ghost use Rattle.choice_problem.specs.Problems.{unit_count};
ghost use Rattle.choice_problem.specs.Roots.{IsNodeVector, IsRootVector};
ghost use Rattle.dual_bound.specs.Loops.{IsGreatestUpTo};
ghost use Rattle.dual_bound.specs.Kept.{KeepPassed};
ghost use Rattle.dual_bound.specs.Same.{AreSameTo};
ghost use Rattle.dual_bound.specs.Classes.{AreGrouped};

use crate::classes::{best_class_prices, classes_of, first_ranks, sizes_of, spread_classes};
use crate::kept::{kept_problem, kept_ranks, spread_prices};
use crate::points::{
    Best, better, evaluate, first_best, move_prices, start, step_length, vector_in,
};
use crate::refine::equal_resources;
use crate::same::{SameParts, same_parts};
use choice_problem::{PRICED_SCALE, Problem, ROOT_STEPS, Ranges, Vector, price_vectors};
use slot_text::Memory;
use std::alloc::Global;

/// The root vector of a problem: its `node_vector` on all alternatives.
pub fn root_vector(alloc: Global, problem: &Problem) -> Result<Vector, Memory>
    ensures root { IfOk result (λ vector. IsRootVector problem.now vector) }
    ensures prices { IfOk result (λ vector. IsVector problem.now vector) }
{
    let ranges = Ranges::whole(alloc, problem)?;
    node_vector(alloc, problem, &ranges)
}

/// Of the vectors after 0 to 64 subgradient steps on the ranges, the first with the greatest bound
/// there at scale 1024. A step raises or lowers each resource's price by its length for each use
/// above or below the limit, never under 0; the lengths halve from 16384 with every eight steps.
/// All prices stay below 2^40.
///
/// Where at most a quarter of all resources can be passed, as far as the count tells with which
/// `passable_resources` begins, the prices move on these alone, by a copy of the units that uses no
/// others. Finding them takes the time of that count; the copy takes one step a run of the strips
/// and one an alternative. It has the parts, the alternatives, and a strip of 16 bytes a run that
/// uses one of these resources. Else the prices move on all resources.
///
/// Of the resources on which prices move, those with the same limit that each part uses equally
/// often have the same price after each step: the prices move on such classes, by another such
/// copy, which uses one resource of each. Finding the classes takes two steps a strip, some for
/// each use by a part, also by one that no alternative names, but for parts with the same strips as
/// one of an earlier unit, and some a resource. Where the prices of all resources of a class come
/// to 2^40 together, the steps begin again, on each resource.
///
/// A subgradient step then mostly takes one step for a part with the same strips as one of an
/// earlier unit; for any other part one a strip, and one a run of a strip of several runs that is
/// not priced yet; one for an alternative in range; two for a run of each unit's first least
/// alternative; and some for a class, or for a resource where prices move on each. The memory
/// beside the copies is at most some 150 bytes a resource on which prices move, 12 a resource of
/// all, 32 a part, 75 a unit, 50 for each class that the uses of one unit make, and 6 MB.
pub fn node_vector(alloc: Global, problem: &Problem, ranges: &Ranges) -> Result<Vector, Memory>
    requires { AreRanges problem.now ranges.now }
    ensures node { IfOk result (λ vector. IsNodeVector problem.now ranges.now vector) }
    ensures prices { IfOk result (λ vector. IsVector problem.now vector) }
{
    let ranks = kept_ranks(alloc, problem)?;
    let best = best_by_ranks(alloc, problem, ranges, &ranks)?;
    vector_in(alloc, problem, &best.prices)
}

// The best prices after the steps: by the kept resources alone, where they are at most a quarter of
// all.
fn best_by_ranks(
    alloc: Global,
    problem: &Problem,
    ranges: &Ranges,
    ranks: &[u32],
) -> Result<Best, Memory>
    requires ranges { AreRanges problem.now ranges.now }
    requires kept { KeepPassed problem.now ranks.now }
    ensures { IfOk result (λ best. IsGreatestUpTo problem.now ranges.now ROOT_STEPS
        best.prices.items best.bound) }
{
    let resources = problem.resources();
    if ranks[resources as usize] > resources / 4 {
        best_prices(alloc, problem, ranges)
    } else {
        best_on_kept(alloc, problem, ranges, ranks)
    }
}

// The best prices after the steps on all resources, by the steps on the kept ones.
fn best_on_kept(
    alloc: Global,
    problem: &Problem,
    ranges: &Ranges,
    ranks: &[u32],
) -> Result<Best, Memory>
    requires ranges { AreRanges problem.now ranges.now }
    requires kept { KeepPassed problem.now ranks.now }
    ensures { IfOk result (λ best. IsGreatestUpTo problem.now ranges.now ROOT_STEPS
        best.prices.items best.bound) }
{
    let kept = kept_problem(alloc, problem, ranks)?;
    let mut best = best_prices(alloc, &kept, ranges)?;
    best.prices = spread_prices(alloc, problem, ranks, &best.prices)?;
    Ok(best)
}

// Of the prices after 0 to 64 steps, the first with the greatest bound: by classes of equal
// resources, or by each resource where the prices of a class together are too great for one.
fn best_prices(alloc: Global, problem: &Problem, ranges: &Ranges) -> Result<Best, Memory>
    requires { AreRanges problem.now ranges.now }
    ensures { IfOk result (λ best. IsGreatestUpTo problem.now ranges.now ROOT_STEPS
        best.prices.items best.bound) }
{
    let same = same_parts(alloc, problem)?;
    match best_by_classes(alloc, problem, &same, ranges)? {
        Some(best) => Ok(best),
        None => best_on_each(alloc, problem, &same, ranges),
    }
}

// The same by classes of equal resources.
fn best_by_classes(
    alloc: Global,
    problem: &Problem,
    same: &[SameParts],
    ranges: &Ranges,
) -> Result<Option<Best>, Memory>
    requires same { AreSameTo problem.now (unit_count problem.now) same.now }
    requires ranges { AreRanges problem.now ranges.now }
    ensures { IfOk result (λ found. IfSome found (λ best. IsGreatestUpTo problem.now ranges.now
        ROOT_STEPS best.prices.items best.bound)) }
{
    let groups = group_resources(alloc, problem, same)?;
    let Some(mut best) = best_class_prices(alloc, &groups.problem, &groups.sizes, ranges)? else {
        return Ok(None);
    };
    best.prices = spread_classes(alloc, &groups.classes, &best.prices)?;
    Ok(Some(best))
}

// Classes of equal resources: the class of each resource, how many resources each class has, and
// the problem on one resource of each.
#[derive(Drop)]
struct Groups {
    classes: Vec<u32>,
    sizes: Vec<u32>,
    problem: Problem,
}

// The classes of equal resources of a problem.
fn group_resources(alloc: Global, problem: &Problem, same: &[SameParts]) -> Result<Groups, Memory>
    requires { AreSameTo problem.now (unit_count problem.now) same.now }
    ensures { IfOk result (λ groups.
        AreGrouped problem.now groups.problem groups.classes.items groups.sizes.items) }
{
    let firsts = equal_resources(alloc, problem, same)?;
    let ranks = first_ranks(alloc, problem, &firsts)?;
    let classes = classes_of(alloc, &firsts, &ranks)?;
    let grouped = kept_problem(alloc, problem, &ranks)?;
    let sizes = sizes_of(alloc, &classes, grouped.resources())?;
    Ok(Groups {
        classes,
        sizes,
        problem: grouped,
    })
}

// The same by each resource.
fn best_on_each(
    alloc: Global,
    problem: &Problem,
    same: &[SameParts],
    ranges: &Ranges,
) -> Result<Best, Memory>
    requires same { AreSameTo problem.now (unit_count problem.now) same.now }
    requires ranges { AreRanges problem.now ranges.now }
    ensures { IfOk result (λ best. IsGreatestUpTo problem.now ranges.now ROOT_STEPS
        best.prices.items best.bound) }
{
    price_vectors();
    let mut here = start(alloc, problem, same, ranges, PRICED_SCALE)?;
    let mut best = first_best(alloc, &here)?;
    for step in 0..ROOT_STEPS {
        let length = step_length(step);
        let prices = move_prices(alloc, problem, &here.prices, &here.loads, length)?;
        here = evaluate(alloc, problem, same, ranges, prices, PRICED_SCALE)?;
        best = better(alloc, best, &here)?;
    }
    Ok(best)
}
