//! Least loads of resources, kept while the ranges change.

ghost use Rattle.std.specs.Prelude.{◌≡◌, ◌⊎◌, ◌<◌, ◌≤◌, List, ℕ, All, false, IfOk, IfSome, length, slice_set};
ghost use Rattle.choice_problem.specs.Problems.{ProblemView, unit_count, resource_count};
ghost use Rattle.choice_problem.specs.Bounds.{AreRanges, low_of, high_of, least_load};
ghost use Rattle.kept_bounds.specs.Changes.{AgreeBut, HasSeen};
ghost use Rattle.cert_checker.specs.KeptLoads.{IsKeptLoad, AreKeptLoads};

use choice_problem::{Problem, Ranges, least_uses};
use kept_bounds::agreeing_ranges;
use slot_text::Memory;
use std::alloc::Global;

// A resource; each unit's least uses of it in the ranges of the last node that named it, and their
// sum; and how many changes of ranges there had been then.
#[derive(Drop)]
pub(crate) struct KeptLoad {
    pub(crate) resource: u32,
    pub(crate) ranges: Ranges,
    pub(crate) uses: Vec<u32>,
    pub(crate) load: u64,
    pub(crate) seen: usize,
}

// Of how many units in all the least uses are kept.
const MOST_KEPT: u32 = 2_097_152;

/// Empty places for as many of so many resources as may be kept, at least one: 2^21 units in all.
pub(crate) fn empty_places(
    alloc: Global,
    problem: &Problem,
    resources: usize,
) -> Result<Vec<Option<KeptLoad>>, Memory>
    ensures some { IfOk result (λ kept. 0 < length kept.items) }
    ensures empty { IfOk result (λ kept. (p : ProblemView) (ranges whole : List (ℕ × ℕ))
        (changes marked : List ℕ) → AreKeptLoads p ranges whole changes marked kept.items) }
{
    let places = resources.min((MOST_KEPT / problem.units().max(1)) as usize);
    let mut kept = Vec::with_capacity(alloc, places)?;
    kept.push(None)?;
    for _ in 1..places {
        kept.push(None)?;
    }
    Ok(kept)
}

// Brings one unit's uses to its range.
fn follow_unit(problem: &Problem, kept: &mut KeptLoad, ranges: &Ranges, unit: u32)
    requires kept { IsKeptLoad problem.now kept.old }
    requires ranges { AreRanges problem.now ranges.now }
    requires unit { unit < unit_count problem.now }
    ensures kept { IsKeptLoad problem.now kept.new }
    ensures resource { kept.new.resource ≡ kept.old.resource }
    ensures ranges { kept.new.ranges ≡ slice_set kept.old.ranges unit
        (low_of ranges.now unit, high_of ranges.now unit) }
{
    let low = ranges.low(unit);
    let high = ranges.high(unit);
    if low == kept.ranges.low(unit) && high == kept.ranges.high(unit) {
        return;
    }
    let uses = least_uses(problem, unit, low, high, kept.resource);
    kept.load = kept.load - u64::from(kept.uses[unit as usize]) + u64::from(uses);
    kept.uses[unit as usize] = uses;
    kept.ranges.set(unit, low, high);
}

// Brings the uses to these ranges, where only these units have others: one step a unit, and one an
// alternative that uses the resource of each range that differs.
fn follow(problem: &Problem, kept: &mut KeptLoad, ranges: &Ranges, units: &[u32])
    requires kept { IsKeptLoad problem.now kept.old }
    requires ranges { AreRanges problem.now ranges.now }
    requires units { All (λ u. u < unit_count problem.now) units.now }
    requires others { AgreeBut units.now kept.old.ranges ranges.now }
    ensures kept { IsKeptLoad problem.now kept.new }
    ensures resource { kept.new.resource ≡ kept.old.resource }
    ensures ranges { kept.new.ranges ≡ ranges.now }
{
    agreeing_ranges();
    for unit in units {
        follow_unit(problem, kept, ranges, *unit);
    }
}

// The shorter of two lists.
fn shorter<'a>(one: &'a [u32], other: &'a [u32]) -> &'a [u32]
    ensures { (result.now ≡ one.now) ⊎ (result.now ≡ other.now) }
{
    if one.len() <= other.len() { one } else { other }
}

// The same resource at these ranges. `marked` has each unit whose range has changed since the walk
// began.
fn moved(
    problem: &Problem,
    kept: KeptLoad,
    ranges: &Ranges,
    changes: &[u32],
    marked: &[u32],
) -> KeptLoad
    requires kept { IsKeptLoad problem.now kept }
    requires seen { HasSeen kept.ranges ranges.now changes.now kept.seen }
    requires marked { AgreeBut marked.now kept.ranges ranges.now }
    requires changes { All (λ u. u < unit_count problem.now) changes.now }
    requires there { All (λ u. u < unit_count problem.now) marked.now }
    requires ranges { AreRanges problem.now ranges.now }
    ensures kept { IsKeptLoad problem.now result }
    ensures resource { result.resource ≡ kept.resource }
    ensures ranges { result.ranges ≡ ranges.now }
    ensures seen { result.seen ≡ length changes.now }
{
    let mut kept = kept;
    let units = shorter(&changes[kept.seen..], marked);
    follow(problem, &mut kept, ranges, units);
    kept.seen = changes.len();
    kept
}

// A resource that no node has named before, or whose place was empty, after so many changes.
fn first_kept(
    alloc: Global,
    problem: &Problem,
    ranges: &Ranges,
    resource: u32,
    seen: usize,
) -> Result<KeptLoad, Memory>
    requires ranges { AreRanges problem.now ranges.now }
    requires resource { resource < resource_count problem.now }
    ensures kept { IfOk result (λ kept. IsKeptLoad problem.now kept) }
    ensures resource { IfOk result (λ kept. kept.resource ≡ resource) }
    ensures ranges { IfOk result (λ kept. kept.ranges ≡ ranges.now) }
    ensures seen { IfOk result (λ kept. kept.seen ≡ seen) }
{
    let mut uses = Vec::new(alloc);
    let mut load = 0;
    for unit in 0..problem.units() {
        let least = least_uses(problem, unit, ranges.low(unit), ranges.high(unit), resource);
        uses.push(least)?;
        load += u64::from(least);
    }
    Ok(KeptLoad {
        resource,
        ranges: ranges.copy(alloc)?,
        uses,
        load,
        seen,
    })
}

/// A resource's least uses at these ranges, from those kept before, if any. The first node that
/// names the resource costs one step a unit; then a node costs one step for each change of a range
/// since one last named it, at most one for each unit whose range has changed since the walk began;
/// and both cost one an alternative that uses the resource of each range that differs.
pub(crate) fn renewed(
    alloc: Global,
    problem: &Problem,
    old: Option<KeptLoad>,
    ranges: &Ranges,
    changes: &[u32],
    marked: &[u32],
    resource: u32,
) -> Result<KeptLoad, Memory>
    requires old { IfSome old (λ kept. IsKeptLoad problem.now kept
        × HasSeen kept.ranges ranges.now changes.now kept.seen
        × AgreeBut marked.now kept.ranges ranges.now) }
    requires same { IfSome old (λ kept. kept.resource ≡ resource) }
    requires changes { All (λ u. u < unit_count problem.now) changes.now }
    requires there { All (λ u. u < unit_count problem.now) marked.now }
    requires ranges { AreRanges problem.now ranges.now }
    requires resource { resource < resource_count problem.now }
    ensures kept { IfOk result (λ kept. IsKeptLoad problem.now kept) }
    ensures resource { IfOk result (λ kept. kept.resource ≡ resource) }
    ensures ranges { IfOk result (λ kept. kept.ranges ≡ ranges.now) }
    ensures seen { IfOk result (λ kept. kept.seen ≡ length changes.now) }
    ensures load { IfOk result (λ kept. kept.load ≡ least_load problem.now ranges.now resource) }
{
    match old {
        Some(kept) => Ok(moved(problem, kept, ranges, changes, marked)),
        None => first_kept(alloc, problem, ranges, resource, changes.len()),
    }
}

/// Whether a place has another resource.
pub(crate) fn has_other(place: &Option<KeptLoad>, resource: u32) -> bool
    ensures { result ≡ false → IfSome place.now (λ kept. kept.resource ≡ resource) }
{
    match place {
        Some(kept) => kept.resource != resource,
        None => false,
    }
}
