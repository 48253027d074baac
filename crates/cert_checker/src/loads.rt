//! Least loads of resources, by the units whose ranges have changed.

ghost use Rattle.std.specs.Prelude.{◌≡◌, ◌↔◌, ◌+◌, ◌*◌, ◌<◌, ◌≤◌, ◌^◌, List, [], ℕ, All, None, IsTrue, IfOk, IfSome, length, slice_index, slice_index_or};
ghost use Rattle.choice_problem.specs.declared.problems.TheConstants.{MOST_UNITS, MOST_USES};
ghost use Rattle.choice_problem.specs.Problems.{unit_count, resource_count};
ghost use Rattle.choice_problem.specs.Bounds.{AreRanges, least_load, whole_of};
ghost use Rattle.choice_problem.specs.Trees.{OverHolds};
ghost use Rattle.kept_bounds.specs.Changes.{AgreeBut};
ghost use Rattle.cert_checker.specs.KeptLoads.{least_at};
ghost use Rattle.cert_checker.specs.Loads.{IsLoadState, AreWholeLoads};
ghost use Rattle.cert_checker.specs.Marked.{AreOnce};

use crate::kept_loads::{KeptLoad, empty_places, has_other, renewed};
use crate::marked::Marked;
use crate::named::{named_resources, rank_of};
use choice_problem::{Node, Problem, Ranges, least_uses};
use kept_bounds::agreeing_ranges;
use slot_text::Memory;
use std::alloc::Global;

// The ranges of all alternatives, and the units whose ranges have changed since; the resources that
// nodes name, in rising order; the least loads over all alternatives of those that have no place of
// their own, and of those that have one what is kept of them.
#[derive(Drop)]
pub(crate) struct Loads {
    pub(crate) whole: Ranges,
    pub(crate) changed: Marked,
    pub(crate) named: Vec<u32>,
    pub(crate) known: Vec<Option<u32>>,
    pub(crate) kept: Vec<Option<KeptLoad>>,
}

/// Loads before any change, for a walk of these nodes: a few numbers for each unit and each
/// resource that one of the nodes names, and one for each of these nodes that names another than
/// the one before.
pub(crate) fn first_loads(alloc: Global, problem: &Problem, nodes: &[Node]) -> Result<Loads, Memory>
    ensures { IfOk result (λ loads. IsLoadState problem.now (whole_of problem.now) [] loads) }
{
    let named = named_resources(alloc, nodes)?;
    let known = vec![in alloc; None; named.len()]?;
    let kept = empty_places(alloc, problem, named.len())?;
    Ok(Loads {
        whole: Ranges::whole(alloc, problem)?,
        changed: Marked::none(alloc, problem.units())?,
        named,
        known,
        kept,
    })
}

// The least load of a resource: one step a unit, and one an alternative that uses it.
fn least_load(problem: &Problem, ranges: &Ranges, resource: u32) -> u32
    requires ranges { AreRanges problem.now ranges.now }
    requires resource { resource < resource_count problem.now }
    ensures { result ≡ least_load problem.now ranges.now resource }
{
    let mut load = 0;
    for unit in 0..problem.units() {
        load += least_uses(problem, unit, ranges.low(unit), ranges.high(unit), resource);
    }
    load
}

// The least load over all alternatives of one of the named resources, found once.
fn whole_load(
    problem: &Problem,
    whole: &Ranges,
    named: &[u32],
    known: &mut Vec<Option<u32>>,
    at: usize,
) -> u32
    requires ranges { AreRanges problem.now whole.now }
    requires known { AreWholeLoads problem.now whole.now named.now known.old.items }
    requires at { at < length named.now }
    requires resource { slice_index named.now at < resource_count problem.now }
    ensures load { result ≡ least_load problem.now whole.now (slice_index named.now at) }
    ensures known { AreWholeLoads problem.now whole.now named.now known.new.items }
{
    if let Some(load) = known[at] {
        return load;
    }
    let load = least_load(problem, whole, named[at]);
    known[at] = Some(load);
    load
}

// A load with a unit's least uses in its range in place of those in all its alternatives.
fn exchanged(
    problem: &Problem,
    whole: &Ranges,
    ranges: &Ranges,
    unit: u32,
    load: u128,
    resource: u32,
) -> u128
    requires whole { AreRanges problem.now whole.now }
    requires ranges { AreRanges problem.now ranges.now }
    requires unit { unit < unit_count problem.now }
    requires part { least_at problem.now whole.now resource unit ≤ load }
    requires small { load < 2 ^ 100 }
    ensures load { result + least_at problem.now whole.now resource unit
        ≡ load + least_at problem.now ranges.now resource unit }
    ensures small { result ≤ load + MOST_USES }
{
    let (low, high) = (ranges.low(unit), ranges.high(unit));
    let (first, last) = (whole.low(unit), whole.high(unit));
    if low == first && high == last {
        return load;
    }
    let was = least_uses(problem, unit, first, last, resource);
    let now = least_uses(problem, unit, low, high, resource);
    load + u128::from(now) - u128::from(was)
}

// The least load of a resource, from that over all alternatives: one step a changed unit, and one
// an alternative in its range that uses the resource.
fn load_now(
    problem: &Problem,
    whole: &Ranges,
    ranges: &Ranges,
    changed: &[u32],
    load: u32,
    resource: u32,
) -> u128
    requires whole { AreRanges problem.now whole.now }
    requires ranges { AreRanges problem.now ranges.now }
    requires there { All (λ u. u < unit_count problem.now) changed.now }
    requires once { AreOnce changed.now }
    requires others { AgreeBut changed.now whole.now ranges.now }
    requires load { load ≡ least_load problem.now whole.now resource }
    ensures load { result ≡ least_load problem.now ranges.now resource }
    ensures small { result < 2 ^ 100 }
{
    agreeing_ranges();
    let mut now = u128::from(load);
    for unit in changed {
        now = exchanged(problem, whole, ranges, *unit, now, resource);
    }
    now
}

// The least load of a resource that has no place of its own.
fn load_by_changes(
    problem: &Problem,
    ranges: &Ranges,
    loads: &mut Loads,
    at: usize,
    resource: u32,
) -> u128
    requires ranges { AreRanges problem.now ranges.now }
    requires loads { (changes : List ℕ) × IsLoadState problem.now ranges.now changes loads.old }
    requires resource { resource < resource_count problem.now }
    requires at { at < length loads.old.named.items }
    requires named { slice_index loads.old.named.items at ≡ resource }
    ensures loads { (changes : List ℕ) → IsLoadState problem.now ranges.now changes loads.old →
        IsLoadState problem.now ranges.now changes loads.new }
    ensures load { result ≡ least_load problem.now ranges.now resource }
{
    let load = whole_load(problem, &loads.whole, &loads.named, &mut loads.known, at);
    let units = loads.changed.units();
    load_now(problem, &loads.whole, ranges, units, load, resource)
}

// The least load of a resource that has a place, or whose place is empty.
fn load_kept(
    alloc: Global,
    problem: &Problem,
    ranges: &Ranges,
    loads: &mut Loads,
    changes: &[u32],
    resource: u32,
    place: usize,
) -> Result<u128, Memory>
    requires ranges { AreRanges problem.now ranges.now }
    requires loads { IsLoadState problem.now ranges.now changes.now loads.old }
    requires changes { All (λ u. u < unit_count problem.now) changes.now }
    requires resource { resource < resource_count problem.now }
    requires place { place < length loads.old.kept.items }
    requires same { IfSome (slice_index_or loads.old.kept.items place None)
        (λ kept. kept.resource ≡ resource) }
    ensures loads { IfOk result
        (λ load. IsLoadState problem.now ranges.now changes.now loads.new) }
    ensures load { IfOk result (λ load. load ≡ least_load problem.now ranges.now resource) }
{
    let old = loads.kept[place].take();
    let marked = loads.changed.units();
    let kept = renewed(alloc, problem, old, ranges, changes, marked, resource)?;
    let load = kept.load;
    loads.kept[place] = Some(kept);
    Ok(u128::from(load))
}

// The least load of a resource, by what is kept of it, where its place has no other. Each resource
// that a node of the walk names has a rank; one without a rank would only cost more.
fn load_of(
    alloc: Global,
    problem: &Problem,
    ranges: &Ranges,
    loads: &mut Loads,
    changes: &[u32],
    resource: u32,
) -> Result<u128, Memory>
    requires ranges { AreRanges problem.now ranges.now }
    requires loads { IsLoadState problem.now ranges.now changes.now loads.old }
    requires changes { All (λ u. u < unit_count problem.now) changes.now }
    requires resource { resource < resource_count problem.now }
    ensures loads { IfOk result
        (λ load. IsLoadState problem.now ranges.now changes.now loads.new) }
    ensures load { IfOk result (λ load. load ≡ least_load problem.now ranges.now resource) }
{
    let Some(at) = rank_of(&loads.named, resource) else {
        return Ok(u128::from(least_load(problem, ranges, resource)));
    };
    let place = at % loads.kept.len();
    if has_other(&loads.kept[place], resource) {
        return Ok(load_by_changes(problem, ranges, loads, at, resource));
    }
    load_kept(alloc, problem, ranges, loads, changes, resource, place)
}

/// Whether a resource is there, and its least load passes its limit. The first node that names a
/// resource costs one step a unit, and one an alternative in range that uses it. Then a node costs
/// one step for each change of a range since one last named it, at most one for each unit whose
/// range has changed since the walk began, and one an alternative that uses it of each range that
/// differs. Where another resource has its place, a node goes over each unit whose range has
/// changed since the walk began, and its alternatives that use the resource. A resource is looked
/// up among those that nodes of the walk name by halving their list.
pub(crate) fn over_holds(
    alloc: Global,
    problem: &Problem,
    ranges: &Ranges,
    loads: &mut Loads,
    changes: &[u32],
    resource: u32,
) -> Result<bool, Memory>
    requires ranges { AreRanges problem.now ranges.now }
    requires loads { IsLoadState problem.now ranges.now changes.now loads.old }
    requires changes { All (λ u. u < unit_count problem.now) changes.now }
    ensures loads { IfOk result
        (λ holds. IsLoadState problem.now ranges.now changes.now loads.new) }
    ensures holds { IfOk result
        (λ holds. IsTrue holds ↔ OverHolds problem.now ranges.now resource) }
{
    if resource >= problem.resources() {
        return Ok(false);
    }
    let load = load_of(alloc, problem, ranges, loads, changes, resource)?;
    Ok(load > problem.limit(resource) as u128)
}
