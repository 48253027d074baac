//! Totals of a vector, kept while the ranges change.

ghost use Rattle.std.specs.Prelude.{◌≡◌, ◌<◌, ◌≤◌, All, IfOk, IfSome, length, slice_set};
ghost use Rattle.choice_problem.specs.Problems.{unit_count};
ghost use Rattle.choice_problem.specs.Bounds.{AreRanges, low_of, high_of};
ghost use Rattle.choice_problem.specs.declared.closing.TheConstants.{SCALE_BOUND};
ghost use Rattle.price_table.specs.Tables.{IsTableFor};
ghost use Rattle.price_table.specs.Totals.{AreTotalsFor};
ghost use Rattle.kept_bounds.specs.Changes.{AgreeBut, HasSeen};
ghost use Rattle.kept_bounds.specs.Kept.{IsKept};

use choice_problem::{Problem, Ranges};
use price_table::{PriceTable, Totals};
use slot_text::Memory;
use std::alloc::Global;

// A vector's totals at the ranges and the scale of the last leaf that named it, and how many
// changes of ranges there had been then.
#[derive(Drop)]
pub(crate) struct KeptTotals {
    pub(crate) totals: Totals,
    pub(crate) scale: u64,
    pub(crate) seen: usize,
}

// Brings one unit of the totals to its range.
fn follow_unit(
    problem: &Problem,
    table: &PriceTable,
    totals: &mut Totals,
    ranges: &Ranges,
    unit: u32,
)
    requires table { IsTableFor problem.now table.now }
    requires totals { AreTotalsFor problem.now table.now.prices totals.old }
    requires ranges { AreRanges problem.now ranges.now }
    requires unit { unit < unit_count problem.now }
    ensures totals { AreTotalsFor problem.now table.now.prices totals.new }
    ensures scale { totals.new.scale ≡ totals.old.scale }
    ensures ranges { totals.new.ranges ≡ slice_set totals.old.ranges unit
        (low_of ranges.now unit, high_of ranges.now unit) }
{
    let low = ranges.low(unit);
    let high = ranges.high(unit);
    let old_low = totals.ranges().low(unit);
    let old_high = totals.ranges().high(unit);
    if low != old_low || high != old_high {
        totals.set(problem, unit, low, high, table);
    }
}

// Brings totals to these ranges, where only these units have others: one step a unit, and one an
// alternative of each range that differs.
fn follow(
    problem: &Problem,
    table: &PriceTable,
    totals: &mut Totals,
    ranges: &Ranges,
    units: &[u32],
)
    requires table { IsTableFor problem.now table.now }
    requires totals { AreTotalsFor problem.now table.now.prices totals.old }
    requires ranges { AreRanges problem.now ranges.now }
    requires units { All (λ u. u < unit_count problem.now) units.now }
    requires others { AgreeBut units.now totals.old.ranges ranges.now }
    ensures totals { AreTotalsFor problem.now table.now.prices totals.new }
    ensures scale { totals.new.scale ≡ totals.old.scale }
    ensures ranges { totals.new.ranges ≡ ranges.now }
{
    for unit in units {
        follow_unit(problem, table, totals, ranges, *unit);
    }
}

// A vector's totals, after so many changes.
fn first_totals(
    alloc: Global,
    problem: &Problem,
    table: &PriceTable,
    ranges: &Ranges,
    seen: usize,
    scale: u64,
) -> Result<KeptTotals, Memory>
    requires table { IsTableFor problem.now table.now }
    requires ranges { AreRanges problem.now ranges.now }
    requires scale { scale < SCALE_BOUND }
    ensures kept { IfOk result (λ kept. IsKept problem.now table.now.prices kept) }
    ensures ranges { IfOk result (λ kept. kept.totals.ranges ≡ ranges.now) }
    ensures scale { IfOk result (λ kept. kept.scale ≡ scale) }
    ensures seen { IfOk result (λ kept. kept.seen ≡ seen) }
{
    let totals = Totals::of(alloc, problem, ranges, table, scale)?;
    Ok(KeptTotals {
        totals,
        scale,
        seen,
    })
}

/// A vector's totals at these ranges and this scale, from those kept before, if any: at first and
/// at another scale one step an alternative in range; else one step for each change of a range
/// since, and one an alternative of each range that differs.
pub(crate) fn renewed(
    alloc: Global,
    problem: &Problem,
    table: &PriceTable,
    old: Option<KeptTotals>,
    ranges: &Ranges,
    changes: &[u32],
    scale: u64,
) -> Result<KeptTotals, Memory>
    requires table { IsTableFor problem.now table.now }
    requires old { IfSome old (λ kept. IsKept problem.now table.now.prices kept
        × HasSeen kept.totals.ranges ranges.now changes.now kept.seen) }
    requires changes { All (λ u. u < unit_count problem.now) changes.now }
    requires ranges { AreRanges problem.now ranges.now }
    requires scale { scale < SCALE_BOUND }
    ensures kept { IfOk result (λ kept. IsKept problem.now table.now.prices kept) }
    ensures ranges { IfOk result (λ kept. kept.totals.ranges ≡ ranges.now) }
    ensures scale { IfOk result (λ kept. kept.scale ≡ scale) }
    ensures seen { IfOk result (λ kept. kept.seen ≡ length changes.now) }
{
    match old {
        Some(kept) if kept.scale == scale => Ok(moved(problem, table, kept, ranges, changes)),
        _ => first_totals(alloc, problem, table, ranges, changes.len(), scale),
    }
}

// Totals at their scale, brought to these ranges.
fn moved(
    problem: &Problem,
    table: &PriceTable,
    kept: KeptTotals,
    ranges: &Ranges,
    changes: &[u32],
) -> KeptTotals
    requires table { IsTableFor problem.now table.now }
    requires kept { IsKept problem.now table.now.prices kept }
    requires seen { HasSeen kept.totals.ranges ranges.now changes.now kept.seen }
    requires changes { All (λ u. u < unit_count problem.now) changes.now }
    requires ranges { AreRanges problem.now ranges.now }
    ensures kept { IsKept problem.now table.now.prices result }
    ensures ranges { result.totals.ranges ≡ ranges.now }
    ensures scale { result.scale ≡ kept.scale }
    ensures seen { result.seen ≡ length changes.now }
{
    let mut kept = kept;
    let units = &changes[kept.seen..];
    follow(problem, table, &mut kept.totals, ranges, units);
    kept.seen = changes.len();
    kept
}
