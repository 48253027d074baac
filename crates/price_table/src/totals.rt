//! Totals that are kept while ranges change.

ghost use Rattle.std.specs.Prelude.{◌≡◌, ◌++◌, ◌^◌, ◌<◌, ◌≤◌, ℕ, List, All, IfOk, OnOk, length, slice_index, slice_set, pos, ◌-ℤ◌};
ghost use Rattle.choice_problem.specs.declared.closing.TheConstants.{SCALE_BOUND};
ghost use Rattle.choice_problem.specs.declared.problems.TheConstants.{MOST_UNITS};
ghost use Rattle.choice_problem.specs.declared.vectors.Price.{Price};
ghost use Rattle.choice_problem.specs.Problems.{unit_count, alt_count};
ghost use Rattle.choice_problem.specs.Bounds.{AreRanges};
ghost use Rattle.price_table.specs.Tables.{IsTableFor, vectors_of};
ghost use Rattle.price_table.specs.Strips.{unit_least};
ghost use Rattle.price_table.specs.Totals.{AreKeptFor, AreSummed, sum_of};

use crate::bounds::unit_least;
use crate::tables::PriceTable;
use choice_problem::{PRICED_SCALE, Problem, Ranges, bound_passes};
use slot_text::Memory;
use std::alloc::Global;
use std::marker::Model;

/// What a table's bound is made of, for one scale and ranges that change unit by unit: each unit's
/// least priced cost in its range, and their sum. Contracts see the ranges, the scale and these
/// costs. Which problem and which prices they are for, `AreTotalsFor` says: the caller hands in the
/// same problem and table at each change.
///
/// Memory: 24 bytes a unit.
#[derive(Drop)]
pub struct Totals {
    ranges: Ranges,
    scale: u64,
    least: Vec<u128>,
    total: u128,
    limits: u128,
}

impl Model for Totals {
    ghost use Rattle.price_table.specs.Totals.{TotalsView, AreTotals};

    ghost Value = { TotalsView };

    ghost view = { λ t. record {
      ranges = t.ranges;
      scale = t.scale;
      least = t.least.items;
      limits = t.limits;
    } };

    ghost invariant = { λ t. AreTotals t.scale t.least.items t.total t.limits };
}

impl Totals {
    ghost use Rattle.std.specs.Prelude.{◌≡◌, ◌↔◌, ◌<◌, ◌≤◌, ◌^◌, List, Option, IsTrue, IfOk, slice_set};
    ghost use Rattle.choice_problem.specs.declared.closing.TheConstants.{SCALE_BOUND};
    ghost use Rattle.choice_problem.specs.declared.vectors.Price.{Price};
    ghost use Rattle.choice_problem.specs.Problems.{ProblemView, unit_count, alt_count};
    ghost use Rattle.choice_problem.specs.Bounds.{AreRanges, Closes, bound_of};
    ghost use Rattle.price_table.specs.Tables.{IsTableFor};
    ghost use Rattle.price_table.specs.Totals.{AreTotalsFor};

    /// The totals of ranges at a table's vector: one step an alternative in range.
    pub fn of(
        alloc: Global,
        problem: &Problem,
        ranges: &Ranges,
        table: &PriceTable,
        scale: u64,
    ) -> Result<Totals, Memory>
        requires ranges { AreRanges problem.now ranges.now }
        requires table { IsTableFor problem.now table.now }
        requires scale { scale < SCALE_BOUND }
        ensures ranges { IfOk result (λ totals. totals.ranges ≡ ranges.now) }
        ensures scale { IfOk result (λ totals. totals.scale ≡ scale) }
        ensures valid { IfOk result (AreTotalsFor problem.now table.now.prices) }
    {
        let least = leasts_of(alloc, problem, ranges, table, scale)?;
        let total = sum_of(&least);
        Ok(Totals {
            ranges: ranges.copy(alloc)?,
            scale,
            least,
            total,
            limits: table.limits(),
        })
    }

    /// The ranges.
    pub fn ranges(&self) -> &Ranges
        ensures { result.now ≡ self.now.ranges }
    {
        &self.ranges
    }

    /// Replaces the range of a unit, at one step an alternative in its new range: no other unit is
    /// asked. The problem and the table are those of `of`.
    pub fn set(&mut self, problem: &Problem, unit: u32, low: u32, high: u32, table: &PriceTable)
        requires totals { AreTotalsFor problem.now table.now.prices self.old }
        requires table { IsTableFor problem.now table.now }
        requires unit { unit < unit_count problem.now }
        requires ordered { low ≤ high }
        requires there { high < alt_count problem.now unit }
        ensures ranges { self.new.ranges ≡ slice_set self.old.ranges unit (low, high) }
        ensures scale { self.new.scale ≡ self.old.scale }
        ensures valid { AreTotalsFor problem.now table.now.prices self.new }
    {
        self.ranges.set(unit, low, high);
        let cost = unit_least(problem, &self.ranges, table, unit, self.scale);
        self.total = replace(&mut self.least, self.total, unit, cost);
    }

    /// Whether the bound closes the ranges for a cost, or where no cost is known, in one step: what
    /// `closes` answers.
    pub fn closes(&self, seen: Option<u64>) -> bool
        ensures { (p : ProblemView) (prices : List Price) → AreTotalsFor p prices self.now →
            IsTrue result ↔ Closes p self.now.ranges prices self.now.scale seen }
    {
        let bound = self.bound();
        match seen {
            Some(cost) => bound_passes(bound, self.scale, cost),
            None => self.scale == 0 && bound > 0,
        }
    }

    /// The Lagrangian bound of the ranges at the scale, in one step: what `bound` answers for them.
    pub fn bound(&self) -> i128
        ensures { (p : ProblemView) (prices : List Price) → AreTotalsFor p prices self.now →
            result ≡ bound_of p self.now.ranges prices self.now.scale }
    {
        difference(self.total, self.limits)
    }
}

/// The totals of ranges at the vectors of tables, at scale 1024: one step an alternative in range
/// for each.
pub fn totals_of(
    alloc: Global,
    problem: &Problem,
    ranges: &Ranges,
    tables: &[PriceTable],
) -> Result<Vec<Totals>, Memory>
    requires ranges { AreRanges problem.now ranges.now }
    requires tables { All (IsTableFor problem.now) tables.now }
    ensures { IfOk result (λ totals.
        AreKeptFor problem.now (vectors_of tables.now) ranges.now totals.items) }
{
    let mut totals = Vec::with_capacity(alloc, tables.len())?;
    push_totals(alloc, problem, ranges, tables, &mut totals)?;
    Ok(totals)
}

/// Adds such totals at the vectors of tables to those at other vectors.
pub fn push_totals(
    alloc: Global,
    problem: &Problem,
    ranges: &Ranges,
    tables: &[PriceTable],
    totals: &mut Vec<Totals>,
) -> Result<(), Memory>
    requires ranges { AreRanges problem.now ranges.now }
    requires tables { All (IsTableFor problem.now) tables.now }
    ensures { OnOk result ((vectors : List (List Price)) →
        AreKeptFor problem.now vectors ranges.now totals.old.items →
        AreKeptFor problem.now (vectors ++ vectors_of tables.now) ranges.now totals.new.items) }
{
    for table in tables {
        totals.push(Totals::of(alloc, problem, ranges, table, PRICED_SCALE)?)?;
    }
    Ok(())
}

/// Replaces the range of a unit in the totals that are kept for these tables' vectors in ranges:
/// one step an alternative in the new range for each vector.
pub fn set_kept(
    problem: &Problem,
    ranges: &Ranges,
    unit: u32,
    low: u32,
    high: u32,
    tables: &[PriceTable],
    totals: &mut [Totals],
)
    requires tables { All (IsTableFor problem.now) tables.now }
    requires kept { AreKeptFor problem.now (vectors_of tables.now) ranges.now totals.old }
    requires unit { unit < unit_count problem.now }
    requires ordered { low ≤ high }
    requires there { high < alt_count problem.now unit }
    ensures { AreKeptFor problem.now (vectors_of tables.now) (slice_set ranges.now unit (low, high))
        totals.new }
{
    let _ranges = ranges;
    for place in 0..totals.len() {
        totals[place].set(problem, unit, low, high, &tables[place]);
    }
}

// The difference of two numbers that fit.
fn difference(one: u128, other: u128) -> i128
    requires one { one < 2 ^ 126 }
    requires other { other < 2 ^ 126 }
    ensures { result ≡ pos one -ℤ pos other }
{
    one as i128 - other as i128
}

// The least priced cost of each unit in its range.
fn leasts_of(
    alloc: Global,
    problem: &Problem,
    ranges: &Ranges,
    table: &PriceTable,
    scale: u64,
) -> Result<Vec<u128>, Memory>
    requires ranges { AreRanges problem.now ranges.now }
    requires table { IsTableFor problem.now table.now }
    requires scale { scale < SCALE_BOUND }
    ensures count { IfOk result (λ least. length least.items ≡ unit_count problem.now) }
    ensures few { IfOk result (λ least. length least.items ≤ MOST_UNITS) }
    ensures each { IfOk result (λ least. (u : ℕ) → u < unit_count problem.now →
        slice_index least.items u ≡ unit_least problem.now ranges.now table.now.prices scale u) }
    ensures small { IfOk result (λ least. (u : ℕ) → u < length least.items →
        slice_index least.items u < 2 ^ 101) }
{
    let mut least = Vec::with_capacity(alloc, problem.units() as usize)?;
    for unit in 0..problem.units() {
        least.push(unit_least(problem, ranges, table, unit, scale))?;
    }
    Ok(least)
}

// The sum of some numbers.
fn sum_of(numbers: &[u128]) -> u128
    requires few { length numbers.now ≤ MOST_UNITS }
    requires small { (u : ℕ) → u < length numbers.now → slice_index numbers.now u < 2 ^ 101 }
    ensures { AreSummed numbers.now result }
{
    let mut total = 0;
    for number in numbers {
        total += *number;
    }
    total
}

// Replaces a number, and answers the sum of all.
fn replace(numbers: &mut [u128], total: u128, place: u32, number: u128) -> u128
    requires summed { AreSummed numbers.old total }
    requires place { place < length numbers.old }
    requires small { number < 2 ^ 101 }
    ensures value { numbers.new ≡ slice_set numbers.old place number }
    ensures summed { AreSummed numbers.new result }
{
    let rest = total - numbers[place as usize];
    numbers[place as usize] = number;
    rest + number
}
