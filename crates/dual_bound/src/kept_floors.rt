//! The floors of ranges that change unit by unit.

ghost use Rattle.std.specs.Prelude.{◌≡◌, ◌<◌, [], Some, IfOk};
ghost use Rattle.choice_problem.specs.declared.closing.TheConstants.{PRICED_SCALE};
ghost use Rattle.choice_problem.specs.Bounds.{AreRanges, Closes, bound_of};
ghost use Rattle.price_table.specs.Totals.{AreTotalsFor};
ghost use Rattle.dual_bound.specs.Stated.{zero_floor, priced_floor};
ghost use Rattle.dual_bound.specs.KeptFloors.{AreLeastCosts};

use crate::floors::{StatedFloor, least_cost, rounded_up};
use choice_problem::{Problem, Ranges};
use price_table::{PriceTable, Totals, set_kept, totals_of};
use slot_text::Memory;
use std::alloc::Global;
use std::marker::Model;

/// What the floors of ranges are read from while the ranges change: the least cost of each unit in
/// its range, and the totals of each vector. Contracts see the problem, the vectors and the ranges.
///
/// Memory: 16 bytes a unit, and 32 for each vector.
#[derive(Drop)]
pub struct KeptFloors<'a> {
    problem: &'a Problem,
    tables: &'a [PriceTable],
    ranges: Ranges,
    costs: Vec<u64>,
    totals: Vec<Totals>,
}

impl<'a> Model for KeptFloors<'a> {
    ghost use Rattle.price_table.specs.Tables.{vectors_of};
    ghost use Rattle.dual_bound.specs.KeptFloors.{FloorsView, AreFloorsKept};

    ghost Value = { FloorsView };

    ghost view = { λ f. record {
      problem = f.problem.now;
      vectors = vectors_of f.tables.now;
      ranges = f.ranges;
    } };

    ghost invariant = { λ f.
        AreFloorsKept f.problem.now f.tables.now f.ranges f.costs.items f.totals.items };
}

impl<'a> KeptFloors<'a> {
    ghost use Rattle.std.specs.Prelude.{◌≡◌, ◌<◌, ◌≤◌, All, IfOk, Some, length, slice_set};
    ghost use Rattle.choice_problem.specs.declared.vectors.TheConstants.{MOST_VECTORS};
    ghost use Rattle.choice_problem.specs.Problems.{unit_count, alt_count};
    ghost use Rattle.choice_problem.specs.Bounds.{AreRanges};
    ghost use Rattle.choice_problem.specs.Trees.{LeafHolds};
    ghost use Rattle.price_table.specs.Tables.{IsTableFor, vectors_of};
    ghost use Rattle.dual_bound.specs.Stated.{IsStatedFloor, scale_at};

    /// The floors at ranges by the vector without prices and those of these tables: one step an
    /// alternative in range for each vector.
    pub fn of(
        alloc: Global,
        problem: &'a Problem,
        tables: &'a [PriceTable],
        ranges: &Ranges,
    ) -> Result<KeptFloors<'a>, Memory>
        requires ranges { AreRanges problem.now ranges.now }
        requires tables { All (IsTableFor problem.now) tables.now }
        requires few { length tables.now ≤ MOST_VECTORS }
        ensures problem { IfOk result (λ floors. floors.problem ≡ problem.now) }
        ensures vectors { IfOk result (λ floors. floors.vectors ≡ vectors_of tables.now) }
        ensures ranges { IfOk result (λ floors. floors.ranges ≡ ranges.now) }
    {
        let costs = costs_of(alloc, problem, ranges)?;
        let totals = totals_of(alloc, problem, ranges, tables)?;
        Ok(KeptFloors {
            problem,
            tables,
            ranges: ranges.copy(alloc)?,
            costs,
            totals,
        })
    }

    /// Goes to other ranges of the problem: one step a unit, and for each unit whose range differs
    /// one an alternative in its new range for each vector.
    pub fn go(&mut self, ranges: &Ranges)
        requires { AreRanges self.old.problem ranges.now }
        ensures problem { self.new.problem ≡ self.old.problem }
        ensures vectors { self.new.vectors ≡ self.old.vectors }
        ensures ranges { self.new.ranges ≡ ranges.now }
    {
        for unit in 0..self.problem.units() {
            self.set(unit, ranges.low(unit), ranges.high(unit));
        }
    }

    // Sets the range of a unit.
    fn set(&mut self, unit: u32, low: u32, high: u32)
        requires unit { unit < unit_count self.old.problem }
        requires ordered { low ≤ high }
        requires there { high < alt_count self.old.problem unit }
        ensures problem { self.new.problem ≡ self.old.problem }
        ensures vectors { self.new.vectors ≡ self.old.vectors }
        ensures ranges { self.new.ranges ≡ slice_set self.old.ranges unit (low, high) }
    {
        if self.ranges.low(unit) == low && self.ranges.high(unit) == high {
            return;
        }
        set_kept(
            self.problem,
            &self.ranges,
            unit,
            low,
            high,
            self.tables,
            &mut self.totals,
        );
        self.costs[unit as usize] = least_cost(self.problem, unit, low, high);
        self.ranges.set(unit, low, high);
    }

    /// The floor of the ranges: what `floor_of` answers for them and these vectors. One step a unit
    /// and a vector.
    pub fn floor(&self) -> StatedFloor
        ensures floor { IsStatedFloor self.now.problem self.now.ranges self.now.vectors result.cost
            result.vector }
        ensures closes { LeafHolds self.now.problem self.now.vectors (Some result.cost)
            self.now.ranges result.vector (scale_at result.vector) }
    {
        let mut floor = StatedFloor {
            cost: sum_costs(self.problem, &self.ranges, &self.costs),
            vector: 0,
        };
        for place in 0..self.tables.len() {
            let table = &self.tables[place];
            let cost = kept_floor(self.problem, &self.ranges, table, &self.totals[place]);
            if floor.cost < cost {
                let vector = place as u32 + 1;
                floor = StatedFloor { cost, vector };
            }
        }
        floor
    }
}

// The floor by a vector whose totals are kept.
fn kept_floor(problem: &Problem, ranges: &Ranges, table: &PriceTable, totals: &Totals) -> u64
    requires totals { AreTotalsFor problem.now table.now.prices totals.now }
    requires ranges { totals.now.ranges ≡ ranges.now }
    requires scale { totals.now.scale ≡ PRICED_SCALE }
    ensures value { result ≡ priced_floor problem.now ranges.now table.now.prices }
    ensures closes { 0 < result →
        Closes problem.now ranges.now table.now.prices PRICED_SCALE (Some result) }
{
    rounded_up(kept_bound(problem, ranges, table, totals))
}

// Its bound.
fn kept_bound(problem: &Problem, ranges: &Ranges, table: &PriceTable, totals: &Totals) -> i128
    requires totals { AreTotalsFor problem.now table.now.prices totals.now }
    requires ranges { totals.now.ranges ≡ ranges.now }
    requires scale { totals.now.scale ≡ PRICED_SCALE }
    ensures { result ≡ bound_of problem.now ranges.now table.now.prices PRICED_SCALE }
{
    let (_problem, _ranges, _table) = (problem, ranges, table);
    totals.bound()
}

// The least cost of each unit in its range.
fn costs_of(alloc: Global, problem: &Problem, ranges: &Ranges) -> Result<Vec<u64>, Memory>
    requires { AreRanges problem.now ranges.now }
    ensures { IfOk result (λ costs. AreLeastCosts problem.now ranges.now costs.items) }
{
    let mut costs = Vec::with_capacity(alloc, problem.units() as usize)?;
    for unit in 0..problem.units() {
        costs.push(least_cost(problem, unit, ranges.low(unit), ranges.high(unit)))?;
    }
    Ok(costs)
}

// The sum of the least costs.
fn sum_costs(problem: &Problem, ranges: &Ranges, costs: &[u64]) -> u64
    requires ranges { AreRanges problem.now ranges.now }
    requires costs { AreLeastCosts problem.now ranges.now costs.now }
    ensures value { result ≡ zero_floor problem.now ranges.now }
    ensures closes { Closes problem.now ranges.now [] 1 (Some result) }
{
    let _ranges = ranges;
    let mut total = 0;
    for unit in 0..problem.units() {
        total += costs[unit as usize];
    }
    total
}
