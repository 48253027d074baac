//! A place in the search: ranges, with what a visit asks of them.

ghost use Rattle.std.specs.Prelude.{◌≡◌, ◌<◌, ◌≤◌, ℕ, IfOk, OnOk, length, slice_set};
ghost use Rattle.choice_problem.specs.Problems.{unit_count, alt_count};
ghost use Rattle.choice_problem.specs.Bounds.{AreRanges};
ghost use Rattle.search_workers.specs.Settings.{IsPlaceIn};

use crate::tasks::Task;
use branch_tree::Walk;
use choice_problem::Ranges;
use price_table::{Totals, set_kept, totals_of};
use slot_text::Memory;
use std::alloc::Global;

// A walk, and the totals of each vector at its ranges: what a visit asks is kept while the ranges
// change.
#[derive(Drop)]
pub(crate) struct Place<'a> {
    pub(crate) walk: Walk<'a>,
    pub(crate) totals: Vec<Totals>,
}

impl<'a> Place<'a> {
    // The place of a walk.
    pub(crate) fn new(alloc: Global, task: &Task<'a>, walk: Walk<'a>) -> Result<Place<'a>, Memory>
        requires { walk.problem ≡ task.now.problem }
        ensures place { IfOk result (IsPlaceIn task.now) }
        ensures ranges { IfOk result (λ place. place.walk.ranges ≡ walk.entry.ranges) }
    {
        let totals = totals_of(alloc, task.problem(), walk.ranges(), task.tables())?;
        Ok(Place { walk, totals })
    }

    // The place of these ranges.
    pub(crate) fn at(alloc: Global, task: &Task<'a>, ranges: Ranges) -> Result<Place<'a>, Memory>
        requires { AreRanges task.now.problem ranges }
        ensures place { IfOk result (IsPlaceIn task.now) }
        ensures ranges { IfOk result (λ place. place.walk.ranges ≡ ranges) }
    {
        let walk = task.walk_at(alloc, ranges)?;
        Place::new(alloc, task, walk)
    }

    // Goes to other ranges: what does not differ is not counted anew.
    pub(crate) fn go(
        &mut self,
        alloc: Global,
        task: &Task<'a>,
        ranges: &Ranges,
    ) -> Result<(), Memory>
        requires place { IsPlaceIn task.now self.old }
        requires ranges { AreRanges task.now.problem ranges.now }
        ensures place { OnOk result (IsPlaceIn task.now self.new) }
        ensures ranges { OnOk result (self.new.walk.ranges ≡ ranges.now) }
    {
        let _here = self.walk.ranges();
        for unit in 0..task.problem().units() {
            self.set(alloc, task, unit, ranges.low(unit), ranges.high(unit))?;
        }
        Ok(())
    }

    // Sets the range of a unit.
    fn set(
        &mut self,
        alloc: Global,
        task: &Task<'a>,
        unit: u32,
        low: u32,
        high: u32,
    ) -> Result<(), Memory>
        requires place { IsPlaceIn task.now self.old }
        requires unit { unit < unit_count task.now.problem }
        requires ordered { low ≤ high }
        requires there { high < alt_count task.now.problem unit }
        ensures place { OnOk result (IsPlaceIn task.now self.new) }
        ensures ranges { OnOk result (self.new.walk.ranges
            ≡ slice_set self.old.walk.ranges unit (low, high)) }
    {
        let ranges = self.walk.ranges();
        if ranges.low(unit) == low && ranges.high(unit) == high {
            return Ok(());
        }
        let problem = task.problem();
        set_kept(
            problem,
            ranges,
            unit,
            low,
            high,
            task.tables(),
            &mut self.totals,
        );
        self.walk.narrow(alloc, problem, unit, low, high)
    }
}
