//! The search for the cheapest times that fit.

ghost use Rattle.std.specs.Prelude.{◌≡◌, ◌<◌, ◌==◌, ◌&&◌, List, All, IfOk, OnOk, IfSome, None, map};
ghost use Rattle.season_days.specs.Capacity.{capacity_of};
ghost use Rattle.scr_reader.specs.Printed.{LineFits};
ghost use Rattle.series_model.specs.Displacement.{cost_at};
ghost use Rattle.series_model.specs.Options.{TimesFit, shifts_of};
ghost use Rattle.holding_book.specs.declared.holding.Holding.{Holding as HoldingValue};
ghost use Rattle.holding_book.specs.Books.{held_movements, best_times};
ghost use Rattle.holding_book.specs.Private.Levels.{first_at_level};
ghost use Rattle.holding_book.specs.Private.Loads.{AreLeft, fits_left, best_left};
ghost use Rattle.holding_book.specs.Private.Trials.{IsTimesTrial, AreTrials, IsTrialPlace};
ghost use Rattle.season_days.specs.Seasons.{date_count};

use crate::levels::{costs_of, next_level};
use crate::loads::Loads;
use crate::trials::{Trial, Trials, place_of};
use scr_reader::{Line, Stop};
use season_days::{Kind, Period};
use series_model::laws::{free_shift, requested_shift, shift_bounds};
use series_model::{Times, line_times, shifts_of};
use slot_text::Memory;
use std::alloc::Global;

impl Loads {
    /// The cheapest times at which a line fits beside the holdings of which the rest is left, the
    /// first of several; none where it fits at none.
    ///
    /// The requested times are tested first: two tests. Else each minute of a movement is tested
    /// once at most, one step a use, and none that costs more than the answer; two that fit alone
    /// are tested together where they can share a resource. For each cost up to the answer's, one
    /// step an alternative.
    pub fn best_times(&self, alloc: Global, line: &Line) -> Result<Option<Times>, Memory>
        requires { LineFits self.now.declaration.season line.now }
        ensures times { IfOk result (λ best. IfSome best (TimesFit None)) }
        ensures best { (holdings : List HoldingValue) →
            AreLeft (capacity_of self.now.declaration)
            (held_movements self.now.declaration.season holdings) self.now.left →
            IfOk result (λ best. best ≡ best_times (record {
              declaration = self.now.declaration;
              holdings = holdings;
            }) line.now) }
    {
        self.least_times(alloc, line)
    }

    // The cheapest times at which a line fits in what is left.
    fn least_times(&self, alloc: Global, line: &Line) -> Result<Option<Times>, Memory>
        requires { LineFits self.now.declaration.season line.now }
        ensures times { IfOk result (λ best. IfSome best (TimesFit None)) }
        ensures best { IfOk result (λ best. best ≡ best_left self.now line.now) }
    {
        requested_shift();
        free_shift();
        shift_bounds();
        let requested = line_times(line);
        let mut trials = Trials::new(alloc);
        let fits = self.fits_at(alloc, line, &mut trials, requested)?;
        if fits {
            return Ok(Some(requested));
        }
        self.search(alloc, line, trials)
    }

    // The same, of all shifts.
    fn search(&self, alloc: Global, line: &Line, trials: Trials) -> Result<Option<Times>, Memory>
        requires line { LineFits self.now.declaration.season line.now }
        requires trials { AreTrials self.now line.now trials }
        ensures times { IfOk result (λ best. IfSome best (TimesFit None)) }
        ensures best { IfOk result (λ best. best ≡ best_left self.now line.now) }
    {
        let shifts = shifts_of(alloc, line, self.declaration())?;
        let costs = costs_of(alloc, line, &shifts, self.declaration())?;
        let mut trials = trials;
        self.by_levels(alloc, line, &mut trials, &shifts, &costs)
    }

    // The same, of the shifts and their costs: by rising cost, and of those of one cost in their
    // order.
    fn by_levels(
        &self,
        alloc: Global,
        line: &Line,
        trials: &mut Trials,
        shifts: &[Times],
        costs: &[u64],
    ) -> Result<Option<Times>, Memory>
        requires line { LineFits self.now.declaration.season line.now }
        requires trials { AreTrials self.now line.now trials.old }
        requires shifts { shifts.now ≡ shifts_of self.now.declaration line.now }
        requires costs { costs.now ≡ map (cost_at self.now.declaration line.now) shifts.now }
        ensures times { IfOk result (λ best. IfSome best (TimesFit None)) }
        ensures best { IfOk result (λ best. best ≡ best_left self.now line.now) }
    {
        shift_bounds();
        let mut level = next_level(costs, None);
        while let Some(cost) = level {
            let best = self.first_at_level(alloc, line, trials, shifts, costs, cost)?;
            if best.is_some() {
                return Ok(best);
            }
            level = next_level(costs, Some(cost));
        }
        Ok(None)
    }

    // The first shift of a cost at which a line fits.
    fn first_at_level(
        &self,
        alloc: Global,
        line: &Line,
        trials: &mut Trials,
        shifts: &[Times],
        costs: &[u64],
        level: u64,
    ) -> Result<Option<Times>, Memory>
        requires line { LineFits self.now.declaration.season line.now }
        requires trials { AreTrials self.now line.now trials.old }
        requires shifts { All (TimesFit None) shifts.now }
        requires costs { costs.now ≡ map (cost_at self.now.declaration line.now) shifts.now }
        ensures best { IfOk result (λ best. best
            ≡ first_at_level (cost_at self.now.declaration line.now) (fits_left self.now line.now)
            level shifts.now) }
        ensures times { IfOk result (λ best. IfSome best (TimesFit None)) }
        ensures trials { OnOk result (AreTrials self.now line.now trials.new) }
    {
        for n in 0..shifts.len() {
            let fits = self.fits_for(alloc, line, trials, shifts[n], costs[n], level)?;
            if fits {
                return Ok(Some(shifts[n]));
            }
        }
        Ok(None)
    }

    // Whether the cost of times is that of a level and a line fits at them, which is tried only
    // then.
    fn fits_for(
        &self,
        alloc: Global,
        line: &Line,
        trials: &mut Trials,
        times: Times,
        cost: u64,
        level: u64,
    ) -> Result<bool, Memory>
        requires line { LineFits self.now.declaration.season line.now }
        requires trials { AreTrials self.now line.now trials.old }
        requires times { TimesFit None times }
        ensures fits { IfOk result (λ fits.
            fits ≡ (cost == level && fits_left self.now line.now times)) }
        ensures trials { OnOk result (AreTrials self.now line.now trials.new) }
    {
        if cost != level {
            return Ok(false);
        }
        let fits = self.fits_at(alloc, line, trials, times)?;
        Ok(fits)
    }

    // Whether a line fits at some times. Each minute is tried once, and the departure where the
    // arrival fits.
    fn fits_at(
        &self,
        alloc: Global,
        line: &Line,
        trials: &mut Trials,
        times: Times,
    ) -> Result<bool, Memory>
        requires line { LineFits self.now.declaration.season line.now }
        requires trials { AreTrials self.now line.now trials.old }
        requires times { TimesFit None times }
        ensures fits { IfOk result (λ fits. fits ≡ fits_left self.now line.now times) }
        ensures trials { OnOk result (AreTrials self.now line.now trials.new) }
    {
        let Times::At { arrival, departure } = times else {
            return Ok(false);
        };
        let one = self.try_arrival(alloc, line, trials, arrival)?;
        if self.is_full(line, &trials.arrivals[one]) {
            return Ok(false);
        }
        let two = self.try_departure(alloc, line, trials, departure)?;
        Ok(self.fits_both(line, &trials.arrivals[one], &trials.departures[two]))
    }

    // The place of the trial of an arrival: shifts come by arrivals, so it is mostly the last one.
    fn try_arrival(
        &self,
        alloc: Global,
        line: &Line,
        trials: &mut Trials,
        minute: u32,
    ) -> Result<usize, Memory>
        requires line { LineFits self.now.declaration.season line.now }
        requires trials { AreTrials self.now line.now trials.old }
        ensures trials { OnOk result (AreTrials self.now line.now trials.new) }
        ensures place { IfOk result (IsTrialPlace minute trials.new.arrivals.items) }
    {
        let first = trials.arrival;
        let arrivals = &mut trials.arrivals;
        let place = self.trial_at(
            alloc,
            Kind::Arr,
            line.arrival,
            minute,
            line.period,
            first,
            arrivals,
        )?;
        trials.arrival = place;
        Ok(place)
    }

    // The place of the trial of a departure: after each arrival they rise, so it is mostly the one
    // behind the last.
    fn try_departure(
        &self,
        alloc: Global,
        line: &Line,
        trials: &mut Trials,
        minute: u32,
    ) -> Result<usize, Memory>
        requires line { LineFits self.now.declaration.season line.now }
        requires trials { AreTrials self.now line.now trials.old }
        ensures trials { OnOk result (AreTrials self.now line.now trials.new) }
        ensures arrivals { OnOk result (trials.new.arrivals ≡ trials.old.arrivals) }
        ensures place { IfOk result (IsTrialPlace minute trials.new.departures.items) }
    {
        let first = trials.departure;
        let departures = &mut trials.departures;
        let place = self.trial_at(
            alloc,
            Kind::Dep,
            line.departure,
            minute,
            line.period,
            first,
            departures,
        )?;
        trials.departure = place + 1;
        Ok(place)
    }

    // The place of the trial of a movement at a minute, looked for at one place first. It is made
    // where there is none yet.
    fn trial_at(
        &self,
        alloc: Global,
        kind: Kind,
        stop: Option<Stop>,
        minute: u32,
        period: Period,
        first: usize,
        trials: &mut Vec<Trial>,
    ) -> Result<usize, Memory>
        requires first { period.first.0 < date_count self.now.declaration.season }
        requires last { period.last.0 < date_count self.now.declaration.season }
        requires trials { All (IsTimesTrial self.now kind stop period) trials.old.items }
        ensures trials { OnOk result
            (All (IsTimesTrial self.now kind stop period) trials.new.items) }
        ensures place { IfOk result (IsTrialPlace minute trials.new.items) }
    {
        if let Some(place) = place_of(trials, first, minute) {
            return Ok(place);
        }
        let next = trials.len();
        let trial = self.try_stop(alloc, kind, stop, minute, period)?;
        trials.push(trial)?;
        Ok(next)
    }
}
