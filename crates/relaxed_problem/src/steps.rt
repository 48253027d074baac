//! Steps of the dual simplex.

ghost use Rattle.std.specs.Prelude.{◌≤◌, IfOk};

use crate::entering::{Entering, Entry};
use crate::leaving::{Leaving, Place, Work};
use crate::programs::Program;
use crate::relaxations::Relaxation;
use crate::slots::{
    NOTHING, add, add_multiple, fill, number_or_max, put, put_number, size_of_number, value_at,
};
use slot_text::Memory;
use std::alloc::Global;

/// How a solution of a relaxation ended.
#[derive(Clone, Copy, Debug, PartialEq, Eq)]
pub enum End {
    /// It is solved.
    Solved,
    /// Its value is above the one at which to stop.
    Above,
    /// It has no solution.
    Infeasible,
    /// All pivots were made.
    Spent,
}

/// How a solution of a relaxation ended, and what it took.
#[derive(Clone, Copy, Debug)]
pub struct Ended {
    /// How it ended.
    pub end: End,
    /// How many pivots were made.
    pub pivots: u32,
    /// How many units changed their keys in these, each change counted.
    pub changes: u32,
}

impl Relaxation {
    /// Goes on from the basis that there is, until the relaxation is solved or its value, with
    /// changed costs, is above `stop_above`, by at most so many pivots. A pivot takes some steps
    /// for each unit and for each named part of the units of which prices of parts move, one for
    /// each listed alternative of the units of which some may become cheaper beside their keys,
    /// each use of the parts of which more or less is taken, and some ten for each entry of the
    /// inverse; and for each change of a key in it, a step for each unit with a breakpoint, and for
    /// each use and listed alternative of the unit that changes. Where the program has fewer than
    /// 8,000 alternatives all are listed, and all uses of the basic alternatives are counted; else
    /// those are listed that may come to their bounds soon. The uses are counted once nothing that
    /// is basic passes its bounds and none of the eight classes that were passed most before is
    /// passed any more, or of the sixteen where the program has 100,000 alternatives or more, or in
    /// the fifth pivot from there.
    pub fn solve(
        &mut self,
        alloc: Global,
        program: &Program<'_>,
        most_pivots: u32,
        stop_above: f64,
    ) -> Result<Ended, Memory>
        ensures { IfOk result (λ ended. ended.pivots ≤ most_pivots) }
    {
        let mut work = Work::new(alloc, program)?;
        let ended = self.solve_by(alloc, program, &mut work, most_pivots, stop_above)?;
        Ok(ended)
    }

    /// The same by numbers of the program that are already there.
    pub fn solve_by(
        &mut self,
        alloc: Global,
        program: &Program<'_>,
        work: &mut Work,
        most_pivots: u32,
        stop_above: f64,
    ) -> Result<Ended, Memory>
        ensures { IfOk result (λ ended. ended.pivots ≤ most_pivots) }
    {
        let mut changes: u32 = 0;
        work.nearby.begin(program, &self.parts);
        for pivots in 0..most_pivots {
            let advanced = self.advance(alloc, program, work, stop_above)?;
            changes = changes.saturating_add(work.changes());
            if let Some(end) = advanced {
                return Ok(Ended {
                    end,
                    pivots,
                    changes,
                });
            }
        }
        let end = if self.value > stop_above {
            End::Above
        } else {
            End::Spent
        };
        Ok(Ended {
            end,
            pivots: most_pivots,
            changes,
        })
    }

    // Makes a pivot, or says how it ends.
    fn advance(
        &mut self,
        alloc: Global,
        program: &Program<'_>,
        work: &mut Work,
        stop_above: f64,
    ) -> Result<Option<End>, Memory> {
        work.new_keys.clear();
        if self.value > stop_above {
            return Ok(Some(End::Above));
        }
        self.count_basics(program, work)?;
        if !self.mend_keys(alloc, program, work)? {
            self.ray = Vec::new(alloc);
            return Ok(Some(End::Infeasible));
        }
        self.take_values(alloc, program)?;
        let leaving = self.leaving(alloc, program, work)?;
        match self.leaving_place(alloc, program, &work.units, leaving.place)? {
            Place::Nothing => Ok(Some(End::Solved)),
            place => self.pivot(alloc, program, work, Leaving { place, ..leaving }),
        }
    }

    // Notes the units of the basic alternatives, and counts these of each unit.
    fn count_basics(&self, program: &Program<'_>, work: &mut Work) -> Result<(), Memory> {
        fill(&mut work.counts, 0.0);
        work.units.clear();
        for place in &self.basics {
            let unit = program.column(*place).unit;
            add(&mut work.counts, unit as usize, 1.0);
            work.units.push(unit)?;
        }
        Ok(())
    }

    // Replaces keys that may not be taken. Answers whether each unit has an alternative.
    fn mend_keys(
        &mut self,
        alloc: Global,
        program: &Program<'_>,
        work: &Work,
    ) -> Result<bool, Memory> {
        for unit in 0..program.units() {
            if self.is_shut(self.key_place(unit)) {
                if value_at(&work.counts, unit as usize) > 0.0 {
                    let place = self.allowed_basic(program, unit);
                    self.switch_key(alloc, program, &work.units, place)?;
                } else if !self.set_best_key(program, unit) {
                    return Ok(false);
                }
            }
        }
        Ok(true)
    }

    // The place of a unit's last allowed basic alternative, or of its first one.
    fn allowed_basic(&self, program: &Program<'_>, unit: u32) -> usize {
        let mut found = self.basics.len();
        for (at, place) in self.basics.iter().enumerate() {
            let column = program.column(*place);
            if column.unit == unit && (found == self.basics.len() || !self.is_shut(*place)) {
                found = at;
            }
        }
        found
    }

    // The place of a unit's basic alternative of greatest value.
    fn greatest_basic(&self, program: &Program<'_>, unit: u32) -> usize {
        let mut found = self.basics.len();
        let mut most = -1.0;
        for at in 0..self.basics.len() {
            let size = size_of_number(self.basic_value(at));
            if program.column(self.basic(at)).unit == unit && size > most {
                found = at;
                most = size;
            }
        }
        found
    }

    // Where a key leaves: lets a basic alternative of the unit be the key, so that a basic
    // alternative leaves.
    fn leaving_place(
        &mut self,
        alloc: Global,
        program: &Program<'_>,
        units: &[u32],
        place: Place,
    ) -> Result<Place, Memory> {
        match place {
            Place::Key(unit) => {
                let at = self.greatest_basic(program, unit);
                let is_high = self.key_value(program, unit) > 0.0;
                self.switch_key(alloc, program, units, at)?;
                Ok(Place::Basic(at, is_high))
            }
            other => Ok(other),
        }
    }

    // The value of a key.
    fn key_value(&self, program: &Program<'_>, unit: u32) -> f64 {
        let mut left = 1.0;
        for at in 0..self.basics.len() {
            if program.column(self.basic(at)).unit == unit {
                left -= self.basic_value(at);
            }
        }
        left
    }

    // Moves the prices until something enters, and exchanges it for what leaves.
    fn pivot(
        &mut self,
        alloc: Global,
        program: &Program<'_>,
        work: &mut Work,
        leaving: Leaving,
    ) -> Result<Option<End>, Memory> {
        let direction = self.direction(alloc, work, leaving.place)?;
        self.price_parts(program, work, &direction, leaving.place);
        let entering = self.entering(program, work, &direction, leaving.violation)?;
        let end = match entering.entry {
            Entry::Nothing => {
                self.take_ray(alloc, &direction, leaving.place)?;
                Some(End::Infeasible)
            }
            _ => {
                self.value += entering.length * leaving.violation;
                self.move_prices(&direction, leaving.place, entering.length);
                work.move_parts(program, &mut self.parts, entering.length);
                self.take_new_keys(program, work);
                None
            }
        };
        work.clear_touched(program);
        self.exchange(alloc, program, &direction, leaving.place, entering)?;
        Ok(end)
    }

    // How the prices of the classes move.
    fn direction(&self, alloc: Global, work: &Work, place: Place) -> Result<Vec<f64>, Memory> {
        match place {
            Place::Basic(at, is_high) => {
                let mut sums = vec![in alloc; 0.0; self.priced.len()]?;
                let sign = if is_high { -1.0 } else { 1.0 };
                self.inverse.add_row_to(&mut sums, at, sign);
                Ok(sums)
            }
            Place::Class(_) => Ok(Vec::from_slice(alloc, &work.direction)?),
            _ => Ok(Vec::new(alloc)),
        }
    }

    // How the prices of the parts move.
    fn price_parts(&self, program: &Program<'_>, work: &mut Work, direction: &[f64], place: Place) {
        for (at, step) in direction.iter().enumerate() {
            if size_of_number(*step) > NOTHING {
                work.move_price(program, number_or_max(&self.priced, at), *step);
            }
        }
        if let Place::Class(class) = place {
            work.move_price(program, class, 1.0);
        }
    }

    // Moves the prices of the classes.
    fn move_prices(&mut self, direction: &[f64], place: Place, length: f64) {
        for (at, step) in direction.iter().enumerate() {
            let class = number_or_max(&self.priced, at);
            add(&mut self.prices, class as usize, length * *step);
        }
        if let Place::Class(class) = place {
            add(&mut self.prices, class as usize, length);
        }
    }

    // Notes the direction along which the prices rise for ever.
    fn take_ray(&mut self, alloc: Global, direction: &[f64], place: Place) -> Result<(), Memory> {
        self.ray = Vec::with_capacity(alloc, direction.len() + 1)?;
        self.add_rises(direction)?;
        if let Place::Class(class) = place {
            self.ray.push((class, 1.0))?;
        }
        Ok(())
    }

    // Notes the classes whose prices rise along a direction.
    fn add_rises(&mut self, direction: &[f64]) -> Result<(), Memory> {
        for (at, step) in direction.iter().enumerate() {
            if *step > 0.0 {
                self.ray.push((number_or_max(&self.priced, at), *step))?;
            }
        }
        Ok(())
    }

    // Exchanges what leaves and what enters.
    fn exchange(
        &mut self,
        alloc: Global,
        program: &Program<'_>,
        direction: &[f64],
        place: Place,
        entering: Entering,
    ) -> Result<(), Memory> {
        match (entering.entry, place) {
            (Entry::Alternative(column), Place::Basic(at, _)) => {
                let entries = self.entries(alloc, program, column)?;
                self.inverse.exchange(alloc, at, &entries)?;
                self.replace_basic(at, column);
                Ok(())
            }
            (Entry::Alternative(column), Place::Class(class)) => {
                let entries = self.entries(alloc, program, column)?;
                self.inverse
                    .grow(alloc, &entries, direction, entering.pivot)?;
                self.add_basic(column, class)
            }
            (Entry::Slack(slack), Place::Basic(at, _)) => {
                self.inverse.shrink(alloc, at, slack)?;
                self.drop_basic(at);
                self.drop_price(slack);
                Ok(())
            }
            (Entry::Slack(slack), Place::Class(class)) => {
                self.inverse.replace_column(slack, direction);
                self.replace_price(slack, class);
                Ok(())
            }
            _ => Ok(()),
        }
    }

    // The entries of an alternative in the basis.
    fn entries(
        &self,
        alloc: Global,
        program: &Program<'_>,
        place: u32,
    ) -> Result<Vec<f64>, Memory> {
        let column = program.column(place);
        let key = program.column(self.key_place(column.unit));
        let mut uses = vec![in alloc; 0.0; self.priced.len()]?;
        self.add_priced_uses(program, column.one, 1.0, &mut uses);
        self.add_priced_uses(program, column.two, 1.0, &mut uses);
        self.add_priced_uses(program, key.one, -1.0, &mut uses);
        self.add_priced_uses(program, key.two, -1.0, &mut uses);
        self.inverse.times(alloc, &uses)
    }

    // Adds so many times the uses that a part makes of the classes with a price.
    fn add_priced_uses(&self, program: &Program<'_>, part: u32, by: f64, uses: &mut [f64]) {
        for entry in program.reduced().part_uses(part) {
            let place = number_or_max(&self.places, entry.class as usize);
            add(uses, place as usize, by * f64::from(entry.uses));
        }
    }

    // Lets an alternative be basic in the place of another one.
    fn replace_basic(&mut self, at: usize, column: u32) {
        put_number(&mut self.basics, at, column);
    }

    // Adds a basic alternative and a class with a price.
    fn add_basic(&mut self, column: u32, class: u32) -> Result<(), Memory> {
        let place = u32::try_from(self.priced.len()).unwrap_or(u32::MAX);
        put_number(&mut self.places, class as usize, place);
        self.basics.push(column)?;
        self.priced.push(class)?;
        Ok(())
    }

    // Takes a basic alternative away; the last one takes its place.
    fn drop_basic(&mut self, at: usize) {
        if at < self.basics.len() {
            let _old = self.basics.swap_remove(at);
        }
    }

    // Takes the price of a class away; the last class takes its place.
    fn drop_price(&mut self, at: usize) {
        if at < self.priced.len() {
            let old = self.priced.swap_remove(at);
            put_number(&mut self.places, old as usize, u32::MAX);
            put(&mut self.prices, old as usize, 0.0);
            let moved = number_or_max(&self.priced, at);
            let place = u32::try_from(at).unwrap_or(u32::MAX);
            put_number(&mut self.places, moved as usize, place);
        }
    }

    // Gives a class the place of another one that has no price any more.
    fn replace_price(&mut self, at: usize, class: u32) {
        let old = number_or_max(&self.priced, at);
        put_number(&mut self.places, old as usize, u32::MAX);
        put(&mut self.prices, old as usize, 0.0);
        let place = u32::try_from(at).unwrap_or(u32::MAX);
        put_number(&mut self.places, class as usize, place);
        put_number(&mut self.priced, at, class);
    }
}
