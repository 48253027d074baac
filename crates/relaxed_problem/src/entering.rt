//! What enters the basis: how far the prices go, which units change their key on the way, and what
//! enters in the end.
//!
//! Where an alternative of a unit without basic alternatives comes to its bound, it may be the
//! unit's key from then on, and the prices go on while what leaves still passes its bound (long
//! steps: Maros 2003, "A generalized dual phase-2 simplex algorithm"). Of what comes to its bound
//! at the same time the greatest pivot comes first.

use crate::leaving::Work;
use crate::nearby::Near;
use crate::programs::Program;
use crate::relaxations::Relaxation;
use crate::slots::{
    LEAST_PIVOT, NOTHING, PASSED, above_zero, least_or_zero, number_or_max, part_of, put,
    size_of_number, value_at,
};
use slot_text::Memory;

// How often lists are made anew in one pivot at most.
const MOST_LISTINGS: u32 = 100;

// What enters.
#[derive(Clone, Copy)]
pub(crate) enum Entry {
    // Nothing: the prices can rise for ever.
    Nothing,
    // An alternative, by its place.
    Alternative(u32),
    // The slack of a class with a price, by its place among them.
    Slack(usize),
}

// What enters, how far the prices go until then, and the pivot.
#[derive(Clone, Copy)]
pub(crate) struct Entering {
    pub(crate) entry: Entry,
    pub(crate) length: f64,
    pub(crate) pivot: f64,
}

impl Entering {
    // Nothing.
    pub(crate) fn nothing() -> Entering {
        Entering {
            entry: Entry::Nothing,
            length: 0.0,
            pivot: 0.0,
        }
    }

    // Whether an alternative of this reduced cost, which falls by so much, may enter.
    fn wants(&self, cost: f64, fall: f64) -> bool {
        match self.entry {
            Entry::Nothing => true,
            _ => cost <= (self.length + NOTHING) * fall,
        }
    }

    // Takes what comes to its bound earlier, or as early with a greater pivot. Answers whether it
    // does.
    fn offer(&mut self, other: Entering) -> bool {
        let is_first = match self.entry {
            Entry::Nothing => true,
            _ => other.length < self.length - NOTHING,
        };
        let is_greater = size_of_number(other.pivot) > size_of_number(self.pivot);
        let is_taken = is_first || (other.length <= self.length + NOTHING && is_greater);
        if is_taken {
            let is_earlier = is_first || other.length < self.length;
            *self = Entering {
                length: if is_earlier {
                    other.length
                } else {
                    self.length
                },
                ..other
            };
        }
        is_taken
    }
}

// The cost of a unit's key with its parts, and how it moves.
#[derive(Clone, Copy)]
struct Base {
    cost: f64,
    step: f64,
}

// A unit of which some alternatives may become cheaper beside its key, and the key's cost.
#[derive(Clone, Copy)]
pub(crate) struct Falling {
    pub(crate) unit: u32,
    base: Base,
}

impl Falling {
    // What the key costs where the prices went so far.
    pub(crate) fn cost_at(&self, length: f64) -> f64 {
        self.base.cost + length * self.base.step
    }
}

impl Relaxation {
    // What enters, where the prices of classes move along this direction and those of the parts as
    // the work says, and what leaves passes its bound by so much. The work gets the alternatives
    // that become keys until then.
    pub(crate) fn entering(
        &self,
        program: &Program<'_>,
        work: &mut Work,
        direction: &[f64],
        violation: f64,
    ) -> Result<Entering, Memory> {
        work.list_touched(program)?;
        self.find_falling(program, work)?;
        self.list_due(program, work)?;
        for _ in 0..MOST_LISTINGS {
            let entering = self.entering_listed(program, work, direction, violation)?;
            if !self.list_missing(program, work, entering)? {
                return Ok(entering);
            }
        }
        self.entering_listed(program, work, direction, violation)
    }

    // Finds the units of which some alternatives may become cheaper beside their keys: two of its
    // parts at most, each of at least the lowest number.
    fn find_falling(&self, program: &Program<'_>, work: &mut Work) -> Result<(), Memory> {
        work.falling.clear();
        for number in 0..work.touched.len() {
            let unit = number_or_max(&work.touched, number);
            self.add_falling(program, work, unit)?;
        }
        Ok(())
    }

    // Notes the least step of a unit's parts, and the unit where some alternatives may become
    // cheaper beside its key.
    fn add_falling(&self, program: &Program<'_>, work: &mut Work, unit: u32) -> Result<(), Memory> {
        let least = least_or_zero(part_of(&work.parts, program.part_span(unit)));
        put(&mut work.leasts, unit as usize, least);
        let key = self.head(unit);
        let step = work.at(key.pair);
        if step - (least + least) > LEAST_PIVOT {
            let cost = self.near_cost(key);
            let base = Base { cost, step };
            work.falling.push(Falling { unit, base })?;
        }
        Ok(())
    }

    // What enters of the listed alternatives.
    fn entering_listed(
        &self,
        program: &Program<'_>,
        work: &mut Work,
        direction: &[f64],
        violation: f64,
    ) -> Result<Entering, Memory> {
        work.breakpoints.clear();
        work.new_keys.clear();
        let mut last = self.first_slack(direction);
        for number in 0..work.falling.len() {
            if let Some(falling) = work.falling_at(number) {
                self.look_at_unit(program, work, falling, &mut last)?;
            }
        }
        self.past_breakpoints(program, work, last, violation)
    }

    // The slack that comes to its bound first.
    fn first_slack(&self, direction: &[f64]) -> Entering {
        let mut first = Entering::nothing();
        for (at, step) in direction.iter().enumerate() {
            if *step < -LEAST_PIVOT {
                let class = number_or_max(&self.priced, at);
                let price = above_zero(value_at(&self.prices, class as usize));
                let _is_first = first.offer(Entering {
                    entry: Entry::Slack(at),
                    length: price / -*step,
                    pivot: *step,
                });
            }
        }
        first
    }

    // Looks at a unit's listed alternatives. Where some are basic, the prices end at the first that
    // comes to its bound.
    fn look_at_unit(
        &self,
        program: &Program<'_>,
        work: &mut Work,
        falling: Falling,
        last: &mut Entering,
    ) -> Result<(), Memory> {
        let unit = falling.unit;
        let breakpoint = self.first_of(work, unit, falling.base, *last);
        if value_at(&work.counts, unit as usize) > 0.0 {
            *last = breakpoint;
            Ok(())
        } else {
            self.add_breakpoint(program, work, unit, breakpoint)
        }
    }

    // The cost of an alternative with its parts, and how it moves.
    fn base_at(&self, program: &Program<'_>, work: &Work, place: u32) -> Base {
        Base {
            cost: self.cost_at(program, place),
            step: work.at(program.pair(place)),
        }
    }

    // Adds the breakpoint of a unit, if it has one.
    fn add_breakpoint(
        &self,
        program: &Program<'_>,
        work: &mut Work,
        unit: u32,
        breakpoint: Entering,
    ) -> Result<(), Memory> {
        if let Entry::Alternative(place) = breakpoint.entry {
            if program.column(place).unit == unit {
                work.breakpoints.push(breakpoint)?;
            }
        }
        Ok(())
    }

    // The listed alternative of a unit that comes to its bound first, beside this key, if it does
    // so before something else.
    fn first_of(&self, work: &Work, unit: u32, base: Base, other: Entering) -> Entering {
        let mut first = other;
        for near in work.nearby.list(unit) {
            let fall = base.step - work.at(near.pair);
            if fall > LEAST_PIVOT {
                self.offer_alternative(unit, *near, base, fall, &mut first);
            }
        }
        first
    }

    // Offers an alternative whose reduced cost falls by so much beside the key's.
    fn offer_alternative(
        &self,
        unit: u32,
        near: Near,
        base: Base,
        fall: f64,
        first: &mut Entering,
    ) {
        let cost = above_zero(self.near_cost(near) - base.cost);
        if first.wants(cost, fall) && !self.is_out(unit, near.place) {
            let _is_first = first.offer(Entering {
                entry: Entry::Alternative(near.place),
                length: cost / fall,
                pivot: -fall,
            });
        }
    }

    // The changed cost of a listed alternative with what its parts cost.
    fn near_cost(&self, near: Near) -> f64 {
        near.changed + self.parts_cost(near.pair)
    }

    // What enters, where this comes to its bound at the latest. The breakpoints before it are taken
    // in their order.
    fn past_breakpoints(
        &self,
        program: &Program<'_>,
        work: &mut Work,
        last: Entering,
        violation: f64,
    ) -> Result<Entering, Memory> {
        let mut left = violation;
        for _ in 0..program.columns().len() {
            let (at, breakpoint) = first_breakpoint(&work.breakpoints, last);
            left -= size_of_number(breakpoint.pivot);
            match breakpoint.entry {
                Entry::Alternative(place) if at < work.breakpoints.len() && left > PASSED => {
                    self.take_breakpoint(program, work, at, place, last)?;
                }
                _ => return Ok(breakpoint),
            }
        }
        Ok(last)
    }

    // Takes a breakpoint: its alternative is the key from then on.
    fn take_breakpoint(
        &self,
        program: &Program<'_>,
        work: &mut Work,
        at: usize,
        place: u32,
        last: Entering,
    ) -> Result<(), Memory> {
        work.new_keys.push(place)?;
        if at < work.breakpoints.len() {
            let _breakpoint = work.breakpoints.swap_remove(at);
        }
        let unit = program.column(place).unit;
        let base = self.base_at(program, work, place);
        let next = self.first_of(work, unit, base, last);
        self.add_breakpoint(program, work, unit, next)
    }

    // Makes the alternatives the keys of their units that came to their bounds on the way.
    pub(crate) fn take_new_keys(&mut self, program: &Program<'_>, work: &Work) {
        for place in &work.new_keys {
            self.take_key(program, *place);
        }
    }
}

// What comes to its bound first, and its place among the breakpoints, or past them where that is
// something else.
fn first_breakpoint(breakpoints: &[Entering], other: Entering) -> (usize, Entering) {
    let mut first = other;
    let mut found = breakpoints.len();
    for (at, breakpoint) in breakpoints.iter().enumerate() {
        if first.offer(*breakpoint) {
            found = at;
        }
    }
    (found, first)
}
