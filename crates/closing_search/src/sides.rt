//! The alternatives of a range on the two sides of a split.

use crate::pricings::Pricing;
use crate::rules::{Rule, unit_alts};
use crate::spans::within;
use crate::states::Task;
use slot_text::Memory;
use std::alloc::Global;

/// A unit's range, and its alternatives.
#[derive(Drop)]
pub(crate) struct Sides {
    unit: u32,
    span: (u32, u32),
    sides: Vec<Side>,
}

// Whether an alternative is in the high part of a split, and whether it may stay where the range
// goes on in the low part and in the high part: where it is of the other part, each vector that is
// needed there must close it.
#[derive(Clone, Copy)]
struct Side {
    is_high: bool,
    stays_low: bool,
    stays_high: bool,
}

impl Side {
    // Takes a vector in that is needed in the low part, or in the high part, or in both, and that
    // closes the alternative or not.
    fn test(&mut self, closes: bool, needs: (bool, bool)) {
        self.stays_low = self.stays_low && (closes || !needs.0);
        self.stays_high = self.stays_high && (closes || !needs.1);
    }

    // The parts in which a range may go on that has the alternative.
    fn parts(&self) -> Parts {
        Parts {
            low: !self.is_high || self.stays_low,
            high: self.is_high || self.stays_high,
        }
    }
}

// The parts of a split in which a range may go on.
#[derive(Clone, Copy)]
struct Parts {
    low: bool,
    high: bool,
}

impl Parts {
    // The parts that are in both.
    fn both(self, other: Parts) -> Parts {
        Parts {
            low: self.low && other.low,
            high: self.high && other.high,
        }
    }

    // Whether there is none.
    fn is_none(self) -> bool {
        !self.low && !self.high
    }
}

impl Sides {
    // The sides of the alternatives, before any vector is needed.
    pub(crate) fn of(
        alloc: Global,
        task: &Task<'_>,
        unit: u32,
        rule: Rule,
        span: (u32, u32),
    ) -> Result<Sides, Memory> {
        let mut sides = Vec::new(alloc);
        for number in span.0..span.1.saturating_add(1) {
            sides.push(Side {
                is_high: rule.is_high(task.problem, task.reduced, unit, number),
                stays_low: true,
                stays_high: true,
            })?;
        }
        Ok(Sides { unit, span, sides })
    }

    // Takes a vector in that is needed in the low part, or in the high part, or in both:
    // alternatives stay where it closes them. The value is its bound on the range.
    pub(crate) fn test(
        &mut self,
        task: &Task<'_>,
        pricing: &Pricing,
        value: i64,
        cost: Option<u64>,
        needs: (bool, bool),
    ) {
        let (problem, reduced) = (task.problem, task.reduced);
        let least = pricing.least_within(problem, reduced, self.unit, self.span);
        let others = value.saturating_sub(least);
        let first = reduced.first_part(self.unit);
        let alts = within(unit_alts(problem, self.unit), self.span);
        for (alt, side) in alts.iter().zip(self.sides.iter_mut()) {
            let bound = others.saturating_add(pricing.cost(alt, first));
            side.test(pricing.closes(bound, cost), needs);
        }
    }

    // Of the places where the range changes its part, the one that is nearest to the middle, if it
    // does; and whether else all of it goes on in the low part.
    pub(crate) fn turn(&self) -> (Option<u32>, bool) {
        let (low, high) = self.span;
        let middle = low.saturating_add(high) / 2;
        let mut found = None;
        let mut nearest = u32::MAX;
        let mut parts = Parts {
            low: true,
            high: true,
        };
        for (number, side) in (low..).zip(&self.sides) {
            let here = side.parts();
            parts = parts.both(here);
            if parts.is_none() {
                parts = here;
                let distance = number.abs_diff(middle);
                if distance < nearest {
                    nearest = distance;
                    found = Some(number);
                }
            }
        }
        (found, parts.low)
    }
}
