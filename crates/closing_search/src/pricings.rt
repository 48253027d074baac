//! Bounds of ranges at vectors of prices, in whole numbers: what the test of a leaf will find.

use crate::allowed::Allowed;
use crate::rules::unit_alts;
use crate::spans::{Spans, within};
use crate::states::Task;
use choice_problem::{Alt, Price, Problem, Vector};
use reduced_problem::Reduced;
use relaxed_problem::Relaxation;
use resource_classes::Class;
use slot_text::Memory;
use std::alloc::Global;

/// A vector and the scale of its bound, with what the parts of all units and the limits cost at its
/// prices, and for each unit the least priced cost of its alternatives that the search may take.
#[derive(Drop)]
pub(crate) struct Pricing {
    pub(crate) vector: Vector,
    pub(crate) scale: u32,
    parts: Vec<i64>,
    pub(crate) limits: i64,
    leasts: Vec<i64>,
}

impl Pricing {
    // The costs at a vector's prices, where these alternatives may be taken. It names resources of
    // classes alone.
    pub(crate) fn new(
        alloc: Global,
        task: &Task<'_>,
        base: &Allowed,
        vector: Vector,
        scale: u32,
    ) -> Result<Pricing, Memory> {
        let parts = vec![in alloc; 0; task.reduced.parts() as usize]?;
        let leasts = Vec::with_capacity(alloc, task.problem.units() as usize)?;
        let mut pricing = Pricing {
            vector,
            scale,
            parts,
            limits: 0,
            leasts,
        };
        pricing.add_prices(task.reduced);
        pricing.add_leasts(task.problem, task.reduced, base)?;
        Ok(pricing)
    }

    // The prices of a relaxation.
    pub(crate) fn of(
        alloc: Global,
        task: &Task<'_>,
        base: &Allowed,
        relaxation: &Relaxation,
    ) -> Result<Pricing, Memory> {
        let vector = relaxation.vector(alloc, task.problem, task.program)?;
        Pricing::new(alloc, task, base, vector, 1_024)
    }

    // Adds the prices of the vector.
    fn add_prices(&mut self, reduced: &Reduced) {
        let mut next: usize = 0;
        for (number, class) in (0..).zip(reduced.classes()) {
            if let Some(price) = self.price_at(next, class) {
                self.add(reduced, number, class, price);
                next = next.saturating_add(1);
            }
        }
    }

    // Notes the least priced cost of each unit.
    fn add_leasts(
        &mut self,
        problem: &Problem,
        reduced: &Reduced,
        base: &Allowed,
    ) -> Result<(), Memory> {
        for unit in 0..problem.units() {
            let least = self.least_of(problem, reduced, unit, base.of(unit));
            self.leasts.push(least)?;
        }
        Ok(())
    }

    // The vector's price at a place, where it is the class's.
    fn price_at(&self, place: usize, class: &Class) -> Option<i64> {
        match self.vector.items().get(place) {
            Some(Price { resource, price }) if *resource == class.resource => Some(*price),
            _ => None,
        }
    }

    // Adds the price of a class.
    fn add(&mut self, reduced: &Reduced, number: u32, class: &Class, price: i64) {
        let limits = price.saturating_mul(class.limit);
        self.limits = self.limits.saturating_add(limits);
        for run in reduced.users(number) {
            let more = price.saturating_mul(i64::from(run.uses));
            add_in(&mut self.parts, run.first as usize, run.end as usize, more);
        }
    }

    /// The priced cost of an alternative of the unit whose first part has this number.
    pub(crate) fn cost(&self, alt: &Alt, first: u32) -> i64 {
        let cost = i64::try_from(alt.cost).unwrap_or(i64::MAX);
        let scaled = cost.saturating_mul(i64::from(self.scale));
        scaled
            .saturating_add(self.part(alt.one, first))
            .saturating_add(self.part(alt.two, first))
    }

    // What a part costs.
    fn part(&self, part: Option<u32>, first: u32) -> i64 {
        match part {
            Some(number) => amount_at(&self.parts, first.saturating_add(number)),
            None => 0,
        }
    }

    // The least priced cost of a unit's alternatives that may be taken: that of all that the search
    // may take, where no split took some away.
    fn least(&self, problem: &Problem, reduced: &Reduced, unit: u32, allowed: &Allowed) -> i64 {
        match self.leasts.get(unit as usize) {
            Some(least) if !allowed.is_cut(unit) => *least,
            _ => self.least_of(problem, reduced, unit, allowed.of(unit)),
        }
    }

    // The least priced cost of a unit's alternatives with a flag.
    fn least_of(&self, problem: &Problem, reduced: &Reduced, unit: u32, flags: &[bool]) -> i64 {
        let first = reduced.first_part(unit);
        let mut least = i64::MAX;
        for (alt, flag) in unit_alts(problem, unit).iter().zip(flags) {
            if *flag {
                least = least.min(self.cost(alt, first));
            }
        }
        least
    }

    /// The bound of the alternatives that may be taken.
    pub(crate) fn value(&self, problem: &Problem, reduced: &Reduced, allowed: &Allowed) -> i64 {
        let mut total: i64 = 0;
        for unit in 0..problem.units() {
            let least = self.least(problem, reduced, unit, allowed);
            total = total.saturating_add(least);
        }
        total.saturating_sub(self.limits)
    }

    /// The bound after a split of a unit, where it was this before with the unit's alternatives
    /// from another set.
    pub(crate) fn moved(
        &self,
        value: i64,
        problem: &Problem,
        reduced: &Reduced,
        unit: u32,
        sets: (&Allowed, &Allowed),
    ) -> i64 {
        let after = self.least(problem, reduced, unit, sets.1);
        let before = self.least(problem, reduced, unit, sets.0);
        value.saturating_add(after.saturating_sub(before))
    }

    /// The least priced cost of a unit's alternatives from one to another.
    pub(crate) fn least_within(
        &self,
        problem: &Problem,
        reduced: &Reduced,
        unit: u32,
        span: (u32, u32),
    ) -> i64 {
        let first = reduced.first_part(unit);
        let mut least = i64::MAX;
        for alt in within(unit_alts(problem, unit), span) {
            least = least.min(self.cost(alt, first));
        }
        least
    }

    /// The bound of ranges.
    pub(crate) fn range_value(&self, problem: &Problem, reduced: &Reduced, spans: &Spans) -> i64 {
        let mut total: i64 = 0;
        for unit in 0..problem.units() {
            let least = self.least_within(problem, reduced, unit, spans.of(unit));
            total = total.saturating_add(least);
        }
        total.saturating_sub(self.limits)
    }

    /// Whether a bound closes ranges for a cost, or for none.
    pub(crate) fn closes(&self, value: i64, cost: Option<u64>) -> bool {
        match self.needed(cost) {
            Some(needed) => value >= needed,
            None => false,
        }
    }

    /// The least bound that closes ranges for a cost, or for none, if one does.
    pub(crate) fn needed(&self, cost: Option<u64>) -> Option<i64> {
        if self.scale == 0 {
            return Some(1);
        }
        match cost {
            Some(cost) => {
                let below = i64::try_from(cost).unwrap_or(i64::MAX).saturating_sub(1);
                let scaled = below.saturating_mul(i64::from(self.scale));
                Some(scaled.saturating_add(1))
            }
            None => None,
        }
    }
}

/// The number of the first vector whose bound closes ranges for a cost, or for none.
pub(crate) fn closing(pricings: &[Pricing], values: &[i64], cost: Option<u64>) -> Option<u32> {
    for (number, (pricing, value)) in (0..).zip(pricings.iter().zip(values)) {
        if pricing.closes(*value, cost) {
            return Some(number);
        }
    }
    None
}

// Adds to the numbers from one place to another.
fn add_in(amounts: &mut [i64], first: usize, end: usize, more: i64) {
    if first <= end && end <= amounts.len() {
        for amount in amounts[first..end].iter_mut() {
            *amount = amount.saturating_add(more);
        }
    }
}

// The number at a place.
fn amount_at(amounts: &[i64], place: u32) -> i64 {
    match amounts.get(place as usize) {
        Some(amount) => *amount,
        None => 0,
    }
}
