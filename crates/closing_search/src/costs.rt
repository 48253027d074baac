//! Priced costs of alternatives at vectors, for those who look at the same ones many times.

use crate::pricings::Pricing;
use crate::rules::unit_alts;
use crate::states::Task;
use slot_text::Memory;
use std::alloc::Global;

/// For each unit the priced costs of its alternatives, vector after vector: 8 bytes for each.
#[derive(Drop)]
pub(crate) struct Costs {
    // The number of vectors, and for each unit how many alternatives those before it have, and all.
    vectors: usize,
    firsts: Vec<usize>,
    costs: Vec<i64>,
}

impl Costs {
    // Those at vectors.
    pub(crate) fn of(
        alloc: Global,
        task: &Task<'_>,
        pricings: &[Pricing],
    ) -> Result<Costs, Memory> {
        let units = task.problem.units();
        let mut costs = Costs {
            vectors: pricings.len(),
            firsts: Vec::with_capacity(alloc, (units as usize).saturating_add(1))?,
            costs: Vec::new(alloc),
        };
        costs.firsts.push(0)?;
        for unit in 0..units {
            costs.add_unit(task, pricings, unit)?;
        }
        Ok(costs)
    }

    // Adds those of a unit.
    fn add_unit(&mut self, task: &Task<'_>, pricings: &[Pricing], unit: u32) -> Result<(), Memory> {
        let before = self.first(unit);
        let alts = unit_alts(task.problem, unit).len();
        self.firsts.push(before.saturating_add(alts))?;
        for pricing in pricings {
            self.add(task, pricing, unit)?;
        }
        Ok(())
    }

    // Adds those of a unit at a vector.
    fn add(&mut self, task: &Task<'_>, pricing: &Pricing, unit: u32) -> Result<(), Memory> {
        let first = task.reduced.first_part(unit);
        for alt in unit_alts(task.problem, unit) {
            self.costs.push(pricing.cost(alt, first))?;
        }
        Ok(())
    }

    // How many alternatives the units before one have.
    fn first(&self, unit: u32) -> usize {
        match self.firsts.get(unit as usize) {
            Some(first) => *first,
            None => usize::MAX,
        }
    }

    /// Those at a vector of a unit's alternatives from one to another.
    pub(crate) fn within(&self, vector: u32, unit: u32, span: (u32, u32)) -> &[i64] {
        let start = self.place(vector, unit);
        let first = start.saturating_add(span.0 as usize);
        let end = start.saturating_add(span.1 as usize).saturating_add(1);
        if first <= end && end <= self.costs.len() {
            &self.costs[first..end]
        } else {
            &[]
        }
    }

    // The place of a unit's first alternative at a vector.
    fn place(&self, vector: u32, unit: u32) -> usize {
        let first = self.first(unit);
        let alts = self.first(unit.saturating_add(1)).saturating_sub(first);
        let before = first.saturating_mul(self.vectors);
        before.saturating_add(alts.saturating_mul(vector as usize))
    }
}

/// The least of costs.
pub(crate) fn least_of(costs: &[i64]) -> i64 {
    let mut least = i64::MAX;
    for cost in costs {
        least = least.min(*cost);
    }
    least
}
