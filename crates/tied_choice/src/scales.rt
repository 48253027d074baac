//! How costs of two problems are put into one.

use crate::pairs::{Pair, alts_of, chosen_cost, least_cost};
use choice_problem::{HIGHEST_COST, Problem};

// How often costs may be halved.
const MOST_HALVINGS: u32 = 24;

/// What all costs are divided by; how often those of the next problem are halved then; what a unit
/// of the first one's excess weighs, which is more than the next choice costs; and by how much all
/// units of the first one together pass their least costs: no unit of a tie passes its own by more.
#[derive(Clone, Copy)]
pub(crate) struct Scale {
    divisor: u64,
    halvings: u32,
    weight: u64,
    slack: u64,
}

impl Scale {
    // The scale with the fewest halvings with which each cost stays within what an alternative may
    // cost.
    pub(crate) fn of(pair: &Pair<'_>) -> Option<Scale> {
        let mut scale = Scale {
            divisor: common_divisor(pair.both),
            halvings: 0,
            weight: 0,
            slack: total_excess(pair),
        };
        let spread = greatest_excess(pair.first, scale.slack);
        let most = greatest_cost(pair.next);
        for halvings in 0..MOST_HALVINGS {
            scale.halvings = halvings;
            scale.weight = next_weight(pair, &scale);
            let highest = scale.weighed(spread).saturating_add(scale.rounded(most));
            if highest < HIGHEST_COST {
                return Some(scale);
            }
        }
        None
    }

    // Whether a tie may have this excess of one unit.
    pub(crate) fn allows(&self, excess: u64) -> bool {
        excess <= self.slack
    }

    // An excess of the first problem as a cost of the joint one.
    pub(crate) fn weighed(&self, excess: u64) -> u64 {
        self.divided(excess).saturating_mul(self.weight)
    }

    // A cost of the next problem as a cost of the joint one, rounded to the nearest.
    pub(crate) fn rounded(&self, cost: u64) -> u64 {
        let mut cost = self.divided(cost).saturating_mul(2);
        for _ in 0..self.halvings {
            cost /= 2;
        }
        (cost.saturating_add(1)) / 2
    }

    // A cost divided by what divides all costs.
    fn divided(&self, cost: u64) -> u64 {
        if self.divisor == 0 {
            cost
        } else {
            cost / self.divisor
        }
    }
}

// One more than the next choice costs at a scale.
fn next_weight(pair: &Pair<'_>, scale: &Scale) -> u64 {
    let mut weight: u64 = 1;
    for unit in 0..pair.next.units() {
        let cost = chosen_cost(pair.next, pair.next_chosen, unit);
        weight = weight.saturating_add(scale.rounded(cost));
    }
    weight
}

// By how much the first choice passes the least costs of its units.
fn total_excess(pair: &Pair<'_>) -> u64 {
    let mut total: u64 = 0;
    for unit in 0..pair.first.units() {
        let cost = chosen_cost(pair.first, pair.chosen, unit);
        let excess = cost.saturating_sub(least_cost(pair.first, unit));
        total = total.saturating_add(excess);
    }
    total
}

// The greatest excess of an alternative over the least cost of its unit, of those that are no more
// than this.
fn greatest_excess(problem: &Problem, slack: u64) -> u64 {
    let mut greatest = 0;
    for unit in 0..problem.units() {
        greatest = greatest.max(unit_excess(problem, unit, slack));
    }
    greatest
}

fn unit_excess(problem: &Problem, unit: u32, slack: u64) -> u64 {
    let least = least_cost(problem, unit);
    let mut greatest = 0;
    for alt in alts_of(problem, unit) {
        let excess = alt.cost.saturating_sub(least);
        if excess <= slack && excess > greatest {
            greatest = excess;
        }
    }
    greatest
}

// The greatest cost of an alternative.
fn greatest_cost(problem: &Problem) -> u64 {
    let mut greatest = 0;
    for unit in 0..problem.units() {
        greatest = greatest.max(unit_cost(problem, unit));
    }
    greatest
}

fn unit_cost(problem: &Problem, unit: u32) -> u64 {
    let mut greatest = 0;
    for alt in alts_of(problem, unit) {
        greatest = greatest.max(alt.cost);
    }
    greatest
}

// The greatest number that divides all costs, or 0 where there is none above 0.
fn common_divisor(problem: &Problem) -> u64 {
    let mut divisor = 0;
    for unit in 0..problem.units() {
        divisor = unit_divisor(problem, unit, divisor);
    }
    divisor
}

fn unit_divisor(problem: &Problem, unit: u32, divisor: u64) -> u64 {
    let mut divisor = divisor;
    for alt in alts_of(problem, unit) {
        divisor = greatest_divisor(divisor, alt.cost);
    }
    divisor
}

// The greatest common divisor of two numbers, by Euclid's division.
fn greatest_divisor(one: u64, two: u64) -> u64 {
    let (mut one, mut two) = (one, two);
    while two != 0 {
        (one, two) = (two, one % two);
    }
    one
}
