//! Two problems that are met one after the other, and their choices.

use choice_problem::{Alt, Choice, Problem};

/// The first problem and its choice, the next one after it and its choice, and the units of both.
#[derive(Drop)]
pub(crate) struct Pair<'a> {
    pub(crate) first: &'a Problem,
    pub(crate) chosen: &'a Choice,
    pub(crate) next: &'a Problem,
    pub(crate) next_chosen: &'a Choice,
    pub(crate) both: &'a Problem,
}

/// The numbers of a unit in the first problem and in the next one, if it is there.
#[derive(Clone, Copy)]
pub(crate) struct Place {
    pub(crate) first: Option<u32>,
    pub(crate) next: Option<u32>,
}

impl Pair<'_> {
    // The place of a unit, where it is one of the first problem or not, and so many units of each
    // problem come before it.
    pub(crate) fn place(&self, unit: u32, is_first: bool, first: u32, next: u32) -> Place {
        if !is_first {
            return Place {
                first: None,
                next: Some(next),
            };
        }
        let number = number_at(self.chosen.items(), first);
        let is_left = match alts_of(self.both, unit).get(number as usize) {
            Some(alt) => is_refusal(alt),
            None => false,
        };
        Place {
            first: Some(first),
            next: if is_left { Some(next) } else { None },
        }
    }

    // What the next problem's choice costs.
    pub(crate) fn next_cost(&self) -> u64 {
        let mut cost: u64 = 0;
        for unit in 0..self.next.units() {
            cost = cost.saturating_add(chosen_cost(self.next, self.next_chosen, unit));
        }
        cost
    }
}

/// Whether an alternative has no part.
pub(crate) fn is_refusal(alt: &Alt) -> bool {
    alt.one.is_none() && alt.two.is_none()
}

/// The alternatives of a unit, or none where there is no such unit.
pub(crate) fn alts_of(problem: &Problem, unit: u32) -> &[Alt] {
    if unit < problem.units() {
        problem.unit_alts(unit)
    } else {
        &[]
    }
}

/// The number at a place of a list, or the greatest one past its end.
pub(crate) fn number_at(numbers: &[u32], at: u32) -> u32 {
    match numbers.get(at as usize) {
        Some(number) => *number,
        None => u32::MAX,
    }
}

/// The least cost of a unit's alternatives, or the greatest number where it has none.
pub(crate) fn least_cost(problem: &Problem, unit: u32) -> u64 {
    let mut least = u64::MAX;
    for alt in alts_of(problem, unit) {
        least = least.min(alt.cost);
    }
    least
}

/// The cost of the alternative that a choice takes of a unit, or 0 where it takes none.
pub(crate) fn chosen_cost(problem: &Problem, choice: &Choice, unit: u32) -> u64 {
    let number = number_at(choice.items(), unit);
    match alts_of(problem, unit).get(number as usize) {
        Some(alt) => alt.cost,
        None => 0,
    }
}
