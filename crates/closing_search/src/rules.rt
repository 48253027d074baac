//! What tells the two parts of a split apart.

use choice_problem::{Alt, Problem};
use reduced_problem::Reduced;

/// Which alternatives of a unit are in the high part of a split; the others are in the low part.
#[derive(Clone, Copy, Debug)]
pub(crate) enum Rule {
    // Those from this one on.
    From(u32),
    // Those that use a class so many times at least.
    Uses { class: u32, least: i64 },
}

impl Rule {
    // Whether an alternative of a unit is in the high part.
    pub(crate) fn is_high(
        &self,
        problem: &Problem,
        reduced: &Reduced,
        unit: u32,
        number: u32,
    ) -> bool {
        match self {
            Rule::From(cut) => number >= *cut,
            Rule::Uses { class, least } => {
                let alts = unit_alts(problem, unit);
                match alts.get(number as usize) {
                    Some(alt) => alt_uses(reduced, reduced.first_part(unit), alt, *class) >= *least,
                    None => false,
                }
            }
        }
    }
}

/// A unit's alternatives, or none where there is no such unit.
pub(crate) fn unit_alts(problem: &Problem, unit: u32) -> &[Alt] {
    if unit < problem.units() {
        problem.unit_alts(unit)
    } else {
        &[]
    }
}

// How often an alternative uses a class, where its unit's first part has this number.
fn alt_uses(reduced: &Reduced, first: u32, alt: &Alt, class: u32) -> i64 {
    let one = named_uses(reduced, first, alt.one, class);
    one.saturating_add(named_uses(reduced, first, alt.two, class))
}

// How often the part that an alternative may name uses a class.
fn named_uses(reduced: &Reduced, first: u32, part: Option<u32>, class: u32) -> i64 {
    match part {
        Some(number) => uses_of_part(reduced, first.saturating_add(number), class),
        None => 0,
    }
}

/// How often a part uses a class.
pub(crate) fn uses_of_part(reduced: &Reduced, part: u32, class: u32) -> i64 {
    for entry in reduced.part_uses(part) {
        if entry.class == class {
            return i64::from(entry.uses);
        }
    }
    0
}
