//! Tests of the conditions of `Chooser::new` and `Problem::new`, for callers that do not know them
//! otherwise.

ghost use Rattle.std.specs.Prelude.{◌≡◌, ◌↔◌, ◌+◌, ◌^◌, ◌<◌, ◌≤◌, length, All, IsTrue};
ghost use Rattle.std.specs.Option.{ForSome};
ghost use Rattle.choice_problem.specs.Problems.{ArePartsInRange};
ghost use Rattle.choice_problem.specs.Strips.{IsPartInRange};
ghost use Rattle.choice_problem.specs.Allowed.{IsAllowed, IsAllowedAlt, named_most};

use crate::problems::{
    Alt, Chooser, HIGHEST_COST, HIGHEST_LIMIT, MOST_RESOURCES, MOST_UNITS, MOST_USES, Problem,
};
use crate::strips::Part;

impl Chooser {
    ghost use Rattle.std.specs.Prelude.{◌↔◌, IsTrue};
    ghost use Rattle.choice_problem.specs.Problems.{IsChooser};
    ghost use Rattle.choice_problem.specs.Allowed.{IsAllowed};

    /// Whether `new` takes these parts and alternatives. Of an alternative's uses it knows how many
    /// runs of each strip can overlap, and takes it that the strips of its parts share a resource:
    /// where they do not, `new` takes more. So parts of series under a night quota, or under many
    /// lines with weekdays, may be refused although `new` takes them: there the law `few_uses` is
    /// the way. One step an alternative and strip of its parts.
    pub fn allows(parts: &[Part], alts: &[Alt]) -> bool
        ensures exact { IsTrue result ↔ IsAllowed (record { parts = parts.now; alts = alts.now }) }
        ensures valid { IsTrue result → IsChooser (record { parts = parts.now; alts = alts.now }) }
    {
        is_unit_allowed(parts, alts)
    }
}

impl Problem {
    ghost use Rattle.std.specs.Prelude.{◌↔◌, IsTrue};
    ghost use Rattle.choice_problem.specs.Problems.{IsProblem};

    /// Whether `new` takes these units and limits: one step a limit and a strip.
    pub fn allows(units: &[Chooser], limits: &[i64]) -> bool
        ensures { IsTrue result ↔ IsProblem units.now limits.now }
    {
        units.len() <= MOST_UNITS as usize
            && limits.len() <= MOST_RESOURCES as usize
            && limits.iter().all(|&limit| limit >= 0)
            && limits.iter().all(|&limit| limit <= HIGHEST_LIMIT)
            && are_units_within(units, limits.len() as u32)
    }
}

// Whether the numbers of parts and alternatives, and each alternative, are allowed.
fn is_unit_allowed(parts: &[Part], alts: &[Alt]) -> bool
    ensures { IsTrue result ↔ IsAllowed (record { parts = parts.now; alts = alts.now }) }
{
    !alts.is_empty() && alts.len() < 1 << 32 && parts.len() < 1 << 32 && are_allowed(parts, alts)
}

// Whether all alternatives are allowed.
fn are_allowed(parts: &[Part], alts: &[Alt]) -> bool
    ensures { IsTrue result ↔ All (IsAllowedAlt parts.now) alts.now }
{
    for alt in alts {
        if !is_allowed(parts, alt) {
            return false;
        }
    }
    true
}

// Whether an alternative keeps its limits.
fn is_allowed(parts: &[Part], alt: &Alt) -> bool
    ensures { IsTrue result ↔ IsAllowedAlt parts.now alt.now }
{
    alt.cost <= HIGHEST_COST
        && is_there(parts, alt.one)
        && is_there(parts, alt.two)
        && named_most(parts, alt.one) + named_most(parts, alt.two) <= u128::from(MOST_USES)
}

// Whether the part that an alternative may name is there.
fn is_there(parts: &[Part], part: Option<u32>) -> bool
    ensures { IsTrue result ↔ ForSome part (λ k. k < length parts.now) }
{
    match part {
        Some(n) => (n as usize) < parts.len(),
        None => true,
    }
}

// How often the part that an alternative may name can use a resource.
fn named_most(parts: &[Part], part: Option<u32>) -> u128
    requires { ForSome part (λ k. k < length parts.now) }
    ensures most { result ≡ named_most parts.now part }
    ensures small { result ≤ 2 ^ 96 }
{
    match part {
        Some(n) => parts[n as usize].most_uses(),
        None => 0,
    }
}

// Whether the parts of all units stay within the resources.
fn are_units_within(units: &[Chooser], resources: u32) -> bool
    ensures { IsTrue result ↔ All (ArePartsInRange resources) units.now }
{
    for unit in units {
        if !are_parts_within(unit.part_items(), resources) {
            return false;
        }
    }
    true
}

// Whether all parts stay within the resources.
fn are_parts_within(parts: &[Part], resources: u32) -> bool
    ensures { IsTrue result ↔ All (λ strips. IsPartInRange resources strips) parts.now }
{
    for part in parts {
        if !part.is_within(resources) {
            return false;
        }
    }
    true
}
