//! Problems with some alternatives of another one.

ghost use Rattle.std.specs.Prelude.{◌≡◌, ◌<◌, ◌≤◌, All, IfOk, length, map, pos, ◌≤ℤ◌};
ghost use Rattle.std.specs.List.{range_with_len};
ghost use Rattle.choice_problem.specs.declared.problems.TheConstants.{HIGHEST_LIMIT, MOST_RESOURCES};
ghost use Rattle.choice_problem.specs.Problems.{ArePartsInRange, unit_count, alt_count, resource_count, chooser_at};
ghost use Rattle.cost_fixing.specs.Fixings.{unit_with, problem_with};
ghost use Rattle.cost_fixing.specs.Loops.{AreAltsOf, alts_in};

use crate::numbers::AltNumbers;
use choice_problem::{Chooser, Part, Problem};
use slot_text::Memory;
use std::alloc::Global;

// The problem with these alternatives of each unit alone.
pub(crate) fn problem_with(
    alloc: Global,
    problem: &Problem,
    numbers: &[AltNumbers],
) -> Result<Problem, Memory>
    requires { AreAltsOf problem.now numbers.now }
    ensures { IfOk result (λ left. left ≡ problem_with problem.now (alts_in numbers.now)) }
{
    let units = units_with(alloc, problem, numbers)?;
    let limits = limits_of(alloc, problem)?;
    let _units = problem.units();
    Ok(Problem::new(units, limits))
}

// The units with these alternatives alone.
fn units_with(
    alloc: Global,
    problem: &Problem,
    numbers: &[AltNumbers],
) -> Result<Vec<Chooser>, Memory>
    requires { AreAltsOf problem.now numbers.now }
    ensures value { IfOk result (λ units. units.items
        ≡ map (λ u. unit_with (chooser_at problem.now u) (alts_in numbers.now u))
        (range_with_len 0 (unit_count problem.now))) }
    ensures there { IfOk result (λ units. All (ArePartsInRange (resource_count problem.now))
        units.items) }
{
    let mut units = Vec::with_capacity(alloc, problem.units() as usize)?;
    for unit in 0..problem.units() {
        let alts = numbers[unit as usize].items();
        units.push(unit_with(alloc, problem, unit, alts)?)?;
    }
    Ok(units)
}

// The unit with these alternatives alone.
fn unit_with(
    alloc: Global,
    problem: &Problem,
    unit: u32,
    numbers: &[u32],
) -> Result<Chooser, Memory>
    requires unit { unit < unit_count problem.now }
    requires some { 0 < length numbers.now }
    requires few { length numbers.now ≤ alt_count problem.now unit }
    requires there { All (λ a. a < alt_count problem.now unit) numbers.now }
    ensures value { IfOk result (λ chooser. chooser
        ≡ unit_with (chooser_at problem.now unit) numbers.now) }
    ensures there { IfOk result (λ chooser. ArePartsInRange (resource_count problem.now) chooser) }
{
    let parts = copied_parts(alloc, problem.unit_parts(unit))?;
    let mut alts = Vec::with_capacity(alloc, numbers.len())?;
    for number in numbers {
        alts.push(problem.alt(unit, *number))?;
    }
    Ok(Chooser::new(parts, alts))
}

// The same parts.
fn copied_parts(alloc: Global, parts: &[Part]) -> Result<Vec<Part>, Memory>
    ensures { IfOk result (λ copies. copies.items ≡ parts.now) }
{
    let mut copies = Vec::with_capacity(alloc, parts.len())?;
    for part in parts {
        copies.push(Part::new(Vec::from_slice(alloc, part.strips())?))?;
    }
    Ok(copies)
}

// The limits of a problem.
fn limits_of(alloc: Global, problem: &Problem) -> Result<Vec<i64>, Memory>
    ensures value { IfOk result (λ limits. limits.items ≡ map pos problem.now.limits) }
    ensures few { IfOk result (λ limits. length limits.items ≤ MOST_RESOURCES) }
    ensures limits_from { IfOk result (λ limits. All (λ z. pos 0 ≤ℤ z) limits.items) }
    ensures limits_to { IfOk result (λ limits. All (λ z. z ≤ℤ HIGHEST_LIMIT) limits.items) }
{
    let mut limits = Vec::with_capacity(alloc, problem.resources() as usize)?;
    for resource in 0..problem.resources() {
        limits.push(problem.limit(resource))?;
    }
    Ok(limits)
}
