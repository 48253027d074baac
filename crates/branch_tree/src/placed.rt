//! What stands at listed resources.

ghost use Rattle.std.specs.Prelude.{◌≡◌, ℕ, ◌<◌, ◌≤◌, length, slice_index, IfOk, OnOk};
ghost use Rattle.choice_problem.specs.declared.problems.TheConstants.{MOST_UNITS};
ghost use Rattle.choice_problem.specs.Problems.{IsChooser, chooser_at, resource_count, unit_count};
ghost use Rattle.choice_problem.specs.Choices.{IsChoice, choice_cost};
ghost use Rattle.branch_tree.specs.Walks.{AreLimitsAt, AreLoadsAt};

use choice_problem::Problem;
use slot_text::Memory;
use std::alloc::Global;
use window_counts::{Counts, add_choice};

// What a choice costs, and what it uses of each of the listed resources.
pub(crate) fn choice_loads(
    alloc: Global,
    problem: &Problem,
    alts: &[u32],
    listed: &[u32],
) -> Result<(u64, Vec<u32>), Memory>
    requires alts { IsChoice problem.now alts.now }
    requires there { (i : ℕ) → i < length listed.now →
        slice_index listed.now i < resource_count problem.now }
    ensures cost { IfOk result (λ r. r.0 ≡ choice_cost problem.now alts.now) }
    ensures count { IfOk result (λ r. length r.1.items ≡ length listed.now) }
    ensures loads { IfOk result (λ r. AreLoadsAt problem.now alts.now listed.now r.1.items) }
    ensures units { OnOk result ((u : ℕ) → u < unit_count problem.now →
        IsChooser (chooser_at problem.now u)) }
    ensures few { OnOk result (unit_count problem.now ≤ MOST_UNITS) }
{
    let mut counts = Counts::of(alloc, &[], problem.resources())?;
    let cost = add_choice(problem, alts, &mut counts);
    let loads = counts_at(alloc, &counts, listed)?;
    Ok((cost, loads))
}

// The counts of the listed resources.
fn counts_at(alloc: Global, counts: &Counts, listed: &[u32]) -> Result<Vec<u32>, Memory>
    requires there { (i : ℕ) → i < length listed.now →
        slice_index listed.now i < length counts.now }
    ensures count { IfOk result (λ at. length at.items ≡ length listed.now) }
    ensures each { IfOk result (λ at. (i : ℕ) → i < length listed.now → slice_index at.items i
        ≡ slice_index counts.now (slice_index listed.now i)) }
{
    let mut at = Vec::with_capacity(alloc, listed.len())?;
    for place in 0..listed.len() {
        at.push(counts.count(listed[place]))?;
    }
    Ok(at)
}

// The limits of the listed resources.
pub(crate) fn limits_at(
    alloc: Global,
    problem: &Problem,
    listed: &[u32],
) -> Result<Vec<u32>, Memory>
    requires there { (i : ℕ) → i < length listed.now →
        slice_index listed.now i < resource_count problem.now }
    ensures count { IfOk result (λ at. length at.items ≡ length listed.now) }
    ensures each { IfOk result (λ at. AreLimitsAt problem.now listed.now at.items) }
{
    let mut at = Vec::with_capacity(alloc, listed.len())?;
    for place in 0..listed.len() {
        at.push(problem.limit(listed[place]) as u32)?;
    }
    Ok(at)
}
