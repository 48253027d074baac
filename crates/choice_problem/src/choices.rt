//! Choices of one alternative for each unit.

ghost use Rattle.std.specs.Prelude.{◌≡◌, ◌↔◌, ℕ, ◌^◌, ◌<◌, ◌≤◌, length, slice_index, IfOk, IfSome, IfNone, IsTrue, pos, ◌≤ℤ◌};
ghost use Rattle.choice_problem.specs.Counts.{IsFirstAbove, limit_at};
ghost use Rattle.choice_problem.specs.Problems.{resource_count, limit_of};
ghost use Rattle.choice_problem.specs.Choices.{IsChoice, Fits, IsFirstPassed, choice_cost, load_of};

use crate::problems::Problem;
use slot_text::Memory;
use std::alloc::Global;
use std::marker::Model;

/// The number of the alternative that each unit takes, unit by unit.
#[derive(Drop)]
pub struct Choice {
    alts: Vec<u32>,
}

impl Model for Choice {
    ghost use Rattle.std.specs.Prelude.{List, ℕ};

    ghost Value = { List ℕ };

    ghost view = { λ c. c.alts.items };
}

impl Choice {
    ghost use Rattle.std.specs.Prelude.{◌≡◌, ◌↔◌, ◌<◌, length, slice_index, IsTrue};
    ghost use Rattle.choice_problem.specs.Choices.{IsChoice};

    /// The choice of these alternatives, one for each unit in order.
    pub fn new(alts: Vec<u32>) -> Choice
        ensures { result ≡ alts.items }
    {
        Choice { alts }
    }

    /// The alternatives, one for each unit in order.
    pub fn items(&self) -> &[u32]
        ensures { result.now ≡ self.now }
    {
        &self.alts
    }

    /// Whether there is one alternative for each unit of the problem, and each is there: one step a
    /// unit.
    pub fn is_for(&self, problem: &Problem) -> bool
        ensures { IsTrue result ↔ IsChoice problem.now self.now }
    {
        if self.alts.len() != problem.units() as usize {
            return false;
        }
        for unit in 0..problem.units() {
            if self.alt(unit) >= problem.alts(unit) {
                return false;
            }
        }
        true
    }

    /// The alternative of a unit.
    pub fn alt(&self, unit: u32) -> u32
        requires { unit < length self.now }
        ensures { result ≡ slice_index self.now unit }
    {
        self.alts[unit as usize]
    }
}

/// The sum of the costs of the chosen alternatives: one step a unit.
pub fn cost_of(problem: &Problem, choice: &Choice) -> u64
    requires { IsChoice problem.now choice.now }
    ensures value { result ≡ choice_cost problem.now choice.now }
    ensures small { result < 2 ^ 36 }
{
    let mut cost = 0;
    for unit in 0..problem.units() {
        cost += problem.alt_cost(unit, choice.alt(unit));
    }
    cost
}

/// Whether no resource is used above its limit. It counts in an array of one number a resource, and
/// takes time in proportion to the uses of the chosen parts and the number of resources.
pub fn fits(alloc: Global, problem: &Problem, choice: &Choice) -> Result<bool, Memory>
    requires { IsChoice problem.now choice.now }
    ensures { IfOk result (λ yes. IsTrue yes ↔ Fits problem.now choice.now) }
{
    Ok(first_passed(alloc, problem, choice)?.is_none())
}

/// The lowest resource that the choice uses above its limit, at the cost of `fits`.
pub fn first_passed(
    alloc: Global,
    problem: &Problem,
    choice: &Choice,
) -> Result<Option<u32>, Memory>
    requires { IsChoice problem.now choice.now }
    ensures some { IfOk result (λ found. IfSome found (IsFirstPassed problem.now choice.now)) }
    ensures none { IfOk result (λ found. IfNone found (Fits problem.now choice.now)) }
{
    let mut counts = vec![in alloc; 0; problem.resources() as usize]?;
    count_uses(problem, choice, &mut counts);
    Ok(first_above(problem, &counts))
}

// Counts the uses of the chosen alternatives.
fn count_uses(problem: &Problem, choice: &Choice, counts: &mut [u32])
    requires choice { IsChoice problem.now choice.now }
    requires counts { length counts.old ≡ resource_count problem.now }
    requires empty { (r : ℕ) → r < length counts.old → slice_index counts.old r ≡ 0 }
    ensures { (r : ℕ) → r < length counts.old → slice_index counts.new r
        ≡ load_of problem.now choice.now r }
{
    for unit in 0..problem.units() {
        problem.add_uses(unit, choice.alt(unit), counts);
    }
}

/// The lowest resource whose count is above its limit: one step a resource. There is one count for
/// each resource.
pub fn first_above(problem: &Problem, counts: &[u32]) -> Option<u32>
    requires { length counts.now ≡ resource_count problem.now }
    ensures there { IfSome result (λ r. r < resource_count problem.now) }
    ensures above { IfSome result (λ r. limit_of problem.now r < slice_index counts.now r) }
    ensures first { IfSome result (λ r. (q : ℕ) → q < r →
        slice_index counts.now q ≤ limit_of problem.now q) }
    ensures none { IfNone result ((r : ℕ) → r < resource_count problem.now →
        slice_index counts.now r ≤ limit_of problem.now r) }
{
    first_above_limit(counts, problem.limits())
}

/// The lowest resource whose count is above its limit, for counts and limits of as many resources:
/// one step a resource.
pub fn first_above_limit(counts: &[u32], limits: &[i64]) -> Option<u32>
    requires resources { length counts.now < 2 ^ 32 }
    requires limits { length limits.now ≡ length counts.now }
    ensures some { IfSome result (IsFirstAbove counts.now limits.now) }
    ensures none { IfNone result ((r : ℕ) → r < length counts.now →
        pos (slice_index counts.now r) ≤ℤ limit_at limits.now r) }
{
    for at in 0..counts.len() {
        if i64::from(counts[at]) > limits[at] {
            return Some(at as u32);
        }
    }
    None
}
