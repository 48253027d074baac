//! The greedy start.

ghost use Rattle.std.specs.Prelude.{◌≡◌, ℕ, ◌+◌, ◌*◌, ◌<◌, ◌≤◌, List, [], length, slice_index, true, IfOk, IfSome, IfNone, IsTrue, ◌⊎◌};
ghost use Rattle.choice_problem.specs.declared.problems.TheConstants.{MOST_USES};
ghost use Rattle.std.specs.Option.{ForSome, option_map};
ghost use Rattle.choice_problem.specs.Problems.{unit_count, alt_count, alt_uses, resource_count, limit_of};
ghost use Rattle.choice_problem.specs.Choices.{IsFeasible, choice_cost};
ghost use Rattle.choice_problem.specs.Counts.{GrowsBy, HasRoom};
ghost use Rattle.choice_problem.specs.Greedy.{FitsOn, IsGreedyAlt, IsGreedy, GreedyStops, IsGreedyCost};
ghost use Rattle.window_counts.specs.Placed.{KeepsLimits};

use crate::cheapest_first::next_cheapest;
use choice_problem::{Choice, Problem, search_start};
use slot_text::Memory;
use std::alloc::Global;
use window_counts::{Counts, place_alt};

/// Unit after unit is given its cheapest alternative beside which no limit is passed, of several
/// the one of the lowest number. None exactly where one of them has no such alternative. It counts
/// in an array of one number a resource; a unit takes one step an alternative for each one that it
/// tries, and one step a use and strip of those.
pub fn greedy(alloc: Global, problem: &Problem) -> Result<Option<Choice>, Memory>
    ensures some { IfOk result (λ found. IfSome found
        (IsGreedy problem.now (unit_count problem.now))) }
    ensures feasible { IfOk result (λ found. IfSome found (IsFeasible problem.now)) }
    ensures none { IfOk result (λ found. IfNone found ((x : List ℕ) × GreedyStops problem.now x)) }
    ensures cost { IfOk result (λ found. IsGreedyCost problem.now
        (option_map (choice_cost problem.now) found)) }
{
    search_start();
    let mut counts = Counts::of(alloc, &[], problem.resources())?;
    let mut alts = Vec::new(alloc);
    if choose_all(problem, &mut counts, &mut alts)? {
        Ok(Some(Choice::new(alts)))
    } else {
        Ok(None)
    }
}

// Lets the units choose, and says whether each found an alternative.
fn choose_all(problem: &Problem, counts: &mut Counts, alts: &mut Vec<u32>) -> Result<bool, Memory>
    requires counts { length counts.old ≡ resource_count problem.now }
    requires empty { (r : ℕ) → r < length counts.old → slice_index counts.old r ≡ 0 }
    requires alts { alts.old.items ≡ [] }
    ensures yes { IfOk result (λ all. IsTrue all →
        IsGreedy problem.now (unit_count problem.now) alts.new.items) }
    ensures no { IfOk result (λ all. IsTrue all ⊎ GreedyStops problem.now alts.new.items) }
{
    for unit in 0..problem.units() {
        let Some(alt) = place_cheapest(problem, unit, counts) else {
            return Ok(false);
        };
        alts.push(alt)?;
    }
    Ok(true)
}

// Takes the cheapest alternative of a unit that fits on the counts, the lowest on ties, and counts
// its uses.
fn place_cheapest(problem: &Problem, unit: u32, counts: &mut Counts) -> Option<u32>
    requires unit { unit < unit_count problem.now }
    requires counts { KeepsLimits problem.now counts.old }
    requires room { HasRoom counts.old (λ _. MOST_USES) }
    ensures length { length counts.new ≡ length counts.old }
    ensures some { IfSome result (IsGreedyAlt problem.now (λ r. slice_index counts.old r) unit) }
    ensures placed { IfSome result (λ alt. GrowsBy counts.old counts.new
        (λ r. alt_uses problem.now unit alt r)) }
    ensures few { IfSome result (λ alt. (r : ℕ) → alt_uses problem.now unit alt r ≤ MOST_USES) }
    ensures none { IfNone result ((a : ℕ) → a < alt_count problem.now unit →
        FitsOn problem.now (λ r. slice_index counts.old r) unit a → ⊥) }
{
    let mut next = next_cheapest(problem, unit, None);
    while let Some(alt) = next {
        if place_alt(problem, unit, alt, counts) {
            return Some(alt);
        }
        next = next_cheapest(problem, unit, Some(alt));
    }
    None
}
