//! What a visit answers where no leaf closes: the cheapest choice, or where to split.

ghost use Rattle.std.specs.Prelude.{ℕ, ◌<◌, IfOk, IfSome, IfNone};
ghost use Rattle.choice_problem.specs.Problems.{unit_count, resource_count};
ghost use Rattle.choice_problem.specs.Choices.{Fits, IsFirstPassed};
ghost use Rattle.choice_problem.specs.Bounds.{AreRanges, IsOver};
ghost use Rattle.choice_problem.specs.Trees.{CanSplit};
ghost use Rattle.choice_problem.specs.Splits.{IsCheapest, IsSplitAt};
ghost use Rattle.branch_tree.specs.Visits.{IsFoundOrSplit};

use crate::answers::Visit;
use choice_problem::{Choice, Node, Problem, Ranges, cost_of, least_uses};
use slot_text::Memory;
use std::alloc::Global;

// The choice of each unit's first cheapest alternative where it fits, and else the split at the
// resource that it passes.
pub(crate) fn found_or_split(
    alloc: Global,
    problem: &Problem,
    ranges: &Ranges,
    alts: &[u32],
    passed: Option<u32>,
) -> Result<Visit, Memory>
    requires ranges { AreRanges problem.now ranges.now }
    requires alts { IsCheapest problem.now ranges.now alts.now }
    requires open { (r : ℕ) → r < resource_count problem.now → IsOver problem.now ranges.now r → ⊥ }
    requires passed { IfSome passed (IsFirstPassed problem.now alts.now) }
    requires fits { IfNone passed (Fits problem.now alts.now) }
    ensures { IfOk result (IsFoundOrSplit problem.now ranges.now) }
{
    let Some(resource) = passed else {
        return found(alloc, problem, ranges, alts);
    };
    let (unit, cut) = split_at(problem, ranges, alts, resource);
    Ok(Visit::Split { unit, cut })
}

// The choice of these alternatives, with its leaf.
fn found(alloc: Global, problem: &Problem, ranges: &Ranges, alts: &[u32]) -> Result<Visit, Memory>
    requires ranges { AreRanges problem.now ranges.now }
    requires alts { IsCheapest problem.now ranges.now alts.now }
    requires fits { Fits problem.now alts.now }
    ensures { IfOk result (IsFoundOrSplit problem.now ranges.now) }
{
    let choice = Choice::new(Vec::from_slice(alloc, alts)?);
    let cost = cost_of(problem, &choice);
    let leaf = Node::Leaf {
        vector: 0,
        scale: 1,
        seen: Some(cost),
    };
    Ok(Visit::Found(choice, leaf))
}

// The lowest unit that could use the resource less often, and the cut at its alternative. One step
// a unit that does not use it, and one an alternative in range and strip for the others up to that
// unit.
fn split_at(problem: &Problem, ranges: &Ranges, alts: &[u32], resource: u32) -> (u32, u32)
    requires ranges { AreRanges problem.now ranges.now }
    requires alts { IsCheapest problem.now ranges.now alts.now }
    requires passed { IsFirstPassed problem.now alts.now resource }
    requires open { IsOver problem.now ranges.now resource → ⊥ }
    ensures split { IsSplitAt problem.now ranges.now alts.now resource result.0 result.1 }
    ensures within { CanSplit ranges.now result.0 result.1 }
{
    for unit in 0..problem.units() {
        let alt = alts[unit as usize];
        let low = ranges.low(unit);
        let uses = problem.uses(unit, alt, resource);
        if uses > 0 && least_uses(problem, unit, low, ranges.high(unit), resource) < uses {
            return (unit, if low < alt { alt } else { alt + 1 });
        }
    }
    unreachable!()
}
