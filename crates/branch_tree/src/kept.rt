//! What a walk keeps of its ranges.

ghost use Rattle.std.specs.Prelude.{◌≡◌, ◌↔◌, ℕ, ◌+◌, ◌^◌, ◌<◌, ◌≤◌, length, slice_index, slice_set, IfOk, OnOk, OnErr, IsTrue};
ghost use Rattle.choice_problem.specs.declared.problems.TheConstants.{MOST_USES};
ghost use Rattle.finite_sums.specs.Sums.{least_within, IsFirstLeast};
ghost use Rattle.choice_problem.specs.Problems.{IsChooser, unit_count, alt_count, alt_cost, alt_uses, resource_count, chooser_at};
ghost use Rattle.choice_problem.specs.Choices.{IsChoice, choice_cost, load_of};
ghost use Rattle.choice_problem.specs.Counts.{GrowsBy, HasRoom};
ghost use Rattle.choice_problem.specs.Bounds.{AreRanges, Closes, least_load, low_of, high_of};
ghost use Rattle.choice_problem.specs.Splits.{IsCheapest, least_uses};
ghost use Rattle.choice_problem.specs.Counts.{HasUses};
ghost use Rattle.branch_tree.specs.Lists.{times_in, AreWithin, AreRanksOf};
ghost use Rattle.window_counts.specs.Placed.{AreZero};
ghost use Rattle.branch_tree.specs.Walks.{AreLeast, AreLists};
ghost use Rattle.window_counts.specs.Placed.{AreLoads};

use crate::least_uses::least_list;
use crate::runs::alt_runs;
use crate::tallies::{add_list, add_runs, take_list, take_runs};
use crate::uses::Uses;
use choice_problem::{Problem, Ranges};
use slot_text::Memory;
use std::alloc::Global;

// The least loads of the listed resources, as many counts of 0, and what each unit uses of these
// resources.
pub(crate) fn least_loads(
    alloc: Global,
    problem: &Problem,
    ranges: &Ranges,
    listed: &[u32],
    ranks: &[u32],
) -> Result<(Vec<u32>, Vec<u32>, Vec<Uses>), Memory>
    requires ranges { AreRanges problem.now ranges.now }
    requires ranks { AreRanksOf (resource_count problem.now) listed.now ranks.now }
    ensures count { IfOk result (λ r. length r.0.items ≡ length listed.now) }
    ensures least { IfOk result (λ r. AreLeast problem.now ranges.now listed.now r.0.items) }
    ensures zeros_count { IfOk result (λ r. length r.1.items ≡ length listed.now) }
    ensures zeros { IfOk result (λ r. AreZero r.1.items) }
    ensures lists { IfOk result (λ r.
        AreLists problem.now ranges.now listed.now (unit_count problem.now) r.2.items) }
{
    let mut least = vec![in alloc; 0; listed.len()]?;
    let mut zeros = vec![in alloc; 0; listed.len()]?;
    let lists = count_least(
        alloc, problem, ranges, listed, ranks, &mut least, &mut zeros,
    )?;
    Ok((least, zeros, lists))
}

// Counts the least loads of the listed resources on counts of 0, and answers what each unit uses of
// them.
fn count_least(
    alloc: Global,
    problem: &Problem,
    ranges: &Ranges,
    listed: &[u32],
    ranks: &[u32],
    least: &mut [u32],
    zeros: &mut [u32],
) -> Result<Vec<Uses>, Memory>
    requires ranges { AreRanges problem.now ranges.now }
    requires ranks { AreRanksOf (resource_count problem.now) listed.now ranks.now }
    requires count { length least.old ≡ length listed.now }
    requires empty { AreZero least.old }
    requires zeros_count { length zeros.old ≡ length listed.now }
    requires zeros { AreZero zeros.old }
    ensures least { OnOk result (AreLeast problem.now ranges.now listed.now least.new) }
    ensures lists { IfOk result (λ lists.
        AreLists problem.now ranges.now listed.now (unit_count problem.now) lists.items) }
    ensures zeros { AreZero zeros.new }
    ensures zeros_count { length zeros.new ≡ length listed.now }
{
    let mut lists = Vec::new(alloc);
    for unit in 0..problem.units() {
        let list = least_list(
            alloc,
            problem,
            unit,
            ranges.low(unit),
            ranges.high(unit),
            listed,
            ranks,
            zeros,
        )?;
        add_list(least, &list);
        lists.push(Uses::of(list))?;
    }
    Ok(lists)
}

// Moves counts from what a unit adds to them to what it adds else.
pub(crate) fn move_least(least: &mut [u32], was: &[u32], now: &[u32])
    requires was_within { AreWithin (length least.old) was.now }
    requires now_within { AreWithin (length least.old) now.now }
    requires held { (r : ℕ) → r < length least.old → times_in was.now r ≤ slice_index least.old r }
    requires few { (r : ℕ) → r < length least.old → slice_index least.old r < 2 ^ 31 }
    requires more { (r : ℕ) → r < length least.old → times_in now.now r ≤ MOST_USES }
    ensures { (r : ℕ) → r < length least.old → slice_index least.new r + times_in was.now r
        ≡ slice_index least.old r + times_in now.now r }
{
    take_list(least, was);
    add_list(least, now);
}

// Moves the loads of the listed resources from one alternative of a unit to another. After want of
// memory they are as before.
pub(crate) fn move_loads(
    alloc: Global,
    problem: &Problem,
    unit: u32,
    was: u32,
    now: u32,
    listed: &[u32],
    ranks: &[u32],
    loads: &mut [u32],
) -> Result<(), Memory>
    requires unit { unit < unit_count problem.now }
    requires was { was < alt_count problem.now unit }
    requires now { now < alt_count problem.now unit }
    requires ranks { AreRanksOf (resource_count problem.now) listed.now ranks.now }
    requires count { length loads.old ≡ length listed.now }
    requires few { (i : ℕ) → i < length loads.old → slice_index loads.old i < 2 ^ 31 }
    requires held { (i : ℕ) → i < length listed.now →
        alt_uses problem.now unit was (slice_index listed.now i) ≤ slice_index loads.old i }
    ensures length { length loads.new ≡ length loads.old }
    ensures moved { OnOk result ((i : ℕ) → i < length listed.now →
        slice_index loads.new i + alt_uses problem.now unit was (slice_index listed.now i)
        ≡ slice_index loads.old i + alt_uses problem.now unit now (slice_index listed.now i)) }
    ensures err { OnErr result (loads.new ≡ loads.old) }
{
    if was == now {
        return Ok(());
    }
    let from = alt_runs(alloc, problem, unit, was, listed, ranks)?;
    let to = alt_runs(alloc, problem, unit, now, listed, ranks)?;
    take_runs(loads, &from);
    add_runs(loads, &to);
    Ok(())
}

// Each unit's first cheapest alternative.
pub(crate) fn cheapest(
    alloc: Global,
    problem: &Problem,
    ranges: &Ranges,
) -> Result<Vec<u32>, Memory>
    requires { AreRanges problem.now ranges.now }
    ensures cheapest { IfOk result (λ alts. IsCheapest problem.now ranges.now alts.items) }
    ensures choice { IfOk result (λ alts. IsChoice problem.now alts.items) }
{
    let mut alts = Vec::new(alloc);
    for unit in 0..problem.units() {
        alts.push(first_cheapest(problem, unit, ranges.low(unit), ranges.high(unit)))?;
    }
    Ok(alts)
}

// The first cheapest alternative of a unit from one to another.
pub(crate) fn first_cheapest(problem: &Problem, unit: u32, low: u32, high: u32) -> u32
    requires unit { unit < unit_count problem.now }
    requires ordered { low ≤ high }
    requires there { high < alt_count problem.now unit }
    ensures cheapest { IsFirstLeast low high (λ b. alt_cost problem.now unit b) result }
    ensures there { result < alt_count problem.now unit }
{
    let mut best = low;
    for before in low..high {
        if problem.alt_cost(unit, before + 1) < problem.alt_cost(unit, best) {
            best = before + 1;
        }
    }
    best
}
